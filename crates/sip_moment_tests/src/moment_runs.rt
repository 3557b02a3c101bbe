//! Whole runs that ask for moments, over ports in memory, each at the challenges of 32 zero bytes.
ghost use Rattle.std.specs.Prelude.{◌≤◌, IfOk};
ghost use Rattle.sip_moments.specs.Tasks.{CanBeDone};

use crate::facts::expect_of;
use arrayvec::ArrayVec;
use sip_moments::{Moment, MomentTask, moment_stream};
use sip_ports::{MemoryLink, MemorySink, MemorySource, TalkEvent};
use sip_stream::Form;
use sip_vector::{Depth, Side};
use sip_verifier::Status;
use std::alloc::Global;
use std::process::Abort;
use std::test::Fail;

/// A question for a moment: the claim, and for each round the challenge that was revealed before
/// it, which reply 0 has not, with the polynomial.
pub(crate) struct MomentRounds {
    pub(crate) side: Side,
    pub(crate) degree: u8,
    pub(crate) claim: i64,
    pub(crate) rounds: &'static [(u64, &'static [u64])],
}

/// What is sent once all moments were accepted.
pub(crate) const END: [u8; 3] = [0x23, 0, 0];

/// The events of a talk, and the bytes that are heard in it.
#[derive(Drop)]
pub(crate) struct Talk {
    pub(crate) events: Vec<TalkEvent>,
    pub(crate) heard: Vec<u8>,
}

impl Talk {
    pub(crate) fn new(alloc: Global) -> Talk {
        Talk {
            events: Vec::new(alloc),
            heard: Vec::new(alloc),
        }
    }

    pub(crate) fn say(&mut self, rt: &impl Abort, bytes: &[u8]) {
        for byte in bytes {
            let event = TalkEvent::Out(*byte);
            self.events.push(event).expect(rt, "memory");
        }
    }

    pub(crate) fn hear(&mut self, rt: &impl Abort, bytes: &[u8]) {
        for byte in bytes {
            self.events.push(TalkEvent::In(*byte)).expect(rt, "memory");
            self.heard.push(*byte).expect(rt, "memory");
        }
    }

    fn hear_polynomial(&mut self, rt: &impl Abort, polynomial: &[u64]) {
        let count = u8::try_from(polynomial.len()).expect(rt, "a degree");
        let length = count.checked_mul(8).expect(rt, "a degree");
        self.hear(rt, &[0x25, 0, length]);
        for coefficient in polynomial {
            self.hear(rt, &coefficient.to_be_bytes());
        }
    }

    /// A question, and all replies to it.
    pub(crate) fn ask(&mut self, rt: &impl Abort, asked: &MomentRounds) {
        let side = match asked.side {
            Side::First => 0,
            Side::Second => 1,
        };
        self.say(rt, &[0x24, 0, 2, side, asked.degree]);
        for (round, (revealed, polynomial)) in asked.rounds.iter().enumerate() {
            if round == 0 {
                self.hear(rt, &[0x11, 0, 8]);
                self.hear(rt, &asked.claim.to_be_bytes());
            } else {
                self.say(rt, &[5, 0, 8]);
                self.say(rt, &revealed.to_be_bytes());
            }
            self.hear_polynomial(rt, polynomial);
        }
    }
}

/// A task of these moments of a text.
pub(crate) fn task(depth: u8, moments: &[Moment]) -> Result<MomentTask, Fail>
    ensures { IfOk result CanBeDone }
{
    let depth = Depth::new(depth).ok_or("a depth")?;
    let mut list = ArrayVec::new();
    for moment in moments {
        if moment.degree < 3 || moment.degree > 8 || list.try_push(*moment).is_err() {
            return Err("a moment")?;
        }
    }
    if list.is_empty() {
        return Err("a moment")?;
    }
    Ok(MomentTask {
        depth,
        form: Form::Text,
        moments: list,
    })
}

/// A task of one moment.
pub(crate) fn one(depth: u8, side: Side, degree: u8) -> Result<MomentTask, Fail>
    ensures { IfOk result CanBeDone }
{
    task(depth, &[Moment { side, degree }])
}

/// Runs a task over a stream and a link that gives what is heard in the talk.
pub(crate) fn check(
    rt: &impl Abort,
    alloc: Global,
    name: &str,
    task: &MomentTask,
    stream: &[u8],
    chunk: usize,
    talk: &Talk,
    want: Status,
    report: &[u8],
)
    requires task { CanBeDone task.now }
    requires chunk { 1 ≤ chunk }
{
    let stream = stream.to_vec(alloc).expect(rt, "memory");
    let seed = vec![in alloc; 0; 32].expect(rt, "memory");
    let heard = talk.heard.to_vec(alloc).expect(rt, "memory");
    let mut first = MemorySource::new(stream, chunk, Vec::new(alloc));
    let mut second = MemorySource::new(seed, chunk, Vec::new(alloc));
    let mut peer = MemoryLink::new(alloc, heard, chunk, Vec::new(alloc));
    let mut lines = MemorySink::new(alloc, chunk, Vec::new(alloc));
    let status = moment_stream(alloc, task, &mut first, &mut second, &mut peer, &mut lines);
    let facts = [
        status == want,
        peer.talk() == talk.events.as_slice(),
        lines.bytes() == report,
    ];
    expect_of(rt, name, &facts);
}
