//! A worked run: what goes in, and what has to come out.
ghost use Rattle.std.specs.Prelude.{◌≤◌};

use crate::frames::*;
use crate::run_in_memory;
use sip_ports::{MemoryLink, MemorySink, MemorySource, TalkEvent};
use sip_verifier::Status;
use sip_wire::Reason;
use sip_words::Words;
use std::alloc::Global;
use std::test::Fail;

/// What a run is given. Replies are parts that come one after another.
#[derive(Clone, Copy)]
pub struct RunInput<'a> {
    pub words: &'a str,
    pub stream: &'a [u8],
    pub seed: &'a [u8],
    pub replies: &'a [&'a [u8]],
}

/// One of the ports of a run.
#[derive(Clone, Copy, PartialEq, Eq)]
pub enum At {
    First,
    Second,
    Peer,
    Report,
    Keep,
}

/// The call of a port that is to fail; the first call has number 1.
#[derive(Clone, Copy)]
pub struct Failing {
    pub at: At,
    pub number: u64,
}

/// What a run showed.
#[derive(Drop)]
pub struct Shown {
    pub status: Status,
    pub peer: MemoryLink,
    pub report: MemorySink,
    pub keep: MemorySink,
}

/// A part of a talk.
#[derive(Clone, Copy)]
pub enum Said<'a> {
    Out(&'a [u8]),
    In(&'a [u8]),
    Ended,
}

/// What a run has to show: how it ends, with which exit code, the line that it writes, what is said
/// first, as all that it sends before it hears a reply, and what is said after that.
#[derive(Clone, Copy)]
pub struct Row<'a> {
    pub name: &'a str,
    pub given: RunInput<'a>,
    pub status: Status,
    pub code: u8,
    pub report: &'a [u8],
    pub sent: &'a [Said<'a>],
    pub then: &'a [Said<'a>],
}

/// The words of a text.
pub fn words_of(alloc: Global, text: &str) -> Result<Words, Fail> {
    let mut list = Vec::new(alloc);
    for word in text.split_whitespace() {
        list.push(String::from_str(alloc, word)?)?;
    }
    Ok(Words::of(list))
}

/// The parts, one after another.
pub fn bytes_of(alloc: Global, parts: &[&[u8]]) -> Result<Vec<u8>, Fail> {
    let mut bytes = Vec::new(alloc);
    for part in parts {
        bytes.extend_from_slice(part)?;
    }
    Ok(bytes)
}

fn push_events(events: &mut Vec<TalkEvent>, talk: &[Said]) -> Result<(), Fail> {
    for said in talk {
        match said {
            Said::Out(bytes) => {
                for byte in *bytes {
                    events.push(TalkEvent::Out(*byte))?;
                }
            }
            Said::In(bytes) => {
                for byte in *bytes {
                    events.push(TalkEvent::In(*byte))?;
                }
            }
            Said::Ended => events.push(TalkEvent::Ended)?,
        }
    }
    Ok(())
}

// The numbers of the calls of this port that are to fail.
fn fails(alloc: Global, failing: Option<Failing>, at: At) -> Result<Vec<u64>, Fail> {
    let mut numbers = Vec::new(alloc);
    if let Some(call) = failing
        && call.at == at
    {
        numbers.push(call.number)?;
    }
    Ok(numbers)
}

/// A source of these bytes, which moves at most a chunk in a call.
pub fn source(
    alloc: Global,
    bytes: &[u8],
    chunk: usize,
    failing: Option<Failing>,
    at: At,
) -> Result<MemorySource, Fail>
    requires { 1 ≤ chunk }
{
    let fails = fails(alloc, failing, at)?;
    Ok(MemorySource::new(bytes.to_vec(alloc)?, chunk, fails))
}

/// A link that brings these replies, and moves at most a chunk in a call.
pub fn link(
    alloc: Global,
    replies: &[&[u8]],
    chunk: usize,
    failing: Option<Failing>,
) -> Result<MemoryLink, Fail>
    requires { 1 ≤ chunk }
{
    let fails = fails(alloc, failing, At::Peer)?;
    Ok(MemoryLink::new(alloc, bytes_of(alloc, replies)?, chunk, fails))
}

impl RunInput<'_> {
    /// Runs it over ports that move at most a chunk in a call.
    pub fn run(&self, alloc: Global, chunk: usize, failing: Option<Failing>) -> Result<Shown, Fail>
        requires { 1 ≤ chunk }
    {
        let words = words_of(alloc, self.words)?;
        let mut first = source(alloc, self.stream, chunk, failing, At::First)?;
        let mut second = source(alloc, self.seed, chunk, failing, At::Second)?;
        let mut peer = link(alloc, self.replies, chunk, failing)?;
        let mut report = MemorySink::new(alloc, chunk, fails(alloc, failing, At::Report)?);
        let mut keep = MemorySink::new(alloc, chunk, fails(alloc, failing, At::Keep)?);
        let status = run_in_memory(
            alloc,
            &words,
            &mut first,
            &mut second,
            &mut peer,
            &mut report,
            &mut keep,
        );
        Ok(Shown {
            status,
            peer,
            report,
            keep,
        })
    }
}

impl Row<'_> {
    /// All that is to be said.
    pub fn talk(&self, alloc: Global) -> Result<Vec<TalkEvent>, Fail> {
        let mut events = Vec::new(alloc);
        push_events(&mut events, self.sent)?;
        push_events(&mut events, self.then)?;
        Ok(events)
    }
}

/// The leaves 3, 0, 5, 1, of which 1 to 2 are asked for.
pub const FIRST_GIVEN: RunInput<'static> = RunInput {
    words: "verify s seed a b - 2 sub:1:2",
    stream: &THREE_RECORDS,
    seed: &ZERO_SEED,
    replies: &[&ENTRY_2, &SIBLINGS_3_1, &NO_SIBLINGS],
};

pub const FIRST_RUN: Row<'static> = Row {
    name: "entry 2 is 5",
    given: FIRST_GIVEN,
    status: Status::Accepted,
    code: 0,
    report: b"sub:1:2 2:5\n",
    sent: &[
        Said::Out(&OPEN_2),
        Said::Out(&UPDATES_OF_THREE),
        Said::Out(&THREE_RECORDS),
        Said::Out(&END_STREAM),
        Said::Out(&SUB_1_2),
    ],
    then: &[
        Said::In(&ENTRY_2),
        Said::In(&SIBLINGS_3_1),
        Said::Out(&REVEAL),
        Said::In(&NO_SIBLINGS),
        Said::Out(&BYE),
    ],
};

/// The root tells that leaf 0 is not 4.
pub const REJECTED_GIVEN: RunInput<'static> = RunInput {
    replies: &[&ENTRY_2, &SIBLINGS_4_1, &NO_SIBLINGS],
    ..FIRST_GIVEN
};

pub const REJECTED_RUN: Row<'static> = Row {
    name: "a rejection",
    given: REJECTED_GIVEN,
    status: Status::Rejected {
        query: 1,
        round: 2,
        reason: Reason::Root,
    },
    code: 1,
    report: b"rejected query 1 round 2 Root\n",
    then: &[
        Said::In(&ENTRY_2),
        Said::In(&SIBLINGS_4_1),
        Said::Out(&REVEAL),
        Said::In(&NO_SIBLINGS),
    ],
    ..FIRST_RUN
};

/// A helper leaves the stream, the seed and the report alone.
pub const HELPING: RunInput<'static> = RunInput {
    words: "help from to",
    stream: &THREE_RECORDS,
    seed: &ZERO_SEED,
    replies: &[],
};

pub const SERVED: Row<'static> = Row {
    name: "",
    given: HELPING,
    status: Status::Served,
    code: 0,
    report: b"",
    sent: &[],
    then: &[],
};

/// The frame behind an empty stream over four items is none there.
pub const OUT_OF_TURN: Row<'static> = Row {
    status: Status::BadFrame { offset: 8 },
    code: 3,
    sent: &[Said::In(&OPEN_2), Said::In(&END_STREAM)],
    ..SERVED
};

/// The verifier leaves behind an empty stream over four items.
pub const LEFT: Row<'static> = Row {
    status: Status::PeerClosed,
    code: 4,
    sent: &[Said::In(&OPEN_2), Said::In(&END_STREAM)],
    then: &[Said::Ended],
    ..SERVED
};
