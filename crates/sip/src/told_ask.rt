//! A link to a helper that is asked of a sketch, and says on the way which reply it waits for.

ghost use Rattle.std.specs.Prelude.{◌≡◌, ◌<◌, IfOk, OnOk, length};
ghost use Rattle.std.specs.Io.{ReadsAtMost, WritesAtMost};
ghost use Rattle.sip_ports.specs.Ports.{HasCause, Hears, Sends, StandsStill};

use arrayvec::ArrayVec;
use sip_ports::{Link, PortStop, Sink, StderrSink, write_whole};
use sip_stream::text::{put, put_number};

/// The first bytes of the frames behind which a reply is due: of the count of records that the
/// helper is to hear, of a lookup, of a moment, of a query, and of a challenge.
const RECALL: u8 = 0x27;

const ASK_LOOKUP: u8 = 0x21;

const ASK_MOMENT: u8 = 0x24;

const QUERY: u8 = 0x04;

const CHALLENGE: u8 = 0x05;

/// The line before it is heard what the helper holds.
const HOLDS: &str = "sip: progress: waiting for what the other side holds\n";

/// No line of a reply is longer.
const ROOM: usize = 128;

/// Where an ask is, by the frames that it sent.
#[derive(Clone, Copy, Debug, Default)]
struct Sent {
    // How many questions were asked.
    question: u8,
    // The round of the reply to the last one that is due or was heard.
    round: u8,
    // It is a lookup, and the query that proves its place was not sent yet.
    is_sought: bool,
    // A reply is due of which nothing was to be received yet.
    is_due: bool,
    // How many bytes of the frame under way are still to be sent.
    rest: usize,
}

impl Sent {
    /// The next question is asked.
    fn ask(&mut self, is_sought: bool) {
        self.question = self.question.saturating_add(1);
        self.round = 0;
        self.is_sought = is_sought;
        self.is_due = true;
    }

    /// A frame begins.
    fn begin(&mut self, frame: &[u8]) {
        match frame.first() {
            Some(&RECALL) => self.is_due = true,
            Some(&ASK_LOOKUP) => self.ask(true),
            Some(&ASK_MOMENT) => self.ask(false),
            Some(&QUERY) if self.is_sought => self.is_sought = false,
            Some(&QUERY) => self.ask(false),
            Some(&CHALLENGE) => {
                self.round = self.round.saturating_add(1);
                self.is_due = true;
            }
            _ => {}
        }
    }

    /// So many bytes of a buffer were sent: of the frame under way, or of one that is all of it.
    fn add(&mut self, buf: &[u8], count: usize) {
        if self.rest == 0 {
            self.begin(buf);
            self.rest = buf.len();
        }
        self.rest = self.rest.saturating_sub(count);
    }
}

/// A link that says, if it is to, before the first receive of each reply which one it waits for. It
/// passes on what its own link gives. That a line could not be written changes nothing.
#[derive(Drop)]
pub(crate) struct ToldAsk<L: Link + Drop> {
    link: L,
    rt: HostRuntime,
    sent: Option<Sent>,
}

impl<L: Link + Drop> ToldAsk<L> {
    /// A link over this one, over which nothing was sent.
    pub(crate) fn new(rt: &HostRuntime, link: L, tells: bool) -> ToldAsk<L> {
        ToldAsk {
            link,
            rt: *rt,
            sent: if tells { Some(Sent::default()) } else { None },
        }
    }

    /// Writes the line before a receive, if one is due.
    fn before_receive(&mut self)
        ensures { self.new.link ≡ self.old.link }
    {
        if let Some(sent) = &mut self.sent
            && sent.is_due
        {
            sent.is_due = false;
            say(&self.rt, sent.question, sent.round);
        }
    }
}

/// Writes the line of a reply; before the first question what is due is what the helper holds.
#[inline(never)]
fn say(rt: &HostRuntime, question: u8, round: u8) {
    let mut line: ArrayVec<u8, ROOM> = ArrayVec::new();
    if question == 0 {
        put(&mut line, HOLDS.as_bytes());
    } else {
        put(
            &mut line,
            b"sip: progress: waiting for the reply of question ",
        );
        put_number(&mut line, question as u64);
        put(&mut line, b" round ");
        put_number(&mut line, round as u64);
        put(&mut line, b"\n");
    }
    let _ = write_whole(&mut StderrSink::new(rt.stderr()), line.as_slice());
}

/// What its own link tells it tells.
impl<L: Link + Drop> Sink for ToldAsk<L> {
    ghost talk = { λ told. L.talk told.link };

    ghost faults = { λ told. L.faults told.link };

    ghost wants = { λ told. L.wants told.link };

    ghost is_sure = { λ told. L.is_sure told.link };

    ghost faults_fit = { λ told. L.faults_fit told.link };

    ghost wants_fit = { λ told. L.wants_fit told.link };

    ghost sure_counts = { λ told sure. L.sure_counts told.link sure };

    fn write(&mut self, buf: &[u8]) -> Result<usize, PortStop>
        ensures bound { WritesAtMost result buf.now }
        ensures takes { 0 < length buf.now → IfOk result (λ n. 0 < n) }
        ensures talk { Sends (L.talk self.old.link) (L.talk self.new.link) result buf.now }
        ensures empty { length buf.now ≡ 0
            → OnOk result (StandsStill L.faults L.wants self.old.link self.new.link) }
        ensures cause { HasCause L.faults L.wants L.is_sure self.old.link self.new.link result }
    {
        let count = self.link.write(buf)?;
        if let Some(sent) = &mut self.sent {
            sent.add(buf, count);
        }
        Ok(count)
    }
}

impl<L: Link + Drop> Link for ToldAsk<L> {
    fn recv(&mut self, buf: &mut [u8]) -> Result<usize, PortStop>
        ensures bound { ReadsAtMost result buf.new }
        ensures talk { Hears (L.talk self.old.link) (L.talk self.new.link) result buf.new }
        ensures empty { length buf.old ≡ 0
            → OnOk result (StandsStill L.faults L.wants self.old.link self.new.link) }
        ensures cause { HasCause L.faults L.wants L.is_sure self.old.link self.new.link result }
    {
        self.before_receive();
        self.link.recv(buf)
    }
}
