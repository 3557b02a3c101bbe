// Runs of which one call of a port fails.
ghost use Rattle.std.specs.Prelude.{◌≤◌};

use crate::case::Case;
use crate::row::{At, Failing, Row};
use sip_advice::exit_code;
use sip_ports::TalkEvent;
use sip_verifier::{Port, Status};
use std::alloc::Global;
use std::process::Abort;
use std::test::Fail;

// Calls of a port, by the first and the last of their numbers, each of which fails once. How many
// events were said by then, and how many bytes were written, at least and at most.
#[derive(Clone, Copy)]
pub struct Calls<'a> {
    pub name: &'a str,
    pub at: At,
    pub from: u64,
    pub to: u64,
    pub said: (usize, usize),
    pub written: (usize, usize),
}

// The stream of the three records fails: three records and their end.
pub const STREAM_AT_ONCE: Calls<'static> = Calls {
    name: "the stream at once",
    at: At::First,
    from: 1,
    to: 4,
    said: (5, 5),
    written: (0, 0),
};

// The seed fails.
pub const SEED_AT_ONCE: Calls<'static> = Calls {
    name: "the seed at once",
    at: At::Second,
    from: 1,
    to: 1,
    said: (0, 0),
    written: (0, 0),
};

// A run whose ports move a byte a call, or as many as are asked for: the calls that fail, and some
// that the run does not make. Nothing is written while fewer events than `quiet` were said; and
// what is written is whole lines, where they are asked for.
#[derive(Clone, Copy)]
pub struct Cut<'a> {
    pub row: Row<'a>,
    pub by_the_byte: bool,
    pub calls: &'a [Calls<'a>],
    pub not_made: &'a [(At, u64)],
    pub quiet: usize,
    pub whole_lines: bool,
}

// How a run ends where a port fails.
fn fault_of(at: At) -> Status {
    match at {
        At::First => Status::ReadFault { port: Port::First },
        At::Second => Status::ReadFault { port: Port::Second },
        At::Peer => Status::PeerFault,
        At::Report => Status::WriteFault { port: Port::Report },
        At::Keep => Status::WriteFault { port: Port::Keep },
    }
}

fn is_between(number: usize, (least, most): (usize, usize)) -> bool {
    least <= number && number <= most
}

impl Cut<'_> {
    fn chunk(&self) -> usize
        ensures { 1 ≤ result }
    {
        if self.by_the_byte { 1 } else { 10_000 }
    }

    // Whether this much may be written where the call of this number fails, once so many events
    // were said. A first call that fails is of a run that has written nothing, and a report that is
    // written byte by byte has all bytes before.
    fn may_write(&self, calls: &Calls, number: u64, said: usize, written: &[u8]) -> bool {
        let (count, by_the_byte) = (written.len(), self.by_the_byte && calls.at == At::Report);
        is_between(count, calls.written)
            && (count == 0 || number > 1 && said >= self.quiet)
            && (count == 0 || !self.whole_lines || written.ends_with(b"\n"))
            && (!by_the_byte || count as u64 == number.wrapping_sub(1))
    }

    // Runs it with one call that fails. What is said and written is a front of what the whole run
    // says and writes.
    fn check_call(
        &self,
        rt: &impl Abort,
        alloc: Global,
        talk: &[TalkEvent],
        calls: &Calls,
        number: u64,
    ) -> Result<(), Fail> {
        let failing = Failing {
            at: calls.at,
            number,
        };
        let shown = self.row.given.run(alloc, self.chunk(), Some(failing))?;
        let case = Case {
            name: calls.name,
            number,
        };
        let (said, written) = (shown.peer.talk(), shown.report.bytes());
        case.ends(shown.status, fault_of(calls.at))
            .expect(rt, "a case");
        case.holds(exit_code(&shown.status) == 4)
            .expect(rt, "a case");
        case.holds(talk.starts_with(said) && is_between(said.len(), calls.said))
            .expect(rt, "a case");
        case.holds(self.row.report.starts_with(written))
            .expect(rt, "a case");
        case.holds(self.may_write(calls, number, said.len(), written))
            .expect(rt, "a case");
        Ok(())
    }

    // Runs it with each of the calls that fail, and with those that it does not make.
    pub fn check(&self, rt: &impl Abort, alloc: Global) -> Result<(), Fail> {
        let talk = self.row.talk(alloc)?;
        for calls in self.calls {
            for number in calls.from..=calls.to {
                self.check_call(rt, alloc, &talk, calls, number)?;
            }
        }
        for &(at, number) in self.not_made {
            let shown = self
                .row
                .given
                .run(alloc, self.chunk(), Some(Failing { at, number }))?;
            let case = Case {
                name: self.row.name,
                number,
            };
            case.ends(shown.status, self.row.status)
                .expect(rt, "a case");
        }
        Ok(())
    }
}

// A command that copies a stream and says nothing: calls of the stream by the first and the last of
// their numbers, each of which fails once, and how many bytes are written by then.
#[derive(Clone, Copy)]
pub struct Copied<'a> {
    pub name: &'a str,
    pub row: Row<'a>,
    pub by_the_byte: bool,
    pub calls: &'a [(u64, u64, usize)],
}

pub fn check_copied(rt: &impl Abort, alloc: Global, copies: &[Copied]) -> Result<(), Fail> {
    for copied in copies {
        for &(from, to, count) in copied.calls {
            let cut = Cut {
                row: copied.row,
                by_the_byte: copied.by_the_byte,
                calls: &[Calls {
                    name: copied.name,
                    at: At::First,
                    from,
                    to,
                    said: (0, 0),
                    written: (count, count),
                }],
                not_made: &[],
                quiet: 0,
                whole_lines: false,
            };
            cut.check(rt, alloc)?;
        }
    }
    Ok(())
}

pub fn check_cuts(rt: &impl Abort, alloc: Global, cuts: &[Cut]) -> Result<(), Fail> {
    for cut in cuts {
        cut.check(rt, alloc)?;
    }
    Ok(())
}
