// The transcript that a run of `verify` keeps.
ghost use Rattle.std.specs.Prelude.{◌≤◌};

use crate::duel::{duel, heard};
use sip_command_tests::case::Case;
use sip_command_tests::frames::*;
use sip_command_tests::row::{At, FIRST_GIVEN, Failing, REJECTED_GIVEN, RunInput, bytes_of};
use sip_stream::Why;
use sip_verifier::{Port, Status};
use sip_wire::Reason;
use std::alloc::Global;
use std::process::Abort;
use std::test::Fail;

// The head of the first run. The second word of the key stream is 0x28bd8653e56a5d40, and its
// challenge is it without the last three bits.
const HEAD: [u8; 35] = [
    b'S', b'I', b'P', b'T', 1, 2, 1, // version 1, depth 2, one query
    0x04, 0, 9, 1, 0, 0, 0, 1, 0, 0, 0, 2, // its frame
    0x12, 0x07, 0xbe, 0x34, 0x15, 0xbc, 0x17, 0x0e, // the challenge that is revealed
    0x05, 0x17, 0xb0, 0xca, 0x7c, 0xad, 0x4b, 0xa8, // the one that is not
];

// A run, how it ends, and the parts that are kept of it.
#[derive(Clone, Copy)]
struct Kept<'a> {
    name: &'a str,
    given: RunInput<'a>,
    status: Status,
    kept: &'a [&'a [u8]],
}

impl Kept<'_> {
    fn check_in(&self, rt: &impl Abort, alloc: Global, chunk: usize) -> Result<(), Fail>
        requires { 1 ≤ chunk }
    {
        let shown = self.given.run(alloc, chunk, None)?;
        let case = Case {
            name: self.name,
            number: chunk as u64,
        };
        case.ends(shown.status, self.status).expect(rt, "a case");
        case.writes(shown.keep.bytes(), &bytes_of(alloc, self.kept)?)
            .expect(rt, "a case");
        Ok(())
    }
}

// Runs each of them in single bytes, and in pieces that are as long as is asked for.
fn check_kept(rt: &impl Abort, alloc: Global, rows: &[Kept]) -> Result<(), Fail> {
    for row in rows {
        row.check_in(rt, alloc, 1)?;
        row.check_in(rt, alloc, 10_000)?;
    }
    Ok(())
}

// The head, and what was heard: of a rejected run too, where it ends in a part of a frame. The
// bytes behind the fault are not taken, and so not kept. A run that ends before its query has the
// head alone, and one without challenges nothing.
const KEPT: &[Kept<'static>] = &[
    Kept {
        name: "the first run",
        given: FIRST_GIVEN,
        status: Status::Accepted,
        kept: &[&HEAD, &ENTRY_2, &SIBLINGS_3_1, &NO_SIBLINGS],
    },
    Kept {
        name: "leaf 0 is not 4",
        given: REJECTED_GIVEN,
        status: Status::Rejected {
            query: 1,
            round: 2,
            reason: Reason::Root,
        },
        kept: &[&HEAD, &ENTRY_2, &SIBLINGS_4_1, &NO_SIBLINGS],
    },
    Kept {
        name: "two bytes of reply 1 come",
        given: RunInput {
            replies: &[&ENTRY_2, &SIBLINGS_3_1, &PART_OF_NO_SIBLINGS],
            ..FIRST_GIVEN
        },
        status: Status::Rejected {
            query: 1,
            round: 1,
            reason: Reason::Closed,
        },
        kept: &[&HEAD, &ENTRY_2, &SIBLINGS_3_1, &PART_OF_NO_SIBLINGS],
    },
    Kept {
        name: "a claim may not stand here",
        given: RunInput {
            replies: &[&CLAIM_HEADER, &ZEROS],
            ..FIRST_GIVEN
        },
        status: Status::Rejected {
            query: 1,
            round: 0,
            reason: Reason::BadKind,
        },
        kept: &[&HEAD, &CLAIM_HEADER],
    },
    Kept {
        name: "entries fall",
        given: RunInput {
            replies: &[&ENTRIES_2_1, &SIBLINGS_3_1],
            ..FIRST_GIVEN
        },
        status: Status::Rejected {
            query: 1,
            round: 0,
            reason: Reason::BadOrder,
        },
        kept: &[&HEAD, &ENTRIES_2_1],
    },
    Kept {
        name: "delta 0 is none",
        given: RunInput {
            stream: &DELTA_0,
            ..FIRST_GIVEN
        },
        status: Status::BadStream {
            at: 0,
            why: Why::ZeroDelta,
        },
        kept: &[&HEAD],
    },
    Kept {
        name: "31 bytes are no seed",
        given: RunInput {
            seed: &SHORT_SEED,
            ..FIRST_GIVEN
        },
        status: Status::BadSeed,
        kept: &[],
    },
];

#[test]
fn what_was_heard_is_kept_behind_the_head(rt: HostRuntime) -> Result<(), Fail> {
    check_kept(&rt, rt.alloc(), KEPT)
}

// Runs it in single bytes where a write to the record fails: a front of this is kept, and the
// report is whole lines of these.
fn check_failing(
    rt: &impl Abort,
    alloc: Global,
    given: &RunInput,
    number: u64,
    whole: &[u8],
    lines: &[u8],
) -> Result<(), Fail> {
    let at = At::Keep;
    let shown = given.run(alloc, 1, Some(Failing { at, number }))?;
    let case = Case {
        name: "the record fails",
        number,
    };
    case.ends(shown.status, Status::WriteFault { port: Port::Keep })
        .expect(rt, "a case");
    let (kept, report) = (shown.keep.bytes(), shown.report.bytes());
    case.holds(whole.starts_with(kept)).expect(rt, "a case");
    case.holds(kept.len() as u64 == number.wrapping_sub(1))
        .expect(rt, "a case");
    case.holds(lines.starts_with(report)).expect(rt, "a case");
    case.holds(report.is_empty() || report.ends_with(b"\n"))
        .expect(rt, "a case");
    Ok(())
}

// Each write of the record fails once in a run of four queries.
#[test]
fn each_write_of_the_record_fails_once(rt: HostRuntime) -> Result<(), Fail> {
    let alloc = rt.alloc();
    let words = "verify text:s seed a b - 2 sub:1:2 f2:0 heavy:0:4 range:0:1:3";
    let lines = b"sub:1:2 2:5\nf2:0 35\nheavy:0:4 2:5\nrange:0:1:3 6\n";
    let whole = duel(alloc, words, &THREE_LINES)?;
    let replies = heard(alloc, whole.peer.talk())?;
    let given = RunInput {
        words,
        stream: &THREE_LINES,
        seed: &ZERO_SEED,
        replies: &[&replies],
    };
    let kept = whole.keep.bytes();
    for number in 1..=kept.len() as u64 {
        check_failing(&rt, alloc, &given, number, kept, lines)?;
    }
    Ok(())
}
