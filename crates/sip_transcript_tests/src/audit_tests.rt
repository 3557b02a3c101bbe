// Stored runs that are judged again.

use crate::audit::{FIVE_KINDS, FIVE_WIDE_KINDS, SHARE, Stored, check_each, check_stored, given};
use crate::audit_frames::*;
use sip_command_tests::case::Case;
use sip_command_tests::frames::*;
use sip_command_tests::play::{BOTH_SIDES, Played, run_play, run_play_over};
use sip_command_tests::row::{At, Failing, RunInput};
use sip_command_tests::sum_frames::F2;
use sip_ports::{MemorySink, MemorySource};
use sip_stream::{Form, Why};
use sip_transcript::audit;
use sip_vector::Negatives;
use sip_verifier::{Port, Status};
use sip_wire::Reason;
use std::alloc::Global;
use std::process::Abort;
use std::test::Fail;

const FIVE_ANSWERS: &[u8] = b"sub:1:2 2:5\nrange:0:1:3 6\nf2:0 35\ninner 11\nheavy:0:4 2:5\n";

const AUDITS: &[Stored<'static>] = &[
    (
        "audit text:s t",
        BOTH_SIDES,
        FIVE_KINDS,
        Status::Accepted,
        FIVE_ANSWERS,
    ),
    (
        "audit text:s t",
        BOTH_SIDES,
        FIVE_WIDE_KINDS,
        Status::Accepted,
        FIVE_ANSWERS,
    ),
    // Half of the total of side 0 is 5.
    (
        "audit s t",
        &THREE_RECORDS,
        SHARE,
        Status::Accepted,
        b"share:0:1:2 2:5\n",
    ),
    (
        "audit wide:s t",
        &THREE_WIDE_RECORDS,
        &[
            &ONE_WIDE_ASK,
            &SUB_1_2_WIDE,
            &BLOCK,
            &ENTRY_2_WIDE,
            &SIBLINGS_3_1,
            &NO_SIBLINGS,
        ],
        Status::Accepted,
        b"sub:1:2 2:5\n",
    ),
    // No entry can be 10 or more where the total is 9, so nothing was asked.
    (
        "audit s t",
        &THREE_RECORDS,
        &[&ONE_ASK, &HEAVY_10, &BLOCK],
        Status::Accepted,
        b"heavy:0:10 none\n",
    ),
    (
        "audit s t",
        &THREE_RECORDS,
        &[&ONE_ASK, &HEAVY_10, &BLOCK, &LEVEL_END],
        Status::BadTranscript { offset: 36 },
        b"heavy:0:10 none\n",
    ),
    // A byte behind the verdict, of a rejection too, whose last byte is that which shows it.
    (
        "audit s t",
        &THREE_RECORDS,
        &[&TALK, &[0]],
        Status::BadTranscript { offset: 76 },
        b"sub:1:2 2:5\n",
    ),
    (
        "audit s t",
        &THREE_RECORDS,
        &[&ONE_ASK, &SUB_1_2, &BLOCK, &CLAIM_HEADER, &[0]],
        Status::BadTranscript { offset: 38 },
        b"rejected query 1 round 0 BadKind\n",
    ),
    // The head is read before the stream, and nothing is written before both are.
    (
        "audit s t",
        &DELTA_0,
        &[b"SIP"],
        Status::BadTranscript { offset: 0 },
        b"",
    ),
    (
        "audit s t",
        &THREE_RECORDS,
        &[&ONE_ASK, &SUB_1_2, &BLOCK_AT_1, &[0, 0, 0, 0, 0, 0, 0]],
        Status::BadTranscript { offset: 27 },
        b"",
    ),
    (
        "audit s t",
        &DELTA_0,
        &[&ONE_ASK, &SUB_1_2, &BLOCK],
        Status::BadStream {
            at: 0,
            why: Why::ZeroDelta,
        },
        b"",
    ),
    // The depth is that of the head.
    (
        "audit s t",
        &ITEM_4,
        &[&ONE_ASK, &SUB_1_2, &BLOCK],
        Status::BadStream {
            at: 0,
            why: Why::BadItem,
        },
        b"",
    ),
    (
        "audit s t",
        &RECORD_OF_65537,
        &[&ONE_ASK_AT_1, &HEAVY_1, &BLOCK_AT_1],
        Status::TooWide { query: 1 },
        b"",
    ),
    // Another stream than that of the run: entry 2 is 0 in it.
    (
        "audit s t",
        &TWO_RECORDS,
        &[&TALK],
        Status::Rejected {
            query: 1,
            round: 2,
            reason: Reason::Root,
        },
        b"rejected query 1 round 2 Root\n",
    ),
    // The replies end inside reply 1.
    (
        "audit s t",
        &THREE_RECORDS,
        &[
            &ONE_ASK,
            &SUB_1_2,
            &BLOCK,
            &ENTRY_2,
            &SIBLINGS_3_1,
            &PART_OF_NO_SIBLINGS,
        ],
        Status::Rejected {
            query: 1,
            round: 1,
            reason: Reason::Closed,
        },
        b"rejected query 1 round 1 Closed\n",
    ),
    // A second query, whose replies are not there.
    (
        "audit s t",
        &THREE_RECORDS,
        &[
            &TWO_ASKS,
            &SUB_1_2,
            &BLOCK,
            &F2,
            &BLOCK,
            &ENTRY_2,
            &SIBLINGS_3_1,
            &NO_SIBLINGS,
        ],
        Status::Rejected {
            query: 2,
            round: 0,
            reason: Reason::Closed,
        },
        b"sub:1:2 2:5\nrejected query 2 round 0 Closed\n",
    ),
];

#[test]
fn stored_runs_are_judged_again(rt: HostRuntime) -> Result<(), Fail> {
    check_each(&rt, rt.alloc(), AUDITS)
}

// A run of `play` over both sides: its words, how it ends, and its lines, which were found by hand.
type Run<'a> = (&'a str, Status, &'a str);

const ROW_LINES: &str = "sub:1:2 2:5\nf2:0 35\nheavy:0:4 2:5\nrange:0:1:3 6\n";

const RUNS: &[Run<'static>] = &[
    (
        "play text:s k honest r 2 sub:1:2 f2:0 heavy:0:4 range:0:1:3",
        Status::Accepted,
        ROW_LINES,
    ),
    (
        "play text:s k honest r 2 inner f2:1 share:1:1:2 heavy:0:10",
        Status::Accepted,
        "inner 11\nf2:1 54\nshare:1:1:2 1:7\nheavy:0:10 none\n",
    ),
    (
        "play text:s k honest r 33 sub:1:2 share:0:1:2",
        Status::Accepted,
        "sub:1:2 2:5\nshare:0:1:2 2:5\n",
    ),
    (
        "play text:s k skewed r 2 f2:1 heavy:1:7 f2:0",
        Status::Rejected {
            query: 3,
            round: 2,
            reason: Reason::Root,
        },
        "f2:1 54\nheavy:1:7 1:7\nrejected query 3 round 2 Root\n",
    ),
    (
        "play text:s k skewed r 2 heavy:0:4",
        Status::Rejected {
            query: 1,
            round: 1,
            reason: Reason::Total,
        },
        "rejected query 1 round 1 Total\n",
    ),
    (
        "play text:s k mute r 48 f2:1 inner",
        Status::Rejected {
            query: 1,
            round: 0,
            reason: Reason::Closed,
        },
        "rejected query 1 round 0 Closed\n",
    ),
];

// The run, which ends so and writes these lines.
fn kept(rt: &impl Abort, alloc: Global, &(name, status, lines): &Run) -> Result<Played, Fail> {
    let shown = run_play(alloc, name)?;
    let case = Case { name, number: 0 };
    case.holds(shown.ended == Some(status)).expect(rt, "a case");
    case.writes(shown.report.bytes(), lines.as_bytes())
        .expect(rt, "a case");
    Ok(shown)
}

// The audit of what a run keeps writes the lines of the run, and ends as it did.
fn check_agreeing(rt: &impl Abort, alloc: Global, runs: &[Run]) -> Result<(), Fail> {
    for &(words, status, lines) in runs {
        let shown = kept(rt, alloc, &(words, status, lines))?;
        let parts: &[&[u8]] = &[shown.keep.bytes()];
        let audit = (
            "audit text:s t",
            BOTH_SIDES,
            parts,
            status,
            lines.as_bytes(),
        );
        check_stored(rt, alloc, &audit)?;
    }
    Ok(())
}

// The first of these runs has a head of 114 bytes and 231 of replies. Without its last byte, and
// with one more.
fn check_ends(rt: &impl Abort, alloc: Global, run: &Run) -> Result<(), Fail> {
    let shown = kept(rt, alloc, run)?;
    let kept = &shown.keep;
    let Some((_, front)) = kept.bytes().split_last() else {
        return Err("a transcript")?;
    };
    let lines: &[u8] = b"sub:1:2 2:5\nf2:0 35\nheavy:0:4 2:5\nrejected query 4 round 1 Closed\n";
    let closed = Status::Rejected {
        query: 4,
        round: 1,
        reason: Reason::Closed,
    };
    let words = "audit text:s t";
    let parts: &[&[u8]] = &[front];
    check_stored(rt, alloc, &(words, BOTH_SIDES, parts, closed, lines))?;
    let longer = Status::BadTranscript { offset: 345 };
    let mut more = kept.bytes().to_vec(alloc)?;
    more.push(0)?;
    let parts: &[&[u8]] = &[&more];
    let stored = (words, BOTH_SIDES, parts, longer, ROW_LINES.as_bytes());
    check_stored(rt, alloc, &stored)?;
    let shown = given("show t", &[], kept.bytes()).run(alloc, 10_000, None)?;
    let case = Case {
        name: "show t",
        number: 0,
    };
    case.ends(shown.status, Status::Wrote).expect(rt, "a case");
    case.holds(shown.report.bytes().starts_with(b"depth 2\n"))
        .expect(rt, "a case");
    Ok(())
}

#[test]
fn an_audit_agrees_with_its_run(rt: HostRuntime) -> Result<(), Fail> {
    let alloc = rt.alloc();
    check_agreeing(&rt, alloc, RUNS)?;
    check_ends(&rt, alloc, &RUNS[0])
}

// A port of its audit in single bytes, the number of its calls, and how the audit ends where one of
// them fails.
type Calls = (At, u64, Status);

// The stream has 39 bytes and its end, the transcript 76 and its end, and the line 12.
const CALLS: &[Calls] = &[
    (At::First, 40, Status::ReadFault { port: Port::First }),
    (At::Second, 77, Status::ReadFault { port: Port::Second }),
    (At::Report, 12, Status::WriteFault { port: Port::Report }),
    (At::Peer, 0, Status::Accepted),
    (At::Keep, 0, Status::Accepted),
];

fn check_calls(rt: &impl Abort, alloc: Global, given: &RunInput, calls: Calls) -> Result<(), Fail> {
    let (at, count, fault) = calls;
    for number in 1..=count {
        let shown = given.run(alloc, 1, Some(Failing { at, number }))?;
        let case = Case {
            name: "a call fails",
            number,
        };
        case.ends(shown.status, fault).expect(rt, "a case");
        case.holds(b"sub:1:2 2:5\n".starts_with(shown.report.bytes()))
            .expect(rt, "a case");
    }
    let number = count.saturating_add(1);
    let shown = given.run(alloc, 1, Some(Failing { at, number }))?;
    let case = Case {
        name: "no call is to fail",
        number,
    };
    case.ends(shown.status, Status::Accepted)
        .expect(rt, "a case");
    Ok(())
}

#[test]
fn each_call_of_an_audit_fails_once(rt: HostRuntime) -> Result<(), Fail> {
    let alloc = rt.alloc();
    let given = given("audit s t", &THREE_RECORDS, &TALK);
    for &calls in CALLS {
        check_calls(&rt, alloc, &given, calls)?;
    }
    Ok(())
}

// Side 0 is (3, 0, 5, 0) and side 1 is (2, 7, 0, 0), each with a delta below 0 on the way.
const CREDITS: &[u8] = b"0 0 3\n0 2 6\n0 2 -1\n1 0 2\n1 1 8\n1 1 -1\n";

// A run over these sides, and of which of them its audit tells.
type Told<'a> = (&'a str, Status, Negatives);

const NONE: Negatives = Negatives {
    first: false,
    second: false,
};

const TOLD: &[Told<'static>] = &[
    (
        "play text:s k honest r 2 heavy:0:4 f2:1",
        Status::Accepted,
        Negatives {
            first: true,
            second: false,
        },
    ),
    (
        "play text:s k mute r 2 share:1:1:2",
        Status::Rejected {
            query: 1,
            round: 0,
            reason: Reason::Closed,
        },
        Negatives {
            first: false,
            second: true,
        },
    ),
    (
        "play text:s k honest r 2 f2:0 sub:0:3",
        Status::Accepted,
        NONE,
    ),
];

// How the audit of a run ends, and which sides it tells of.
fn told(alloc: Global, stream: &[u8], stored: &[u8]) -> Result<(Status, Negatives), Fail> {
    let mut first = MemorySource::new(stream.to_vec(alloc)?, 7, Vec::new(alloc));
    let mut second = MemorySource::new(stored.to_vec(alloc)?, 5, Vec::new(alloc));
    let mut report = MemorySink::new(alloc, 1_000, Vec::new(alloc));
    let mut told = Negatives {
        first: true,
        second: true,
    };
    let (from, by) = (&mut first, &mut second);
    let status = audit(alloc, Form::Text, from, by, &mut report, &mut told);
    Ok((status, told))
}

#[test]
fn credits_of_large_entries_are_told(rt: HostRuntime) -> Result<(), Fail> {
    let alloc = rt.alloc();
    for (name, status, sides) in TOLD {
        let shown = run_play_over(alloc, CREDITS, name)?;
        let case = Case { name, number: 0 };
        let (ended, told_of) = told(alloc, CREDITS, shown.keep.bytes())?;
        case.ends(ended, *status).expect(&rt, "a case");
        case.holds(told_of == *sides).expect(&rt, "a case");
    }
    let (ended, told_of) = told(alloc, CREDITS, b"SIP")?;
    let case = Case {
        name: "no head",
        number: 0,
    };
    case.ends(ended, Status::BadTranscript { offset: 0 })
        .expect(&rt, "a case");
    case.holds(told_of == NONE).expect(&rt, "a case");
    Ok(())
}
