// Whole runs of lookups over ports in memory, each at the challenges of 32 zero bytes.
ghost use Rattle.std.specs.Prelude.{◌≤◌, IfOk};
ghost use Rattle.sip_lookup.specs.Tasks.{CanLookUp};

use crate::facts::expect;
use arrayvec::ArrayVec;
use sip_check_tests::events::events;
use sip_lookup::{LookTask, Lookup, look_stream};
use sip_ports::{MemoryLink, MemorySink, MemorySource, TalkEvent};
use sip_stream::Form;
use sip_vector::Depth;
use sip_verifier::Status;
use sip_wire::Reason;
use std::alloc::Global;
use std::process::Abort;
use std::test::Fail;

// The vector (3, 0, 5, 1), and what is sent of it.
const LINES: &[u8] = b"0 0 3\n0 2 5\n0 3 1\n";

const STREAM: [u8; 52] = [
    1, 0, 2, 1, 2, 2, 0, 41, 0, 3, 0, 0, 0, 0, 0, 0, 0, 0, 0, 0, 0, 0, 3, 0, 0, 0, 0, 2, 0, 0, 0,
    0, 0, 0, 0, 5, 0, 0, 0, 0, 3, 0, 0, 0, 0, 0, 0, 0, 1, 3, 0, 0,
];

// No records.
const NO_STREAM: [u8; 8] = [1, 0, 2, 1, 2, 3, 0, 0];

// An Ask of each lookup that is made here.
const ASK_INDEX_1: [u8; 12] = [0x21, 0, 9, 1, 0, 0, 0, 0, 0, 0, 0, 1];

const ASK_PRED_1: [u8; 12] = [0x21, 0, 9, 2, 0, 0, 0, 0, 0, 0, 0, 1];

const ASK_PRED_3: [u8; 12] = [0x21, 0, 9, 2, 0, 0, 0, 0, 0, 0, 0, 3];

const ASK_SUCC_1: [u8; 12] = [0x21, 0, 9, 3, 0, 0, 0, 0, 0, 0, 0, 1];

// A Found of each place, and of none.
const FOUND_0: [u8; 12] = [0x22, 0, 9, 1, 0, 0, 0, 0, 0, 0, 0, 0];

const FOUND_1: [u8; 12] = [0x22, 0, 9, 1, 0, 0, 0, 0, 0, 0, 0, 1];

const FOUND_2: [u8; 12] = [0x22, 0, 9, 1, 0, 0, 0, 0, 0, 0, 0, 2];

const FOUND_3: [u8; 12] = [0x22, 0, 9, 1, 0, 0, 0, 0, 0, 0, 0, 3];

const FOUND_NONE: [u8; 12] = [0x22, 0, 9, 0, 0, 0, 0, 0, 0, 0, 0, 0];

// The query for an interval.
const SUB_0_1: [u8; 12] = [4, 0, 9, 1, 0, 0, 0, 0, 0, 0, 0, 1];

const SUB_0_3: [u8; 12] = [4, 0, 9, 1, 0, 0, 0, 0, 0, 0, 0, 3];

const SUB_1_1: [u8; 12] = [4, 0, 9, 1, 0, 0, 0, 1, 0, 0, 0, 1];

const SUB_1_2: [u8; 12] = [4, 0, 9, 1, 0, 0, 0, 1, 0, 0, 0, 2];

const SUB_1_3: [u8; 12] = [4, 0, 9, 1, 0, 0, 0, 1, 0, 0, 0, 3];

// The entries of an interval, and the siblings of the lowest level.
const REPLY_0_1: [u8; 21] = [
    0x13, 0, 0x0e, 0, 1, 0, 0, 0, 0, 0, 0, 0, 0, 0, 0, 0, 3, 0x14, 0, 1, 0,
];

const REPLY_1_1: [u8; 12] = [0x14, 0, 9, 1, 0, 0, 0, 0, 0, 0, 0, 3];

const REPLY_1_2: [u8; 37] = [
    0x13, 0, 0x0e, 0, 1, 0, 0, 0, 2, 0, 0, 0, 0, 0, 0, 0, 5, 0x14, 0, 0x11, 3, 0, 0, 0, 0, 0, 0, 0,
    3, 0, 0, 0, 0, 0, 0, 0, 1,
];

const REPLY_1_3: [u8; 41] = [
    0x13, 0, 0x1a, 0, 2, 0, 0, 0, 2, 0, 0, 0, 0, 0, 0, 0, 5, 0, 0, 0, 3, 0, 0, 0, 0, 0, 0, 0, 1,
    0x14, 0, 9, 1, 0, 0, 0, 0, 0, 0, 0, 3,
];

// The first challenge of that seed, r, and the node above the items 2 and 3: 5 + r·1.
const REVEAL: [u8; 11] = [5, 0, 8, 0x12, 0x07, 0xbe, 0x34, 0x15, 0xbc, 0x17, 0x0e];

const NODE_1: [u8; 12] = [
    0x14, 0, 9, 2, 0x12, 0x07, 0xbe, 0x34, 0x15, 0xbc, 0x17, 0x13,
];

const NO_SIBLINGS: [u8; 4] = [0x14, 0, 1, 0];

const END: [u8; 3] = [0x23, 0, 0];

// Bytes where a Found is awaited that are none: another kind, an Ask, another length, a flag that
// is too high, a place beside the flag that names none, and a refusal.
const KIND: [u8; 3] = [0x14, 0, 1];

const SHORT: [u8; 3] = [0x22, 0, 8];

const FLAG_2: [u8; 12] = [0x22, 0, 9, 2, 0, 0, 0, 0, 0, 0, 0, 1];

const NONE_AT_1: [u8; 12] = [0x22, 0, 9, 0, 0, 0, 0, 0, 0, 0, 0, 1];

const REFUSED: [u8; 4] = [0x18, 0, 1, 1];

// A Found of the first place behind the stream.
const FOUND_4: [u8; 12] = [0x22, 0, 9, 1, 0, 0, 0, 0, 0, 0, 0, 4];

const BAD_FOUND: Status = Status::Rejected {
    query: 1,
    round: 0,
    reason: Reason::BadFound,
};

const NOT_ALONE: Status = Status::Rejected {
    query: 1,
    round: 2,
    reason: Reason::NotAlone,
};

// A run: its stream and what is sent of it, its lookup, what is sent and received then, by turns,
// its status and report.
type Row<'a> = (
    &'a str,
    &'a [u8],
    &'a [u8],
    Lookup,
    &'a [&'a [u8]],
    Status,
    &'a [u8],
);

fn rejected(reason: Reason) -> Status {
    Status::Rejected {
        query: 1,
        round: 0,
        reason,
    }
}

// A lookup with its Ask, and an answer that is no Found for it, behind which nothing is sent or
// received.
const HOSTILE: [(&str, Lookup, &[u8], &[u8], Reason, &[u8]); 10] = [
    (
        "siblings",
        Lookup::Succ(1),
        &ASK_SUCC_1,
        &KIND,
        Reason::BadKind,
        b"rejected query 1 round 0 BadKind\n",
    ),
    (
        "an End",
        Lookup::Pred(1),
        &ASK_PRED_1,
        &END,
        Reason::BadKind,
        b"rejected query 1 round 0 BadKind\n",
    ),
    (
        "a Found of 8 bytes",
        Lookup::Index(1),
        &ASK_INDEX_1,
        &SHORT,
        Reason::BadLength,
        b"rejected query 1 round 0 BadLength\n",
    ),
    (
        "a flag of 2",
        Lookup::Index(1),
        &ASK_INDEX_1,
        &FLAG_2,
        Reason::BadNumber,
        b"rejected query 1 round 0 BadNumber\n",
    ),
    (
        "none, at 1",
        Lookup::Pred(1),
        &ASK_PRED_1,
        &NONE_AT_1,
        Reason::BadNumber,
        b"rejected query 1 round 0 BadNumber\n",
    ),
    (
        "a refusal",
        Lookup::Pred(1),
        &ASK_PRED_1,
        &REFUSED,
        Reason::Refused(1),
        b"rejected query 1 round 0 Refused(1)\n",
    ),
    (
        "no index",
        Lookup::Index(1),
        &ASK_INDEX_1,
        &FOUND_NONE,
        Reason::BadFound,
        b"rejected query 1 round 0 BadFound\n",
    ),
    (
        "another index",
        Lookup::Index(1),
        &ASK_INDEX_1,
        &FOUND_2,
        Reason::BadFound,
        b"rejected query 1 round 0 BadFound\n",
    ),
    (
        "a place above the item",
        Lookup::Pred(1),
        &ASK_PRED_1,
        &FOUND_2,
        Reason::BadFound,
        b"rejected query 1 round 0 BadFound\n",
    ),
    (
        "a place that is no item",
        Lookup::Succ(1),
        &ASK_SUCC_1,
        &FOUND_4,
        Reason::BadFound,
        b"rejected query 1 round 0 BadFound\n",
    ),
];

const ROWS: [Row<'static>; 6] = [
    (
        "the value at 1",
        LINES,
        &STREAM,
        Lookup::Index(1),
        &[
            &ASK_INDEX_1,
            &FOUND_1,
            &SUB_1_1,
            &REPLY_1_1,
            &REVEAL,
            &NODE_1,
            &END,
        ],
        Status::Accepted,
        b"index:1 0\n",
    ),
    (
        "the nearest up to 1",
        LINES,
        &STREAM,
        Lookup::Pred(1),
        &[
            &ASK_PRED_1,
            &FOUND_0,
            &SUB_0_1,
            &REPLY_0_1,
            &REVEAL,
            &NODE_1,
            &END,
        ],
        Status::Accepted,
        b"pred:1 0:3\n",
    ),
    (
        "the nearest from 1 on",
        LINES,
        &STREAM,
        Lookup::Succ(1),
        &[
            &ASK_SUCC_1,
            &FOUND_2,
            &SUB_1_2,
            &REPLY_1_2,
            &REVEAL,
            &NO_SIBLINGS,
            &END,
        ],
        Status::Accepted,
        b"succ:1 2:5\n",
    ),
    (
        "none up to 3",
        &[],
        &NO_STREAM,
        Lookup::Pred(3),
        &[
            &ASK_PRED_3,
            &FOUND_NONE,
            &SUB_0_3,
            &NO_SIBLINGS,
            &REVEAL,
            &NO_SIBLINGS,
            &END,
        ],
        Status::Accepted,
        b"pred:3 none\n",
    ),
    (
        "a place below the item",
        LINES,
        &STREAM,
        Lookup::Succ(1),
        &[&ASK_SUCC_1, &FOUND_0],
        BAD_FOUND,
        b"rejected query 1 round 0 BadFound\n",
    ),
    (
        "a place behind the nearest",
        LINES,
        &STREAM,
        Lookup::Succ(1),
        &[
            &ASK_SUCC_1,
            &FOUND_3,
            &SUB_1_3,
            &REPLY_1_3,
            &REVEAL,
            &NO_SIBLINGS,
        ],
        NOT_ALONE,
        b"rejected query 1 round 2 NotAlone\n",
    ),
];

// A task of one lookup at an item of four.
fn task(lookup: Lookup) -> Result<LookTask, Fail>
    ensures { IfOk result CanLookUp }
{
    if lookup.item() >= 4 {
        return Err("an item")?;
    }
    let depth = Depth::new(2).ok_or("a depth")?;
    let mut lookups = ArrayVec::new();
    lookups.push(lookup);
    Ok(LookTask {
        depth,
        form: Form::Text,
        lookups,
    })
}

// All that is sent and received in a run, and what is received of it.
fn talk_of(rt: &impl Abort, alloc: Global, row: &Row) -> (Vec<TalkEvent>, Vec<u8>) {
    let (_, _, stream, _, parts, want, _) = row;
    let mut talk = events(alloc, &[(true, *stream)]).expect(rt, "memory");
    let mut heard = Vec::new(alloc);
    for (turn, bytes) in parts.iter().enumerate() {
        for byte in *bytes {
            if turn % 2 == 0 {
                talk.push(TalkEvent::Out(*byte)).expect(rt, "memory");
            } else {
                talk.push(TalkEvent::In(*byte)).expect(rt, "memory");
                heard.push(*byte).expect(rt, "memory");
            }
        }
    }
    if *want == rejected(Reason::Closed) {
        talk.push(TalkEvent::Ended).expect(rt, "memory");
    }
    (talk, heard)
}

fn check(rt: &impl Abort, alloc: Global, row: &Row, chunk: usize) -> Result<(), Fail>
    requires { 1 ≤ chunk }
{
    let (name, lines, _, lookup, _, want, report) = row;
    let task = task(*lookup)?;
    let (talk, heard) = talk_of(rt, alloc, row);
    let lines = lines.to_vec(alloc).expect(rt, "memory");
    let seed = vec![in alloc; 0; 32].expect(rt, "memory");
    let mut first = MemorySource::new(lines, chunk, Vec::new(alloc));
    let mut second = MemorySource::new(seed, chunk, Vec::new(alloc));
    let mut peer = MemoryLink::new(alloc, heard, chunk, Vec::new(alloc));
    let mut lines = MemorySink::new(alloc, chunk, Vec::new(alloc));
    let status = look_stream(alloc, &task, &mut first, &mut second, &mut peer, &mut lines);
    let facts = [
        status == *want,
        peer.talk() == talk.as_slice(),
        lines.bytes() == *report,
    ];
    expect(rt, name, &facts);
    Ok(())
}

fn check_rows(rt: &impl Abort, alloc: Global, rows: &[Row]) -> Result<(), Fail> {
    for row in rows {
        check(rt, alloc, row, 1)?;
        check(rt, alloc, row, 10_000)?;
    }
    Ok(())
}

#[test]
fn lookups_are_answered_or_rejected(rt: HostRuntime) -> Result<(), Fail> {
    check_rows(&rt, rt.alloc(), &ROWS)
}

// Checks a run whose second part is a Found that is none.
fn check_found(
    rt: &impl Abort,
    alloc: Global,
    name: &str,
    lookup: Lookup,
    parts: &[&[u8]],
    reason: Reason,
    report: &[u8],
) -> Result<(), Fail> {
    let status = rejected(reason);
    let row: Row = (name, LINES, &STREAM, lookup, parts, status, report);
    check(rt, alloc, &row, 1)?;
    check(rt, alloc, &row, 10_000)
}

#[test]
fn no_found_is_a_rejection(rt: HostRuntime) -> Result<(), Fail> {
    for (name, lookup, ask, answer, reason, report) in &HOSTILE {
        let parts = [*ask, *answer];
        check_found(&rt, rt.alloc(), name, *lookup, &parts, *reason, report)?;
    }
    Ok(())
}

// The link ends behind each part of a Found that is not all of it.
#[test]
fn a_cut_found_is_a_rejection(rt: HostRuntime) -> Result<(), Fail> {
    let (lookup, reason) = (Lookup::Pred(1), Reason::Closed);
    let report = b"rejected query 1 round 0 Closed\n";
    for end in 0..FOUND_0.len() {
        let parts: [&[u8]; 2] = [&ASK_PRED_1, &FOUND_0[..end]];
        check_found(&rt, rt.alloc(), "a cut", lookup, &parts, reason, report)?;
    }
    Ok(())
}
