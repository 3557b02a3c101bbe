// What is done with a stored run, and stored runs of each kind of query, written out by hand: all
// at the challenges 2 and 10.

ghost use Rattle.std.specs.Prelude.{◌≤◌};

use crate::audit_frames::*;
use sip_advice::exit_code;
use sip_command_tests::case::Case;
use sip_command_tests::frames::*;
use sip_command_tests::row::{RunInput, bytes_of};
use sip_command_tests::sum_frames::*;
use sip_verifier::Status;
use std::alloc::Global;
use std::process::Abort;
use std::test::Fail;

// A query of each kind of version 1, and what an honest helper replied, from the frames that a
// version writes in its own way.
macro_rules! five_kinds {
    ($asks:ident, $sub:ident, $range:ident, $entry:ident, $leaves:ident, $node:ident) => {
        &[
            &$asks,
            &$sub,
            &BLOCK,
            &$range,
            &BLOCK,
            &F2,
            &BLOCK,
            &INNER,
            &BLOCK,
            &HEAVY_4,
            &BLOCK,
            &$entry,
            &SIBLINGS_3_1,
            &NO_SIBLINGS,
            &CLAIM_6,
            &ENTRIES_1,
            &ENTRIES_2,
            &CLAIM_35,
            &SQUARES_1,
            &SQUARES_2,
            &CLAIM_11,
            &PRODUCTS_1,
            &PRODUCTS_2,
            &$leaves,
            &LEVEL_END,
            &$node,
            &LEVEL_END,
        ]
    };
}

// In version 1, and in version 2.
pub const FIVE_KINDS: &[&[u8]] = five_kinds!(
    FIVE_ASKS, SUB_1_2, RANGE_1_3, ENTRY_2, LEAVES_5_1, NODE_OF_3
);

pub const FIVE_WIDE_KINDS: &[&[u8]] = five_kinds!(
    FIVE_WIDE_ASKS,
    SUB_1_2_WIDE,
    RANGE_1_3_WIDE,
    ENTRY_2_WIDE,
    LEAVES_5_1_WIDE,
    NODE_OF_3_WIDE
);

// The entries of side 0 that are half of its total of 9 or more, and what an honest helper replied.
pub const SHARE: &[&[u8]] = &[
    &ONE_WIDE_ASK,
    &HALF,
    &BLOCK,
    &LEAVES_5_1_WIDE,
    &LEVEL_END,
    &NODE_OF_3_WIDE,
    &LEVEL_END,
];

// What is done with a stored run: the words and the stream, the parts of the transcript, how it
// ends, and what it writes.
pub type Stored<'a> = (&'a str, &'a [u8], &'a [&'a [u8]], Status, &'a [u8]);

// Nothing is said on the link.
pub fn given<'a>(words: &'a str, stream: &'a [u8], transcript: &'a [u8]) -> RunInput<'a> {
    RunInput {
        words,
        stream,
        seed: transcript,
        replies: &[],
    }
}

fn code_of(status: &Status) -> u8 {
    match status {
        Status::Accepted | Status::Wrote => 0,
        Status::Rejected { .. } => 1,
        _ => 3,
    }
}

// Over ports that move at most a chunk in a call. Nothing is said on the link.
fn check_in(
    rt: &impl Abort,
    alloc: Global,
    given: &RunInput,
    chunk: usize,
    status: Status,
    report: &[u8],
) -> Result<(), Fail>
    requires { 1 ≤ chunk }
{
    let shown = given.run(alloc, chunk, None)?;
    let case = Case {
        name: given.words,
        number: chunk as u64,
    };
    case.ends(shown.status, status).expect(rt, "a case");
    case.holds(exit_code(&shown.status) == code_of(&status))
        .expect(rt, "a case");
    case.writes(shown.report.bytes(), report)
        .expect(rt, "a case");
    case.says(shown.peer.talk(), &[]).expect(rt, "a case");
    Ok(())
}

// In single bytes, and in pieces that are as long as is asked for.
pub fn check_stored(rt: &impl Abort, alloc: Global, stored: &Stored) -> Result<(), Fail> {
    let &(words, stream, parts, status, report) = stored;
    let transcript = bytes_of(alloc, parts)?;
    let given = given(words, stream, &transcript);
    check_in(rt, alloc, &given, 1, status, report)?;
    check_in(rt, alloc, &given, 10_000, status, report)
}

pub fn check_each(rt: &impl Abort, alloc: Global, each: &[Stored]) -> Result<(), Fail> {
    for stored in each {
        check_stored(rt, alloc, stored)?;
    }
    Ok(())
}
