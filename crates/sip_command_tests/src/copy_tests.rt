// The commands that copy a stream.

use crate::frames::*;
use crate::row::{Row, RunInput};
use sip_stream::Why;
use sip_vector::Side;
use sip_verifier::Status;
use std::alloc::Global;
use std::process::Abort;
use std::test::Fail;

// A command that copies what the stream has: its words, the stream, how it ends, with which exit
// code, and what it writes. Nothing is said on the link.
pub fn copy<'a>(
    words: &'a str,
    stream: &'a [u8],
    status: Status,
    code: u8,
    report: &'a [u8],
) -> Row<'a> {
    Row {
        name: words,
        given: RunInput {
            words,
            stream,
            seed: &ZERO_SEED,
            replies: &[],
        },
        status,
        code,
        report,
        sent: &[],
        then: &[],
    }
}

// Words, a stream, and what is written of it.
type Whole<'a> = (&'a str, &'a [u8], &'a [u8]);

fn check_whole(rt: &impl Abort, alloc: Global, rows: &[Whole]) -> Result<(), Fail> {
    for (words, stream, report) in rows {
        copy(words, stream, Status::Wrote, 0, report).check(rt, alloc)?;
    }
    Ok(())
}

// The lines of the records (0, 0, 3), (0, 2, 5), (0, 3, 1).
pub const THREE_LINES: &[u8] = b"0 0 3\n0 2 5\n0 3 1\n";

const WHOLE: &[Whole<'static>] = &[
    ("lines s 2", &THREE_RECORDS, THREE_LINES),
    ("lines text:s 2", THREE_LINES, THREE_LINES),
    ("gen 7 3 2", &THREE_RECORDS, &THREE_RECORDS),
    ("lines s 2", &[], &[]),
    ("lines text:s 2", &[], &[]),
    ("gen 7 0 2", &[], &[]),
    ("widen s 2", &THREE_RECORDS, &THREE_WIDE_RECORDS),
    ("widen text:s 2", THREE_LINES, &THREE_WIDE_RECORDS),
    ("widen wide:s 2", &THREE_WIDE_RECORDS, &THREE_WIDE_RECORDS),
    ("widen s 48", &THREE_RECORDS, &THREE_WIDE_RECORDS),
    ("lines wide:s 2", &THREE_WIDE_RECORDS, THREE_LINES),
    ("lines wide:s 48", &LAST_ITEM, b"0 281474976710655 -1\n"),
    ("widen text:s 48", b"0 281474976710655 -1\n", &LAST_ITEM),
    ("gen 7 1 48", &LAST_ITEM, &LAST_ITEM),
    ("widen wide:s 48", &[], &[]),
    // The greatest and the least delta, and the greatest item.
    (
        "lines text:s 32",
        b"1 4294967295 -1073741823\n0 0 1073741823\n",
        b"1 4294967295 -1073741823\n0 0 1073741823\n",
    ),
];

// Words, a stream, its first record that is not legal and why, and what is written: the records
// before it.
type Bad<'a> = (&'a str, &'a [u8], u64, Why, &'a [u8]);

fn check_bad(rt: &impl Abort, alloc: Global, rows: &[Bad]) -> Result<(), Fail> {
    for &(words, stream, at, why, report) in rows {
        copy(words, stream, Status::BadStream { at, why }, 3, report).check(rt, alloc)?;
    }
    Ok(())
}

const HEAVY: Why = Why::TooHeavy(Side::First);

const BAD: &[Bad<'static>] = &[
    ("lines s 1", &TOO_HEAVY, 1, HEAVY, b"0 0 1073741823\n"),
    ("lines s 1", &LEAST_DELTA, 0, HEAVY, &[]),
    ("gen 7 2 1", &TOO_HEAVY, 1, HEAVY, &GREATEST_RECORD),
    ("lines s 2", &ITEM_4, 0, Why::BadItem, &[]),
    ("lines s 2", &SIDE_2, 0, Why::BadSide, &[]),
    ("lines s 2", &DELTA_0, 0, Why::ZeroDelta, &[]),
    ("lines s 2", &TWELVE_BYTES, 0, Why::Truncated, &[]),
    ("gen 7 1 2", &TWELVE_BYTES, 0, Why::Truncated, &[]),
    (
        "lines text:s 2",
        b"0 0 3\n0 02 5\n",
        1,
        Why::BadLine,
        b"0 0 3\n",
    ),
    (
        "lines text:s 2",
        b"0 0 3\n0 2 5",
        1,
        Why::Truncated,
        b"0 0 3\n",
    ),
    ("lines text:s 2", b"2 0 3\n", 0, Why::BadSide, &[]),
    ("lines text:s 2", b"0 4 1\n", 0, Why::BadItem, &[]),
    ("lines text:s 2", b"0 0 0\n", 0, Why::ZeroDelta, &[]),
    ("widen wide:s 48", &ITEM_2_TO_48, 0, Why::BadItem, &[]),
    ("lines wide:s 47", &LAST_ITEM, 0, Why::BadItem, &[]),
    ("gen 7 1 33", &LAST_ITEM, 0, Why::BadItem, &[]),
    ("gen 7 1 33", &TWELVE_BYTES, 0, Why::Truncated, &[]),
    (
        "widen wide:s 2",
        &WIDE_RECORDS_CUT_SHORT,
        2,
        Why::Truncated,
        &TWO_WIDE_RECORDS,
    ),
    (
        "widen s 2",
        &RECORDS_CUT_SHORT,
        2,
        Why::Truncated,
        &TWO_WIDE_RECORDS,
    ),
    (
        "widen text:s 48",
        b"0 281474976710656 1\n",
        0,
        Why::BadItem,
        &[],
    ),
    // Records whose items have four bytes: as wide ones, item 0 has the delta 3 * 2^32.
    ("widen wide:s 2", &THREE_RECORDS, 0, HEAVY, &[]),
    // A line of text where records are asked for: the side is the digit 0, which has the code 48.
    ("lines s 2", THREE_LINES, 0, Why::BadSide, &[]),
];

#[test]
fn copies(rt: HostRuntime) -> Result<(), Fail> {
    check_whole(&rt, rt.alloc(), WHOLE)?;
    check_bad(&rt, rt.alloc(), BAD)
}
