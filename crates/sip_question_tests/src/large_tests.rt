// Large entries of a stream that took away, asked of a helper with a store, and replies to them
// that are not accepted.

use crate::facts::expect;
use crate::hostile::{ENTRY_OF_6, HELD, Hostile, REFUSE, check_hostile_of};
use crate::kinds::{Kind, asked_by};
use crate::large::{
    ABOVE_3, ABOVE_6, ABOVE_20, ALL_MARKS, MARKS, NO_NODES, NODE, STORE, numbers_of_large,
};
use crate::store_tests::served;
use sip_check_tests::frames::{BYE, FOUND_2, LEAVES, NODES, SUM};
use sip_questions::StoreStatus;
use sip_stream::Form;
use sip_wire::{Reason, Version};
use std::test::Fail;

// Version 2 at depth 2, and all four records; and what these come to.
const OPENING: [u8; 16] = [1, 0, 2, 2, 2, 0x27, 0, 8, 0, 0, 0, 0, 0, 0, 0, 4];

const FOUR: [u8; 35] = [
    0x26, 0, 0x20, 0, 0, 0, 0, 0, 0, 0, 4, 0, 0, 0, 0, 0, 0, 0, 0x13, 0, 0, 0, 0, 0, 0, 0, 0, 0xda,
    0x3a, 0x3f, 0x7e, 0x3c, 0xbe, 0x72, 0x4e,
];

// What is asked, and what is replied.
const ROWS: [(Kind, &[&[u8]]); 3] = [
    (ABOVE_3, &[&ALL_MARKS, &NO_NODES]),
    (ABOVE_6, &[&MARKS, &NODE]),
    (ABOVE_20, &[]),
];

#[test]
fn entries_are_large_by_their_values(rt: HostRuntime) -> Result<(), Fail> {
    let alloc = rt.alloc();
    for (kind, replies) in &ROWS {
        let said = [kind.said.concat(alloc)?.as_slice(), &BYE].concat(alloc)?;
        let talk = [OPENING.as_slice(), &said].concat(alloc)?;
        let (end, sent) = served(alloc, (Form::Text, STORE, &talk), 7, (&[], &[]))?;
        let replies = replies.concat(alloc)?;
        let numbers = numbers_of_large();
        let want = [FOUR.as_slice(), &replies].concat(alloc)?;
        let came = asked_by(alloc, Version::Two, &numbers, &[kind.question], replies, 7)?;
        let facts = [
            end == StoreStatus::Served,
            sent == want,
            came.ended == Ok(()),
            came.sent == said,
            came.lines.as_slice() == kind.line,
        ];
        expect(&rt, "large entries", &facts);
    }
    Ok(())
}

// Marks: of 49 bytes, one as two, one of two that belong together, falling ones, a
// pair that need not be shown, and those of weights that come to 20.
const SHORT_MARKS: [u8; 3] = [0x28, 0, 49];

const ONE_AS_TWO: [u8; 29] = [
    0x28, 0, 0x1a, 0, 2, 0, 0, 0, 0, 0, 0, 0, 2, 0xff, 0xff, 0xff, 0xff, 0xff, 0xff, 0xff, 0xf7, 0,
    0, 0, 0, 0, 0, 0, 9,
];

const MARK_2: [u8; 32] = [
    0x28, 0, 0x1a, 0, 1, 0, 0, 0, 0, 0, 0, 0, 2, 0xff, 0xff, 0xff, 0xff, 0xff, 0xff, 0xff, 0xf7, 0,
    0, 0, 0, 0, 0, 0, 9, 0x17, 0, 0,
];

const MARKS_3_2: [u8; 53] = [
    0x28, 0, 0x32, 0, 2, 0, 0, 0, 0, 0, 0, 0, 3, 0, 0, 0, 0, 0, 0, 0, 3, 0, 0, 0, 0, 0, 0, 0, 5, 0,
    0, 0, 0, 0, 0, 0, 2, 0xff, 0xff, 0xff, 0xff, 0xff, 0xff, 0xff, 0xf7, 0, 0, 0, 0, 0, 0, 0, 9,
];

const MARKS_OF_20: [u8; 56] = [
    0x28, 0, 0x32, 0, 2, 0, 0, 0, 0, 0, 0, 0, 2, 0xff, 0xff, 0xff, 0xff, 0xff, 0xff, 0xff, 0xf7, 0,
    0, 0, 0, 0, 0, 0, 9, 0, 0, 0, 0, 0, 0, 0, 3, 0, 0, 0, 0, 0, 0, 0, 3, 0, 0, 0, 0, 0, 0, 0, 0xb,
    0x17, 0, 0,
];

// A value above its weight, one as far below 0, one above 2^60 - 1, and a weight of p.
const VALUE_ABOVE: [u8; 29] = [
    0x28, 0, 0x1a, 0, 1, 0, 0, 0, 0, 0, 0, 0, 2, 0, 0, 0, 0, 0, 0, 0, 0xa, 0, 0, 0, 0, 0, 0, 0, 9,
];

const VALUE_BELOW: [u8; 29] = [
    0x28, 0, 0x1a, 0, 1, 0, 0, 0, 0, 0, 0, 0, 2, 0xff, 0xff, 0xff, 0xff, 0xff, 0xff, 0xff, 0xf6, 0,
    0, 0, 0, 0, 0, 0, 9,
];

const VALUE_HUGE: [u8; 29] = [
    0x28, 0, 0x1a, 0, 1, 0, 0, 0, 0, 0, 0, 0, 2, 0x10, 0, 0, 0, 0, 0, 0, 0, 0x1f, 0xff, 0xff, 0xff,
    0xff, 0xff, 0xff, 0xfe,
];

const WEIGHT_HUGE: [u8; 29] = [
    0x28, 0, 0x1a, 0, 1, 0, 0, 0, 0, 0, 0, 0, 2, 0, 0, 0, 0, 0, 0, 0, 0, 0x1f, 0xff, 0xff, 0xff,
    0xff, 0xff, 0xff, 0xff,
];

// Another value, weights as values, and values as weights; then nodes of 6, of 4 and of another
// hash.
const VALUE_OF_4: [u8; 56] = [
    0x28, 0, 0x32, 0, 2, 0, 0, 0, 0, 0, 0, 0, 2, 0xff, 0xff, 0xff, 0xff, 0xff, 0xff, 0xff, 0xf7, 0,
    0, 0, 0, 0, 0, 0, 9, 0, 0, 0, 0, 0, 0, 0, 3, 0, 0, 0, 0, 0, 0, 0, 4, 0, 0, 0, 0, 0, 0, 0, 5,
    0x17, 0, 0,
];

const BY_WEIGHTS: [u8; 56] = [
    0x28, 0, 0x32, 0, 2, 0, 0, 0, 0, 0, 0, 0, 2, 0, 0, 0, 0, 0, 0, 0, 9, 0, 0, 0, 0, 0, 0, 0, 9, 0,
    0, 0, 0, 0, 0, 0, 3, 0, 0, 0, 0, 0, 0, 0, 5, 0, 0, 0, 0, 0, 0, 0, 5, 0x17, 0, 0,
];

const BY_VALUES: [u8; 56] = [
    0x28, 0, 0x32, 0, 2, 0, 0, 0, 0, 0, 0, 0, 2, 0xff, 0xff, 0xff, 0xff, 0xff, 0xff, 0xff, 0xf7, 0,
    0, 0, 0, 0, 0, 0, 9, 0, 0, 0, 0, 0, 0, 0, 3, 0, 0, 0, 0, 0, 0, 0, 3, 0, 0, 0, 0, 0, 0, 0, 3,
    0x17, 0, 0,
];

const NODE_OF_6: [u8; 29] = [
    0x16, 0, 0x1a, 0, 1, 0, 0, 0, 0, 0, 0, 0, 0, 0, 0, 0, 0, 0, 0, 0, 0x3c, 0, 0, 0, 0, 0, 0, 0, 6,
];

const NODE_OF_4: [u8; 32] = [
    0x16, 0, 0x1a, 0, 1, 0, 0, 0, 0, 0, 0, 0, 0, 0, 0, 0, 0, 0, 0, 0, 0x3c, 0, 0, 0, 0, 0, 0, 0, 4,
    0x17, 0, 0,
];

const NODE_OF_61: [u8; 32] = [
    0x16, 0, 0x1a, 0, 1, 0, 0, 0, 0, 0, 0, 0, 0, 0, 0, 0, 0, 0, 0, 0, 0x3d, 0, 0, 0, 0, 0, 0, 0, 5,
    0x17, 0, 0,
];

// Where marks are due, and something else comes.
const OF_OTHERS: [Hostile; 8] = [
    ("nothing", &[], 1, 0, Reason::Closed),
    ("a Found", &[&FOUND_2], 1, 0, Reason::BadKind),
    ("a claim", &[&SUM], 1, 0, Reason::BadKind),
    ("entries", &[&ENTRY_OF_6], 1, 0, Reason::BadKind),
    ("leaves", &[&LEAVES], 1, 0, Reason::BadKind),
    ("nodes", &[&NODES], 1, 0, Reason::BadKind),
    ("what was heard", &[&HELD], 1, 0, Reason::BadKind),
    ("a refusal", &[&REFUSE], 1, 0, Reason::Refused(1)),
];

// Where the marks have a fault.
const OF_MARKS: [Hostile; 10] = [
    (
        "marks of 49 bytes",
        &[&SHORT_MARKS],
        1,
        0,
        Reason::BadLength,
    ),
    ("one mark as two", &[&ONE_AS_TWO], 1, 0, Reason::BadCount),
    ("a value above", &[&VALUE_ABOVE], 1, 0, Reason::BadNumber),
    ("a value below", &[&VALUE_BELOW], 1, 0, Reason::BadNumber),
    ("a value of 2^60", &[&VALUE_HUGE], 1, 0, Reason::BadNumber),
    ("a weight of p", &[&WEIGHT_HUGE], 1, 0, Reason::BadNumber),
    ("mark 3 is missing", &[&MARK_2], 1, 0, Reason::Pairs),
    ("marks fall", &[&MARKS_3_2], 1, 0, Reason::BadOrder),
    ("a light pair", &[&ALL_MARKS], 1, 0, Reason::LightParent),
    ("marks of 20", &[&MARKS_OF_20], 1, 0, Reason::Total),
];

// Where a node is due behind them.
const OF_NODES: [Hostile; 6] = [
    ("a Found", &[&MARKS, &FOUND_2], 2, 1, Reason::BadKind),
    ("leaves", &[&MARKS, &LEAVES], 2, 1, Reason::BadKind),
    ("marks", &[&MARKS, &MARKS], 2, 1, Reason::BadKind),
    (
        "a node of 6",
        &[&MARKS, &NODE_OF_6],
        2,
        1,
        Reason::HeavySibling,
    ),
    ("a node of 4", &[&MARKS, &NODE_OF_4], 2, 2, Reason::Total),
    ("another hash", &[&MARKS, &NODE_OF_61], 2, 2, Reason::Root),
];

// What shows at the root.
const OF_NUMBERS: [Hostile; 3] = [
    ("another value", &[&VALUE_OF_4, &NODE], 2, 2, Reason::Root),
    (
        "weights as values",
        &[&BY_WEIGHTS, &NODE],
        2,
        2,
        Reason::Root,
    ),
    (
        "values as weights",
        &[&BY_VALUES, &NODE],
        2,
        2,
        Reason::Total,
    ),
];

#[test]
fn replies_that_are_no_marks(rt: HostRuntime) -> Result<(), Fail> {
    let by = (Version::Two, &numbers_of_large());
    check_hostile_of(&rt, rt.alloc(), by, &ABOVE_6, &OF_OTHERS)?;
    check_hostile_of(&rt, rt.alloc(), by, &ABOVE_6, &OF_MARKS)
}

#[test]
fn marks_that_are_not_those_of_the_stream(rt: HostRuntime) -> Result<(), Fail> {
    let by = (Version::Two, &numbers_of_large());
    check_hostile_of(&rt, rt.alloc(), by, &ABOVE_6, &OF_NODES)?;
    check_hostile_of(&rt, rt.alloc(), by, &ABOVE_6, &OF_NUMBERS)
}
