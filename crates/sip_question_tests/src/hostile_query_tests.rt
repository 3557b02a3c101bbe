// Queries whose replies are not accepted, among questions: other frames than are due, those of
// lookups and moments among them, and such as the checks of these queries refuse.

use crate::hostile::{
    CLAIM, CLAIM_36, ENTRY_3, ENTRY_OF_0, ENTRY_OF_6, ENTRY_UNFLAGGED, HELD, HIGH_CLAIM, Hostile,
    LEAF_2, LEAVES_3_2, LEAVES_OF_10, NINE_AND_MORE, NODE_OF_2, NODE_OF_4, NODE_OF_10, ONE_AS_TWO,
    POLY, POWER, REFUSE, SHORT_ENTRIES, check_hostile,
};
use crate::kinds::{KINDS, Kind, SUB};
use sip_check_tests::frames::{ENTRY, FOUND_2, LAST, LEAVES, NO_SIBLINGS, NODES, SQUARES, SUM};
use sip_wire::Reason;
use std::test::Fail;

// Where entries are due, and other than entries come.
const OF_ENTRIES: [Hostile; 9] = [
    ("nothing", &[], 1, 0, Reason::Closed),
    ("a Found", &[&FOUND_2], 1, 0, Reason::BadKind),
    ("a claim", &[&SUM], 1, 0, Reason::BadKind),
    ("leaves", &[&LEAVES], 1, 0, Reason::BadKind),
    ("what was heard", &[&HELD], 1, 0, Reason::BadKind),
    (
        "entries of 13 bytes",
        &[&SHORT_ENTRIES],
        1,
        0,
        Reason::BadLength,
    ),
    ("one entry as two", &[&ONE_AS_TWO], 1, 0, Reason::BadCount),
    ("an entry of 0", &[&ENTRY_OF_0], 1, 0, Reason::BadNumber),
    ("a refusal", &[&REFUSE], 1, 0, Reason::Refused(1)),
];

// Where the entries have a fault, and where siblings are due behind them.
const OF_LATER_ENTRIES: [Hostile; 8] = [
    ("entry 3", &[&ENTRY_3], 1, 0, Reason::BadOrder),
    ("no siblings", &[&ENTRY_UNFLAGGED], 1, 0, Reason::BadFlags),
    (
        "another entry",
        &[&ENTRY_OF_6, &NO_SIBLINGS],
        2,
        2,
        Reason::Root,
    ),
    (
        "a Found behind reply 0",
        &[&ENTRY, &FOUND_2],
        2,
        1,
        Reason::BadKind,
    ),
    (
        "a claim behind reply 0",
        &[&ENTRY, &CLAIM],
        2,
        1,
        Reason::BadKind,
    ),
    ("nothing behind reply 0", &[&ENTRY], 2, 1, Reason::Closed),
    (
        "entries behind reply 0",
        &[&ENTRY, &ENTRY],
        2,
        1,
        Reason::BadKind,
    ),
    (
        "a refusal behind reply 0",
        &[&ENTRY, &REFUSE],
        2,
        1,
        Reason::Refused(1),
    ),
];

// Where a claim is due.
const OF_CLAIMS: [Hostile; 6] = [
    ("a Found", &[&FOUND_2], 1, 0, Reason::BadKind),
    ("entries", &[&ENTRY], 1, 0, Reason::BadKind),
    ("a power", &[&POWER], 1, 0, Reason::BadKind),
    ("a polynomial", &[&POLY], 1, 0, Reason::BadKind),
    ("a claim of 2^60", &[&HIGH_CLAIM], 1, 0, Reason::BadNumber),
    ("a claim of 36", &[&CLAIM_36], 1, 0, Reason::Sum),
];

// Where a polynomial is due.
const OF_POLYNOMIALS: [Hostile; 7] = [
    (
        "a Found behind the claim",
        &[&CLAIM, &FOUND_2],
        1,
        0,
        Reason::BadKind,
    ),
    ("a power behind the claim", &[&SUM], 1, 0, Reason::BadKind),
    (
        "a claim behind the claim",
        &[&CLAIM, &CLAIM],
        1,
        0,
        Reason::BadKind,
    ),
    (
        "a Found behind reply 0",
        &[&SQUARES, &FOUND_2],
        2,
        1,
        Reason::BadKind,
    ),
    (
        "a power behind reply 0",
        &[&SQUARES, &LAST],
        2,
        1,
        Reason::BadKind,
    ),
    (
        "the first polynomial again",
        &[&SQUARES, &POLY],
        2,
        1,
        Reason::Sum,
    ),
    (
        "another last polynomial",
        &[&SQUARES, &NINE_AND_MORE],
        2,
        2,
        Reason::Root,
    ),
];

// The same of a range.
const OF_RANGES: [Hostile; 2] = [
    ("a Found", &[&FOUND_2], 1, 0, Reason::BadKind),
    ("a moment's reply", &[&SUM], 1, 0, Reason::BadKind),
];

// Where leaves are due.
const OF_LEAVES: [Hostile; 7] = [
    ("a Found", &[&FOUND_2], 1, 0, Reason::BadKind),
    ("a claim", &[&SUM], 1, 0, Reason::BadKind),
    ("entries", &[&ENTRY], 1, 0, Reason::BadKind),
    ("nodes", &[&NODES], 1, 0, Reason::BadKind),
    ("leaf 3 is missing", &[&LEAF_2], 1, 0, Reason::Pairs),
    ("leaves fall", &[&LEAVES_3_2], 1, 0, Reason::BadOrder),
    ("leaves of 10", &[&LEAVES_OF_10], 1, 0, Reason::Total),
];

// Where nodes are due behind them.
const OF_NODES: [Hostile; 6] = [
    (
        "a Found behind reply 0",
        &[&LEAVES, &FOUND_2],
        2,
        1,
        Reason::BadKind,
    ),
    (
        "a claim behind reply 0",
        &[&LEAVES, &CLAIM],
        2,
        1,
        Reason::BadKind,
    ),
    (
        "leaves behind reply 0",
        &[&LEAVES, &LEAVES],
        2,
        1,
        Reason::BadKind,
    ),
    (
        "a node of 4",
        &[&LEAVES, &NODE_OF_4],
        2,
        1,
        Reason::HeavySibling,
    ),
    ("a node of 2", &[&LEAVES, &NODE_OF_2], 2, 2, Reason::Total),
    ("another hash", &[&LEAVES, &NODE_OF_10], 2, 2, Reason::Root),
];

#[test]
fn replies_that_are_no_entries(rt: HostRuntime) -> Result<(), Fail> {
    check_hostile(&rt, rt.alloc(), &SUB, &OF_ENTRIES)?;
    check_hostile(&rt, rt.alloc(), &SUB, &OF_LATER_ENTRIES)
}

#[test]
fn replies_that_are_no_sums(rt: HostRuntime) -> Result<(), Fail> {
    let [_, _, _, square, _, _, _, range] = &KINDS;
    check_hostile(&rt, rt.alloc(), square, &OF_CLAIMS)?;
    check_hostile(&rt, rt.alloc(), square, &OF_POLYNOMIALS)?;
    check_hostile(&rt, rt.alloc(), range, &OF_RANGES)
}

#[test]
fn replies_that_are_no_large_entries(rt: HostRuntime) -> Result<(), Fail> {
    let [_, _, _, _, _, large, _, _] = &KINDS;
    check_hostile(&rt, rt.alloc(), large, &OF_LEAVES)?;
    check_hostile(&rt, rt.alloc(), large, &OF_NODES)
}
