// Lookups and moments whose replies are not accepted, among questions: other frames than are due,
// those of queries and of each other among them, and such as their checks refuse.

use crate::hostile::{
    CLAIM, CLAIM_153, CLAIM_154, ENTRIES_2_3, ENTRY_OF_6, FLAG_2, FOUND_0, FOUND_3, FOUND_4,
    FOUND_NONE, HELD, HIGH_CLAIM, Hostile, LAST_AND_MORE, POWER, REFUSE, SHORT_FOUND, SHORT_POWER,
    check_hostile,
};
use crate::kinds::{KINDS, Kind, MOMENT, SUCC};
use sip_check_tests::frames::{
    ENTRY, FOUND_2, LEAVES, NINE, NO_SIBLINGS, REVEAL, SQUARES, SUCC_1, SUM,
};
use sip_wire::Reason;
use std::test::Fail;

// Where a place is due, and something else comes.
const OF_PLACES: [Hostile; 7] = [
    ("nothing", &[], 1, 0, Reason::Closed),
    ("a claim", &[&SUM], 1, 0, Reason::BadKind),
    ("a power", &[&POWER], 1, 0, Reason::BadKind),
    ("entries", &[&ENTRY], 1, 0, Reason::BadKind),
    ("leaves", &[&LEAVES], 1, 0, Reason::BadKind),
    ("what was heard", &[&HELD], 1, 0, Reason::BadKind),
    ("what was asked", &[&SUCC_1], 1, 0, Reason::BadKind),
];

// Where the place has a fault.
const OF_BAD_PLACES: [Hostile; 5] = [
    (
        "a Found of 8 bytes",
        &[&SHORT_FOUND],
        1,
        0,
        Reason::BadLength,
    ),
    ("a flag of 2", &[&FLAG_2], 1, 0, Reason::BadNumber),
    ("a refusal", &[&REFUSE], 1, 0, Reason::Refused(1)),
    ("a place below", &[&FOUND_0], 1, 0, Reason::BadFound),
    (
        "a place that is no item",
        &[&FOUND_4],
        1,
        0,
        Reason::BadFound,
    ),
];

// Behind the place.
const BEHIND_PLACES: [Hostile; 6] = [
    (
        "a Found behind the Found",
        &[&FOUND_2, &FOUND_2],
        2,
        0,
        Reason::BadKind,
    ),
    (
        "a claim behind the Found",
        &[&FOUND_2, &CLAIM],
        2,
        0,
        Reason::BadKind,
    ),
    (
        "a refusal behind the Found",
        &[&FOUND_2, &REFUSE],
        2,
        0,
        Reason::Refused(1),
    ),
    (
        "nothing behind the Found",
        &[&FOUND_2],
        2,
        0,
        Reason::Closed,
    ),
    (
        "a Found behind reply 0",
        &[&FOUND_2, &ENTRY, &FOUND_2],
        3,
        1,
        Reason::BadKind,
    ),
    (
        "another entry",
        &[&FOUND_2, &ENTRY_OF_6, &NO_SIBLINGS],
        3,
        2,
        Reason::Root,
    ),
];

// The same of the entry at an item.
const OF_INDICES: [Hostile; 3] = [
    ("a claim", &[&CLAIM], 1, 0, Reason::BadKind),
    ("none", &[&FOUND_NONE], 1, 0, Reason::BadFound),
    ("another item", &[&FOUND_2], 1, 0, Reason::BadFound),
];

// The same of the nearest entry below.
const OF_PREDECESSORS: [Hostile; 2] = [
    ("a claim", &[&CLAIM], 1, 0, Reason::BadKind),
    ("a place above", &[&FOUND_2], 1, 0, Reason::BadFound),
];

// Where the claim of a moment is due.
const OF_MOMENTS: [Hostile; 7] = [
    ("nothing", &[], 1, 0, Reason::Closed),
    ("a Found", &[&FOUND_2], 1, 0, Reason::BadKind),
    ("entries", &[&ENTRY], 1, 0, Reason::BadKind),
    ("leaves", &[&LEAVES], 1, 0, Reason::BadKind),
    ("a power", &[&POWER], 1, 0, Reason::BadKind),
    ("a claim of 2^60", &[&HIGH_CLAIM], 1, 0, Reason::BadNumber),
    ("a refusal", &[&REFUSE], 1, 0, Reason::Refused(1)),
];

// Where its first power is due.
const OF_POWERS: [Hostile; 5] = [
    (
        "a Found behind the claim",
        &[&CLAIM_153, &FOUND_2],
        1,
        0,
        Reason::BadKind,
    ),
    (
        "a polynomial behind the claim",
        &[&SQUARES],
        1,
        0,
        Reason::BadKind,
    ),
    (
        "a claim behind the claim",
        &[&CLAIM_153, &CLAIM_153],
        1,
        0,
        Reason::BadKind,
    ),
    (
        "a power of degree 2",
        &[&CLAIM_153, &SHORT_POWER],
        1,
        0,
        Reason::BadLength,
    ),
    ("a claim of 154", &[&CLAIM_154], 1, 0, Reason::Sum),
];

// Behind its first reply.
const OF_LATER_POWERS: [Hostile; 5] = [
    (
        "a Found behind reply 0",
        &[&SUM, &FOUND_2],
        2,
        1,
        Reason::BadKind,
    ),
    (
        "a polynomial behind reply 0",
        &[&SUM, &NINE],
        2,
        1,
        Reason::BadKind,
    ),
    ("the first power again", &[&SUM, &POWER], 2, 1, Reason::Sum),
    (
        "another last power",
        &[&SUM, &LAST_AND_MORE],
        2,
        2,
        Reason::Root,
    ),
    ("nothing behind reply 0", &[&SUM], 2, 1, Reason::Closed),
];

// Behind another place the query is for another interval.
const SUB_1_3: [u8; 12] = [4, 0, 9, 1, 0, 0, 0, 1, 0, 0, 0, 3];

const SUCC_AT_3: Kind = Kind {
    said: &[&SUCC_1, &SUB_1_3, &REVEAL],
    ..SUCC
};

const BEHIND_THE_NEAREST: [Hostile; 1] = [(
    "a place behind the nearest",
    &[&FOUND_3, &ENTRIES_2_3, &NO_SIBLINGS],
    3,
    2,
    Reason::NotAlone,
)];

#[test]
fn replies_that_are_no_places(rt: HostRuntime) -> Result<(), Fail> {
    let alloc = rt.alloc();
    let [_, _, _, _, index, _, pred, _] = &KINDS;
    check_hostile(&rt, alloc, &SUCC, &OF_PLACES)?;
    check_hostile(&rt, alloc, &SUCC, &OF_BAD_PLACES)?;
    check_hostile(&rt, alloc, &SUCC, &BEHIND_PLACES)?;
    check_hostile(&rt, alloc, &SUCC_AT_3, &BEHIND_THE_NEAREST)?;
    check_hostile(&rt, alloc, index, &OF_INDICES)?;
    check_hostile(&rt, alloc, pred, &OF_PREDECESSORS)
}

#[test]
fn replies_that_are_no_moments(rt: HostRuntime) -> Result<(), Fail> {
    let alloc = rt.alloc();
    check_hostile(&rt, alloc, &MOMENT, &OF_MOMENTS)?;
    check_hostile(&rt, alloc, &MOMENT, &OF_POWERS)?;
    check_hostile(&rt, alloc, &MOMENT, &OF_LATER_POWERS)
}
