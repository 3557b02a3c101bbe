// Large entries of a stream that took away, asked of a sketch. The numbers were worked out by a
// calculation of their own, from the tree of all items.

use crate::ask_tests::{Row, check_rows};
use sip_above::Large;
use sip_ask::AskStatus;
use sip_questions::Question;
use sip_vector::{Query, Side};
use sip_wire::Reason;
use std::test::Fail;

// The sketch with a seat for large entries of side 0 at the challenges of 32 zero bytes, behind
// four records that add up to (0, 5, -9, 3); and the same with its seat used.
pub(crate) const LARGE: [u8; 118] = [
    0x53, 0x49, 0x50, 0x4b, 1, 2, 0, 0, 0, 1, 0, 0, 0, 1, 0, 0, 0, 1, 0, 0, 0, 0, 0, 0, 0, 0x13, 0,
    0, 0, 0, 0, 0, 0, 0, 0, 0, 0, 0, 0, 0, 0, 4, 1, 0xda, 0x3a, 0x3f, 0x7e, 0x3c, 0xbe, 0x72, 0x4e,
    1, 7, 0, 0x12, 7, 0xbe, 0x34, 0x15, 0xbc, 0x17, 0xe, 5, 0x17, 0xb0, 0xca, 0x7c, 0xad, 0x4b,
    0xa8, 0x10, 0x1f, 0x94, 0xa8, 0x43, 0x7e, 0xe5, 0xb4, 0, 0, 0, 0, 0, 0, 0, 0, 0x14, 0xd8, 0x7b,
    0x2e, 0xe4, 0x3d, 0x78, 0xfd, 0xbc, 0xfa, 5, 0x48, 0x70, 0x21, 0x53, 0xc3, 0x35, 0xb4, 0x25,
    0x94, 0xa3, 3, 0x3d, 0x17, 0xf, 0xfd, 0xd4, 0xdc, 0x68, 0x7d, 0xb0, 2,
];

pub(crate) const LARGE_USED: [u8; 118] = [
    0x53, 0x49, 0x50, 0x4b, 1, 2, 0, 0, 0, 1, 0, 0, 0, 1, 0, 0, 0, 1, 0, 0, 0, 0, 0, 0, 0, 0x13, 0,
    0, 0, 0, 0, 0, 0, 0, 0, 0, 0, 0, 0, 0, 0, 4, 1, 0xda, 0x3a, 0x3f, 0x7e, 0x3c, 0xbe, 0x72, 0x4e,
    1, 7, 1, 0x12, 7, 0xbe, 0x34, 0x15, 0xbc, 0x17, 0xe, 5, 0x17, 0xb0, 0xca, 0x7c, 0xad, 0x4b,
    0xa8, 0x10, 0x1f, 0x94, 0xa8, 0x43, 0x7e, 0xe5, 0xb4, 0, 0, 0, 0, 0, 0, 0, 0, 0x7f, 0x90, 5,
    0x2f, 0x5e, 0xec, 0x61, 0xb8, 0xc2, 0xc1, 0xe3, 0x3d, 0x53, 0xb1, 0xb, 0x4d, 0xe2, 0x53, 0xaf,
    7, 0x80, 0xcf, 0xbb, 0xd0, 0x2a, 0xec, 0x4f, 0x31, 0xcf, 0xb0, 0x76, 0xcc,
];

// The node of items 0 and 1 at these challenges.
const NODE: [u8; 32] = [
    0x16, 0, 0x1a, 0, 1, 0, 0, 0, 0, 0, 0, 0, 0, 8, 0xfa, 0x46, 0x50, 0xcf, 0xac, 0xa6, 0xd1, 0, 0,
    0, 0, 0, 0, 0, 5, 0x17, 0, 0,
];

// What the other end holds, the marks of all items and of items 2 and 3, those with another value,
// and the end of a level without nodes.
const HELD: [u8; 35] = [
    0x26, 0, 0x20, 0, 0, 0, 0, 0, 0, 0, 4, 0, 0, 0, 0, 0, 0, 0, 0x13, 0, 0, 0, 0, 0, 0, 0, 0, 0xda,
    0x3a, 0x3f, 0x7e, 0x3c, 0xbe, 0x72, 0x4e,
];

const ALL_MARKS: [u8; 104] = [
    0x28, 0, 0x62, 0, 4, 0, 0, 0, 0, 0, 0, 0, 0, 0, 0, 0, 0, 0, 0, 0, 0, 0, 0, 0, 0, 0, 0, 0, 0, 0,
    0, 0, 0, 0, 0, 0, 1, 0, 0, 0, 0, 0, 0, 0, 5, 0, 0, 0, 0, 0, 0, 0, 5, 0, 0, 0, 0, 0, 0, 0, 2,
    0xff, 0xff, 0xff, 0xff, 0xff, 0xff, 0xff, 0xf7, 0, 0, 0, 0, 0, 0, 0, 9, 0, 0, 0, 0, 0, 0, 0, 3,
    0, 0, 0, 0, 0, 0, 0, 3, 0, 0, 0, 0, 0, 0, 0, 5, 0x17, 0, 0,
];

const MARKS: [u8; 56] = [
    0x28, 0, 0x32, 0, 2, 0, 0, 0, 0, 0, 0, 0, 2, 0xff, 0xff, 0xff, 0xff, 0xff, 0xff, 0xff, 0xf7, 0,
    0, 0, 0, 0, 0, 0, 9, 0, 0, 0, 0, 0, 0, 0, 3, 0, 0, 0, 0, 0, 0, 0, 3, 0, 0, 0, 0, 0, 0, 0, 5,
    0x17, 0, 0,
];

const LIES: [u8; 56] = [
    0x28, 0, 0x32, 0, 2, 0, 0, 0, 0, 0, 0, 0, 2, 0, 0, 0, 0, 0, 0, 0, 9, 0, 0, 0, 0, 0, 0, 0, 9, 0,
    0, 0, 0, 0, 0, 0, 3, 0, 0, 0, 0, 0, 0, 0, 3, 0, 0, 0, 0, 0, 0, 0, 5, 0x17, 0, 0,
];

const NO_NODES: &[u8] = &[0x17, 0, 0];

// The large entries of side 0 from so much on.
const ABOVE_0: Question = Question::Large(Large {
    side: Side::First,
    at_least: 0,
});

const ABOVE_3: Question = Question::Large(Large {
    side: Side::First,
    at_least: 3,
});

const ABOVE_6: Question = Question::Large(Large {
    side: Side::First,
    at_least: 6,
});

const ABOVE_20: Question = Question::Large(Large {
    side: Side::First,
    at_least: 20,
});

const HEAVY: Question = Question::Query(Query::Heavy {
    side: Side::First,
    at_least: 3,
});

const ROOT: AskStatus = AskStatus::Rejected {
    query: 1,
    round: 2,
    reason: Reason::Root,
};

pub(crate) const LARGE_ROWS: [Row; 7] = [
    (
        &[ABOVE_3],
        &[&HELD, &ALL_MARKS, NO_NODES],
        &[],
        AskStatus::Accepted,
        b"above:0:3 1:5 3:3\n",
        true,
    ),
    (
        &[ABOVE_20, ABOVE_6],
        &[&HELD, &MARKS, &NODE],
        &[],
        AskStatus::Accepted,
        b"above:0:20 none\nabove:0:6 none\n",
        true,
    ),
    (
        &[ABOVE_6],
        &[&HELD, &LIES, &NODE],
        &[],
        ROOT,
        b"rejected query 1 round 2 Root\n",
        true,
    ),
    (
        &[ABOVE_20],
        &[&HELD],
        &[],
        AskStatus::Accepted,
        b"above:0:20 none\n",
        false,
    ),
    (
        &[ABOVE_6, ABOVE_3],
        &[],
        &[],
        AskStatus::NoSeat { query: 2 },
        b"",
        false,
    ),
    (
        &[ABOVE_6, HEAVY],
        &[],
        &[],
        AskStatus::Signed { query: 2 },
        b"",
        false,
    ),
    (
        &[ABOVE_0],
        &[],
        &[],
        AskStatus::Unfit { query: 1 },
        b"",
        false,
    ),
];

#[test]
fn large_entries_are_asked(rt: HostRuntime) -> Result<(), Fail> {
    check_rows(&rt, rt.alloc(), (&LARGE, &LARGE_USED), &LARGE_ROWS)
}
