//! Whole talks of a helper, as tables.

use sip_check_tests::frames::{BYE, ENTRY, NO_SIBLINGS, REVEAL, STREAM, SUB_1_2};
use sip_check_tests::serving::Talk;
use sip_helper::HelpStatus;

/// The end of a level.
pub(crate) const END: [u8; 3] = [0x17, 0, 0];

// The refusals of an answer that is too wide, of a negative entry, and of a message out of turn.
const TOO_WIDE: &[u8] = &[0x18, 0, 1, 2];

const NEGATIVE: &[u8] = &[0x18, 0, 1, 3];

const OUT_OF_TURN: &[u8] = &[0x18, 0, 1, 4];

/// In version 2 the opening of a talk over 2^48 items, the last three of them (4, 7, 9), and their
/// end; the query for the last entry, the challenge 2, and the farewell.
const WIDE: [u8; 98] = [
    1, 0, 2, 2, 48, 2, 0, 53, 0, 3, 0, 0, 0, 0xff, 0xff, 0xff, 0xff, 0xff, 0xfd, 0, 0, 0, 0, 0, 0,
    0, 4, 0, 0, 0, 0xff, 0xff, 0xff, 0xff, 0xff, 0xfe, 0, 0, 0, 0, 0, 0, 0, 7, 0, 0, 0, 0xff, 0xff,
    0xff, 0xff, 0xff, 0xff, 0, 0, 0, 0, 0, 0, 0, 9, 3, 0, 0, 4, 0, 17, 1, 0, 0, 0xff, 0xff, 0xff,
    0xff, 0xff, 0xff, 0, 0, 0xff, 0xff, 0xff, 0xff, 0xff, 0xff, 5, 0, 8, 0, 0, 0, 0, 0, 0, 0, 2, 6,
    0, 0,
];

/// The entry (2^48 - 1, 9) and the sibling 7 left of it; then the sibling 8 = 0 + 2 * 4, of the
/// pair (0, 4).
const WIDE_REPLIES: [u8; 45] = [
    19, 0, 18, 0, 1, 0, 0, 0xff, 0xff, 0xff, 0xff, 0xff, 0xff, 0, 0, 0, 0, 0, 0, 0, 9, 20, 0, 9, 1,
    0, 0, 0, 0, 0, 0, 0, 7, 20, 0, 9, 1, 0, 0, 0, 0, 0, 0, 0, 8,
];

/// The query for both of two items.
const SUB_0_1: &[u8] = &[4, 0, 9, 1, 0, 0, 0, 0, 0, 0, 0, 1];

/// Talks with queries for entries.
pub(crate) const ENTRIES: [Talk<'static, HelpStatus>; 3] = [
    (
        &[&STREAM, &SUB_1_2, &REVEAL, &BYE],
        HelpStatus::Served,
        &[&ENTRY, &NO_SIBLINGS],
    ),
    (&[&WIDE], HelpStatus::Served, &[&WIDE_REPLIES]),
    // Over two items each query has one reply; the 17th is out of turn.
    (
        &[
            &[1, 0, 2, 1, 1, 3, 0, 0],
            SUB_0_1,
            SUB_0_1,
            SUB_0_1,
            SUB_0_1,
            SUB_0_1,
            SUB_0_1,
            SUB_0_1,
            SUB_0_1,
            SUB_0_1,
            SUB_0_1,
            SUB_0_1,
            SUB_0_1,
            SUB_0_1,
            SUB_0_1,
            SUB_0_1,
            SUB_0_1,
            SUB_0_1,
        ],
        HelpStatus::BadFrame {
            offset: 8 + 16 * 12,
        },
        &[
            &NO_SIBLINGS,
            &NO_SIBLINGS,
            &NO_SIBLINGS,
            &NO_SIBLINGS,
            &NO_SIBLINGS,
            &NO_SIBLINGS,
            &NO_SIBLINGS,
            &NO_SIBLINGS,
            &NO_SIBLINGS,
            &NO_SIBLINGS,
            &NO_SIBLINGS,
            &NO_SIBLINGS,
            &NO_SIBLINGS,
            &NO_SIBLINGS,
            &NO_SIBLINGS,
            &NO_SIBLINGS,
            OUT_OF_TURN,
        ],
    ),
];

/// How talks end.
pub(crate) const ENDS: [Talk<'static, HelpStatus>; 17] = [
    // The link ends before the opening, behind it, and inside a frame.
    (&[], HelpStatus::PeerClosed, &[]),
    (&[&[1, 0, 2, 1, 2]], HelpStatus::PeerClosed, &[]),
    (&[&[1, 0, 2, 1]], HelpStatus::PeerClosed, &[]),
    // A farewell at once, and bytes behind it.
    (&[&BYE, &[7]], HelpStatus::Served, &[]),
    // No frame.
    (&[&[7, 0, 0]], HelpStatus::BadFrame { offset: 0 }, &[]),
    (
        &[&[1, 0, 2, 1, 2], &[7, 0, 0]],
        HelpStatus::BadFrame { offset: 5 },
        &[],
    ),
    // Depths that a version has not, and one that version 2 has.
    (
        &[&[1, 0, 2, 1, 33]],
        HelpStatus::BadFrame { offset: 0 },
        &[],
    ),
    (
        &[&[1, 0, 2, 2, 49]],
        HelpStatus::BadFrame { offset: 0 },
        &[],
    ),
    (&[&[1, 0, 2, 2, 48]], HelpStatus::PeerClosed, &[]),
    // In version 2, an update with a narrow item, and a query for a share before the stream has
    // ended.
    (
        &[
            &[1, 0, 2, 2, 1],
            &[2, 0, 15, 0, 1, 0, 0, 0, 0, 1, 0, 0, 0, 0, 0, 0, 0, 1],
        ],
        HelpStatus::BadFrame { offset: 5 },
        &[],
    ),
    (
        &[&[1, 0, 2, 2, 1], &SHARE],
        HelpStatus::BadFrame { offset: 5 },
        &[OUT_OF_TURN],
    ),
    // A challenge, a second opening, a query and the end before the opening, and an item that the
    // depth does not have.
    (
        &[&[1, 0, 2, 1, 2], &REVEAL],
        HelpStatus::BadFrame { offset: 5 },
        &[OUT_OF_TURN],
    ),
    (
        &[&[1, 0, 2, 1, 2], &[1, 0, 2, 1, 2]],
        HelpStatus::BadFrame { offset: 5 },
        &[OUT_OF_TURN],
    ),
    (
        &[&[4, 0, 9, 1, 0, 0, 0, 0, 0, 0, 0, 0]],
        HelpStatus::BadFrame { offset: 0 },
        &[OUT_OF_TURN],
    ),
    (
        &[&[3, 0, 0]],
        HelpStatus::BadFrame { offset: 0 },
        &[OUT_OF_TURN],
    ),
    (
        &[
            &[1, 0, 2, 1, 1],
            &[2, 0, 15, 0, 1, 0, 0, 0, 0, 2, 0, 0, 0, 0, 0, 0, 0, 1],
        ],
        HelpStatus::BadFrame { offset: 5 },
        &[OUT_OF_TURN],
    ),
    // Two updates of side 0, of 2^30 - 1 and of 1: the frame is out of turn as a whole.
    (
        &[
            &[1, 0, 2, 1, 1],
            &[
                2, 0, 28, 0, 2, 0, 0, 0, 0, 0, 0, 0, 0, 0, 0x3f, 0xff, 0xff, 0xff, 0, 0, 0, 0, 0,
                0xff, 0xff, 0xff, 0xff, 0xff, 0xff, 0xff, 0xff,
            ],
        ],
        HelpStatus::BadFrame { offset: 5 },
        &[OUT_OF_TURN],
    ),
];

/// A query for a share, which has no spelling in version 1.
const SHARE: [u8; 13] = [4, 0, 10, 6, 0, 0, 0, 0, 1, 0, 0, 0, 2];

/// Wherever a query for a share stands in a talk in version 1, it is no frame: nothing is sent
/// behind the replies before it.
pub(crate) const SHARES_IN_VERSION_1: [Talk<'static, HelpStatus>; 5] = [
    // Nothing was heard; the stream goes on; it has ended; a query is open; it was answered to its
    // end.
    (&[&SHARE], HelpStatus::BadFrame { offset: 0 }, &[]),
    (
        &[&[1, 0, 2, 1, 2], &SHARE],
        HelpStatus::BadFrame { offset: 5 },
        &[],
    ),
    (&[&STREAM, &SHARE], HelpStatus::BadFrame { offset: 52 }, &[]),
    (
        &[&STREAM, &SUB_1_2, &SHARE],
        HelpStatus::BadFrame { offset: 64 },
        &[&ENTRY],
    ),
    (
        &[&STREAM, &SUB_1_2, &REVEAL, &SHARE],
        HelpStatus::BadFrame { offset: 75 },
        &[&ENTRY, &NO_SIBLINGS],
    ),
];

/// The opening of a talk over four items, the vectors (3, 0, 5, 1) and (2, 7, 1, 0), and their end.
const TWO_SIDES: [u8; 91] = [
    1, 0, 2, 1, 2, 2, 0, 80, 0, 6, 0, 0, 0, 0, 0, 0, 0, 0, 0, 0, 0, 0, 3, 0, 0, 0, 0, 2, 0, 0, 0,
    0, 0, 0, 0, 5, 0, 0, 0, 0, 3, 0, 0, 0, 0, 0, 0, 0, 1, 1, 0, 0, 0, 0, 0, 0, 0, 0, 0, 0, 0, 2, 1,
    0, 0, 0, 1, 0, 0, 0, 0, 0, 0, 0, 7, 1, 0, 0, 0, 2, 0, 0, 0, 0, 0, 0, 0, 1, 3, 0, 0,
];

/// Queries for the squares of side 0, for the inner product, and for the items 1 to 3 of side 0.
const SQUARES: &[u8] = &[4, 0, 2, 3, 0];

const PRODUCTS: &[u8] = &[4, 0, 1, 4];

const ITEMS_1_3: &[u8] = &[4, 0, 10, 2, 0, 0, 0, 0, 1, 0, 0, 0, 3];

/// The claim 35 and its polynomials (34, -58, 25) and (9, 0, 0), the second one behind the
/// challenge 2.
const OF_SQUARES: &[u8] = &[
    17, 0, 8, 0, 0, 0, 0, 0, 0, 0, 35, 18, 0, 24, 0, 0, 0, 0, 0, 0, 0, 34, 31, 0xff, 0xff, 0xff,
    0xff, 0xff, 0xff, 0xc5, 0, 0, 0, 0, 0, 0, 0, 25, 18, 0, 24, 0, 0, 0, 0, 0, 0, 0, 9, 0, 0, 0, 0,
    0, 0, 0, 0, 0, 0, 0, 0, 0, 0, 0, 0,
];

/// The claim 11, (11, 0, -11) and (-36, 39, 0).
const OF_PRODUCTS: &[u8] = &[
    17, 0, 8, 0, 0, 0, 0, 0, 0, 0, 11, 18, 0, 24, 0, 0, 0, 0, 0, 0, 0, 11, 0, 0, 0, 0, 0, 0, 0, 0,
    31, 0xff, 0xff, 0xff, 0xff, 0xff, 0xff, 0xf4, 18, 0, 24, 31, 0xff, 0xff, 0xff, 0xff, 0xff,
    0xff, 0xdb, 0, 0, 0, 0, 0, 0, 0, 39, 0, 0, 0, 0, 0, 0, 0, 0,
];

/// The claim 6, (5, -1, -3) and (-6, 3, 0).
const OF_ITEMS_1_3: &[u8] = &[
    17, 0, 8, 0, 0, 0, 0, 0, 0, 0, 6, 18, 0, 24, 0, 0, 0, 0, 0, 0, 0, 5, 31, 0xff, 0xff, 0xff,
    0xff, 0xff, 0xff, 0xfe, 31, 0xff, 0xff, 0xff, 0xff, 0xff, 0xff, 0xfc, 18, 0, 24, 31, 0xff,
    0xff, 0xff, 0xff, 0xff, 0xff, 0xf9, 0, 0, 0, 0, 0, 0, 0, 3, 0, 0, 0, 0, 0, 0, 0, 0,
];

/// Sums, each of them in a talk of its own, and then all in one.
pub(crate) const SUMS: [Talk<'static, HelpStatus>; 4] = [
    (
        &[&TWO_SIDES, SQUARES, &REVEAL, &BYE],
        HelpStatus::Served,
        &[OF_SQUARES],
    ),
    (
        &[&TWO_SIDES, PRODUCTS, &REVEAL, &BYE],
        HelpStatus::Served,
        &[OF_PRODUCTS],
    ),
    (
        &[&TWO_SIDES, ITEMS_1_3, &REVEAL, &BYE],
        HelpStatus::Served,
        &[OF_ITEMS_1_3],
    ),
    (
        &[
            &TWO_SIDES, SQUARES, &REVEAL, PRODUCTS, &REVEAL, ITEMS_1_3, &REVEAL, &BYE,
        ],
        HelpStatus::Served,
        &[OF_SQUARES, OF_PRODUCTS, OF_ITEMS_1_3],
    ),
];

/// In version 2 the opening of a talk over four items, the vector (3, 0, 5, 1) and its end.
const WIDE_STREAM: [u8; 64] = [
    1, 0, 2, 2, 2, 2, 0, 53, 0, 3, 0, 0, 0, 0, 0, 0, 0, 0, 0, 0, 0, 0, 0, 0, 0, 0, 3, 0, 0, 0, 0,
    0, 0, 0, 0, 2, 0, 0, 0, 0, 0, 0, 0, 5, 0, 0, 0, 0, 0, 0, 0, 0, 3, 0, 0, 0, 0, 0, 0, 0, 1, 3, 0,
    0,
];

/// Talks with queries for the heavy hitters of (3, 0, 5, 1), or for shares of its total, which is
/// 9.
pub(crate) const HITTERS: [Talk<'static, HelpStatus>; 5] = [
    // At least 4: the leaves 5 and 1 below the node 6, and the light node, which has the hash
    // 9 = 3 + 3 * 2.
    (
        &[
            &STREAM,
            &[4, 0, 10, 5, 0, 0, 0, 0, 0, 0, 0, 0, 4],
            &REVEAL,
            &BYE,
        ],
        HelpStatus::Served,
        &[&[
            0x15, 0, 26, 0, 2, 0, 0, 0, 2, 0, 0, 0, 0, 0, 0, 0, 5, 0, 0, 0, 3, 0, 0, 0, 0, 0, 0, 0,
            1, 0x17, 0, 0, 0x16, 0, 22, 0, 1, 0, 0, 0, 0, 0, 0, 0, 0, 0, 0, 0, 9, 0, 0, 0, 0, 0, 0,
            0, 3, 0x17, 0, 0,
        ]],
    ),
    // At least 3: all four leaves, and no node, as both are heavy.
    (
        &[
            &STREAM,
            &[4, 0, 10, 5, 0, 0, 0, 0, 0, 0, 0, 0, 3],
            &REVEAL,
            &BYE,
        ],
        HelpStatus::Served,
        &[&[
            0x15, 0, 50, 0, 4, 0, 0, 0, 0, 0, 0, 0, 0, 0, 0, 0, 3, 0, 0, 0, 1, 0, 0, 0, 0, 0, 0, 0,
            0, 0, 0, 0, 2, 0, 0, 0, 0, 0, 0, 0, 5, 0, 0, 0, 3, 0, 0, 0, 0, 0, 0, 0, 1, 0x17, 0, 0,
            0x17, 0, 0,
        ]],
    ),
    // At least 10, which is more than all: nothing but the ends of the levels.
    (
        &[
            &STREAM,
            &[4, 0, 10, 5, 0, 0, 0, 0, 0, 0, 0, 0, 10],
            &REVEAL,
            &BYE,
        ],
        HelpStatus::Served,
        &[&END, &END],
    ),
    // A half is 5 at least: the leaves 5 and 1, and the light node.
    (
        &[&WIDE_STREAM, &SHARE, &REVEAL, &BYE],
        HelpStatus::Served,
        &[&[
            0x15, 0, 34, 0, 2, 0, 0, 0, 0, 0, 0, 0, 2, 0, 0, 0, 0, 0, 0, 0, 5, 0, 0, 0, 0, 0, 0, 0,
            3, 0, 0, 0, 0, 0, 0, 0, 1, 0x17, 0, 0, 0x16, 0, 26, 0, 1, 0, 0, 0, 0, 0, 0, 0, 0, 0, 0,
            0, 0, 0, 0, 0, 9, 0, 0, 0, 0, 0, 0, 0, 3, 0x17, 0, 0,
        ]],
    ),
    // The whole is 9: no leaf, and both nodes, of which the second has the hash
    // 27 = 5 + 5 * 2 + 1 * 4 + 1 * 8.
    (
        &[
            &WIDE_STREAM,
            &[4, 0, 10, 6, 0, 0, 0, 0, 1, 0, 0, 0, 1],
            &REVEAL,
            &BYE,
        ],
        HelpStatus::Served,
        &[&[
            0x17, 0, 0, 0x16, 0, 50, 0, 2, 0, 0, 0, 0, 0, 0, 0, 0, 0, 0, 0, 0, 0, 0, 0, 9, 0, 0, 0,
            0, 0, 0, 0, 3, 0, 0, 0, 0, 0, 0, 0, 1, 0, 0, 0, 0, 0, 0, 0, 27, 0, 0, 0, 0, 0, 0, 0, 6,
            0x17, 0, 0,
        ]],
    ),
];

/// The opening of a talk over two items, and the end of its stream.
const OPEN_1: &[u8] = &[1, 0, 2, 1, 1];

const END_STREAM: &[u8] = &[3, 0, 0];

// Queries for the entries of at least 1 and of at least 3.
const AT_LEAST_1: &[u8] = &[4, 0, 10, 5, 0, 0, 0, 0, 0, 0, 0, 0, 1];

const AT_LEAST_3: &[u8] = &[4, 0, 10, 5, 0, 0, 0, 0, 0, 0, 0, 0, 3];

/// Streams over two items of side 0, a threshold, and the one reply to it.
pub(crate) const REFUSALS: [Talk<'static, HelpStatus>; 5] = [
    // A negative entry refuses, also where the answer is too wide as well: (-2, 5) and
    // (-1, 65,538).
    (
        &[
            OPEN_1,
            &[
                2, 0, 15, 0, 1, 0, 0, 0, 0, 0, 0xff, 0xff, 0xff, 0xff, 0xff, 0xff, 0xff, 0xfe,
            ],
            &[2, 0, 15, 0, 1, 0, 0, 0, 0, 1, 0, 0, 0, 0, 0, 0, 0, 5],
            END_STREAM,
            AT_LEAST_3,
            &BYE,
        ],
        HelpStatus::Served,
        &[NEGATIVE],
    ),
    (
        &[
            OPEN_1,
            &[
                2, 0, 15, 0, 1, 0, 0, 0, 0, 0, 0xff, 0xff, 0xff, 0xff, 0xff, 0xff, 0xff, 0xff,
            ],
            &[2, 0, 15, 0, 1, 0, 0, 0, 0, 1, 0, 0, 0, 0, 0, 1, 0, 2],
            END_STREAM,
            AT_LEAST_1,
            &BYE,
        ],
        HelpStatus::Served,
        &[NEGATIVE],
    ),
    // 65,537 entries of at least 1 are too many, and 65,536 are not: (65,537, 0), (65,536, 0) and
    // (65,535, 2).
    (
        &[
            OPEN_1,
            &[2, 0, 15, 0, 1, 0, 0, 0, 0, 0, 0, 0, 0, 0, 0, 1, 0, 1],
            END_STREAM,
            AT_LEAST_1,
            &BYE,
        ],
        HelpStatus::Served,
        &[TOO_WIDE],
    ),
    (
        &[
            OPEN_1,
            &[2, 0, 15, 0, 1, 0, 0, 0, 0, 0, 0, 0, 0, 0, 0, 1, 0, 0],
            END_STREAM,
            AT_LEAST_1,
            &BYE,
        ],
        HelpStatus::Served,
        &[&[
            0x15, 0, 26, 0, 2, 0, 0, 0, 0, 0, 0, 0, 0, 0, 1, 0, 0, 0, 0, 0, 1, 0, 0, 0, 0, 0, 0, 0,
            0, 0x17, 0, 0,
        ]],
    ),
    (
        &[
            OPEN_1,
            &[2, 0, 15, 0, 1, 0, 0, 0, 0, 0, 0, 0, 0, 0, 0, 0, 0xff, 0xff],
            &[2, 0, 15, 0, 1, 0, 0, 0, 0, 1, 0, 0, 0, 0, 0, 0, 0, 2],
            END_STREAM,
            AT_LEAST_1,
            &BYE,
        ],
        HelpStatus::Served,
        &[TOO_WIDE],
    ),
];
