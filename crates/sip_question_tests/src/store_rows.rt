//! Talks over a store that were worked out by hand, for a helper with or without a link.

use sip_check_tests::frames::{
    BYE, CUBES, ENTRY, F2, FOUND_2, LAST, NINE, NO_SIBLINGS, OUT_OF_TURN, REVEAL, SQUARES, SUB_1_2,
    SUCC_1, SUM,
};
use sip_questions::StoreStatus;
use sip_stream::{Form, Why};
use sip_vector::Side;

/// The records (0, 0, 3), (0, 2, 5), (0, 3, 1), and a fourth, (0, 1, 2).
pub const RECORDS: [u8; 52] = [
    0, 0, 0, 0, 0, 0, 0, 0, 0, 0, 0, 0, 3, 0, 0, 0, 0, 2, 0, 0, 0, 0, 0, 0, 0, 5, 0, 0, 0, 0, 3, 0,
    0, 0, 0, 0, 0, 0, 1, 0, 0, 0, 0, 1, 0, 0, 0, 0, 0, 0, 0, 2,
];

const LINES: &[u8] = b"0 0 3\n0 2 5\n0 3 1\n0 1 2\n";

/// The opening of a talk over four items.
pub const OPEN: [u8; 5] = [1, 0, 2, 1, 2];

const RECALL_0: [u8; 11] = [0x27, 0, 8, 0, 0, 0, 0, 0, 0, 0, 0];

const RECALL_2: [u8; 11] = [0x27, 0, 8, 0, 0, 0, 0, 0, 0, 0, 2];

/// Three records are to be heard.
pub const RECALL_3: [u8; 11] = [0x27, 0, 8, 0, 0, 0, 0, 0, 0, 0, 3];

/// All records are to be heard.
pub const RECALL_ALL: [u8; 11] = [0x27, 0, 8, 255, 255, 255, 255, 255, 255, 255, 255];

// What nothing, two, three and four records come to: how many they are, their weights, and their
// fingerprint.
const HELD_0: [u8; 35] = [
    0x26, 0, 0x20, 0, 0, 0, 0, 0, 0, 0, 0, 0, 0, 0, 0, 0, 0, 0, 0, 0, 0, 0, 0, 0, 0, 0, 0, 0, 0, 0,
    0, 0, 0, 0, 0,
];

const HELD_2: [u8; 35] = [
    0x26, 0, 0x20, 0, 0, 0, 0, 0, 0, 0, 2, 0, 0, 0, 0, 0, 0, 0, 8, 0, 0, 0, 0, 0, 0, 0, 0, 0x9b,
    0x1b, 0x06, 0x03, 0x00, 0x4e, 0x1b, 0x13,
];

/// What three records come to.
pub const HELD_3: [u8; 35] = [
    0x26, 0, 0x20, 0, 0, 0, 0, 0, 0, 0, 3, 0, 0, 0, 0, 0, 0, 0, 9, 0, 0, 0, 0, 0, 0, 0, 0, 0xb8,
    0x26, 0x1a, 0xe7, 0xdb, 0x4f, 0xab, 0x00,
];

/// What all four records come to.
pub const HELD_4: [u8; 35] = [
    0x26, 0, 0x20, 0, 0, 0, 0, 0, 0, 0, 4, 0, 0, 0, 0, 0, 0, 0, 11, 0, 0, 0, 0, 0, 0, 0, 0, 0xda,
    0x3a, 0x76, 0xc0, 0xed, 0x54, 0x64, 0x82,
];

// The entry (2, 5) with the siblings 3 and 0: those of the first two records.
const ENTRY_OF_2: [u8; 37] = [
    0x13, 0, 0x0e, 0, 1, 0, 0, 0, 2, 0, 0, 0, 0, 0, 0, 0, 5, 0x14, 0, 0x11, 3, 0, 0, 0, 0, 0, 0, 0,
    3, 0, 0, 0, 0, 0, 0, 0, 0,
];

// No entry is at item 1 or above it.
const FOUND_NONE: [u8; 12] = [0x22, 0, 9, 0, 0, 0, 0, 0, 0, 0, 0, 0];

// One update, and the end of a stream.
const UPDATE: [u8; 18] = [2, 0, 15, 0, 1, 0, 0, 0, 0, 1, 0, 0, 0, 0, 0, 0, 0, 2];

const END_STREAM: [u8; 3] = [3, 0, 0];

/// The end of a talk of moments or of lookups.
pub const END: [u8; 3] = [0x23, 0, 0];

/// A store with its form, what the helper receives, part by part, how the talk ends, and what it
/// sends, part by part.
pub type StoreRow = (
    Form,
    &'static [u8],
    &'static [&'static [u8]],
    StoreStatus,
    &'static [&'static [u8]],
);

/// Talks that are served to their end, over the records that were asked for or as many as there are.
pub const SERVED: [StoreRow; 9] = [
    (
        Form::Binary,
        &RECORDS,
        &[
            &OPEN, &RECALL_3, &SUB_1_2, &REVEAL, &CUBES, &REVEAL, &SUCC_1, &F2, &REVEAL, &BYE,
        ],
        StoreStatus::Served,
        &[
            &HELD_3,
            &ENTRY,
            &NO_SIBLINGS,
            &SUM,
            &LAST,
            &FOUND_2,
            &SQUARES,
            &NINE,
        ],
    ),
    (
        Form::Binary,
        &RECORDS,
        &[&OPEN, &RECALL_2, &SUB_1_2, &REVEAL, &BYE],
        StoreStatus::Served,
        &[&HELD_2, &ENTRY_OF_2, &NO_SIBLINGS],
    ),
    (
        Form::Binary,
        &RECORDS,
        &[&OPEN, &RECALL_ALL, &BYE],
        StoreStatus::Served,
        &[&HELD_4],
    ),
    (
        Form::Text,
        LINES,
        &[&OPEN, &RECALL_3, &SUB_1_2, &BYE],
        StoreStatus::Served,
        &[&HELD_3, &ENTRY],
    ),
    (
        Form::Text,
        &[],
        &[&OPEN, &RECALL_3, &SUCC_1, &BYE],
        StoreStatus::Served,
        &[&HELD_0, &FOUND_NONE],
    ),
    // Nothing is asked for, so nothing is read.
    (
        Form::Text,
        b"?\n",
        &[&OPEN, &RECALL_0, &SUCC_1, &BYE],
        StoreStatus::Served,
        &[&HELD_0, &FOUND_NONE],
    ),
    // What is not legal stands behind the records that are asked for.
    (
        Form::Text,
        b"0 0 3\n0 2 5\n0 4 1\n",
        &[&OPEN, &RECALL_2, &BYE],
        StoreStatus::Served,
        &[&HELD_2],
    ),
    // A Bye at once, and behind the opening: the store is not read.
    (Form::Text, b"?\n", &[&BYE], StoreStatus::Served, &[]),
    (Form::Text, b"?\n", &[&OPEN, &BYE], StoreStatus::Served, &[]),
];

/// Stores with a record that is not legal among those that are asked for.
pub const BAD: [StoreRow; 6] = [
    (
        Form::Text,
        b"0 0 3\n0 2 5\n0 4 1\n",
        &[&OPEN, &RECALL_3, &SUB_1_2],
        StoreStatus::BadStream {
            at: 2,
            why: Why::BadItem,
        },
        &[],
    ),
    (
        Form::Text,
        b"0 0 3\n0 2 5\n0 4 1\n",
        &[&OPEN, &RECALL_ALL, &SUB_1_2],
        StoreStatus::BadStream {
            at: 2,
            why: Why::BadItem,
        },
        &[],
    ),
    (
        Form::Text,
        b"0 0 3\n0 2 5\n0 3 0\n",
        &[&OPEN, &RECALL_3, &SUB_1_2],
        StoreStatus::BadStream {
            at: 2,
            why: Why::ZeroDelta,
        },
        &[],
    ),
    (
        Form::Text,
        b"0 0 3\n0 2 1073741821\n",
        &[&OPEN, &RECALL_3, &SUB_1_2],
        StoreStatus::BadStream {
            at: 1,
            why: Why::TooHeavy(Side::First),
        },
        &[],
    ),
    (
        Form::Wide,
        &RECORDS,
        &[&OPEN, &RECALL_2],
        StoreStatus::BadStream {
            at: 0,
            why: Why::TooHeavy(Side::First),
        },
        &[],
    ),
    (
        Form::Text,
        b"0 0 3\n0 2 5",
        &[&OPEN, &RECALL_2],
        StoreStatus::BadStream {
            at: 1,
            why: Why::Truncated,
        },
        &[],
    ),
];

/// Talks with a message that may not come, with bytes that are none, or without an end.
pub const STOPPED: [StoreRow; 13] = [
    (
        Form::Text,
        LINES,
        &[&RECALL_3],
        StoreStatus::BadFrame { offset: 0 },
        &[&OUT_OF_TURN],
    ),
    (
        Form::Text,
        LINES,
        &[&OPEN, &OPEN],
        StoreStatus::BadFrame { offset: 5 },
        &[&OUT_OF_TURN],
    ),
    (
        Form::Text,
        LINES,
        &[&OPEN, &UPDATE],
        StoreStatus::BadFrame { offset: 5 },
        &[&OUT_OF_TURN],
    ),
    (
        Form::Text,
        LINES,
        &[&OPEN, &END_STREAM],
        StoreStatus::BadFrame { offset: 5 },
        &[&OUT_OF_TURN],
    ),
    (
        Form::Text,
        LINES,
        &[&OPEN, &SUB_1_2],
        StoreStatus::BadFrame { offset: 5 },
        &[&OUT_OF_TURN],
    ),
    (
        Form::Text,
        LINES,
        &[&OPEN, &END],
        StoreStatus::BadFrame { offset: 5 },
        &[],
    ),
    (
        Form::Text,
        LINES,
        &[&OPEN, &RECALL_3, &RECALL_3],
        StoreStatus::BadFrame { offset: 16 },
        &[&HELD_3, &OUT_OF_TURN],
    ),
    (
        Form::Text,
        LINES,
        &[&OPEN, &RECALL_3, &UPDATE],
        StoreStatus::BadFrame { offset: 16 },
        &[&HELD_3, &OUT_OF_TURN],
    ),
    (
        Form::Text,
        LINES,
        &[&OPEN, &RECALL_3, &SUB_1_2, &SUCC_1],
        StoreStatus::BadFrame { offset: 28 },
        &[&HELD_3, &ENTRY, &OUT_OF_TURN],
    ),
    (
        Form::Text,
        LINES,
        &[&OPEN, &RECALL_3, &CUBES, &SUB_1_2],
        StoreStatus::BadFrame { offset: 21 },
        &[&HELD_3, &SUM, &OUT_OF_TURN],
    ),
    (Form::Text, LINES, &[], StoreStatus::PeerClosed, &[]),
    (
        Form::Text,
        LINES,
        &[&OPEN, &[0x27, 0, 8]],
        StoreStatus::PeerClosed,
        &[],
    ),
    (
        Form::Text,
        LINES,
        &[&OPEN, &RECALL_3, &SUB_1_2],
        StoreStatus::PeerClosed,
        &[&HELD_3, &ENTRY],
    ),
];
