//! Frames of talks about the vector (3, 0, 5, 1) at the challenges 2 and 10, of both ends.

/// The opening of a talk over four items, that vector of side 0 in one frame, and its end.
pub const STREAM: [u8; 52] = [
    1, 0, 2, 1, 2, 2, 0, 41, 0, 3, 0, 0, 0, 0, 0, 0, 0, 0, 0, 0, 0, 0, 3, 0, 0, 0, 0, 2, 0, 0, 0,
    0, 0, 0, 0, 5, 0, 0, 0, 0, 3, 0, 0, 0, 0, 0, 0, 0, 1, 3, 0, 0,
];

/// The farewell.
pub const BYE: [u8; 3] = [6, 0, 0];

/// The refusal of a message out of turn.
pub const OUT_OF_TURN: [u8; 4] = [0x18, 0, 1, 4];

/// The challenge 2.
pub const REVEAL: [u8; 11] = [5, 0, 8, 0, 0, 0, 0, 0, 0, 0, 2];

// The entries 1 to 2: the entry (2, 5) and the siblings 3 and 1; then no siblings.
pub const SUB_1_2: [u8; 12] = [4, 0, 9, 1, 0, 0, 0, 1, 0, 0, 0, 2];

pub const ENTRY: [u8; 37] = [
    0x13, 0, 0x0e, 0, 1, 0, 0, 0, 2, 0, 0, 0, 0, 0, 0, 0, 5, 0x14, 0, 0x11, 3, 0, 0, 0, 0, 0, 0, 0,
    3, 0, 0, 0, 0, 0, 0, 0, 1,
];

pub const NO_SIBLINGS: [u8; 4] = [0x14, 0, 1, 0];

// The second moment of side 0: 35, 34 - 60x + 25x^2, and then the number 9.
pub const F2: [u8; 5] = [4, 0, 2, 3, 0];

pub const SQUARES: [u8; 38] = [
    0x11, 0, 8, 0, 0, 0, 0, 0, 0, 0, 0x23, 0x12, 0, 0x18, 0, 0, 0, 0, 0, 0, 0, 0x22, 0x1f, 0xff,
    0xff, 0xff, 0xff, 0xff, 0xff, 0xc5, 0, 0, 0, 0, 0, 0, 0, 0x19,
];

pub const NINE: [u8; 27] = [
    0x12, 0, 0x18, 0, 0, 0, 0, 0, 0, 0, 9, 0, 0, 0, 0, 0, 0, 0, 0, 0, 0, 0, 0, 0, 0, 0, 0,
];

// The sum of the entries 1 to 3: 6, 5 - x - 3x^2, and then -6 + 3x.
pub const RANGE: [u8; 13] = [4, 0, 10, 2, 0, 0, 0, 0, 1, 0, 0, 0, 3];

pub const SIX: [u8; 38] = [
    0x11, 0, 8, 0, 0, 0, 0, 0, 0, 0, 6, 0x12, 0, 0x18, 0, 0, 0, 0, 0, 0, 0, 5, 0x1f, 0xff, 0xff,
    0xff, 0xff, 0xff, 0xff, 0xfe, 0x1f, 0xff, 0xff, 0xff, 0xff, 0xff, 0xff, 0xfc,
];

pub const THREES: [u8; 27] = [
    0x12, 0, 0x18, 0x1f, 0xff, 0xff, 0xff, 0xff, 0xff, 0xff, 0xf9, 0, 0, 0, 0, 0, 0, 0, 3, 0, 0, 0,
    0, 0, 0, 0, 0,
];

// The entries of at least 4: the leaves 2 and 3, and then the node of items 0 and 1.
pub const HEAVY_4: [u8; 13] = [4, 0, 10, 5, 0, 0, 0, 0, 0, 0, 0, 0, 4];

pub const LEAVES: [u8; 32] = [
    0x15, 0, 0x1a, 0, 2, 0, 0, 0, 2, 0, 0, 0, 0, 0, 0, 0, 5, 0, 0, 0, 3, 0, 0, 0, 0, 0, 0, 0, 1,
    0x17, 0, 0,
];

pub const NODES: [u8; 28] = [
    0x16, 0, 0x16, 0, 1, 0, 0, 0, 0, 0, 0, 0, 0, 0, 0, 0, 9, 0, 0, 0, 0, 0, 0, 0, 3, 0x17, 0, 0,
];

// The third moment of side 0: 153, 152 - 381x + 321x^2 - 91x^3, and then -27.
pub const CUBES: [u8; 5] = [0x24, 0, 2, 0, 3];

pub const SUM: [u8; 46] = [
    0x11, 0, 8, 0, 0, 0, 0, 0, 0, 0, 153, 0x25, 0, 32, 0, 0, 0, 0, 0, 0, 0, 152, 0x1f, 0xff, 0xff,
    0xff, 0xff, 0xff, 0xfe, 0x82, 0, 0, 0, 0, 0, 0, 1, 0x41, 0x1f, 0xff, 0xff, 0xff, 0xff, 0xff,
    0xff, 0xa4,
];

pub const LAST: [u8; 35] = [
    0x25, 0, 32, 0x1f, 0xff, 0xff, 0xff, 0xff, 0xff, 0xff, 0xe4, 0, 0, 0, 0, 0, 0, 0, 0, 0, 0, 0,
    0, 0, 0, 0, 0, 0, 0, 0, 0, 0, 0, 0, 0,
];

// The nearest entry at item 1 or above it is at item 2; at item 1 or below it is at item 0; no
// entry is found; an item that is too low for the first.
pub const SUCC_1: [u8; 12] = [0x21, 0, 9, 3, 0, 0, 0, 0, 0, 0, 0, 1];

pub const PRED_1: [u8; 12] = [0x21, 0, 9, 2, 0, 0, 0, 0, 0, 0, 0, 1];

pub const INDEX_1: [u8; 12] = [0x21, 0, 9, 1, 0, 0, 0, 0, 0, 0, 0, 1];

pub const FOUND_2: [u8; 12] = [0x22, 0, 9, 1, 0, 0, 0, 0, 0, 0, 0, 2];

pub const FOUND_1: [u8; 12] = [0x22, 0, 9, 1, 0, 0, 0, 0, 0, 0, 0, 1];

pub const FOUND_0: [u8; 12] = [0x22, 0, 9, 1, 0, 0, 0, 0, 0, 0, 0, 0];

pub const FOUND_NONE: [u8; 12] = [0x22, 0, 9, 0, 0, 0, 0, 0, 0, 0, 0, 0];

// The entries of the intervals that prove them: 1 to 1 has none, beside the siblings 3 and 7; 0 to
// 1 has (0, 3), beside the sibling 7; 1 to 3 has (2, 5) and (3, 1), beside the sibling 3.
pub const SUB_1_1: [u8; 12] = [4, 0, 9, 1, 0, 0, 0, 1, 0, 0, 0, 1];

pub const SUB_0_1: [u8; 12] = [4, 0, 9, 1, 0, 0, 0, 0, 0, 0, 0, 1];

pub const SUB_1_3: [u8; 12] = [4, 0, 9, 1, 0, 0, 0, 1, 0, 0, 0, 3];

pub const LEFT_3: [u8; 12] = [0x14, 0, 9, 1, 0, 0, 0, 0, 0, 0, 0, 3];

pub const RIGHT_7: [u8; 12] = [0x14, 0, 9, 2, 0, 0, 0, 0, 0, 0, 0, 7];

pub const ENTRY_0: [u8; 17] = [0x13, 0, 0x0e, 0, 1, 0, 0, 0, 0, 0, 0, 0, 0, 0, 0, 0, 3];

pub const TWO_ENTRIES: [u8; 29] = [
    0x13, 0, 0x1a, 0, 2, 0, 0, 0, 2, 0, 0, 0, 0, 0, 0, 0, 5, 0, 0, 0, 3, 0, 0, 0, 0, 0, 0, 0, 1,
];
