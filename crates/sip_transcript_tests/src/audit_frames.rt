// The bytes of stored runs, written out by hand: heads at the challenges 2 and 10, and frames of
// version 2.

// The text SIPT, the version, depth 2, and how many queries follow.
pub const ONE_ASK: [u8; 7] = *b"SIPT\x01\x02\x01";

pub const ONE_WIDE_ASK: [u8; 7] = *b"SIPT\x02\x02\x01";

pub const TWO_ASKS: [u8; 7] = *b"SIPT\x01\x02\x02";

pub const FIVE_ASKS: [u8; 7] = *b"SIPT\x01\x02\x05";

pub const FIVE_WIDE_ASKS: [u8; 7] = *b"SIPT\x02\x02\x05";

// Depth 1.
pub const ONE_ASK_AT_1: [u8; 7] = *b"SIPT\x01\x01\x01";

// A query's challenges: 2 and 10; and at depth 1.
pub const BLOCK: [u8; 16] = [0, 0, 0, 0, 0, 0, 0, 2, 0, 0, 0, 0, 0, 0, 0, 10];

pub const BLOCK_AT_1: [u8; 8] = [0, 0, 0, 0, 0, 0, 0, 2];

// The entries of side 0 that are 1 or more, and 10 or more.
pub const HEAVY_1: [u8; 13] = [0x04, 0, 10, 5, 0, 0, 0, 0, 0, 0, 0, 0, 1];

pub const HEAVY_10: [u8; 13] = [0x04, 0, 10, 5, 0, 0, 0, 0, 0, 0, 0, 0, 10];

// A record of item 0, to which 65,537 is added.
pub const RECORD_OF_65537: [u8; 13] = [0, 0, 0, 0, 0, 0, 0, 0, 0, 0, 1, 0, 1];

// The leaves (2, 5) and (3, 1), and node 0 above (3, 0), with items of 8 bytes.
pub const LEAVES_5_1_WIDE: [u8; 37] = [
    0x15, 0, 0x22, 0, 2, // two leaves
    0, 0, 0, 0, 0, 0, 0, 2, 0, 0, 0, 0, 0, 0, 0, 5, //
    0, 0, 0, 0, 0, 0, 0, 3, 0, 0, 0, 0, 0, 0, 0, 1,
];

pub const NODE_OF_3_WIDE: [u8; 29] = [
    0x16, 0, 0x1a, 0, 1, // one node
    0, 0, 0, 0, 0, 0, 0, 0, 0, 0, 0, 0, 0, 0, 0, 9, 0, 0, 0, 0, 0, 0, 0, 3,
];

// Its hash is 8, which is not so.
pub const NODE_OF_HASH_8_WIDE: [u8; 29] = [
    0x16, 0, 0x1a, 0, 1, // one node
    0, 0, 0, 0, 0, 0, 0, 0, 0, 0, 0, 0, 0, 0, 0, 8, 0, 0, 0, 0, 0, 0, 0, 3,
];

// An entry of the side is below 0.
pub const REFUSE_3: [u8; 4] = [0x18, 0, 1, 3];

// Polynomials whose values at 0 and 1 add up to what is expected behind a first one, and whose
// value at 10 is wrong: 9 - x + x^2 for the squares, -6 + 2 x + x^2 for the entries, and -36 + 38 x
// + x^2 for the products.
pub const OTHER_SQUARES_2: [u8; 27] = [
    0x12, 0, 0x18, 0, 0, 0, 0, 0, 0, 0, 9, 0x1f, 0xff, 0xff, 0xff, 0xff, 0xff, 0xff, 0xfe, 0, 0, 0,
    0, 0, 0, 0, 1,
];

pub const OTHER_ENTRIES_2: [u8; 27] = [
    0x12, 0, 0x18, 0x1f, 0xff, 0xff, 0xff, 0xff, 0xff, 0xff, 0xf9, 0, 0, 0, 0, 0, 0, 0, 2, 0, 0, 0,
    0, 0, 0, 0, 1,
];

pub const OTHER_PRODUCTS_2: [u8; 27] = [
    0x12, 0, 0x18, 0x1f, 0xff, 0xff, 0xff, 0xff, 0xff, 0xff, 0xdb, 0, 0, 0, 0, 0, 0, 0, 38, 0, 0,
    0, 0, 0, 0, 0, 1,
];

// One query at depth 2, for the items 1 to 2, at the challenges 2 and 10; an entry, two siblings,
// and no sibling.
pub const TALK: [u8; 76] = [
    b'S', b'I', b'P', b'T', 1, 2, 1, //
    4, 0, 9, 1, 0, 0, 0, 1, 0, 0, 0, 2, //
    0, 0, 0, 0, 0, 0, 0, 2, 0, 0, 0, 0, 0, 0, 0, 10, //
    0x13, 0, 0x0e, 0, 1, 0, 0, 0, 2, 0, 0, 0, 0, 0, 0, 0, 5, //
    0x14, 0, 0x11, 3, 0, 0, 0, 0, 0, 0, 0, 3, 0, 0, 0, 0, 0, 0, 0, 1, //
    0x14, 0, 1, 0,
];

// The same in version 2.
pub const WIDE: [u8; 88] = [
    b'S', b'I', b'P', b'T', 2, 2, 1, //
    4, 0, 17, 1, 0, 0, 0, 0, 0, 0, 0, 1, 0, 0, 0, 0, 0, 0, 0, 2, //
    0, 0, 0, 0, 0, 0, 0, 2, 0, 0, 0, 0, 0, 0, 0, 10, //
    0x13, 0, 0x12, 0, 1, 0, 0, 0, 0, 0, 0, 0, 2, 0, 0, 0, 0, 0, 0, 0, 5, //
    0x14, 0, 0x11, 3, 0, 0, 0, 0, 0, 0, 0, 3, 0, 0, 0, 0, 0, 0, 0, 1, //
    0x14, 0, 1, 0,
];
