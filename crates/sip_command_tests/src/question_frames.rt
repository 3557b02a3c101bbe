// The bytes of the worked runs about lookups and moments, written out by hand. A polynomial has its
// coefficients from the lowest on, and an element is below p = 2^61 - 1, so that p - 27 stands for
// -27.

// The end of a talk of either.
pub const END: [u8; 3] = [0x23, 0, 0];

// ---- lookups

// A code, 1 for an index, 2 for a predecessor and 3 for a successor, and the item.
pub const ASK_INDEX_1: [u8; 12] = [0x21, 0, 9, 1, 0, 0, 0, 0, 0, 0, 0, 1];

pub const ASK_PRED_1: [u8; 12] = [0x21, 0, 9, 2, 0, 0, 0, 0, 0, 0, 0, 1];

pub const ASK_PRED_3: [u8; 12] = [0x21, 0, 9, 2, 0, 0, 0, 0, 0, 0, 0, 3];

pub const ASK_SUCC_1: [u8; 12] = [0x21, 0, 9, 3, 0, 0, 0, 0, 0, 0, 0, 1];

// Item 4 is none of 4, and code 4 is none.
pub const ASK_INDEX_4: [u8; 12] = [0x21, 0, 9, 1, 0, 0, 0, 0, 0, 0, 0, 4];

pub const ASK_CODE_4: [u8; 12] = [0x21, 0, 9, 4, 0, 0, 0, 0, 0, 0, 0, 1];

pub const ASK_HEADER: [u8; 3] = [0x21, 0, 9];

// A place, and that there is none.
pub const FOUND_0: [u8; 12] = [0x22, 0, 9, 1, 0, 0, 0, 0, 0, 0, 0, 0];

pub const FOUND_1: [u8; 12] = [0x22, 0, 9, 1, 0, 0, 0, 0, 0, 0, 0, 1];

pub const FOUND_2: [u8; 12] = [0x22, 0, 9, 1, 0, 0, 0, 0, 0, 0, 0, 2];

pub const FOUND_3: [u8; 12] = [0x22, 0, 9, 1, 0, 0, 0, 0, 0, 0, 0, 3];

pub const FOUND_NONE: [u8; 12] = [0x22, 0, 9, 0, 0, 0, 0, 0, 0, 0, 0, 0];

// None, and yet an index.
pub const FOUND_NONE_AT_1: [u8; 12] = [0x22, 0, 9, 0, 0, 0, 0, 0, 0, 0, 0, 1];

pub const SUB_1_1: [u8; 12] = [0x04, 0, 9, 1, 0, 0, 0, 1, 0, 0, 0, 1];

pub const SUB_1_3: [u8; 12] = [0x04, 0, 9, 1, 0, 0, 0, 1, 0, 0, 0, 3];

// Entry 0 is 3; entries 2 and 3 are 5 and 1.
pub const ENTRY_0: [u8; 17] = [0x13, 0, 0x0e, 0, 1, 0, 0, 0, 0, 0, 0, 0, 0, 0, 0, 0, 3];

pub const ENTRIES_2_3: [u8; 29] = [
    0x13, 0, 0x1a, 0, 2, 0, 0, 0, 2, 0, 0, 0, 0, 0, 0, 0, 5, 0, 0, 0, 3, 0, 0, 0, 0, 0, 0, 0, 1,
];

// The node above the entries 5 and 1 at the first challenge of the zero seed, and at its third:
// each is 5 more than it.
pub const RIGHT_NODE: [u8; 12] = [
    0x14, 0, 9, 2, 0x12, 0x07, 0xbe, 0x34, 0x15, 0xbc, 0x17, 0x13,
];

pub const RIGHT_NODE_FOR_QUERY_2: [u8; 12] = [
    0x14, 0, 9, 2, 0x03, 0x5d, 0xb1, 0xb4, 0x17, 0x03, 0x3a, 0x5c,
];

// ---- moments

// A side, and a degree.
pub const ASK_THIRD: [u8; 5] = [0x24, 0, 2, 0, 3];

pub const ASK_EIGHTH: [u8; 5] = [0x24, 0, 2, 0, 8];

pub const ASK_SIDE_2: [u8; 5] = [0x24, 0, 2, 2, 3];

pub const ASK_MOMENT_HEADER: [u8; 3] = [0x24, 0, 2];

// The cubes of 3, 0, 5 and 1 are 153. The polynomial (3 - 3x)^3 + (5 - 4x)^3 is
// 152 - 381x + 321x^2 - 91x^3.
pub const CLAIM_153: [u8; 11] = [0x11, 0, 8, 0, 0, 0, 0, 0, 0, 0, 153];

pub const CUBES_1: [u8; 35] = [
    0x25, 0, 0x20, 0, 0, 0, 0, 0, 0, 0, 152, 0x1f, 0xff, 0xff, 0xff, 0xff, 0xff, 0xfe, 0x82, 0, 0,
    0, 0, 0, 0, 1, 0x41, 0x1f, 0xff, 0xff, 0xff, 0xff, 0xff, 0xff, 0xa4,
];

// At the challenge 2 both numbers are -3, and the polynomial is -27.
pub const CUBES_2: [u8; 35] = [
    0x25, 0, 0x20, 0x1f, 0xff, 0xff, 0xff, 0xff, 0xff, 0xff, 0xe4, 0, 0, 0, 0, 0, 0, 0, 0, 0, 0, 0,
    0, 0, 0, 0, 0, 0, 0, 0, 0, 0, 0, 0, 0,
];

// At the challenge z = 1299216148431902478 the two numbers are u = 3 - 3z and w = 5 - 4z; these are
// the coefficients of (u + (w - u)x)^3.
pub const CUBES_2_AT_ZERO_SEED: [u8; 35] = [
    0x25, 0, 0x20, 0x1c, 0x3c, 0x38, 0x11, 0x81, 0xc8, 0x8e, 0x50, 0x18, 0x7e, 0x38, 0x0b, 0x83,
    0x71, 0x55, 0xce, 0x04, 0xa5, 0x0d, 0x82, 0x68, 0xc1, 0x3a, 0x4a, 0x10, 0x77, 0x13, 0x50, 0xc3,
    0xc9, 0x77, 0x77,
];

// The record (0, 1, 181), and the record (0, 1, 182); each is 13 bytes behind the count.
pub const UPDATES_OF_ONE: [u8; 5] = [0x02, 0, 0x0f, 0, 1];

pub const RECORD_OF_181: [u8; 13] = [0, 0, 0, 0, 1, 0, 0, 0, 0, 0, 0, 0, 181];

pub const RECORD_OF_182: [u8; 13] = [0, 0, 0, 0, 1, 0, 0, 0, 0, 0, 0, 0, 182];

// 181^8 = 1151936657823500641, and the polynomial that is it times x^8.
pub const CLAIM_OF_181: [u8; 11] = [0x11, 0, 8, 0x0f, 0xfc, 0x80, 0x49, 0x7d, 0x52, 0x09, 0x61];

pub const EIGHTH_OF_181: [u8; 75] = [
    0x25, 0, 0x48, 0, 0, 0, 0, 0, 0, 0, 0, 0, 0, 0, 0, 0, 0, 0, 0, 0, 0, 0, 0, 0, 0, 0, 0, 0, 0, 0,
    0, 0, 0, 0, 0, 0, 0, 0, 0, 0, 0, 0, 0, 0, 0, 0, 0, 0, 0, 0, 0, 0, 0, 0, 0, 0, 0, 0, 0, 0, 0, 0,
    0, 0, 0, 0, 0, 0x0f, 0xfc, 0x80, 0x49, 0x7d, 0x52, 0x09, 0x61,
];
