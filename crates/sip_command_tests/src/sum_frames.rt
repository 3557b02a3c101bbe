//! The bytes of the worked runs about sums, written out by hand. A polynomial has its coefficients
//! from the lowest on, and an element is below p = 2^61 - 1, so that p - 58 stands for -58.

/// The records (1, 0, 2), (1, 1, 7), (1, 2, 1), and a frame of these behind those of side 0: 2 + 6
/// * 13 = 0x50 bytes.
pub const THREE_OF_SIDE_1: [u8; 39] = [
    1, 0, 0, 0, 0, 0, 0, 0, 0, 0, 0, 0, 2, // item 0
    1, 0, 0, 0, 1, 0, 0, 0, 0, 0, 0, 0, 7, // item 1
    1, 0, 0, 0, 2, 0, 0, 0, 0, 0, 0, 0, 1, // item 2
];

pub const UPDATES_OF_SIX: [u8; 5] = [0x02, 0, 0x50, 0, 6];

/// The squares of side 0, and the products.
pub const F2: [u8; 5] = [0x04, 0, 2, 3, 0];

pub const INNER: [u8; 4] = [0x04, 0, 1, 4];

/// The entries 1 to 3 of side 0, with items of 4 bytes and of 8.
pub const RANGE_1_3: [u8; 13] = [0x04, 0, 10, 2, 0, 0, 0, 0, 1, 0, 0, 0, 3];

pub const RANGE_1_3_WIDE: [u8; 21] = [
    0x04, 0, 0x12, 2, 0, 0, 0, 0, 0, 0, 0, 0, 1, 0, 0, 0, 0, 0, 0, 0, 3,
];

/// Item 4 is none of 4.
pub const RANGE_1_4: [u8; 13] = [0x04, 0, 10, 2, 0, 0, 0, 0, 1, 0, 0, 0, 4];

/// Over (3, 0, 5, 1) the squares are 35. At the challenge 2 the polynomials are 34 - 58 x + 25 x^2,
/// and 9.
pub const CLAIM_35: [u8; 11] = [0x11, 0, 8, 0, 0, 0, 0, 0, 0, 0, 35];

pub const SQUARES_1: [u8; 27] = [
    0x12, 0, 0x18, 0, 0, 0, 0, 0, 0, 0, 34, 0x1f, 0xff, 0xff, 0xff, 0xff, 0xff, 0xff, 0xc5, 0, 0,
    0, 0, 0, 0, 0, 25,
];

pub const SQUARES_2: [u8; 27] = [
    0x12, 0, 0x18, 0, 0, 0, 0, 0, 0, 0, 9, 0, 0, 0, 0, 0, 0, 0, 0, 0, 0, 0, 0, 0, 0, 0, 0,
];

/// At the challenge z = 1299216148431902478 the two entries are 3 - 3 z and 5 - 4 z; these are the
/// coefficients of the second polynomial there, and one that differs from it and has the same sum
/// of its values at 0 and 1.
pub const SQUARES_2_AT_ZERO_SEED: [u8; 27] = [
    0x12, 0, 0x18, 0x14, 0x15, 0xff, 0xfe, 0, 0x8d, 0x97, 0xd4, 0x0b, 0xe0, 0x35, 0x70, 0xd3, 0x4b,
    0x30, 0x3c, 0x05, 0x48, 0x4a, 0xb4, 0x0d, 0x7b, 0x1b, 0xa8,
];

pub const SAME_SUM_AT_ZERO_SEED: [u8; 27] = [
    0x12, 0, 0x18, 0x14, 0x15, 0xff, 0xfe, 0, 0x8d, 0x97, 0xd3, 0x0b, 0xe0, 0x35, 0x70, 0xd3, 0x4b,
    0x30, 0x3e, 0x05, 0x48, 0x4a, 0xb4, 0x0d, 0x7b, 0x1b, 0xa8,
];

/// The products with (2, 7, 1, 0) are 11, and the polynomials 11 - 11 x^2, and -36 + 39 x.
pub const CLAIM_11: [u8; 11] = [0x11, 0, 8, 0, 0, 0, 0, 0, 0, 0, 11];

pub const PRODUCTS_1: [u8; 27] = [
    0x12, 0, 0x18, 0, 0, 0, 0, 0, 0, 0, 11, 0, 0, 0, 0, 0, 0, 0, 0, 0x1f, 0xff, 0xff, 0xff, 0xff,
    0xff, 0xff, 0xf4,
];

pub const PRODUCTS_2: [u8; 27] = [
    0x12, 0, 0x18, 0x1f, 0xff, 0xff, 0xff, 0xff, 0xff, 0xff, 0xdb, 0, 0, 0, 0, 0, 0, 0, 39, 0, 0,
    0, 0, 0, 0, 0, 0,
];

/// The entries 1 to 3 are 6, and the polynomials 5 - x - 3 x^2, and -6 + 3 x.
pub const CLAIM_6: [u8; 11] = [0x11, 0, 8, 0, 0, 0, 0, 0, 0, 0, 6];

pub const ENTRIES_1: [u8; 27] = [
    0x12, 0, 0x18, 0, 0, 0, 0, 0, 0, 0, 5, 0x1f, 0xff, 0xff, 0xff, 0xff, 0xff, 0xff, 0xfe, 0x1f,
    0xff, 0xff, 0xff, 0xff, 0xff, 0xff, 0xfc,
];

pub const ENTRIES_2: [u8; 27] = [
    0x12, 0, 0x18, 0x1f, 0xff, 0xff, 0xff, 0xff, 0xff, 0xff, 0xf9, 0, 0, 0, 0, 0, 0, 0, 3, 0, 0, 0,
    0, 0, 0, 0, 0,
];

// Frames and replies with a fault.

pub const CLAIM_36: [u8; 11] = [0x11, 0, 8, 0, 0, 0, 0, 0, 0, 0, 36];

/// A claim is at most 2^60 - 1, and at least -(2^60 - 1).
pub const CLAIM_2_TO_60: [u8; 11] = [0x11, 0, 8, 0x10, 0, 0, 0, 0, 0, 0, 0];

pub const GREATEST_CLAIM: [u8; 11] = [0x11, 0, 8, 0x0f, 0xff, 0xff, 0xff, 0xff, 0xff, 0xff, 0xff];

pub const CLAIM_BELOW_LEAST: [u8; 11] = [0x11, 0, 8, 0xf0, 0, 0, 0, 0, 0, 0, 0];

/// p is no element.
pub const POLY_OF_P: [u8; 27] = [
    0x12, 0, 0x18, 0x1f, 0xff, 0xff, 0xff, 0xff, 0xff, 0xff, 0xff, 0, 0, 0, 0, 0, 0, 0, 0, 0, 0, 0,
    0, 0, 0, 0, 0,
];

pub const LONG_CLAIM_HEADER: [u8; 3] = [0x11, 0, 9];

pub const POLY_HEADER: [u8; 3] = [0x12, 0, 0x18];

pub const SHORT_POLY_HEADER: [u8; 3] = [0x12, 0, 0x10];

/// One element of three.
pub const PART_OF_POLY: [u8; 11] = [0x12, 0, 0x18, 0, 0, 0, 0, 0, 0, 0, 34];
