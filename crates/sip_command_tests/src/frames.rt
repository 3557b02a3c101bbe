//! The bytes of the worked runs, written out by hand. Numbers are big endian.

/// The records (0, 0, 3), (0, 2, 5), (0, 3, 1): side, item in 4 bytes, delta in 8 bytes.
pub const THREE_RECORDS: [u8; 39] = [
    0, 0, 0, 0, 0, 0, 0, 0, 0, 0, 0, 0, 3, // item 0
    0, 0, 0, 0, 2, 0, 0, 0, 0, 0, 0, 0, 5, // item 2
    0, 0, 0, 0, 3, 0, 0, 0, 0, 0, 0, 0, 1, // item 3
];

/// The records (0, 0, 3), (0, 1, 5).
pub const TWO_RECORDS: [u8; 26] = [
    0, 0, 0, 0, 0, 0, 0, 0, 0, 0, 0, 0, 3, // item 0
    0, 0, 0, 0, 1, 0, 0, 0, 0, 0, 0, 0, 5, // item 1
];

/// One byte less than a record.
pub const TWELVE_BYTES: [u8; 12] = [0; 12];

/// One record each: item 4, side 2, delta 0, delta -2^63.
pub const ITEM_4: [u8; 13] = [0, 0, 0, 0, 4, 0, 0, 0, 0, 0, 0, 0, 1];

pub const SIDE_2: [u8; 13] = [2, 0, 0, 0, 0, 0, 0, 0, 0, 0, 0, 0, 1];

pub const DELTA_0: [u8; 13] = [0; 13];

pub const LEAST_DELTA: [u8; 13] = [0, 0, 0, 0, 0, 0x80, 0, 0, 0, 0, 0, 0, 0];

/// One wide record each, with item 2^48 and with item 2^48 - 1, to which -1 is added.
pub const ITEM_2_TO_48: [u8; 17] = [0, 0, 1, 0, 0, 0, 0, 0, 0, 0, 0, 0, 0, 0, 0, 0, 1];

pub const LAST_ITEM: [u8; 17] = [
    0, 0, 0, 0xff, 0xff, 0xff, 0xff, 0xff, 0xff, 0xff, 0xff, 0xff, 0xff, 0xff, 0xff, 0xff, 0xff,
];

/// The greatest weight, 2^30 - 1 on item 0, and -1 more.
pub const TOO_HEAVY: [u8; 26] = [
    0, 0, 0, 0, 0, 0, 0, 0, 0, 0x3f, 0xff, 0xff, 0xff, // item 0
    0, 0, 0, 0, 0, 0xff, 0xff, 0xff, 0xff, 0xff, 0xff, 0xff, 0xff, // item 0
];

/// The first of these two.
pub const GREATEST_RECORD: [u8; 13] = [0, 0, 0, 0, 0, 0, 0, 0, 0, 0x3f, 0xff, 0xff, 0xff];

/// The three records without their last byte.
pub const RECORDS_CUT_SHORT: [u8; 38] = [
    0, 0, 0, 0, 0, 0, 0, 0, 0, 0, 0, 0, 3, // item 0
    0, 0, 0, 0, 2, 0, 0, 0, 0, 0, 0, 0, 5, // item 2
    0, 0, 0, 0, 3, 0, 0, 0, 0, 0, 0, 0, // item 3
];

/// The three records as lines of text.
pub const THREE_LINES: [u8; 18] = *b"0 0 3\n0 2 5\n0 3 1\n";

pub const ZERO_SEED: [u8; 32] = [0; 32];

/// One byte less than a seed.
pub const SHORT_SEED: [u8; 31] = [0; 31];

/// Version 1 at depths 1 and 2.
pub const OPEN_1: [u8; 5] = [0x01, 0, 2, 1, 1];

pub const OPEN_2: [u8; 5] = [0x01, 0, 2, 1, 2];

/// Version 2 at depth 2, and a depth that version 1 does not have.
pub const OPEN_2_WIDE: [u8; 5] = [0x01, 0, 2, 2, 2];

pub const OPEN_33: [u8; 5] = [0x01, 0, 2, 1, 33];

/// The records follow: 2 + 3 * 13 = 0x29 bytes, and 2 + 2 * 13 = 0x1c.
pub const UPDATES_OF_THREE: [u8; 5] = [0x02, 0, 0x29, 0, 3];

pub const UPDATES_OF_TWO: [u8; 5] = [0x02, 0, 0x1c, 0, 2];

/// The three records with items of 8 bytes: 2 + 3 * 17 = 0x35 bytes.
pub const UPDATES_OF_THREE_WIDE: [u8; 5] = [0x02, 0, 0x35, 0, 3];

pub const THREE_WIDE_RECORDS: [u8; 51] = [
    0, 0, 0, 0, 0, 0, 0, 0, 0, 0, 0, 0, 0, 0, 0, 0, 3, // item 0
    0, 0, 0, 0, 0, 0, 0, 0, 2, 0, 0, 0, 0, 0, 0, 0, 5, // item 2
    0, 0, 0, 0, 0, 0, 0, 0, 3, 0, 0, 0, 0, 0, 0, 0, 1, // item 3
];

/// The first two of them, and all three without the last byte.
pub const TWO_WIDE_RECORDS: [u8; 34] = [
    0, 0, 0, 0, 0, 0, 0, 0, 0, 0, 0, 0, 0, 0, 0, 0, 3, // item 0
    0, 0, 0, 0, 0, 0, 0, 0, 2, 0, 0, 0, 0, 0, 0, 0, 5, // item 2
];

pub const WIDE_RECORDS_CUT_SHORT: [u8; 50] = [
    0, 0, 0, 0, 0, 0, 0, 0, 0, 0, 0, 0, 0, 0, 0, 0, 3, // item 0
    0, 0, 0, 0, 0, 0, 0, 0, 2, 0, 0, 0, 0, 0, 0, 0, 5, // item 2
    0, 0, 0, 0, 0, 0, 0, 0, 3, 0, 0, 0, 0, 0, 0, 0, // item 3
];

pub const END_STREAM: [u8; 3] = [0x03, 0, 0];

/// All that is said of the stream of the three records: the opening, the updates, the end.
pub const STREAM_OF_THREE: [u8; 52] = [
    0x01, 0, 2, 1, 2, // version 1 at depth 2
    0x02, 0, 0x29, 0, 3, // three records
    0, 0, 0, 0, 0, 0, 0, 0, 0, 0, 0, 0, 3, // item 0
    0, 0, 0, 0, 2, 0, 0, 0, 0, 0, 0, 0, 5, // item 2
    0, 0, 0, 0, 3, 0, 0, 0, 0, 0, 0, 0, 1, // item 3
    0x03, 0, 0, // the end
];

/// The same in version 2.
pub const STREAM_OF_THREE_WIDE: [u8; 64] = [
    0x01, 0, 2, 2, 2, // version 2 at depth 2
    0x02, 0, 0x35, 0, 3, // three records
    0, 0, 0, 0, 0, 0, 0, 0, 0, 0, 0, 0, 0, 0, 0, 0, 3, // item 0
    0, 0, 0, 0, 0, 0, 0, 0, 2, 0, 0, 0, 0, 0, 0, 0, 5, // item 2
    0, 0, 0, 0, 0, 0, 0, 0, 3, 0, 0, 0, 0, 0, 0, 0, 1, // item 3
    0x03, 0, 0, // the end
];

pub const SUB_1_2: [u8; 12] = [0x04, 0, 9, 1, 0, 0, 0, 1, 0, 0, 0, 2];

pub const SUB_0_3: [u8; 12] = [0x04, 0, 9, 1, 0, 0, 0, 0, 0, 0, 0, 3];

pub const SUB_0_1: [u8; 12] = [0x04, 0, 9, 1, 0, 0, 0, 0, 0, 0, 0, 1];

/// The entries 1 to 2, with items of 8 bytes.
pub const SUB_1_2_WIDE: [u8; 20] = [
    0x04, 0, 0x11, 1, 0, 0, 0, 0, 0, 0, 0, 1, 0, 0, 0, 0, 0, 0, 0, 2,
];

/// The entries of side 0 that are 4 or more.
pub const HEAVY_4: [u8; 13] = [0x04, 0, 10, 5, 0, 0, 0, 0, 0, 0, 0, 0, 4];

/// The leaves (2, 5) and (3, 1).
pub const LEAVES_5_1: [u8; 29] = [
    0x15, 0, 0x1a, 0, 2, 0, 0, 0, 2, 0, 0, 0, 0, 0, 0, 0, 5, 0, 0, 0, 3, 0, 0, 0, 0, 0, 0, 0, 1,
];

/// The node 0 above (3, 0) at the challenge 2: its hash is 3 + 3 * 2, and its count 3.
pub const NODE_OF_3: [u8; 25] = [
    0x16, 0, 0x16, 0, 1, 0, 0, 0, 0, 0, 0, 0, 0, 0, 0, 0, 9, 0, 0, 0, 0, 0, 0, 0, 3,
];

pub const LEVEL_END: [u8; 3] = [0x17, 0, 0];

/// The entries of side 0 that are half of its total or more, which version 2 alone can ask for.
pub const HALF: [u8; 13] = [0x04, 0, 10, 6, 0, 0, 0, 0, 1, 0, 0, 0, 2];

/// The key stream of ChaCha20 for a key of zeros begins 76 b8 e0 ad a0 f1 3d 90. Its first word,
/// the low byte first, is 0x903df1a0ade0b876, and without the last three bits 0x1207be3415bc170e =
/// 1299216148431902478.
pub const REVEAL: [u8; 11] = [0x05, 0, 8, 0x12, 0x07, 0xbe, 0x34, 0x15, 0xbc, 0x17, 0x0e];

/// At depth 2 each query has two challenges of its own, of which the first is revealed. Words 2 and
/// 4 of that key stream are 0x1aed8da0b819d2bd and 0x8d4857517c5941da; these are they without the
/// last three bits.
pub const REVEAL_FOR_QUERY_2: [u8; 11] = [
    0x05, 0, 8, 0x03, 0x5d, 0xb1, 0xb4, 0x17, 0x03, 0x3a, 0x57,
];

pub const REVEAL_FOR_QUERY_3: [u8; 11] = [
    0x05, 0, 8, 0x11, 0xa9, 0x0a, 0xea, 0x2f, 0x8b, 0x28, 0x3b,
];

pub const REVEAL_OF_2: [u8; 11] = [0x05, 0, 8, 0, 0, 0, 0, 0, 0, 0, 2];

pub const BYE: [u8; 3] = [0x06, 0, 0];

/// Entry 2 has value 5.
pub const ENTRY_2: [u8; 17] = [0x13, 0, 0x0e, 0, 1, 0, 0, 0, 2, 0, 0, 0, 0, 0, 0, 0, 5];
/// The same with an index of 8 bytes.
pub const ENTRY_2_WIDE: [u8; 21] = [
    0x13, 0, 0x12, 0, 1, 0, 0, 0, 0, 0, 0, 0, 2, 0, 0, 0, 0, 0, 0, 0, 5,
];
/// Entry 1 has value 7, which is not so.
pub const ENTRY_1: [u8; 17] = [0x13, 0, 0x0e, 0, 1, 0, 0, 0, 1, 0, 0, 0, 0, 0, 0, 0, 7];

/// Entries 0 and 1 have values 3 and 5.
pub const ENTRIES_0_1: [u8; 29] = [
    0x13, 0, 0x1a, 0, 2, 0, 0, 0, 0, 0, 0, 0, 0, 0, 0, 0, 3, 0, 0, 0, 1, 0, 0, 0, 0, 0, 0, 0, 5,
];

/// Entries 0, 2 and 3 have values 3, 5 and 1.
pub const ENTRIES_0_2_3: [u8; 41] = [
    0x13, 0, 0x26, 0, 3, 0, 0, 0, 0, 0, 0, 0, 0, 0, 0, 0, 3, 0, 0, 0, 2, 0, 0, 0, 0, 0, 0, 0, 5, 0,
    0, 0, 3, 0, 0, 0, 0, 0, 0, 0, 1,
];

/// Leaf 0 is 3 and leaf 3 is 1.
pub const SIBLINGS_3_1: [u8; 20] = [
    0x14, 0, 0x11, 3, 0, 0, 0, 0, 0, 0, 0, 3, 0, 0, 0, 0, 0, 0, 0, 1,
];

pub const NO_SIBLINGS: [u8; 4] = [0x14, 0, 1, 0];

// Frames and replies with a fault.

/// Entry 2 is 0; entry 3 is 1, which is not asked for; entries 2 and 1 are 5 and 7; entries 1 and 2
/// are 7 and 5.
pub const ENTRY_2_OF_ZERO: [u8; 17] = [0x13, 0, 0x0e, 0, 1, 0, 0, 0, 2, 0, 0, 0, 0, 0, 0, 0, 0];

pub const ENTRY_3: [u8; 17] = [0x13, 0, 0x0e, 0, 1, 0, 0, 0, 3, 0, 0, 0, 0, 0, 0, 0, 1];

pub const ENTRIES_2_1: [u8; 29] = [
    0x13, 0, 0x1a, 0, 2, 0, 0, 0, 2, 0, 0, 0, 0, 0, 0, 0, 5, 0, 0, 0, 1, 0, 0, 0, 0, 0, 0, 0, 7,
];

pub const ENTRIES_1_2: [u8; 29] = [
    0x13, 0, 0x1a, 0, 2, 0, 0, 0, 1, 0, 0, 0, 0, 0, 0, 0, 7, 0, 0, 0, 2, 0, 0, 0, 0, 0, 0, 0, 5,
];
/// The length is that of one entry and the count is two.
pub const ONE_AS_TWO: [u8; 17] = [0x13, 0, 0x0e, 0, 2, 0, 0, 0, 2, 0, 0, 0, 0, 0, 0, 0, 5];
/// The length is that of one sibling and the flags are those of both.
pub const ONE_AS_BOTH: [u8; 12] = [0x14, 0, 9, 3, 0, 0, 0, 0, 0, 0, 0, 3];

/// Sibling 3 alone, on the left, and sibling 1 alone, on the right.
pub const LEFT_SIBLING_3: [u8; 12] = [0x14, 0, 9, 1, 0, 0, 0, 0, 0, 0, 0, 3];

pub const RIGHT_SIBLING_1: [u8; 12] = [0x14, 0, 9, 2, 0, 0, 0, 0, 0, 0, 0, 1];

pub const SIBLINGS_4_1: [u8; 20] = [
    0x14, 0, 0x11, 3, 0, 0, 0, 0, 0, 0, 0, 4, 0, 0, 0, 0, 0, 0, 0, 1,
];
/// Elements are below p = 2^61 - 1.
pub const SIBLINGS_P_1: [u8; 20] = [
    0x14, 0, 0x11, 3, 0x1f, 0xff, 0xff, 0xff, 0xff, 0xff, 0xff, 0xff, 0, 0, 0, 0, 0, 0, 0, 1,
];
/// No memory.
pub const REFUSE_1: [u8; 4] = [0x18, 0, 1, 1];

/// Out of turn.
pub const REFUSE_4: [u8; 4] = [0x18, 0, 1, 4];

pub const REFUSE_5: [u8; 4] = [0x18, 0, 1, 5];

/// Headers, and frames that are cut short. Kind 7 is none.
pub const NO_FRAME: [u8; 3] = [0x07, 0, 0];

/// Queries of 9 and of 17 bytes.
pub const SUB_HEADER: [u8; 3] = [0x04, 0, 9];

pub const WIDE_SUB_HEADER: [u8; 3] = [0x04, 0, 0x11];

pub const CLAIM_HEADER: [u8; 3] = [0x11, 0, 8];

pub const ENTRY_HEADER: [u8; 3] = [0x13, 0, 0x0e];

pub const SHORT_ENTRIES_HEADER: [u8; 3] = [0x13, 0, 0x0d];

pub const PART_OF_HEADER: [u8; 2] = [0x13, 0];

pub const PART_OF_SIBLINGS: [u8; 6] = [0x14, 0, 0x11, 3, 0, 0];

pub const PART_OF_NO_SIBLINGS: [u8; 2] = [0x14, 0];

pub const ZEROS: [u8; 13] = [0; 13];
