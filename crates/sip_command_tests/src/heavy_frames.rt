//! The bytes of the worked runs about heavy hitters, written out by hand. Counts have 8 bytes.

/// The entries of side 0 that are at least 9.
pub const HEAVY_9: [u8; 13] = [0x04, 0, 10, 5, 0, 0, 0, 0, 0, 0, 0, 0, 9];

/// Node 0 above the leaves is 3. Its hash is 3 + 3 z at the challenge z, which is
/// 1299216148431902478.
pub const NODE_0_AT_ZERO_SEED: [u8; 25] = [
    0x16, 0, 0x16, 0, 1, 0, 0, 0, 0, 0x16, 0x17, 0x3a, 0x9c, 0x41, 0x34, 0x45, 0x2e, 0, 0, 0, 0, 0,
    0, 0, 3,
];

/// In version 2: the entries of side 0 that are all of its total, which is 9. No pair of leaves is,
/// and both nodes above them are shown, with the hashes 3 + 3 z and 5 + 5 z + z^2 + z^3 and the
/// counts 3 and 6.
pub const ALL: [u8; 13] = [0x04, 0, 10, 6, 0, 0, 0, 0, 1, 0, 0, 0, 1];

pub const WIDE_NODES_AT_ZERO_SEED: [u8; 53] = [
    0x16, 0, 0x32, 0, 2, // two nodes
    0, 0, 0, 0, 0, 0, 0, 0, 0x16, 0x17, 0x3a, 0x9c, 0x41, 0x34, 0x45, 0x2e, 0, 0, 0, 0, 0, 0, 0, 3,
    0, 0, 0, 0, 0, 0, 0, 1, 0x0f, 0x25, 0x91, 0xe1, 0x63, 0x02, 0x2e, 0x44, 0, 0, 0, 0, 0, 0, 0, 6,
];

/// Version 2 at depth 1, and an update of item 0 by 65,537, in both versions.
pub const OPEN_1_WIDE: [u8; 5] = [0x01, 0, 2, 2, 1];

pub const UPDATE_OF_65537: [u8; 18] = [0x02, 0, 0x0f, 0, 1, 0, 0, 0, 0, 0, 0, 0, 0, 0, 0, 1, 0, 1];

pub const WIDE_UPDATE_OF_65537: [u8; 22] = [
    0x02, 0, 0x13, 0, 1, 0, 0, 0, 0, 0, 0, 0, 0, 0, 0, 0, 0, 0, 0, 1, 0, 1,
];

// Frames with a fault, or of a reply with one.

/// Leaf 2 is 5 and its sibling is not shown.
pub const LEAF_2: [u8; 17] = [0x15, 0, 0x0e, 0, 1, 0, 0, 0, 2, 0, 0, 0, 0, 0, 0, 0, 5];

/// The count of leaf 2 is p.
pub const LEAF_2_OF_P: [u8; 17] = [
    0x15, 0, 0x0e, 0, 1, 0, 0, 0, 2, 0x1f, 0xff, 0xff, 0xff, 0xff, 0xff, 0xff, 0xff,
];

/// Leaves 0 and 1 are 3 and 0, together less than 4; leaves 2 and 3 are 9 and 1, together more than
/// 9; and in falling order.
pub const LEAVES_0_1: [u8; 29] = [
    0x15, 0, 0x1a, 0, 2, 0, 0, 0, 0, 0, 0, 0, 0, 0, 0, 0, 3, 0, 0, 0, 1, 0, 0, 0, 0, 0, 0, 0, 0,
];

pub const LEAVES_2_3_OF_10: [u8; 29] = [
    0x15, 0, 0x1a, 0, 2, 0, 0, 0, 2, 0, 0, 0, 0, 0, 0, 0, 9, 0, 0, 0, 3, 0, 0, 0, 0, 0, 0, 0, 1,
];

pub const LEAVES_3_2: [u8; 29] = [
    0x15, 0, 0x1a, 0, 2, 0, 0, 0, 3, 0, 0, 0, 0, 0, 0, 0, 1, 0, 0, 0, 2, 0, 0, 0, 0, 0, 0, 0, 5,
];

/// Leaves 0, 1 and 2 are 3, 0 and 5.
pub const LEAVES_0_1_2: [u8; 41] = [
    0x15, 0, 0x26, 0, 3, 0, 0, 0, 0, 0, 0, 0, 0, 0, 0, 0, 3, 0, 0, 0, 1, 0, 0, 0, 0, 0, 0, 0, 0, 0,
    0, 0, 2, 0, 0, 0, 0, 0, 0, 0, 5,
];

/// Node 0 with hash 9 and count 4, or 2; node 1 with hash 27 and count 3; node 2 with hash 0 and
/// count 3.
pub const NODE_0_OF_4: [u8; 25] = [
    0x16, 0, 0x16, 0, 1, 0, 0, 0, 0, 0, 0, 0, 0, 0, 0, 0, 9, 0, 0, 0, 0, 0, 0, 0, 4,
];

pub const NODE_0_OF_2: [u8; 25] = [
    0x16, 0, 0x16, 0, 1, 0, 0, 0, 0, 0, 0, 0, 0, 0, 0, 0, 9, 0, 0, 0, 0, 0, 0, 0, 2,
];

pub const NODE_1: [u8; 25] = [
    0x16, 0, 0x16, 0, 1, 0, 0, 0, 1, 0, 0, 0, 0, 0, 0, 0, 27, 0, 0, 0, 0, 0, 0, 0, 3,
];

pub const NODE_2: [u8; 25] = [
    0x16, 0, 0x16, 0, 1, 0, 0, 0, 2, 0, 0, 0, 0, 0, 0, 0, 0, 0, 0, 0, 0, 0, 0, 0, 3,
];

/// Nodes 0 and 1 with hashes 9 and 0, and counts 3 and 3.
pub const NODES_0_1: [u8; 45] = [
    0x16, 0, 0x2a, 0, 2, 0, 0, 0, 0, 0, 0, 0, 0, 0, 0, 0, 9, 0, 0, 0, 0, 0, 0, 0, 3, 0, 0, 0, 1, 0,
    0, 0, 0, 0, 0, 0, 0, 0, 0, 0, 0, 0, 0, 0, 3,
];

pub const NODES_HEADER: [u8; 3] = [0x16, 0, 2];

pub const SHORT_LEAVES_HEADER: [u8; 3] = [0x15, 0, 2];
