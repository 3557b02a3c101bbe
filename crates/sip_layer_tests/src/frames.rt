//! Frames and bytes that are none, as tables.

use sip_wire::{Place, WireFault};

/// The least number that is no element, 2^61 - 1.
const P: u64 = 0x1fff_ffff_ffff_ffff;

/// Frames of version 1, each at a place that allows it: a whole talk over the vector (3, 0, 5, 1),
/// replies to other queries over it, each query, and each way in which siblings are present.
pub(crate) const FRAMES: [(Place, &[u8]); 25] = [
    (Place::ToHelper, b"\x01\0\x02\x01\x02"),
    (
        Place::ToHelper,
        b"\x02\0\x29\0\x03\0\0\0\0\0\0\0\0\0\0\0\0\x03\0\0\0\0\x02\0\0\0\0\0\0\0\x05\0\0\0\0\x03\0\
          \0\0\0\0\0\0\x01",
    ),
    (Place::ToHelper, b"\x03\0\0"),
    (Place::ToHelper, b"\x04\0\x09\x01\0\0\0\x01\0\0\0\x02"),
    (Place::ToHelper, b"\x04\0\x0a\x02\x01\0\0\0\x01\0\0\0\x03"),
    (Place::ToHelper, b"\x04\0\x02\x03\0"),
    (Place::ToHelper, b"\x04\0\x01\x04"),
    (
        Place::ToHelper,
        b"\x04\0\x0a\x05\x01\x7f\xff\xff\xff\xff\xff\xff\xff",
    ),
    (Place::ToHelper, b"\x05\0\x08\0\0\0\0\0\0\0\x02"),
    (
        Place::ToHelper,
        b"\x05\0\x08\x1f\xff\xff\xff\xff\xff\xff\xfe",
    ),
    (Place::ToHelper, b"\x06\0\0"),
    (
        Place::Entries,
        b"\x13\0\x0e\0\x01\0\0\0\x02\0\0\0\0\0\0\0\x05",
    ),
    (
        Place::Entries,
        b"\x14\0\x11\x03\0\0\0\0\0\0\0\x03\0\0\0\0\0\0\0\x01",
    ),
    (Place::Siblings, b"\x14\0\x01\0"),
    (Place::Siblings, b"\x14\0\x09\x01\0\0\0\0\0\0\0\x07"),
    (Place::Siblings, b"\x14\0\x09\x02\0\0\0\0\0\0\0\x07"),
    (Place::Claim, b"\x11\0\x08\0\0\0\0\0\0\0\x23"),
    (Place::Claim, b"\x11\0\x08\x0f\xff\xff\xff\xff\xff\xff\xff"),
    (Place::ToVerifier, b"\x11\0\x08\xf0\0\0\0\0\0\0\x01"),
    (
        Place::Poly,
        b"\x12\0\x18\0\0\0\0\0\0\0\x22\x1f\xff\xff\xff\xff\xff\xff\xc5\0\0\0\0\0\0\0\x19",
    ),
    (
        Place::Leaves,
        b"\x15\0\x1a\0\x02\0\0\0\x02\0\0\0\0\0\0\0\x05\0\0\0\x03\0\0\0\0\0\0\0\x01",
    ),
    (Place::Leaves, b"\x17\0\0"),
    (
        Place::Nodes,
        b"\x16\0\x16\0\x01\0\0\0\0\0\0\0\0\0\0\0\x09\0\0\0\0\0\0\0\x03",
    ),
    (Place::Nodes, b"\x17\0\0"),
    (Place::Claim, b"\x18\0\x01\x04"),
];

/// The same frames in version 2, where they differ, the share too: the vector (3, 0, 5, 1), its
/// replies, each query.
pub(crate) const WIDE_FRAMES: [(Place, &[u8]); 11] = [
    (Place::ToHelper, b"\x01\0\x02\x02\x30"),
    (
        Place::ToHelper,
        b"\x02\0\x35\0\x03\0\0\0\0\0\0\0\0\0\0\0\0\0\0\0\0\x03\0\0\0\0\0\0\0\0\x02\0\0\0\0\0\0\0\
          \x05\x01\0\0\x80\0\0\0\0\0\0\0\0\0\0\0\0\x01",
    ),
    (
        Place::ToHelper,
        b"\x04\0\x11\x01\0\0\0\0\0\0\0\x01\0\0\0\0\0\0\0\x02",
    ),
    (
        Place::ToHelper,
        b"\x04\0\x12\x02\x01\0\0\0\0\0\0\0\x01\0\0\x80\0\0\0\0\0",
    ),
    (Place::ToHelper, b"\x04\0\x02\x03\0"),
    (Place::ToHelper, b"\x04\0\x0a\x05\x01\0\0\0\0\0\0\0\x04"),
    (
        Place::ToHelper,
        b"\x04\0\x0a\x06\x01\0\0\0\x01\0\x0f\x42\x40",
    ),
    (
        Place::Entries,
        b"\x13\0\x12\0\x01\0\0\0\0\0\0\0\x02\0\0\0\0\0\0\0\x05",
    ),
    (
        Place::Leaves,
        b"\x15\0\x12\0\x01\0\0\x80\0\0\0\0\0\0\0\0\0\0\0\0\x05",
    ),
    (
        Place::Nodes,
        b"\x16\0\x1a\0\x01\0\0\0\0\0\0\0\x01\0\0\0\0\0\0\0\x09\0\0\0\0\0\0\0\x03",
    ),
    (Place::ToHelper, b"\x06\0\0"),
];

/// Bytes that are no frame of version 1, where they are awaited, their fault, and how many of them
/// are taken.
pub(crate) const FAULTS: [(Place, &[u8], WireFault, usize); 48] = [
    // The three bytes before a body come whole before the kind is tested.
    (Place::ToHelper, b"", WireFault::Closed, 0),
    (Place::ToHelper, b"\x07\0", WireFault::Closed, 2),
    (Place::ToHelper, b"\x07\0\0", WireFault::BadKind, 3),
    (Place::ToHelper, b"\0\0\0", WireFault::BadKind, 3),
    (Place::ToHelper, b"\x11\0\x08", WireFault::BadKind, 3),
    (Place::ToVerifier, b"\x01\0\x02", WireFault::BadKind, 3),
    (Place::ToVerifier, b"\x19\0\0", WireFault::BadKind, 3),
    (Place::Entries, b"\x11\0\x08", WireFault::BadKind, 3),
    (Place::Siblings, b"\x13\0\x0e", WireFault::BadKind, 3),
    (Place::Claim, b"\x12\0\x18", WireFault::BadKind, 3),
    (Place::Poly, b"\x11\0\x08", WireFault::BadKind, 3),
    (Place::Leaves, b"\x16\0\x16", WireFault::BadKind, 3),
    (Place::Nodes, b"\x15\0\x0e", WireFault::BadKind, 3),
    // No body is longer than its kind may have it, nor shorter, nor between two counts.
    (Place::ToHelper, b"\x01\0\x03", WireFault::BadLength, 3),
    (Place::ToHelper, b"\x02\0\x02", WireFault::BadLength, 3),
    (Place::ToHelper, b"\x02\0\x28", WireFault::BadLength, 3),
    (Place::ToHelper, b"\x02\x1a\x0f", WireFault::BadLength, 3),
    (Place::ToHelper, b"\x03\0\x01", WireFault::BadLength, 3),
    (Place::ToHelper, b"\x04\0\x03", WireFault::BadLength, 3),
    (Place::ToHelper, b"\x05\0\x07", WireFault::BadLength, 3),
    (Place::ToHelper, b"\x06\x01\0", WireFault::BadLength, 3),
    (Place::ToVerifier, b"\x11\0\x09", WireFault::BadLength, 3),
    (Place::ToVerifier, b"\x12\0\x08", WireFault::BadLength, 3),
    (Place::ToVerifier, b"\x13\0\x02", WireFault::BadLength, 3),
    (Place::ToVerifier, b"\x13\x18\x0e", WireFault::BadLength, 3),
    (Place::ToVerifier, b"\x14\0\0", WireFault::BadLength, 3),
    (Place::ToVerifier, b"\x15\0\x0f", WireFault::BadLength, 3),
    (Place::ToVerifier, b"\x16\0\x0e", WireFault::BadLength, 3),
    (Place::ToVerifier, b"\x16\x14\x16", WireFault::BadLength, 3),
    (Place::ToVerifier, b"\x17\0\x02", WireFault::BadLength, 3),
    (Place::ToVerifier, b"\x18\0\0", WireFault::BadLength, 3),
    // The lengths of version 2 are none.
    (Place::ToHelper, b"\x02\0\x13", WireFault::BadLength, 3),
    (Place::ToHelper, b"\x04\0\x11", WireFault::BadLength, 3),
    (Place::Entries, b"\x13\0\x12", WireFault::BadLength, 3),
    (Place::Leaves, b"\x15\0\x12", WireFault::BadLength, 3),
    (Place::Nodes, b"\x16\0\x1a", WireFault::BadLength, 3),
    // The end inside a body.
    (Place::ToHelper, b"\x01\0\x02\x09", WireFault::Closed, 4),
    (Place::Claim, b"\x11\0\x08", WireFault::Closed, 3),
    // A count, a code or flags that do not fit the length.
    (
        Place::ToHelper,
        b"\x02\0\x0f\0\x02\0\0\0\0\0\0\0\0\0\0\0\0\0",
        WireFault::BadCount,
        18,
    ),
    (Place::ToHelper, b"\x04\0\x01\0", WireFault::BadCount, 4),
    (Place::ToHelper, b"\x04\0\x02\x04\0", WireFault::BadCount, 5),
    (
        Place::ToHelper,
        b"\x04\0\x0a\x06\0\0\0\0\0\0\0\0\x01",
        WireFault::BadCount,
        13,
    ),
    (
        Place::Entries,
        b"\x13\0\x0e\0\0\0\0\0\x02\0\0\0\0\0\0\0\x05",
        WireFault::BadCount,
        17,
    ),
    (Place::Siblings, b"\x14\0\x01\x01", WireFault::BadCount, 4),
    (
        Place::Siblings,
        b"\x14\0\x09\x03\0\0\0\0\0\0\0\x01",
        WireFault::BadCount,
        12,
    ),
    (
        Place::Leaves,
        b"\x15\0\x0e\x01\x01\0\0\0\x02\0\0\0\0\0\0\0\x05",
        WireFault::BadCount,
        17,
    ),
    (
        Place::Nodes,
        b"\x16\0\x16\0\x02\0\0\0\0\0\0\0\0\0\0\0\x09\0\0\0\0\0\0\0\x03",
        WireFault::BadCount,
        25,
    ),
    // A refusal that there is not.
    (Place::Poly, b"\x18\0\x01\x05", WireFault::BadNumber, 4),
];

/// The same for version 2.
pub(crate) const WIDE_FAULTS: [(Place, &[u8], WireFault, usize); 13] = [
    // The lengths of version 1 are none.
    (Place::ToHelper, b"\x02\0\x0f", WireFault::BadLength, 3),
    (Place::ToHelper, b"\x02\x22\x13", WireFault::BadLength, 3),
    (Place::ToHelper, b"\x02\x22\x02", WireFault::Closed, 3),
    (Place::ToHelper, b"\x04\0\x09", WireFault::BadLength, 3),
    (Place::Entries, b"\x13\0\x0e", WireFault::BadLength, 3),
    (Place::Leaves, b"\x15\0\x0e", WireFault::BadLength, 3),
    (Place::Nodes, b"\x16\0\x16", WireFault::BadLength, 3),
    // A count or a code that does not fit the length.
    (
        Place::ToHelper,
        b"\x02\0\x13\0\x02\0\0\0\0\0\0\0\0\0\0\0\0\0\0\0\0\x01",
        WireFault::BadCount,
        22,
    ),
    (
        Place::ToHelper,
        b"\x04\0\x0a\x01\0\0\0\0\0\0\0\0\x01",
        WireFault::BadCount,
        13,
    ),
    (
        Place::ToHelper,
        b"\x04\0\x0a\x08\0\0\0\0\x01\0\0\0\x01",
        WireFault::BadCount,
        13,
    ),
    (
        Place::Entries,
        b"\x13\0\x12\0\0\0\0\0\0\0\0\0\x02\0\0\0\0\0\0\0\x05",
        WireFault::BadCount,
        21,
    ),
    (
        Place::Leaves,
        b"\x15\0\x12\x01\x01\0\0\0\0\0\0\0\x02\0\0\0\0\0\0\0\x05",
        WireFault::BadCount,
        21,
    ),
    (
        Place::Nodes,
        b"\x16\0\x1a\0\x02\0\0\0\0\0\0\0\x01\0\0\0\0\0\0\0\x09\0\0\0\0\0\0\0\x03",
        WireFault::BadCount,
        29,
    ),
];

/// Openings of a version or a depth that there are not, in both versions.
pub(crate) const OPENING_FAULTS: [(Place, &[u8], WireFault, usize); 5] = [
    (
        Place::ToHelper,
        b"\x01\0\x02\x03\x01",
        WireFault::BadNumber,
        5,
    ),
    (
        Place::ToHelper,
        b"\x01\0\x02\x02\x31",
        WireFault::BadNumber,
        5,
    ),
    (
        Place::ToHelper,
        b"\x01\0\x02\x02\0",
        WireFault::BadNumber,
        5,
    ),
    (
        Place::ToHelper,
        b"\x01\0\x02\x01\0",
        WireFault::BadNumber,
        5,
    ),
    (
        Place::ToHelper,
        b"\x01\0\x02\x01\x21",
        WireFault::BadNumber,
        5,
    ),
];

/// Frames of version 1 with a number of eight bytes that its field may not hold: where they are
/// awaited, what stands before the number, the number, and how many bytes that are 0 follow.
pub(crate) const NUMBERS: [(Place, &[u8], u64, usize); 18] = [
    (Place::ToHelper, b"\x02\0\x0f\0\x01\x02\0\0\0\0", 1, 0),
    (Place::ToHelper, b"\x02\0\x0f\0\x01\0\0\0\0\0", 0, 0),
    (Place::ToHelper, b"\x04\0\x09\x01", 0x2_0000_0001, 0),
    (Place::ToHelper, b"\x04\0\x0a\x02\0", 0x2_0000_0001, 0),
    (Place::ToHelper, b"\x04\0\x0a\x02\x02", 0x1_0000_0002, 0),
    (Place::ToHelper, b"\x04\0\x0a\x05\x02", 1, 0),
    (Place::ToHelper, b"\x04\0\x0a\x05\0", 0, 0),
    (Place::ToHelper, b"\x04\0\x0a\x05\0", 1 << 63, 0),
    (Place::ToHelper, b"\x05\0\x08", P, 0),
    (Place::Claim, b"\x11\0\x08", 1 << 60, 0),
    (Place::Claim, b"\x11\0\x08", 0xf << 60, 0),
    (Place::Poly, b"\x12\0\x18", P, 16),
    (Place::Entries, b"\x13\0\x0e\0\x01\0\0\0\x02", 0, 0),
    (Place::Entries, b"\x13\0\x0e\0\x01\0\0\0\x02", 1 << 63, 0),
    (Place::Siblings, b"\x14\0\x11\x03", P, 8),
    (Place::Leaves, b"\x15\0\x0e\0\x01\0\0\0\x02", P, 0),
    (Place::Nodes, b"\x16\0\x16\0\x01\0\0\0\0", P, 8),
    (
        Place::Nodes,
        b"\x16\0\x16\0\x01\0\0\0\0\0\0\0\0\0\0\0\x09",
        P,
        0,
    ),
];

/// The same for version 2.
pub(crate) const WIDE_NUMBERS: [(Place, &[u8], u64, usize); 14] = [
    (
        Place::ToHelper,
        b"\x02\0\x13\0\x01\x02\0\0\0\0\0\0\0\0",
        1,
        0,
    ),
    (Place::ToHelper, b"\x02\0\x13\0\x01\0\0\0\0\0\0\0\0\0", 0, 0),
    (
        Place::ToHelper,
        b"\x04\0\x11\x01\0\0\x80\0\0\0\0\x01",
        1 << 47,
        0,
    ),
    (Place::ToHelper, b"\x04\0\x12\x02\0\0\0\0\0\0\0\0\x02", 1, 0),
    (
        Place::ToHelper,
        b"\x04\0\x12\x02\x02\0\0\0\0\0\0\0\x01",
        2,
        0,
    ),
    (Place::ToHelper, b"\x04\0\x0a\x06\x02", 0x1_0000_0001, 0),
    (Place::ToHelper, b"\x04\0\x0a\x06\0", 0x0_0000_0001, 0),
    (Place::ToHelper, b"\x04\0\x0a\x06\0", 0x2_0000_0001, 0),
    (Place::ToHelper, b"\x04\0\x0a\x06\0", 0x1_000f_4241, 0),
    (Place::Entries, b"\x13\0\x12\0\x01\0\0\0\0\0\0\0\x02", 0, 0),
    (
        Place::Entries,
        b"\x13\0\x12\0\x01\0\0\0\0\0\0\0\x02",
        1 << 63,
        0,
    ),
    (Place::Leaves, b"\x15\0\x12\0\x01\0\0\0\0\0\0\0\x02", P, 0),
    (Place::Nodes, b"\x16\0\x1a\0\x01\0\0\0\0\0\0\0\0", P, 8),
    (
        Place::Nodes,
        b"\x16\0\x1a\0\x01\0\0\0\0\0\0\0\0\0\0\0\0\0\0\0\x09",
        P,
        0,
    ),
];

/// Frames of the talks about lookups and moments, which are the same in both versions: what is
/// asked, whatever it is, what is found, and powers of degree 3 and 8.
pub(crate) const ASKED_FRAMES: [(Place, &[u8]); 12] = [
    (Place::AskedLook, b"\x21\0\x09\x03\0\0\0\0\0\0\0\x01"),
    (
        Place::AskedLook,
        b"\x21\0\x09\0\xff\xff\xff\xff\xff\xff\xff\xff",
    ),
    (Place::AskedLook, b"\x23\0\0"),
    (Place::Found, b"\x22\0\x09\x01\0\0\0\0\0\0\0\x02"),
    (Place::Found, b"\x22\0\x09\0\0\0\0\0\0\0\0\0"),
    (Place::Found, b"\x18\0\x01\x01"),
    (Place::AskedMoment, b"\x24\0\x02\0\x03"),
    (Place::AskedMoment, b"\x24\0\x02\xff\0"),
    (Place::AskedMoment, b"\x23\0\0"),
    (
        Place::Power { degree: 3 },
        b"\x25\0\x20\0\0\0\0\0\0\0\x98\x1f\xff\xff\xff\xff\xff\xfe\x82\0\0\0\0\0\0\x01\x41\x1f\xff\
          \xff\xff\xff\xff\xff\xa4",
    ),
    (
        Place::Power { degree: 8 },
        b"\x25\0\x48\0\0\0\0\0\0\0\x01\0\0\0\0\0\0\0\x02\0\0\0\0\0\0\0\x03\0\0\0\0\0\0\0\x04\0\0\0\
          \0\0\0\0\x05\0\0\0\0\0\0\0\x06\0\0\0\0\0\0\0\x07\0\0\0\0\0\0\0\x08\0\0\0\0\0\0\0\x09",
    ),
    (Place::Power { degree: 3 }, b"\x18\0\x01\x04"),
];

/// Bytes that are no frame in these talks, and their fault, in both versions.
pub(crate) const ASKED_FAULTS: [(Place, &[u8], WireFault, usize); 12] = [
    (Place::Found, b"\x22\0", WireFault::Closed, 2),
    (Place::Found, b"\x21\0\x09", WireFault::BadKind, 3),
    (Place::Found, b"\x22\0\x08", WireFault::BadLength, 3),
    (Place::Found, b"\x22\0\x09\x01\0", WireFault::Closed, 5),
    (
        Place::Power { degree: 3 },
        b"\x12\0\x18",
        WireFault::BadKind,
        3,
    ),
    (
        Place::Power { degree: 3 },
        b"\x25\0\x28",
        WireFault::BadLength,
        3,
    ),
    (
        Place::Power { degree: 4 },
        b"\x25\0\x20",
        WireFault::BadLength,
        3,
    ),
    (
        Place::Power { degree: 9 },
        b"\x25\0\x50",
        WireFault::BadLength,
        3,
    ),
    (Place::AskedLook, b"\x24\0\x02", WireFault::BadKind, 3),
    (Place::AskedMoment, b"\x18\0\x01", WireFault::BadKind, 3),
    (Place::ToHelper, b"\x23\0\0", WireFault::BadKind, 3),
    (Place::ToVerifier, b"\x25\0\x20", WireFault::BadKind, 3),
];

/// Frames of these talks with a number that its field may not hold, in both versions: a flag above
/// 1, a place where none was found, and coefficients that are no elements.
pub(crate) const ASKED_NUMBERS: [(Place, &[u8], u64, usize); 4] = [
    (Place::Found, b"\x22\0\x09\x02", 0, 0),
    (Place::Found, b"\x22\0\x09\0", 1, 0),
    (Place::Power { degree: 3 }, b"\x25\0\x20", P, 24),
    (
        Place::Power { degree: 3 },
        b"\x25\0\x20\0\0\0\0\0\0\0\0\0\0\0\0\0\0\0\0\0\0\0\0\0\0\0\0",
        P,
        0,
    ),
];
