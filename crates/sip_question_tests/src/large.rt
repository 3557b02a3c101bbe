//! Large entries of the values (0, 5, -9, 3), which were added with the weights (0, 5, 9, 5), at
//! the challenges 2 and 10: what is said of them and replied, and their lines.

use crate::asking::Numbers;
use crate::kinds::{Kind, numbers_of_four};
use sip_above::Large;
use sip_check_tests::frames::REVEAL;
use sip_field::{Field, M61};
use sip_questions::Question;
use sip_vector::Side;

/// The four records, as a store in text.
pub const STORE: &[u8] = b"0 1 5\n0 2 -9\n0 3 4\n0 3 -1\n";

/// What is kept of them: the hash of their split root is 20210, and they weigh 19 together.
pub fn numbers_of_large() -> Numbers {
    Numbers {
        hash: M61::of(20_210),
        total: 19,
        ..numbers_of_four()
    }
}

/// The entries of at least 3: the marks of all items, and no node beside them.
pub const ASK_3: [u8; 13] = [4, 0, 0xa, 7, 0, 0, 0, 0, 0, 0, 0, 0, 3];

/// The marks.
pub const ALL_MARKS: [u8; 104] = [
    0x28, 0, 0x62, 0, 4, 0, 0, 0, 0, 0, 0, 0, 0, 0, 0, 0, 0, 0, 0, 0, 0, 0, 0, 0, 0, 0, 0, 0, 0, 0,
    0, 0, 0, 0, 0, 0, 1, 0, 0, 0, 0, 0, 0, 0, 5, 0, 0, 0, 0, 0, 0, 0, 5, 0, 0, 0, 0, 0, 0, 0, 2,
    0xff, 0xff, 0xff, 0xff, 0xff, 0xff, 0xff, 0xf7, 0, 0, 0, 0, 0, 0, 0, 9, 0, 0, 0, 0, 0, 0, 0, 3,
    0, 0, 0, 0, 0, 0, 0, 3, 0, 0, 0, 0, 0, 0, 0, 5, 0x17, 0, 0,
];

/// The end of a level without nodes.
pub const NO_NODES: [u8; 3] = [0x17, 0, 0];

/// The entries of at least 6: the marks of items 2 and 3, and then the node of items 0 and 1.
pub const ASK_6: [u8; 13] = [4, 0, 0xa, 7, 0, 0, 0, 0, 0, 0, 0, 0, 6];

/// The marks of items 2 and 3.
pub const MARKS: [u8; 56] = [
    0x28, 0, 0x32, 0, 2, 0, 0, 0, 0, 0, 0, 0, 2, 0xff, 0xff, 0xff, 0xff, 0xff, 0xff, 0xff, 0xf7, 0,
    0, 0, 0, 0, 0, 0, 9, 0, 0, 0, 0, 0, 0, 0, 3, 0, 0, 0, 0, 0, 0, 0, 3, 0, 0, 0, 0, 0, 0, 0, 5,
    0x17, 0, 0,
];

/// The node of items 0 and 1.
pub const NODE: [u8; 32] = [
    0x16, 0, 0x1a, 0, 1, 0, 0, 0, 0, 0, 0, 0, 0, 0, 0, 0, 0, 0, 0, 0, 0x3c, 0, 0, 0, 0, 0, 0, 0, 5,
    0x17, 0, 0,
];

/// The entries of at least 3.
pub const LARGE_3: Question = Question::Large(Large {
    side: Side::First,
    at_least: 3,
});

/// Those of at least 6: the largest weight is that of an entry below 0.
pub const LARGE_6: Question = Question::Large(Large {
    side: Side::First,
    at_least: 6,
});

/// Those that are larger than all together.
pub const LARGE_20: Question = Question::Large(Large {
    side: Side::First,
    at_least: 20,
});

/// What is said of the entries of at least 3.
pub const ABOVE_3: Kind = Kind {
    question: LARGE_3,
    said: &[&ASK_3, &REVEAL],
    line: b"above:0:3 1:5 3:3\n",
};

/// What is said of those of at least 6.
pub const ABOVE_6: Kind = Kind {
    question: LARGE_6,
    said: &[&ASK_6, &REVEAL],
    line: b"above:0:6 none\n",
};

/// Nothing is said of those that are larger than all together.
pub const ABOVE_20: Kind = Kind {
    question: LARGE_20,
    said: &[],
    line: b"above:0:20 none\n",
};
