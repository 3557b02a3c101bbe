//! Why a record is not legal.

use sip_vector::Side;

/// Why a record of a stream is not legal, in the order of the tests.
#[derive(Clone, Copy, Debug, PartialEq, Eq)]
pub enum Why {
    /// The input ends inside the record.
    Truncated,
    /// The line is too long, or has not the shape of a record's line.
    BadLine,
    /// The side is none.
    BadSide,
    /// The item is not below 2^d.
    BadItem,
    /// The delta is 0.
    ZeroDelta,
    /// The side's weight with this record is above 2^30 - 1.
    TooHeavy(Side),
}
