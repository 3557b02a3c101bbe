//! What a stream is made of, and what a vector is made of.

/// Which of the two streams that run side by side.
#[derive(Clone, Copy, Debug, PartialEq, Eq, Default)]
pub enum Side {
    /// Side 0.
    #[default]
    First,
    /// Side 1.
    Second,
}

/// Adds `delta` to the entry `item` of one side's vector.
#[derive(Clone, Copy, Debug, PartialEq, Eq, Default)]
pub struct Update {
    /// The stream that it is of.
    pub side: Side,
    /// The number of the entry, from 0. In a legal stream over 2^d items it is below 2^d.
    pub item: u64,
    /// What is added. In a legal stream it is not 0, and the absolute values of all that a side
    /// adds come to 2^30 - 1 at most.
    pub delta: i64,
}

/// An entry of a vector.
#[derive(Clone, Copy, Debug, PartialEq, Eq, Default)]
pub struct Entry {
    /// Its number, from 0, below the vector's length.
    pub index: u64,
    /// The sum of what was added to it.
    pub value: i64,
}
