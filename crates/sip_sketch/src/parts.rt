//! Which parts of a stream a sketch has in.

/// Which parts of a stream are in a sketch. Several collectors have a part each, and what they keep
/// adds up in the order of the parts.
#[derive(Clone, Copy, Debug, PartialEq, Eq)]
pub struct Parts {
    /// How many there are: at least 1.
    pub count: u32,
    /// The first that is in, numbered from 1.
    pub first: u32,
    /// The last that is in: at least the first, and at most `count`.
    pub last: u32,
}
