//! What the leaves of a tree have.

/// What a leaf of the tree has, beside its place.
#[derive(Clone, Copy, Debug, PartialEq, Eq)]
pub enum LeafForm {
    /// A count, which is the entry that the leaf stands for.
    Count,
    /// An entry, which may be below 0, and a weight of at least its size.
    Mark,
}
