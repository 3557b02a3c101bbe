//! Streams of updates of two vectors, the answers to queries about them, and the folds that a
//! verifier checks them by.
//!
//! - [`Update`] is a record of a stream, [`Query`] a question about the vectors, and [`Entry`] a
//!   part of an answer. [`Depth`] says how many items there are.
//! - [`Tally`] is what is told of a stream by a few numbers, its [`Fingerprint`] among them.
//! - [`Vector`] is one side's vector, for whoever keeps it: the helper.
//! - [`Level`] is the list of the nodes of one height over a vector, folded in place by the rule of
//!   the hash tree or by that of the multilinear extension.
//! - [`added_by_tables`] adds many updates to a running number of a vector that is not kept.
//!
//! # What the contracts say
//!
//! `specs/` has the definitions that every layer above cites:
//!
//! | Module | Definitions |
//! |---|---|
//! | `Streams`, `Vectors` | the vector of a side of a stream; what a [`Vector`] shows |
//! | `Fingerprints`, `Tallies` | the fingerprint of a stream; what is told of it by a few numbers |
//! | `Answers` | what each query asks for |
//! | `Built` | which kinds of query are built |
//! | `Thresholds` | from which entry on a query asks for heavy hitters, and how wide it may be |
//! | `Limits` | how large things are at the most |
//! | `Trees`, `Extensions` | the two hash trees over a vector; its multilinear extension |
//! | `Levels` | the level above a list of nodes |
//! | `Splits` | the weights of a side's items; the tree that hashes a vector and counts by them |
//! | `Weights`, `Running` | what an entry counts in a root; a running number after many updates |
//! | `Lines` | what is linear in a vector, and so adds up over streams |
//! | `Sparse` | lists that are kept by the entries at which they are not 0 |
//!
//! A contract sees a [`Vector`] as the list of its `2^depth` numbers with its weight, and a
//! [`Level`] as the list of all its residues, though both keep only what is not 0.
//! [`laws::vectors_add_up`] ties a vector to a stream: the vector to which the updates of a side
//! were added is `side_vector` of the stream. [`laws::streams_add_up`] says what two streams, one
//! behind the other, come to.
//!
//! # Cost
//!
//! In these m is the length of the list of entries, or of nodes, that are not 0, and p the number
//! of additions to a vector that are pending: none after `Vector::settle`, and else at most 2^19 or
//! m, whichever is more. A large addition counts as several (see [`Vector`]).
//!
//! | Call | Time | Memory |
//! |---|---|---|
//! | `Vector::add` | O(log p) over many calls | half of an entry; once in a while as `settle` |
//! | `Vector::settle` | O(m + p log p) | as many entries as m + p |
//! | `Vector::get` | O(log m + p) | none |
//! | `Vector::entries_with_pending` | O(m + p log p) | as many entries as m + p |
//! | `Vector::new`, `Vector::shared_entries` | O(1) | one small block; none |
//! | `Vector::next_entry`, `Vector::count_in` | O(log m), or O(log m + p) for an index | none |
//! | `Vector::is_strict` | O(m); O(log m + p) for each index tried | none |
//! | `Level::of` | O(m), and O(p log p) | a spot for each entry; above p = 0 the list too |
//! | `Level::fold_tree`, `Level::fold_line` | O(m), one `times` for each node above | none |
//! | `Level::at`, `Level::next_nonzero` | O(log m) | none |
//! | `added_by_tables` | one `times` for an update and a table | none |
//!
//! A `settle` that was refused memory leaves what is pending sorted. Then, until the next `add`,
//! the p of `get` and of an index that is tried is O(log p) and as many steps as were added there:
//! a walk over all entries is no longer quadratic.
//!
//! The other calls take O(1) and no memory.
#![tactic(auto)]

mod adding;
mod depth;
mod finding;
mod fingerprint;
pub mod laws;
mod level;
mod merging;
mod pending;
mod query;
mod side;
mod tally;
mod threshold;
mod update;
mod vector;
mod waiting;

pub use adding::added_by_tables;
pub use depth::{CAP, Depth};
pub use fingerprint::Fingerprint;
pub use level::{Level, Spot};
pub use query::Query;
pub use side::take_side;
pub use tally::{Negatives, Tally};
pub use threshold::{is_wide, share_of};
pub use update::{Entry, Side, Update};
pub use vector::Vector;
