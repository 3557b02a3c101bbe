//! Roots of hash trees over a vector, kept up to date in one number or two while the vector's
//! updates stream by.
//!
//! The trees are those of Cormode, Thaler and Yi, "Verifying Computations with Streaming
//! Interactive Proofs", PVLDB 5(1), section 4; the augmented one, whose nodes also count, is this
//! project's own form of their tree for heavy hitters.
//!
//! - [`Root`] is the root of the tree in which a node is `left + r * right`. [`Root::weight_above`]
//!   is the factor that a node has in it.
//! - [`AugRoot`] is the root of the augmented tree: a hash, and the sum of the vector.
//! - [`SplitRoot`] is the root of the split tree: a hash, and the sum of the weights, which is that
//!   of the absolute values of all that was added. Where nothing was taken away it is the augmented
//!   root.
//! - [`up`] folds a level of nodes to the one above.
//!
//! # What the contracts say
//!
//! A root is one number for very many vectors. So a contract says which vectors it stands for, as a
//! relation: those whose root it is (`specs/StandsFor.antt`, over the trees of `sip_vector`). A new
//! root stands for zeros, and an update goes from every vector that the root stood for to the same
//! with that entry raised. A caller that keeps the fact `RootStandsFor F.MODULUS root.seat
//! root.value numbers` of its own vector has it again after each update, whatever the order of the
//! updates. The clauses `value` and `hash` say besides which number comes out, for all numbers.
//!
//! A root is linear in its numbers: [`Root::absorb`], [`AugRoot::absorb`] and [`SplitRoot::absorb`]
//! go from two roots for the same challenges to that of the entrywise sum, which is the vector of
//! both streams.
//!
//! [`laws`] has the facts of the definitions alone: what a raised entry does to a root, that roots
//! add up, that the root is the sum of a level's nodes each times its weight, that a fold keeps
//! such a sum, and what an update does to the vector of a stream.
//!
//! # Cost
//!
//! A root is its seat and 8 or 16 bytes, and `up` works in the list that its caller made. Memory is
//! taken by [`Root::keep_tables`] alone, 2 KiB for eight levels, and by that of [`AugRoot`], 4.
//! `update_all` without them has its tables on the stack for one call, 12 KiB, and for `AugRoot`
//! and `SplitRoot` 24. The unit of time is one `Field::times`. The bits are those of the index, d
//! is the depth, and a list has n nodes.
//!
//! | Call | `times` | Beside it |
//! |---|---|---|
//! | `new` of each, and what shows its numbers | 0 | |
//! | `Root::update` | one for each bit that is 1 | d steps, one `of_signed` and one `plus` |
//! | `keep_tables` of a root | 255 · d / 8 | |
//! | `keep_tables` of an augmented root | 518 · d / 8 | as many `plus` |
//! | `Root::update_all` of n with tables | n · d / 8 | a few additions for each |
//! | `AugRoot::update_all` of n with tables | n · d / 8 | a few additions for each |
//! | `Root::update_all` of n without, 32 and more | (n + 255) · d / 8 | a few additions for each |
//! | `absorb` of each | 0 | one `plus` |
//! | `Root::weight_above` | one for each bit that is 1 | d - level steps |
//! | `update` of the two others | two for each bit that is 1, and one | d steps, each a `plus` |
//! | `update_all` of them without tables, of n, 32 and more | (n + 518) · d / 8 | likewise |
//! | `up` | n / 2 | n / 2 `plus` |
#![tactic(auto)]

mod augmented;
mod fold;
mod hashing;
pub mod laws;
mod root;
mod split;
mod steps;
mod weight;

pub use augmented::AugRoot;
pub use fold::up;
pub use root::Root;
pub use split::SplitRoot;
