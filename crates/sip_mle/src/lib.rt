//! The multilinear extension of a vector at a secret point, kept up to date as one number while the
//! vector's updates stream by (Cormode, Thaler, Yi, PVLDB 5(1), section 2).
//!
//! - [`chi`] is the factor of an entry in the extension.
//! - [`Point`] is the extension of a vector that is never kept.
//! - [`interval_at`] is the extension of the list that is 1 from `lo` to `hi` and 0 elsewhere.
//! - [`IntervalFold`] is that list itself, folded by one challenge after another.
//!
//! A point is a seat and one number, and an interval is two values and two indexes, however long
//! its list is. Memory is taken by [`Point::keep_tables`] alone, 2 KiB for eight challenges.
//! `Point::update_all` without them has its tables on the stack for one call, 12 KiB.
//!
//! # What the contracts say
//!
//! `Extensions` of `sip_vector` defines the extension, as a sum over all entries, its factors and
//! the fold. A contract here gives the exact value, for every vector. `StandsFor` says which
//! vectors a point stands for, and `Intervals` how the list of an interval looks between two folds.
//! An extension is linear in its numbers: [`Point::absorb`] goes from two points at the same
//! challenges to that of the entrywise sum, which is the vector of both streams.
//!
//! [`laws`] has the facts about the definitions alone: how a raised entry raises an extension, that
//! extensions add up, that folding a list by all challenges leaves its extension, and that the
//! extension of an interval is the sum of the factors of its entries.
//!
//! # Cost
//!
//! The unit is one `times`, and d is the number of challenges.
//!
//! | Call | `times` |
//! |---|---|
//! | `chi` | d |
//! | `Point::new`, `Point::value`, `Point::absorb` | 0 |
//! | `Point::update` | d |
//! | `Point::keep_tables` | 255 for each 8 challenges |
//! | `Point::update_all` of n with tables | n for each 8 challenges |
//! | `Point::update_all` of n without, 32 and more | n and 255 for each 8 challenges |
//! | `interval_at` | 2d |
//! | `IntervalFold::new`, `IntervalFold::at` | 0 |
//! | `IntervalFold::fold` | 2 |
#![tactic(auto)]

mod factor;
mod interval;
pub mod laws;
mod point;

pub use factor::chi;
pub use interval::{IntervalFold, interval_at};
pub use point::Point;
