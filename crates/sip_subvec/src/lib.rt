//! Sub-vectors: the entries of a vector from one index to another, and the replies that show them.
//!
//! - [`SubCheck`] is the verifier's check of the replies to one query, as one running sum.
//! - [`SubAsking`] is that check in the form in which the general talk of `sip_replies` asks.
//! - [`SubProver`] is the honest side. It keeps the list of a vector's entries that are not 0,
//!   which it shares with the vector, the challenges so far, and the interval of the present level
//!   above the entries that were asked for; it gives the nodes beside the interval, each as a sum
//!   over the entries below it, and goes up by one challenge.
//!
//! # What is proved
//!
//! - A check is seen as the few numbers that it keeps, and `HasTaken` says of them what was given:
//!   these entries and these siblings, which passed, for this interval, these challenges and this
//!   root. A new check has taken nothing. Each call then goes from what was taken to the same with
//!   one entry, or one level's siblings, more, or it refuses; which of the two, and by which
//!   reason, is what the definition of the test gives. So a caller that keeps the fact `HasTaken`
//!   of its own list knows at the end that `finish` answers as the definition does of the whole
//!   list.
//! - Folds keep weighted sums, so that one sum does for all the lists ([`laws`]).
//! - `SubAsking` answers each frame as a step of the replies' protocol does, and the places of the
//!   answer then hold the entries so far.
//! - `SubProver::siblings` gives the true siblings of the level that the challenges so far lead to.
//! - Honest replies are accepted, and what they state is the answer of the stream; while they come
//!   they have no fault ([`completeness`]).
//! - For every helper whose replies depend on the challenges revealed so far, at most d·p^(d-1) of
//!   the p^d challenge vectors make the check accept wrong entries ([`counting`]).
//!
//! # The definitions to read
//!
//! | Module | Definitions |
//! |---|---|
//! | `AcceptsSub` | what replies state, and the lists that it folds to |
//! | `Replies` | the tests of a frame |
//! | `Protocol` | how replies are read frame by frame, and what they come to |
//! | `Checking` | the sum that a check keeps, and what it has taken |
//! | `Asking` | what a check of the general talk keeps, and what it stands for |
//! | `Honest` | what a prover knows, and the honest replies as bytes |
//! | `Summing` | what a prover keeps, and the level that it stands for |
//! | `Counting` | when a helper has wrong entries accepted |
//!
//! # Cost
//!
//! No call of a check takes memory: it is a root with its challenges and eight numbers, or ten in a
//! `SubAsking`. Of a prover `start` alone takes memory: for d challenges, and where additions are
//! pending in the vector also for a list of its m entries that are not 0. The unit of time is one
//! `Field::times`, and d is the depth.
//!
//! | Call | `times` |
//! |---|---|
//! | `SubCheck::start` | 0, and one copy of the challenges |
//! | `SubCheck::entry` | one for each bit that is 1, and one more: d + 1 at most |
//! | `SubCheck::siblings` | the same for each sibling, of the bits of its index in its level |
//! | `SubCheck::depth`, `SubCheck::reveal`, `SubCheck::finish`, `SubCheck::spent` | 0 |
//! | `SubAsking::take` | those of its frame's entries or siblings; its other calls have none |
//! | `SubProver::start` | 0; in time O(1), and a walk over the vector where it has not settled |
//! | `SubProver::learn` | 0; in time O(1) |
//! | `SubProver::siblings` | one for each entry below a sibling, and 255, for eight challenges |
//!
//! No two siblings of one proof lie above the same entry, so over all levels each entry is used
//! once.
#![tactic(auto)]

mod check;
pub mod completeness;
pub mod counting;
pub mod laws;
mod nodes;
mod prover;
mod sub_asking;

pub use check::{MOST_ENTRIES, SubCheck};
pub use prover::{SiblingPair, SubProver};
pub use sub_asking::SubAsking;
