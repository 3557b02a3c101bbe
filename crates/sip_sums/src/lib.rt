//! Sums of products over a vector: of its squares (the second moment), of its products with another
//! vector, or of the entries of an interval, each checked by the sum-check protocol (Cormode,
//! Thaler, Yi, PVLDB 5(1), section 3).
//!
//! All three are the sum of the products of the entries of two lists. For the entries of an
//! interval the second list is 1 there and 0 elsewhere.
//!
//! - [`Poly`] is a round polynomial, of degree 2.
//! - [`SumCheck`] is the verifier's check of a claimed sum, round by round.
//! - [`SumAsking`] is that check in the form in which the general talk of `sip_replies` asks.
//! - [`SumProver`] is the honest side: the sum, and the true polynomial of each round.
//! - [`next_pair`] goes over the pairs of neighbours of a folded list, for provers of other powers.
//!
//! # What is proved
//!
//! - A check is seen as the few numbers that it keeps. `round` refuses exactly where a polynomial's
//!   values at 0 and 1 do not add up to what is expected; `reveal` gives the challenges in order,
//!   and makes the polynomial's value there the next expected number; `finish` refuses exactly
//!   where the last value is not the product that the verifier knows. This holds over every
//!   [`Field`](sip_field::Field), and each call is a step of the definition over whole lists
//!   ([`laws`]).
//! - `SumAsking` answers each frame as a step of the replies' protocol does, and its answer is the
//!   claim.
//! - That protocol, which goes state by state, is the check over whole lists too. Accepted replies
//!   are the bytes of a claim and of a polynomial for each challenge that add up from the claim to
//!   the product. The bytes of any claim and polynomials are accepted exactly where these are, and
//!   else have the fault of the first two values that differ.
//! - A prover's claim is the sum, and its polynomials are those that are defined as sums over the
//!   cube of all lists of bits; the answer to each of the three queries is such a sum, and over a
//!   legal stream it fits a frame ([`proving`]).
//! - Honest replies are accepted, and what they state is the sum of the products; while they come
//!   they have no fault ([`completeness`]).
//! - For every helper whose replies depend on the challenges revealed so far, at most 2·d·p^(d-1)
//!   of the p^d challenge vectors make the check accept a wrong sum ([`counting`]).
//!
//! # The definitions to read
//!
//! | Module | Definitions |
//! |---|---|
//! | `AcceptsSum` | what replies state, and when that is accepted |
//! | `Questions` | the two lists of each kind of query |
//! | `Protocol` | how replies are read frame by frame, and what they come to |
//! | `Stating` | the bytes that state a claim and polynomials, and their first fault |
//! | `Checking`, `Polynomials` | what a check keeps, and what a call makes of it |
//! | `Asking` | what a check of the general talk keeps, and what it stands for |
//! | `Honest` | the true round polynomials, and the honest replies as bytes |
//! | `Counting` | when a helper has a wrong sum accepted |
//!
//! `Pairs`, `Claims` and `Factor` serve the contracts of private functions alone.
//!
//! # Cost
//!
//! No call of a check takes memory: it is the challenges, four numbers of the field and two counts,
//! and in a `SumAsking` the claim and the product too. The unit of time is one `Field::times`.
//!
//! | Call | `times` |
//! |---|---|
//! | `Poly::value_at` | 2 |
//! | `Poly::sum_of_ends` | 0 |
//! | `SumCheck::start` | 0, and one copy of the challenges |
//! | `SumCheck::depth`, `SumCheck::round`, `SumCheck::spent` | 0 |
//! | `SumCheck::reveal`, `SumCheck::finish` | 2 |
//! | `SumAsking::start`, `SumAsking::take` | 0; `start` copies the challenges |
//! | `SumAsking::reveal`, `SumAsking::finish` | 2; its other calls have none |
//!
//! So a whole check of d rounds has 2d.
//!
//! A prover keeps 16 bytes for each entry of its vectors that is not 0, and takes them at its
//! start, in a time that is linear in these entries. With m of them left, of n pairs of neighbours:
//!
//! | Call | `times` |
//! |---|---|
//! | `SumProver::poly` | 3n for a sum of squares; else 4 for each pair that is in both lists |
//! | `SumProver::learn` | n for each list |
//! | `SumProver::claim`, `SumProver::rounds_left` | 0 |
#![tactic(auto)]

mod check;
mod claims;
pub mod completeness;
pub mod counting;
pub mod laws;
mod pairs;
mod polynomial;
mod prover;
pub mod proving;
mod sum_asking;

pub use check::{SumCheck, copy_of, is_same};
pub use pairs::{Pair, next_pair};
pub use polynomial::Poly;
pub use prover::SumProver;
pub use sum_asking::SumAsking;
