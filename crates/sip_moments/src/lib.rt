//! Frequency moments of degree 3 to 8: the sum of the k-th powers of a vector's numbers, checked by
//! a sum-check of degree k (Cormode, Thaler, Yi, PVLDB 5(1), section 3).
//!
//! - [`MomentCheck`] is the verifier's check of a claimed moment, round by round.
//! - [`MomentAsking`] is that check in the form that the talk of `sip_replies` asks, where a
//!   [`Moment`] is what is asked.
//! - [`moment_stream`] is a whole run that asks for moments, up to 16 of them.
//! - [`MomentProver`] is the honest side: the moment, and the true polynomial of each round.
//! - [`serve_moments`] is the helper's end of a talk of moments, over a [`MomentUnderWay`].
//!
//! The second moment is a sum of products, and `sip_sums` has its check. What the two have in
//! common, the rounds of a sum-check of any degree and the count of the challenges at which a wrong
//! claim is accepted, stands in `sip_counts` (`Rounds`).
//!
//! # What is proved
//!
//! - A check is seen as the few numbers that it keeps. `round` refuses exactly where a polynomial's
//!   values at 0 and 1 do not add up to what is expected, and makes its value at the next challenge
//!   the next expected number; `reveal` gives the challenges in order; `finish` refuses exactly
//!   where the last value is not the power of the extension that the verifier knows. This holds
//!   over every [`Field`](sip_field::Field), and each call is a step of the definition over whole
//!   lists ([`laws`]).
//! - A prover's claim is the moment, and its polynomials are those that are defined as sums over
//!   the cube of all lists of bits. A moment is no larger than the same power of the vector's
//!   weight ([`proving`]).
//! - For every helper whose polynomials depend on the challenges revealed so far, at most
//!   k·d·p^(d-1) of the p^d challenge vectors make the check accept a wrong moment ([`counting`]).
//!   The same holds of replies as bytes, for every strategy: they are accepted exactly where the
//!   claim and the polynomials that they state are ([`laws`]).
//! - `moment_stream` keeps the promises of a run in the manner of moments (`MomentClause`): which
//!   lines are written and when, the order of the bytes, the cause of each status, how many
//!   challenges a helper can win by, and that an honest one is accepted with the stream's own
//!   moments. It asks nothing where a claim may have no room for a moment, and names the first such
//!   one.
//! - `serve_moments` takes turns, each of them a message that may come and then its reply: the
//!   honest one, or a refusal where memory was refused. Its status says where it stopped
//!   (`ServesMoments`). Over a run that keeps to the turns each message may come, and what goes out
//!   are the bytes of honest replies that `moment_stream` accepts ([`served_laws`]).
//!
//! # The definitions to read
//!
//! | Module | Definitions |
//! |---|---|
//! | `Moments` | the moments of a vector, and for which of them a claim has room |
//! | `AcceptsMoment` | what replies state, and when that is accepted |
//! | `Checking` | what a check keeps, and what a call makes of it |
//! | `Protocol` | the replies as frames: how they are read, and what they come to |
//! | `Questions` | the message that asks for a moment |
//! | `Counting` | which replies are accepted and which are right, for a count over bytes |
//! | `Tasks` | which moments can be asked of a stream, and in which run |
//! | `Manner` | how moments are asked and judged, the count of each, and the honest helper |
//! | `MomentClause` | what a run keeps that asks for moments |
//! | `Honest` | the true round polynomials, and what a prover keeps |
//! | `Serving` | the turns of a helper of moments, and what it does on a link |
//! | `UnderWay` | an open moment as a helper keeps it |
//! | `Served` | what such a helper hears in a run that keeps to the turns |
//!
//! `Powers` and `Sittings` serve the contracts of private functions alone, and `Asking` those of
//! the check in the talk.
//!
//! # Cost
//!
//! No call of a check takes memory: it is the challenges, one number of the field, the degree and
//! two counts. The unit of time is one `Field::times`.
//!
//! | Call | `times` |
//! |---|---|
//! | `MomentCheck::start` | 0, and one copy of the challenges |
//! | `MomentCheck::round` at degree k | k + 1 |
//! | `MomentCheck::reveal`, `MomentCheck::depth`, `MomentCheck::degree`, `MomentCheck::spent` | 0 |
//! | `MomentCheck::finish` | k |
//!
//! A prover keeps 16 bytes for each entry of its vector that is not 0, and 8 for each coefficient
//! of a polynomial. It takes them at its start, in a time that is linear in these entries. A pair
//! is two neighbours of a list that are not both 0:
//!
//! | Call | `times` |
//! |---|---|
//! | `MomentProver::start` at degree k | at most 3(k - 1) for each pair, and k + 1 |
//! | `MomentProver::learn` at degree k | 1 for each pair, 3(k - 1) for each behind it, 2(k + 1) |
//! | `MomentProver::polynomial`, `MomentProver::coefficient` | 0 |
//! | `MomentProver::claim`, `MomentProver::degree`, `MomentProver::rounds_left` | 0 |
//!
//! Of a pair with a 0 the odd entry wants none of these, and the even one k.
#![tactic(auto)]

mod answer;
mod asker;
mod asking;
mod check;
mod claims;
pub mod counting;
pub mod laws;
mod moment;
mod moment_asking;
mod powers;
mod prover;
pub mod proving;
mod room;
mod rounds;
pub mod served_examples;
pub mod served_laws;
mod serving;
mod stream;
mod task;
mod under_way;

pub use answer::write_moment;
pub use asker::MomentGiven;
pub use asking::ask_moment;
pub use check::MomentCheck;
pub use moment::{LEAST_DEGREE, Moment};
pub use moment_asking::MomentAsking;
pub use prover::MomentProver;
pub use room::is_too_high;
pub use serving::{serve_moments, side_of};
pub use stream::moment_stream;
pub use task::MomentTask;
pub use under_way::MomentUnderWay;
