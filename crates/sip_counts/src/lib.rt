//! How many vectors of challenges a helper can win by.
//!
//! This crate has no code that runs, but definitions, and laws of them as public functions with an
//! empty body. Nothing in it speaks of probability: a run draws one vector of challenges, and these
//! laws say how few of all vectors there are at which a helper has a wrong answer accepted.
//!
//! # The definitions, in `specs/`
//!
//! | Module | Definitions |
//! |---|---|
//! | `Counts` | sums and counts over the numbers below p; how many challenge vectors pass a test |
//! | `Strategies` | what a helper may do; at how many vectors it has a wrong answer accepted |
//! | `Late` | seats that are used in any order: what a plan may know, where some seat is fooled |
//! | `Joint` | queries in turn, whose helper sees the earlier blocks of challenges |
//! | `Clauses` | what a call that writes an answer promises of a helper that lies |
//! | `Rounds` | the rounds of a sum-check of any degree: which polynomials add up, and are true |
//!
//! A test is a function from a list of challenges to a truth value, and not a relation between
//! challenges and replies: a strategy turns the second into the first, so that one count, one
//! escape law and one joint count serve each check. The crate of a check gives its own `accepts`
//! and `is_right`.
//!
//! A strategy is any function from the challenges revealed so far to a reply, or to none. A finite
//! map is one of them (`strategy_of`), so what holds for every strategy holds for every finite map,
//! whatever computed it.
//!
//! # The laws
//!
//! - [`counting`]: the count by prefixes, that it grows with its test and is at most p^d, and the
//!   **escape law**: a test that holds at first, and that at most c of the p next challenges can
//!   make fail at each step, fails at no more than c·d·p^(d - 1) vectors.
//! - [`polynomials`]: over a prime modulus two different polynomials of degree at most k agree at
//!   no more than k points. So c is 1 for a check that compares lines (sub-vectors), 2 where it
//!   compares parabolas (sums of products), 3 for cubics (counted nodes), and k for sums of k-th
//!   powers: k is a variable in both laws.
//! - [`rounds`]: at degree k no more than k·d·p^(d - 1) vectors lead a wrong claim to the right
//!   value, whatever round polynomials are stated. The checks of sums are sum-checks of degree 2.
//! - [`strategies`]: talks and finite maps as strategies, and the joint count.
//! - [`late`]: the count that does not mind the order. Each seat's question may be chosen, and be
//!   replied to, by the challenges of all other seats, those before it and those behind it. The
//!   joint count is that of seats whose questions are fixed.
//! - [`examples`]: counts worked out one by one.
#![tactic(auto)]

pub mod counting;
pub mod examples;
pub mod late;
pub mod polynomials;
pub mod rounds;
pub mod strategies;
