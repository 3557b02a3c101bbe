//! What the helper of questions does over worked rows, also over a store of its own, and what is
//! asked of it. Nothing but tests stands here, so that this layer is proved once, and what the
//! tests of both ends take from here: `asking`, `kinds`, `large` and `store_rows`.
#![tactic(auto)]

pub mod asking;
#[cfg(test)]
mod facts;
#[cfg(test)]
mod hostile;
#[cfg(test)]
mod hostile_kind_tests;
#[cfg(test)]
mod hostile_query_tests;
pub mod kinds;
pub mod large;
#[cfg(test)]
mod large_tests;
#[cfg(test)]
mod question_ask_tests;
#[cfg(test)]
mod question_serve_tests;
#[cfg(test)]
mod store_ask_tests;
pub mod store_rows;
#[cfg(test)]
mod store_tests;
#[cfg(test)]
mod wide_tests;
