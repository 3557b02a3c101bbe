//! What the checks of sub-vectors, of sums and of heavy hitters do over worked rows, and two small
//! checks of this crate's own, `list_tests` and `sum_tests`, which go through the call that asks.
//! Nothing but tests stands here, so that each of these layers is proved once, and what the crates
//! of other tests take from here: `events`, `frames`, `serving` and `sizes`.
#![tactic(auto)]

#[cfg(test)]
mod entry_check_tests;
pub mod events;
#[cfg(test)]
mod facts;
pub mod frames;
#[cfg(test)]
mod heavy_check_tests;
#[cfg(test)]
mod late_tests;
#[cfg(test)]
mod list_tests;
pub mod serving;
pub mod sizes;
#[cfg(test)]
mod sum_check_tests;
#[cfg(test)]
mod sum_tests;
