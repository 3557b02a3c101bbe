//! A run without a link, over worked rows, in pieces of many sizes. Nothing but tests stands here,
//! so that this layer is proved once, and what a program takes from here that tries many more runs:
//! `whole_run`.
#![tactic(auto)]

#[cfg(test)]
mod facts;
#[cfg(test)]
mod following_tests;
#[cfg(test)]
mod passing;
pub mod whole_run;
#[cfg(test)]
mod whole_run_tests;
