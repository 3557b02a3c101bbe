//! Both ends of a talk without a link, over worked rows, in pieces of many sizes. Nothing but tests
//! stands here, so that this layer is proved once, and what the tests of whole runs take from here:
//! `ends`.
#![tactic(auto)]

#[cfg(test)]
mod asking;
#[cfg(test)]
mod asking_tests;
#[cfg(test)]
mod both_ends_tests;
pub mod ends;
#[cfg(test)]
mod facts;
#[cfg(test)]
mod kinds;
#[cfg(test)]
mod kinds_tests;
#[cfg(test)]
mod pieces;
#[cfg(test)]
mod question_ends_tests;
#[cfg(test)]
mod question_talks_tests;
#[cfg(test)]
mod serving;
#[cfg(test)]
mod serving_tests;
#[cfg(test)]
mod store_tests;
