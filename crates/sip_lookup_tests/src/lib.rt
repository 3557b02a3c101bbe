//! What the public calls of lookups do over worked rows: whole runs, how they end, and the helper.
//! Nothing but tests stands here, so that this layer is proved once.
#![tactic(auto)]

#[cfg(test)]
mod facts;
#[cfg(test)]
mod look_ends_tests;
#[cfg(test)]
mod look_tests;
