//! Asks of a sketch over a desk in memory: what is said, stored and written, and where each seat is
//! used by whatever a crash leaves; and that a sketch that is asked without a link does the same.
//! Nothing but tests stands here, so that the layer is proved once.
#![tactic(auto)]

#[cfg(test)]
mod ask_tests;
#[cfg(test)]
mod large_tests;
#[cfg(test)]
mod machine_tests;
