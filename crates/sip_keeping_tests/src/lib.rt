//! Commands that keep a sketch, and the one that asks it: what their words ask for and open, how
//! each status ends the program, the advice about it, and asks from their words to their report.
//! Nothing but tests stands here, so that the layer is proved once.
#![tactic(auto)]

#[cfg(test)]
mod ask_ending_tests;
#[cfg(test)]
mod ask_run_tests;
#[cfg(test)]
mod ask_words_tests;
#[cfg(test)]
mod sketch_advice_tests;
#[cfg(test)]
mod sketch_ending_tests;
#[cfg(test)]
mod sketch_words_tests;
