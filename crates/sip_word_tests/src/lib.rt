//! What words ask for, the pages and the advice about them, and how each status ends the program.
//! Crates of other tests of words take from here how words are made and how endings are looked at.
#![tactic(auto)]

#[cfg(test)]
mod command_tests;
pub mod endings;
#[cfg(test)]
mod exit_tests;
#[cfg(test)]
mod hint_tests;
#[cfg(test)]
mod leading_tests;
#[cfg(test)]
mod noted_tests;
#[cfg(test)]
mod page_tests;
#[cfg(test)]
mod page_words_tests;
#[cfg(test)]
mod refused_asking_tests;
#[cfg(test)]
mod refused_panel_tests;
#[cfg(test)]
mod refused_words_tests;
#[cfg(test)]
mod sparing_tests;
pub mod words;
