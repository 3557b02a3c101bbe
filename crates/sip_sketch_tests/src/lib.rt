//! What the file of a sketch is, byte by byte: what is read and written again, and the first fault
//! of others; what a sketch has that began and grew, how it begins over a desk, and by which lines
//! it is shown; and what the parts of a stream add up to. Crates of tests of what stands on
//! sketches take the worked file from here.
#![tactic(auto)]

#[cfg(test)]
mod absorbing_tests;
#[cfg(test)]
mod begin_tests;
#[cfg(test)]
mod file_tests;
#[cfg(test)]
mod growing_tests;
#[cfg(test)]
mod merge_tests;
#[cfg(test)]
mod showing_tests;
#[cfg(test)]
mod watch_tests;
pub mod worked;
