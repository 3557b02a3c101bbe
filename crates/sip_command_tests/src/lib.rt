//! Whole runs over ports in memory: what the promises of a run come to where every port tells its
//! bytes, worked runs as tables, and what the crates of other tests of commands take from here.
#![tactic(auto)]

pub mod case;
pub mod frames;
pub mod heavy_frames;
pub mod laws;
mod memory;
pub mod ones;
pub mod play;
pub mod row;
pub mod sum_frames;

pub use memory::run_in_memory;

#[cfg(test)]
mod checks;
#[cfg(test)]
mod copy_cut_tests;
#[cfg(test)]
mod copy_tests;
#[cfg(test)]
mod cut;
#[cfg(test)]
mod failing_tests;
#[cfg(test)]
mod fault_tests;
#[cfg(test)]
mod faulty;
#[cfg(test)]
mod heavy_fault_tests;
#[cfg(test)]
mod heavy_tests;
#[cfg(test)]
mod help_tests;
#[cfg(test)]
mod look_tests;
#[cfg(test)]
mod made_tests;
#[cfg(test)]
mod many_tests;
#[cfg(test)]
mod moment_tests;
#[cfg(test)]
mod query_tests;
#[cfg(test)]
mod question_frames;
#[cfg(test)]
mod row_tests;
#[cfg(test)]
mod serve_tests;
#[cfg(test)]
mod sum_fault_tests;
