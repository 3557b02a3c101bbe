//! What each layer's public calls do over worked rows: vectors from outside, printed text, devices
//! that fail, and that a call succeeds where memory is ample. Nothing but tests stands here, so
//! that each of these layers is proved once.
#![tactic(auto)]

#[cfg(test)]
mod absorb_tests;
#[cfg(test)]
mod desk_tests;
#[cfg(test)]
mod extension_tests;
#[cfg(test)]
mod facts;
#[cfg(test)]
mod far_tests;
#[cfg(test)]
mod field_tests;
#[cfg(test)]
mod file_tests;
#[cfg(test)]
mod frame_tests;
#[cfg(test)]
mod frames;
#[cfg(test)]
mod held_tests;
#[cfg(test)]
mod made_tests;
#[cfg(test)]
mod pending_tests;
#[cfg(test)]
mod port_tests;
#[cfg(test)]
mod reader_tests;
#[cfg(test)]
mod resumed_tests;
#[cfg(test)]
mod tree_tests;
#[cfg(test)]
mod vector_calls;
#[cfg(test)]
mod vector_tests;
#[cfg(test)]
mod written_tests;
