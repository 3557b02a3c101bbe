//! What is read of transcripts over worked rows: heads, replies that come out of a stored run, and
//! stored runs that are listed, converted and judged again. Nothing but tests stands here.
#![tactic(auto)]

#[cfg(test)]
mod audit;
#[cfg(test)]
mod audit_fault_tests;
#[cfg(test)]
mod audit_frames;
#[cfg(test)]
mod audit_tests;
#[cfg(test)]
mod facts;
#[cfg(test)]
mod head_tests;
#[cfg(test)]
mod listing_tests;
#[cfg(test)]
mod replaying_tests;
#[cfg(test)]
mod stored_tests;
