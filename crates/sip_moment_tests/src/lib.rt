//! What the public calls of moments do over worked rows: the check, the talk of one question, whole
//! runs, and the helper. Nothing but tests stands here, so that this layer is proved once.
#![tactic(auto)]

#[cfg(test)]
mod facts;
#[cfg(test)]
mod moment_check_tests;
#[cfg(test)]
mod moment_fault_tests;
#[cfg(test)]
mod moment_run_tests;
#[cfg(test)]
mod moment_runs;
#[cfg(test)]
mod moment_serve_tests;
#[cfg(test)]
mod moment_talk_tests;
