//! What the public calls of the helper and of the verifier do over worked rows.
//! Nothing but tests stands here, so that each of these layers is proved once.
//! Files named `session_..` try the parts of the verifier.
#![tactic(auto)]

#[cfg(test)]
mod duel_liar_tests;
#[cfg(test)]
mod facts;
#[cfg(test)]
mod helper_tests;
#[cfg(test)]
mod session_facts;
#[cfg(test)]
mod session_feed_tests;
#[cfg(test)]
mod session_gather_tests;
#[cfg(test)]
mod session_seat_tests;
#[cfg(test)]
mod session_tests;
#[cfg(test)]
mod sub_vector_tests;
#[cfg(test)]
mod talks;
