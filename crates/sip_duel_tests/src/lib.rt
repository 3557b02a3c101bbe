//! What runs against helpers in the same program do over worked rows: one helper in a box, and
//! several helpers, of which one is asked after another in files named `panel_..`. Nothing but
//! tests stands here, so that these layers are proved once.
#![tactic(auto)]

#[cfg(test)]
mod duel_counting;
#[cfg(test)]
mod duel_exit_tests;
#[cfg(test)]
mod duel_link_tests;
#[cfg(test)]
mod duel_play_tests;
#[cfg(test)]
mod duel_runs;
#[cfg(test)]
mod facts;
#[cfg(test)]
mod panel_exit_tests;
#[cfg(test)]
mod panel_lie_tests;
#[cfg(test)]
mod panel_tests;
