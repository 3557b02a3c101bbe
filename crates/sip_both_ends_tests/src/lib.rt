//! What both ends of a run come to: `verify`, `lookup` and `moments` against the helpers of the
//! program, questions of every kind against `serve`, runs of `play` and of `panel`, what is kept of
//! a run, and what it says on the way, over ports in memory. Nothing but tests stands here.
#![tactic(auto)]

#[cfg(test)]
mod both_ends_tests;
#[cfg(test)]
mod duel;
#[cfg(test)]
mod duel_tests;
#[cfg(test)]
mod far_tests;
#[cfg(test)]
mod heavy_duel_tests;
#[cfg(test)]
mod pace_tests;
#[cfg(test)]
mod panel_tests;
#[cfg(test)]
mod play_tests;
#[cfg(test)]
mod progress_tests;
#[cfg(test)]
mod record_tests;
#[cfg(test)]
mod serve_ends_tests;
#[cfg(test)]
mod sum_duel_tests;
#[cfg(test)]
mod ticking;
