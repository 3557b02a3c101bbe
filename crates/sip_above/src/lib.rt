//! The large entries of a side of any stream: those that are at least a threshold, also where other
//! entries are below 0, as the bills of customers are who have credits.
//!
//! They are asked and judged as heavy hitters are, by a split tree whose nodes have the sum of the
//! weights below them: an item's weight is the sum of its deltas' sizes. Weights only grow, so no
//! entry hides behind a negative one, and nothing is asked of the stream beside that it is legal.
//!
//! - [`Large`] is a question for them.
//! - [`ask_large`] asks it and judges the replies by the root of the side's split tree.
//! - [`LargeUnderWay`] is a question as a helper has it: what it is owed goes out, level by level.
//!
//! # What is proved
//!
//! - A question is asked and its replies are judged as the manner of asking says, whatever the
//!   other end does; what was found is the answer of accepted replies.
//! - What a helper owes goes out, in one write a frame, and no other bytes ([`LargeUnderWay`]).
//! - However a helper replies, it has wrong entries accepted at no more than 3·d·p^(d - 1) of the
//!   p^d vectors of challenges, over every legal stream ([`counting`]).
//!
//! # The definitions to read
//!
//! | Module | Definitions |
//! |---|---|
//! | `Questions` | the query that asks for large entries |
//! | `Manner` | how they are asked and judged, what is promised, and what an honest helper does |
//! | `Serving` | what a helper owes, and what may come next |
#![tactic(auto)]

mod asking;
pub mod counting;
mod large;
mod under_way;

pub use asking::ask_large;
pub use large::Large;
pub use under_way::LargeUnderWay;
