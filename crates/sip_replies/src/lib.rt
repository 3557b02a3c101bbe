//! The talk of one query: a check of its replies, whatever its kind, and one loop that asks. What
//! begins it is a [`Request`], the message of a query for one. Whoever has a loop of their own, and
//! no link, feeds the bytes that come to a [`Turn`].
//!
//! | file of `specs/` | what it defines |
//! |---|---|
//! | `Protocols` | a protocol of replies: its rules frame by frame, and what they come to |
//! | `Replies` | what replies state as bytes, their first fault, when they are accepted |
//! | `Talks` | the order of bytes in the talk of a query |
//! | `Checks`, `Asking` | what the calls of a check did, and those that ask |
//! | `Following`, `Feeding` | where in its talk a query is, over a link and without one |
//! | `Rising`, `SameEntries` | two tests that the checks of several kinds make |
#![tactic(auto)]

mod asking;
mod check;
mod feeding;
pub mod laws;
mod request;
mod rising;
mod taking;
mod turn;

pub use asking::{AskStop, ask};
pub use check::{Check, More, Said};
pub use request::Request;
pub use rising::is_above;
pub use turn::{Stage, Turn};
