//! Questions that are asked of a sketch, for whoever has a loop and a disk of their own.
//!
//! [`SketchAsking`] does what [`sip_ask::ask`] does, without a link and without a desk: it hands
//! out bytes that are due and the file that is to be stored, and is handed what came. The file with
//! a question's seat used is handed out before the first byte of the question, and that byte is due
//! only once the machine was told that the file is stored.
//!
//! # What is proved
//!
//! - Whatever the pieces, what was given out, taken and stored so far, in its order, is what an ask
//!   did that ended so: by its status where it has ended, and by a fault of the port that is next
//!   where it has not ([`laws::machines_are_asks`]).
//! - It is a run over the file of its sketch, so that what is proved of runs is of it: no seat
//!   serves two questions ([`laws::machines_are_runs`]).
//! - What each answer is: the replies are accepted, about each stream that the sketch stands for,
//!   at the block of the question's seat, and state it ([`SketchAsking::answer`]).
//! - Behind a rejection nothing more is wanted, and the seats of the questions behind it are as
//!   they were.
//! - Of bytes behind the end of a question none is taken.
//!
//! # The definitions to read
//!
//! | file of `specs/` | what it defines |
//! |---|---|
//! | `Plans` | what is asked of which sketch, and how that may end |
//! | `Told` | what an answer says |
//! | `Steps` | what was done so far, and what is wanted |
#![tactic(auto)]

mod beginning;
mod driving;
mod hearing;
pub mod laws;
mod machine;
mod step;
mod turn;
mod turning;
mod wants;

pub use machine::SketchAsking;
pub use wants::Wants;
