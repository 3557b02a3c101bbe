//! A run for whoever has a loop of their own: the stream is handed over in pieces of any lengths,
//! and the bytes that are due are taken. No call waits.
//!
//! [`Following`] stands behind a stream while it goes by, with a seat for each question. At its end
//! there is [`ToAsk`], which has the questions in their order, each with the running numbers of the
//! stream.
//!
//! # What is proved
//!
//! - Whatever the pieces, the bytes that were given out up to the stream's end are those that a run
//!   of a verifier over a link says of this stream before its first question ([`laws`]).
//! - The seats stand for what was sent, and so at the end for the stream: each question is judged
//!   by the running numbers of the stream, at its own block of the seed's challenges.
//! - An update that is not legal behind those before it is refused by its number, with the first
//!   test that it fails, and is as if it had not been handed over.
//!
//! # The definitions to read
//!
//! | file of `specs/` | what it defines |
//! |---|---|
//! | `Plans` | what is asked in a run, and what stands against it |
//! | `Runs` | what was said of a stream so far, what is due, and what is left at its end |
//! | `Seats` | which stream the running numbers of a question stand for |
//! | `Measures` | what a stream came to so far, by which its next update is legal or not |
#![tactic(auto)]

mod asked;
mod following;
pub mod laws;
mod measure;
mod seat;
mod seats;
mod start;
mod step;
mod to_ask;

pub use following::Following;
pub use measure::BadUpdate;
pub use seat::RunSeat;
pub use start::RunStart;
pub use to_ask::ToAsk;
