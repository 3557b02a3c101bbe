//! Both ends of a talk for whoever has a loop of their own: bytes that came are handed over in any
//! pieces, bytes that are due are taken, and no call waits.
//!
//! [`Asking`] asks one question: what is due goes out by [`due`](Asking::due), what comes goes in
//! by [`feed`](Asking::feed), and [`verdict`](Asking::verdict) says what came of it.
//! [`QuestionAsking`] is the same as one type for a question of any kind, by the running numbers of
//! a stream: so questions of several kinds can be asked one after another in one talk. It is a
//! [`Posing`], for every query and every moment, or a [`Looking`], for a lookup, of which the place
//! is told before the entries that prove it are asked for. [`Serving`] is the helper's end of a
//! talk, of whatever helper, and [`ServingStore`] that of a helper with a store of its own.
//!
//! # What is proved
//!
//! - Whatever the pieces, the bytes that `Asking` gave out and took, in their order, are a talk as
//!   whoever asks over a link has it, and the verdict is the answer of that talk. While it waits no
//!   answer is possible by the bytes so far, and it owes no byte ([`laws`]).
//! - The same of `QuestionAsking`, said of each stream whose numbers the question is judged by, in
//!   the manner of questions, and of `Posing`, in the manner of its kind: so in the words in which
//!   a run promises it over a link.
//! - The bytes that `Serving` took and sent are turns of its helper's rules, and its status says
//!   how the talk ended, as of a talk on a link.
//! - Those of `ServingStore` are a talk over its store as on a link, and the store is left alone but
//!   in the call in which it became known how many of its records are to be heard.
//! - Of bytes behind the end of a question or of a talk none is taken.
//!
//! # The definitions to read
//!
//! | file of `specs/` | what it defines |
//! |---|---|
//! | `Asked` | what the bytes of a question so far are a talk of |
//! | `Openings` | what is asked by one message, and by which numbers of a stream |
//! | `Posed` | what the bytes of a query or a moment are a talk of, and what came of it |
//! | `Looked` | the same of a lookup |
//! | `Questioned` | the same of a question of any kind |
//! | `Served` | what the bytes of a helper's talk so far are |
//! | `StoreServed` | the same over a store of its own |
#![tactic(auto)]

mod asking;
mod beginning;
mod coming;
mod found;
pub mod laws;
mod looking;
mod opening;
mod posing;
mod question;
mod seeking;
mod serving;
mod serving_store;

pub use asking::Asking;
pub use looking::Looking;
pub use opening::Opening;
pub use posing::Posing;
pub use question::QuestionAsking;
pub use serving::Serving;
pub use serving_store::{ServingStore, StoreStage};
