//! Lookups: the value at an item, and the entries that are not 0 and nearest to it.
//!
//! The helper names the place of the answer, and a sub-vector's check over the interval between the
//! item and the place proves it: for an index the item alone, and else an interval in which the
//! entry at the place stands alone, or all on one side of the item, where no entry is.
//!
//! # The definitions to read
//!
//! | file of `specs/` | what it defines |
//! |---|---|
//! | `Lookups` | the answer to a lookup, the place that an honest helper finds, and its interval |
//! | `Frames` | the messages Ask and Found, and how a Found is read |
//! | `AcceptsLook` | when replies are accepted, and at how many challenges wrong ones are |
//! | `Serving` | the turns of a helper of lookups, and what it does on a link |
//! | `Tasks` | which tasks can be done, and what a run asks |
//! | `Questions` | a lookup with its block: when its reply bytes are accepted, and their fault |
//! | `Reports` | the lines of answers |
//! | `Honest` | what an honest helper replies |
//! | `Promises` | what a run promises, and all that it keeps |
//! | `Sittings`, `Hearing` | the lookups while they are asked; what a call did that heard a Found |
//!
//! [`laws`] works out examples of each. [`counting`] has the theorem on helpers that lie: at most
//! d·p^(d-1) of the p^d vectors of challenges have a wrong answer accepted.
//!
//! [`look_stream`] is a whole run: the stream is gathered as for a verifier that keeps a root for
//! each lookup, and then the driver of all runs asks the lookups ([`ask_look`] is one of them). Its
//! promises are those of any run, said of the manner in which lookups are asked.
//!
//! [`serve_look`] is the helper's end of a talk of lookups: it takes turns, each of them a message
//! that may come and then its reply, and its status says where it stopped (`ServesLooks`). A helper
//! that answers lookups among other questions reads an Ask by [`lookup_of`], and replies by
//! [`honest_place`] and [`put_place`].
#![tactic(auto)]

mod answer;
mod asker;
pub mod counting;
pub mod laws;
mod look_asking;
mod lookup;
pub mod owing;
mod running;
pub mod served_examples;
mod serving;
mod task;

pub use answer::{LookAnswer, write_look};
pub use look_asking::ask_look;
pub use lookup::Lookup;
pub use running::look_stream;
pub use serving::{honest_place, lookup_of, put_place, serve_look};
pub use task::LookTask;
