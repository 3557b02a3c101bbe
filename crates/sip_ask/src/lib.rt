//! Questions that are chosen now, of a stream that went by before.
//!
//! A sketch (`sip_sketch`) is what a verifier kept of a stream, in a file. A question takes one of
//! its seats, and no seat serves two: whoever has seen a question's challenges could make any
//! answer to a second one on them accepted. So the file with the seat used is stored before a byte
//! of the question is sent.
//!
//! [`ask`] does all of that for some questions, over a desk: a link to where the stream is kept,
//! and the file. [`choose`] says which seats they would take.
//!
//! # What is proved
//!
//! - [`ask`] ends exactly as `Asking` says: what was loaded, said, stored and written, by its
//!   status. For each question in order the file with its seat used is stored, and only then is
//!   anything said of it.
//! - Whenever a crash comes, each content that the file may have then has used the seats of all
//!   questions of which a byte was sent ([`laws::said_only_where_used`]).
//! - Over any runs over one file, each of which may be cut off at any event, no seat serves two
//!   questions ([`laws::no_seat_serves_two_questions`]). A call of [`ask`] is such a run
//!   ([`laws::an_ask_is_a_run`]), and so is one that begins a sketch, watches a stream for it or
//!   adds up its parts ([`laws::what_keeps_a_sketch_is_a_run`]).
//! - [`ask`] accepts what an honest helper sends, with the stream's own answers, unless a port or
//!   memory fails or another process has the sketch.
//! - A call keeps the promises of a run of questions over each stream that the loaded sketch stands
//!   for ([`laws::asks_keep_their_promises`]); each has bytes, so that these are no empty promises
//!   ([`laws::each_legal_stream_has_bytes`]). Of a sketch that stands for none, as one that was
//!   made by hand, only the order of what is stored and sent is told.
//! - [`ask`] carries the count over all seats of the sketch (`CountOnSketches`), of which the laws
//!   below are the parts.
//! - Whatever order the seats are used in, and however questions are chosen by what was revealed of
//!   others, a helper has a wrong answer accepted at few vectors of challenges
//!   ([`laws::few_vectors_mislead_a_sketch`]), and where it has one the sketch's own challenges are
//!   one of them ([`laws::a_wrong_answer_is_counted`]). What that asks of the questions is tested
//!   before anything is said ([`laws::what_is_asked_can_be_counted`]).
//!
//! # The definitions to read
//!
//! | file of `specs/` | what it defines |
//! |---|---|
//! | `Choosing` | which seat each question takes, and why nothing is asked |
//! | `Marking` | a sketch with used seats, and which contents of the file have a seat used |
//! | `Turns` | in which order the file and the link are used |
//! | `Asking` | what an ask did, by its status |
//! | `Completeness` | what an honest helper sends, and what comes of an ask that hears it |
//! | `Causes` | with which statuses an ask stops, and which count of faults rose then |
//! | `Promises` | of which exchange of a run it keeps the promises |
//! | `Runs` | runs over one file, each cut off somewhere, and that no seat serves two questions |
//! | `Counting` | what may become of each seat, and which wrong answers are counted |
//! | `SketchCounts` | that a wrong answer in a line of an ask is counted |
//! | `Examples` | what the examples work out |
//!
//! [`examples`] works out which seats questions take, and the file of a sketch with a used seat.
#![tactic(auto)]

mod asking;
mod choosing;
mod desk_asking;
mod ending;
pub mod examples;
pub mod laws;
mod opening;
mod status;

pub use choosing::{Places, choose, weight_of};
pub use desk_asking::{ask, version_for};
pub use opening::{held_by, recall};
pub use status::{AskPort, AskStatus};
