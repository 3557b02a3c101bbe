//! The commands that keep a sketch, and the one that asks it: their words, what they open, and how
//! they end.
//!
//! `begin`, `watch`, `merge` and `seats` are told from all other commands by their first word
//! ([`sketch_verb`]). [`read_sketch_words`] answers the [`SketchCommand`] that words are, or the
//! number of the first word such that the words up to it begin none. [`sketch_ports`] and
//! [`file_opening`] say what a command opens, under which name. [`finish_sketch`] writes the line
//! of a status and answers the exit code. None of these takes memory. [`obey_sketch`] does a
//! command.
//!
//! `ask` is told from them by [`asks_sketch`], and has a [`read_ask_words`], an [`ask_ports`], an
//! [`obey_ask`] and a [`finish_ask`] of its own: its words ask questions, and its status is a
//! `sip_ask::AskStatus`. [`sketch_to_end`] and [`ask_to_end`] do a command and write its line.
//!
//! # The definitions to read
//!
//! | file of `specs/` | what it defines |
//! |---|---|
//! | `Words` | which words are which command, and where words are refused |
//! | `Refusing` | the same of whatever commands: the first word that begins none |
//! | `SketchPlan` | which files a command opens, and that its words name them |
//! | `Endings` | the code and the line of each status |
//! | `SketchClause` | what a run did of each command, and which ports rest |
//! | `AskWords` | which words ask which questions of a sketch, and where they are refused |
//! | `AskPlan` | what the link is opened on, and that the words name it |
//! | `AskEndings` | the code and the line of each status of an ask |
//! | `Finishing` | how the program ends by what a command did |
//!
//! `specs/inside/` says how far words were read. No promise rests on a reading of it.
#![tactic(auto)]

mod advising;
mod ask_advice;
mod ask_ending;
mod ask_plan;
mod ask_words;
mod command;
mod ending;
mod finishing;
mod hint_text;
mod obeying;
mod obeying_ask;
mod one_word;
mod seats;
mod seats_left;
mod sketch_plan;
mod verb;

pub use advising::{SketchLook, advise_sketch, advise_words, caution_sketch};
pub use ask_advice::{advise_ask, advise_ask_words, tell_left};
pub use ask_ending::{finish_ask, kept_status, run_status};
pub use ask_plan::{AskPlan, ask_ports};
pub use ask_words::{Questions, asks_sketch, read_ask_words};
pub use command::{SketchCommand, read_sketch_words};
pub use ending::{finish_sketch, shared_status};
pub use finishing::{AskDone, SketchDone, ask_to_end, sketch_to_end};
pub use obeying::obey_sketch;
pub use obeying_ask::obey_ask;
pub use seats::MOST_SEATS;
pub use seats_left::SeatsLeft;
pub use sketch_plan::{SketchPlan, file_opening, sketch_ports};
pub use verb::{SketchVerb, sketch_verb};
