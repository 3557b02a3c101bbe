//! Questions of every kind in one talk: queries, lookups, moments and large entries, in any order.
//!
//! A question is asked as its kind is in a talk of that kind alone, at a block of challenges of its
//! own. So nothing is defined here once more: the manner of questions goes by the manners of the
//! kinds, and the turns of a helper by those of their helpers.
//!
//! [`QuestionAsker`] asks the questions of a run over a link to where its stream is kept, each at a
//! [`QuestionSeat`]: the running numbers of the stream that its kind wants, which
//! `sip_verifier::Running` keeps. `sip_verifier::conclude_run` drives it, and writes the lines;
//! what such a run promises is [`laws`]. [`ask_question`] asks one question by itself.
//!
//! [`serve_questions`] is the helper's end of such a talk: it takes turns, each of them a message
//! that may come and then its reply, and its status says where it stopped (`ServesQuestions`).
//!
//! [`serve_store`] is a helper's end over records that it has of its own: it is told how many of
//! them to hear, hears so many or all, says what they come to, and answers from there on
//! (`ServesStore`). Where large entries are asked for, it reads them once more, for the sizes of
//! their deltas. Whoever has no link takes its parts one by one: the turn of a [`Recalling`], and
//! then [`hear_store`] and [`say_held`].
//!
//! The command `serve` is [`serve_store`] over a file and a link.
//!
//! # The definitions to read
//!
//! | file of `specs/` | what it defines |
//! |---|---|
//! | `Questions` | how questions are asked and judged, and which run is refused before the first |
//! | `Sittings` | the seats of questions, and what is seen of them while they are asked |
//! | `Counting` | at how many blocks of challenges a wrong answer can be accepted |
//! | `Honest` | what an honest helper replies, and which questions it can answer |
//! | `Promises` | what a run of questions promises, and which runs these are |
//! | `Serving` | the turns of a helper of questions, and what it does on a link |
//! | `StoreFronts` | which records of its store a helper hears |
//! | `Stores` | what a helper with a store of its own does on a link |
//! | `Examples` | what the examples work out |
//!
//! [`examples`] works out turns and refusals.
#![tactic(auto)]

mod asker;
mod asking;
pub mod examples;
pub mod laws;
mod question;
mod recalling;
mod seat;
mod serving;
mod sizes;
mod store;
mod store_hearing;
mod store_status;
mod weighing;

pub use asker::{QuestionAsker, QuestionGiven};
pub use asking::ask_question;
pub use question::Question;
pub use recalling::Recalling;
pub use seat::QuestionSeat;
pub use serving::{QuestionCore, serve_questions};
pub use store::{say_held, serve_store};
pub use store_status::StoreStatus;
