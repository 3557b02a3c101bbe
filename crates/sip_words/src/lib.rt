//! The words of a command, and what it opens.
//!
//! [`Words`] are what stands behind the program's name. [`read_words`] answers the [`Command`] that
//! they are, or the number of the first word such that the words up to it begin none. [`ports`]
//! says what each port of a command is opened on, under which name ([`Opening::name`]), and which
//! end of the link first ([`PortPlan::link_order`]); [`PortPlan::sparing`] leaves out an output
//! that would empty another file of the command. Nothing is opened here. [`read_query`],
//! [`read_lookup`], [`read_moment`] and [`read_large`] read one word, for a command whose words stand
//! elsewhere.
//!
//! # The definitions to read
//!
//! | file of `specs/` | what it defines |
//! |---|---|
//! | `Words` | which words spell which command, and where words are refused |
//! | `Verbs` | the table of commands: the word of each, the shapes of its words, how much it asks |
//! | `Shapes` | what one word may be: a stream, a depth, helpers, or what it asks |
//! | `Behind` | which words are those of a command behind `--progress` |
//! | `Plan` | which files a command opens, and their names |
//! | `Sparing` | which outputs are left out of a plan |
//!
//! `specs/inside/` says how far words were read. No promise rests on a reading of it.
//!
//! Behind a depth stand queries, lookups or moments. What reads one word of these is a trait, so
//! that one loop reads all three.
#![tactic(auto)]

mod asked;
mod command;
mod decimal;
mod helper_name;
mod large;
mod lookup;
mod moment;
mod plan;
mod query;
mod shape;
mod sparing;
mod stream;
mod verb;
mod words;

pub use command::{Command, read_depth, read_words, verb_of};
pub use decimal::read_decimal;
pub use helper_name::HelperName;
pub use large::read_large;
pub use lookup::read_lookup;
pub use moment::read_moment;
pub use plan::{LinkOrder, Opening, PortPlan, ports};
pub use query::read_query;
pub use sparing::{FileId, PlanFiles, unless};
pub use stream::{Stream, read_stored, stream_of};
pub use verb::Verb;
pub use words::{Usage, Words};
