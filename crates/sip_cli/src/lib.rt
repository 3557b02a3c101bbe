//! The run of a command `sip`.
//!
//! [`obey`] makes one call for each command, and [`run`] reads words and does the same. [`play`]
//! and [`panel`] do the commands whose helpers are in the program: they make them and the links to
//! them, and hand neither out. [`ToldSource`] and [`ToldLink`] are ports over ports that say on the
//! way how far a run is. What the words mean stands in `sip_words`, and what is printed beside the
//! report in `sip_advice`, which knows no run.
//!
//! # The definitions to read
//!
//! | file of `specs/` | what it defines |
//! |---|---|
//! | `DoneClause` | all that a call does which does a command: what it keeps, which ports rest |
//! | `CommandClause` | what each command keeps |
//! | `CopyClause`, `HelpClause` | what is kept by commands that copy a stream, or serve a talk |
//! | `ServeClause` | what is kept by one that serves a talk over a stream in a file |
//! | `PlayClause`, `PanelWordsClause` | the promises over the links to helpers in the program |
//! | `Statuses` | the statuses of each command |
//! | `Checking` | which commands tell which sides of a stream had a delta below 0 |
//! | `Stored` | what commands left that an audit has |
//! | `Telling`, `ToldStream`, `ToldTalk` | the lines of progress, and when each is due |
//!
//! [`laws`] says what an audit comes to that is given what another command left.
#![tactic(auto)]

mod copying;
mod helping;
pub mod laws;
mod panelling;
mod playing;
mod progress;
mod serving;
mod told_link;
mod told_source;
mod top;

pub use panelling::panel;
pub use playing::play;
pub use progress::{Lines, OPENING_FROM, OPENING_TO};
pub use told_link::ToldLink;
pub use told_source::ToldSource;
pub use top::{obey, run};
