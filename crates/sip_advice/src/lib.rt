//! What a user reads that is no report: the page, the line of a status, and the lines of advice
//! behind it.
//!
//! [`page_of`] answers the text that words ask for in place of a command, and [`write_page`] prints
//! it. [`finish`] ends a run: it writes the line of its status, and answers an [`Ending`] with the
//! code that the program ends with. Lines of advice come behind it and change no ending
//! ([`Ending::advise`], [`Ending::warn`], [`Ending::caution`]): they follow from the words, the
//! status and what was [`Noted`] of the files and of the stream. No call takes memory, and none
//! speaks of how a command is done.
//!
//! # The definitions to read
//!
//! | file of `specs/` | what it defines |
//! |---|---|
//! | `Pages` | the words that ask for a text, the part about a command, and when it was printed |
//! | `Exit` | the code of each status |
//! | `StatusLine` | the line of each status |
//! | `Hints` | what stands at each word, the line of advice, and what each line says |
//! | `Noting` | why a file is not to be had, which explains a status, and what a seed is like |
//! | `Quoting` | how a word stands in a line |
#![tactic(auto)]

mod advice;
mod exit;
mod hint_text;
mod noted;
mod page;
mod page_parts;
mod page_text;
mod place;
mod quoting;
mod reason_text;
mod sketch_parts;
mod status_text;

pub use advice::{HINT_ROOM, HintLine, has_seed, hint};
pub use exit::{Ending, exit_code, finish, status_without_words};
pub use noted::{Noted, SeedLook, Trouble, Unopened};
pub use page::{page_of, page_without_file, write_page};
pub use page_text::{
    ASK_PART, AUDIT_PART, BEGIN_PART, CONVERT_PART, GEN_PART, HELP, HELP_PART, HELPLOOK_PART,
    HELPMOM_PART, LINES_PART, LOOKUP_PART, MERGE_PART, MOMENTS_PART, PANEL_PART, PLAY_PART,
    SEATS_PART, SERVE_PART, SHOW_PART, VERIFY_PART, VERSION, WATCH_PART, WIDEN_PART,
};
pub use status_text::{STATUS_ROOM, numbered_line, plain_line, status_line};
