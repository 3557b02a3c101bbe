//! Streams of records as bytes.
//!
//! A stream is binary, wide or text, as its [`Form`] says. `specs/Records.antt` says for all forms
//! which legal records bytes begin with, and why the next one is not legal.
//!
//! `specs/Spellings.antt` says how an update is written. [`put_record`] writes one as a record of
//! 13 bytes, [`put_wide`] as one of 17, and [`put_line`] as a line of text, each at once and
//! without memory. [`MadeSource`] is a source of the records of `specs/Made.antt`, a stream that is
//! made from a number. [`Reader`] reads a stream one record at a time, or goes on behind one that
//! was read before and tells what it comes to; [`copy`] writes what it reads in any form, in
//! blocks. [`read_decimal`] reads one number, and the calls of [`text`] gather text in a buffer of
//! a fixed size.
#![tactic(auto)]

mod batch;
mod blocks;
mod copying;
mod fault;
mod form;
mod generator;
pub mod laws;
mod line;
mod line_reader;
mod made;
mod marks;
mod numbers;
mod reader;
mod record_bytes;
mod record_reader;
mod spelled_line;
mod spelling;
pub mod text;
mod why;

pub use copying::{CopyStop, copy};
pub use fault::StreamFault;
pub use form::Form;
pub use line::put_line;
pub use made::MadeSource;
pub use numbers::read_decimal;
pub use reader::Reader;
pub use record_bytes::{put_record, put_wide};
pub use why::Why;
