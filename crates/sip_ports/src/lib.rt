//! Ports: where the bytes of a run come from and go to.
//!
//! All that computes is generic over a [`Source`], a [`Sink`] or a [`Link`], which is a sink that
//! can be heard. A port counts its faults, and answers [`PortStop::Failed`] only where that count
//! rose; it counts how often memory was refused to it, and answers [`PortStop::OutOfMemory`] only
//! where that count rose. Where it tells its bytes, its calls say exactly which bytes were moved,
//! whatever pieces they came in; [`read_exact_into`], [`write_whole`] and [`recv_whole`] move all
//! that is asked for.
//!
//! A [`Desk`] is a link beside one file that is replaced whole or not at all. Its talk has the
//! steps of each replacement between the bytes of the link, and so says which came first. From it
//! follows which contents the file may have where a crash comes.
//!
//! The ports over memory tell everything and fail at chosen calls. Those over readers and writers
//! tell what these tell: [`ReaderSource`], [`WriterSink`] and [`TwoWayLink`]. Over files and over
//! the runtime's writers, which tell nothing, they are the edge to the machine.
#![tactic(auto)]

mod calls;
mod count;
mod desk;
mod events;
mod file;
mod file_desk;
mod give;
pub mod laws;
mod load;
mod memory;
mod memory_desk;
mod null;
mod port;
mod read_ahead;
mod reader_source;
mod stream;
mod two_way;
mod uninterrupted;
mod whole;
mod writer_sink;

pub use desk::{Desk, DeskStop, LONGEST_LOAD};
pub use events::{received_events, replacing_events, sent_events};
pub use file::{FileLink, FileSink, FileSource};
pub use file_desk::{FileDesk, load_file};
pub use load::load_front;
pub use memory::{MemoryLink, MemorySink, MemorySource};
pub use memory_desk::MemoryDesk;
pub use null::NullSink;
pub use port::{Link, PortStop, Sink, Source, TalkEvent};
pub use reader_source::ReaderSource;
pub use stream::{StderrSink, StdoutSink, StreamSink};
pub use two_way::TwoWayLink;
pub use whole::{read_exact_into, recv_whole, write_whole};
pub use writer_sink::WriterSink;
