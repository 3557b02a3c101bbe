//! What a verifier keeps of a stream, in a file, so that it may run for weeks and be started again.
//!
//! A sketch has the depth of its vectors, which parts of a stream are in, what is told of the
//! stream so far ([`Tally`](sip_vector::Tally)), and 1 to 64 seats. A seat serves one question, has
//! challenges of its own and one running number or two. Whoever reads them before the question can
//! make any answer accepted: no call shows them, and the file is for its owner alone.
//!
//! # What is proved
//!
//! - A file is one grammar: a field, and by its value the fields behind it, down to the SHA-256
//!   digest of all bytes before ([`laws::reading_is_exact`], for any such file).
//! - [`Sketch::read`] answers a sketch exactly where the bytes are its file, and else the place
//!   where the first field begins that has none of its values. The digest finds decay and slips of
//!   the hand; it keeps nobody out, since anybody can make it.
//! - [`Sketch::begin`] answers a sketch that stands for the empty stream, at the challenges that
//!   its seed gives. Where a sketch stands for a stream, it stands for the stream and the updates
//!   behind it after [`Sketch::update_all`], which changes neither the kinds, the uses and the
//!   challenges of seats nor the numbers of a used one.
//! - [`Sketch::absorb`] adds the next part of a stream, which another collector kept: where the one
//!   sketch stands for a stream and the other for one behind it, the sum stands for both. It says
//!   why a part is not added, and leaves the sketch as it was then.
//! - [`Sketch::mark`] marks a seat used, and [`SketchSeat::running`] gives what one keeps, by which
//!   the replies to a question are judged.
//! - [`begin`] stores such a sketch in the file of a desk where that is missing, and leaves each
//!   other file as it is; its status says which. Whenever a crash comes, the file is missing or
//!   whole ([`laws::a_begin_leaves_whole_files`]).
//! - [`seats`] writes the lines of a sketch, which have none of its secrets.
//! - [`watch`] adds the records of a stream to the sketch of a desk, behind those that it has
//!   already, and stores it after every so many and at the end; its status says what was read. Each
//!   file that it stores is that of a sketch to which the first so many of the records came, with
//!   the same seats, as many of them used. Whenever a crash comes, the file is one of these or as
//!   it was ([`laws::a_watch_leaves_whole_files`]).
//! - [`merge`] adds up the parts of a stream in the sketch of a desk, each loaded and tested before
//!   the next one; its status says which part was refused and why. A seat is used exactly where the
//!   sketch had it used, and has then the same numbers; where the parts stand for streams the sum
//!   stands for these one behind the other. Whenever a crash comes, the file is that of the sum or
//!   as it was ([`laws::a_merge_leaves_whole_files`]).
//! - [`Sketch::write`] writes that file, and takes memory only where there is less room than the
//!   file has bytes ([`Sketch::size`]).
//!
//! # The definitions to read
//!
//! | file of `specs/` | what it defines |
//! |---|---|
//! | `Fields` | files of numbers, each of which says what stands behind it: spelling and reading |
//! | `Seats` | what a seat keeps of a stream, and the two numbers by which its file says it |
//! | `Standing` | which streams a sketch stands for, and what one is that begins |
//! | `Sketches` | what a sketch has, its numbers in their order, the fields of its file |
//! | `Joining` | what a sketch and the next part add up to, and why a part is not added |
//! | `Reading` | what reading answers, and the sketch or the fault that this is |
//! | `Beginnings` | what each ending of [`begin`] says of its desk and its seed |
//! | `Showing` | what each ending of [`seats`] says of its file and its report |
//! | `SeatLines` | the lines of a report |
//! | `Loaded` | when a file is no sketch, and from which byte on |
//! | `Marking` | a sketch with a seat that a question has used |
//! | `Watching` | what is read of a stream that is watched, and when the sketch is stored |
//! | `Merging` | what parts add up to in the place of a sketch, and why one is refused |
//! | `Risen` | which count of faults rose where a call over files answers that a port failed |
//! | `Files` | what is loaded of files that are read whole |
//! | `MemoryFiles` | what those in memory have |
//! | `Examples` | what the examples work out |
//!
//! [`examples`] has two files with their digests, and the first faults of others.
#![tactic(auto)]

mod absorbing;
mod beginning;
mod cursor;
pub mod examples;
mod fault;
mod files;
mod filling;
mod following;
mod founding;
mod keeping;
mod kind;
pub mod laws;
mod loading;
mod marking;
mod memory_files;
mod merging;
mod pace;
mod parts;
mod passing;
mod reading;
mod seat;
mod showing;
mod sketch;
mod status;
mod storing;
mod sum;
mod unlike;
mod updating;
mod watching;
mod writing;

pub use beginning::BeginFault;
pub use fault::SketchFault;
pub use files::SketchFiles;
pub use founding::begin;
pub use kind::SeatKind;
pub use memory_files::MemoryFiles;
pub use merging::{MOST_PARTS, merge};
pub use parts::Parts;
pub use seat::SketchSeat;
pub use showing::seats;
pub use sketch::Sketch;
pub use status::{SketchPort, SketchStatus};
pub use unlike::Unlike;
pub use updating::MOST_UPDATES;
pub use watching::watch;
