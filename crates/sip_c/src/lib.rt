//! The library for C: sketches behind handles, runs, and what is asked. Its header is
//! `include/sip.h`.
//!
//! A handle is a struct that the caller gives: a pointer to a box, and whether there is one. Each
//! call takes the box out, works on what it has, and puts it back, so that what a handle has moves
//! by safe code alone; the few lines that turn a box into a pointer and back are those of
//! `handle.rt` and `parts.rt`, and are proved by hand.
//!
//! # What is proved
//!
//! - Each call answers the number of a status, and says by its status what it did: what the handle
//!   has then, and what it wrote ([`sketches`]). Where it refuses, the handle has what it had.
//! - Each says of the sketch behind the handle what the call of [`sip_sketch`] says that it makes:
//!   a sketch begins as it was asked for, is loaded of exactly its bytes and saved to them, grows
//!   by all updates of a call or by none, and adds up with the next part of its stream.
//! - A sketch that is asked does what [`sip_ask_steps`] says of its machine: whatever the pieces,
//!   what was handed out, taken and stored so far is what an ask did ([`askings`], [`answering`]).
//!   That a handle has what these calls made is a condition of them, which each of them leaves.
//! - A run sends its stream and takes its updates as [`sip_runs`] says ([`runs`]). Its questions
//!   are asked by the same calls as those of a sketch: of each the bytes that were handed out and
//!   taken are a talk as whoever asks over a link has it, and what is told of it is what comes of
//!   that talk.
//! - An empty handle, a freed one and one that is freed twice are statuses, and nothing is freed
//!   twice. A handle may go from thread to thread.
//!
//! What a caller of C owes, nothing checks: that pointers are to what the header says, that no two
//! arguments share memory, and that one call at a time uses a handle.
//!
//! # The definitions to read
//!
//! | file of `specs/` | what it defines |
//! |---|---|
//! | `Statuses` | the numbers of statuses, and what it is that a call answers one |
//! | `Handles` | what a call does through a handle: an empty one, a full one, one to begin in |
//! | `Owned` | what memory a handle owns |
//! | `Beginning` | how a sketch is asked for by numbers, and what stands against it |
//! | `Loading`, `Saving` | which bytes are loaded, and how a buffer has those of a sketch |
//! | `Codes`, `Records` | updates as numbers, and as the records of a file |
//! | `Weighing` | which updates may come next, and the first that may not |
//! | `Updating` | what updates do to a sketch: all of them, or none |
//! | `Absorbing` | what the next part does to a sketch |
//! | `Telling` | what is told of a sketch and of its seats |
//! | `Questions` | questions as numbers |
//! | `Posing` | how a sketch begins to be asked, and why it does not |
//! | `Asking` | what each call does to a sketch that is asked |
//! | `Endings`, `Reasons` | how asking ended, as numbers |
//! | `Runs` | how a run begins, and what calls do to its stream |
//! | `RunAsking`, `Talks` | what calls do to a run that is asked, and to the talk of one question |
//! | `Rooms` | the bytes that went out |
//! | `Texts` | what statuses say |
#![tactic(auto)]

mod absorbing;
mod adding;
pub mod answering;
mod answers;
mod asker;
pub mod askings;
mod beginning;
mod codes;
mod ending;
mod handle;
mod kept;
mod loading;
mod parts;
mod posing;
mod questions;
mod records;
mod refusal;
mod room;
mod run;
mod run_asking;
pub mod runs;
pub mod sketches;
mod talk;
mod telling;
mod testing;
pub mod version;
