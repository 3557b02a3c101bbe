//! Messages of the talk, each with its one spelling as a frame.
//!
//! A frame is the kind (1 byte), the length of the body (2 bytes) and the body, numbers with the
//! high byte first. [`encode`] writes the one spelling of a message in one piece, and [`decode`]
//! receives exactly one frame into a [`Frame`] and answers its message or its first fault.
//! [`decode_within`] leaves the message in the frame ([`Frame::message`]), and [`encode_updates`]
//! writes updates where they lie: with these a stream of updates is received and sent without a
//! message being moved. A message is as large as the longest frame's rows, so [`encode_query`] and
//! [`encode_reveal`] write what is asked without one. [`read`] answers the message of a frame that
//! is at hand, and a [`Frame`] takes bytes that come in pieces, without a link ([`Frame::room`],
//! [`Frame::put`], [`Frame::judge`]). [`put_head`] and [`put_ask`] write the two parts of a
//! transcript's head. Only [`Frame::new`] takes memory.
//!
//! # What is proved
//!
//! - `encode` sends `spelling` of the message, or after a fault of the sink a shorter front of it.
//! - `decode` answers a message exactly where the bytes that it received are the message's spelling
//!   and the place allows its kind, and else the fault that `read_frame` gives for these bytes. It
//!   receives no byte that the answer does not need.
//! - `read` answers the message whose spelling the bytes are, or the fault that `read_frame` gives
//!   for them, `Closed` exactly where the frame has more bytes than these. `Frame::judge` answers
//!   the same of the bytes that were put into a frame.
//! - `decode_within` has the same clauses as `decode`, over the message that the frame then has
//!   (`frame_message`), and `encode_updates`, `encode_query` and `encode_reveal` those of `encode`,
//!   over a slice, a query and a challenge.
//! - No spelling begins another, a spelling is read as its message whatever follows, and what is
//!   read is spelled in front of the bytes ([`laws`]).
//! - The frames of a whole talk by hand are the spellings of their messages, and so are those of a
//!   lookup and of a moment, with each of their faults ([`examples`]).
//!
//! # The definitions to read
//!
//! `specs/Table.antt` says which kinds there are and what their bodies look like: a wider index or
//! another length changes this table and no proof over shapes. `specs/Spelling.antt` has `fits`,
//! `spelling` and the first fault of bytes, `specs/Reading.antt` `read_frame`, the message at the
//! front of bytes or their fault, `specs/Decoding.antt` `Decodes`, what a call of `decode` did by
//! the bytes that it received, `specs/Taking.antt` `room_for` and `Judges`, for bytes in pieces,
//! and `specs/Transcript.antt` the transcript. The laws of `read_frame` that a proof cites stand in
//! `proofs/ReadingLaws.antt` and `proofs/ReadsBack.antt`.
//!
//! `fits`, `spelling` and `read_frame` compute at a message or at bytes that are written out. A
//! crate that states such a row proves it by unfolding, of `specs::Spelling`, `in_bytes`,
//! `spelled`, `numbers_in`, `has_room`, `all_hold`, `body_fault`, `fits`, `spelling`, `kind_fault`,
//! `frame_fault` and `asked`, of `specs::Reading`, `read_frame`, and, of `specs::Transcript`,
//! `ask_bytes`: the file of [`examples`] shows the attribute.
#![tactic(auto)]

mod at_hand;
mod decoding;
mod encoding;
pub mod examples;
mod fitting;
mod frame;
mod kind;
pub mod laws;
mod message;
mod numbers;
mod reading;
mod row;
mod rows;
mod transcript;
mod version;
mod writing;

pub use at_hand::{frame_length, read};
pub use decoding::{decode, decode_within};
pub use encoding::{encode, encode_query, encode_reveal, encode_updates};
pub use frame::{Frame, LONGEST_FRAME, Taken};
pub use kind::Place;
pub use message::{
    Held, Leaf, MOST_COEFFICIENTS, MOST_DEGREE, MOST_NODES, MOST_QUERIES, MOST_ROWS, Mark, Message,
    Node, Reason, WireFault,
};
pub use transcript::{put_ask, put_head};
pub use version::Version;
