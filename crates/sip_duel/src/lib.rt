//! Boxed helpers, and a duel of both ends in one program.
//!
//! A [`Helper`] is the other end of a talk, in a box; [`HelperLink`] is a link to one, and [`play`]
//! a run of the verifier over it. [`Honest`] keeps to the turns, [`Skewed`] counts one item once
//! more, [`Liar`] replies by a table of lies, and [`Mute`] says nothing.
//!
//! # What is proved
//!
//! - A link reads the frames that are sent, in the version of the last opening, and hands each
//!   whole one to the helper. What is received is the front of what the helper appended. The helper
//!   is asked only where all of that is given, and the end is found exactly there, once the link
//!   has ended (`HelperLink::receive`).
//! - A link to an honest helper that had heard nothing keeps the promise `Keeps`, through every
//!   call that knows any link: what it gives are the replies that the turns owe for what was sent.
//! - `play` makes the seven promises of `check_stream`, is never a fault of the peer, and closes
//!   and drops the helper. With an honest helper its talk is an honest one: `IsHonestTalk`. With a
//!   good seed, a legal stream and ports that do not fail it is then accepted with the stream's own
//!   answers, unless memory runs out at one of the two ends: `DuelAccepts`.
//! - Nothing is received on a [`MuteLink`], and a run over it, [`play_mute`], rejects a query only
//!   at its first reply, since the link has ended: `DuelCloses`.
//! - `Honest` refuses a message out of turn once, and has ended then.
//! - A `Skewed` helper hears and answers as an `Honest` one that hears one update more before the
//!   end of the stream, where that may come.
//! - A `Liar` appends the reply of the first of its lies that is about the point of the talk, and
//!   has ended where there is none.
//!
//! # The definitions to read
//!
//! `specs/Helping.antt` has what a helper does where its state is told, `specs/Receiving.antt` what
//! a receive did, `specs/Lying.antt` what a liar replies, `specs/Story.antt` the steps of a talk
//! and the promises, and `specs/Accepting.antt` what a run against an honest helper comes to.
//! Fields of a link that contracts name are private: a box that may be any helper has no model.
#![tactic(auto)]

mod duel;
mod helper;
mod honest;
mod kept;
pub mod laws;
mod liar;
mod lie;
mod link;
mod mute;
mod mute_link;
mod skewed;
mod wants;

pub use duel::{play, play_mute};
pub use helper::{Helper, More};
pub use honest::Honest;
pub use liar::Liar;
pub use lie::Lie;
pub use link::HelperLink;
pub use mute::Mute;
pub use mute_link::MuteLink;
pub use skewed::Skewed;
