//! The helper: what it hears of a talk, and the replies that it owes.
//!
//! [`HelperCore`] hears the messages of a talk one by one, and sends the reply that is owed after
//! each. It keeps the two vectors of the stream, and for an open query what the replies to it are
//! made from. [`serve`] does so over a link until a Bye.
//!
//! # What is proved
//!
//! - A message is refused exactly where the turns do not allow it (`is_allowed`), and then nothing
//!   changes.
//! - A message that is allowed leads to the next state (`step`), whether memory was refused or not.
//! - `answer` sends the reply that is owed (`owed`) in the version of the opening, or after a fault
//!   of the sink a shorter front of it. A reply is the honest one, or a refusal: for want of
//!   memory, or exactly where the query's row refuses it over the vectors.
//!
//! - Behind a stream in any pieces and a query that is not refused, the honest reply over the
//!   stream's own vectors is owed, whatever was revealed; no reply to a challenge is a refusal, and
//!   no reply that is owed is empty (`turn_laws`).
//! - `serve` takes turns, each of them a message that may come and then its reply, and stops at a
//!   Bye, a frame that has no spelling, a message out of turn, the end of the link, or a fault of
//!   it; its status says at which, and a frame's offset is exact (`Serves`). It ends, whatever
//!   comes.
//!
//! # The definitions to read
//!
//! `specs/Turns.antt` has the state, which message may come next, what it does, and the reply that
//! is owed. The queries that are answered are those of `is_built`; another one is out of turn.
//! `specs/Rules.antt` says what a talk on a link is, by its status, for any rules of turns, and
//! `specs/Serving.antt` has those of queries.
//!
//! What a kind of query means to a helper is a row (`specs/KindRows.antt`): which refusal applies
//! to it over the two vectors, and the honest reply behind the challenges so far.
//! `specs/Kinds.antt` has the row of each kind; that of a kind that is not built refuses as out of
//! turn. Heavy hitters and shares have one, by the threshold that they come to
//! (`specs/Hitters.antt`): a negative entry refuses before an answer that may be too wide.
//!
//! # How other questions are answered
//!
//! What answers another kind of talk behind the same stream, as of lookups, implements [`Helps`]
//! over a [`HelperCore`]: which frame is awaited, which message may come, and what is owed then.
//! [`talk`] receives the frames, refuses what is out of turn and says how it ended. A talk that
//! begins by other turns takes these one by one ([`take_turn`]), and goes on from there
//! ([`talk_on`]). Whoever has the messages from elsewhere than a link has each answered alone
//! ([`answer_turn`]).
//!
//! # How a kind is added
//!
//! A file of `specs/` has its row and what its prover stands for. A file of `src/` has the prover,
//! an `impl` of the trait `Prover`, and a `start` that `StartsProver` describes. A line for it
//! stands in each definition of `specs/Kinds.antt`, each `match` of `src/kinds.rt` and each lemma
//! of `proofs/EachKind.antt`. The turns, and the calls that answer, name no kind.
#![tactic(auto)]

mod asked;
mod entries;
mod heard;
mod helper;
mod hitters;
mod kinds;
pub mod laws;
mod nodes;
mod prover;
mod refusal;
mod serving;
mod shown_row;
mod status;
mod sub_vector;
mod sums;
mod talking;
mod turn;
pub mod turn_laws;
mod vectors;

pub use helper::HelperCore;
pub use hitters::put_level_end;
pub use nodes::put_level;
pub use refusal::{TOO_MANY, WANT_OF_MEMORY, put_refusal};
pub use serving::serve;
pub use status::HelpStatus;
pub use talking::{Helps, answer_turn, take_turn, talk, talk_on};
pub use turn::OutOfTurn;
