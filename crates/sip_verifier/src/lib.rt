//! The verifier: from a seed and a stream to verdicts, in a few numbers for each query.
//!
//! | file of `specs/` | what it defines |
//! |---|---|
//! | `Tasks` | which tasks can be done |
//! | `Draws` | the challenges of a run, and the block of each query |
//! | `Talks` | the order of bytes in a talk, around the queries |
//! | `Reports` | the lines of a report |
//! | `Snapshots` | what the ports tell at one instant, and how often they have failed |
//! | `Exchanges` | what one call moved through its ports |
//! | `Inquiries` | what is asked of a stream, and at which challenges |
//! | `Kinds` | what is known of a query by its kind, one row a kind |
//! | `runs` | what a run promises in any manner of asking: the clauses below |
//! | `Questions` | a query with its block: when its reply bytes are accepted, and their fault |
//! | `VerdictClause` | which lines are written, and when |
//! | `TalkClause` | in which order the bytes go |
//! | `CauseClause` | when each other answer comes |
//! | `CountClause` | at how many challenges a line can have a wrong answer |
//! | `JointClause` | the same for all queries of a run together |
//! | `CompletenessClause` | what an honest helper comes to |
//! | `Statuses` | which statuses a run may answer, and which count of faults each needs |
//! | `Promises`, `RunClause` | the seven clauses together, and all that a run keeps |
//! | `QuerySeats`, `Seats`, `NextSeat` | which streams running numbers stand for; the next seat |
//! | `Running` | running numbers as they are kept, and how those of two streams add up |
//! | `Rooms` | how much room the question of a seat needs |
//! | `SeatNumbers` | the running number that a seat shows |
//! | `Widths` | the first query whose answer may be too wide |
//! | `Feeding` | what is still to send of a stream |
//! | `Transcripts` | the head of a transcript |
//! | `Gathering` | what a call did that reads the stream |
//! | `Sittings`, `Asking`, `Given` | a session as it is seen; what a call did that asks a query |
//! | `Concluding` | what a call did that asks all queries of a session |
//! | `GatherClause` | all that a call keeps that gathers |
//! | `AskClause` | all that a call keeps that asks a query |
//! | `CheckClause` | all that a call keeps that asks queries and writes their lines |
//!
//! `specs/inside/` says what one private part of a run did. No promise rests on a reading of it.
//!
//! [`check_stream`] is a whole run: [`gather`], then a [`Session`] that asks the queries, by
//! [`conclude_session`]. It carries the seven clauses, as one `RunClause`. All but the last two are
//! said of an `Inquiry`: so [`follow`] and [`conclude_session`], over seats with challenges that
//! are given ([`Seats::given`]), keep them for a run that is stored.
//!
//! A caller that finds out its queries only while it talks has the roots and the extensions of the
//! seats one by one ([`Seats::root`], [`Seats::point`]), and [`ask_sub`] asks for a sub-vector by
//! such a root, with the contract of [`Session::ask`].
//!
//! A caller that keeps what a stream left, or adds up what several left, has the [`Running`]
//! numbers of each query by itself: [`Running::update_all`] and [`Running::absorb`]. A
//! [`QuerySeat`] is made of them once the query is known, and [`ask_seat`] asks it, with the same
//! contract.
//!
//! [`conclude_session`] is [`conclude_run`] for a session. That serves whatever asks the questions
//! of a run ([`Asker`]): its contract is said by the manner in which the asker asks, so a run of
//! other questions has the same clauses by a type of its own.
#![tactic(auto)]

mod asker;
mod checking;
pub mod completeness;
mod concluding;
pub mod counting;
mod ending;
mod feed;
mod gathering;
pub mod laws;
mod points;
mod queries;
mod report;
mod running;
mod seat;
mod seat_asking;
mod seat_numbers;
mod seats;
mod session;
mod status;
mod sub_vector;
mod tables;
mod task;
mod weights;

pub use asker::{Asker, Unanswered, has_failed};
pub use checking::{check_stream, conclude_session, open_session};
pub use concluding::{check_next, conclude_run};
pub use ending::{on_link, on_report, status_of, status_of_fault};
pub use feed::Feed;
pub use gathering::{draw, follow, gather, on_stream};
pub use points::Points;
pub use queries::QueryGiven;
pub use report::{query_word, write_dropped, write_number, write_pairs};
pub use running::Running;
pub use seat::QuerySeat;
pub use seat_asking::ask_seat;
pub use seats::Seats;
pub use session::{Session, SessionFault, SessionStart, Verdict};
pub use status::{Port, Status};
pub use sub_vector::ask_sub;
pub use tables::Tables;
pub use task::Task;
pub use weights::Weights;
