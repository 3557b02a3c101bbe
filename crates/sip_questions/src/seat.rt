//! What the replies to a question are judged by.

ghost use Rattle.std.specs.Prelude.{◌≡◌, ℕ, IsTrue, length};
ghost use Rattle.sip_verifier.specs.QuerySeats.{keeps};
ghost use Rattle.sip_verifier.specs.Running.{block_of, numbers_of};
ghost use Rattle.sip_verifier.specs.Weights.{weight_in};
ghost use Rattle.sip_wire.specs.declared.version.Version.{Version as AnyVersion};
ghost use Rattle.sip_questions.specs.Promises.{CanPose};
ghost use Rattle.sip_questions.specs.Sittings.{CanAsk, block_at, nodes_at, places_at, query_like};
ghost use Rattle.sip_questions.specs.Sittings.{question_at, refusal_at, running_at};

use crate::question::Question;
use sip_above::Large;
use sip_field::M61;
use sip_lookup::Lookup;
use sip_mle::Point;
use sip_moments::{Moment, is_too_high};
use sip_subvec::MOST_ENTRIES;
use sip_tree::{Root, SplitRoot};
use sip_vector::CAP;
use sip_verifier::{QuerySeat, Running, Status, Weights};

/// A question with the running numbers that the replies to it are judged by, and their challenges.
/// It is asked once: the other end knows all but one of the challenges from then on.
#[derive(Drop)]
pub enum QuestionSeat {
    /// A query, by the numbers of its kind.
    Query(QuerySeat),
    /// A lookup, by the root of side 0.
    Lookup(Lookup, Root<M61, CAP>),
    /// A moment, by the extension of its side.
    Moment(Moment, Point<M61, CAP>),
    /// Large entries, by the root of their side's split tree.
    Large(Large, SplitRoot<M61, CAP>),
}

/// The lookup of item 0 in no levels.
impl Default for QuestionSeat {
    fn default() -> QuestionSeat {
        QuestionSeat::Lookup(Lookup::Index(0), Root::default())
    }
}

impl QuestionSeat {
    /// The seat of a question by the running numbers of a stream, which are those of the query that
    /// is like it ([`Question::query_like`]). It can be asked where the question can
    /// ([`Question::can_pose`]).
    pub fn of(question: Question, running: Running) -> QuestionSeat
        requires { IsTrue (keeps (query_like question) (numbers_of running)) }
        ensures question { question_at result ≡ question }
        ensures block { block_at result ≡ block_of running }
        ensures running { running_at result ≡ numbers_of running }
        ensures can { (version : AnyVersion) (depth : ℕ) → length (block_of running) ≡ depth
            → CanPose version depth question → CanAsk version depth result }
    {
        match (question, running) {
            (Question::Query(query), running) => {
                QuestionSeat::Query(QuerySeat::of(query, running))
            }
            (Question::Lookup(lookup), Running::Root(root)) => QuestionSeat::Lookup(lookup, root),
            (Question::Moment(moment), Running::Point(point)) => {
                QuestionSeat::Moment(moment, point)
            }
            (Question::Large(large), Running::SplitRoot(root)) => QuestionSeat::Large(large, root),
            _ => unreachable!(),
        }
    }

    /// How many places the pairs of an answer need.
    pub fn places(&self) -> usize
        requires { (version : AnyVersion) × (depth : ℕ) × CanAsk version depth self.now }
        ensures { result ≡ places_at self.now }
    {
        match self {
            QuestionSeat::Query(seat) => seat.most_places(),
            QuestionSeat::Lookup(_, _) => MOST_ENTRIES as usize,
            QuestionSeat::Moment(_, _) => 0,
            QuestionSeat::Large(large, root) => large.most_nodes(root.weight()),
        }
    }

    /// How many nodes a level of the replies may have, where the question is for heavy hitters or
    /// large entries.
    pub fn nodes(&self) -> usize
        requires { (version : AnyVersion) × (depth : ℕ) × CanAsk version depth self.now }
        ensures { result ≡ nodes_at self.now }
    {
        match self {
            QuestionSeat::Query(seat) => seat.most_nodes(),
            QuestionSeat::Lookup(_, _) | QuestionSeat::Moment(_, _) => 0,
            QuestionSeat::Large(large, root) => large.most_nodes(root.weight()),
        }
    }

    /// Why the question may not be asked, which has this number: its answer may have more entries
    /// than a reply has room for, or be greater than a claim.
    pub fn refusal(&self, number: u8, weights: &Weights) -> Option<Status>
        requires { (version : AnyVersion) × (depth : ℕ) × CanAsk version depth self.now }
        ensures { result ≡ refusal_at (weight_in weights.now) number self.now }
    {
        match self {
            QuestionSeat::Query(seat) if seat.is_wide() => Some(Status::TooWide { query: number }),
            QuestionSeat::Moment(moment, _) => {
                if is_too_high(weights.of(moment.side), moment.degree) {
                    return Some(Status::TooHigh { query: number });
                }
                None
            }
            QuestionSeat::Large(large, root) if large.is_wide(root.weight()) => {
                Some(Status::TooWide { query: number })
            }
            _ => None,
        }
    }
}
