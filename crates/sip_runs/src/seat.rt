//! What a run keeps of its stream for one question.

ghost use Rattle.std.specs.Prelude.{◌≡◌, ◌≤◌, ℕ, [], List, All, IsTrue, length};
ghost use Rattle.std.specs.Prelude.{◌++◌};
ghost use Rattle.sip_vector.specs.declared.update.Update.{Update as AnyUpdate};
ghost use Rattle.sip_vector.specs.Answers.{Fits};
ghost use Rattle.sip_vector.specs.Limits.{most_depth};
ghost use Rattle.sip_vector.specs.Streams.{IsLegal};
ghost use Rattle.sip_wire.specs.declared.version.Version.{Version as AnyVersion};
ghost use Rattle.sip_verifier.specs.QuerySeats.{concerns};
ghost use Rattle.sip_verifier.specs.Running.{block_of, numbers_of};
ghost use Rattle.sip_verifier.specs.Weights.{weight_in};
ghost use Rattle.sip_verifier.specs.Widths.{is_wide_seat};
ghost use Rattle.sip_questions.specs.Promises.{CanPose};
ghost use Rattle.sip_questions.specs.Sittings.{query_like};
ghost use Rattle.sip_runs.specs.Seats.{IsSeated, is_too_many, refusal_at};

use sip_above::Large;
use sip_field::{M61, Seat};
use sip_moments::is_too_high;
use sip_questions::Question;
use sip_vector::{CAP, Query, Side, Update, is_wide, share_of};
use sip_verifier::{Running, Status, Weights};
use std::alloc::Global;

// Whether the answer to a query may have more entries than a reply has room for.
fn is_too_wide(query: &Query, running: &Running) -> bool
    requires fits { (depth : ℕ) × Fits depth query.now }
    ensures { result ≡ is_wide_seat query.now (numbers_of running.now) }
{
    match (query, running) {
        (Query::Heavy { at_least, .. }, Running::AugRoot(root)) => {
            is_wide(root.total(), *at_least)
        }
        (Query::Share { num, den, .. }, Running::AugRoot(root)) => {
            let total = root.total();
            is_wide(total, share_of(total, *num, *den))
        }
        _ => false,
    }
}

// Whether a side may have more large entries than a reply has room for.
fn is_too_many(large: &Large, running: &Running) -> bool
    requires { 1 ≤ large.now.at_least }
    ensures { result ≡ is_too_many large.now (numbers_of running.now) }
{
    match running {
        Running::SplitRoot(root) => large.is_wide(root.weight()),
        _ => false,
    }
}

/// A question, and the running numbers of a stream that the replies to it are judged by, with their
/// challenges. It is asked once: the other end knows all but one of the challenges from then on.
#[derive(Drop)]
pub struct RunSeat {
    question: Question,
    running: Running,
}

impl RunSeat {
    /// The seat of a question with these challenges, before any update. It keeps their tables,
    /// where there is memory for them.
    pub(crate) fn begin(alloc: Global, question: Question, block: Seat<M61, CAP>) -> RunSeat
        ensures question { result.question ≡ question }
        ensures block { block_of result.running ≡ block }
        ensures seated { (version : AnyVersion) (depth : ℕ) → CanPose version depth question
            → length block ≡ depth → IsSeated version depth [] result }
    {
        let mut running = Running::begin(&question.query_like(), block);
        // They are for speed alone: a seat that has none makes them on the stack, for each block.
        let _ = running.keep_tables(alloc);
        RunSeat { question, running }
    }

    /// What is asked.
    pub fn question(&self) -> Question
        ensures { result ≡ self.now.question }
    {
        self.question
    }

    /// The running numbers alone.
    pub fn into_running(self) -> Running
        ensures { result ≡ self.running }
    {
        self.running
    }

    // Whether updates of a side change the running numbers.
    fn takes(&self, side: Side) -> bool
        ensures { result ≡ concerns (query_like self.now.question) side }
    {
        match self.question.query_like() {
            Query::Sub { .. } => side == Side::First,
            Query::Range { side: own, .. } | Query::F2 { side: own } => side == own,
            Query::Heavy { side: own, .. }
            | Query::Share { side: own, .. }
            | Query::Above { side: own, .. } => side == own,
            Query::Inner => true,
        }
    }

    /// Adds updates of one side, in order, where they concern the question.
    pub(crate) fn update_all(&mut self, side: Side, updates: &[Update])
        requires sides { All (λ u. u.side ≡ side) updates.now }
        requires legal { (version : AnyVersion) × (depth : ℕ) × (stream : List AnyUpdate)
            × (depth ≤ most_depth) × IsSeated version depth stream self.old
            × IsLegal depth (stream ++ updates.now) }
        ensures question { self.new.question ≡ self.old.question }
        ensures block { block_of self.new.running ≡ block_of self.old.running }
        ensures seated { (version : AnyVersion) (depth : ℕ) (stream : List AnyUpdate)
            → IsSeated version depth stream self.old
            → IsSeated version depth (stream ++ updates.now) self.new }
    {
        if self.takes(side) {
            self.running.update_all(side, updates);
        }
    }

    /// Why the question may not be asked, which has this number: its answer may have more entries
    /// than a reply has room for, or be greater than a claim.
    pub(crate) fn refusal(&self, number: u8, weights: &Weights) -> Option<Status>
        requires { (version : AnyVersion) × (depth : ℕ) × (stream : List AnyUpdate)
            × IsSeated version depth stream self.now }
        ensures { result ≡ refusal_at (weight_in weights.now) number self.now }
    {
        match &self.question {
            Question::Query(query) => {
                if is_too_wide(query, &self.running) {
                    return Some(Status::TooWide { query: number });
                }
                None
            }
            Question::Lookup(_) => None,
            Question::Moment(moment) => {
                if is_too_high(weights.of(moment.side), moment.degree) {
                    return Some(Status::TooHigh { query: number });
                }
                None
            }
            Question::Large(large) => {
                if is_too_many(large, &self.running) {
                    return Some(Status::TooWide { query: number });
                }
                None
            }
        }
    }
}
