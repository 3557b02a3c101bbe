//! A sketch that is asked without a link: what it has, and what is seen of it.

ghost use Rattle.std.specs.Prelude.{◌≡◌, ℕ, List, IfSome, true};
ghost use Rattle.sip_ports.specs.declared.port.TalkEvent.{TalkEvent as AnyEvent};
ghost use Rattle.sip_ask_steps.specs.Plans.{Plan};
ghost use Rattle.sip_ask_steps.specs.Steps.{IsDone, answer_at, file_at, is_hearing_at, pairs_at};
ghost use Rattle.sip_ask_steps.specs.Steps.{wants_at};
ghost use Rattle.sip_ask_steps.specs.Told.{IsTold};
ghost use Rattle.sip_ask_steps.specs.declared.wants.Wants.TheVariants as wants;

use crate::step::Step;
use crate::turn::Turn;
use crate::wants::Wants;
use sip_questions::QuestionGiven;
use sip_sketch::Sketch;
use sip_vector::Entry;
use sip_wire::{Frame, Version};

/// A sketch that is asked some questions, by whoever has a loop and a disk of their own.
///
/// A caller does what is [wanted](SketchAsking::wants), again and again, until it ended: it sends
/// what is [`due`](SketchAsking::due), [feeds](SketchAsking::feed) what comes, stores the file
/// [`to_store`](SketchAsking::to_store) and says so by [`stored`](SketchAsking::stored), reads an
/// [`answer`](SketchAsking::answer) and goes on by [`next`](SketchAsking::next).
///
/// A question's seat is used in the file that is stored before a byte of the question is due. Until
/// `stored` is called nothing of it is lost: the machine may be dropped, and the seat serves
/// another time. To call `stored` before a crash can no longer undo the storing breaks the one rule
/// that a sketch has, that no seat serves two questions.
///
/// Memory is taken by [`begin`](SketchAsking::begin) alone.
#[derive(Drop)]
pub struct SketchAsking {
    pub(crate) version: Version,
    pub(crate) sketch: Sketch,
    pub(crate) file: Vec<u8>,
    pub(crate) frame: Frame,
    // Those of the questions behind the one at hand.
    pub(crate) left: Vec<Turn>,
    // Of the question at hand; 0 before the first.
    pub(crate) number: u8,
    pub(crate) step: Step,
}

impl SketchAsking {
    /// What is wanted now: it waits exactly where bytes are to come.
    pub fn wants(&self) -> Wants
        ensures is { result ≡ wants_at self.now.step }
        ensures waits { (p : Plan) (events : List AnyEvent) → IsDone p events self.now
            → result ≡ wants.Waits → is_hearing_at self.now.step ≡ true }
        ensures hears { is_hearing_at self.now.step ≡ true → result ≡ wants.Waits }
    {
        match &self.step {
            Step::Opening | Step::Leaving => Wants::Due,
            Step::Hearing => Wants::Waits,
            Step::Storing { .. } => Wants::Stores,
            Step::Asking { asking } => {
                if asking.is_due() {
                    Wants::Due
                } else {
                    Wants::Waits
                }
            }
            Step::Answered { .. } | Step::Idle { .. } => Wants::Answers,
            Step::Ended(status) => Wants::Ended(*status),
        }
    }

    /// The file that is to be stored, where one is: that of the sketch with the seat of the next
    /// question used, and those of the questions before it.
    pub fn to_store(&self) -> &[u8]
        ensures { result.now ≡ file_at self.now self.now.step }
    {
        match &self.step {
            Step::Storing { .. } => &self.file,
            _ => &[],
        }
    }

    /// The answer to the question at hand, with its number from 1, once it was accepted.
    pub fn answer(&self) -> Option<(u8, QuestionGiven)>
        ensures is { result ≡ answer_at self.now.number self.now.step }
        ensures told { (p : Plan) (events : List AnyEvent) → IsDone p events self.now
            → IfSome result (λ x. IsTold p events (pairs_at self.now.step) x.0 x.1) }
    {
        match &self.step {
            Step::Answered { given, .. } | Step::Idle { given } => Some((self.number, *given)),
            _ => None,
        }
    }

    /// The pairs that answer a query, rising; none where the answer is another one.
    pub fn pairs(&self) -> &[Entry]
        ensures { result.now ≡ pairs_at self.now.step }
    {
        match &self.step {
            Step::Answered { asking, .. } => asking.pairs(),
            _ => &[],
        }
    }
}
