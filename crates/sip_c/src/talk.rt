//! The talk of one question of a run.

ghost use Rattle.std.specs.Prelude.{◌≡◌, ◌≤◌, [], IfErr, IfOk};
ghost use Rattle.sip_wire.specs.Versions.{deepest};
ghost use Rattle.sip_runs.specs.Seats.{IsSeated};
ghost use Rattle.sip_steps.specs.Questioned.{IsAskedOf, about, pairs_of};
ghost use Rattle.sip_c.specs.Talks.{AnswersBy, EndsBy, IsNextNumber, IsSettled, TalkCloses};
ghost use Rattle.sip_c.specs.Talks.{TalkDue, TalkFeeds, talk_wants};
ghost use Rattle.sip_c.specs.declared.refusal.Refusal.TheVariants as refusals;

use crate::answers::{AnswerCode, told_of};
use crate::ending::{Ending, rejected};
use crate::refusal::Refusal;
use crate::room::{MOST_DUE, Room};
use sip_questions::QuestionGiven;
use sip_runs::RunSeat;
use sip_steps::QuestionAsking;
use sip_vector::{Depth, Entry};
use sip_verifier::Unanswered;
use sip_wire::Version;
use std::alloc::Global;

/// The talk of one question, with its number among those of its run, from 1.
#[derive(Drop)]
pub struct Talk {
    number: u8,
    asking: QuestionAsking,
    // What is known of it.
    said: Option<Result<QuestionGiven, Unanswered>>,
}

impl Talk {
    /// Before anything was said.
    pub(crate) fn begin(
        alloc: Global,
        version: Version,
        depth: Depth,
        number: u8,
        seat: RunSeat,
    ) -> Result<Talk, Refusal>
        requires shallow { depth ≤ deepest version }
        requires seated { (stream : _) × IsSeated version depth stream seat }
        ensures settled { IfOk result IsSettled }
        ensures number { IfOk result (λ a. a.number ≡ number) }
        ensures asked { IfOk result (λ a. IsAskedOf (about version depth seat.question
            seat.running) [] a.asking) }
        ensures why { IfErr result (λ why. why ≡ refusals.NoMemory) }
    {
        let question = seat.question();
        let running = seat.into_running();
        match QuestionAsking::begin(alloc, version, depth, question, running) {
            Ok(asking) => {
                let said = asking.verdict();
                Ok(Talk {
                    number,
                    asking,
                    said,
                })
            }
            Err(_) => Err(Refusal::NoMemory),
        }
    }

    /// The number of what is wanted.
    pub(crate) fn wants(&self) -> u8
        ensures { result ≡ talk_wants self.now self.now.said }
    {
        match self.said {
            None => { if self.asking.is_due() { 1 } else { 2 } }
            Some(Ok(_)) => 4,
            Some(Err(_)) => 5,
        }
    }

    /// Hands out the bytes that are due, and their number; the most that it may be where there is
    /// no room for so many.
    pub(crate) fn due(&mut self, to: &mut [u8], count: &mut usize) -> Result<(), Refusal>
        requires settled { IsSettled self.old }
        ensures settled { IsSettled self.new }
        ensures due { TalkDue to.old to.new count.new self.old result self.new }
    {
        if to.len() < MOST_DUE {
            *count = MOST_DUE;
            return Err(Refusal::NoRoom);
        }
        let mut out = Room::<MOST_DUE>::new();
        match self.asking.due(&mut out) {
            Ok(()) => {
                out.hand_out(to, count);
                self.said = self.asking.verdict();
                Ok(())
            }
            Err(_) => {
                *count = MOST_DUE;
                Err(Refusal::NoRoom)
            }
        }
    }

    /// Takes bytes that came, and says how many.
    pub(crate) fn feed(&mut self, bytes: &[u8], taken: &mut usize) -> Result<(), Refusal>
        requires settled { IsSettled self.old }
        ensures settled { IsSettled self.new }
        ensures fed { TalkFeeds bytes.now taken.new self.old result self.new }
    {
        *taken = self.asking.feed(bytes);
        self.said = self.asking.verdict();
        Ok(())
    }

    /// The other end closed.
    pub(crate) fn close(&mut self) -> Result<(), Refusal>
        requires settled { IsSettled self.old }
        ensures settled { IsSettled self.new }
        ensures closed { TalkCloses self.old result self.new }
    {
        self.asking.close();
        self.said = self.asking.verdict();
        Ok(())
    }

    /// Tells the answer, once there is one.
    pub(crate) fn answer(&self, told: &mut AnswerCode) -> Result<(), Refusal>
        ensures { AnswersBy told.old told.new self.now self.now.said result }
    {
        match self.said {
            Some(Ok(given)) => {
                *told = told_of(self.number, self.asking.pairs().len(), given);
                Ok(())
            }
            _ => Err(Refusal::NotNow),
        }
    }

    /// The pairs of the answer; none where there is none, or another one.
    pub(crate) fn pairs(&self) -> &[Entry]
        ensures { result.now ≡ pairs_of self.now.asking }
    {
        self.asking.pairs()
    }

    /// The number of the next question, where this one was answered.
    pub(crate) fn next_number(&self) -> Option<u8>
        ensures { IsNextNumber self.now.number self.now.said result }
    {
        match self.said {
            Some(Ok(_)) => Some(self.number.saturating_add(1)),
            _ => None,
        }
    }

    /// Tells why there is no answer, where the replies have a fault.
    pub(crate) fn ended(&self, told: &mut Ending) -> Result<(), Refusal>
        ensures { EndsBy told.old told.new self.now.number self.now.said result }
    {
        match self.said {
            Some(Err(Unanswered::Rejected { round, reason })) => {
                *told = rejected(self.number, round, reason);
                Err(Refusal::Rejected)
            }
            _ => Err(Refusal::NotNow),
        }
    }
}
