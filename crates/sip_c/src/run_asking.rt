//! A run whose questions are asked, behind its stream.

ghost use Rattle.std.specs.Prelude.{◌≡◌, IfErr, IfOk};
ghost use Rattle.sip_runs.specs.Runs.{IsToBeAsked};
ghost use Rattle.sip_c.specs.RunAsking.{AnswersAt, CopiesAt, IsRunAsked, IsSettledAt};
ghost use Rattle.sip_c.specs.RunAsking.{RunAskingCloses, RunAskingDue, RunAskingFeeds, RunGoes};
ghost use Rattle.sip_c.specs.RunAsking.{StepEnds, TurnsTo, step_wants};
ghost use Rattle.sip_c.specs.declared.refusal.Refusal.TheVariants as refusals;

use crate::answers::{AnswerCode, EntryCode, copy};
use crate::ending::{Ending, plain};
use crate::refusal::Refusal;
use crate::room::{MOST_DUE, Room};
use crate::talk::Talk;
use sip_runs::ToAsk;
use std::alloc::Global;

/// Where asking is.
#[derive(Drop)]
pub enum RunStep {
    /// A question is at hand.
    Question(Talk),
    /// All were answered, and the farewell is due.
    Leaving,
    /// It was said.
    Left,
    /// Memory was refused for a question.
    Stopped,
}

/// The questions of a run, of which one is asked.
#[derive(Drop)]
pub struct RunAsking {
    left: ToAsk,
    step: RunStep,
}

// The next question of those that are left, which has this number, or the farewell.
fn turn(alloc: Global, number: u8, left: &mut ToAsk) -> Result<RunStep, Refusal>
    requires run { (p : _) × (stream : _) × IsToBeAsked p stream left.old }
    ensures run { (p : _) × (stream : _) × IsToBeAsked p stream left.new }
    ensures settled { IfOk result IsSettledAt }
    ensures turns { IfOk result (TurnsTo number left.old left.new) }
    ensures why { IfErr result (λ why. why ≡ refusals.NoMemory) }
{
    let (version, depth) = (left.version(), left.depth());
    let Some(seat) = left.next() else {
        return Ok(RunStep::Leaving);
    };
    let talk = Talk::begin(alloc, version, depth, number, seat)?;
    Ok(RunStep::Question(talk))
}

impl RunAsking {
    /// Begins with the first question.
    pub(crate) fn begin(alloc: Global, left: ToAsk) -> Result<RunAsking, Refusal>
        requires run { (p : _) × (stream : _) × IsToBeAsked p stream left }
        ensures begun { IfOk result IsRunAsked }
        ensures turns { IfOk result (λ a. TurnsTo 1 left a.left a.step) }
        ensures why { IfErr result (λ why. why ≡ refusals.NoMemory) }
    {
        let mut left = left;
        let step = turn(alloc, 1, &mut left)?;
        Ok(RunAsking { left, step })
    }

    /// The answer was read: the next question has its turn.
    pub(crate) fn next(&mut self, alloc: Global) -> Result<(), Refusal>
        requires begun { IsRunAsked self.old }
        ensures begun { IsRunAsked self.new }
        ensures goes { RunGoes self.old result self.new }
    {
        let RunStep::Question(talk) = &self.step else {
            return Err(Refusal::NotNow);
        };
        let Some(number) = talk.next_number() else {
            return Err(Refusal::NotNow);
        };
        // What the question before had is given back first.
        self.step = RunStep::Stopped;
        self.step = turn(alloc, number, &mut self.left)?;
        Ok(())
    }

    /// The number of what is wanted.
    pub(crate) fn wants(&self) -> u8
        ensures { result ≡ step_wants self.now.step }
    {
        match &self.step {
            RunStep::Question(talk) => talk.wants(),
            RunStep::Leaving => 1,
            RunStep::Left | RunStep::Stopped => 5,
        }
    }

    // Hands out the farewell.
    fn leave(&mut self, to: &mut [u8], count: &mut usize) -> Result<(), Refusal>
        requires leaving { self.old.step ≡ RunStep.Leaving }
        ensures due { RunAskingDue to.old to.new count.new self.old result self.new }
        ensures settled { IsSettledAt self.new.step }
    {
        if to.len() < MOST_DUE {
            *count = MOST_DUE;
            return Err(Refusal::NoRoom);
        }
        let mut out = Room::<MOST_DUE>::new();
        match self.left.say_farewell(&mut out) {
            Ok(()) => {
                out.hand_out(to, count);
                self.step = RunStep::Left;
                Ok(())
            }
            Err(_) => {
                *count = MOST_DUE;
                Err(Refusal::NoRoom)
            }
        }
    }

    /// Hands out the bytes that are due, and their number; the most that it may be where there is
    /// no room for so many.
    pub(crate) fn due(&mut self, to: &mut [u8], count: &mut usize) -> Result<(), Refusal>
        requires begun { IsRunAsked self.old }
        ensures begun { IsRunAsked self.new }
        ensures due { RunAskingDue to.old to.new count.new self.old result self.new }
    {
        match &mut self.step {
            RunStep::Question(talk) => talk.due(to, count),
            RunStep::Leaving => self.leave(to, count),
            RunStep::Left | RunStep::Stopped => {
                *count = 0;
                Ok(())
            }
        }
    }

    /// Takes bytes that came, and says how many.
    pub(crate) fn feed(&mut self, bytes: &[u8], taken: &mut usize) -> Result<(), Refusal>
        requires begun { IsRunAsked self.old }
        ensures begun { IsRunAsked self.new }
        ensures fed { RunAskingFeeds bytes.now taken.new self.old result self.new }
    {
        match &mut self.step {
            RunStep::Question(talk) => talk.feed(bytes, taken),
            _ => {
                *taken = 0;
                Ok(())
            }
        }
    }

    /// The other end closed.
    pub(crate) fn close(&mut self) -> Result<(), Refusal>
        requires begun { IsRunAsked self.old }
        ensures begun { IsRunAsked self.new }
        ensures closed { RunAskingCloses self.old result self.new }
    {
        match &mut self.step {
            RunStep::Question(talk) => talk.close(),
            _ => Ok(()),
        }
    }

    /// Tells the answer to the question at hand.
    pub(crate) fn answer(&self, told: &mut AnswerCode) -> Result<(), Refusal>
        ensures { AnswersAt told.old told.new self.now.step result }
    {
        match &self.step {
            RunStep::Question(talk) => talk.answer(told),
            _ => Err(Refusal::NotNow),
        }
    }

    /// Copies pairs of the answer from a place on.
    pub(crate) fn pairs(&self, from: usize, to: &mut [EntryCode], count: &mut usize)
        ensures { CopiesAt from to.old to.new count.new self.now.step }
    {
        *count = match &self.step {
            RunStep::Question(talk) => copy(talk.pairs(), from, to),
            _ => copy(&[], from, to),
        };
    }

    /// Tells how it ended, once it has.
    pub(crate) fn ended(&self, told: &mut Ending) -> Result<(), Refusal>
        ensures { StepEnds told.old told.new self.now.step result }
    {
        match &self.step {
            RunStep::Question(talk) => talk.ended(told),
            RunStep::Leaving => Err(Refusal::NotNow),
            RunStep::Left => {
                *told = plain();
                Ok(())
            }
            RunStep::Stopped => {
                *told = plain();
                Err(Refusal::NoMemory)
            }
        }
    }
}
