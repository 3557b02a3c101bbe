//! How one question follows another.

ghost use Rattle.std.specs.Prelude.{◌≡◌, ◌≢◌, ◌≤◌, ◌<◌, ◌++◌, [], List, length, false, true};
ghost use Rattle.std.specs.Prelude.{Err, IfNone, option_to_list, vec_capacity};
ghost use Rattle.sip_ports.specs.declared.port.TalkEvent.{TalkEvent as AnyEvent};
ghost use Rattle.sip_verifier.specs.runs.Askers.{has_failed};
ghost use Rattle.sip_questions.specs.declared.asker.QuestionGiven.{QuestionGiven};
ghost use Rattle.sip_sketch.specs.Sketches.{size_of, spelled_file};
ghost use Rattle.sip_ask.specs.Marking.{mark};
ghost use Rattle.sip_ask_steps.specs.Plans.{Plan};
ghost use Rattle.sip_ask_steps.specs.Steps.{IsDone, Settles, Turns, at_step, is_hearing_at};
ghost use Rattle.sip_ask_steps.specs.Steps.{stopped_by};
ghost use Rattle.sip_ask_steps.specs.Steps.{wants_at, wants_of};
ghost use Rattle.sip_ask_steps.specs.declared.wants.Wants.TheVariants as wants;

use crate::machine::SketchAsking;
use crate::step::Step;
use crate::turn::Turn;
use sip_ask::AskStatus;
use sip_sketch::Sketch;
use sip_verifier::Unanswered;
use std::mem;

// How asking ends where the question with this number has no answer.
fn stopped_by(number: u8, why: Unanswered) -> AskStatus
    requires { has_failed {G = QuestionGiven} (Err why) ≡ false }
    ensures { result ≡ stopped_by number why }
{
    match why {
        Unanswered::Rejected { round, reason } => AskStatus::Rejected {
            query: number,
            round,
            reason,
        },
        // It comes on links alone.
        Unanswered::Fault(_) => unreachable!(),
    }
}

// Marks the seat at a place used, and writes the file of that, for which there is room.
fn mark(sketch: &mut Sketch, place: usize, file: &mut Vec<u8>)
    requires place { place < length sketch.old.seats }
    requires room { size_of sketch.old ≤ vec_capacity file.old }
    ensures sketch { sketch.new ≡ mark place sketch.old }
    ensures file { file.new.items ≡ spelled_file sketch.new }
    ensures room { size_of sketch.new ≤ vec_capacity file.new }
{
    sketch.mark(place);
    if sketch.write(file).is_err() {
        unreachable!()
    }
}

// The first of the turns that are left, which is none of them any more.
fn first_of(left: &mut Vec<Turn>) -> Option<Turn>
    ensures order { left.old.items ≡ option_to_list result ++ left.new.items }
    ensures none { IfNone result (left.old.items ≡ []) }
{
    if left.is_empty() {
        return None;
    }
    Some(left.remove(0))
}

impl SketchAsking {
    // It is at this step, and nothing else changed.
    #[inline]
    pub(crate) fn go(&mut self, step: Step)
        ensures { self.new ≡ at_step self.old step }
    {
        self.step = step;
    }

    /// The next question has its turn; behind the last one the farewell is due.
    pub(crate) fn turn(&mut self)
        requires turns { (p : Plan) × (events : List AnyEvent) × Turns p events self.old }
        ensures done { (p : Plan) (events : List AnyEvent) → Turns p events self.old
            → IsDone p events self.new }
        ensures wants { wants_at self.new.step ≡ wants_of self.old.left.items }
        ensures silent { is_hearing_at self.new.step ≡ false }
    {
        let Some(turn) = first_of(&mut self.left) else {
            self.go(Step::Leaving);
            return;
        };
        self.number += 1;
        match turn {
            Turn::Idle { given } => self.go(Step::Idle { given }),
            Turn::Takes { place, asking } => {
                mark(&mut self.sketch, place, &mut self.file);
                self.go(Step::Storing { asking });
            }
        }
    }

    /// Sees what came of the question at hand. Behind a rejection nothing more is wanted.
    pub(crate) fn settle(&mut self)
        requires settles { (p : Plan) × (events : List AnyEvent) × Settles p events self.old }
        ensures done { (p : Plan) (events : List AnyEvent) → Settles p events self.old
            → IsDone p events self.new }
        ensures hearing { is_hearing_at self.new.step ≡ true
            → is_hearing_at self.old.step ≡ true }
        ensures due { wants_at self.new.step ≡ wants.Due → wants_at self.old.step ≡ wants.Due }
        ensures on { wants_at self.new.step ≢ wants.Stores }
    {
        let Step::Asking { asking } = &self.step else {
            unreachable!()
        };
        let Some(said) = asking.verdict() else {
            return;
        };
        let Step::Asking { asking } = mem::replace(&mut self.step, Step::Leaving) else {
            unreachable!()
        };
        match said {
            Ok(given) => self.go(Step::Answered { given, asking }),
            Err(why) => self.go(Step::Ended(stopped_by(self.number, why))),
        }
    }
}
