//! How a sketch begins to be asked without a link.

ghost use Rattle.std.specs.Prelude.{◌≡◌, ◌≤◌, IfOk, IsTrue, None, Ok, length, true};
ghost use Rattle.sip_wire.specs.Table.{most_queries};
ghost use Rattle.sip_wire.specs.Versions.{deepest};
ghost use Rattle.sip_questions.specs.Promises.{CanPose};
ghost use Rattle.sip_questions.specs.Questions.{version_for};
ghost use Rattle.sip_sketch.specs.Sketches.{IsSketch};
ghost use Rattle.sip_ask.specs.Choosing.{choice, fits, is_idle};
ghost use Rattle.sip_ask.specs.inside.Seating.{Takes};
ghost use Rattle.sip_ask.specs.inside.Steps.{IsIdle};
ghost use Rattle.sip_ask_steps.specs.Plans.{Plan, plan_of, version_of};
ghost use Rattle.sip_ask_steps.specs.Steps.{AreTurns, Begins, IsTurn};

use crate::machine::SketchAsking;
use crate::step::Step;
use crate::turn::Turn;
use sip_ask::{AskStatus, Places, choose, version_for, weight_of};
use sip_field::OutOfMemory;
use sip_questions::{Question, QuestionGiven};
use sip_sketch::Sketch;
use sip_steps::QuestionAsking;
use sip_wire::{Frame, Version};
use std::alloc::Global;

// The turn of a question that takes no seat.
fn idle(question: Question) -> Turn
    requires { IsIdle question }
    ensures { (p : Plan) → is_idle p.sketch.tally question ≡ true → IsTurn p question None result }
{
    match question {
        Question::Query(query) => Turn::Idle {
            given: QuestionGiven::Pairs { query },
        },
        Question::Large(large) => Turn::Idle {
            given: QuestionGiven::Large { large },
        },
        _ => unreachable!(),
    }
}

// The turn of a question that takes the seat at this place, if it takes one.
fn turn_of(
    alloc: Global,
    version: Version,
    sketch: &Sketch,
    question: Question,
    place: Option<usize>,
) -> Result<Turn, OutOfMemory>
    requires is { IsSketch sketch.now }
    requires takes { Takes sketch.now question place }
    requires fits { IsTrue (fits sketch.now.depth question) }
    requires shallow { sketch.now.depth ≤ deepest version }
    requires can { CanPose version sketch.now.depth question }
    ensures { (p : Plan) → p.sketch ≡ sketch.now → version ≡ version_of p
        → IfOk result (IsTurn p question place) }
{
    let Some(place) = place else {
        return Ok(idle(question));
    };
    let seat = &sketch.seats()[place];
    let weight = weight_of(&sketch.tally(), seat.kind().side());
    let running = seat.running(weight);
    let asking = QuestionAsking::begin(alloc, version, sketch.depth(), question, running)?;
    Ok(Turn::Takes { place, asking })
}

// The turns of all questions.
fn turns_for(
    alloc: Global,
    version: Version,
    sketch: &Sketch,
    questions: &[Question],
    places: &Places,
) -> Result<Vec<Turn>, OutOfMemory>
    requires is { IsSketch sketch.now }
    requires version { version ≡ version_for sketch.now.depth questions.now }
    requires chosen { choice sketch.now questions.now ≡ Ok places.now.items }
    ensures turns { IfOk result (λ turns.
        AreTurns (plan_of sketch.now questions.now places.now.items) questions.now
        places.now.items turns.items) }
    ensures few { IfOk result (λ turns. length turns.items ≤ length questions.now) }
{
    let Ok(mut turns) = Vec::with_capacity(alloc, places.len()) else {
        return Err(OutOfMemory);
    };
    for (index, place) in places.iter().enumerate() {
        let turn = turn_of(alloc, version, sketch, questions[index], *place)?;
        let Ok(()) = turns.push(turn) else {
            return Err(OutOfMemory);
        };
    }
    Ok(turns)
}

impl SketchAsking {
    /// Before anything is done: what a talk begins with is due. No seat is used by that.
    ///
    /// All memory is taken here, and none after: a frame of 8,709 bytes, the file, and for each
    /// question that takes a seat that of [`QuestionAsking::begin`].
    ///
    /// # Errors
    ///
    /// Those of [`choose`], in its order; `OutOfMemory` where there is none for these.
    pub fn begin(
        alloc: Global,
        sketch: Sketch,
        questions: &[Question],
    ) -> Result<SketchAsking, AskStatus>
        requires is { IsSketch sketch }
        requires most { length questions.now ≤ most_queries }
        ensures { Begins sketch questions.now result }
    {
        let places = choose(&sketch, questions)?;
        let version = version_for(&sketch, questions);
        let Ok(left) = turns_for(alloc, version, &sketch, questions, &places) else {
            return Err(AskStatus::OutOfMemory);
        };
        let Ok(file) = Vec::with_capacity(alloc, sketch.size()) else {
            return Err(AskStatus::OutOfMemory);
        };
        let Ok(frame) = Frame::new(alloc) else {
            return Err(AskStatus::OutOfMemory);
        };
        Ok(SketchAsking {
            version,
            sketch,
            file,
            frame,
            left,
            number: 0,
            step: Step::Opening,
        })
    }
}
