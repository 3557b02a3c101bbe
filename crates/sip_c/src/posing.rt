//! Begins to ask a sketch.

ghost use Rattle.std.specs.Prelude.{◌≡◌, ◌⊎◌, IfErr, IfOk};
ghost use Rattle.sip_ask_steps.specs.Steps.{HasBegun};
ghost use Rattle.sip_c.specs.Posing.{AreSome, IsAsked, IsCopy, StandsAgainst};
ghost use Rattle.sip_c.specs.declared.refusal.Refusal.TheVariants as refusals;

use crate::ending::{Ending, ending_of, refusal_of};
use crate::questions::{QuestionCode, questions_of};
use crate::refusal::Refusal;
use sip_ask_steps::SketchAsking;
use sip_sketch::{Sketch, SketchFault};
use sip_wire::MOST_QUERIES;
use std::alloc::Global;

// A copy of a sketch: what is read of its file.
fn copied(alloc: Global, sketch: &Sketch) -> Result<Sketch, Refusal>
    ensures copy { IfOk result (IsCopy sketch.now) }
    ensures why { IfErr result (λ why. (why ≡ refusals.NoMemory) ⊎ (why ≡ refusals.BadSketch)) }
{
    let mut file = Vec::new(alloc);
    if sketch.write(&mut file).is_err() {
        return Err(Refusal::NoMemory);
    }
    match Sketch::read(alloc, &file) {
        Ok(copy) => Ok(copy),
        Err(SketchFault::OutOfMemory) => Err(Refusal::NoMemory),
        // No sketch has a file that is none.
        Err(SketchFault::Bad { .. }) => Err(Refusal::BadSketch),
    }
}

/// Begins to ask a copy of a sketch questions, as they are asked by numbers; or tells why it is not
/// asked.
pub(crate) fn pose(
    alloc: Global,
    sketch: &Sketch,
    codes: &[QuestionCode],
    told: &mut Ending,
) -> Result<SketchAsking, Refusal>
    ensures asked { IfOk result (IsAsked sketch.now codes.now) }
    ensures some { IfOk result (λ _. AreSome codes.now) }
    ensures unwritten { IfOk result (λ _. told.new ≡ told.old) }
    ensures why { IfErr result (StandsAgainst sketch.now codes.now told.old told.new) }
{
    if codes.is_empty() || codes.len() > MOST_QUERIES {
        return Err(Refusal::BadLength);
    }
    let Some(questions) = questions_of(codes) else {
        return Err(Refusal::BadCode);
    };
    let copy = copied(alloc, sketch)?;
    match SketchAsking::begin(alloc, copy, &questions) {
        Ok(machine) => Ok(machine),
        Err(status) => {
            *told = ending_of(status);
            Err(refusal_of(status))
        }
    }
}
