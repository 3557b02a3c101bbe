//! Adds the next part of a stream to a sketch.

ghost use Rattle.sip_c.specs.Absorbing.{Absorbs, IsFor};
ghost use Rattle.sip_c.specs.declared.refusal.Refusal.{Refusal as AnyRefusal};

use crate::refusal::Refusal;
use sip_sketch::{Sketch, Unlike};

// The refusal of a part for this reason.
fn refusal_of(reason: Unlike) -> Refusal
    requires { (why : AnyRefusal) × IsFor reason why }
    ensures { IsFor reason result }
{
    match reason {
        Unlike::Shape => Refusal::OtherShape,
        Unlike::Whole => Refusal::Whole,
        Unlike::UsedSeat => Refusal::UsedSeat,
        Unlike::NotNext => Refusal::NotNext,
        Unlike::Heavy(_) => Refusal::TooHeavy,
        Unlike::Missing | Unlike::Fewer => unreachable!(),
    }
}

/// Adds the next part of the stream to a sketch.
pub(crate) fn absorb(sketch: &mut Sketch, part: &Sketch) -> Result<(), Refusal>
    ensures { Absorbs part.now sketch.old result sketch.new }
{
    match sketch.absorb(part) {
        Ok(()) => Ok(()),
        Err(reason) => Err(refusal_of(reason)),
    }
}
