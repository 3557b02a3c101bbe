//! Tells what a sketch is, but for its secrets.

ghost use Rattle.std.specs.Prelude.{◌≡◌};
ghost use Rattle.sip_c.specs.Telling.{TellsSeat, told_of};

use crate::refusal::Refusal;
use sip_sketch::Sketch;

/// What is told of a sketch.
#[repr(C)]
#[derive(Clone, Copy, Debug, PartialEq, Eq)]
pub struct SketchTold {
    /// How many records came.
    pub records: u64,
    /// The weight of side 0: the sum of the sizes of its deltas.
    pub weight_0: u64,
    /// The weight of side 1.
    pub weight_1: u64,
    /// The fingerprint of the stream.
    pub fingerprint: u64,
    /// How many parts there are.
    pub parts: u32,
    /// The first part that is in, from 1.
    pub first_part: u32,
    /// The last part that is in.
    pub last_part: u32,
    /// How many seats there are.
    pub seats: u32,
    /// The depth.
    pub depth: u8,
    /// Whether a record of side 0 had a delta below 0.
    pub negative_0: bool,
    /// Whether a record of side 1 had one.
    pub negative_1: bool,
}

/// What is told of a sketch.
pub(crate) fn told_of(sketch: &Sketch) -> SketchTold
    ensures { result ≡ told_of sketch.now }
{
    let parts = sketch.parts();
    let tally = sketch.tally();
    SketchTold {
        records: tally.count,
        weight_0: tally.first,
        weight_1: tally.second,
        fingerprint: tally.fingerprint.get(),
        parts: parts.count,
        first_part: parts.first,
        last_part: parts.last,
        seats: sketch.seats().len() as u32,
        depth: sketch.depth().get(),
        negative_0: tally.negatives.first,
        negative_1: tally.negatives.second,
    }
}

/// What the seat at this place serves, and whether a question has used it.
pub(crate) fn tell_seat(
    sketch: &Sketch,
    place: usize,
    kind: &mut u8,
    is_used: &mut bool,
) -> Result<(), Refusal>
    ensures { TellsSeat place kind.old kind.new is_used.old is_used.new sketch.now result
        sketch.now }
{
    let seats = sketch.seats();
    if place >= seats.len() {
        return Err(Refusal::BadLength);
    }
    *kind = seats[place].kind().code();
    *is_used = seats[place].is_used();
    Ok(())
}
