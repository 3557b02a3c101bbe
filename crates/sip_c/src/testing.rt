//! Whether updates may come next.

ghost use Rattle.std.specs.Prelude.{◌≡◌, ◌<◌, ◌∷◌, [], length, IfNone, IfSome};
ghost use Rattle.sip_vector.specs.Streams.{weight};
ghost use Rattle.sip_vector.specs.declared.update.Side.TheVariants as sides;
ghost use Rattle.sip_c.specs.Codes.{update_of};
ghost use Rattle.sip_c.specs.Weighing.{CanCome, Fails, IsFirstBad};
ghost use Rattle.sip_c.specs.inside.Testing.{IsNext};

use crate::codes::{Codes, UpdateCode};
use crate::refusal::Refusal;
use sip_vector::{Depth, Side};

/// The greatest weight of a side.
const MOST_WEIGHT: u64 = (1 << 30) - 1;

// How much an update adds to the weight of each side.
fn sizes(code: &UpdateCode) -> (u64, u64)
    ensures first { result.0 ≡ weight (update_of code.now ∷ []) sides.First }
    ensures second { result.1 ≡ weight (update_of code.now ∷ []) sides.Second }
{
    let size = code.delta.unsigned_abs();
    match code.side() {
        Side::First => (size, 0),
        Side::Second => (0, size),
    }
}

// The first test that an update fails at a depth behind updates where the sides have these weights.
fn fault(depth: Depth, first: u64, second: u64, code: &UpdateCode) -> Option<Refusal>
    ensures none { IfNone result (IsNext (record { depth = depth; first = first; second = second })
        code.now) }
    ensures some { IfSome result (Fails (record { depth = depth; first = first; second = second })
        code.now) }
{
    if !code.has_side() {
        return Some(Refusal::BadSide);
    }
    if code.item >= 1 << depth.get() {
        return Some(Refusal::BadItem);
    }
    if code.delta == 0 {
        return Some(Refusal::ZeroDelta);
    }
    let (more, other) = sizes(code);
    if first > MOST_WEIGHT || more > MOST_WEIGHT - first {
        return Some(Refusal::TooHeavy);
    }
    if second > MOST_WEIGHT || other > MOST_WEIGHT - second {
        return Some(Refusal::TooHeavy);
    }
    None
}

/// The index of the first of these that may not come next, where the sides have these weights, and
/// why.
pub(crate) fn first_bad<C: Codes>(
    depth: Depth,
    first: u64,
    second: u64,
    codes: &C,
) -> Option<(usize, Refusal)>
    ensures none { IfNone result (0 < length (C.codes codes.now)
        → CanCome (record { depth = depth; first = first; second = second })
        (C.codes codes.now)) }
    ensures some { IfSome result (λ bad. IsFirstBad (record {
      depth = depth;
      first = first;
      second = second;
    }) (C.codes codes.now) bad.0 bad.1) }
{
    let mut left = first;
    let mut right = second;
    for place in 0..codes.count() {
        let code = codes.at(place);
        if let Some(why) = fault(depth, left, right, &code) {
            return Some((place, why));
        }
        let (more, other) = sizes(&code);
        left += more;
        right += other;
    }
    None
}
