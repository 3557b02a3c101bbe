//! Adds the next part of a stream to a sketch.

ghost use Rattle.std.specs.Prelude.{◌≡◌, ◌≤◌, ◌==◌, ◌&&◌, ◌++◌, List, None, Some, IfOk, IfErr};
ghost use Rattle.std.specs.Prelude.{OnErr, OnOk, bytes_eq};
ghost use Rattle.std.specs.Cmp.Lexicographic.{pointwise};
ghost use Rattle.std.specs.List.{AllZip};
ghost use Rattle.sip_vector.specs.Streams.{most_weight};
ghost use Rattle.sip_vector.specs.declared.update.Update.{Update as AnyUpdate};
ghost use Rattle.sip_sketch.specs.Joining.{added, added_seats, any_used, same_seat, same_shape};
ghost use Rattle.sip_sketch.specs.Joining.{is_whole, unlike};
ghost use Rattle.sip_sketch.specs.Standing.{Stands};
ghost use Rattle.sip_sketch.specs.inside.Adding.{AddUp};

use crate::reading::MOST_WEIGHT;
use crate::{Parts, Sketch, SketchSeat, Unlike};
use sip_field::{Field, M61, Seat};
use sip_vector::{CAP, Depth, Side, Tally};

// Whether two seats have the same challenges.
fn same_block(one: &Seat<M61, CAP>, other: &Seat<M61, CAP>) -> bool
    ensures { result ≡ bytes_eq one.now other.now }
{
    if one.depth() != other.depth() {
        return false;
    }
    for level in 0..one.depth() {
        if one.at(level + 1).number() != other.at(level + 1).number() {
            return false;
        }
    }
    true
}

// Whether two seats serve the same, at the same challenges.
fn same_seat(one: &SketchSeat, other: &SketchSeat) -> bool
    ensures { result ≡ same_seat one.now other.now }
{
    one.kind.code() == other.kind.code() && same_block(one.block(), other.block())
}

// Whether all of them do, each with the one at its place.
fn same_seats(ones: &[SketchSeat], others: &[SketchSeat]) -> bool
    ensures { result ≡ pointwise same_seat ones.now others.now }
{
    if ones.len() != others.len() {
        return false;
    }
    for index in 0..ones.len() {
        if !same_seat(&ones[index], &others[index]) {
            return false;
        }
    }
    true
}

/// Whether a question has used one of them.
pub(crate) fn any_used(seats: &[SketchSeat]) -> bool
    ensures { result ≡ any_used seats.now }
{
    seats.iter().any(|seat| seat.is_used())
}

/// Whether all parts are in.
pub(crate) fn is_whole(parts: &Parts) -> bool
    ensures { result ≡ is_whole parts.now }
{
    parts.first == 1 && parts.last == parts.count
}

/// Adds up the numbers of seats, each with the one at its place.
pub(crate) fn add_seats(seats: &mut [SketchSeat], others: &[SketchSeat])
    requires { AllZip AddUp seats.old others.now }
    ensures { seats.new ≡ added_seats seats.old others.now }
{
    for index in 0..seats.len() {
        seats[index].absorb(&others[index]);
    }
}

// Whether the depth, the number of parts and the seats are the same.
fn has_shape(depth: Depth, parts: &Parts, seats: &[SketchSeat], part: &Sketch) -> bool
    ensures { result ≡ ((depth == part.now.depth) && ((parts.now.count == part.now.parts.count)
        && pointwise same_seat seats.now part.now.seats)) }
{
    depth.get() == part.depth.get()
        && parts.count == part.parts.count
        && same_seats(seats, &part.seats)
}

/// Why a part is not added to what these are told of and kept of; `None` where it can be.
pub(crate) fn unlike(
    depth: Depth,
    parts: &Parts,
    tally: &Tally,
    seats: &[SketchSeat],
    part: &Sketch,
) -> Option<Unlike>
    requires first { tally.now.first ≤ most_weight }
    requires second { tally.now.second ≤ most_weight }
    ensures { result ≡ unlike (record {
      depth = depth;
      parts = parts.now;
      tally = tally.now;
      seats = seats.now;
    }) part.now }
{
    if !has_shape(depth, parts, seats, part) {
        return Some(Unlike::Shape);
    }
    if is_whole(&part.parts) {
        return Some(Unlike::Whole);
    }
    if any_used(&part.seats) {
        return Some(Unlike::UsedSeat);
    }
    if u64::from(part.parts.first) != u64::from(parts.last) + 1 {
        return Some(Unlike::NotNext);
    }
    if tally.first + part.tally.first > MOST_WEIGHT {
        return Some(Unlike::Heavy(Side::First));
    }
    if tally.second + part.tally.second > MOST_WEIGHT {
        return Some(Unlike::Heavy(Side::Second));
    }
    None
}

impl Sketch {
    /// Whether the depth, the number of parts and the seats are the same.
    pub(crate) fn has_shape_of(&self, part: &Sketch) -> bool
        ensures { result ≡ same_shape self.now part.now }
    {
        has_shape(self.depth, &self.parts, &self.seats, part)
    }

    // Why a part is not added; `None` where it can be.
    fn unlike(&self, part: &Sketch) -> Option<Unlike>
        ensures { result ≡ unlike self.now part.now }
    {
        unlike(self.depth, &self.parts, &self.tally, &self.seats, part)
    }

    /// Adds the next part of the stream, which another collector kept at the same challenges: its
    /// records, weights, negatives and fingerprint, and the numbers of each seat that is not used.
    ///
    /// One addition for each number. No memory.
    ///
    /// # Errors
    ///
    /// The first reason of [`Unlike`], in its order, that there is. The sketch is unchanged then.
    pub fn absorb(&mut self, other: &Sketch) -> Result<(), Unlike>
        ensures free { IfOk result (λ _. unlike self.old other.now ≡ None) }
        ensures why { IfErr result (λ why. unlike self.old other.now ≡ Some why) }
        ensures added { OnOk result (self.new ≡ added self.old other.now) }
        ensures stands { OnOk result ((stream more : List AnyUpdate) → Stands stream self.old
            → Stands more other.now → Stands (stream ++ more) self.new) }
        ensures refused { OnErr result (self.new ≡ self.old) }
    {
        if let Some(why) = self.unlike(other) {
            return Err(why);
        }
        self.parts.last = other.parts.last;
        self.tally.absorb(&other.tally);
        add_seats(&mut self.seats, &other.seats);
        Ok(())
    }
}
