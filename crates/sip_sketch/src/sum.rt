//! The sum of the parts of a stream, in the place of a sketch that there may be.

ghost use Rattle.std.specs.Prelude.{◌≡◌, length, None, Some, option_map, IfErr, IfOk, OnErr, OnOk};
ghost use Rattle.std.specs.declared.option.Option.{Option};
ghost use Rattle.sip_sketch.specs.Joining.{added, unlike};
ghost use Rattle.sip_sketch.specs.Merging.{in_place, lacks, lacks_of, seats_in_place, unfit};
ghost use Rattle.sip_sketch.specs.Merging.{unlike_first};
ghost use Rattle.sip_sketch.specs.Sketches.{IsSketch, SketchValues};
ghost use Rattle.sip_sketch.specs.inside.Merging.{HasSeats, seats_of};

use crate::absorbing::{add_seats, any_used, is_whole, unlike};
use crate::{Parts, Sketch, SketchSeat, Unlike};
use sip_vector::{Depth, Tally};
use std::marker::Model;
use std::mem;

/// What the parts so far add up to, in the place of a sketch whose used seats stay as they were.
///
/// It is no [`Sketch`] until all parts are in: a used seat may have a total that is above the
/// weight of the parts so far. Where there was a sketch its used seats are moved here and the
/// others are let go, so that besides the sum no more than one part takes memory at a time.
#[derive(Drop)]
pub(crate) struct Sum {
    depth: Depth,
    parts: Parts,
    tally: Tally,
    seats: Vec<SketchSeat>,
}

impl Model for Sum {
    ghost use Rattle.sip_sketch.specs.Sketches.{IsSketch, SketchValues};
    ghost use Rattle.sip_sketch.specs.inside.Merging.{cleared};

    ghost Value = { SketchValues };

    ghost view = { λ s. record {
      depth = s.depth;
      parts = s.parts;
      tally = s.tally;
      seats = s.seats.items;
    } };

    ghost invariant = { λ s. IsSketch (cleared (record {
      depth = s.depth;
      parts = s.parts;
      tally = s.tally;
      seats = s.seats.items;
    })) };
}

/// Which parts are in a sketch that there may be, and what is told of its stream.
pub(crate) fn told_of(sketch: &Option<Sketch>) -> Option<(Parts, Tally)>
    ensures { result ≡ option_map (λ s. (s.parts, s.tally)) sketch.now }
{
    match sketch {
        Some(sketch) => Some((sketch.parts(), sketch.tally())),
        None => None,
    }
}

// Why a part is not the first of a sum, whatever the sketch.
fn unfit(part: &Sketch) -> Option<Unlike>
    ensures { result ≡ unfit part.now }
{
    if is_whole(&part.parts) {
        return Some(Unlike::Whole);
    }
    if any_used(&part.seats) {
        return Some(Unlike::UsedSeat);
    }
    None
}

// Why it is not the first in the place of this sketch.
fn unlike_first(sketch: &Option<Sketch>, part: &Sketch) -> Option<Unlike>
    ensures { result ≡ unlike_first sketch.now part.now }
{
    if let Some(sketch) = sketch {
        if !sketch.has_shape_of(part) {
            return Some(Unlike::Shape);
        }
    }
    unfit(part)
}

// Puts each used seat of a sketch in the place of the part's.
fn put_used(seats: &mut [SketchSeat], others: &mut [SketchSeat])
    requires { length others.old ≡ length seats.old }
    ensures { seats.new ≡ seats_in_place others.old seats.old }
{
    for index in 0..seats.len() {
        if others[index].is_used() {
            mem::swap(&mut seats[index], &mut others[index]);
        }
    }
}

// The seats of a part, with each used one of a sketch that there may be in its place.
fn seats_in_place(sketch: Option<Sketch>, mut seats: Vec<SketchSeat>) -> Vec<SketchSeat>
    requires { HasSeats sketch seats.items }
    ensures { result.items ≡ seats_in_place (seats_of sketch) seats.items }
{
    if let Some(sketch) = sketch {
        let mut others = sketch.seats;
        put_used(&mut seats, &mut others);
    }
    seats
}

impl Sum {
    /// The first part, in the place of a sketch.
    ///
    /// # Errors
    ///
    /// The first reason of [`Unlike`], in its order, that there is.
    pub(crate) fn begin(sketch: Option<Sketch>, part: Sketch) -> Result<Sum, Unlike>
        ensures free { OnOk result (unlike_first sketch part ≡ None) }
        ensures why { IfErr result (λ why. unlike_first sketch part ≡ Some why) }
        ensures sum { IfOk result (λ sum. sum ≡ in_place sketch part) }
    {
        if let Some(why) = unlike_first(&sketch, &part) {
            return Err(why);
        }
        let Sketch {
            depth,
            parts,
            tally,
            seats,
        } = part;
        let seats = seats_in_place(sketch, seats);
        Ok(Sum {
            depth,
            parts,
            tally,
            seats,
        })
    }

    /// Adds the next part. No memory.
    ///
    /// # Errors
    ///
    /// The first reason of [`Unlike`], in its order, that there is. The sum is unchanged then.
    pub(crate) fn add(&mut self, part: &Sketch) -> Result<(), Unlike>
        ensures free { OnOk result (unlike self.old part.now ≡ None) }
        ensures why { IfErr result (λ why. unlike self.old part.now ≡ Some why) }
        ensures added { OnOk result (self.new ≡ added self.old part.now) }
        ensures refused { OnErr result (self.new ≡ self.old) }
    {
        if let Some(why) = unlike(self.depth, &self.parts, &self.tally, &self.seats, part) {
            return Err(why);
        }
        self.parts.last = part.parts.last;
        self.tally.absorb(&part.tally);
        add_seats(&mut self.seats, &part.seats);
        Ok(())
    }

    // Why the sum doesn't take the place of a sketch with these parts in, of whose stream this is
    // told.
    fn lacks(&self, parts: &Parts, told: &Tally) -> Option<Unlike>
        ensures { result ≡ lacks parts.now told.now self.now }
    {
        if parts.first < self.parts.first || self.parts.last < parts.last {
            return Some(Unlike::Missing);
        }
        if self.tally.count < told.count
            || self.tally.first < told.first
            || self.tally.second < told.second
        {
            return Some(Unlike::Fewer);
        }
        None
    }

    /// Why the sum doesn't take the place of a sketch of which this was told, or of none.
    pub(crate) fn lacks_of(&self, told: &Option<(Parts, Tally)>) -> Option<Unlike>
        ensures { (sketch : Option SketchValues)
            → told.now ≡ option_map (λ s. (s.parts, s.tally)) sketch
            → result ≡ lacks_of sketch self.now }
    {
        match told {
            Some((parts, tally)) => self.lacks(parts, tally),
            None => None,
        }
    }

    /// The sum of all parts, which is a sketch.
    pub(crate) fn finish(self) -> Sketch
        requires { IsSketch self }
        ensures { result ≡ self }
    {
        let Sum {
            depth,
            parts,
            tally,
            seats,
        } = self;
        Sketch {
            depth,
            parts,
            tally,
            seats,
        }
    }
}
