//! Adds more of a stream to a sketch.

ghost use Rattle.std.specs.Prelude.{◌≡◌, ◌≤◌, ◌↔◌, ◌++◌, ◌∷◌, [], List, length, true, IsTrue};
ghost use Rattle.std.specs.Prelude.{sum_by, nat_abs};
ghost use Rattle.std.specs.List.{AllZip};
ghost use Rattle.sip_vector.specs.Streams.{most_weight, of_side, weight};
ghost use Rattle.sip_vector.specs.Tallies.{joined, tally};
ghost use Rattle.sip_vector.specs.declared.update.Side.TheVariants as sides;
ghost use Rattle.sip_vector.specs.declared.update.Update.{Update as AnyUpdate};
ghost use Rattle.sip_sketch.specs.Standing.{IsKept, MayCome, Stands};
ghost use Rattle.sip_sketch.specs.inside.Raising.{IsGrown, IsNext};

use crate::Sketch;
use crate::reading::MOST_WEIGHT;
use sip_field::OutOfMemory;
use sip_vector::{Depth, Fingerprint, Negatives, Side, Tally, Update, take_side};
use std::alloc::Global;

/// The most updates that [`Sketch::update_all`] takes at once.
pub const MOST_UPDATES: usize = 512;

// The sum of the sizes of these deltas.
fn weight_of(updates: &[Update]) -> u64
    requires { sum_by (λ u. nat_abs u.delta) updates.now ≤ most_weight }
    ensures { result ≡ sum_by (λ u. nat_abs u.delta) updates.now }
{
    let mut weight = 0;
    for update in updates {
        weight += update.delta.unsigned_abs();
    }
    weight
}

// What is told of these updates, where these are the weights of their sides.
fn told(updates: &[Update], first: u64, second: u64) -> Tally
    ensures count { result.count ≡ length updates.now }
    ensures first { result.first ≡ first }
    ensures second { result.second ≡ second }
    ensures negatives { result.negatives ≡ (tally updates.now).negatives }
    ensures fingerprint { result.fingerprint ≡ (tally updates.now).fingerprint }
{
    let mut negatives = Negatives::default();
    negatives.update_all(updates);
    let mut fingerprint = Fingerprint::default();
    fingerprint.update_all(updates);
    Tally {
        count: updates.len() as u64,
        first,
        second,
        negatives,
        fingerprint,
    }
}

// How much an update adds to the weight of each side.
fn sizes(update: &Update) -> (u64, u64)
    ensures first { result.0 ≡ weight (update.now ∷ []) sides.First }
    ensures second { result.1 ≡ weight (update.now ∷ []) sides.Second }
{
    let size = update.delta.unsigned_abs();
    match update.side {
        Side::First => (size, 0),
        Side::Second => (0, size),
    }
}

// Whether an update may come next, where these are the weights of the sides so far.
fn is_next(depth: Depth, first: u64, second: u64, update: &Update) -> bool
    requires first { first ≤ most_weight }
    requires second { second ≤ most_weight }
    ensures { IsTrue result ↔ IsNext depth first second update.now }
{
    let (more, other) = sizes(update);
    update.item < 1 << depth.get()
        && update.delta != 0
        && more <= MOST_WEIGHT - first
        && other <= MOST_WEIGHT - second
}

impl Sketch {
    /// Whether these updates may come next: each is one of a legal stream, and the weights stay
    /// within 2^30 - 1.
    pub fn takes(&self, updates: &[Update]) -> bool
        ensures { IsTrue result ↔ MayCome self.now updates.now }
    {
        let mut first = self.tally.first;
        let mut second = self.tally.second;
        for update in updates {
            if !is_next(self.depth, first, second, update) {
                return false;
            }
            let (more, other) = sizes(update);
            first += more;
            second += other;
        }
        true
    }

    /// Keeps tables of the challenges of each unused seat, by which blocks are added from now on: 2
    /// KiB for a seat and eight levels, 4 for heavy hitters, and none for large entries. So 64 seats
    /// at depth 48 take 1,536 KiB at the most. The sketch stays as it is, also where there is no
    /// memory.
    pub fn keep_tables(&mut self, alloc: Global) -> Result<(), OutOfMemory>
        ensures { self.new ≡ self.old }
    {
        for seat in self.seats.iter_mut() {
            seat.keep_tables(alloc)?;
        }
        Ok(())
    }

    /// Adds a block of updates, which may come next ([`Sketch::takes`]), to what is told of the
    /// stream and to each unused seat.
    ///
    /// The block is split by side once, for all seats. Then an update takes, for each seat that it
    /// concerns, one look-up and one multiplication for each eight levels, by the tables that are
    /// kept ([`Sketch::keep_tables`]). Where none are, they are made once for a block and a seat,
    /// on the stack. No memory.
    pub fn update_all(&mut self, updates: &[Update])
        requires most { length updates.now ≤ MOST_UPDATES }
        requires next { MayCome self.old updates.now }
        ensures kept { IsKept self.old self.new }
        ensures told { self.new.tally ≡ joined self.old.tally (tally updates.now) }
        ensures used { AllZip (λ old new. old.is_used ≡ true → new ≡ old) self.old.seats
            self.new.seats }
        ensures stands { (stream : List AnyUpdate) → Stands stream self.old
            → Stands (stream ++ updates.now) self.new }
    {
        let mut firsts = [Update::default(); MOST_UPDATES];
        let mut seconds = [Update::default(); MOST_UPDATES];
        let first = take_side(updates, Side::First, &mut firsts);
        let second = take_side(updates, Side::Second, &mut seconds);
        self.raise(updates, &firsts[..first], &seconds[..second]);
    }

    // Adds updates, which are split by side.
    fn raise(&mut self, updates: &[Update], firsts: &[Update], seconds: &[Update])
        requires next { MayCome self.old updates.now }
        requires firsts { firsts.now ≡ of_side updates.now sides.First }
        requires seconds { seconds.now ≡ of_side updates.now sides.Second }
        ensures { IsGrown updates.now self.old self.new }
    {
        let more = told(updates, weight_of(firsts), weight_of(seconds));
        self.tally.absorb(&more);
        for seat in self.seats.iter_mut() {
            seat.update_all(firsts, seconds);
        }
    }
}
