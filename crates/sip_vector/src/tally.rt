//! What is told of a stream by a few numbers.

ghost use Rattle.std.specs.Prelude.{◌≡◌, ◌↔◌, IsTrue, [], ◌∷◌};
ghost use Rattle.sip_vector.specs.Tallies.{IsSound, either, joined, negatives};

use crate::{Fingerprint, Side, Update};

/// The greatest weight of a side.
const MOST_WEIGHT: u64 = (1 << 30) - 1;

/// Which sides of a stream had an update with a delta below 0.
#[derive(Clone, Copy, Debug, PartialEq, Eq, Default)]
pub struct Negatives {
    /// Side 0 had one.
    pub first: bool,
    /// Side 1 had one.
    pub second: bool,
}

impl Negatives {
    /// Those of the stream with one more update.
    pub fn update(&mut self, update: &Update)
        ensures { self.new ≡ either self.old (negatives (update.now ∷ [])) }
    {
        // Without a branch on the side, which would be guessed wrongly for every other update.
        let is_second = update.side == Side::Second;
        let is_negative = update.delta < 0;
        self.first |= is_negative & !is_second;
        self.second |= is_negative & is_second;
    }

    /// Those of the stream with these updates behind it.
    pub fn update_all(&mut self, updates: &[Update])
        ensures { self.new ≡ either self.old (negatives updates.now) }
    {
        let mut negatives = *self;
        for update in updates {
            negatives.update(update);
        }
        *self = negatives;
    }

    /// Those of both streams.
    pub fn absorb(&mut self, other: Negatives)
        ensures { self.new ≡ either self.old other }
    {
        self.first |= other.first;
        self.second |= other.second;
    }
}

/// What is told of a stream by a few numbers, all of which add up; the default is told of no
/// stream.
#[derive(Clone, Copy, Debug, PartialEq, Eq, Default)]
pub struct Tally {
    /// How many updates it has.
    pub count: u64,
    /// The weight of side 0: the sum of the absolute values of its deltas.
    pub first: u64,
    /// The weight of side 1.
    pub second: u64,
    /// Which sides had a delta below 0.
    pub negatives: Negatives,
    /// The fingerprint.
    pub fingerprint: Fingerprint,
}

impl Tally {
    /// Whether a tally that was not made from a stream may be that of a legal one, by all that is
    /// tested of it: there are no more updates than weight, a side has at most 2^30 - 1 of it, and
    /// some where it had a delta below 0.
    pub fn is_sound(&self) -> bool
        ensures { IsTrue result ↔ IsSound self.now }
    {
        self.first <= MOST_WEIGHT
            && self.second <= MOST_WEIGHT
            && self.count <= self.first + self.second
            && (self.first > 0 || !self.negatives.first)
            && (self.second > 0 || !self.negatives.second)
    }

    /// That of both streams, one behind the other.
    pub fn absorb(&mut self, other: &Tally)
        requires own { IsSound self.old }
        requires other { IsSound other.now }
        ensures { self.new ≡ joined self.old other.now }
    {
        self.count += other.count;
        self.first += other.first;
        self.second += other.second;
        self.negatives.absorb(other.negatives);
        self.fingerprint.absorb(other.fingerprint);
    }
}
