//! The extensions of two vectors at the same challenges.

ghost use Rattle.std.specs.Prelude.{◌≡◌, ◌<◌, ◌≤◌, ◌^◌, ◌+◌, ◌%◌, ℕ, ℤ, pos, List, ◌++◌, length};
ghost use Rattle.std.specs.Prelude.{replicate, All};
ghost use Rattle.sip_field.specs.Elements.{m61_number};
ghost use Rattle.sip_field.specs.Moduli.{m61_modulus};
ghost use Rattle.sip_mle.specs.StandsFor.{PointStandsFor};
ghost use Rattle.sip_vector.specs.declared.update.Side.{Side as AnySide};
ghost use Rattle.sip_vector.specs.declared.update.Side.TheVariants as sides;
ghost use Rattle.sip_vector.specs.declared.update.Update.{Update as AnyUpdate};
ghost use Rattle.sip_vector.specs.Limits.{most_depth};
ghost use Rattle.sip_vector.specs.Streams.{of_side, vector};
ghost use Rattle.sip_vector.specs.Weights.{numbers_after};

use sip_field::{Field, M61, OutOfMemory, Seat};
use sip_mle::Point;
use sip_vector::{CAP, Side, Update};
use std::alloc::Global;

/// The extensions of both sides' vectors at the same challenges, which are kept once.
#[derive(Drop)]
pub struct Points {
    /// That of the first side's vector, with the challenges.
    pub first: Point<M61, CAP>,
    /// That of the second side's vector.
    pub second: M61,
}

impl Points {
    /// The extensions of zeros.
    pub fn new(block: Seat<M61, CAP>) -> Points
        ensures seat { result.first.seat ≡ block }
        ensures first { PointStandsFor m61_modulus block result.first.value
            (replicate (2 ^ length block) (pos 0)) }
        ensures second { PointStandsFor m61_modulus block (m61_number result.second)
            (replicate (2 ^ length block) (pos 0)) }
    {
        Points {
            first: Point::new(block),
            second: M61::of(0),
        }
    }

    /// Keeps the tables of the challenges from now on, which both extensions are added to by.
    pub fn keep_tables(&mut self, alloc: Global) -> Result<(), OutOfMemory>
        ensures seat { self.new.first.seat ≡ self.old.first.seat }
        ensures first { self.new.first.value ≡ self.old.first.value }
        ensures second { self.new.second ≡ self.old.second }
    {
        self.first.keep_tables(alloc)
    }

    /// Adds updates of one side to its extension.
    pub fn update_all(&mut self, side: Side, updates: &[Update])
        requires depth { length self.old.first.seat ≤ most_depth }
        requires items { All (λ u. u.item < 2 ^ length self.old.first.seat) updates.now }
        requires sides { All (λ u. u.side ≡ side) updates.now }
        ensures seat { self.new.first.seat ≡ self.old.first.seat }
        ensures first { (numbers : List ℤ)
            → PointStandsFor m61_modulus self.old.first.seat self.old.first.value numbers
            → PointStandsFor m61_modulus self.new.first.seat self.new.first.value
            (numbers_after numbers (of_side updates.now sides.First)) }
        ensures second { (numbers : List ℤ)
            → PointStandsFor m61_modulus self.old.first.seat (m61_number self.old.second) numbers
            → PointStandsFor m61_modulus self.new.first.seat (m61_number self.new.second)
            (numbers_after numbers (of_side updates.now sides.Second)) }
    {
        match side {
            Side::First => self.first.update_all(updates),
            Side::Second => {
                self.swap();
                self.first.update_all(updates);
                self.swap();
            }
        }
    }

    /// The extensions of the entrywise sums, where `other` has those of more numbers at the same
    /// challenges.
    ///
    /// Two additions, and no memory.
    pub fn absorb(&mut self, other: &Points)
        requires { other.now.first.seat ≡ self.old.first.seat }
        ensures seat { self.new.first.seat ≡ self.old.first.seat }
        ensures first { self.new.first.value
            ≡ (self.old.first.value + other.now.first.value) % m61_modulus }
        ensures second { m61_number self.new.second
            ≡ (m61_number self.old.second + m61_number other.now.second) % m61_modulus }
        ensures first_joins { (depth : ℕ) (stream more : List AnyUpdate) (side : AnySide)
            → PointStandsFor m61_modulus self.old.first.seat self.old.first.value
            (vector depth stream side)
            → PointStandsFor m61_modulus other.now.first.seat other.now.first.value
            (vector depth more side)
            → PointStandsFor m61_modulus self.new.first.seat self.new.first.value
            (vector depth (stream ++ more) side) }
        ensures second_joins { (depth : ℕ) (stream more : List AnyUpdate) (side : AnySide)
            → PointStandsFor m61_modulus self.old.first.seat (m61_number self.old.second)
            (vector depth stream side)
            → PointStandsFor m61_modulus other.now.first.seat (m61_number other.now.second)
            (vector depth more side)
            → PointStandsFor m61_modulus self.new.first.seat (m61_number self.new.second)
            (vector depth (stream ++ more) side) }
    {
        self.first.absorb(&other.first);
        self.second = self.second.plus(other.second);
    }

    // Lends the challenges to the other extension.
    fn swap(&mut self)
        ensures seat { self.new.first.seat ≡ self.old.first.seat }
        ensures first { self.new.first.value ≡ m61_number self.old.second }
        ensures second { m61_number self.new.second ≡ self.old.first.value }
    {
        let first = self.first.value();
        self.first.value = self.second.number();
        self.second = first;
    }
}
