//! The extension of a vector at the challenges of a seat, as a running number.
ghost use Rattle.std.specs.Prelude.{◌≡◌, ℕ, ◌+◌, ◌*◌, ◌/◌, ◌%◌, ◌^◌, ◌<◌, ◌≤◌, ℤ, pos, List, ◌++◌};
ghost use Rattle.std.specs.Prelude.{All, length, min, replicate};
ghost use Rattle.std.specs.Option.{ForSome};
ghost use Rattle.sip_field.specs.Products.{AreTables, zero_factor};
ghost use Rattle.sip_field.specs.Residue.{residue};
ghost use Rattle.sip_field.specs.declared.factors.Factors.TheVariants as factors;
ghost use Rattle.sip_mle.specs.Blocks.{point_after};
ghost use Rattle.sip_mle.specs.StandsFor.{PointStandsFor};
ghost use Rattle.sip_vector.specs.Weights.{raised_numbers, numbers_after};
ghost use Rattle.sip_vector.specs.Limits.{most_depth};
ghost use Rattle.sip_vector.specs.Extensions.{chi};
ghost use Rattle.sip_vector.specs.Lines.{added_numbers};
ghost use Rattle.sip_vector.specs.Streams.{vector};
ghost use Rattle.sip_vector.specs.declared.update.Side.{Side as AnySide};
ghost use Rattle.sip_vector.specs.declared.update.Update.{Update as AnyUpdate};

use crate::factor::times_chi;
use sip_field::{Factors, Field, OutOfMemory, Seat, fill_tables, made_tables};
use sip_vector::{Update, added_by_tables};
use std::alloc::Global;

/// The shortest block for which tables are made: below it they cost more than they save.
const BLOCK: usize = 32;

/// The extension of a vector of 2^d numbers, at the d challenges of a seat.
#[derive(Drop)]
pub struct Point<F: Field, const CAP: usize> {
    /// The challenges, the lowest level's first.
    pub seat: Seat<F, CAP>,
    /// The extension, from 0 to `F::MODULUS - 1`.
    pub value: u64,
    // The tables of the challenges, where they are kept.
    tables: Option<Vec<[u64; 256]>>,
    ghost below: { value < F.MODULUS },
    ghost enough: { ForSome tables (λ made. length made.items ≡ (length seat + 7) / 8) },
    ghost made: { ForSome tables (λ made. AreTables F.MODULUS (zero_factor F.MODULUS
        factors.Extension) seat made.items) },
}

impl<F: Field, const CAP: usize> Point<F, CAP> {
    /// The extension of zeros.
    pub fn new(seat: Seat<F, CAP>) -> Point<F, CAP>
        ensures seat { result.seat ≡ seat }
        ensures value { result.value ≡ 0 }
        ensures stands { PointStandsFor F.MODULUS seat result.value (replicate (2 ^ length seat)
            (pos 0)) }
    {
        Point {
            seat,
            value: 0,
            tables: None,
        }
    }

    /// The extension that is this number, as a file has it.
    pub fn of(seat: Seat<F, CAP>, value: u64) -> Point<F, CAP>
        requires { value < F.MODULUS }
        ensures seat { result.seat ≡ seat }
        ensures value { result.value ≡ value }
    {
        Point {
            seat,
            value,
            tables: None,
        }
    }

    /// The extension after `delta` is added to the entry `index`.
    ///
    /// d `times`.
    #[tactic(auto, using(sip_field::proofs::Residues::residues))]
    pub fn update(&mut self, index: u64, delta: i64)
        requires { index < 2 ^ length self.old.seat }
        ensures seat { self.new.seat ≡ self.old.seat }
        ensures value { self.new.value
            ≡ (self.old.value + residue F.MODULUS delta * chi F.MODULUS index self.old.seat)
            % F.MODULUS }
        ensures stands { (numbers : List ℤ)
            → PointStandsFor F.MODULUS self.old.seat self.old.value numbers
            → PointStandsFor F.MODULUS self.new.seat self.new.value
            (raised_numbers numbers index delta) }
    {
        let term = times_chi(F::of_signed(delta), &self.seat, index);
        self.value = F::of_number(self.value).plus(term).number();
    }

    /// Keeps the tables of the challenges from now on, 2 KiB for eight of them, by which
    /// [`update_all`](Point::update_all) adds its updates then. The extension stays as it is, also
    /// where there is no memory.
    ///
    /// 255 `times` for eight challenges.
    pub fn keep_tables(&mut self, alloc: Global) -> Result<(), OutOfMemory>
        ensures seat { self.new.seat ≡ self.old.seat }
        ensures value { self.new.value ≡ self.old.value }
    {
        let tables = made_tables(alloc, &self.seat, Factors::Extension)?;
        self.tables = Some(tables);
        Ok(())
    }

    /// The extension after each of these updates, whatever their sides.
    ///
    /// One `times` for an update and eight challenges by tables that are kept. Where none are, they
    /// are made on the stack for this call, by 255 for eight challenges, and a block of less than
    /// 32 updates is `update` for each.
    pub fn update_all(&mut self, updates: &[Update])
        requires depth { length self.old.seat ≤ most_depth }
        requires items { All (λ u. u.item < 2 ^ length self.old.seat) updates.now }
        ensures seat { self.new.seat ≡ self.old.seat }
        ensures value { self.new.value
            ≡ point_after F.MODULUS self.old.seat self.old.value updates.now }
        ensures stands { (numbers : List ℤ)
            → PointStandsFor F.MODULUS self.old.seat self.old.value numbers
            → PointStandsFor F.MODULUS self.new.seat self.new.value
            (numbers_after numbers updates.now) }
    {
        let value = match &self.tables {
            Some(tables) => added_by_tables(F::of_number(self.value), tables, updates).number(),
            None => return self.update_anew(updates),
        };
        self.value = value;
    }

    // The same without tables that are kept.
    #[inline(never)]
    fn update_anew(&mut self, updates: &[Update])
        requires depth { length self.old.seat ≤ most_depth }
        requires items { All (λ u. u.item < 2 ^ length self.old.seat) updates.now }
        ensures seat { self.new.seat ≡ self.old.seat }
        ensures value { self.new.value
            ≡ point_after F.MODULUS self.old.seat self.old.value updates.now }
    {
        if updates.len() < BLOCK {
            for update in updates {
                self.update(update.item, update.delta);
            }
        } else {
            let mut tables = [[0; 256]; 6];
            let count = fill_tables(&mut tables, &self.seat, Factors::Extension);
            let point = F::of_number(self.value);
            self.value = added_by_tables(point, &tables[..count], updates).number();
        }
    }

    /// The extension of the entrywise sum, where `other` is that of more numbers at the same
    /// challenges: so what two points were fed with apart adds up, in any order.
    ///
    /// One `plus`, and no memory.
    pub fn absorb(&mut self, other: &Point<F, CAP>)
        requires { other.now.seat ≡ self.old.seat }
        ensures seat { self.new.seat ≡ self.old.seat }
        ensures value { self.new.value ≡ (self.old.value + other.now.value) % F.MODULUS }
        ensures stands { (numbers others : List ℤ)
            → PointStandsFor F.MODULUS self.old.seat self.old.value numbers
            → PointStandsFor F.MODULUS other.now.seat other.now.value others
            → PointStandsFor F.MODULUS self.new.seat self.new.value
            (added_numbers numbers others) }
        ensures joins { (depth : ℕ) (stream more : List AnyUpdate) (side : AnySide)
            → PointStandsFor F.MODULUS self.old.seat self.old.value (vector depth stream side)
            → PointStandsFor F.MODULUS other.now.seat other.now.value (vector depth more side)
            → PointStandsFor F.MODULUS self.new.seat self.new.value
            (vector depth (stream ++ more) side) }
    {
        let more = F::of_number(other.value);
        self.value = F::of_number(self.value).plus(more).number();
    }

    /// The extension.
    pub fn value(&self) -> F
        ensures { F.number result ≡ self.now.value }
    {
        F::of_number(self.value)
    }
}

/// The extension of zeros at the default seat.
impl<F: Field, const CAP: usize> Default for Point<F, CAP> {
    ghost is_default = { λ point. (point.seat ≡ replicate (min 1 CAP) 0) × (point.value ≡ 0) };

    fn default() -> Point<F, CAP> {
        Point::new(Seat::default())
    }
}
