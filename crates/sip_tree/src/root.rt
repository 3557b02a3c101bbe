//! The root of a vector's tree, as a running number.
ghost use Rattle.std.specs.Prelude.{◌≡◌, ℕ, ◌+◌, ◌-◌, ◌*◌, ◌/◌, ◌%◌, ◌^◌, ◌<◌, ◌≤◌, ℤ, pos, List};
ghost use Rattle.std.specs.Prelude.{◌++◌, All, length, min, replicate};
ghost use Rattle.std.specs.Option.{ForSome};
ghost use Rattle.sip_field.specs.Products.{AreTables, zero_factor};
ghost use Rattle.sip_field.specs.Residue.{residue};
ghost use Rattle.sip_field.specs.declared.factors.Factors.TheVariants as factors;
ghost use Rattle.sip_tree.specs.Blocks.{root_after};
ghost use Rattle.sip_tree.specs.StandsFor.{RootStandsFor};
ghost use Rattle.sip_vector.specs.Limits.{most_depth};
ghost use Rattle.sip_vector.specs.Lines.{added_numbers};
ghost use Rattle.sip_vector.specs.Streams.{vector};
ghost use Rattle.sip_vector.specs.declared.update.Side.{Side as AnySide};
ghost use Rattle.sip_vector.specs.declared.update.Update.{Update as AnyUpdate};
ghost use Rattle.sip_vector.specs.Weights.{raised_numbers, numbers_after, node_weight};
ghost use Rattle.sip_vector.specs.Weights.{weight_above};

use crate::weight::weighted;
use sip_field::{Factors, Field, OutOfMemory, Seat, fill_tables, made_tables};
use sip_vector::{Update, added_by_tables};
use std::alloc::Global;

/// The shortest block for which tables are made: below it they cost more than they save.
const BLOCK: usize = 32;

/// The root of a vector of 2^d numbers, for the d challenges of a seat.
#[derive(Drop)]
pub struct Root<F: Field, const CAP: usize> {
    /// The challenges, the lowest level's first.
    pub seat: Seat<F, CAP>,
    /// The root, from 0 to `F::MODULUS - 1`.
    pub value: u64,
    // The tables of the challenges, where they are kept.
    tables: Option<Vec<[u64; 256]>>,
    ghost below: { value < F.MODULUS },
    ghost enough: { ForSome tables (λ made. length made.items ≡ (length seat + 7) / 8) },
    ghost made: { ForSome tables (λ made. AreTables F.MODULUS (zero_factor F.MODULUS
        factors.Tree) seat made.items) },
}

impl<F: Field, const CAP: usize> Root<F, CAP> {
    /// The root of zeros.
    pub fn new(seat: Seat<F, CAP>) -> Root<F, CAP>
        ensures seat { result.seat ≡ seat }
        ensures value { result.value ≡ 0 }
        ensures stands { RootStandsFor F.MODULUS seat result.value (replicate (2 ^ length seat)
            (pos 0)) }
    {
        Root {
            seat,
            value: 0,
            tables: None,
        }
    }

    /// The root that is this number, as a file has it.
    pub fn of(seat: Seat<F, CAP>, value: u64) -> Root<F, CAP>
        requires { value < F.MODULUS }
        ensures seat { result.seat ≡ seat }
        ensures value { result.value ≡ value }
    {
        Root {
            seat,
            value,
            tables: None,
        }
    }

    /// The root after `delta` is added to the entry `index`.
    ///
    /// One `times` for each bit of the index that is 1: d at most.
    pub fn update(&mut self, index: u64, delta: i64)
        requires { index < 2 ^ length self.old.seat }
        ensures seat { self.new.seat ≡ self.old.seat }
        ensures value { let weight = node_weight F.MODULUS index self.old.seat in
            self.new.value ≡ (self.old.value + residue F.MODULUS delta * weight) % F.MODULUS }
        ensures stands { (numbers : List ℤ)
            → RootStandsFor F.MODULUS self.old.seat self.old.value numbers
            → RootStandsFor F.MODULUS self.new.seat self.new.value
            (raised_numbers numbers index delta) }
    {
        let term = weighted(F::of_signed(delta), &self.seat, 0, index);
        self.value = F::of_number(self.value).plus(term).number();
    }

    /// Keeps the tables of the challenges from now on, 2 KiB for eight of them, by which
    /// [`update_all`](Root::update_all) adds its updates then. The root stays as it is, also where
    /// there is no memory.
    ///
    /// 255 `times` for eight challenges.
    pub fn keep_tables(&mut self, alloc: Global) -> Result<(), OutOfMemory>
        ensures seat { self.new.seat ≡ self.old.seat }
        ensures value { self.new.value ≡ self.old.value }
    {
        let tables = made_tables(alloc, &self.seat, Factors::Tree)?;
        self.tables = Some(tables);
        Ok(())
    }

    /// The root after each of these updates, whatever their sides.
    ///
    /// One `times` for an update and eight challenges by tables that are kept. Where none are, they
    /// are made on the stack for this call, by 255 for eight challenges, and a block of less than
    /// 32 updates is `update` for each.
    pub fn update_all(&mut self, updates: &[Update])
        requires depth { length self.old.seat ≤ most_depth }
        requires items { All (λ u. u.item < 2 ^ length self.old.seat) updates.now }
        ensures seat { self.new.seat ≡ self.old.seat }
        ensures value { self.new.value
            ≡ root_after F.MODULUS self.old.seat self.old.value updates.now }
        ensures stands { (numbers : List ℤ)
            → RootStandsFor F.MODULUS self.old.seat self.old.value numbers
            → RootStandsFor F.MODULUS self.new.seat self.new.value
            (numbers_after numbers updates.now) }
    {
        let value = match &self.tables {
            Some(tables) => added_by_tables(F::of_number(self.value), tables, updates).number(),
            None => return self.update_anew(updates),
        };
        self.value = value;
    }

    // The same without tables that are kept.
    #[inline(never)]
    fn update_anew(&mut self, updates: &[Update])
        requires depth { length self.old.seat ≤ most_depth }
        requires items { All (λ u. u.item < 2 ^ length self.old.seat) updates.now }
        ensures seat { self.new.seat ≡ self.old.seat }
        ensures value { self.new.value
            ≡ root_after F.MODULUS self.old.seat self.old.value updates.now }
    {
        if updates.len() < BLOCK {
            for update in updates {
                self.update(update.item, update.delta);
            }
        } else {
            let mut tables = [[0; 256]; 6];
            let count = fill_tables(&mut tables, &self.seat, Factors::Tree);
            let root = F::of_number(self.value);
            self.value = added_by_tables(root, &tables[..count], updates).number();
        }
    }

    /// The root of the entrywise sum, where `other` is that of more numbers for the same
    /// challenges: so what two roots were fed with apart adds up, in any order.
    ///
    /// One `plus`, and no memory.
    pub fn absorb(&mut self, other: &Root<F, CAP>)
        requires { other.now.seat ≡ self.old.seat }
        ensures seat { self.new.seat ≡ self.old.seat }
        ensures value { self.new.value ≡ (self.old.value + other.now.value) % F.MODULUS }
        ensures stands { (numbers others : List ℤ)
            → RootStandsFor F.MODULUS self.old.seat self.old.value numbers
            → RootStandsFor F.MODULUS other.now.seat other.now.value others
            → RootStandsFor F.MODULUS self.new.seat self.new.value (added_numbers numbers others) }
        ensures joins { (depth : ℕ) (stream more : List AnyUpdate) (side : AnySide)
            → RootStandsFor F.MODULUS self.old.seat self.old.value (vector depth stream side)
            → RootStandsFor F.MODULUS other.now.seat other.now.value (vector depth more side)
            → RootStandsFor F.MODULUS self.new.seat self.new.value
            (vector depth (stream ++ more) side) }
    {
        let more = F::of_number(other.value);
        self.value = F::of_number(self.value).plus(more).number();
    }

    /// The root.
    pub fn value(&self) -> F
        ensures { F.number result ≡ self.now.value }
    {
        F::of_number(self.value)
    }

    /// The factor of a node of this level in the root: the product of the challenges of the levels
    /// above for which the index has the bit 1, the lowest bit first.
    ///
    /// One `times` for each of them: d - level at most.
    pub fn weight_above(&self, level: usize, index: u64) -> F
        requires level { level ≤ length self.now.seat }
        requires index { index < 2 ^ (length self.now.seat - level) }
        ensures { F.number result ≡ weight_above F.MODULUS self.now.seat level index }
    {
        weighted(F::of(1), &self.seat, level, index)
    }
}

/// The root of zeros at the default seat.
impl<F: Field, const CAP: usize> Default for Root<F, CAP> {
    ghost is_default = { λ root. (root.seat ≡ replicate (min 1 CAP) 0) × (root.value ≡ 0) };

    fn default() -> Root<F, CAP> {
        Root::new(Seat::default())
    }
}
