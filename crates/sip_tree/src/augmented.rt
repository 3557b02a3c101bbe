//! The root of a vector's augmented tree, as two running numbers.
ghost use Rattle.std.specs.Prelude.{◌≡◌, ℕ, ◌+◌, ◌-◌, ◌*◌, ◌/◌, ◌%◌, ◌^◌, ◌<◌, ◌≤◌, ℤ, pos, ◌+ℤ◌};
ghost use Rattle.std.specs.Prelude.{nat_abs, List, ◌++◌, All, take, length, min, replicate};
ghost use Rattle.std.specs.Option.{ForSome};
ghost use Rattle.sip_field.specs.Residue.{residue};
ghost use Rattle.sip_tree.specs.Blocks.{hash_after, total_after};
ghost use Rattle.sip_tree.specs.StandsFor.{AugRootStandsFor};
ghost use Rattle.sip_tree.specs.Steps.{AreStepTables, IsBelow};
ghost use Rattle.sip_vector.specs.Lines.{added_numbers};
ghost use Rattle.sip_vector.specs.Streams.{most_weight, vector};
ghost use Rattle.sip_vector.specs.declared.update.Side.{Side as AnySide};
ghost use Rattle.sip_vector.specs.declared.update.Update.{Update as AnyUpdate};
ghost use Rattle.sip_vector.specs.Limits.{most_depth};
ghost use Rattle.sip_vector.specs.Weights.{raised_numbers, numbers_after, hash_weight};

use crate::hashing::hashed;
use crate::steps::{Step, fill_steps, made_steps};
use crate::weight::hash_weighted;
use sip_field::{Field, OutOfMemory, Seat};
use sip_vector::Update;
use std::alloc::Global;

/// The shortest block for which tables are made: below it they cost more than they save.
const BLOCK: usize = 32;

// The hash after `delta` is added to the entry `index`.
fn raised<F: Field, const CAP: usize>(hash: F, seat: &Seat<F, CAP>, index: u64, delta: i64) -> F
    requires { index < 2 ^ length seat.now }
    ensures { F.number result ≡ (F.number hash
        + residue F.MODULUS delta * hash_weight F.MODULUS index seat.now) % F.MODULUS }
{
    let weight = hash_weighted(F::of(1), seat, index);
    hash.plus(F::of_signed(delta).times(weight))
}

/// The augmented root of a vector of 2^d numbers, for the d challenges of a seat: a hash, and the
/// sum of the numbers.
#[derive(Drop)]
pub struct AugRoot<F: Field, const CAP: usize> {
    /// The challenges, the lowest level's first.
    pub seat: Seat<F, CAP>,
    /// The hash, from 0 to `F::MODULUS - 1`.
    pub hash: u64,
    /// The sum of the numbers, at most 2^30 - 1 and at least the negative of that.
    pub total: i64,
    // The tables of steps of its levels, where they are kept.
    tables: Option<Vec<[Step; 256]>>,
    ghost below: { hash < F.MODULUS },
    ghost within: { nat_abs total ≤ most_weight },
    ghost enough: { ForSome tables (λ made. length made.items ≡ 1 + (length seat - 1) / 8) },
    ghost residues: { ForSome tables (λ made. All (All (IsBelow F.MODULUS)) made.items) },
    ghost made: { ForSome tables (λ made. AreStepTables F.MODULUS seat made.items) },
}

impl<F: Field, const CAP: usize> AugRoot<F, CAP> {
    /// The root of zeros.
    pub fn new(seat: Seat<F, CAP>) -> AugRoot<F, CAP>
        ensures seat { result.seat ≡ seat }
        ensures hash { result.hash ≡ 0 }
        ensures total { result.total ≡ pos 0 }
        ensures stands { let zeros = replicate (2 ^ length seat) (pos 0) in
            AugRootStandsFor F.MODULUS seat result.hash result.total zeros }
    {
        AugRoot {
            seat,
            hash: 0,
            total: 0,
            tables: None,
        }
    }

    /// The root that is this hash and this sum, as a file has them.
    pub fn of(seat: Seat<F, CAP>, hash: u64, total: i64) -> AugRoot<F, CAP>
        requires hash { hash < F.MODULUS }
        requires total { nat_abs total ≤ most_weight }
        ensures seat { result.seat ≡ seat }
        ensures hash { result.hash ≡ hash }
        ensures total { result.total ≡ total }
    {
        AugRoot {
            seat,
            hash,
            total,
            tables: None,
        }
    }

    /// The root after `delta` is added to the entry `index`.
    ///
    /// Two `times` for each bit of the index that is 1, and one more: 2d + 1 at most.
    pub fn update(&mut self, index: u64, delta: i64)
        requires index { index < 2 ^ length self.old.seat }
        requires weight { nat_abs (self.old.total +ℤ delta) ≤ most_weight }
        ensures seat { self.new.seat ≡ self.old.seat }
        ensures hash { let weight = hash_weight F.MODULUS index self.old.seat in
            self.new.hash ≡ (self.old.hash + residue F.MODULUS delta * weight) % F.MODULUS }
        ensures total { self.new.total ≡ self.old.total +ℤ delta }
        ensures stands { (numbers : List ℤ)
            → AugRootStandsFor F.MODULUS self.old.seat self.old.hash self.old.total numbers
            → AugRootStandsFor F.MODULUS self.new.seat self.new.hash self.new.total
            (raised_numbers numbers index delta) }
    {
        self.hash = raised(F::of_number(self.hash), &self.seat, index, delta).number();
        self.total += delta;
    }

    /// Keeps tables of the challenges from now on, 4 KiB for eight of them, by which
    /// [`update_all`](AugRoot::update_all) adds its updates then. The root stays as it is, also
    /// where there is no memory.
    ///
    /// 518 `times` for eight challenges.
    pub fn keep_tables(&mut self, alloc: Global) -> Result<(), OutOfMemory>
        ensures seat { self.new.seat ≡ self.old.seat }
        ensures hash { self.new.hash ≡ self.old.hash }
        ensures total { self.new.total ≡ self.old.total }
    {
        let tables = made_steps(alloc, &self.seat)?;
        self.tables = Some(tables);
        Ok(())
    }

    /// The root after each of these updates, whatever their sides.
    ///
    /// One `times` for an update and eight challenges by tables that are kept. Where none are, they
    /// are made on the stack for this call, by 518 for eight challenges, and a block of less than
    /// 32 updates is `update` for each.
    pub fn update_all(&mut self, updates: &[Update])
        requires depth { length self.old.seat ≤ most_depth }
        requires items { All (λ u. u.item < 2 ^ length self.old.seat) updates.now }
        requires weight { (k : ℕ) → k ≤ length updates.now
            → nat_abs (total_after self.old.total (take k updates.now)) ≤ most_weight }
        ensures seat { self.new.seat ≡ self.old.seat }
        ensures hash { self.new.hash
            ≡ hash_after F.MODULUS self.old.seat self.old.hash updates.now }
        ensures total { self.new.total ≡ total_after self.old.total updates.now }
        ensures stands { (numbers : List ℤ)
            → AugRootStandsFor F.MODULUS self.old.seat self.old.hash self.old.total numbers
            → AugRootStandsFor F.MODULUS self.new.seat self.new.hash self.new.total
            (numbers_after numbers updates.now) }
    {
        let hash = match &self.tables {
            Some(tables) => hashed(F::of_number(self.hash), tables, updates),
            None => self.hash_anew(updates),
        };
        let mut total = self.total;
        for update in updates {
            total += update.delta;
        }
        self.hash = hash.number();
        self.total = total;
    }

    // The hash without tables that are kept.
    #[inline(never)]
    fn hash_anew(&self, updates: &[Update]) -> F
        requires depth { length self.now.seat ≤ most_depth }
        requires items { All (λ u. u.item < 2 ^ length self.now.seat) updates.now }
        ensures { F.number result
            ≡ hash_after F.MODULUS self.now.seat self.now.hash updates.now }
    {
        let mut hash = F::of_number(self.hash);
        if updates.len() < BLOCK {
            for update in updates {
                hash = raised(hash, &self.seat, update.item, update.delta);
            }
        } else {
            let mut tables = [[Step { scale: 0, shift: 0 }; 256]; 6];
            let count = fill_steps(&mut tables, &self.seat);
            hash = hashed(hash, &tables[..count], updates);
        }
        hash
    }

    /// The root of the entrywise sum, where `other` is that of more numbers for the same
    /// challenges: so what two roots were fed with apart adds up, in any order.
    ///
    /// One `plus`, and no memory.
    pub fn absorb(&mut self, other: &AugRoot<F, CAP>)
        requires seat { other.now.seat ≡ self.old.seat }
        requires weight { nat_abs (self.old.total +ℤ other.now.total) ≤ most_weight }
        ensures seat { self.new.seat ≡ self.old.seat }
        ensures hash { self.new.hash ≡ (self.old.hash + other.now.hash) % F.MODULUS }
        ensures total { self.new.total ≡ self.old.total +ℤ other.now.total }
        ensures stands { (numbers others : List ℤ)
            → AugRootStandsFor F.MODULUS self.old.seat self.old.hash self.old.total numbers
            → AugRootStandsFor F.MODULUS other.now.seat other.now.hash other.now.total others
            → AugRootStandsFor F.MODULUS self.new.seat self.new.hash self.new.total
            (added_numbers numbers others) }
        ensures joins { (depth : ℕ) (stream more : List AnyUpdate) (side : AnySide)
            → AugRootStandsFor F.MODULUS self.old.seat self.old.hash self.old.total
            (vector depth stream side)
            → AugRootStandsFor F.MODULUS other.now.seat other.now.hash other.now.total
            (vector depth more side)
            → AugRootStandsFor F.MODULUS self.new.seat self.new.hash self.new.total
            (vector depth (stream ++ more) side) }
    {
        let more = F::of_number(other.hash);
        self.hash = F::of_number(self.hash).plus(more).number();
        self.total += other.total;
    }

    /// The hash.
    pub fn hash(&self) -> F
        ensures { F.number result ≡ self.now.hash }
    {
        F::of_number(self.hash)
    }

    /// The sum of the numbers.
    pub fn total(&self) -> i64
        ensures same { result ≡ self.now.total }
        ensures most { nat_abs result ≤ most_weight }
    {
        self.total
    }
}

/// The root of zeros at the default seat.
impl<F: Field, const CAP: usize> Default for AugRoot<F, CAP> {
    ghost is_default = { λ root. (root.seat ≡ replicate (min 1 CAP) 0) × (root.hash ≡ 0)
        × (root.total ≡ pos 0) };

    fn default() -> AugRoot<F, CAP> {
        AugRoot::new(Seat::default())
    }
}
