//! The root of the split tree over the values and the weights of a vector, as two running numbers.
ghost use Rattle.std.specs.Prelude.{◌≡◌, ℕ, ◌+◌, ◌*◌, ◌%◌, ◌^◌, ◌<◌, ◌≤◌, ℤ, pos, nat_abs, List};
ghost use Rattle.std.specs.Prelude.{◌++◌, All, map, length, min, replicate};
ghost use Rattle.sip_tree.specs.Blocks.{split_term, split_after, weight_after};
ghost use Rattle.sip_tree.specs.StandsFor.{SplitRootStandsFor};
ghost use Rattle.sip_vector.specs.Limits.{most_depth};
ghost use Rattle.sip_vector.specs.Lines.{added_numbers};
ghost use Rattle.sip_vector.specs.Splits.{absolute, weights};
ghost use Rattle.sip_vector.specs.Streams.{most_weight, vector};
ghost use Rattle.sip_vector.specs.Weights.{raised_numbers, numbers_after};
ghost use Rattle.sip_vector.specs.declared.update.Side.{Side as AnySide};
ghost use Rattle.sip_vector.specs.declared.update.Update.{Update as AnyUpdate};

use crate::hashing::split_hashed;
use crate::steps::{Step, fill_steps};
use crate::weight::{hash_weighted, sign_of};
use sip_field::{Field, Seat};
use sip_vector::Update;

/// The shortest block for which tables are made: below it they cost more than they save.
const BLOCK: usize = 32;

/// The root of the split tree over 2^d values and as many weights, for the d challenges of a seat:
/// a hash, and the sum of the weights. An update raises a value by its delta and a weight by the
/// size of that, so that weights only grow.
#[derive(Drop)]
pub struct SplitRoot<F: Field, const CAP: usize> {
    /// The challenges, the lowest level's first.
    pub seat: Seat<F, CAP>,
    /// The hash, from 0 to `F::MODULUS - 1`.
    pub hash: u64,
    /// The sum of the weights, at most 2^30 - 1.
    pub weight: u64,
    ghost below: { hash < F.MODULUS },
    ghost within: { weight ≤ most_weight },
}

impl<F: Field, const CAP: usize> SplitRoot<F, CAP> {
    /// The root of zeros.
    pub fn new(seat: Seat<F, CAP>) -> SplitRoot<F, CAP>
        ensures seat { result.seat ≡ seat }
        ensures hash { result.hash ≡ 0 }
        ensures weight { result.weight ≡ 0 }
        ensures stands { let zeros = replicate (2 ^ length seat) (pos 0) in
            SplitRootStandsFor F.MODULUS seat result.hash result.weight zeros zeros }
    {
        SplitRoot {
            seat,
            hash: 0,
            weight: 0,
        }
    }

    /// The root after `delta` is added to the value `index`, and its size to the weight.
    ///
    /// Two `times` for each bit of the index that is 1, and one more: 2d + 1 at most.
    pub fn update(&mut self, index: u64, delta: i64)
        requires index { index < 2 ^ length self.old.seat }
        requires weight { self.old.weight + nat_abs delta ≤ most_weight }
        ensures seat { self.new.seat ≡ self.old.seat }
        ensures hash { let term = split_term F.MODULUS self.old.seat index delta in
            self.new.hash ≡ (self.old.hash + term) % F.MODULUS }
        ensures weight { self.new.weight ≡ self.old.weight + nat_abs delta }
        ensures stands { (values weights : List ℤ)
            → SplitRootStandsFor F.MODULUS self.old.seat self.old.hash self.old.weight
            values weights
            → SplitRootStandsFor F.MODULUS self.new.seat self.new.hash self.new.weight
            (raised_numbers values index delta)
            (raised_numbers weights index (pos (nat_abs delta))) }
    {
        let size = delta.unsigned_abs();
        let weight = hash_weighted(sign_of::<F>(delta), &self.seat, index);
        let term = F::of(size).times(weight);
        self.hash = F::of_number(self.hash).plus(term).number();
        self.weight += size;
    }

    /// The root after each of these updates, whatever their sides.
    ///
    /// One `times` for an update and eight challenges, and 518 for eight challenges, whose table is
    /// on the stack for this call. A block of less than 32 updates is `update` for each.
    #[inline(never)]
    pub fn update_all(&mut self, updates: &[Update])
        requires depth { length self.old.seat ≤ most_depth }
        requires items { All (λ u. u.item < 2 ^ length self.old.seat) updates.now }
        requires weight { weight_after self.old.weight updates.now ≤ most_weight }
        ensures seat { self.new.seat ≡ self.old.seat }
        ensures hash { self.new.hash
            ≡ split_after F.MODULUS self.old.seat self.old.hash updates.now }
        ensures weight { self.new.weight ≡ weight_after self.old.weight updates.now }
        ensures stands { (values weights : List ℤ)
            → SplitRootStandsFor F.MODULUS self.old.seat self.old.hash self.old.weight
            values weights
            → SplitRootStandsFor F.MODULUS self.new.seat self.new.hash self.new.weight
            (numbers_after values updates.now) (numbers_after weights (map absolute updates.now)) }
    {
        if updates.len() < BLOCK {
            for update in updates {
                self.update(update.item, update.delta);
            }
        } else {
            let mut tables = [[Step { scale: 0, shift: 0 }; 256]; 6];
            let count = fill_steps(&mut tables, &self.seat);
            let hash = F::of_number(self.hash);
            self.hash = split_hashed(hash, &tables[..count], updates).number();
            let mut weight = self.weight;
            for update in updates {
                weight += update.delta.unsigned_abs();
            }
            self.weight = weight;
        }
    }

    /// The root of the entrywise sums, where `other` is that of more values and weights for the
    /// same challenges: so what two roots were fed with apart adds up, in any order.
    ///
    /// One `plus`, and no memory.
    pub fn absorb(&mut self, other: &SplitRoot<F, CAP>)
        requires seat { other.now.seat ≡ self.old.seat }
        requires weight { self.old.weight + other.now.weight ≤ most_weight }
        ensures seat { self.new.seat ≡ self.old.seat }
        ensures hash { self.new.hash ≡ (self.old.hash + other.now.hash) % F.MODULUS }
        ensures weight { self.new.weight ≡ self.old.weight + other.now.weight }
        ensures stands { (values others weights more : List ℤ)
            → SplitRootStandsFor F.MODULUS self.old.seat self.old.hash self.old.weight
            values weights
            → SplitRootStandsFor F.MODULUS other.now.seat other.now.hash other.now.weight
            others more
            → SplitRootStandsFor F.MODULUS self.new.seat self.new.hash self.new.weight
            (added_numbers values others) (added_numbers weights more) }
        ensures joins { (depth : ℕ) (stream more : List AnyUpdate) (side : AnySide)
            → SplitRootStandsFor F.MODULUS self.old.seat self.old.hash self.old.weight
            (vector depth stream side) (weights depth stream side)
            → SplitRootStandsFor F.MODULUS other.now.seat other.now.hash other.now.weight
            (vector depth more side) (weights depth more side)
            → SplitRootStandsFor F.MODULUS self.new.seat self.new.hash self.new.weight
            (vector depth (stream ++ more) side) (weights depth (stream ++ more) side) }
    {
        let more = F::of_number(other.hash);
        self.hash = F::of_number(self.hash).plus(more).number();
        self.weight += other.weight;
    }

    /// The hash.
    pub fn hash(&self) -> F
        ensures { F.number result ≡ self.now.hash }
    {
        F::of_number(self.hash)
    }

    /// The sum of the weights.
    pub fn weight(&self) -> u64
        ensures same { result ≡ self.now.weight }
        ensures most { result ≤ most_weight }
    {
        self.weight
    }
}

/// The root of zeros at the default seat.
impl<F: Field, const CAP: usize> Default for SplitRoot<F, CAP> {
    ghost is_default = { λ root. (root.seat ≡ replicate (min 1 CAP) 0) × (root.hash ≡ 0)
        × (root.weight ≡ 0) };

    fn default() -> SplitRoot<F, CAP> {
        SplitRoot::new(Seat::default())
    }
}
