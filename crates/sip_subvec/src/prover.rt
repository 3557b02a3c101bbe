//! The honest side of a check: the true siblings of an interval, level by level.

ghost use Rattle.std.specs.Prelude.{◌≡◌, ◌*◌, ◌^◌, ◌<◌, ◌≤◌, ◌↔◌, length, Option, IfOk};
ghost use Rattle.std.specs.Option.{option_map};
ghost use Rattle.sip_vector.specs.Limits.{most_depth};
ghost use Rattle.sip_subvec.specs.Honest.{begun, learnt, its_siblings};

use crate::nodes::{entries_of, node, tables_of};
use sip_field::{Field, OutOfMemory};
use sip_vector::{Entry, Vector};
use std::alloc::Global;
use std::marker::Model;
use std::rc::Rc;

/// The nodes beside an interval of a level, where they are present.
#[derive(Clone, Copy, Debug, PartialEq, Eq)]
pub struct SiblingPair<F> {
    /// The node before the interval, present where the interval's low end is odd.
    pub left: Option<F>,
    /// The node behind it, present where its high end is even.
    pub right: Option<F>,
}

/// What an honest helper keeps to prove the entries from `lo` to `hi` of a vector.
///
/// A contract sees the level of the tree that the challenges so far lead to, as the list of all its
/// residues, and the interval of its nodes above the entries. The list of the m entries that are
/// not 0 is the vector's own, and what takes memory is the challenges; where additions are pending
/// in the vector the prover has a list to itself. No level is made: a node is the sum of the
/// entries below it, each times the product of the challenges at the bits of its index that are 1
/// (Cormode, Thaler, Yi, PVLDB 5(1), section 4). The siblings of different levels lie above
/// different entries, so each entry counts for one sibling at most.
#[derive(Drop)]
pub struct SubProver<F: Field> {
    // The vector's own list where it was settled. A vector writes to no list that it shares but
    // makes a new one, so what becomes of it later does not reach the prover.
    entries: Rc<Vec<Entry>>,
    challenges: Vec<F>,
    levels_left: u8,
    lo: u64,
    hi: u64,
}

impl<F: Field> Model for SubProver<F> {
    ghost use Rattle.std.specs.Prelude.{◌+◌, length, map, vec_capacity};
    ghost use Rattle.sip_subvec.specs.Honest.{Proving};
    ghost use Rattle.sip_subvec.specs.Summing.{level_over, IsSumming};

    ghost Value = { Proving };

    ghost view = { λ s. record {
      level = level_over F.MODULUS (s.levels_left + length s.challenges.items) s.entries.value.items
          (map F.number s.challenges.items);
      lo = s.lo;
      hi = s.hi;
    } };

    ghost invariant = { λ s. IsSumming s.entries.value.items (length s.challenges.items)
        (vec_capacity s.challenges) s.levels_left s.lo s.hi };
}

impl<F: Field> SubProver<F> {
    /// Begins at the vector's numbers as they are now, and stays at them whatever becomes of the
    /// vector. O(1), and memory for the challenges. Where additions are pending in the vector, a
    /// walk over its entries by `Vector::next_entry`, and memory for these too. No later call takes
    /// any; the vector's list keeps its memory as long as the prover has it.
    pub fn start(
        alloc: Global,
        vector: &Vector,
        lo: u64,
        hi: u64,
    ) -> Result<SubProver<F>, OutOfMemory>
        requires order { lo ≤ hi }
        requires within { hi < 2 ^ vector.now.depth }
        ensures begun { IfOk result (λ prover. prover ≡ begun F.MODULUS vector.now.numbers lo hi) }
        ensures length { IfOk result (λ prover. length prover.level ≡ 2 ^ vector.now.depth) }
    {
        let entries = entries_of(alloc, vector)?;
        let levels_left = vector.depth().get();
        let challenges = Vec::with_capacity(alloc, levels_left as usize)?;
        Ok(SubProver {
            entries,
            challenges,
            levels_left,
            lo,
            hi,
        })
    }

    /// How many levels are left below the root, the present one among them: each has siblings to
    /// give and a challenge to learn.
    pub fn levels_left(&self) -> u8
        ensures exact { length self.now.level ≡ 2 ^ result }
        ensures some { (0 < result) ↔ (2 ≤ length self.now.level) }
        ensures most { result ≤ most_depth }
    {
        self.levels_left
    }

    /// The siblings of the interval: the node left of it where its first index is odd, and the one
    /// right of it where its last index is even.
    ///
    /// O(log m), without memory: 255 `times` for each eight challenges so far, whose products are
    /// on the stack for this call. An entry below the siblings takes one for each eight challenges
    /// that tell it from its neighbours, so that some 32 of them have the higher bits in common,
    /// and such a run takes one for each eight challenges above these.
    pub fn siblings(&self) -> SiblingPair<F>
        requires { 2 ≤ length self.now.level }
        ensures left { option_map F.number result.left ≡ (its_siblings self.now).left }
        ensures right { option_map F.number result.right ≡ (its_siblings self.now).right }
    {
        let mut tables = [[1; 256]; 6];
        let count = tables_of(&mut tables, &self.challenges);
        let height = self.challenges.len();
        let left = if self.lo % 2 == 1 {
            Some(node(&self.entries, &tables[..count], height, self.lo - 1))
        } else {
            None
        };
        let right = if self.hi % 2 == 0 {
            Some(node(&self.entries, &tables[..count], height, self.hi + 1))
        } else {
            None
        };
        SiblingPair { left, right }
    }

    /// Goes to the level above by its challenge. O(1), without memory.
    pub fn learn(&mut self, r: F)
        requires { 2 ≤ length self.old.level }
        ensures learnt { self.new ≡ learnt F.MODULUS self.old (F.number r) }
        ensures half { 2 * length self.new.level ≡ length self.old.level }
    {
        self.challenges.push(r).unwrap();
        self.levels_left -= 1;
        self.lo /= 2;
        self.hi /= 2;
    }
}
