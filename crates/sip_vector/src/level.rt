//! The nodes of one height over a vector, kept by those that are not 0.

ghost use Rattle.std.specs.Prelude.{ℕ, ◌≡◌, ◌*◌, ◌^◌, ◌<◌, ◌≤◌, ◌↔◌, pos, length, map, drop};
ghost use Rattle.std.specs.Prelude.{slice_get, slice_index, IfOk, IsTrue};
ghost use Rattle.std.specs.Option.{option_map};
ghost use Rattle.sip_field.specs.Residue.{residue};
ghost use Rattle.sip_vector.specs.Trees.{up};
ghost use Rattle.sip_vector.specs.Extensions.{line};
ghost use Rattle.sip_vector.specs.Limits.{most_depth};
ghost use Rattle.sip_vector.specs.Sparse.{IsSparse, dense};
ghost use Rattle.sip_vector.specs.Streams.{most_weight};
ghost use Rattle.sip_vector.specs.Vectors.{numbers_of};
ghost use Rattle.sip_vector.specs.inside.Gathered.{as_pair, abs_sum};
ghost use Rattle.sip_vector.specs.Levels.{index_and_residue, nonzero_from, level_above};
ghost use Rattle.sip_vector.specs.Levels.{residue_above, above_one, before, begins_with_pair};
ghost use Rattle.sip_vector.specs.Levels.{folded};

use crate::{Depth, Entry, Vector};
use sip_field::{Field, OutOfMemory};
use std::alloc::Global;
use std::marker::Model;

/// A place in a list of field values.
#[derive(Clone, Copy, Debug, PartialEq, Eq)]
pub struct Spot<F> {
    /// Its place in the list, from 0.
    pub index: u64,
    /// The residue that stands there.
    pub value: F,
}

/// The rule by which a pair of neighbours becomes one entry of the level above.
#[derive(Clone, Copy)]
enum Rule {
    /// `left + r * right`.
    Tree,
    /// `left + r * (right - left)`.
    Line,
}

impl Rule {
    #[tactic(auto, using(sip_field::proofs::Residues::residues))]
    fn above<F: Field>(self, r: F, left: F, right: F) -> F
        ensures { F.number result ≡ residue_above F.MODULUS self (F.number r) (F.number left)
            (F.number right) }
    {
        match self {
            Rule::Tree => left.plus(r.times(right)),
            Rule::Line => left.plus(r.times(right.minus(left))),
        }
    }
}

/// The nodes of one height over a vector: at first its residues, and half as many after each fold.
///
/// A contract sees the list of all their residues. Only the nodes that are not 0 take memory, no
/// call goes over the others, and no fold takes memory or makes their list longer. In the costs
/// below m is their number.
#[derive(Drop)]
pub struct Level<F: Field> {
    folds_left: u8,
    spots: Vec<Spot<F>>,
}

impl<F: Field> Model for Level<F> {
    ghost use Rattle.std.specs.Prelude.{ℕ, List, ◌^◌, ◌≤◌, map};
    ghost use Rattle.sip_vector.specs.Limits.{most_depth};
    ghost use Rattle.sip_vector.specs.Sparse.{dense, IsSparse};

    ghost Value = { List ℕ };

    ghost use Rattle.sip_vector.specs.Levels.{index_and_residue};

    ghost view = { λ l. dense 0 (2 ^ l.folds_left)
        (map (index_and_residue F.number) l.spots.items) };

    ghost invariant = { λ l. (l.folds_left ≤ most_depth) × IsSparse 0 0 (2 ^ l.folds_left)
        (map (index_and_residue F.number) l.spots.items) };
}

impl<F: Field> Level<F> {
    /// The residues of a vector's numbers. O(m) in time and memory. Where additions are pending in
    /// the vector they are sorted and merged in a copy first.
    pub fn of(alloc: Global, vector: &Vector) -> Result<Level<F>, OutOfMemory>
        ensures residues { IfOk result (λ level. level
            ≡ map (residue F.MODULUS) vector.now.numbers) }
        ensures length { IfOk result (λ level. length level ≡ 2 ^ vector.now.depth) }
    {
        let depth = vector.depth();
        if let Some(list) = vector.settled_list() {
            return Level::of_list(alloc, depth, list);
        }
        let list = vector.merged_list(alloc)?;
        Level::of_list(alloc, depth, &list)
    }

    // The residues of the numbers of a rising list without 0.
    fn of_list(alloc: Global, depth: Depth, list: &[Entry]) -> Result<Level<F>, OutOfMemory>
        requires sparse { IsSparse (pos 0) 0 (2 ^ depth) (map as_pair list.now) }
        requires light { abs_sum list.now ≤ most_weight }
        ensures residues { IfOk result (λ level. level
            ≡ map (residue F.MODULUS) (numbers_of depth (map as_pair list.now))) }
        ensures length { IfOk result (λ level. length level ≡ 2 ^ depth) }
    {
        let mut spots = Vec::with_capacity(alloc, list.len())?;
        for entry in list {
            let value = F::of_signed(entry.value);
            if value.number() == 0 {
                continue;
            }
            spots.push(Spot {
                index: entry.index,
                value,
            })?;
        }
        Ok(Level {
            folds_left: depth.get(),
            spots,
        })
    }

    /// The level above by the rule of the hash tree: each pair becomes `left + r * right`. O(m),
    /// one `times` a pair.
    pub fn fold_tree(&mut self, r: F)
        requires { 2 ≤ length self.old }
        ensures above { self.new ≡ up F.MODULUS self.old (F.number r) }
        ensures half { 2 * length self.new ≡ length self.old }
    {
        self.fold(Rule::Tree, r);
    }

    /// The level above by the rule of the multilinear extension: each pair becomes `left + r *
    /// (right - left)`. O(m), one `times` a pair.
    pub fn fold_line(&mut self, r: F)
        requires { 2 ≤ length self.old }
        ensures above { self.new ≡ line F.MODULUS self.old (F.number r) }
        ensures half { 2 * length self.new ≡ length self.old }
    {
        self.fold(Rule::Line, r);
    }

    /// How many folds are left. A list of two or more entries can be folded.
    pub fn folds_left(&self) -> u8
        ensures exact { length self.now ≡ 2 ^ result }
        ensures some { (0 < result) ↔ (2 ≤ length self.now) }
        ensures most { result ≤ most_depth }
    {
        self.folds_left
    }

    fn fold(&mut self, rule: Rule, r: F)
        requires { 2 ≤ length self.old }
        ensures above { self.new ≡ level_above F.MODULUS rule (F.number r) self.old }
        ensures half { 2 * length self.new ≡ length self.old }
    {
        fold_spots(&mut self.spots, rule, r);
        self.folds_left -= 1;
    }

    /// The node at `index`. O(log m).
    pub fn at(&self, index: u64) -> F
        requires { index < length self.now }
        ensures { F.number result ≡ slice_index self.now index }
    {
        match self.next_nonzero(index) {
            Some(spot) if spot.index == index => spot.value,
            _ => F::of(0),
        }
    }

    /// The nodes that are not 0, in the order of their indices: the list that is kept. O(1).
    pub fn nonzero(&self) -> &[Spot<F>]
        ensures all { map (index_and_residue F.number) result.now ≡ nonzero_from 0 self.now }
        ensures sparse { IsSparse 0 0 (length self.now)
            (map (index_and_residue F.number) result.now) }
        ensures level { dense 0 (length self.now)
            (map (index_and_residue F.number) result.now) ≡ self.now }
    {
        &self.spots
    }

    /// The first node that is not 0, at `from` or after it. `None` where there is none. O(log m),
    /// without memory.
    pub fn next_nonzero(&self, from: u64) -> Option<Spot<F>>
        ensures { option_map (index_and_residue F.number) result
            ≡ slice_get (nonzero_from from self.now) 0 }
    {
        let at = self.spots.partition_point(|spot| spot.index < from);
        self.spots.get(at).copied()
    }
}

// Writes the spots above over these. A spot above comes after one spot or two, so it never takes
// the place of one that is still to be read.
fn fold_spots<F: Field>(spots: &mut Vec<Spot<F>>, rule: Rule, r: F)
    ensures { map (index_and_residue F.number) spots.new.items
        ≡ folded (residue_above F.MODULUS rule (F.number r))
        (map (index_and_residue F.number) spots.old.items) }
{
    let mut written = 0;
    let mut read = 0;
    while read < spots.len() {
        let (spot, count) = spot_above(&spots[read..], rule, r);
        read += count;
        if spot.value.number() != 0 {
            spots[written] = spot;
            written += 1;
        }
    }
    spots.truncate(written);
}

// The spot above the first one, and how many lie below it: 2 where the second is the first one's
// neighbour, and else 1.
fn spot_above<F: Field>(spots: &[Spot<F>], rule: Rule, r: F) -> (Spot<F>, usize)
    requires { 0 < length spots.now }
    ensures some { 1 ≤ result.1 }
    ensures within { result.1 ≤ length spots.now }
    ensures above { let join = residue_above F.MODULUS rule (F.number r) in
        let entries = map (index_and_residue F.number) spots.now in
        folded join entries ≡ before result.0.index (F.number result.0.value)
        (folded join (drop result.1 entries)) }
{
    let first = spots[0];
    let index = first.index / 2;
    if begins_with_pair(spots) {
        let value = rule.above(r, first.value, spots[1].value);
        return (Spot { index, value }, 2);
    }
    let (left, right) = with_zero(first);
    let value = rule.above(r, left, right);
    (Spot { index, value }, 1)
}

// A spot's value on its side, and 0 on the other. There is no branch on the side, which is as good
// as random.
fn with_zero<F: Field>(spot: Spot<F>) -> (F, F)
    ensures { (join : ℕ → ℕ → ℕ) → join (F.number result.0) (F.number result.1)
        ≡ above_one join (index_and_residue F.number spot) }
{
    let zero = F::of(0);
    if spot.index % 2 == 0 {
        (spot.value, zero)
    } else {
        (zero, spot.value)
    }
}

// Whether the first two spots lie below one node.
fn begins_with_pair<F>(spots: &[Spot<F>]) -> bool
    ensures same { result ≡ begins_with_pair (map (λ s. s.index) spots.now) }
    ensures two { IsTrue result → 1 < length spots.now }
{
    match spots {
        [first, second, ..] => first.index / 2 == second.index / 2,
        _ => false,
    }
}
