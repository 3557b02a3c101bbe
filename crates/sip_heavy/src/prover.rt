//! The honest side of a check: what is shown of each level.

ghost use Rattle.std.specs.Prelude.{◌≡◌, ◌*◌, ◌^◌, ◌<◌, ◌≤◌, ◌↔◌, pos, ◌≤ℤ◌, nat_abs, nat_le};
ghost use Rattle.std.specs.Prelude.{All, filter};
ghost use Rattle.std.specs.Prelude.{length, slice_get, IfOk, IfSome, IsSome};
ghost use Rattle.std.specs.List.{zip};
ghost use Rattle.std.specs.Option.{option_map};
ghost use Rattle.sip_field.specs.Elements.{m61_number};
ghost use Rattle.sip_field.specs.Moduli.{m61_modulus};
ghost use Rattle.sip_vector.specs.Limits.{most_depth};
ghost use Rattle.sip_heavy.specs.Honest.{begun, learnt, its_nodes, mark_of, node_of};
ghost use Rattle.sip_heavy.specs.HonestMarks.{begun_above};

use crate::form::LeafForm;
use crate::level::signed_of;
use crate::spots::{first_shown, fold_spots, leaves_of, marks_of, place_of};
use sip_field::{Field, M61, OutOfMemory};
use sip_vector::Vector;
use sip_wire::{Mark, Node};
use std::alloc::Global;
use std::marker::{Model, PhantomData};

/// A node of a level, or a leaf: its index, its hash and its count. A mark's count is its weight.
#[derive(Clone, Copy, Debug, PartialEq, Eq)]
pub struct HeavyNode<F> {
    /// Its place in its level, from 0.
    pub index: u64,
    /// The residue that stands for what is below it.
    pub hash: F,
    /// The sum of the entries below it.
    pub count: u64,
}

impl HeavyNode<M61> {
    /// A leaf as the mark that it is.
    pub fn mark(&self) -> Mark
        ensures { result ≡ mark_of m61_modulus (node_of m61_number self.now) }
    {
        Mark {
            item: self.index,
            value: signed_of(self.hash),
            weight: self.count,
        }
    }
}

/// What an honest helper keeps to show the entries of a vector that are at least a threshold.
///
/// A contract sees the level of the augmented tree that the challenges so far lead to, as the list
/// of all its nodes. Only the m nodes that are not zero take memory, 24 bytes each; no call goes
/// over the others, and `learn` folds them in place. The idea of a tree whose nodes also count is
/// that of Cormode, Thaler and Yi (PVLDB 5(1)).
#[derive(Drop)]
pub struct HeavyProver<F: Field> {
    form: LeafForm,
    at_least: u64,
    // Whether the level is the lowest.
    is_leaf: bool,
    levels_left: u8,
    spots: Vec<Node>,
    field: PhantomData<F>,
}

impl<F: Field> Model for HeavyProver<F> {
    ghost use Rattle.std.specs.Prelude.{◌^◌};
    ghost use Rattle.sip_heavy.specs.Honest.{Proving};
    ghost use Rattle.sip_heavy.specs.Spots.{whole_level, IsKept};

    ghost Value = { Proving };

    ghost view = { λ s. record {
      form = s.form;
      at_least = s.at_least;
      is_leaf = s.is_leaf;
      level = whole_level (2 ^ s.levels_left) 0 s.spots.items;
    } };

    ghost invariant = { λ s. IsKept F.MODULUS s.at_least s.levels_left s.spots.items };
}

impl<F: Field> HeavyProver<F> {
    /// Begins at the leaves over a vector without negative numbers. It takes memory for the entries
    /// that are not 0; no later call takes any. O(m), and slower where additions are pending in the
    /// vector.
    pub fn start(
        alloc: Global,
        vector: &Vector,
        at_least: u64,
    ) -> Result<HeavyProver<F>, OutOfMemory>
        requires strict { All (λ a. pos 0 ≤ℤ a) vector.now.numbers }
        requires some { 1 ≤ at_least }
        ensures begun { IfOk result (λ prover. prover
            ≡ begun F.MODULUS vector.now.numbers at_least) }
        ensures length { IfOk result (λ prover. length prover.level ≡ 2 ^ vector.now.depth) }
    {
        let spots = leaves_of::<F>(alloc, vector)?;
        // The proof wants the bound of the numbers.
        let _ = vector.weight();
        Ok(HeavyProver {
            form: LeafForm::Count,
            at_least,
            is_leaf: true,
            levels_left: vector.depth().get(),
            spots,
            field: PhantomData,
        })
    }

    /// Begins at the marks over a vector of values and one of their weights; `None` exactly where a
    /// weight is below the size of its value. It takes memory for the weights that are not 0; no
    /// later call takes any. O(m), and slower where additions are pending in a vector.
    pub fn start_above(
        alloc: Global,
        values: &Vector,
        weights: &Vector,
        at_least: u64,
    ) -> Result<Option<HeavyProver<F>>, OutOfMemory>
        requires depth { values.now.depth ≡ weights.now.depth }
        requires some { 1 ≤ at_least }
        ensures weighed { IfOk result (λ made. IsSome made ↔ All (λ x. pos (nat_abs x.0) ≤ℤ x.1)
            (zip values.now.numbers weights.now.numbers)) }
        ensures begun { IfOk result (λ made. IfSome made (λ prover. prover
            ≡ begun_above F.MODULUS values.now.numbers weights.now.numbers at_least)) }
        ensures length { IfOk result (λ made. IfSome made (λ prover. length prover.level
            ≡ 2 ^ values.now.depth)) }
    {
        // The proof wants how many values there are, and the bound of the weights.
        let _ = values.depth();
        let levels_left = weights.depth().get();
        let Some(spots) = marks_of::<F>(alloc, values, weights)? else {
            return Ok(None);
        };
        let _ = weights.weight();
        Ok(Some(HeavyProver {
            form: LeafForm::Mark,
            at_least,
            is_leaf: true,
            levels_left,
            spots,
            field: PhantomData,
        }))
    }

    /// What leaves have: they are counts, or marks.
    pub fn form(&self) -> LeafForm
        ensures { result ≡ self.now.form }
    {
        self.form
    }

    /// How many levels are left below the root, the present one among them: each has nodes to show
    /// and a challenge to learn.
    pub fn levels_left(&self) -> u8
        ensures exact { length self.now.level ≡ 2 ^ result }
        ensures some { (0 < result) ↔ (2 ≤ length self.now.level) }
        ensures most { result ≤ most_depth }
    {
        self.levels_left
    }

    /// The first node that is shown of the level, at `from` or after it; `None` where there is
    /// none, as at the root.
    ///
    /// A walk over the nodes up to the one that is found, without memory, from a place that `near`
    /// tells or else a search of O(log m) finds. `near` may be any number, and tells the place for
    /// the index behind the node then: whoever goes from node to node begins at 0, and a level
    /// costs O(m).
    pub fn next_node(&self, near: &mut usize, from: u64) -> Option<HeavyNode<F>>
        ensures first { option_map (node_of F.number) result
            ≡ slice_get (filter (λ x. nat_le from x.index) (its_nodes self.now)) 0 }
        ensures within { IfSome result (λ node. node.index < length self.now.level) }
    {
        if self.levels_left == 0 {
            return None;
        }
        let start = place_of(&self.spots, *near, from);
        let node = first_shown(&self.spots, start, self.at_least, self.is_leaf, from, near)?;
        Some(HeavyNode {
            index: node.index,
            hash: F::of(node.hash),
            count: node.count,
        })
    }

    /// Goes to the level above by its challenge. O(m), without memory: at most three `times` for
    /// each node above, one or two where one of its children is zero.
    pub fn learn(&mut self, r: F)
        requires { 2 ≤ length self.old.level }
        ensures learnt { self.new ≡ learnt F.MODULUS self.old (F.number r) }
        ensures half { 2 * length self.new.level ≡ length self.old.level }
    {
        fold_spots(&mut self.spots, r);
        self.is_leaf = false;
        self.levels_left -= 1;
    }
}
