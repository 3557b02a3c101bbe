//! The verifier's check of heavy hitters, level by level in reserved space.

ghost use Rattle.std.specs.Prelude.{◌≡◌, ℕ, ◌+◌, ◌*◌, ◌/◌, ◌^◌, ◌<◌, ◌≤◌, ◌==◌, ◌&&◌};
ghost use Rattle.std.specs.Prelude.{not, false, nat_le, nat_abs, pos, ◌≤ℤ◌, slice_index, List, []};
ghost use Rattle.std.specs.Prelude.{◌∷◌, ◌++◌, length, is_err, IfOk};
ghost use Rattle.sip_field.specs.Residue.{residue};
ghost use Rattle.sip_heavy.specs.declared.form.LeafForm.TheVariants as forms;
ghost use Rattle.sip_heavy.specs.AcceptsHeavy.{HeavyQuestion, asking, end_test, leaf_node};
ghost use Rattle.sip_heavy.specs.AcceptsHeavy.{merged, nodes_above, top_test};
ghost use Rattle.sip_heavy.specs.Checking.{Advances, AnswersAs, Begun, GivenNodes, HasTaken};
ghost use Rattle.sip_heavy.specs.Checking.{Takes, asked_of, nothing};
ghost use Rattle.sip_heavy.specs.Protocol.{are_counts, leaf_place};

mod steps;

use crate::form::LeafForm;
use crate::space::HeavySpace;
use sip_field::{Field, Seat};
use sip_tree::{AugRoot, SplitRoot};
use sip_vector::Entry;
use sip_wire::{Node, Place, Reason};
use std::marker::Model;

/// The check of the replies to one query for heavy hitters: the entries of at least a threshold.
///
/// It keeps the hash of a root and its challenges, the nodes of one level, those known of it from
/// the level below, and what was found at the lowest: three lists in the space that it was lent.
/// None of them grows beyond its room. Received nodes are merged with the known ones as they come,
/// and at a level's end its pairs become the known nodes of the level above.
///
/// The calls come in the order of a talk: each `leaf`, or each `mark` where it was started by the
/// root of a split tree, then `level_end`; for each level above a `reveal`, each `node`, and
/// `level_end`; at last `finish`. A refusal spends the check.
#[derive(Drop)]
pub struct HeavyCheck<F: Field, const CAP: usize> {
    form: LeafForm,
    // The hash of the root.
    hash: u64,
    at_least: u64,
    // The sum of the leaves' counts.
    total: u64,
    // The greatest number of nodes of a level.
    most: usize,
    // The number of levels whose end was given.
    level: usize,
    // The number of challenges that were revealed.
    revealed: usize,
    // The nodes that are known from the level below.
    known: Vec<Node>,
    // The nodes of the level so far: those received, and the known ones before the last of these.
    nodes: Vec<Node>,
    // How many of the known nodes are among these.
    passed: usize,
    // The index of the last node received in this reply.
    last: Option<u64>,
    found: Vec<Entry>,
    // How many nodes each list has room for.
    room: usize,
    spent: bool,
    // The last field: its size depends on CAP, and those before it have short proofs so.
    seat: Seat<F, CAP>,
}

impl<F: Field, const CAP: usize> Model for HeavyCheck<F, CAP> {
    ghost use Rattle.std.specs.Prelude.{◌≤◌, vec_capacity};
    ghost use Rattle.sip_heavy.specs.Checking.{Kept, IsSound};

    ghost Value = { Kept };

    ghost use Rattle.sip_heavy.specs.CheckFields.{kept_in};

    ghost view = { kept_in };

    ghost invariant = { λ c. IsSound (kept_in c)
        × (c.room ≤ vec_capacity c.known) × (c.room ≤ vec_capacity c.nodes)
        × (c.room ≤ vec_capacity c.found) };
}

impl<F: Field, const CAP: usize> HeavyCheck<F, CAP> {
    /// The check of the entries of at least `at_least` in the vector that has this root, in space
    /// that is lent for it.
    ///
    /// No `times`: one copy of the challenges.
    pub fn start(root: &AugRoot<F, CAP>, at_least: u64, space: HeavySpace) -> HeavyCheck<F, CAP>
        requires least { 1 ≤ at_least }
        requires total { pos at_least ≤ℤ root.now.total }
        requires room { 2 * (nat_abs root.now.total / at_least) ≤ space.nodes }
        ensures taken { let asked = asking forms.Count (length root.now.seat) at_least
            (nat_abs root.now.total) in
            HasTaken F.MODULUS asked root.now.hash root.now.seat nothing result }
        ensures begun { Begun root.now.seat space.nodes result }
    {
        let total = root.total.unsigned_abs();
        HeavyCheck::begin(
            LeafForm::Count,
            &root.seat,
            root.hash,
            at_least,
            total,
            space,
        )
    }

    /// The check of the entries of at least `at_least` in the vector whose split tree has this
    /// root, in space that is lent for it. Its leaves are marks.
    ///
    /// No `times`: one copy of the challenges.
    pub fn start_above(
        root: &SplitRoot<F, CAP>,
        at_least: u64,
        space: HeavySpace,
    ) -> HeavyCheck<F, CAP>
        requires least { 1 ≤ at_least }
        requires weight { at_least ≤ root.now.weight }
        requires room { 2 * (root.now.weight / at_least) ≤ space.nodes }
        ensures taken { let asked = asking forms.Mark (length root.now.seat) at_least
            root.now.weight in
            HasTaken F.MODULUS asked root.now.hash root.now.seat nothing result }
        ensures begun { Begun root.now.seat space.nodes result }
    {
        HeavyCheck::begin(
            LeafForm::Mark,
            &root.seat,
            root.hash,
            at_least,
            root.weight,
            space,
        )
    }

    // A check by leaves of this form, whose counts have this sum; it may be below `at_least`.
    pub(crate) fn begin(
        form: LeafForm,
        seat: &Seat<F, CAP>,
        hash: u64,
        at_least: u64,
        total: u64,
        space: HeavySpace,
    ) -> HeavyCheck<F, CAP>
        requires least { 1 ≤ at_least }
        requires small { total < 2 ^ 61 }
        requires room { 2 * (total / at_least) ≤ space.nodes }
        ensures taken { let asked = asking form (length seat.now) at_least total in
            HasTaken F.MODULUS asked hash seat.now nothing result }
        ensures begun { Begun seat.now space.nodes result }
    {
        let HeavySpace {
            nodes: room,
            mut known,
            mut level,
            mut found,
        } = space;
        known.clear();
        level.clear();
        found.clear();
        HeavyCheck {
            form,
            hash,
            at_least,
            total,
            most: 2 * (total / at_least) as usize,
            level: 0,
            revealed: 0,
            known,
            nodes: level,
            passed: 0,
            last: None,
            found,
            room,
            spent: false,
            seat: copy_of(seat),
        }
    }

    /// Takes a leaf of reply 0: `Reason::BadOrder` where its item is not above the one before or is
    /// outside the level, and else `Reason::TooMany` where the level has no more room.
    ///
    /// No `times`, and constant time.
    pub fn leaf(&mut self, item: u64, count: u64) -> Result<(), Reason>
        requires unspent { self.old.spent ≡ false }
        requires lowest { self.old.level ≡ 0 }
        requires small { count < F.MODULUS }
        ensures answers { Takes F.MODULUS self.old (leaf_node item count ∷ []) self.new result }
        ensures advances { Advances self.old self.new 0 0 }
        ensures spent { self.new.spent ≡ is_err result }
    {
        let taken = self.take(Node {
            index: item,
            hash: count,
            count,
        });
        self.spent = taken.is_err();
        taken
    }

    /// Takes a leaf of reply 0 that has a value and a weight: the reasons are those of `leaf`.
    ///
    /// No `times`, and constant time.
    pub fn mark(&mut self, item: u64, value: i64, weight: u64) -> Result<(), Reason>
        requires unspent { self.old.spent ≡ false }
        requires lowest { self.old.level ≡ 0 }
        requires small { weight < F.MODULUS }
        ensures answers { Takes F.MODULUS self.old (record {
          index = item;
          hash = residue F.MODULUS value;
          count = weight;
        } ∷ []) self.new result }
        ensures advances { Advances self.old self.new 0 0 }
        ensures spent { self.new.spent ≡ is_err result }
    {
        let taken = self.take(Node {
            index: item,
            hash: F::of_signed(value).number(),
            count: weight,
        });
        self.spent = taken.is_err();
        taken
    }

    /// Takes a received node of a level above the lowest: `Reason::BadOrder` where its index is not
    /// above the one before, or is outside the level, or known; else `Reason::TooMany` where the
    /// level has no more room; else `Reason::HeavySibling` where its count is at least the
    /// threshold.
    ///
    /// No `times`. Each known node that is below the index and not passed before is passed: over a
    /// level, the time is linear in its nodes.
    pub fn node(&mut self, index: u64, hash: F, count: u64) -> Result<(), Reason>
        requires unspent { self.old.spent ≡ false }
        requires above { 0 < self.old.level }
        requires small { count < F.MODULUS }
        ensures answers { Takes F.MODULUS self.old
            (record { index = index; hash = F.number hash; count = count } ∷ []) self.new result }
        ensures advances { Advances self.old self.new 0 0 }
        ensures spent { self.new.spent ≡ is_err result }
    {
        let taken = self.take(Node {
            index,
            hash: hash.number(),
            count,
        });
        self.spent = taken.is_err();
        taken
    }

    /// Ends the reply of a level: `Reason::Pairs` where a node has no sibling, or the last level no
    /// node; else `Reason::LightParent` where a pair's count is below the threshold; else
    /// `Reason::Total` where one is above the total.
    ///
    /// One `times`, and three a pair, which make the known nodes of the level above.
    pub fn level_end(&mut self) -> Result<(), Reason>
        requires unspent { self.old.spent ≡ false }
        requires left { self.old.level < length self.old.challenges }
        ensures answers { (q : HeavyQuestion) (root : ℕ) (challenges : List ℕ) (g : GivenNodes)
            → HasTaken F.MODULUS q root challenges g self.old
            → AnswersAs (end_test q self.old.level (merged self.old.known g.received))
            (λ _. HasTaken F.MODULUS q root challenges
            (record { ended = g.ended ++ g.received ∷ []; received = [] }) self.new) result }
        ensures advances { IfOk result (λ _. Advances self.old self.new 1 0) }
        ensures known { (q : HeavyQuestion) (root : ℕ) (challenges : List ℕ) (g : GivenNodes)
            → HasTaken F.MODULUS q root challenges g self.old
            → IfOk result (λ _. self.new.known ≡ nodes_above F.MODULUS
            (slice_index self.old.challenges self.old.level)
            (merged self.old.known g.received)) }
        ensures room { self.new.room ≡ self.old.room }
        ensures spent { self.new.spent ≡ is_err result }
    {
        self.pass_all();
        if let Err(reason) = self.test_level() {
            self.spent = true;
            return Err(reason);
        }
        self.keep_heavy();
        self.fold_level();
        Ok(())
    }

    /// The next challenge, in the order from `r_1` on: the one that reply `j` waits for is `r_j`.
    /// The last one, `r_d`, is never revealed.
    ///
    /// No `times`.
    pub fn reveal(&mut self) -> F
        requires unspent { self.old.spent ≡ false }
        requires given { self.old.level ≡ self.old.revealed + 1 }
        requires left { self.old.level < length self.old.challenges }
        ensures challenge { F.number result ≡ slice_index self.old.challenges self.old.revealed }
        ensures revealed { self.new ≡ record self.old { revealed = self.old.revealed + 1 } }
        ensures taken { (q : HeavyQuestion) (root : ℕ) (challenges : List ℕ) (g : GivenNodes)
            → HasTaken F.MODULUS q root challenges g self.old
            → HasTaken F.MODULUS q root challenges g self.new }
    {
        self.revealed += 1;
        self.seat.at(self.revealed)
    }

    /// Ends the check: `Reason::Total` where the count of the top node is not the total, and else
    /// `Reason::Root` where its hash is not the root.
    ///
    /// No `times`.
    pub fn finish(&mut self) -> Result<(), Reason>
        requires unspent { self.old.spent ≡ false }
        requires whole { self.old.level ≡ length self.old.challenges }
        ensures answers { (q : HeavyQuestion) (root : ℕ) (challenges : List ℕ) (g : GivenNodes)
            → HasTaken F.MODULUS q root challenges g self.old
            → result ≡ top_test q root self.old.known }
        ensures spent { self.new ≡ record self.old { spent = is_err result } }
        ensures taken { (q : HeavyQuestion) (root : ℕ) (challenges : List ℕ) (g : GivenNodes)
            → HasTaken F.MODULUS q root challenges g self.old
            → HasTaken F.MODULUS q root challenges g self.new }
    {
        let tested = self.test_top();
        self.spent = tested.is_err();
        tested
    }

    /// Gives the space back, with as much room as it was lent with, and with what was found. Any
    /// call may stand before this one, also one that refused.
    pub fn into_space(self) -> HeavySpace
        ensures nodes { result.nodes ≡ self.room }
        ensures found { result.found ≡ self.found }
    {
        HeavySpace {
            nodes: self.room,
            known: self.known,
            level: self.nodes,
            found: self.found,
        }
    }

    /// Whether a call refused: then only this call and `into_space` may follow.
    pub fn spent(&self) -> bool
        ensures { result ≡ self.now.spent }
    {
        self.spent
    }

    // Whether the total reaches the threshold.
    pub(crate) fn reaches(&self) -> bool
        ensures { result ≡ nat_le self.now.at_least self.now.total }
    {
        self.total >= self.at_least
    }

    // Where leaves stand.
    pub(crate) fn leaf_place(&self) -> Place
        ensures { result ≡ leaf_place self.now.form }
    {
        match self.form {
            LeafForm::Count => Place::Leaves,
            LeafForm::Mark => Place::Marks,
        }
    }

    // Whether counts come next.
    pub(crate) fn awaits_counts(&self) -> bool
        ensures { result ≡ (are_counts self.now.form && (self.now.level == 0)) }
    {
        match self.form {
            LeafForm::Count => self.level == 0,
            LeafForm::Mark => false,
        }
    }

    // Whether marks come next.
    pub(crate) fn awaits_marks(&self) -> bool
        ensures { result ≡ (not (are_counts self.now.form) && (self.now.level == 0)) }
    {
        match self.form {
            LeafForm::Count => false,
            LeafForm::Mark => self.level == 0,
        }
    }

    // Whether the nodes that come next are leaves.
    pub(crate) fn is_lowest(&self) -> bool
        ensures { result ≡ (self.now.level == 0) }
    {
        self.level == 0
    }

    // What was found.
    pub(crate) fn found(&self) -> &[Entry]
        ensures found { result.now ≡ self.now.found }
        ensures few { length self.now.found ≤ self.now.most }
    {
        &self.found
    }

    // The number of challenges.
    pub(crate) fn depth(&self) -> usize
        ensures exact { result ≡ length self.now.challenges }
        ensures fits { result ≤ CAP }
    {
        self.seat.depth()
    }

    // The tests of the top node.
    fn test_top(&self) -> Result<(), Reason>
        ensures { result ≡ top_test (asked_of self.now) self.now.hash self.now.known }
    {
        match self.known.first() {
            None => Err(Reason::Pairs),
            Some(top) if top.count != self.total => Err(Reason::Total),
            Some(top) if top.hash != self.hash => Err(Reason::Root),
            Some(_) => Ok(()),
        }
    }
}

// The same challenges, once more.
fn copy_of<F: Field, const CAP: usize>(seat: &Seat<F, CAP>) -> Seat<F, CAP>
    ensures { result ≡ seat.now }
{
    seat.clone().unwrap()
}
