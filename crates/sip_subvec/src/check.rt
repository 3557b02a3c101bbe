//! The verifier's check of a sub-vector, as one running sum.
ghost use Rattle.std.specs.Prelude.{◌≡◌, ◌≢◌, ℕ, ◌+◌, ◌-◌, ◌*◌, ◌/◌, ◌%◌, ◌^◌, ◌<◌, ◌≤◌, ◌&&◌};
ghost use Rattle.std.specs.Prelude.{◌==◌, true, false, pos, nat_abs, List, [], ◌∷◌, ◌++◌, length};
ghost use Rattle.std.specs.Prelude.{slice_index, is_some, is_err, IsTrue, IfOk};
ghost use Rattle.std.specs.Option.{option_map};
ghost use Rattle.sip_vector.specs.Answers.{is_within};
ghost use Rattle.sip_vector.specs.Steps.{needs};
ghost use Rattle.sip_replies.specs.Rising.{is_above};
ghost use Rattle.sip_subvec.specs.AcceptsSub.{Siblings, Stated, gives_root};
ghost use Rattle.sip_subvec.specs.Replies.{with_entries, asked_siblings, are_asked};
ghost use Rattle.sip_subvec.specs.Checking.{HasTaken, Advances, AnswersAs, nothing, entry_test};
ghost use Rattle.sip_subvec.specs.Checking.{sibling_term, level_sum};

use sip_field::Field;
use sip_replies::is_above;
use sip_tree::Root;
use sip_wire::Reason;
use std::marker::Model;

/// The greatest number of entries in an answer.
pub const MOST_ENTRIES: u64 = 65_536;

/// The check of the replies to one query for a sub-vector.
///
/// It keeps the root and its challenges, one sum, the last entry's index and a few counts: no list,
/// and no memory beyond itself. Each entry and each sibling is added to the sum, times its weight
/// in the root, and in the end the sum has to be the root. That is the same as to fold the level of
/// the entries with all siblings (`laws::weighted_sums_are_folds`).
///
/// The calls come in the order of a talk: each `entry`, then `siblings` for level 0, then for each
/// level above a `reveal` and its `siblings`, and at last `finish`. A refusal spends the check.
#[derive(Drop)]
pub struct SubCheck<F: Field, const CAP: usize> {
    root: Root<F, CAP>,
    // The interval of the level whose siblings come next: that of the query, halved for each level
    // below.
    lo: u64,
    hi: u64,
    // The number of levels whose siblings were given.
    level: usize,
    // The number of challenges that were revealed.
    revealed: usize,
    sum: F,
    // The index of the last entry.
    last: Option<u64>,
    // The number of entries.
    count: u64,
    spent: bool,
}

impl<F: Field, const CAP: usize> Model for SubCheck<F, CAP> {
    ghost use Rattle.std.specs.Prelude.{◌-◌, ◌^◌, ◌<◌, ◌≤◌, length};
    ghost use Rattle.sip_subvec.specs.Checking.{Kept};

    ghost Value = { Kept };

    ghost view = { λ c. record {
      challenges = c.root.seat;
      root = c.root.value;
      lo = c.lo;
      hi = c.hi;
      level = c.level;
      revealed = c.revealed;
      sum = F.number c.sum;
      last = c.last;
      count = c.count;
      spent = c.spent;
    } };

    ghost invariant = { λ c. (c.level ≤ length c.root.seat) × (c.lo ≤ c.hi)
        × (c.hi < 2 ^ (length c.root.seat - c.level)) };
}

impl<F: Field, const CAP: usize> SubCheck<F, CAP> {
    /// The check of the entries from `lo` to `hi`, both included, of the vector that has this root.
    ///
    /// No `times`: one copy of the challenges.
    pub fn start(root: &Root<F, CAP>, lo: u64, hi: u64) -> SubCheck<F, CAP>
        requires order { lo ≤ hi }
        requires item { hi < 2 ^ length root.now.seat }
        ensures taken { HasTaken F.MODULUS root.now.value lo hi root.now.seat nothing result }
        ensures challenges { result.challenges ≡ root.now.seat }
        ensures level { result.level ≡ 0 }
        ensures revealed { result.revealed ≡ 0 }
        ensures unspent { result.spent ≡ false }
    {
        SubCheck {
            root: copy_of(root),
            lo,
            hi,
            level: 0,
            revealed: 0,
            sum: F::of(0),
            last: None,
            count: 0,
            spent: false,
        }
    }

    /// The number of challenges.
    pub fn depth(&self) -> usize
        ensures exact { result ≡ length self.now.challenges }
        ensures fits { result ≤ CAP }
    {
        self.root.seat.depth()
    }

    /// Takes an entry of reply 0: `Reason::BadOrder` where its index is not above the last one or
    /// is outside the interval, and else `Reason::TooMany` where it is entry 65,537.
    ///
    /// One `times` for each bit of the index that is 1, and one more: d + 1 at most.
    pub fn entry(&mut self, index: u64, value: i64) -> Result<(), Reason>
        requires unspent { self.old.spent ≡ false }
        requires first { self.old.level ≡ 0 }
        requires some { value ≢ pos 0 }
        requires most { nat_abs value ≤ F.HALF }
        ensures answers { (root lo hi : ℕ) (challenges : List ℕ) (s : Stated)
            → HasTaken F.MODULUS root lo hi challenges s self.old
            → AnswersAs
            (with_entries lo hi s.entries (record { index = index; value = value } ∷ []))
            (λ entries. HasTaken F.MODULUS root lo hi challenges
            (record s { entries = entries }) self.new)
            self.new result }
        ensures advances { Advances self.old self.new 0 0 }
        ensures spent { self.new.spent ≡ is_err result }
    {
        if let Err(reason) = self.test_entry(index) {
            self.spent = true;
            return Err(reason);
        }
        let weight = self.root.weight_above(0, index);
        self.sum = self.sum.plus(F::of_signed(value).times(weight));
        self.last = Some(index);
        self.count += 1;
        Ok(())
    }

    // Whether an entry may come at this index.
    fn test_entry(&self, index: u64) -> Result<(), Reason>
        ensures { result ≡ entry_test self.now index }
    {
        if !self.is_in_order(index) {
            return Err(Reason::BadOrder);
        }
        if self.count >= MOST_ENTRIES {
            return Err(Reason::TooMany);
        }
        Ok(())
    }

    // Whether an index is in the interval and above the last one.
    fn is_in_order(&self, index: u64) -> bool
        ensures { result
            ≡ (is_within self.now.lo self.now.hi index && is_above self.now.last index) }
    {
        self.lo <= index && index <= self.hi && is_above(self.last, index)
    }

    /// Takes the siblings of a reply: `Reason::BadFlags` where those present are not the ones that
    /// the interval of this level asks for, a left one where its low end is odd, and a right one
    /// where its high end is even.
    ///
    /// For each sibling one `times` for each bit of its index that is 1, and one more.
    pub fn siblings(&mut self, left: Option<F>, right: Option<F>) -> Result<(), Reason>
        requires unspent { self.old.spent ≡ false }
        requires left { self.old.level < length self.old.challenges }
        requires learnt { self.old.revealed ≡ self.old.level }
        ensures answers { (root lo hi : ℕ) (challenges : List ℕ) (s : Stated)
            → HasTaken F.MODULUS root lo hi challenges s self.old
            → AnswersAs (asked_siblings (lo / 2 ^ self.old.level) (hi / 2 ^ self.old.level)
            (record { left = option_map F.number left; right = option_map F.number right }))
            (λ x. HasTaken F.MODULUS root lo hi challenges
            (record s { siblings = s.siblings ++ x ∷ [] }) self.new)
            self.new result }
        ensures advances { IfOk result (λ _. Advances self.old self.new 1 0) }
        ensures spent { self.new.spent ≡ is_err result }
    {
        if !self.are_asked(left, right) {
            self.spent = true;
            return Err(Reason::BadFlags);
        }
        let term = self.level_term(left, right);
        self.sum = self.sum.plus(term);
        self.lo /= 2;
        self.hi /= 2;
        let depth = self.root.seat.depth();
        prove!(self.level < depth);
        self.level += 1;
        Ok(())
    }

    // Whether these are the siblings that the interval of this level asks for.
    fn are_asked(&self, left: Option<F>, right: Option<F>) -> bool
        ensures { result ≡ are_asked self.now.lo self.now.hi
            (record { left = option_map F.number left; right = option_map F.number right }) }
    {
        left.is_some() == (self.lo % 2 == 1) && right.is_some() == (self.hi % 2 == 0)
    }

    // The siblings of this level, each times its weight.
    #[tactic(auto, using(sip_field::proofs::Residues::residues))]
    fn level_term(&self, left: Option<F>, right: Option<F>) -> F
        requires asked { are_asked self.now.lo self.now.hi
            (record { left = option_map F.number left; right = option_map F.number right }) ≡ true }
        requires left { self.now.level < length self.now.challenges }
        ensures { F.number result
            ≡ level_sum F.MODULUS self.now.challenges self.now.level self.now.lo self.now.hi
            (record { left = option_map F.number left; right = option_map F.number right })
            % F.MODULUS }
    {
        let before = self.left_term(left);
        let behind = self.right_term(right);
        before.plus(behind)
    }

    // The left sibling times its weight.
    fn left_term(&self, left: Option<F>) -> F
        requires { IsTrue (is_some left) → self.now.lo % 2 ≡ 1 }
        ensures { F.number result
            ≡ sibling_term F.MODULUS self.now.challenges self.now.level
            (option_map F.number left) (self.now.lo - 1) % F.MODULUS }
    {
        match left {
            Some(node) => node.times(self.root.weight_above(self.level, self.lo - 1)),
            None => F::of(0),
        }
    }

    // The right sibling times its weight.
    fn right_term(&self, right: Option<F>) -> F
        requires asked { IsTrue (is_some right) → self.now.hi % 2 ≡ 0 }
        requires left { self.now.level < length self.now.challenges }
        ensures { F.number result
            ≡ sibling_term F.MODULUS self.now.challenges self.now.level
            (option_map F.number right) (self.now.hi + 1) % F.MODULUS }
    {
        match right {
            Some(node) => node.times(self.root.weight_above(self.level, self.hi + 1)),
            None => F::of(0),
        }
    }

    /// The next challenge, in the order from `r_1` on: the one that reply `j` waits for is `r_j`.
    /// The last one, `r_d`, is never revealed.
    pub fn reveal(&mut self) -> F
        requires unspent { self.old.spent ≡ false }
        requires given { self.old.level ≡ self.old.revealed + 1 }
        requires left { self.old.level < length self.old.challenges }
        ensures challenge { F.number result ≡ slice_index self.old.challenges (self.old.level - 1) }
        ensures taken { (root lo hi : ℕ) (challenges : List ℕ) (s : Stated)
            → HasTaken F.MODULUS root lo hi challenges s self.old
            → HasTaken F.MODULUS root lo hi challenges s self.new }
        ensures advances { Advances self.old self.new 0 1 }
        ensures unspent { self.new.spent ≡ false }
    {
        self.revealed += 1;
        self.root.seat.at(self.revealed)
    }

    /// Ends the check: `Reason::Root` where what was given does not fold to the root.
    ///
    /// No `times`: one comparison.
    pub fn finish(&mut self) -> Result<(), Reason>
        requires unspent { self.old.spent ≡ false }
        requires whole { self.old.level ≡ length self.old.challenges }
        ensures answers { (root lo hi : ℕ) (challenges : List ℕ) (s : Stated)
            → HasTaken F.MODULUS root lo hi challenges s self.old
            → result ≡ needs (gives_root F.MODULUS root lo hi challenges s) Reason.Root }
        ensures spent { self.new ≡ record self.old { spent = is_err result } }
    {
        let tested = self.test_root();
        self.spent = tested.is_err();
        tested
    }

    // Whether what was given folds to the root.
    fn test_root(&self) -> Result<(), Reason>
        requires whole { self.now.level ≡ length self.now.challenges }
        ensures { (root lo hi : ℕ) (challenges : List ℕ) (s : Stated)
            → HasTaken F.MODULUS root lo hi challenges s self.now
            → result ≡ needs (gives_root F.MODULUS root lo hi challenges s) Reason.Root }
    {
        if self.sum.number() == self.root.value {
            Ok(())
        } else {
            Err(Reason::Root)
        }
    }

    /// Whether a call refused: then only this call may follow.
    pub fn spent(&self) -> bool
        ensures { result ≡ self.now.spent }
    {
        self.spent
    }
}

// The same root, once more.
fn copy_of<F: Field, const CAP: usize>(root: &Root<F, CAP>) -> Root<F, CAP>
    ensures seat { result.seat ≡ root.now.seat }
    ensures value { result.value ≡ root.now.value }
{
    Root::of(root.seat.clone().unwrap(), root.value)
}
