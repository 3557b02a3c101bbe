//! How many challenges a helper can win by. These functions do nothing: each contract is a fact
//! that holds.
#![tactic(auto, unfolding(crate::specs::AcceptsHeavy::verdict, crate::specs::AcceptsHeavy::known_after, sip_counts::specs::Counts::sum_below, sip_counts::specs::Counts::count_below, sip_counts::specs::Counts::counted_from, sip_counts::specs::Counts::counted, sip_counts::specs::Strategies::takes_wrong))]

ghost use Rattle.std.specs.Prelude.{◌≡◌, ◌↔◌, ℕ, ◌*◌, ◌-◌, ◌^◌, ◌<◌, ◌≤◌, ◌≤ℤ◌, true, false};
ghost use Rattle.std.specs.Prelude.{nat_lt, ℤ, pos, negsuc, nat_abs, Option, Some, List, [], ◌∷◌};
ghost use Rattle.std.specs.Prelude.{length, All};
ghost use Rattle.std.specs.List.{list_all};
ghost use Rattle.sip_field.specs.Moduli.{m61_modulus};
ghost use Rattle.sip_field.specs.Prime.{IsPrime};
ghost use Rattle.sip_vector.specs.declared.update.Entry.{Entry as AnyEntry};
ghost use Rattle.sip_vector.specs.declared.update.Side.{Side as AnySide};
ghost use Rattle.sip_vector.specs.declared.update.Update.{Update as AnyUpdate};
ghost use Rattle.sip_vector.specs.Answers.{pairs};
ghost use Rattle.sip_vector.specs.Streams.{int_sum, vector, IsLegal, IsStrict};
ghost use Rattle.sip_vector.specs.Splits.{weights};
ghost use Rattle.sip_vector.specs.Trees.{augroot};
ghost use Rattle.sip_counts.specs.Counts.{count_below, counted};
ghost use Rattle.sip_counts.specs.Strategies.{Strategy, fooled, takes_wrong};
ghost use Rattle.sip_wire.specs.declared.message.Node.{Node as AnyNode};
ghost use Rattle.sip_wire.specs.declared.version.Version.{Version};
ghost use Rattle.sip_replies.specs.Replies.{IsAccepted};
ghost use Rattle.sip_heavy.specs.AcceptsHeavy.{are_pairs, nodes_above, pair_counts};
ghost use Rattle.sip_heavy.specs.TrueNodes.{Spot, are_true, level_above};
ghost use Rattle.sip_heavy.specs.Counting.{accepts_heavy, accepts_nodes, are_right, heavy_over};
ghost use Rattle.sip_heavy.specs.Counting.{accepts_marks, are_right_marks, is_right, said};
ghost use Rattle.sip_heavy.specs.Counting.{accepts_above, is_right_above, AreWeighed};
ghost use Rattle.sip_heavy.specs.Counting.{HeavyCountClause};
ghost use Rattle.sip_heavy.specs.Protocol.{count_of};
ghost use Rattle.sip_heavy.specs.Honest.{heavy_of};
ghost use Rattle.sip_heavy.specs.CountedExamples.{misplaced, says_first, says_ones};

/// Over every prime modulus, nodes in whole pairs, of which one is wrong, have right nodes above
/// them for at most three challenges. The counts of each pair have to add up to less than p; the
/// true counts may be any.
pub fn few_challenges_hide_a_wrong_node()
    ensures { (p : ℕ) (truth : ℕ → Spot) (nodes : List AnyNode)
        → IsPrime p → are_pairs nodes ≡ true
        → list_all (λ c. nat_lt c p) (pair_counts nodes) ≡ true → are_true p truth nodes ≡ false
        → count_below p (λ r. are_true p (level_above p r truth) (nodes_above p r nodes)) ≤ 3 }
{}

/// Over every prime modulus p, for numbers of which none is negative and whose sum is below p:
/// however a helper replies to the query for those of at least t, by what was revealed to it, it
/// has another list than theirs accepted at no more than 3·d·p^(d - 1) of the p^d vectors of
/// challenges. Nothing is asked of the nodes that it sends.
pub fn few_challenges_for_wrong_leaves()
    ensures { (p d t : ℕ) (numbers : List ℤ) (strategy : List ℕ → Option (List AnyNode))
        → IsPrime p → length numbers ≡ 2 ^ d → All (λ a. pos 0 ≤ℤ a) numbers
        → nat_abs (int_sum numbers) < p
        → counted p (takes_wrong (accepts_nodes p d t numbers) (are_right p t numbers) strategy) d
        ≤ 3 * d * p ^ (d - 1) }
{}

/// The same of values with weights, by the split tree: no value is above its weight in size, nor
/// too large to be told from its residue. The values may be below 0.
pub fn few_challenges_for_wrong_marks()
    ensures { (p d t : ℕ) (values weights : List ℤ) (strategy : List ℕ → Option (List AnyNode))
        → IsPrime p → 0 < p → length values ≡ length weights → length weights ≡ 2 ^ d
        → AreWeighed p values weights → count_of (int_sum weights) < p
        → counted p (takes_wrong (accepts_marks p d t values weights)
        (are_right_marks p t values) strategy) d ≤ 3 * d * p ^ (d - 1) }
{}

/// The same over replies as bytes, for every strategy, made of bytes or not. Where the sum is below
/// t nothing is asked, and no wrong answer is accepted.
pub fn few_challenges_for_wrong_replies()
    ensures { (version : Version) (p d t : ℕ) (numbers : List ℤ) (strategy : Strategy)
        → IsPrime p → length numbers ≡ 2 ^ d → All (λ a. pos 0 ≤ℤ a) numbers
        → nat_abs (int_sum numbers) < p
        → fooled p d (accepts_heavy version p d t numbers) (is_right version p d t numbers) strategy
        ≤ 3 * d * p ^ (d - 1) }
{}

/// The same of values with weights, over replies as bytes.
pub fn few_challenges_for_wrong_mark_replies()
    ensures { (version : Version) (p d t : ℕ) (values weights : List ℤ) (strategy : Strategy)
        → IsPrime p → 0 < p → length values ≡ length weights → length weights ≡ 2 ^ d
        → AreWeighed p values weights → count_of (int_sum weights) < p
        → fooled p d (accepts_above version p d t values weights)
        (is_right_above version p d t values weights) strategy ≤ 3 * d * p ^ (d - 1) }
{}

/// Modulo 2^61 - 1, for a side of every legal stream with no negative entry, no more is asked: its
/// sum is small enough.
pub fn few_challenges_for_wrong_answers()
    ensures { (version : Version) (d t : ℕ) (stream : List AnyUpdate) (side : AnySide)
        (strategy : Strategy)
        → IsLegal d stream → IsStrict d stream side
        → fooled m61_modulus d (accepts_heavy version m61_modulus d t (vector d stream side))
        (is_right version m61_modulus d t (vector d stream side)) strategy
        ≤ 3 * d * m61_modulus ^ (d - 1) }
{}

/// Modulo 2^61 - 1, for the large entries of a side of every legal stream nothing else is asked:
/// entries may be below 0, and the weights hide none.
pub fn few_challenges_for_wrong_large_entries()
    ensures { (version : Version) (d t : ℕ) (stream : List AnyUpdate) (side : AnySide)
        (strategy : Strategy) → IsLegal d stream
        → fooled m61_modulus d
        (accepts_above version m61_modulus d t (vector d stream side) (weights d stream side))
        (is_right_above version m61_modulus d t (vector d stream side) (weights d stream side))
        strategy ≤ 3 * d * m61_modulus ^ (d - 1) }
{}

/// Where entries are written only for replies that are accepted and state them, the promise on
/// helpers that lie holds.
pub fn accepted_answers_are_counted()
    ensures { (version : Version) (d t : ℕ) (stream : List AnyUpdate) (side : AnySide)
        (block : List ℕ) (taken : List (List ℕ)) (written : Option (List AnyEntry))
        → IsLegal d stream → IsStrict d stream side
        → ((answer : List AnyEntry) → written ≡ Some answer
        → IsAccepted (heavy_over version m61_modulus d t (vector d stream side) block)
        block taken (pairs answer))
        → HeavyCountClause version d t (vector d stream side) block taken written }
{}

/// Replies are right exactly if the heavy leaves that they say are the numbers of at least t.
pub fn right_replies_say_the_heavy_numbers()
    ensures { (version : Version) (p d t : ℕ) (numbers : List ℤ) (all : List (List ℕ))
        → (is_right version p d t numbers all ≡ true)
        ↔ (said version p d t numbers all ≡ heavy_of t numbers) }
{}

/// An augmented root counts all of its numbers: so the total that a running root keeps is their
/// sum.
pub fn augmented_roots_count_all()
    ensures { (p : ℕ) (numbers : List ℤ) (challenges : List ℕ)
        → length numbers ≡ 2 ^ length challenges
        → (augroot p numbers challenges).count ≡ int_sum numbers }
{}

/// Over 31, for (3, 1) and the entries of at least 3: the leaves (0, 4) and (1, 0) are accepted at
/// the challenges 1 and 30 alone; the bound is 3.
pub fn two_challenges_of_31()
    ensures count { counted 31 (takes_wrong (accepts_nodes 31 1 3 (pos 3 ∷ pos 1 ∷ []))
        (are_right 31 3 (pos 3 ∷ pos 1 ∷ [])) says_first) 1 ≡ 2 }
    ensures one { takes_wrong (accepts_nodes 31 1 3 (pos 3 ∷ pos 1 ∷ []))
        (are_right 31 3 (pos 3 ∷ pos 1 ∷ [])) says_first (1 ∷ []) ≡ true }
    ensures thirty { takes_wrong (accepts_nodes 31 1 3 (pos 3 ∷ pos 1 ∷ []))
        (are_right 31 3 (pos 3 ∷ pos 1 ∷ [])) says_first (30 ∷ []) ≡ true }
{}

/// Over 31, for the values (3, -1) with the weights (3, 1) and the entries of at least 3: the marks
/// (0, 1, 2) and (1, 1, 2) are accepted at the challenges 1, 29 and 30 alone; the bound, 3, is
/// reached.
pub fn three_challenges_of_31()
    ensures count { counted 31 (takes_wrong (accepts_marks 31 1 3 (pos 3 ∷ negsuc 0 ∷ [])
        (pos 3 ∷ pos 1 ∷ [])) (are_right_marks 31 3 (pos 3 ∷ negsuc 0 ∷ [])) says_ones) 1 ≡ 3 }
    ensures one { takes_wrong (accepts_marks 31 1 3 (pos 3 ∷ negsuc 0 ∷ [])
        (pos 3 ∷ pos 1 ∷ [])) (are_right_marks 31 3 (pos 3 ∷ negsuc 0 ∷ [])) says_ones (1 ∷ [])
        ≡ true }
    ensures twenty_nine { takes_wrong (accepts_marks 31 1 3 (pos 3 ∷ negsuc 0 ∷ [])
        (pos 3 ∷ pos 1 ∷ [])) (are_right_marks 31 3 (pos 3 ∷ negsuc 0 ∷ [])) says_ones (29 ∷ [])
        ≡ true }
    ensures thirty { takes_wrong (accepts_marks 31 1 3 (pos 3 ∷ negsuc 0 ∷ [])
        (pos 3 ∷ pos 1 ∷ [])) (are_right_marks 31 3 (pos 3 ∷ negsuc 0 ∷ [])) says_ones (30 ∷ [])
        ≡ true }
{}

/// Over 31, for (0, 0, 4, 0) and the entries of at least 3: the leaves (0, 4) and (1, 0), with an
/// empty node beside theirs, are accepted where 4·(1 + r_1 + r_2)·(1 - r_2²) is 0, at 91 of the 961
/// vectors; the bound is 186.
pub fn ninety_one_of_961()
    ensures { counted 31 (takes_wrong (accepts_nodes 31 2 3 misplaced) (are_right 31 3 misplaced)
        says_first) 2 ≡ 91 }
{}
