//! How many challenges a helper can win by. These functions do nothing: each contract is a fact
//! that holds.
#![tactic(auto, unfolding(crate::specs::Counting::rise_within, crate::specs::Counting::are_all_asked, sip_counts::specs::Counts::sum_below, sip_counts::specs::Counts::count_below, sip_counts::specs::Counts::counted_from, sip_counts::specs::Counts::counted))]

ghost use Rattle.std.specs.Prelude.{◌≡◌, ◌≢◌, ◌↔◌, ℕ, ◌*◌, ◌-◌, ◌/◌, ◌^◌, ◌<◌, ◌≤◌, true, ℤ, pos};
ghost use Rattle.std.specs.Prelude.{nat_abs, Option, Some, List, [], ◌∷◌, length, All};
ghost use Rattle.sip_field.specs.Moduli.{m61_modulus};
ghost use Rattle.sip_field.specs.Prime.{IsPrime};
ghost use Rattle.sip_vector.specs.declared.update.Entry.{Entry as AnyEntry};
ghost use Rattle.sip_vector.specs.declared.update.Side.TheVariants.{First};
ghost use Rattle.sip_vector.specs.declared.update.Update.{Update as AnyUpdate};
ghost use Rattle.sip_vector.specs.Streams.{vector, IsLegal};
ghost use Rattle.sip_vector.specs.Trees.{root};
ghost use Rattle.sip_vector.specs.Vectors.{nonzero_within};
ghost use Rattle.sip_counts.specs.Counts.{counted};
ghost use Rattle.sip_counts.specs.Strategies.{Strategy, IsOfBytes, replies, fooled};
ghost use Rattle.sip_subvec.specs.AcceptsSub.{Siblings};
ghost use Rattle.sip_wire.specs.declared.version.Version.{Version};
ghost use Rattle.sip_vector.specs.Answers.{pairs};
ghost use Rattle.sip_replies.specs.Replies.{IsAccepted};
ghost use Rattle.sip_subvec.specs.Protocol.{sub_asked, sub_protocol};
ghost use Rattle.sip_subvec.specs.Counting.{accepts_stated, accepts_sub, accepts_small, is_right};
ghost use Rattle.sip_subvec.specs.Counting.{said, SubCountClause};
ghost use Rattle.sip_subvec.specs.Examples.{guessed_sibling, two_siblings, states_first};

/// Over every prime modulus, entries that are not those of the numbers are accepted at no more than
/// d·p^(d - 1) of the p^d vectors of challenges, whatever siblings are stated, each of which may
/// depend on the challenges before it. The numbers have to be at most (p - 1)/2 in absolute value:
/// others are the same as such modulo p.
pub fn few_challenges_for_wrong_entries()
    ensures { (p d lo hi : ℕ) (numbers : List ℤ) (entries : List AnyEntry)
        (siblings : List ℕ → Siblings)
        → IsPrime p → length numbers ≡ 2 ^ d → lo ≤ hi → hi < 2 ^ d
        → All (λ a. nat_abs a ≤ (p - 1) / 2) numbers → entries ≢ nonzero_within lo hi numbers
        → counted p (λ r. accepts_stated p (root p numbers r) lo hi r
        (record { entries = entries; siblings = replies siblings r })) d ≤ d * p ^ (d - 1) }
{}

/// The same over replies as bytes, for every strategy.
pub fn few_challenges_for_wrong_replies()
    ensures { (version : Version) (p d lo hi : ℕ) (numbers : List ℤ) (strategy : Strategy)
        → IsPrime p → length numbers ≡ 2 ^ d → lo ≤ hi → hi < 2 ^ d
        → All (λ a. nat_abs a ≤ (p - 1) / 2) numbers
        → fooled p d (λ r. accepts_small version p (root p numbers r) lo hi r)
        (is_right version lo hi numbers) strategy ≤ d * p ^ (d - 1) }
{}

/// Modulo 2^61 - 1, for the vector of every legal stream, no more is asked of what is accepted: the
/// bytes of a value have room for those alone that are small enough.
pub fn few_challenges_for_wrong_answers()
    ensures { (version : Version) (d lo hi : ℕ) (stream : List AnyUpdate) (strategy : Strategy)
        → lo ≤ hi → hi < 2 ^ d → IsLegal d stream → IsOfBytes strategy
        → fooled m61_modulus d (λ r. accepts_sub version m61_modulus
        (root m61_modulus (vector d stream First) r) lo hi r)
        (is_right version lo hi (vector d stream First)) strategy ≤ d * m61_modulus ^ (d - 1) }
{}

/// Where an answer is written only for replies that are accepted and state it, the promise on
/// helpers that lie holds.
pub fn accepted_answers_are_counted()
    ensures { (version : Version) (d lo hi : ℕ) (stream : List AnyUpdate) (block : List ℕ)
        (taken : List (List ℕ)) (written : Option (List AnyEntry))
        → lo ≤ hi → hi < 2 ^ d → IsLegal d stream
        → ((answer : List AnyEntry) → written ≡ Some answer
        → IsAccepted (sub_protocol (sub_asked version m61_modulus
        (root m61_modulus (vector d stream First) block) lo hi block))
        block taken (pairs answer))
        → SubCountClause version d (vector d stream First) lo hi block taken written }
{}

/// Replies are right exactly if the entries that they say are those of the numbers that are not 0.
pub fn right_replies_say_the_entries()
    ensures { (version : Version) (lo hi : ℕ) (numbers : List ℤ) (all : List (List ℕ))
        → (is_right version lo hi numbers all ≡ true)
        ↔ (said version lo hi all ≡ nonzero_within lo hi numbers) }
{}

/// Over 31, for (3, 5) and the entries 0 to 0: the entry (0, 4) with the right sibling 4 is
/// accepted at one challenge, the most that can be, and that is 1.
pub fn one_challenge_of_31()
    ensures count { counted 31 (λ r. accepts_stated 31 (root 31 (pos 3 ∷ pos 5 ∷ []) r) 0 0 r
        (states_first 4 (replies guessed_sibling r))) 1 ≡ 1 }
    ensures which { accepts_stated 31 (root 31 (pos 3 ∷ pos 5 ∷ []) (1 ∷ [])) 0 0 (1 ∷ [])
        (states_first 4 (replies guessed_sibling (1 ∷ []))) ≡ true }
{}

/// Over 31, for four zeros and the entries 0 to 0: the entry (0, 1) with the right siblings 30 and
/// r_1 - 1 is accepted where (1 - r_1)·(1 - r_2) is 0, at 61 of the 961 vectors; the bound is 62.
pub fn sixty_one_of_961()
    ensures { counted 31 (λ r. accepts_stated 31 (root 31
        (pos 0 ∷ pos 0 ∷ pos 0 ∷ pos 0 ∷ []) r) 0 0 r
        (states_first 1 (replies two_siblings r))) 2 ≡ 61 }
{}
