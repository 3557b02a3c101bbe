//! How many challenges a helper can win by. These functions do nothing: each contract is a fact
//! that holds.
#![tactic(auto, unfolding(crate::specs::AcceptsSum::adds_up, sip_counts::specs::Counts::sum_below, sip_counts::specs::Counts::count_below, sip_counts::specs::Counts::counted_from, sip_counts::specs::Counts::counted))]

ghost use Rattle.std.specs.Prelude.{◌≡◌, ◌≢◌, ◌↔◌, ℕ, ◌*◌, ◌-◌, ◌/◌, ◌^◌, ◌≤◌, true, ℤ, pos};
ghost use Rattle.std.specs.Prelude.{nat_abs, Option, Some, List, [], ◌∷◌, length};
ghost use Rattle.sip_field.specs.Moduli.{m61_modulus};
ghost use Rattle.sip_field.specs.Prime.{IsPrime};
ghost use Rattle.sip_vector.specs.declared.query.Query.{Query as AnyQuery};
ghost use Rattle.sip_vector.specs.declared.update.Update.{Update as AnyUpdate};
ghost use Rattle.sip_vector.specs.Answers.{number};
ghost use Rattle.sip_vector.specs.Extensions.{ones};
ghost use Rattle.sip_vector.specs.Streams.{IsLegal};
ghost use Rattle.sip_counts.specs.Counts.{counted};
ghost use Rattle.sip_counts.specs.Strategies.{Strategy, IsOfBytes, replies, fooled};
ghost use Rattle.sip_wire.specs.declared.version.Version.{Version};
ghost use Rattle.sip_replies.specs.Replies.{IsAccepted};
ghost use Rattle.sip_sums.specs.AcceptsSum.{Coefficients, accepts_stated, product_at, total};
ghost use Rattle.sip_sums.specs.Counting.{accepts_small, accepts_sum, is_right, said};
ghost use Rattle.sip_sums.specs.Counting.{SumCountClause};
ghost use Rattle.sip_sums.specs.Examples.{coefficients};
ghost use Rattle.sip_sums.specs.Protocol.{sum_asked, sum_protocol};
ghost use Rattle.sip_sums.specs.Questions.{Lists, lists_of};

/// Over every prime modulus, a claim that is not the sum of the products is accepted at no more
/// than 2·d·p^(d - 1) of the p^d vectors of challenges, whatever polynomials are stated, each of
/// which may depend on the challenges before it. The sum has to be at most (p - 1)/2 in absolute
/// value: another is the same as such modulo p.
pub fn few_challenges_for_wrong_sums()
    ensures { (p d : ℕ) (first second : List ℤ) (claim : ℤ) (polynomials : List ℕ → Coefficients)
        → IsPrime p → length first ≡ 2 ^ d → length second ≡ 2 ^ d
        → nat_abs (total first second) ≤ (p - 1) / 2 → claim ≢ total first second
        → counted p (λ r. accepts_stated p first second r
        (record { claim = claim; polynomials = replies polynomials r })) d ≤ 2 * d * p ^ (d - 1) }
{}

/// The same over replies as bytes, for every strategy.
pub fn few_challenges_for_wrong_replies()
    ensures { (version : Version) (p d : ℕ) (first second : List ℤ) (strategy : Strategy)
        → IsPrime p → length first ≡ 2 ^ d → length second ≡ 2 ^ d
        → nat_abs (total first second) ≤ (p - 1) / 2
        → fooled p d (accepts_small version p first second)
        (is_right version p (total first second)) strategy ≤ 2 * d * p ^ (d - 1) }
{}

/// Modulo 2^61 - 1, for the lists of a query over every legal stream, no more is asked of what is
/// accepted: the bytes of a claim have room for those alone that are small enough.
pub fn few_challenges_for_wrong_answers()
    ensures { (version : Version) (d : ℕ) (stream : List AnyUpdate) (q : AnyQuery) (l : Lists)
        (strategy : Strategy)
        → IsLegal d stream → lists_of d stream q ≡ Some l → IsOfBytes strategy
        → fooled m61_modulus d (accepts_sum version m61_modulus l.first l.second)
        (is_right version m61_modulus (total l.first l.second)) strategy
        ≤ 2 * d * m61_modulus ^ (d - 1) }
{}

/// Where a number is written only for replies that are accepted and state it, the promise on
/// helpers that lie holds.
pub fn accepted_answers_are_counted()
    ensures { (version : Version) (d : ℕ) (stream : List AnyUpdate) (q : AnyQuery) (l : Lists)
        (block : List ℕ) (taken : List (List ℕ)) (written : Option ℤ)
        → IsLegal d stream → lists_of d stream q ≡ Some l
        → ((claim : ℤ) → written ≡ Some claim
        → IsAccepted (sum_protocol (sum_asked version m61_modulus
        (product_at m61_modulus l.first l.second block))) block taken (number claim))
        → SumCountClause version d l.first l.second block taken written }
{}

/// Replies are right exactly if the claim that they say is the sum.
pub fn right_replies_say_the_sum()
    ensures { (version : Version) (p : ℕ) (sum : ℤ) (all : List (List ℕ))
        → (is_right version p sum all ≡ true) ↔ (said version p all ≡ Some sum) }
{}

/// Over 31, for (1, 0) and the claim 2: with the polynomial (25, 9, 5) it is accepted at two
/// challenges, the most that can be, for the sum of the squares and for that of the first entry
/// alone.
pub fn two_challenges_of_31()
    ensures squares { counted 31 (λ r. accepts_stated 31 (pos 1 ∷ pos 0 ∷ []) (pos 1 ∷ pos 0 ∷ []) r
        (record { claim = pos 2; polynomials = replies (λ _. coefficients 25 9 5) r })) 1 ≡ 2 }
    ensures range { counted 31 (λ r. accepts_stated 31 (pos 1 ∷ pos 0 ∷ []) (ones 1 0 0) r
        (record { claim = pos 2; polynomials = replies (λ _. coefficients 25 9 5) r })) 1 ≡ 2 }
{}
