//! How many challenges a helper can win by. These functions do nothing: each contract is a fact
//! that holds.
#![tactic(auto, unfolding(sip_counts::specs::Rounds::adds_up, sip_counts::specs::Counts::sum_below, sip_counts::specs::Counts::count_below, sip_counts::specs::Counts::counted_from, sip_counts::specs::Counts::counted))]

ghost use Rattle.std.specs.Prelude.{◌≡◌, ◌≢◌, ℕ, ◌*◌, ◌-◌, ◌/◌, ◌^◌, ◌≤◌, ℤ, pos, nat_abs, sum_by};
ghost use Rattle.std.specs.Prelude.{List, [], ◌∷◌, length};
ghost use Rattle.sip_field.specs.Moduli.{m61_modulus};
ghost use Rattle.sip_field.specs.Prime.{IsPrime};
ghost use Rattle.sip_counts.specs.Counts.{counted};
ghost use Rattle.sip_counts.specs.Strategies.{Strategy, IsOfBytes, replies, fooled};
ghost use Rattle.sip_wire.specs.Table.{most_claim};
ghost use Rattle.sip_wire.specs.declared.version.Version.{Version};
ghost use Rattle.sip_moments.specs.AcceptsMoment.{accepts_stated};
ghost use Rattle.sip_moments.specs.Counting.{accepts_moment, accepts_small, is_right};
ghost use Rattle.sip_moments.specs.Examples.{one_and_none, wrong_round};
ghost use Rattle.sip_moments.specs.Moments.{moment};

/// Over every prime modulus, a claim that is not the k-th moment is accepted at no more than
/// k·d·p^(d - 1) of the p^d vectors of challenges, whatever polynomials are stated, each of which
/// may depend on the challenges before it. The moment has to be at most (p - 1)/2 in absolute
/// value: another is the same as such modulo p.
pub fn few_challenges_for_wrong_moments()
    ensures { (p k d : ℕ) (numbers : List ℤ) (claim : ℤ) (polynomials : List ℕ → List ℕ)
        → IsPrime p → length numbers ≡ 2 ^ d → nat_abs (moment k numbers) ≤ (p - 1) / 2
        → claim ≢ moment k numbers
        → counted p (λ r. accepts_stated p k numbers r
        (record { claim = claim; polynomials = replies polynomials r })) d ≤ k * d * p ^ (d - 1) }
{}

/// Modulo 2^61 - 1 this holds of each vector whose weight to the power k is at most 2^60 - 1.
pub fn few_challenges_where_weights_fit()
    ensures { (k d weight : ℕ) (numbers : List ℤ) (claim : ℤ) (polynomials : List ℕ → List ℕ)
        → 1 ≤ k → length numbers ≡ 2 ^ d → sum_by nat_abs numbers ≤ weight
        → weight ^ k ≤ most_claim → claim ≢ moment k numbers
        → counted m61_modulus (λ r. accepts_stated m61_modulus k numbers r
        (record { claim = claim; polynomials = replies polynomials r })) d
        ≤ k * d * m61_modulus ^ (d - 1) }
{}

/// The same over replies as bytes, for every strategy.
pub fn few_challenges_for_wrong_replies()
    ensures { (version : Version) (p k d : ℕ) (numbers : List ℤ) (strategy : Strategy)
        → IsPrime p → length numbers ≡ 2 ^ d → nat_abs (moment k numbers) ≤ (p - 1) / 2
        → fooled p d (accepts_small version p k numbers)
        (is_right version p k (moment k numbers)) strategy ≤ k * d * p ^ (d - 1) }
{}

/// Modulo 2^61 - 1, for each vector whose weight to the power k is at most 2^60 - 1, no more is
/// asked of what is accepted: the bytes of a claim have room for those alone that are small enough.
pub fn few_challenges_for_wrong_answers()
    ensures { (version : Version) (k d weight : ℕ) (numbers : List ℤ) (strategy : Strategy)
        → 1 ≤ k → length numbers ≡ 2 ^ d → sum_by nat_abs numbers ≤ weight
        → weight ^ k ≤ most_claim → IsOfBytes strategy
        → fooled m61_modulus d (accepts_moment version m61_modulus k numbers)
        (is_right version m61_modulus k (moment k numbers)) strategy
        ≤ k * d * m61_modulus ^ (d - 1) }
{}

/// Over 31, for (1, 0) and the claim 2 of the third moment: with the polynomial (8, 23, 25, 0) it
/// is accepted at three challenges, the most that can be.
pub fn three_challenges_of_31()
    ensures { counted 31 (λ r. accepts_stated 31 3 one_and_none r
        (record { claim = pos 2; polynomials = replies (λ _. wrong_round) r })) 1 ≡ 3 }
{}
