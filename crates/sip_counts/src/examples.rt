//! Counts worked out one by one. These functions do nothing: each contract holds by computation.
#![tactic(auto, unfolding(crate::specs::Counts::sum_below, crate::specs::Counts::count_below, crate::specs::Counts::counted_from, crate::specs::Counts::counted, crate::specs::Joint::is_misled, crate::specs::Late::some_fooled, crate::specs::Strategies::takes_wrong))]

ghost use Rattle.std.specs.Prelude.{◌≡◌, ℕ, ◌+◌, ◌*◌, ◌-◌, ◌^◌, ◌%◌, ◌==◌, not, true, false, Some};
ghost use Rattle.std.specs.Prelude.{List, [], ◌∷◌, Any};
ghost use Rattle.sip_field.specs.Polynomial.{polynomial};
ghost use Rattle.sip_counts.specs.Counts.{count_below, counted, counted_from};
ghost use Rattle.sip_counts.specs.Examples.{all_above_one, crossed, guess_query, is_one_two};
ghost use Rattle.sip_counts.specs.Examples.{one_is_one, replies_by, said_two, two_replies};
ghost use Rattle.sip_counts.specs.Examples.{used_at_zero, zero_query};
ghost use Rattle.sip_counts.specs.Joint.{misled};
ghost use Rattle.sip_counts.specs.Late.{AreWithin, HasTakenWrong, LedTo, fooled_late, plan_bounds};
ghost use Rattle.sip_counts.specs.Late.{seats_at};
ghost use Rattle.sip_counts.specs.Strategies.{replies, fooled};

/// Counts by hand: (1 - r_1)·(1 - r_2) is 0 modulo 31 at 31 + 31 - 1 of the 961 vectors; (1, 2) is
/// one vector of 9, and is that of the prefix 1 alone; and all 9 pass a test that is always true.
pub fn counts_by_hand()
    ensures product { counted 31 one_is_one 2 ≡ 61 }
    ensures single { counted 3 is_one_two 2 ≡ 1 }
    ensures prefix { counted_from 3 is_one_two 1 (1 ∷ []) ≡ 1 }
    ensures others { counted_from 3 is_one_two 1 (2 ∷ []) ≡ 0 }
    ensures all { counted 3 (λ v. true) 2 ≡ 9 }
{}

/// Modulo 5, `all_above_one` loses two of the five continuations: for one challenge 2·1·5^0 vectors
/// escape, the bound; for two challenges 25 - 3·3 do, of at most 2·2·5.
pub fn escapes_by_hand()
    ensures one { counted 5 (λ v. not (all_above_one v)) 1 ≡ 2 * 1 }
    ensures two { counted 5 (λ v. not (all_above_one v)) 2 ≡ 16 }
{}

/// x·(x - 1)·(x - 2) has three roots modulo 31, the most that its degree lets it have. Modulo 8,
/// which is not prime, x² - 1 has four.
pub fn roots_by_hand()
    ensures three { count_below 31 (λ x. polynomial x (0 ∷ 2 ∷ 28 ∷ 1 ∷ []) % 31 == 0) ≡ 3 }
    ensures four { count_below 8 (λ x. polynomial x (7 ∷ 0 ∷ 1 ∷ []) % 8 == 0) ≡ 4 }
{}

/// A strategy's replies at the challenges 5, 6 and 7 are what it says after none of them, after 5,
/// and after 5 and 6.
pub fn replies_by_hand()
    ensures values { replies (λ v. v) (5 ∷ 6 ∷ 7 ∷ []) ≡ [] ∷ (5 ∷ []) ∷ (5 ∷ 6 ∷ []) ∷ [] }
    ensures missing { fooled 3 2 (λ r all. true) (λ all. false) two_replies ≡ 3 }
{}

/// Two queries that are each fooled by one of five challenges: 25 - 4·4 of the joint vectors
/// mislead, of at most 2·5. A strategy that repeats the challenges revealed so far guesses the
/// second query's challenge where both are the same.
pub fn joint_counts_by_hand()
    ensures apart { misled 5 1 (λ v. Some v) (zero_query ∷ zero_query ∷ []) ≡ 9 }
    ensures guess { misled 5 1 (λ v. Some v) (guess_query ∷ guess_query ∷ []) ≡ 5 }
    ensures both { misled 5 1 (λ v. Some v) (zero_query ∷ guess_query ∷ []) ≡ 9 }
{}

/// Two seats, each of which is fooled by one of five challenges. Used in their order, the second
/// guesses by the first's challenge: 25 - 4·4 joint vectors are counted. Used in the other order
/// they are as many. Where each knows the other's challenge they are 10, which is the bound, and
/// the plans are such as the bound asks for. At (2, 2) the first of these has a wrong answer
/// accepted.
pub fn seats_by_hand()
    ensures in_order { fooled_late 5 1 (replies_by (λ other. 0) ∷ replies_by (λ other. other) ∷ [])
        ≡ 9 }
    ensures other_order { fooled_late 5 1
        (replies_by (λ other. other) ∷ replies_by (λ other. 0) ∷ []) ≡ 9 }
    ensures crossed { fooled_late 5 1 crossed ≡ 10 }
    ensures bound { plan_bounds crossed * 5 ^ (2 * 1 - 1) ≡ 10 }
    ensures within { AreWithin 5 1 crossed }
    ensures happened { Any (λ s. LedTo said_two s × HasTakenWrong said_two s.block)
        (seats_at 1 crossed [] (2 ∷ 2 ∷ [])) }
{}

/// A question may be chosen by what was revealed. Of two seats that are each used only where the
/// other's challenge is 0, and then fooled at 0, one is fooled at (0, 0) alone.
pub fn late_questions_by_hand()
    ensures chosen { fooled_late 5 1 (used_at_zero ∷ used_at_zero ∷ []) ≡ 1 }
    ensures alone { fooled_late 5 1 (used_at_zero ∷ []) ≡ 1 }
{}
