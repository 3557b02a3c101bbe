//! Laws of the check of a moment. These functions do nothing: each contract is a fact that holds.
#![tactic(auto, unfolding(sip_counts::specs::Rounds::adds_up))]

ghost use Rattle.std.specs.Prelude.{◌≡◌, ℕ, ◌+◌, ◌<◌, ◌≤◌, ◌==◌, ◌&&◌, ◌^◌, true, false, pos, ℤ};
ghost use Rattle.std.specs.Prelude.{List, [], ◌∷◌, length, slice_index, filter, All};
ghost use Rattle.std.specs.List.{range_with_len};
ghost use Rattle.sip_field.specs.Moduli.{m61_modulus};
ghost use Rattle.sip_field.specs.Residue.{residue};
ghost use Rattle.sip_vector.specs.Examples.{four};
ghost use Rattle.sip_counts.specs.Rounds.{adds_up, is_expected, sum_of_ends, value_at};
ghost use Rattle.sip_sums.specs.Examples.{less};
ghost use Rattle.sip_vector.specs.Answers.{Answer};
ghost use Rattle.sip_wire.specs.Decoding.{IsBytes};
ghost use Rattle.sip_wire.specs.declared.version.Version.{Version};
ghost use Rattle.sip_replies.specs.Replies.{IsAccepted};
ghost use Rattle.sip_wire.specs.Table.{most_degree};
ghost use Rattle.sip_moments.specs.AcceptsMoment.{Stated, accepts_stated, power_at};
ghost use Rattle.sip_moments.specs.Checking.{Kept, adds_up_from, begun as started, with_polynomial};
ghost use Rattle.sip_moments.specs.Checking.{with_revealed};
ghost use Rattle.sip_moments.specs.Counting.{accepts_moment};
ghost use Rattle.sip_moments.specs.Examples.{first_round, one_and_none, second_round, stated_cubes};
ghost use Rattle.sip_moments.specs.Examples.{stated_two};
ghost use Rattle.sip_moments.specs.Honest.{begun, its_polynomial, learnt, round_polynomial};
ghost use Rattle.sip_moments.specs.Moments.{is_too_high, moment};
ghost use Rattle.sip_moments.specs.Protocol.{moment_asked, moment_protocol};
ghost use Rattle.sip_moments.specs.Stating.{HasSpelling, States, stated_replies};

/// The third moment of (3, 0, 5, 1) at the challenges (2, 10), worked out by hand.
pub fn cubes_by_hand()
    ensures moment { moment 3 four ≡ pos 153 }
    ensures accepted { accepts_stated m61_modulus 3 four (2 ∷ 10 ∷ []) stated_cubes ≡ true }
    ensures ends { sum_of_ends m61_modulus first_round ≡ 153 }
    ensures value { value_at m61_modulus first_round 2 ≡ less 54 }
    ensures second_ends { sum_of_ends m61_modulus second_round ≡ less 54 }
    ensures last { value_at m61_modulus second_round 10 ≡ less 27 }
    ensures power { power_at m61_modulus 3 four (2 ∷ 10 ∷ []) ≡ less 27 }
{}

/// Its true round polynomials, over the cube and from the folded list.
pub fn polynomials_by_hand()
    ensures first { round_polynomial m61_modulus 3 four [] 1 ≡ first_round }
    ensures second { round_polynomial m61_modulus 3 four (2 ∷ []) 0 ≡ second_round }
    ensures begun { its_polynomial m61_modulus (begun m61_modulus 3 four) ≡ first_round }
    ensures folded { its_polynomial m61_modulus (learnt m61_modulus (begun m61_modulus 3 four) 2)
        ≡ second_round }
{}

/// Over 31, for the vector (1, 0) and the wrong claim 2 of its third moment: accepted for 2, 3 and
/// 4, as many as the degree.
pub fn three_challenges_of_31()
    ensures { filter (λ r. accepts_stated 31 3 one_and_none (r ∷ []) stated_two)
        (range_with_len 0 31) ≡ 2 ∷ 3 ∷ 4 ∷ [] }
{}

/// A claim has room for the eighth moment of one entry of 181, and for no other weight above.
pub fn degree_eight_at_its_limit()
    ensures moment { moment 8 (pos 181 ∷ []) ≡ pos 1151936657823500641 }
    ensures fits { is_too_high 181 8 ≡ false }
    ensures above { is_too_high 182 8 ≡ true }
{}

/// A polynomial with a coefficient too few or too many is not of the degree.
pub fn each_polynomial_has_its_degree()
    ensures short { is_expected m61_modulus 3 2 (1 ∷ 0 ∷ 0 ∷ []) ≡ false }
    ensures long { is_expected m61_modulus 3 2 (1 ∷ 0 ∷ 0 ∷ 0 ∷ 0 ∷ []) ≡ false }
    ensures exact { is_expected m61_modulus 3 2 (1 ∷ 0 ∷ 0 ∷ 0 ∷ []) ≡ true }
{}

/// Each call of a check is a step of the definition. A new check has all polynomials before it.
/// They add up exactly where the next one passes the test of `round` and those behind it add up,
/// which a challenge that is revealed does not change. With none left, what remains is the test of
/// `finish`.
pub fn calls_are_steps_of_the_definition()
    ensures start { (p degree last : ℕ) (claim : ℤ) (challenges : List ℕ) (cs : List (List ℕ))
        → adds_up_from p last (started challenges degree (residue p claim)) cs
        ≡ adds_up p degree last (residue p claim) cs challenges }
    ensures round { (p last : ℕ) (check : Kept) (c : List ℕ) (more : List (List ℕ))
        → check.given < length check.challenges → length c ≡ check.degree + 1
        → adds_up_from p last check (c ∷ more)
        ≡ ((sum_of_ends p c == check.expected)
        && adds_up_from p last (with_polynomial p check c) more) }
    ensures reveal { (p last : ℕ) (check : Kept) (more : List (List ℕ))
        → adds_up_from p last (with_revealed check) more ≡ adds_up_from p last check more }
    ensures finish { (p last : ℕ) (check : Kept) → check.given ≡ length check.challenges
        → adds_up_from p last check [] ≡ (check.expected == last) }
{}

/// Accepted replies are the bytes of a claim and a polynomial for each challenge, which add up to
/// the power, and the claim is the answer.
pub fn accepted_replies_state_moments()
    ensures { (version : Version) (p k power : ℕ) (challenges : List ℕ) (replies : List (List ℕ))
        (answer : Answer) → All IsBytes replies
        → IsAccepted (moment_protocol (moment_asked version p k power)) challenges replies answer
        → (s : Stated) × States version p k power challenges replies answer s }
{}

/// The protocol, which goes state by state, is the check over whole lists: bytes are accepted for a
/// vector exactly where what they state is. A claim has no bytes that is not small modulo 2^61 - 1.
pub fn bytes_are_accepted_where_lists_are()
    ensures { (version : Version) (k : ℕ) (numbers : List ℤ) (challenges : List ℕ) (s : Stated)
        → k ≤ most_degree → HasSpelling k s → length s.polynomials ≡ length challenges
        → 0 < length challenges
        → accepts_moment version m61_modulus k numbers challenges (stated_replies version s)
        ≡ accepts_stated m61_modulus k numbers challenges s }
{}
