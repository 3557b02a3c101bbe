//! Laws of the check of a sum. These functions do nothing: each contract is a fact that holds.
#![tactic(auto, unfolding(crate::specs::AcceptsSum::adds_up, sip_replies::specs::Replies::run_from, sip_replies::specs::Replies::read_from, sip_wire::specs::Reading::read_frame, sip_wire::specs::Spelling::frame_fault, sip_wire::specs::Spelling::kind_fault, sip_wire::specs::Spelling::body_fault, sip_wire::specs::Spelling::asked, sip_wire::specs::Spelling::numbers_in, sip_wire::specs::Spelling::all_hold))]

ghost use Rattle.std.specs.Prelude.{◌≡◌, ℕ, ◌+◌, ℤ, ◌<◌, ◌==◌, ◌&&◌, slice_index, replicate, drop};
ghost use Rattle.std.specs.Prelude.{◌++◌, true, pos, Ok, Err, List, [], ◌∷◌, length, map, All};
ghost use Rattle.std.specs.Prelude.{filter, is_none};
ghost use Rattle.std.specs.List.{range_with_len};
ghost use Rattle.sip_field.specs.Moduli.{m61_modulus};
ghost use Rattle.sip_field.specs.Residue.{residue};
ghost use Rattle.sip_vector.specs.Answers.{Answer, number};
ghost use Rattle.sip_vector.specs.Examples.{four};
ghost use Rattle.sip_vector.specs.Extensions.{ones};
ghost use Rattle.sip_counts.specs.Rounds.{adds_up as rounds_add_up};
ghost use Rattle.sip_wire.specs.declared.message.Reason.TheVariants as reasons;
ghost use Rattle.sip_wire.specs.declared.version.Version.{Version};
ghost use Rattle.sip_wire.specs.declared.version.Version.TheVariants.{One, Two};
ghost use Rattle.sip_wire.specs.Decoding.{IsBytes};
ghost use Rattle.sip_replies.specs.Replies.{IsAccepted, verdict};
ghost use Rattle.sip_sums.specs.AcceptsSum.{Coefficients, Stated, accepts_stated, adds_up, listed};
ghost use Rattle.sip_sums.specs.AcceptsSum.{product_at, total, value_at, sum_of_ends};
ghost use Rattle.sip_sums.specs.Checking.{Kept, adds_up_from, begun as started, with_polynomial};
ghost use Rattle.sip_sums.specs.Checking.{with_revealed};
ghost use Rattle.sip_sums.specs.Counting.{accepts_sum};
ghost use Rattle.sip_sums.specs.Examples.{claim_frame, coefficients, less, other, poly_frame};
ghost use Rattle.sip_sums.specs.Examples.{reply_0, reply_1, stated_products, stated_range};
ghost use Rattle.sip_sums.specs.Examples.{stated_squares, stated_two, verdict_of};
ghost use Rattle.sip_sums.specs.Honest.{begun, its_polynomial, learnt, round_polynomial};
ghost use Rattle.sip_sums.specs.Protocol.{sum_asked, sum_protocol};
ghost use Rattle.sip_sums.specs.Stating.{HasSpelling, States, first_difference, judged};
ghost use Rattle.sip_sums.specs.Stating.{stated_replies};

/// The three sums at the challenges (2, 10), worked out by hand.
pub fn sums_by_hand()
    ensures squares { accepts_stated m61_modulus four four (2 ∷ 10 ∷ []) stated_squares ≡ true }
    ensures products { accepts_stated m61_modulus four other (2 ∷ 10 ∷ []) stated_products ≡ true }
    ensures range { accepts_stated m61_modulus four (ones 2 1 3) (2 ∷ 10 ∷ []) stated_range ≡ true }
    ensures nine { product_at m61_modulus four four (2 ∷ 10 ∷ []) ≡ 9 }
    ensures inner { product_at m61_modulus four other (2 ∷ 10 ∷ []) ≡ 354 }
    ensures interval { product_at m61_modulus four (ones 2 1 3) (2 ∷ 10 ∷ []) ≡ 24 }
    ensures claims { (total four four ≡ pos 35) × (total four other ≡ pos 11)
        × (total four (ones 2 1 3) ≡ pos 6) }
    ensures value { value_at m61_modulus (coefficients 34 (less 58) 25) 2 ≡ 18 }
    ensures ends { sum_of_ends m61_modulus (coefficients 34 (less 58) 25) ≡ 35 }
{}

/// The true round polynomials of the three sums, worked out by hand.
pub fn polynomials_by_hand()
    ensures squares { round_polynomial m61_modulus four four [] 1 ≡ coefficients 34 (less 58) 25 }
    ensures second { round_polynomial m61_modulus four four (2 ∷ []) 0 ≡ coefficients 9 0 0 }
    ensures products { round_polynomial m61_modulus four other [] 1
        ≡ coefficients 11 0 (less 11) }
    ensures products_second { round_polynomial m61_modulus four other (2 ∷ []) 0
        ≡ coefficients (less 36) 39 0 }
    ensures range { round_polynomial m61_modulus four (ones 2 1 3) [] 1
        ≡ coefficients 5 (less 1) (less 3) }
    ensures range_second { round_polynomial m61_modulus four (ones 2 1 3) (2 ∷ []) 0
        ≡ coefficients (less 6) 3 0 }
    ensures folded { its_polynomial m61_modulus (learnt m61_modulus (begun m61_modulus four four) 2)
        ≡ coefficients 9 0 0 }
{}

/// Over 31, for the vector (1, 0) and the wrong claim 2: accepted for 2 and for 3.
pub fn two_challenges_of_31()
    ensures squares { filter (λ r. accepts_stated 31 (pos 1 ∷ pos 0 ∷ []) (pos 1 ∷ pos 0 ∷ [])
        (r ∷ []) stated_two) (range_with_len 0 31) ≡ 2 ∷ 3 ∷ [] }
    ensures range { filter (λ r. accepts_stated 31 (pos 1 ∷ pos 0 ∷ []) (ones 1 0 0)
        (r ∷ []) stated_two) (range_with_len 0 31) ≡ 2 ∷ 3 ∷ [] }
{}

/// The replies to `f2:0` as bytes.
pub fn replies_by_hand()
    ensures narrow { verdict_of One (reply_0 ∷ reply_1 ∷ []) ≡ Ok (number (pos 35)) }
    ensures wide { verdict_of Two (reply_0 ∷ reply_1 ∷ []) ≡ Ok (number (pos 35)) }
{}

/// One wrong number: the claim 36, or (8, 2, 0) for the second polynomial, which adds up to 18 but
/// is 28 at 10.
pub fn one_wrong_number_is_rejected()
    ensures sum { verdict_of One ((claim_frame 36 ++ drop 11 reply_0) ∷ [])
        ≡ Err (record { round = 0; reason = reasons.Sum }) }
    ensures root { verdict_of One (reply_0 ∷ poly_frame 8 2 0 ∷ [])
        ≡ Err (record { round = 2; reason = reasons.Root }) }
{}

/// Replies that are cut short or too long, frames of another kind, and the claim 2^60, for which a
/// frame has no room.
pub fn faults_have_their_rounds()
    ensures none { verdict_of One ([] ∷ [])
        ≡ Err (record { round = 0; reason = reasons.Closed }) }
    ensures cut { verdict_of One (reply_0 ∷ (0x12 ∷ 0x00 ∷ []) ∷ [])
        ≡ Err (record { round = 1; reason = reasons.Closed }) }
    ensures long { verdict_of One ((reply_0 ++ 0x00 ∷ []) ∷ [])
        ≡ Err (record { round = 0; reason = reasons.BadLength }) }
    ensures first { verdict_of One (reply_1 ∷ [])
        ≡ Err (record { round = 0; reason = reasons.BadKind }) }
    ensures later { verdict_of One (reply_0 ∷ reply_0 ∷ [])
        ≡ Err (record { round = 1; reason = reasons.BadKind }) }
    ensures number { verdict_of One ((0x11 ∷ 0x00 ∷ 0x08 ∷ 0x10 ∷ replicate 7 0) ∷ [])
        ≡ Err (record { round = 0; reason = reasons.BadNumber }) }
    ensures refused { verdict_of One ((claim_frame 35 ++ 0x18 ∷ 0x00 ∷ 0x01 ∷ 0x01 ∷ []) ∷ [])
        ≡ Err (record { round = 0; reason = reasons.Refused 1 }) }
{}

/// Each call of a check is a step of the definition. A new check has all polynomials before it.
/// They add up exactly where the next one passes the test of `round` and those behind it add up,
/// once its challenge is revealed. With none left, what remains is the test of `finish`.
pub fn calls_are_steps_of_the_definition()
    ensures start { (p product : ℕ) (claim : ℤ) (challenges : List ℕ) (cs : List Coefficients)
        → adds_up_from p product (started challenges (residue p claim)) cs
        ≡ adds_up p product (residue p claim) cs challenges }
    ensures round { (p product : ℕ) (check : Kept) (c : Coefficients) (more : List Coefficients)
        → check.revealed < length check.challenges
        → adds_up_from p product check (c ∷ more)
        ≡ ((sum_of_ends p c == check.expected) && adds_up_from p product
        (with_revealed p (with_polynomial check c) (slice_index check.challenges check.revealed))
        more) }
    ensures finish { (p product : ℕ) (check : Kept)
        → check.revealed + 1 ≡ length check.challenges
        → adds_up_from p product
        (with_revealed p check (slice_index check.challenges check.revealed)) []
        ≡ (value_at p check.last (slice_index check.challenges check.revealed) == product) }
{}

/// A sum's check is the sum-check of degree 2 of the rounds of any degree.
pub fn sums_are_checked_at_degree_two()
    ensures { (p product expected : ℕ) (cs : List Coefficients) (challenges : List ℕ)
        → adds_up p product expected cs challenges
        ≡ rounds_add_up p 2 product expected (map listed cs) challenges }
{}

/// The protocol, which goes state by state, is the check over whole lists. Accepted replies are the
/// bytes of a claim and a polynomial for each challenge, which add up to the product, and the claim
/// is the answer. The bytes of any claim and polynomials that messages have room for come to what
/// the first difference says of what is given and what is expected: the answer is the claim where
/// nothing differs, and that is where the polynomials add up.
pub fn replies_are_checked_over_whole_lists()
    ensures accepted { (version : Version) (p product : ℕ) (challenges : List ℕ)
        (replies : List (List ℕ)) (answer : Answer) → All IsBytes replies
        → IsAccepted (sum_protocol (sum_asked version p product)) challenges replies answer
        → (s : Stated) × States version p product challenges replies answer s }
    ensures judged { (version : Version) (p product : ℕ) (challenges : List ℕ) (s : Stated)
        → HasSpelling s → length s.polynomials ≡ length challenges → 0 < length challenges
        → verdict (sum_protocol (sum_asked version p product)) challenges
        (stated_replies version s) ≡ judged p product challenges s }
    ensures sums { (p product : ℕ) (challenges : List ℕ) (s : Stated)
        → length s.polynomials ≡ length challenges
        → adds_up p product (residue p s.claim) s.polynomials challenges
        ≡ is_none (first_difference p product challenges s) }
{}

/// So bytes are accepted for two lists exactly where what they state is: a claim has no bytes that
/// is not small modulo 2^61 - 1.
pub fn bytes_are_accepted_where_lists_are()
    ensures { (version : Version) (first second : List ℤ) (challenges : List ℕ) (s : Stated)
        → HasSpelling s → length s.polynomials ≡ length challenges → 0 < length challenges
        → accepts_sum version m61_modulus first second challenges (stated_replies version s)
        ≡ accepts_stated m61_modulus first second challenges s }
{}
