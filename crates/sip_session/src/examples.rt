//! Joint counts worked out one by one. These functions do nothing: each contract holds by
//! computation.
#![tactic(auto, unfolding(sip_counts::specs::Counts::sum_below, sip_counts::specs::Counts::counted_from, sip_counts::specs::Counts::counted, sip_counts::specs::Joint::is_misled, sip_counts::specs::Late::some_fooled, sip_counts::specs::Strategies::takes_wrong, sip_replies::specs::Replies::run_from, sip_replies::specs::Replies::read_from, sip_wire::specs::Reading::read_frame, sip_wire::specs::Spelling::frame_fault, sip_wire::specs::Spelling::kind_fault, sip_wire::specs::Spelling::body_fault, sip_wire::specs::Spelling::asked, sip_wire::specs::Spelling::numbers_in, sip_wire::specs::Spelling::all_hold))]

ghost use Rattle.std.specs.Prelude.{◌≡◌, ◌+◌, ◌*◌, ◌-◌, ◌^◌, Some, [], ◌∷◌};
ghost use Rattle.sip_counts.specs.Joint.{bounds};
ghost use Rattle.sip_wire.specs.declared.version.Version.TheVariants.{One};
ghost use Rattle.sip_verifier.specs.JointClause.{RepliesSo};
ghost use Rattle.sip_session.specs.Examples.{guesses, one_of_each, stream, twice, two_questions};
ghost use Rattle.sip_session.specs.JointCounts.{asked_over, misled_over};

/// Modulo 31, for (3, 5) and the entries 0 to 0 asked for twice: the entry (0, 4) with the right
/// sibling 4 is accepted where 4 + 4·r is 3 + 5·r, at one challenge. So 31 + 31 - 1 of the 961
/// joint vectors mislead; the bound is 62.
pub fn sixty_one_of_961()
    ensures misled { misled_over One 31 1 stream twice guesses ≡ 61 }
    ensures bound { bounds (asked_over One 31 1 stream twice) * 31 ^ (2 * 1 - 1) ≡ 62 }
{}

/// At depth 2 a query for entries adds 2 to the bound, one for a sum 4, and those for heavy entries
/// and for a share 6 each.
pub fn bounds_of_each_kind()
    ensures { bounds (asked_over One 31 2 stream one_of_each) ≡ 18 }
{}

/// The keys of two queries with the challenges 5 and 6, and 7 and 8, by what a strategy replies
/// that repeats its key: none and 5, and then 5 and 6, and 5, 6 and 7. Of a query with one reply
/// its first key alone is compared.
pub fn keys_by_hand()
    ensures both { RepliesSo (λ v. Some v) [] (two_questions ([] ∷ (5 ∷ []) ∷ [])
        ((5 ∷ 6 ∷ []) ∷ (5 ∷ 6 ∷ 7 ∷ []) ∷ [])) }
    ensures one { RepliesSo (λ v. Some v) [] (two_questions ([] ∷ [])
        ((5 ∷ 6 ∷ []) ∷ (5 ∷ 6 ∷ 7 ∷ []) ∷ [])) }
{}
