//! Laws of the definitions, and worked examples that hold by computation. These functions do
//! nothing: each contract is a fact that holds.
#![tactic(auto, unfolding(sip_replies::specs::Replies::run_from, sip_replies::specs::Replies::read_from, sip_wire::specs::Reading::read_frame, sip_wire::specs::Spelling::frame_fault, sip_wire::specs::Spelling::kind_fault, sip_wire::specs::Spelling::body_fault, sip_wire::specs::Spelling::asked, sip_wire::specs::Spelling::numbers_in, sip_wire::specs::Spelling::all_hold))]

ghost use Rattle.std.specs.Prelude.{◌≡◌, ℕ, ◌+◌, ◌-◌, ◌%◌, ◌^◌, ◌<◌, ◌≤◌, ◌==◌, All, List, [], ◌∷◌};
ghost use Rattle.std.specs.Prelude.{◌++◌, length, drop, fold, zip, Ok, Err, pos};
ghost use Rattle.sip_subvec.specs.Examples.{reply_0, reply_1, both, entry_2, left_one, verdict_of};
ghost use Rattle.sip_subvec.specs.Examples.{stated_inner, stated_whole};
ghost use Rattle.sip_field.specs.Moduli.{m61_modulus};
ghost use Rattle.sip_vector.specs.Weights.{weighted_sum};
ghost use Rattle.sip_vector.specs.declared.update.Entry.{Entry as AnyEntry};
ghost use Rattle.sip_subvec.specs.AcceptsSub.{Siblings, Stated, stated_level, next_level, folded};
ghost use Rattle.sip_subvec.specs.AcceptsSub.{gives_root};
ghost use Rattle.sip_subvec.specs.Replies.{with_entries};
ghost use Rattle.sip_subvec.specs.Checking.{entries_sum, siblings_sum, stated_sum, AreAsked};
ghost use Rattle.sip_subvec.specs.Checking.{HasPassed};
ghost use Rattle.sip_vector.specs.Answers.{pairs};
ghost use Rattle.sip_wire.specs.declared.version.Version.TheVariants.{One, Two};
ghost use Rattle.sip_wire.specs.declared.message.Reason.{Reason};
ghost use Rattle.sip_wire.specs.declared.message.Reason.TheVariants as reasons;

/// The honest replies are accepted, with the entry (2, 5).
pub fn honest_replies_are_accepted()
    ensures narrow { verdict_of One (reply_0 One ∷ reply_1 ∷ [])
        ≡ Ok (pairs (record { index = 2; value = pos 5 } ∷ [])) }
    ensures wide { verdict_of Two (reply_0 Two ∷ reply_1 ∷ [])
        ≡ Ok (pairs (record { index = 2; value = pos 5 } ∷ [])) }
{}

/// One wrong number: a sibling, or the entry.
pub fn one_wrong_number_is_rejected()
    ensures left { verdict_of One ((entry_2 One 5 ++ both 4 1) ∷ reply_1 ∷ [])
        ≡ Err (record { round = 2; reason = reasons.Root }) }
    ensures right { verdict_of One ((entry_2 One 5 ++ both 3 2) ∷ reply_1 ∷ [])
        ≡ Err (record { round = 2; reason = reasons.Root }) }
    ensures entry { verdict_of One ((entry_2 One 6 ++ both 3 1) ∷ reply_1 ∷ [])
        ≡ Err (record { round = 2; reason = reasons.Root }) }
    ensures wide_entry { verdict_of Two ((entry_2 Two 6 ++ both 3 1) ∷ reply_1 ∷ [])
        ≡ Err (record { round = 2; reason = reasons.Root }) }
    ensures zero { verdict_of One ((entry_2 One 0 ++ both 3 1) ∷ reply_1 ∷ [])
        ≡ Err (record { round = 0; reason = reasons.BadNumber }) }
    ensures wide_zero { verdict_of Two ((entry_2 Two 0 ++ both 3 1) ∷ reply_1 ∷ [])
        ≡ Err (record { round = 0; reason = reasons.BadNumber }) }
{}

/// Entries of the other version have no length that a frame of them may have.
pub fn entries_of_the_other_version_are_rejected()
    ensures narrow { verdict_of Two (reply_0 One ∷ reply_1 ∷ [])
        ≡ Err (record { round = 0; reason = reasons.BadLength }) }
    ensures wide { verdict_of One (reply_0 Two ∷ reply_1 ∷ [])
        ≡ Err (record { round = 0; reason = reasons.BadLength }) }
{}

/// Replies that are cut short, and siblings that were not asked for.
pub fn faults_have_their_rounds()
    ensures none { verdict_of One ([] ∷ []) ≡ Err (record { round = 0; reason = reasons.Closed }) }
    ensures cut { verdict_of One (reply_0 One ∷ (0x14 ∷ 0x00 ∷ []) ∷ [])
        ≡ Err (record { round = 1; reason = reasons.Closed }) }
    ensures flags { verdict_of One (reply_0 One ∷ left_one ∷ [])
        ≡ Err (record { round = 1; reason = reasons.BadFlags }) }
    ensures wide_flags { verdict_of Two (reply_0 Two ∷ left_one ∷ [])
        ≡ Err (record { round = 1; reason = reasons.BadFlags }) }
    ensures kind { verdict_of One ((0x11 ∷ 0x00 ∷ 0x08 ∷ []) ∷ [])
        ≡ Err (record { round = 0; reason = reasons.BadKind }) }
    ensures length { verdict_of One ((0x13 ∷ 0x00 ∷ 0x0d ∷ []) ∷ [])
        ≡ Err (record { round = 0; reason = reasons.BadLength }) }
    ensures twice { verdict_of One ((entry_2 One 5 ++ entry_2 One 5) ∷ [])
        ≡ Err (record { round = 0; reason = reasons.BadOrder }) }
    ensures wide_twice { verdict_of Two ((entry_2 Two 5 ++ entry_2 Two 5) ∷ [])
        ≡ Err (record { round = 0; reason = reasons.BadOrder }) }
    ensures refused { verdict_of One ((0x18 ∷ 0x00 ∷ 0x01 ∷ 0x01 ∷ []) ∷ [])
        ≡ Err (record { round = 0; reason = reasons.Refused 1 }) }
{}

/// Folding keeps a weighted sum, in which each entry and each sibling is taken times its weight in
/// the root. A level is folded with its own siblings and those of the levels above it to the one
/// number that is its weighted sum and theirs; the level of the entries has their weighted sum. So
/// what is stated gives the root exactly where its sum is the root.
pub fn weighted_sums_are_folds()
    ensures level { (p : ℕ) (challenges : List ℕ) (level lo hi : ℕ) (nodes : List ℕ)
        (ss : List Siblings)
        → 0 < p → level + length ss ≡ length challenges → lo ≤ hi → hi < 2 ^ length ss
        → length nodes ≡ hi + 1 - lo → All (λ x. x < p) nodes → AreAsked lo hi ss
        → fold (next_level p) nodes (zip ss (drop level challenges))
        ≡ ((weighted_sum p challenges level lo nodes
        + siblings_sum p challenges level lo hi ss) % p) ∷ [] }
    ensures entries { (p lo hi : ℕ) (challenges : List ℕ) → 0 < p → (es : List AnyEntry)
        → with_entries lo hi [] es ≡ Ok es
        → weighted_sum p challenges 0 lo (stated_level p lo hi es) ≡ entries_sum p challenges es }
    ensures whole { (p lo hi : ℕ) (challenges : List ℕ) → 0 < p → (s : Stated)
        → lo ≤ hi → hi < 2 ^ length challenges → length s.siblings ≡ length challenges
        → HasPassed lo hi s
        → folded p lo hi challenges s ≡ stated_sum p lo hi challenges s ∷ [] }
    ensures root { (p lo hi : ℕ) (challenges : List ℕ) → 0 < p → (root : ℕ) (s : Stated)
        → lo ≤ hi → hi < 2 ^ length challenges → length s.siblings ≡ length challenges
        → HasPassed lo hi s
        → gives_root p root lo hi challenges s ≡ (stated_sum p lo hi challenges s == root) }
{}

/// Entries can be tested in pieces, one by one too: the first fault is that of the first piece that
/// has one.
pub fn entries_are_tested_in_pieces()
    ensures passed { (lo hi : ℕ) (before es more taken : List AnyEntry)
        → with_entries lo hi before es ≡ Ok taken
        → with_entries lo hi before (es ++ more) ≡ with_entries lo hi taken more }
    ensures refused { (lo hi : ℕ) (before es more : List AnyEntry) (reason : Reason)
        → with_entries lo hi before es ≡ Err reason
        → with_entries lo hi before (es ++ more) ≡ Err reason }
{}

/// The sum of the honest replies is the root, 5·10 + 3·1 + 1·20; that of the replies to a query for
/// all is 3·1 + 5·10 + 1·20.
pub fn sums_by_hand()
    ensures inner { stated_sum m61_modulus 1 2 (2 ∷ 10 ∷ []) stated_inner ≡ 73 }
    ensures whole { stated_sum m61_modulus 0 3 (2 ∷ 10 ∷ []) stated_whole ≡ 73 }
{}
