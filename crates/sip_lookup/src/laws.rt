//! Laws of the definitions, and worked examples that hold by computation. These functions do
//! nothing: each contract is a fact that holds.
#![tactic(auto, unfolding(crate::specs::Frames::read_found, sip_subvec::specs::Honest::honest_messages, sip_wire::specs::Spelling::spelling, sip_wire::specs::Spelling::in_bytes, sip_wire::specs::Spelling::spelled, sip_replies::specs::Replies::run_from, sip_replies::specs::Replies::read_from, sip_wire::specs::Reading::read_frame, sip_wire::specs::Spelling::frame_fault, sip_wire::specs::Spelling::kind_fault, sip_wire::specs::Spelling::body_fault, sip_wire::specs::Spelling::asked, sip_wire::specs::Spelling::numbers_in, sip_wire::specs::Spelling::all_hold))]

ghost use Rattle.std.specs.Prelude.{◌≡◌, [], ◌∷◌, ◌++◌, codes, take, Ok, Err, Some, None, true};
ghost use Rattle.std.specs.Prelude.{false, pos, replicate};
ghost use Rattle.sip_ports.specs.Ports.{ins, outs};
ghost use Rattle.sip_replies.specs.Talks.{asked};
ghost use Rattle.sip_subvec.specs.Examples.{reply_0, reply_1};
ghost use Rattle.sip_vector.specs.declared.query.Query.TheVariants as queries;
ghost use Rattle.sip_vector.specs.Examples.{four};
ghost use Rattle.sip_wire.specs.declared.message.Message.TheVariants as messages;
ghost use Rattle.sip_wire.specs.declared.message.Reason.TheVariants as reasons;
ghost use Rattle.sip_wire.specs.Spelling.{spelling};
ghost use Rattle.sip_wire.specs.declared.version.Version.TheVariants.{One, Two};
ghost use Rattle.sip_lookup.specs.declared.lookup.Lookup.TheVariants as lookups;
ghost use Rattle.sip_lookup.specs.AcceptsLook.{accepts_look, is_right};
ghost use Rattle.sip_lookup.specs.Examples.{ask_succ_1, entry, found_and_proved, found_at, succ_1};
ghost use Rattle.sip_lookup.specs.Frames.{ask_message, found_message, read_found};
ghost use Rattle.sip_lookup.specs.Honest.{honest_looks};
ghost use Rattle.sip_lookup.specs.Questions.{said_for};
ghost use Rattle.sip_lookup.specs.Reports.{look_line};
ghost use Rattle.sip_lookup.specs.Lookups.{are_alone, honest_found, is_possible, near, nearest};
ghost use Rattle.sip_lookup.specs.Lookups.{range_of, value};

/// The answers to lookups in (3, 0, 5, 1), and in four zeros.
pub fn answers_by_hand()
    ensures index { near four (lookups.Index 1) ≡ value (pos 0) }
    ensures pred { near four (lookups.Pred 1) ≡ nearest (Some (entry 0 3)) }
    ensures succ { near four (lookups.Succ 1) ≡ nearest (Some (entry 2 5)) }
    ensures itself { near four (lookups.Pred 2) ≡ nearest (Some (entry 2 5)) }
    ensures last { near four (lookups.Succ 3) ≡ nearest (Some (entry 3 1)) }
    ensures zeros { near (replicate 4 (pos 0)) (lookups.Pred 3) ≡ nearest None }
{}

/// What an honest helper finds, and the interval that proves it.
pub fn places_by_hand()
    ensures index { honest_found four (lookups.Index 1) ≡ Some 1 }
    ensures pred { honest_found four (lookups.Pred 1) ≡ Some 0 }
    ensures succ { honest_found four (lookups.Succ 1) ≡ Some 2 }
    ensures none { honest_found (replicate 4 (pos 0)) (lookups.Pred 3) ≡ None }
    ensures at_item { range_of 2 (lookups.Index 1) (Some 1) ≡ (1, 1) }
    ensures below { range_of 2 (lookups.Pred 1) (Some 0) ≡ (0, 1) }
    ensures above { range_of 2 (lookups.Succ 1) (Some 2) ≡ (1, 2) }
    ensures none_below { range_of 2 (lookups.Pred 3) None ≡ (0, 3) }
    ensures none_above { range_of 2 (lookups.Succ 1) None ≡ (1, 3) }
{}

/// Places that may not be found: none or another for an index, one on the wrong side of the item,
/// and one that is no item.
pub fn bad_places_by_hand()
    ensures no_index { is_possible 2 (lookups.Index 1) None ≡ false }
    ensures other_index { is_possible 2 (lookups.Index 1) (Some 2) ≡ false }
    ensures above { is_possible 2 (lookups.Pred 1) (Some 2) ≡ false }
    ensures below { is_possible 2 (lookups.Succ 1) (Some 0) ≡ false }
    ensures no_item { is_possible 2 (lookups.Succ 1) (Some 4) ≡ false }
    ensures itself { is_possible 2 (lookups.Pred 1) (Some 1) ≡ true }
    ensures last { is_possible 2 (lookups.Succ 1) (Some 3) ≡ true }
{}

/// The frames of a lookup of the nearest entry at 1 or above it.
pub fn frames_by_hand()
    ensures ask { spelling One (ask_message (lookups.Succ 1))
        ≡ 0x21 ∷ 0x00 ∷ 0x09 ∷ 0x03 ∷ replicate 7 0 ++ 0x01 ∷ [] }
    ensures found { spelling Two (found_message (Some 2))
        ≡ 0x22 ∷ 0x00 ∷ 0x09 ∷ 0x01 ∷ replicate 7 0 ++ 0x02 ∷ [] }
    ensures none { spelling One (found_message None) ≡ 0x22 ∷ 0x00 ∷ 0x09 ∷ replicate 9 0 }
    ensures end { spelling One messages.End ≡ 0x23 ∷ 0x00 ∷ 0x00 ∷ [] }
{}

/// A Found is read with what follows it, or has this first fault.
pub fn found_frames_by_hand()
    ensures some { read_found One (spelling One (found_message (Some 2)) ++ 7 ∷ [])
        ≡ Ok (Some 2, 7 ∷ []) }
    ensures none { read_found Two (spelling Two (found_message None)) ≡ Ok (None, []) }
    ensures closed { read_found One (0x22 ∷ 0x00 ∷ []) ≡ Err reasons.Closed }
    ensures cut { read_found One (0x22 ∷ 0x00 ∷ 0x09 ∷ 0x01 ∷ replicate 7 0)
        ≡ Err reasons.Closed }
    ensures kind { read_found One (0x21 ∷ 0x00 ∷ 0x09 ∷ []) ≡ Err reasons.BadKind }
    ensures length { read_found One (0x22 ∷ 0x00 ∷ 0x08 ∷ []) ≡ Err reasons.BadLength }
    ensures flag { read_found One (0x22 ∷ 0x00 ∷ 0x09 ∷ 0x02 ∷ replicate 8 0)
        ≡ Err reasons.BadNumber }
    ensures number { read_found One (0x22 ∷ 0x00 ∷ 0x09 ∷ 0x00 ∷ replicate 7 0 ++ 0x01 ∷ [])
        ≡ Err reasons.BadNumber }
    ensures refused { read_found One (0x18 ∷ 0x00 ∷ 0x01 ∷ 0x01 ∷ [])
        ≡ Err (reasons.Refused 1) }
    ensures no_code { read_found One (0x18 ∷ 0x00 ∷ 0x01 ∷ 0x05 ∷ []) ≡ Err reasons.BadNumber }
    ensures long_refusal { read_found One (0x18 ∷ 0x00 ∷ 0x09 ∷ []) ≡ Err reasons.BadLength }
{}

/// Replies to the lookup of the nearest entry at 1 or above it, in (3, 0, 5, 1): the honest ones
/// are accepted; a place below the item is not, nor is one behind the nearest entry, whatever
/// honest replies follow; nor that there is none.
pub fn replies_by_hand()
    ensures honest { accepts_look One 2 four (lookups.Succ 1) (2 ∷ 10 ∷ [])
        (found_and_proved (Some 2) 1 2) ≡ true }
    ensures right { is_right One 2 four (lookups.Succ 1) (found_and_proved (Some 2) 1 2) ≡ true }
    ensures below { accepts_look One 2 four (lookups.Succ 1) (2 ∷ 10 ∷ [])
        (found_and_proved (Some 0) 0 1) ≡ false }
    ensures behind { accepts_look One 2 four (lookups.Succ 1) (2 ∷ 10 ∷ [])
        (found_and_proved (Some 3) 1 3) ≡ false }
    ensures not_alone { are_alone (lookups.Succ 1) (Some 3) (entry 2 5 ∷ entry 3 1 ∷ [])
        ≡ false }
    ensures none { accepts_look One 2 four (lookups.Succ 1) (2 ∷ 10 ∷ [])
        (found_and_proved None 1 3) ≡ false }
    ensures index { accepts_look One 2 four (lookups.Index 1) (2 ∷ 10 ∷ [])
        (found_and_proved (Some 1) 1 1) ≡ true }
    ensures index_right { is_right One 2 four (lookups.Index 1) (found_and_proved (Some 1) 1 1)
        ≡ true }
{}

/// The lines of answers over (3, 0, 5, 1), and over four zeros.
pub fn lines_by_hand()
    ensures index { look_line (lookups.Index 1) (near four (lookups.Index 1))
        ≡ codes "index:1 0" ++ 10 ∷ [] }
    ensures pred { look_line (lookups.Pred 1) (near four (lookups.Pred 1))
        ≡ codes "pred:1 0:3" ++ 10 ∷ [] }
    ensures succ { look_line (lookups.Succ 1) (near four (lookups.Succ 1))
        ≡ codes "succ:1 2:5" ++ 10 ∷ [] }
    ensures none { look_line (lookups.Pred 3) (near (replicate 4 (pos 0)) (lookups.Pred 3))
        ≡ codes "pred:3 none" ++ 10 ∷ [] }
{}

/// What an honest helper replies to the lookup of the nearest entry at 1 or above it, and what is
/// said for it. Before the Found is whole the Ask is all that is sent, and so it stays where the
/// Found names a place that may not be found.
pub fn talk_by_hand()
    ensures honest { honest_looks One 2 four (lookups.Succ 1) (2 ∷ 10 ∷ [])
        ≡ (found_at 2 ++ reply_0 One) ∷ reply_1 ∷ [] }
    ensures whole { said_for One 2 (succ_1 ((found_at 2 ++ reply_0 One) ∷ reply_1 ∷ []))
        ≡ outs ask_succ_1 ++ (ins (found_at 2) ++ asked One
        (messages.Query (queries.Sub 1 2)) (2 ∷ 10 ∷ [])
        (reply_0 One ∷ reply_1 ∷ [])) }
    ensures asked { said_for One 2 (succ_1 (found_at 2 ∷ []))
        ≡ outs ask_succ_1 ++ (ins (found_at 2) ++ asked One
        (messages.Query (queries.Sub 1 2)) (2 ∷ 10 ∷ [])
        ([] ∷ [])) }
    ensures cut { said_for One 2 (succ_1 (take 11 (found_at 2) ∷ []))
        ≡ outs ask_succ_1 ++ ins (take 11 (found_at 2)) }
    ensures bad { said_for One 2 (succ_1 (found_at 0 ∷ [])) ≡ outs ask_succ_1 ++ ins (found_at 0) }
{}
