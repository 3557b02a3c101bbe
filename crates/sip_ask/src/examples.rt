//! Worked examples of what an ask does, which hold by computation. These functions do nothing: each
//! contract is a fact that holds.

ghost use Rattle.std.specs.Prelude.{◌≡◌, ◌++◌, [], ◌∷◌, Ok, Err, None, Some, take};
ghost use Rattle.sha2.specs.Sha256.{sha256};
ghost use Rattle.sip_ports.specs.Desk.{may_hold, steps};
ghost use Rattle.sip_ports.specs.Ports.{ins, outs};
ghost use Rattle.sip_sketch.specs.Examples.{watched, with_parts, with_weight};
ghost use Rattle.sip_sketch.specs.Sketches.{spelled_file};
ghost use Rattle.sip_wire.specs.declared.version.Version.TheVariants.{One, Two};
ghost use Rattle.sip_questions.specs.Questions.{version_for};
ghost use Rattle.sip_ask.specs.Choosing.{choice};
ghost use Rattle.sip_ask.specs.Examples.{at_item, fresh_seat, large, power, signed, squares, sub};
ghost use Rattle.sip_ask.specs.Examples.{used_bytes, used_digest, used_seat, with_seats};
ghost use Rattle.sip_ask.specs.Examples.{with_tally};
ghost use Rattle.sip_ask.specs.Marking.{mark};
ghost use Rattle.sip_ask.specs.Turns.{held_by, held_heard, recall_sent};
ghost use Rattle.sip_ask.specs.declared.status.AskStatus.TheVariants as statuses;

/// A sub-vector takes the seat for entries, and a second moment that for sums of its side. Once a
/// question has used the one, there is none for another. An item and a moment take seats too.
pub fn seats_by_hand()
    ensures sub { choice watched (sub 1 2 ∷ []) ≡ Ok (Some 0 ∷ []) }
    ensures none { choice (mark 0 watched) (sub 0 0 ∷ []) ≡ Err (statuses.NoSeat 1) }
    ensures squares { choice (mark 0 watched) (squares ∷ []) ≡ Ok (Some 1 ∷ []) }
    ensures both { choice watched (power 3 ∷ at_item 2 ∷ []) ≡ Ok (Some 1 ∷ Some 0 ∷ []) }
    ensures again { choice watched (power 3 ∷ squares ∷ []) ≡ Err (statuses.NoSeat 2) }
{}

/// Each question takes the first seat of its kind that is unused and that none before it takes.
pub fn seats_in_order()
    ensures two { choice (with_seats (fresh_seat ∷ fresh_seat ∷ []) watched)
        (sub 1 2 ∷ sub 0 0 ∷ []) ≡ Ok (Some 0 ∷ Some 1 ∷ []) }
    ensures over { choice (with_seats (used_seat ∷ fresh_seat ∷ []) watched) (sub 1 2 ∷ [])
        ≡ Ok (Some 1 ∷ []) }
{}

/// Entries larger than all of a side take no seat: there is none. Of a side that had a delta below
/// 0 they are not asked for at all, and other questions of it are.
pub fn large_entries_by_hand()
    ensures idle { choice watched (large 10 ∷ sub 1 2 ∷ []) ≡ Ok (None ∷ Some 0 ∷ []) }
    ensures none { choice watched (large 9 ∷ []) ≡ Err (statuses.NoSeat 1) }
    ensures signed { choice (with_tally signed watched) (large 4 ∷ [])
        ≡ Err (statuses.Signed 1) }
    ensures other { choice (with_tally signed watched) (sub 0 3 ∷ []) ≡ Ok (Some 0 ∷ []) }
{}

/// A sketch of one of two parts is never asked, nor anything that does not fit its depth, nor a
/// moment that may have no room in a claim. The first test that fails is told.
pub fn refusals_by_hand()
    ensures part { choice (with_parts 1 1 2 watched) (sub 1 2 ∷ []) ≡ Err statuses.NotWhole }
    ensures last { choice (with_parts 2 2 2 watched) (sub 0 9 ∷ []) ≡ Err statuses.NotWhole }
    ensures whole { choice (with_parts 1 2 2 watched) (sub 1 2 ∷ []) ≡ Ok (Some 0 ∷ []) }
    ensures unfit { choice watched (sub 1 2 ∷ at_item 4 ∷ []) ≡ Err (statuses.Unfit 2) }
    ensures first { choice watched (sub 1 2 ∷ sub 0 0 ∷ at_item 4 ∷ [])
        ≡ Err (statuses.Unfit 3) }
    ensures high { choice (with_weight 2000000 watched) (sub 1 2 ∷ power 3 ∷ [])
        ≡ Err (statuses.TooHigh 2) }
{}

/// The sketch with a used seat differs in one byte, and in the digest.
#[tactic(auto, unfolding(sha2::specs::Sha256::first_words, sha2::specs::Sha256::schedule, sha2::specs::Sha256::rounds, sha2::specs::Sha256::compress, sha2::specs::Sha256::hash_after, sha2::specs::Sha256::digest_bytes, sha2::specs::Sha256::sha256))]
pub fn a_used_seat_by_hand()
    ensures file { spelled_file (mark 0 watched) ≡ used_bytes ++ sha256 used_bytes }
    ensures digest { sha256 used_bytes ≡ used_digest }
{}

/// What is sent before anything is stored, and what is received then.
#[tactic(auto, unfolding(sip_wire::specs::Spelling::in_bytes, sip_wire::specs::Spelling::spelled, sip_wire::specs::Spelling::spelling))]
pub fn openings_by_hand()
    ensures version { version_for 2 (sub 1 2 ∷ []) ≡ One }
    ensures sent { recall_sent One 2 3 ≡ outs (0x01 ∷ 0x00 ∷ 0x02 ∷ 0x01 ∷ 0x02 ∷ 0x27 ∷ 0x00
        ∷ 0x08 ∷ 0 ∷ 0 ∷ 0 ∷ 0 ∷ 0 ∷ 0 ∷ 0 ∷ 3 ∷ []) }
    ensures held { held_heard One (held_by watched.tally) ≡ ins (0x26 ∷ 0x00 ∷ 0x20
        ∷ 0 ∷ 0 ∷ 0 ∷ 0 ∷ 0 ∷ 0 ∷ 0 ∷ 3 ∷ 0 ∷ 0 ∷ 0 ∷ 0 ∷ 0 ∷ 0 ∷ 0 ∷ 9
        ∷ 0 ∷ 0 ∷ 0 ∷ 0 ∷ 0 ∷ 0 ∷ 0 ∷ 0
        ∷ 0xb8 ∷ 0x26 ∷ 0x1a ∷ 0xe7 ∷ 0xdb ∷ 0x4f ∷ 0xab ∷ 0x00 ∷ []) }
{}
