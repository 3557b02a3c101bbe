//! Worked examples of the helper's end, which hold by computation. These functions do nothing: each
//! contract is a fact that holds.
#![tactic(auto, unfolding(sip_vector::specs::Vectors::zeros, sip_subvec::specs::Honest::honest_messages, sip_wire::specs::Spelling::spelling, sip_wire::specs::Spelling::in_bytes, sip_wire::specs::Spelling::spelled))]

ghost use Rattle.std.specs.Prelude.{◌≡◌, [], ◌∷◌, ◌++◌, replicate, false, true};
ghost use Rattle.sip_wire.specs.declared.message.Message.TheVariants as messages;
ghost use Rattle.sip_lookup.specs.ServedExamples.{asked_about, asked_above, behind_stream};
ghost use Rattle.sip_lookup.specs.ServedExamples.{challenged, having_heard};
ghost use Rattle.sip_vector.specs.declared.query.Query.TheVariants as queries;
ghost use Rattle.sip_lookup.specs.declared.lookup.Lookup.TheVariants as lookups;
ghost use Rattle.sip_lookup.specs.Serving.{after_answer, is_allowed, owed};
ghost use Rattle.sip_lookup.specs.declared.serving.Stage.TheVariants as stages;

/// Behind a stream that adds up to (3, 0, 5, 1), the nearest entry at item 1 or above it is at item
/// 2. Then the entries of items 1 to 2 and their siblings are due, and behind a challenge the
/// siblings of the next level, of which there are none.
pub fn lookup_by_hand()
    ensures found { owed asked_above ≡ 0x22 ∷ 0x00 ∷ 0x09 ∷ 0x01 ∷ replicate 7 0 ++ 0x02 ∷ [] }
    ensures first { owed asked_about
        ≡ 0x13 ∷ 0x00 ∷ 0x0e ∷ 0x00 ∷ 0x01 ∷ 0x00 ∷ 0x00 ∷ 0x00 ∷ 0x02 ∷ replicate 7 0 ++ 0x05
        ∷ 0x14 ∷ 0x00 ∷ 0x11 ∷ 0x03 ∷ replicate 7 0 ++ 0x03 ∷ replicate 7 0 ++ 0x01 ∷ [] }
    ensures second { owed challenged ≡ 0x14 ∷ 0x00 ∷ 0x01 ∷ 0x00 ∷ [] }
    ensures closed { (having_heard challenged (messages.AskLook 1 3 ∷ [])).stage
        ≡ stages.Asked (lookups.Index 3) }
{}

/// Which messages may come behind that stream: a lookup of an item below 4, by a code from 1 to 3,
/// and the end; and once a place was said the query, and neither another lookup nor a Bye.
pub fn turns_by_hand()
    ensures ask { is_allowed behind_stream (messages.AskLook 1 3) ≡ true }
    ensures far { is_allowed behind_stream (messages.AskLook 1 4) ≡ false }
    ensures no_code { is_allowed behind_stream (messages.AskLook 0 3) ≡ false }
    ensures high_code { is_allowed behind_stream (messages.AskLook 4 3) ≡ false }
    ensures end { is_allowed behind_stream messages.End ≡ true }
    ensures bye { is_allowed (after_answer asked_above) messages.Bye ≡ false }
    ensures query { is_allowed (after_answer asked_above) (messages.Query (queries.Sub 1 2))
        ≡ true }
    ensures most { is_allowed (record behind_stream { asked = 16 }) (messages.AskLook 1 3) ≡ false }
{}
