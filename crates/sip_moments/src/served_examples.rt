//! Worked examples of the helper's end, which hold by computation. These functions do nothing: each
//! contract is a fact that holds.
#![tactic(auto, unfolding(sip_vector::specs::Vectors::zeros, crate::specs::Honest::honest_messages, sip_wire::specs::Spelling::spelling, sip_wire::specs::Spelling::in_bytes, sip_wire::specs::Spelling::spelled))]

ghost use Rattle.std.specs.Prelude.{◌≡◌, [], ◌∷◌, ◌++◌, None, pos, replicate, true, false};
ghost use Rattle.sip_wire.specs.declared.message.Message.TheVariants as messages;
ghost use Rattle.sip_moments.specs.Stating.{power_message};
ghost use Rattle.sip_moments.specs.Examples.{first_round, second_round};
ghost use Rattle.sip_moments.specs.ServedExamples.{asked_cubes, behind_four, challenged_cubes};
ghost use Rattle.sip_moments.specs.Serving.{after_answer, is_allowed, owed, owed_messages};

/// Behind a stream that adds up to (3, 0, 5, 1), the third moment is claimed to be 153, and the
/// first round polynomial goes with it. Behind the challenge 2 the second one is owed, and closes
/// the question.
pub fn cubes_by_hand()
    ensures first { owed_messages asked_cubes
        ≡ messages.Claim (pos 153) ∷ power_message first_round ∷ [] }
    ensures second { owed_messages challenged_cubes ≡ power_message second_round ∷ [] }
    ensures closed { (after_answer challenged_cubes).question ≡ None }
    ensures bytes { owed challenged_cubes ≡ 0x25 ∷ 0x00 ∷ 0x20 ∷ 0x1f ∷ replicate 6 0xff
        ++ 0xe4 ∷ replicate 24 0 }
{}

/// Which messages may come behind that stream: a moment of a side, of a degree from 3 to 8, and the
/// end; and once a moment is open a challenge, and no other moment and no Bye. The weight is 9.
pub fn turns_by_hand()
    ensures ask { is_allowed behind_four (messages.AskMoment 1 8) ≡ true }
    ensures side { is_allowed behind_four (messages.AskMoment 2 3) ≡ false }
    ensures low { is_allowed behind_four (messages.AskMoment 0 2) ≡ false }
    ensures high { is_allowed behind_four (messages.AskMoment 0 9) ≡ false }
    ensures end { is_allowed behind_four messages.End ≡ true }
    ensures reveal { is_allowed (after_answer asked_cubes) (messages.Reveal 2) ≡ true }
    ensures again { is_allowed (after_answer asked_cubes) (messages.AskMoment 0 3) ≡ false }
    ensures bye { is_allowed (after_answer asked_cubes) messages.Bye ≡ false }
    ensures most { is_allowed (record behind_four { asked = 16 }) (messages.AskMoment 0 3) ≡ false }
{}
