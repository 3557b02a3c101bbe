//! Worked examples, which hold by computation. These functions do nothing: each contract is a fact
//! that holds.
#![tactic(auto, unfolding(sip_vector::specs::Vectors::zeros, sip_subvec::specs::Honest::honest_messages, sip_moments::specs::Honest::honest_messages, sip_wire::specs::Spelling::spelling, sip_wire::specs::Spelling::in_bytes, sip_wire::specs::Spelling::spelled))]

ghost use Rattle.std.specs.Prelude.{◌≡◌, [], ◌∷◌, Some, None, true, false};
ghost use Rattle.sip_vector.specs.declared.query.Query.TheVariants as queries;
ghost use Rattle.sip_wire.specs.declared.message.Message.TheVariants as messages;
ghost use Rattle.sip_lookup.specs.Frames.{found_message};
ghost use Rattle.sip_questions.specs.Examples.{asked_about, asked_cubes, behind_stream};
ghost use Rattle.sip_questions.specs.Examples.{challenged_cubes, sought};
ghost use Rattle.sip_questions.specs.Serving.{after_answer, is_allowed, owed_messages};

/// Behind a stream that adds up to (3, 0, 5, 1) each kind may be asked, and the talk may end.
pub fn kinds_by_hand()
    ensures query { is_allowed behind_stream (messages.Query (queries.Sub 1 2)) ≡ true }
    ensures lookup { is_allowed behind_stream (messages.AskLook 1 3) ≡ true }
    ensures far { is_allowed behind_stream (messages.AskLook 1 4) ≡ false }
    ensures moment { is_allowed behind_stream (messages.AskMoment 0 3) ≡ true }
    ensures degree { is_allowed behind_stream (messages.AskMoment 0 9) ≡ false }
    ensures bye { is_allowed behind_stream messages.Bye ≡ true }
{}

/// The place that a lookup finds opens nothing: any question may come behind it, and a Bye. The
/// query about the interval is open like any other, and nothing else may be asked then.
pub fn lookups_by_hand()
    ensures found { owed_messages sought ≡ found_message (Some 2) ∷ [] }
    ensures given { owed_messages (after_answer sought) ≡ [] }
    ensures query { is_allowed (after_answer sought) (messages.Query (queries.Sub 1 2)) ≡ true }
    ensures lookup { is_allowed (after_answer sought) (messages.AskLook 2 1) ≡ true }
    ensures moment { is_allowed (after_answer sought) (messages.AskMoment 0 3) ≡ true }
    ensures bye { is_allowed (after_answer sought) messages.Bye ≡ true }
    ensures reveal { is_allowed (after_answer asked_about) (messages.Reveal 2) ≡ true }
    ensures again { is_allowed (after_answer asked_about) (messages.AskLook 2 1) ≡ false }
{}

/// While a moment is open a challenge may come, and nothing else but a Bye. Its last reply closes
/// it.
pub fn moments_by_hand()
    ensures reveal { is_allowed (after_answer asked_cubes) (messages.Reveal 2) ≡ true }
    ensures query { is_allowed (after_answer asked_cubes) (messages.Query (queries.Sub 1 2))
        ≡ false }
    ensures lookup { is_allowed (after_answer asked_cubes) (messages.AskLook 1 3) ≡ false }
    ensures moment { is_allowed (after_answer asked_cubes) (messages.AskMoment 0 3) ≡ false }
    ensures bye { is_allowed (after_answer asked_cubes) messages.Bye ≡ true }
    ensures closed { (after_answer challenged_cubes).moment ≡ None }
    ensures behind { is_allowed (after_answer challenged_cubes) (messages.AskLook 1 3) ≡ true }
{}

/// A talk has 16 lookups and 16 moments, and no more of each.
pub fn limits_by_hand()
    ensures lookup { is_allowed (record behind_stream { lookups = 16 }) (messages.AskLook 1 3)
        ≡ false }
    ensures moment { is_allowed (record behind_stream { lookups = 16 }) (messages.AskMoment 0 3)
        ≡ true }
    ensures moments { is_allowed (record behind_stream { moments = 16 }) (messages.AskMoment 0 3)
        ≡ false }
{}
