//! What a helper of moments hears and says in a talk that keeps to the turns. These functions do
//! nothing: each contract is a fact that holds.

ghost use Rattle.std.specs.Prelude.{◌≡◌, ◌<◌, ◌≤◌, ℕ, ◌∷◌, ◌++◌, [], All, List, length};
ghost use Rattle.std.specs.List.{flat_map};
ghost use Rattle.sip_field.specs.Moduli.{m61_modulus};
ghost use Rattle.sip_ports.specs.Ports.{written};
ghost use Rattle.sip_vector.specs.declared.update.Update.{Update as AnyUpdate};
ghost use Rattle.sip_wire.specs.declared.message.Message.TheVariants as messages;
ghost use Rattle.sip_helper.specs.Rules.{AreTurnsBy, turns_talk_by};
ghost use Rattle.sip_helper.specs.Turns.{version_opened};
ghost use Rattle.sip_wire.specs.Table.{most_queries};
ghost use Rattle.sip_moments.specs.declared.moment.Moment.{Moment as AnyMoment};
ghost use Rattle.sip_moments.specs.Honest.{honest_reply};
ghost use Rattle.sip_moments.specs.Manner.{honest_bytes, numbers_of};
ghost use Rattle.sip_moments.specs.Served.{CanBeServed, behind_stream, question_heard};
ghost use Rattle.sip_moments.specs.Served.{question_turns, run_turns, turn};
ghost use Rattle.sip_moments.specs.Serving.{fresh_moments, moment_rules, owed};

/// Behind a moment of a stream in any pieces, and fewer challenges than the depth, the honest reply
/// is owed, of the stream's own vector. Over a whole run, where a block has as many challenges as
/// there are levels, what goes out are the bytes that the verifier's completeness asks for.
pub fn honest_replies_are_owed()
    ensures replies { (number depth : ℕ) (pieces : List (List AnyUpdate)) (m : AnyMoment)
        (revealed : List ℕ) → length revealed < depth
        → owed (question_heard (behind_stream number depth pieces) m revealed)
        ≡ honest_reply (version_opened number) m61_modulus m.degree depth
        (numbers_of depth (flat_map (λ us. us) pieces) m) revealed }
    ensures run { (number depth : ℕ) (pieces : List (List AnyUpdate))
        (asks : List (AnyMoment × List ℕ)) → 1 ≤ depth
        → All (λ ask. length ask.1 ≡ depth) asks
        → written (turns_talk_by moment_rules fresh_moments (run_turns number depth pieces asks))
        ≡ flat_map (honest_bytes (version_opened number) depth (flat_map (λ us. us) pieces)) asks }
{}

/// Behind the stream each message of such a run may come, up to the end: up to 16 moments for which
/// a claim has room, and all challenges of each one's block but the last.
pub fn questions_may_come()
    ensures { (number depth : ℕ) (pieces : List (List AnyUpdate))
        (asks : List (AnyMoment × List ℕ)) → 1 ≤ depth → length asks ≤ most_queries
        → All (CanBeServed depth (flat_map (λ us. us) pieces)) asks
        → AreTurnsBy moment_rules (behind_stream number depth pieces)
        (flat_map question_turns asks ++ turn messages.End ∷ []) }
{}
