//! What a helper of lookups says in a talk that keeps to the turns. This function does nothing: its
//! contract is a fact that holds.

ghost use Rattle.std.specs.Prelude.{◌≡◌, ◌≤◌, All, List, flat_map, length, ℕ};
ghost use Rattle.sip_ports.specs.Ports.{written};
ghost use Rattle.sip_vector.specs.declared.update.Side.TheVariants.{First};
ghost use Rattle.sip_vector.specs.declared.update.Update.{Update as AnyUpdate};
ghost use Rattle.sip_vector.specs.Streams.{vector};
ghost use Rattle.sip_wire.specs.declared.version.Version.{Version};
ghost use Rattle.sip_wire.specs.Versions.{deepest, number_of};
ghost use Rattle.sip_helper.specs.Rules.{AreTurnsBy, turns_talk_by};
ghost use Rattle.sip_wire.specs.Table.{most_queries};
ghost use Rattle.sip_lookup.specs.declared.lookup.Lookup.{Lookup as AnyLookup};
ghost use Rattle.sip_lookup.specs.Honest.{honesty};
ghost use Rattle.sip_lookup.specs.Owing.{CanFollow, all_turns, behind_pieces};
ghost use Rattle.sip_lookup.specs.Serving.{look_rules};

/// Behind a stream in any pieces, for which no memory was refused, the turns of up to 16 lookups at
/// their blocks may come, and what the helper says in them are the honest bytes of a run of these
/// lookups. So a verifier that hears such a helper comes to the stream's own answers.
pub fn honest_bytes_are_said()
    ensures turns { (version : Version) (depth : ℕ) (pieces : List (List AnyUpdate))
        (asks : List (AnyLookup × List ℕ)) → 1 ≤ depth → depth ≤ deepest version
        → All (CanFollow depth) asks → length asks ≤ most_queries
        → AreTurnsBy look_rules (behind_pieces (number_of version) depth pieces)
        (all_turns depth (vector depth (flat_map (λ us. us) pieces) First) asks) }
    ensures bytes { (version : Version) (depth : ℕ) (pieces : List (List AnyUpdate))
        (asks : List (AnyLookup × List ℕ)) → 1 ≤ depth → depth ≤ deepest version
        → All (CanFollow depth) asks
        → written (turns_talk_by look_rules (behind_pieces (number_of version) depth pieces)
        (all_turns depth (vector depth (flat_map (λ us. us) pieces) First) asks))
        ≡ flat_map (honesty.honest_bytes version depth (flat_map (λ us. us) pieces)) asks }
{}
