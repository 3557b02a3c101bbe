//! How many challenges a helper can win by. These functions do nothing: each contract is a fact
//! that holds.

ghost use Rattle.std.specs.Prelude.{◌≡◌, ℕ, List, Option, Some};
ghost use Rattle.sip_vector.specs.declared.update.Entry.{Entry as AnyEntry};
ghost use Rattle.sip_vector.specs.declared.update.Update.{Update as AnyUpdate};
ghost use Rattle.sip_vector.specs.Streams.{IsLegal};
ghost use Rattle.sip_wire.specs.declared.version.Version.{Version};
ghost use Rattle.sip_verifier.specs.runs.Manners.{Question};
ghost use Rattle.sip_above.specs.declared.large.Large.{Large};
ghost use Rattle.sip_above.specs.Manner.{CountsFor, FewFor, asking};

/// Over every legal stream no helper has wrong large entries accepted at more than 3·d·p^(d - 1)
/// blocks of challenges, modulo 2^61 - 1: nothing is asked of the signs of the entries.
pub fn few_challenges_for_wrong_entries()
    ensures { (version : Version) (depth : ℕ) (stream : List AnyUpdate) (large : Large)
        → IsLegal depth stream → FewFor version depth stream large }
{}

/// What accepted replies state about a legal stream is counted.
pub fn accepted_entries_are_counted()
    ensures { (version : Version) (depth : ℕ) (stream : List AnyUpdate) (q : Question Large)
        (written : List AnyEntry) → IsLegal depth stream
        → (asking version depth stream).Accepts q written
        → CountsFor version depth stream q written }
{}
