//! Laws of the words that the contract of a run over memory is written in.

ghost use Rattle.std.specs.Prelude.{◌≡◌, [], ◌∷◌, Some};
ghost use Rattle.sip_ports.specs.declared.port.TalkEvent.TheVariants.{Out, In};
ghost use Rattle.sip_verifier.specs.Exchanges.{Exchange};
ghost use Rattle.sip_command_tests.specs.Moves.{Moves, held};

/// What ports held before and hold now tells what moved: of the bytes 1 and 2 the second is left,
/// and 4, 8 and 6 are new.
pub fn held_bytes_tell_what_moved()
    ensures { (x : Exchange)
        → Moves (held (1 ∷ 2 ∷ []) (0 ∷ []) (In 3 ∷ []) (7 ∷ []) (5 ∷ []))
        (held (2 ∷ []) [] (In 3 ∷ Out 4 ∷ []) (7 ∷ 8 ∷ []) (5 ∷ 6 ∷ [])) x
        → (x.stream ≡ 1 ∷ 2 ∷ []) × (x.unread ≡ 2 ∷ []) × (x.seed ≡ 0 ∷ [])
        × (x.talk ≡ Out 4 ∷ []) × (x.report ≡ 8 ∷ [])
        × (x.kept ≡ Some (6 ∷ [])) }
{}
