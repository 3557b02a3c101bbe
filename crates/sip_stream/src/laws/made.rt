//! Made streams.

ghost use Rattle.std.specs.Prelude.{◌≡◌, ◌≤◌, ℕ, [], ◌∷◌, None, pos};
ghost use Rattle.sip_vector.specs.declared.update.Side.{Side as AnySide};
ghost use Rattle.sip_vector.specs.declared.update.Side.TheVariants as sides;
ghost use Rattle.sip_vector.specs.Streams.{IsLegal, IsStrict};
ghost use Rattle.sip_vector.specs.Limits.{most_depth};
ghost use Rattle.sip_stream.specs.Layouts.{made_form};
ghost use Rattle.sip_stream.specs.Records.{records};
ghost use Rattle.sip_stream.specs.Made.{next_state, made, made_bytes, most_made};

/// The streams of one record from 7 and from 0, and one of an item that has no room in four bytes.
#[tactic(auto, unfolding(crate::specs::Made::next_state, crate::specs::Made::made_side, crate::specs::Made::made_item, crate::specs::Made::made_delta, crate::specs::Spellings::record_bytes))]
pub fn made_from_7_and_0()
    ensures state { next_state 7 ≡ 9098160460397411210 }
    ensures first { made 7 1 20 ≡ record { side = sides.First; item = 532219; delta = pos 8 } ∷ [] }
    ensures bytes { made_bytes 7 1 20 ≡ 0 ∷ 0 ∷ 8 ∷ 30 ∷ 251 ∷ 0 ∷ 0 ∷ 0 ∷ 0 ∷ 0 ∷ 0 ∷ 0 ∷ 8 ∷ [] }
    ensures zero { made 0 1 20 ≡ record { side = sides.First; item = 913103; delta = pos 1 } ∷ [] }
    ensures deep { made 7 1 48
        ≡ record { side = sides.First; item = 277653822643963; delta = pos 8 } ∷ [] }
    ensures wide { made_bytes 7 1 48 ≡ 0 ∷ 0 ∷ 0 ∷ 252 ∷ 134 ∷ 81 ∷ 120 ∷ 30 ∷ 251
        ∷ 0 ∷ 0 ∷ 0 ∷ 0 ∷ 0 ∷ 0 ∷ 0 ∷ 8 ∷ [] }
{}

/// A made stream is legal, and no entry of its vectors is negative. Its bytes are read as that
/// stream, to their end.
pub fn made_streams_are_legal()
    ensures legal { (x count depth : ℕ) → 1 ≤ depth → count ≤ most_made
        → IsLegal depth (made x count depth) }
    ensures read { (x count depth : ℕ) → 1 ≤ depth → depth ≤ most_depth → count ≤ most_made
        → records depth (made_form depth) (made_bytes x count depth)
        ≡ record { legal = made x count depth; fault = None } }
    ensures strict { (x count depth : ℕ) (side : AnySide)
        → IsStrict depth (made x count depth) side }
{}
