//! How updates are spelled.

ghost use Rattle.std.specs.Prelude.{◌≡◌, ◌≢◌, ◌<◌, ◌≤◌, ◌^◌, ℕ, List, [], ◌∷◌, ◌++◌, None, All};
ghost use Rattle.std.specs.Prelude.{length, codes, pos, negsuc, slice_index, FitsSigned, Ok};
ghost use Rattle.std.specs.Int.{w64};
ghost use Rattle.sip_vector.specs.Limits.{most_depth};
ghost use Rattle.sip_vector.specs.declared.update.Side.TheVariants as sides;
ghost use Rattle.sip_vector.specs.declared.update.Update.{Update as AnyUpdate};
ghost use Rattle.sip_vector.specs.Streams.{IsLegal};
ghost use Rattle.sip_stream.specs.declared.form.Form.{Form as AnyForm};
ghost use Rattle.sip_stream.specs.Layouts.{deepest_in, layout_of, record_size};
ghost use Rattle.sip_stream.specs.Pieces.{line_said, record_said};
ghost use Rattle.sip_stream.specs.Records.{fault_at, records, records_from, update_at};
ghost use Rattle.sip_stream.specs.Records.{update_fault};
ghost use Rattle.sip_stream.specs.Spellings.{all_spelled, line_bytes, record_bytes, spelled};

/// Two records: of an update of either side, one of them with a negative delta.
#[tactic(auto, unfolding(crate::specs::Spellings::record_bytes))]
pub fn records_of_two()
    ensures first { record_bytes 4 (record { side = sides.First; item = 2; delta = pos 5 })
        ≡ 0 ∷ 0 ∷ 0 ∷ 0 ∷ 2 ∷ 0 ∷ 0 ∷ 0 ∷ 0 ∷ 0 ∷ 0 ∷ 0 ∷ 5 ∷ [] }
    ensures second { record_bytes 4
        (record { side = sides.Second; item = 4_294_967_295; delta = negsuc 1 })
        ≡ 1 ∷ 255 ∷ 255 ∷ 255 ∷ 255 ∷ 255 ∷ 255 ∷ 255 ∷ 255 ∷ 255 ∷ 255 ∷ 255 ∷ 254 ∷ [] }
{}

/// Two wide records: of an update of either side, one of them with a negative delta.
#[tactic(auto, unfolding(crate::specs::Spellings::record_bytes))]
pub fn wide_records_of_two()
    ensures first { record_bytes 8 (record { side = sides.First; item = 2 ^ 47; delta = pos 7 })
        ≡ 0 ∷ 0 ∷ 0 ∷ 128 ∷ 0 ∷ 0 ∷ 0 ∷ 0 ∷ 0 ∷ 0 ∷ 0 ∷ 0 ∷ 0 ∷ 0 ∷ 0 ∷ 0 ∷ 7 ∷ [] }
    ensures second { record_bytes 8
        (record { side = sides.Second; item = 281_474_976_710_655; delta = negsuc 1 })
        ≡ 1 ∷ 0 ∷ 0 ∷ 255 ∷ 255 ∷ 255 ∷ 255 ∷ 255 ∷ 255
        ∷ 255 ∷ 255 ∷ 255 ∷ 255 ∷ 255 ∷ 255 ∷ 255 ∷ 254 ∷ [] }
{}

/// Two lines: of an update of either side, one of them with a negative delta.
pub fn lines_of_two()
    ensures first { line_bytes (record { side = sides.First; item = 532219; delta = pos 8 })
        ≡ codes "0 532219 8" ++ 10 ∷ [] }
    ensures second { line_bytes (record { side = sides.Second; item = 0; delta = negsuc 16 })
        ≡ codes "1 0 -17" ++ 10 ∷ [] }
{}

/// A record has 13 bytes, and a wide one 17. A line has 39 at most, and its one line feed is its
/// last byte.
pub fn spellings_are_short()
    ensures records { (width : ℕ) (u : AnyUpdate)
        → length (record_bytes width u) ≡ record_size width }
    ensures sizes { (record_size 4 ≡ 13) × (record_size 8 ≡ 17) }
    ensures lines { (u : AnyUpdate) → u.item < 2 ^ most_depth → FitsSigned w64 u.delta
        → length (line_bytes u) ≤ 39 }
    ensures feed { (u : AnyUpdate) → u.item < 2 ^ most_depth → FitsSigned w64 u.delta
        → (text : List ℕ) × (line_bytes u ≡ text ++ 10 ∷ []) × All (λ b. b ≢ 10) text }
{}

/// A spelling is read as its update, and what stands against it at its place is what stands against
/// the update. Where the update is legal, the spelling in front of bytes is read as the next
/// record, and then the bytes.
pub fn spellings_are_read()
    ensures update { (form : AnyForm) (u : AnyUpdate) → u.item < 2 ^ deepest_in form
        → FitsSigned w64 u.delta → update_at (layout_of form) (spelled (layout_of form) u) ≡ u }
    ensures fault { (form : AnyForm) (depth : ℕ) (before : List AnyUpdate) (u : AnyUpdate)
        → u.item < 2 ^ deepest_in form → FitsSigned w64 u.delta
        → fault_at (layout_of form) depth before (spelled (layout_of form) u)
        ≡ update_fault depth before u }
    ensures next { (depth : ℕ) (form : AnyForm) (before : List AnyUpdate) (u : AnyUpdate)
        (rest : List ℕ) → u.item < 2 ^ deepest_in form → FitsSigned w64 u.delta
        → update_fault depth before u ≡ None
        → records_from depth form before (spelled (layout_of form) u ++ rest)
        ≡ records_from depth form (before ++ u ∷ []) rest }
{}

/// The spellings of a legal stream, one after the other, are read as that stream, to their end.
pub fn streams_are_read()
    ensures { (depth : ℕ) (form : AnyForm) (stream : List AnyUpdate)
        → depth ≤ deepest_in form → IsLegal depth stream
        → records depth form (all_spelled form stream)
        ≡ record { legal = stream; fault = None } }
{}

/// A whole record or line that says an update is the one spelling of that update.
pub fn spellings_are_the_only_ones()
    ensures records { (width : ℕ) (bytes : List ℕ) (u : AnyUpdate)
        → length bytes ≡ record_size width → ((k : ℕ) → slice_index bytes k < 256)
        → Ok u ≡ record_said width bytes → record_bytes width u ≡ bytes }
    ensures lines { (text : List ℕ) (u : AnyUpdate) → Ok u ≡ line_said text
        → line_bytes u ≡ text ++ 10 ∷ [] }
{}
