//! Worked examples of the definitions: each holds by computation.

pub mod made;
pub mod spellings;

ghost use Rattle.std.specs.Prelude.{◌≡◌, ◌<◌, ◌^◌, ℕ, List, [], ◌∷◌, ◌++◌, Some, None, codes};
ghost use Rattle.std.specs.Prelude.{decimal, pos, replicate, take};
ghost use Rattle.sip_vector.specs.Examples.{stream};
ghost use Rattle.sip_vector.specs.Streams.{IsLegal};
ghost use Rattle.sip_vector.specs.declared.update.Side.TheVariants as sides;
ghost use Rattle.sip_stream.specs.Examples.{bytes_of_three, heaviest, line, line_fault_of};
ghost use Rattle.sip_stream.specs.Examples.{lines_of_three, wide_bytes_of_one};
ghost use Rattle.sip_stream.specs.Lines.{decimal_at};
ghost use Rattle.sip_stream.specs.Records.{records, records_from};
ghost use Rattle.sip_vector.specs.declared.update.Update.{Update};
ghost use Rattle.sip_stream.specs.declared.form.Form.{Form};
ghost use Rattle.sip_stream.specs.declared.form.Form.TheVariants.{Binary, Text, Wide};
ghost use Rattle.sip_stream.specs.declared.why.Why.TheVariants as whys;

/// The bytes of three records, to their end.
pub fn records_of_three()
    ensures { records 2 Binary bytes_of_three ≡ record { legal = stream; fault = None } }
{}

/// The bytes of one wide record, to its end: the same bytes are no record at a lower depth, or with
/// one byte less.
pub fn wide_records_of_one()
    ensures legal { records 48 Wide wide_bytes_of_one
        ≡ record {
          legal = record { side = sides.First; item = 2 ^ 47; delta = pos 7 } ∷ [];
          fault = None;
        } }
    ensures shallow { (records 47 Wide wide_bytes_of_one).fault ≡ Some whys.BadItem }
    ensures short { (records 48 Wide (take 16 wide_bytes_of_one)).fault ≡ Some whys.Truncated }
{}

/// The lines of three records, to their end.
pub fn lines_of_three_records()
    ensures { records 2 Text lines_of_three ≡ record { legal = stream; fault = None } }
{}

/// Twelve bytes are no record, and neither are one byte more than whole records.
pub fn records_cut_short()
    ensures twelve { records 2 Binary (replicate 12 0)
        ≡ record { legal = []; fault = Some whys.Truncated } }
    ensures one_more { records 2 Binary (bytes_of_three ++ 0 ∷ [])
        ≡ record { legal = stream; fault = Some whys.Truncated } }
{}

/// A side of the greatest weight, and one more.
pub fn records_too_heavy()
    ensures fits { (records 1 Binary heaviest).fault ≡ None }
    ensures above { (records 1 Binary (heaviest ++ 0 ∷ 0 ∷ 0 ∷ 0 ∷ 0 ∷ replicate 8 255)).fault
        ≡ Some (whys.TooHeavy sides.First) }
{}

/// One fault each: side 2, item 4 at depth 2, delta 0.
pub fn records_with_a_fault()
    ensures side { (records 2 Binary (2 ∷ replicate 12 0)).fault ≡ Some whys.BadSide }
    ensures item { (records 2 Binary (0 ∷ 0 ∷ 0 ∷ 0 ∷ 4 ∷ replicate 8 0)).fault
        ≡ Some whys.BadItem }
    ensures delta { (records 2 Binary (replicate 13 0)).fault ≡ Some whys.ZeroDelta }
{}

/// One fault each in text: side 2, also far above, item 4 at depth 2, delta 0, and a weight too
/// much.
pub fn lines_with_a_fault()
    ensures side { line_fault_of (codes "2 0 5") ≡ Some whys.BadSide }
    ensures any_side { line_fault_of (codes "123456789012345678901234567890 0 5")
        ≡ Some whys.BadSide }
    ensures item { line_fault_of (codes "0 4 5") ≡ Some whys.BadItem }
    ensures greatest_item { line_fault_of (codes "0 18446744073709551615 5") ≡ Some whys.BadItem }
    ensures delta { line_fault_of (codes "1 3 0") ≡ Some whys.ZeroDelta }
    ensures weight { line_fault_of (codes "1 3 -1073741824") ≡ Some (whys.TooHeavy sides.Second) }
    ensures least_delta { line_fault_of (codes "0 0 -9223372036854775808")
        ≡ Some (whys.TooHeavy sides.First) }
{}

/// Lines of another shape, whatever their side is.
pub fn lines_of_another_shape()
    ensures letter { line_fault_of (codes "2 x 5") ≡ Some whys.BadLine }
    ensures empty { line_fault_of [] ≡ Some whys.BadLine }
    ensures leading_zero { line_fault_of (codes "0 01 5") ≡ Some whys.BadLine }
    ensures minus_zero { line_fault_of (codes "0 1 -0") ≡ Some whys.BadLine }
    ensures plus { line_fault_of (codes "0 1 +1") ≡ Some whys.BadLine }
    ensures two_spaces { line_fault_of (codes "0  1 5") ≡ Some whys.BadLine }
    ensures four_fields { line_fault_of (codes "0 1 5 ") ≡ Some whys.BadLine }
    ensures carriage_return { line_fault_of (codes "0 1 5" ++ 13 ∷ []) ≡ Some whys.BadLine }
    ensures item_too_great { line_fault_of (codes "0 18446744073709551616 5") ≡ Some whys.BadLine }
    ensures delta_too_great { line_fault_of (codes "0 1 9223372036854775808") ≡ Some whys.BadLine }
    ensures delta_too_small { line_fault_of (codes "0 1 -9223372036854775809") ≡ Some whys.BadLine }
{}

/// A line without its line feed is cut short, up to 40 bytes, and whatever it holds.
pub fn lines_cut_short()
    ensures legal { records 2 Text (lines_of_three ++ codes "0 1 5")
        ≡ record { legal = stream; fault = Some whys.Truncated } }
    ensures malformed { records 2 Text (codes "x")
        ≡ record { legal = []; fault = Some whys.Truncated } }
    ensures forty { (records 2 Text (replicate 40 48)).fault ≡ Some whys.Truncated }
{}

/// A line has at most 40 bytes, its line feed included.
pub fn lines_too_long()
    ensures longest { line_fault_of (replicate 35 57 ++ codes " 0 5") ≡ Some whys.BadSide }
    ensures with_a_feed { line_fault_of (replicate 36 57 ++ codes " 0 5") ≡ Some whys.BadLine }
    ensures without { (records 2 Text (replicate 41 48)).fault ≡ Some whys.BadLine }
    ensures greatest_of_all { line_fault_of (codes "0 18446744073709551615 -9223372036854775808")
        ≡ Some whys.BadLine }
{}

/// A decimal number below 2^64 has one spelling, which is read as that number.
#[tactic(auto, using(crate::proofs::Digits::only_spelling, crate::proofs::Digits::spelling_read))]
pub fn decimals_have_one_spelling()
    ensures read { (text : List ℕ) (n : ℕ) → n < 2 ^ 64 → decimal_at text ≡ Some n
        → text ≡ decimal n }
    ensures written { (n : ℕ) → n < 2 ^ 64 → decimal_at (decimal n) ≡ Some n }
{}

/// Where a reader met the end after these legal records, they are all. Each legal record before it
/// left the records of the whole stream as they were, so a reader that is called to its end gives
/// these.
#[tactic(auto, using(crate::proofs::RecordsRead::records_end))]
pub fn records_end()
    ensures { (depth : ℕ) (form : Form) (before : List Update)
        → records_from depth form before [] ≡ record { legal = before; fault = None } }
{}

/// The legal records that bytes begin with are a legal stream.
pub fn records_are_legal()
    ensures { (depth : ℕ) (form : Form) (bytes : List ℕ)
        → IsLegal depth (records depth form bytes).legal }
{}
