//! Laws: honest replies with marks are accepted, and what they state is the large entries, also
//! where entries are below 0. These functions do nothing: each contract is a fact that holds.

ghost use Rattle.std.specs.Prelude.{◌≡◌, ℕ, ◌+◌, ◌<◌, ◌≤◌, ℤ, pos, All, IsTrue, List, [], ◌∷◌};
ghost use Rattle.std.specs.Prelude.{◌++◌, length, Ok};
ghost use Rattle.sip_field.specs.Moduli.{m61_modulus};
ghost use Rattle.sip_vector.specs.declared.query.Query.TheVariants as queries;
ghost use Rattle.sip_vector.specs.declared.update.Side.{Side as AnySide};
ghost use Rattle.sip_vector.specs.declared.update.Update.{Update as AnyUpdate};
ghost use Rattle.sip_vector.specs.Answers.{answer, pairs};
ghost use Rattle.sip_vector.specs.Splits.{splitroot, weights};
ghost use Rattle.sip_vector.specs.Streams.{int_sum, vector, weight, IsLegal};
ghost use Rattle.sip_wire.specs.Spelling.{fits};
ghost use Rattle.sip_wire.specs.Versions.{deepest};
ghost use Rattle.sip_wire.specs.declared.version.Version.TheVariants.{Two};
ghost use Rattle.sip_replies.specs.Replies.{IsAccepted, IsUnfinished};
ghost use Rattle.sip_heavy.specs.declared.form.LeafForm.TheVariants as forms;
ghost use Rattle.sip_heavy.specs.AcceptsHeavy.{asking, verdict};
ghost use Rattle.sip_heavy.specs.Counting.{above_over, AreWeighed};
ghost use Rattle.sip_heavy.specs.Honest.{honest_lists, heavy_of};
ghost use Rattle.sip_heavy.specs.Examples as example;
ghost use Rattle.sip_heavy.specs.HonestExamples.{marks_of_six, marks_of_three, node_of_six};
ghost use Rattle.sip_heavy.specs.HonestMarks.{above_messages, above_replies, above_reply};
ghost use Rattle.sip_heavy.specs.HonestMarks.{begun_above, CanBeMarked, CanBeWeighed};
ghost use Rattle.sip_heavy.specs.Protocol.{above_asked, heavy_protocol, heavy_rules};

/// What can be sent has a spelling in version 2: each honest message.
pub fn honest_marks_have_spellings()
    ensures { (p depth t n : ℕ) (values weights : List ℤ)
        → CanBeMarked p depth n values weights → (revealed : List ℕ)
        → All (λ m. IsTrue (fits Two m)) (above_messages p values weights t revealed) }
{}

/// The honest marks and nodes, level by level, are accepted against the root of the split tree, and
/// what they state is the entries of at least t.
pub fn honest_mark_lists_are_accepted()
    ensures { (p depth t n : ℕ) (values weights : List ℤ) (challenges : List ℕ)
        → CanBeWeighed p depth n values weights → 1 ≤ t → t ≤ n → length challenges ≡ depth
        → verdict p (asking forms.Mark depth t n) (splitroot p values weights challenges)
        challenges (honest_lists p (begun_above p values weights t) challenges)
        ≡ Ok (heavy_of t values) }
{}

/// The honest replies about entries that can be sent are accepted against the root of their split
/// tree and the sum of the weights, and what they state is the entries of at least t.
pub fn honest_mark_replies_are_accepted()
    ensures { (p depth t n : ℕ) (values weights : List ℤ) → CanBeMarked p depth n values weights
        → 1 ≤ t → t ≤ n → (challenges : List ℕ) → length challenges ≡ depth
        → IsAccepted (above_over Two p depth t values weights challenges) challenges
        (above_replies p values weights t challenges) (pairs (heavy_of t values)) }
{}

/// While honest replies come they have no fault, but that more is to come: neither where the last
/// one is whole, nor where a front of it was taken.
pub fn honest_mark_replies_have_no_fault()
    ensures whole { (p depth t n : ℕ) (values weights : List ℤ) (revealed more : List ℕ)
        → CanBeMarked p depth n values weights → 1 ≤ t → t ≤ n
        → length (revealed ++ more) ≤ depth
        → IsUnfinished (heavy_rules Two p (asking forms.Mark depth t n)) (revealed ++ more)
        (above_replies p values weights t revealed) }
    ensures front { (p depth t n : ℕ) (values weights : List ℤ)
        → CanBeMarked p depth n values weights → 1 ≤ t → t ≤ n
        → (revealed : List ℕ) (r : ℕ) (more front rest : List ℕ)
        → length (revealed ++ r ∷ more) ≤ depth
        → above_reply p values weights t revealed ≡ front ++ rest
        → IsUnfinished (heavy_rules Two p (asking forms.Mark depth t n)) (revealed ++ r ∷ more)
        (above_replies p values weights t revealed ++ front ∷ []) }
{}

/// Where the sum of the weights is below the threshold nothing is asked, and the answer without a
/// reply is right: no entry is so large.
pub fn no_marks_are_asked_below()
    ensures { (p hash depth t n : ℕ) (values weights : List ℤ) (challenges : List ℕ) → 0 < p
        → length values ≡ length weights → AreWeighed p values weights
        → int_sum weights ≡ pos n → n < t
        → IsAccepted (heavy_protocol (above_asked Two p hash n depth t)) challenges []
        (pairs (heavy_of t values)) }
{}

/// What is sent about a legal stream is its answer, whatever its entries.
pub fn legal_streams_can_be_marked()
    ensures sent { (depth : ℕ) (stream : List AnyUpdate) (side : AnySide)
        → IsLegal depth stream → 1 ≤ depth → depth ≤ deepest Two
        → CanBeMarked m61_modulus depth (weight stream side) (vector depth stream side)
        (weights depth stream side) }
    ensures answer { (depth t : ℕ) (stream : List AnyUpdate) (side : AnySide)
        → answer depth stream (queries.Above side t)
        ≡ pairs (heavy_of t (vector depth stream side)) }
{}

/// The honest replies about the entries of at least 3 and of at least 6 of (0, 5, -9, 3) with the
/// weights (0, 5, 9, 5), at the challenges 2 and 10. Of those of at least 6 there is none, but two
/// marks are shown, and one node.
#[tactic(auto, unfolding(crate::specs::HonestMarks::above_messages))]
pub fn honest_marks_by_hand()
    ensures three { above_messages m61_modulus example.values example.weights 3 []
        ≡ marks_of_three }
    ensures six { above_messages m61_modulus example.values example.weights 6 [] ≡ marks_of_six }
    ensures node { above_messages m61_modulus example.values example.weights 6 (2 ∷ [])
        ≡ node_of_six }
{}
