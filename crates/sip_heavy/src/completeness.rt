//! Laws: honest replies are accepted, and what they state is the answer. These functions do
//! nothing: each contract is a fact that holds.

ghost use Rattle.std.specs.Prelude.{◌≡◌, ℕ, ◌+◌, ◌<◌, ◌≤◌, nat_le, ℤ, pos, ◌≤ℤ◌, All, IsTrue, List};
ghost use Rattle.std.specs.Prelude.{[], ◌∷◌, ◌++◌, length, filter, slice_get, Some, None, Ok};
ghost use Rattle.sip_field.specs.Moduli.{m61_modulus};
ghost use Rattle.sip_vector.specs.declared.query.Query.TheVariants as queries;
ghost use Rattle.sip_vector.specs.declared.update.Side.{Side as AnySide};
ghost use Rattle.sip_vector.specs.declared.update.Update.{Update as AnyUpdate};
ghost use Rattle.sip_vector.specs.Answers.{answer, pairs};
ghost use Rattle.sip_vector.specs.Examples.{four};
ghost use Rattle.sip_vector.specs.Streams.{int_sum, total, vector, IsLegal, IsStrict};
ghost use Rattle.sip_vector.specs.Trees.{augroot, Counted};
ghost use Rattle.sip_wire.specs.declared.message.Node.{Node};
ghost use Rattle.sip_wire.specs.Spelling.{fits};
ghost use Rattle.sip_wire.specs.Versions.{deepest};
ghost use Rattle.sip_wire.specs.declared.version.Version.{Version};
ghost use Rattle.sip_wire.specs.declared.version.Version.TheVariants.{One, Two};
ghost use Rattle.sip_replies.specs.Replies.{IsAccepted, IsUnfinished};
ghost use Rattle.sip_heavy.specs.declared.form.LeafForm.{LeafForm};
ghost use Rattle.sip_heavy.specs.declared.form.LeafForm.TheVariants as forms;
ghost use Rattle.sip_heavy.specs.AcceptsHeavy.{asking, verdict};
ghost use Rattle.sip_heavy.specs.Honest.{Proving, begun, begun_over, learnt, proving_over};
ghost use Rattle.sip_heavy.specs.Honest.{its_nodes, honest_lists};
ghost use Rattle.sip_heavy.specs.Honest.{honest_messages, honest_reply, honest_replies, heavy_of};
ghost use Rattle.sip_heavy.specs.Honest.{CanBeCounted, CanBeSent};
ghost use Rattle.sip_heavy.specs.HonestExamples.{level_end, reply_0, reply_1};
ghost use Rattle.sip_heavy.specs.Protocol.{heavy_asked, heavy_protocol, heavy_rules};

/// A prover that learns the challenges one after another comes to the levels over its leaves that
/// they lead to, whatever leaves have.
pub fn provers_go_up()
    ensures begun { (p : ℕ) (form : LeafForm) (leaves : List Counted) (t : ℕ)
        → proving_over p form leaves t [] ≡ begun_over form leaves t }
    ensures learnt { (p : ℕ) (form : LeafForm) (leaves : List Counted) (t : ℕ) (prefix : List ℕ)
        (r : ℕ) → proving_over p form leaves t (prefix ++ r ∷ [])
        ≡ learnt p (proving_over p form leaves t prefix) r }
{}

/// The first node that is shown of a level, and then those after it, are all of them: so a walk
/// finds each.
pub fn walks_find_each_node()
    ensures all { (s : Proving) → filter (λ x. nat_le 0 x.index) (its_nodes s) ≡ its_nodes s }
    ensures next { (s : Proving) (from : ℕ) (x : Node)
        → slice_get (filter (λ y. nat_le from y.index) (its_nodes s)) 0 ≡ Some x
        → filter (λ y. nat_le from y.index) (its_nodes s)
        ≡ x ∷ filter (λ y. nat_le (x.index + 1) y.index) (its_nodes s) }
    ensures last { (s : Proving) (from : ℕ)
        → slice_get (filter (λ y. nat_le from y.index) (its_nodes s)) 0 ≡ None
        → filter (λ y. nat_le from y.index) (its_nodes s) ≡ [] }
{}

/// What can be sent has a spelling: each honest message, in its version.
pub fn honest_messages_have_spellings()
    ensures { (version : Version) (p depth t n : ℕ) (numbers : List ℤ)
        → CanBeSent version p depth n numbers → (revealed : List ℕ)
        → All (λ m. IsTrue (fits version m)) (honest_messages p numbers t revealed) }
{}

/// The honest nodes, level by level, are accepted against the root of the vector, and what they
/// state is its heavy entries.
pub fn honest_lists_are_accepted()
    ensures { (p depth t n : ℕ) (numbers : List ℤ) (challenges : List ℕ)
        → CanBeCounted p depth n numbers → 1 ≤ t → t ≤ n → length challenges ≡ depth
        → verdict p (asking forms.Count depth t n)
        (augroot p numbers challenges).hash challenges
        (honest_lists p (begun p numbers t) challenges)
        ≡ Ok (heavy_of t numbers) }
{}

/// The honest replies about a vector whose heavy entries can be sent are accepted against its root
/// and its sum, and what they state is its heavy entries.
pub fn honest_replies_are_accepted()
    ensures { (version : Version) (p depth t n : ℕ) (numbers : List ℤ) (challenges : List ℕ)
        → CanBeSent version p depth n numbers → 1 ≤ t → t ≤ n
        → length challenges ≡ depth
        → IsAccepted
        (heavy_protocol (heavy_asked version p (augroot p numbers challenges).hash
        (int_sum numbers) depth t))
        challenges (honest_replies version p numbers t challenges)
        (pairs (heavy_of t numbers)) }
{}

/// While honest replies come they have no fault, but that more is to come: neither where the last
/// one is whole, nor where a front of it was taken.
pub fn honest_replies_have_no_fault()
    ensures whole { (version : Version) (p depth t n : ℕ) (numbers : List ℤ)
        (revealed more : List ℕ) → CanBeSent version p depth n numbers → 1 ≤ t → t ≤ n
        → length (revealed ++ more) ≤ depth
        → IsUnfinished
        (heavy_rules version p (asking forms.Count depth t n))
        (revealed ++ more) (honest_replies version p numbers t revealed) }
    ensures front { (version : Version) (p depth t n : ℕ) (numbers : List ℤ)
        → CanBeSent version p depth n numbers → 1 ≤ t → t ≤ n
        → (revealed : List ℕ) (r : ℕ) (more front rest : List ℕ)
        → length (revealed ++ r ∷ more) ≤ depth
        → honest_reply version p numbers t revealed ≡ front ++ rest
        → IsUnfinished
        (heavy_rules version p (asking forms.Count depth t n))
        (revealed ++ r ∷ more)
        (honest_replies version p numbers t revealed ++ front ∷ []) }
{}

/// Below the threshold nothing is asked, and the answer without a reply is right: no entry is
/// heavy.
pub fn nothing_is_asked_below()
    ensures { (version : Version) (p hash depth t n : ℕ) (numbers : List ℤ) (challenges : List ℕ)
        → All (λ a. pos 0 ≤ℤ a) numbers → int_sum numbers ≡ pos n → n < t
        → IsAccepted
        (heavy_protocol (heavy_asked version p hash (int_sum numbers) depth t))
        challenges [] (pairs (heavy_of t numbers)) }
{}

/// What is sent about a legal stream is its answer: where no entry of the side is negative.
pub fn legal_streams_are_answered()
    ensures sent { (version : Version) (depth n : ℕ) (stream : List AnyUpdate) (side : AnySide)
        → IsLegal depth stream → IsStrict depth stream side → 1 ≤ depth
        → depth ≤ deepest version → total stream side ≡ pos n
        → CanBeSent version m61_modulus depth n (vector depth stream side) }
    ensures total { (depth : ℕ) (stream : List AnyUpdate) (side : AnySide)
        → IsLegal depth stream → total stream side ≡ int_sum (vector depth stream side) }
    ensures answer { (depth t : ℕ) (stream : List AnyUpdate) (side : AnySide)
        → answer depth stream (queries.Heavy side t)
        ≡ pairs (heavy_of t (vector depth stream side)) }
{}

/// The honest replies about the entries of at least 4 of (3, 0, 5, 1), in both versions, and where
/// no entry is heavy.
#[tactic(auto, unfolding(crate::specs::Honest::honest_messages, sip_wire::specs::Spelling::spelling, sip_wire::specs::Spelling::in_bytes, sip_wire::specs::Spelling::spelled))]
pub fn honest_replies_by_hand()
    ensures four { honest_replies One m61_modulus four 4 (2 ∷ 10 ∷ [])
        ≡ reply_0 One ∷ reply_1 One ∷ [] }
    ensures wide_four { honest_replies Two m61_modulus four 4 (2 ∷ 10 ∷ [])
        ≡ reply_0 Two ∷ reply_1 Two ∷ [] }
    ensures none { honest_replies One m61_modulus four 10 (2 ∷ 10 ∷ [])
        ≡ level_end ∷ level_end ∷ [] }
{}
