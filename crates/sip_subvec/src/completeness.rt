//! Laws: honest replies are accepted, and what they state is the answer. These functions do
//! nothing: each contract is a fact that holds.

ghost use Rattle.std.specs.Prelude.{◌≡◌, ℕ, ◌^◌, ◌≤◌, ◌<◌, ℤ, pos, All, IsTrue, List, [], ◌∷◌};
ghost use Rattle.std.specs.Prelude.{◌++◌, length};
ghost use Rattle.sip_field.specs.Moduli.{m61_modulus};
ghost use Rattle.sip_vector.specs.declared.query.Query.TheVariants as queries;
ghost use Rattle.sip_vector.specs.declared.update.Side.TheVariants.{First};
ghost use Rattle.sip_vector.specs.declared.update.Update.{Update};
ghost use Rattle.sip_vector.specs.Answers.{answer, pairs};
ghost use Rattle.sip_vector.specs.Streams.{vector, IsLegal};
ghost use Rattle.sip_vector.specs.Trees.{root};
ghost use Rattle.sip_vector.specs.Vectors.{nonzero_within};
ghost use Rattle.sip_wire.specs.Spelling.{fits};
ghost use Rattle.sip_wire.specs.Versions.{Speaks};
ghost use Rattle.sip_wire.specs.declared.version.Version.{Version};
ghost use Rattle.sip_wire.specs.declared.version.Version.TheVariants.{One, Two};
ghost use Rattle.sip_replies.specs.Replies.{IsAccepted, IsUnfinished};
ghost use Rattle.sip_vector.specs.Examples.{four};
ghost use Rattle.sip_subvec.specs.Examples.{reply_0, reply_1, both_entries};
ghost use Rattle.sip_subvec.specs.Honest.{begun, learnt, proving, honest_messages, honest_reply};
ghost use Rattle.sip_subvec.specs.Honest.{honest_replies, CanBeShown};
ghost use Rattle.sip_subvec.specs.Protocol.{sub_asked, sub_protocol, sub_rules};
ghost use Rattle.sip_subvec.specs.Replies.{most_entries};

/// A prover that learns the challenges one after another comes to the levels that they lead to.
pub fn provers_go_up()
    ensures begun { (p : ℕ) (numbers : List ℤ) (lo hi : ℕ)
        → proving p numbers lo hi [] ≡ begun p numbers lo hi }
    ensures learnt { (p : ℕ) (numbers : List ℤ) (lo hi : ℕ) (prefix : List ℕ) (r : ℕ)
        → proving p numbers lo hi (prefix ++ r ∷ []) ≡ learnt p (proving p numbers lo hi prefix) r }
{}

/// What can be shown can be sent: each honest message has a spelling in the version.
pub fn honest_messages_have_spellings()
    ensures { (version : Version) (p depth lo hi : ℕ) (numbers : List ℤ)
        → CanBeShown version p depth lo hi numbers → (revealed : List ℕ)
        → All (λ m. IsTrue (fits version m)) (honest_messages p numbers lo hi revealed) }
{}

/// The honest replies about an interval that can be shown are accepted against the root of the
/// vector, and what they state is the entries of the interval that are not 0.
pub fn honest_replies_are_accepted()
    ensures { (version : Version) (p depth lo hi : ℕ) (numbers : List ℤ) (challenges : List ℕ)
        → CanBeShown version p depth lo hi numbers → length challenges ≡ depth
        → IsAccepted
        (sub_protocol (sub_asked version p (root p numbers challenges) lo hi challenges))
        challenges (honest_replies version p numbers lo hi challenges)
        (pairs (nonzero_within lo hi numbers)) }
{}

/// So it is for each legal stream, and what is stated is its answer: where that has at most 65,536
/// entries.
pub fn legal_streams_are_answered()
    ensures shown { (version : Version) (depth lo hi : ℕ) (stream : List Update)
        → IsLegal depth stream → 1 ≤ depth
        → Speaks version depth (queries.Sub lo hi) → lo ≤ hi → hi < 2 ^ depth
        → length (nonzero_within lo hi (vector depth stream First)) ≤ most_entries
        → CanBeShown version m61_modulus depth lo hi (vector depth stream First) }
    ensures answer { (depth lo hi : ℕ) (stream : List Update)
        → answer depth stream (queries.Sub lo hi)
        ≡ pairs (nonzero_within lo hi (vector depth stream First)) }
{}

/// While honest replies come they have no fault, but that more is to come: neither where the last
/// one is whole, nor where a front of it was taken.
pub fn honest_replies_have_no_fault()
    ensures whole { (version : Version) (p depth lo hi : ℕ) (numbers : List ℤ)
        (revealed more : List ℕ) → CanBeShown version p depth lo hi numbers
        → IsUnfinished (sub_rules version lo hi) (revealed ++ more)
        (honest_replies version p numbers lo hi revealed) }
    ensures front { (version : Version) (p depth lo hi : ℕ) (numbers : List ℤ)
        → CanBeShown version p depth lo hi numbers
        → (revealed : List ℕ) (r : ℕ) (more front rest : List ℕ)
        → honest_reply version p numbers lo hi revealed ≡ front ++ rest
        → IsUnfinished (sub_rules version lo hi) (revealed ++ r ∷ more)
        (honest_replies version p numbers lo hi revealed ++ front ∷ []) }
{}

/// The honest replies about the entries 1 to 2 of (3, 0, 5, 1), about four entries that are 0, and
/// about both entries of (3, 5), in both versions where they differ.
#[tactic(auto, unfolding(crate::specs::Honest::honest_messages, sip_wire::specs::Spelling::spelling, sip_wire::specs::Spelling::in_bytes, sip_wire::specs::Spelling::spelled))]
pub fn honest_replies_by_hand()
    ensures four { honest_replies One m61_modulus four 1 2 (2 ∷ 10 ∷ [])
        ≡ reply_0 One ∷ reply_1 ∷ [] }
    ensures wide_four { honest_replies Two m61_modulus four 1 2 (2 ∷ 10 ∷ [])
        ≡ reply_0 Two ∷ reply_1 ∷ [] }
    ensures zeros { honest_replies One m61_modulus (pos 0 ∷ pos 0 ∷ pos 0 ∷ pos 0 ∷ []) 0 3
        (2 ∷ 10 ∷ []) ≡ reply_1 ∷ reply_1 ∷ [] }
    ensures two { honest_replies One m61_modulus (pos 3 ∷ pos 5 ∷ []) 0 1 (2 ∷ [])
        ≡ both_entries One ∷ [] }
    ensures wide_two { honest_replies Two m61_modulus (pos 3 ∷ pos 5 ∷ []) 0 1 (2 ∷ [])
        ≡ both_entries Two ∷ [] }
{}
