//! Laws: honest replies are accepted, and what they state is the sum. These functions do nothing:
//! each contract is a fact that holds.

ghost use Rattle.std.specs.Prelude.{◌≡◌, ℕ, ◌<◌, ◌≤◌, ℤ, All, IsTrue, Some, List, [], ◌∷◌, ◌++◌};
ghost use Rattle.std.specs.Prelude.{length};
ghost use Rattle.sip_field.specs.Moduli.{m61_modulus};
ghost use Rattle.sip_vector.specs.declared.query.Query.{Query as AnyQuery};
ghost use Rattle.sip_vector.specs.declared.update.Update.{Update as AnyUpdate};
ghost use Rattle.sip_vector.specs.Answers.{number};
ghost use Rattle.sip_vector.specs.Streams.{IsLegal};
ghost use Rattle.sip_wire.specs.Spelling.{fits};
ghost use Rattle.sip_wire.specs.declared.version.Version.{Version};
ghost use Rattle.sip_wire.specs.declared.version.Version.TheVariants.{One, Two};
ghost use Rattle.sip_replies.specs.Replies.{IsAccepted, IsUnfinished};
ghost use Rattle.sip_vector.specs.Examples.{four};
ghost use Rattle.sip_sums.specs.AcceptsSum.{product_at, total};
ghost use Rattle.sip_sums.specs.Examples.{reply_0, reply_1};
ghost use Rattle.sip_sums.specs.Honest.{honest_messages, honest_reply, honest_replies, CanBeSummed};
ghost use Rattle.sip_sums.specs.Protocol.{sum_asked, sum_protocol, sum_rules};
ghost use Rattle.sip_sums.specs.Questions.{Lists, lists_of};

/// What can be summed can be sent: each honest message has a spelling in both versions.
pub fn honest_messages_have_spellings()
    ensures { (version : Version) (p depth : ℕ) (first second : List ℤ)
        → CanBeSummed p depth first second → (revealed : List ℕ)
        → All (λ m. IsTrue (fits version m)) (honest_messages p depth first second revealed) }
{}

/// The honest replies about lists that can be summed are accepted against the product of their
/// extensions, and what they state is the sum.
pub fn honest_replies_are_accepted()
    ensures { (version : Version) (p depth : ℕ) (first second : List ℤ) (challenges : List ℕ)
        → CanBeSummed p depth first second → length challenges ≡ depth
        → All (λ r. r < p) challenges
        → IsAccepted
        (sum_protocol (sum_asked version p (product_at p first second challenges)))
        challenges (honest_replies version p depth first second challenges)
        (number (total first second)) }
{}

/// The lists of each query for a sum over a legal stream can be summed.
pub fn legal_streams_can_be_summed()
    ensures { (depth : ℕ) (stream : List AnyUpdate) (q : AnyQuery) (l : Lists)
        → IsLegal depth stream → 1 ≤ depth → lists_of depth stream q ≡ Some l
        → CanBeSummed m61_modulus depth l.first l.second }
{}

/// While honest replies come they have no fault, but that more is to come: neither where the last
/// one is whole, nor where a front of it was taken.
pub fn honest_replies_have_no_fault()
    ensures whole { (version : Version) (p depth : ℕ) (first second : List ℤ)
        (revealed more : List ℕ) → CanBeSummed p depth first second
        → length (revealed ++ more) ≤ depth → All (λ r. r < p) (revealed ++ more)
        → IsUnfinished (sum_rules version p) (revealed ++ more)
        (honest_replies version p depth first second revealed) }
    ensures front { (version : Version) (p depth : ℕ) (first second : List ℤ)
        → CanBeSummed p depth first second
        → (revealed : List ℕ) (r : ℕ) (more front rest : List ℕ)
        → length (revealed ++ r ∷ more) ≤ depth → All (λ x. x < p) (revealed ++ r ∷ more)
        → honest_reply version p depth first second revealed ≡ front ++ rest
        → IsUnfinished (sum_rules version p) (revealed ++ r ∷ more)
        (honest_replies version p depth first second revealed ++ front ∷ []) }
{}

/// The honest replies to `f2:0` of (3, 0, 5, 1), in both versions.
#[tactic(auto, unfolding(crate::specs::Honest::honest_messages, sip_wire::specs::Spelling::spelling, sip_wire::specs::Spelling::in_bytes, sip_wire::specs::Spelling::spelled))]
pub fn honest_replies_by_hand()
    ensures first { honest_replies One m61_modulus 2 four four (2 ∷ 10 ∷ [])
        ≡ reply_0 ∷ reply_1 ∷ [] }
    ensures wide { honest_replies Two m61_modulus 2 four four (2 ∷ 10 ∷ [])
        ≡ reply_0 ∷ reply_1 ∷ [] }
{}
