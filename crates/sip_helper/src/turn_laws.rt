//! What replies are owed in a talk that keeps to the turns. These functions do nothing: each
//! contract is a fact that holds.

ghost use Rattle.std.specs.Prelude.{◌≡◌, ◌≢◌, ◌<◌, Bool, ℕ, List, [], IsTrue, length, None, Some};
ghost use Rattle.std.specs.Prelude.{false};
ghost use Rattle.std.specs.List.{flat_map};
ghost use Rattle.sip_vector.specs.declared.query.Query.{Query as AnyQuery};
ghost use Rattle.sip_vector.specs.declared.update.Update.{Update as AnyUpdate};
ghost use Rattle.sip_wire.specs.Spelling.{spelling};
ghost use Rattle.sip_wire.specs.declared.message.Message.TheVariants as messages;
ghost use Rattle.sip_helper.specs.Kinds.{help_row};
ghost use Rattle.sip_helper.specs.Turns.{HelperState as AnyState, OpenQuery as AnyOpen};
ghost use Rattle.sip_helper.specs.Turns.{after_answer, is_refused, owed, owes, step};
ghost use Rattle.sip_helper.specs.Turns.{version_opened};
ghost use Rattle.sip_helper.specs.Streams.{query_heard, stream_heard, vectors_of};

/// A reply that is owed has bytes.
pub fn replies_have_bytes()
    ensures { (s : AnyState) → IsTrue (owes s) → owed s ≢ [] }
{}

/// A query that is open once its reply was given was not refused, and no reply to a challenge is a
/// refusal then.
pub fn challenges_are_not_refused()
    ensures given { (s : AnyState) (o : AnyOpen) → IsTrue (owes s)
        → (after_answer s).open_query ≡ Some o → is_refused s.vectors o ≡ false }
    ensures next { (s : AnyState) (o now : AnyOpen) (refused : Bool) (r : ℕ)
        → s.open_query ≡ Some o → is_refused s.vectors o ≡ false
        → (step s refused (messages.Reveal r)).open_query ≡ Some now
        → is_refused s.vectors now ≡ false }
{}

/// Behind an opening, the updates of a stream in any pieces, and its end, the vectors are those
/// that the stream adds up to. Behind a query that its row does not refuse over these, and fewer
/// challenges than the depth, its row's honest reply is owed.
pub fn honest_replies_are_owed()
    ensures vectors { (number depth : ℕ) (pieces : List (List AnyUpdate))
        → (stream_heard number depth pieces).vectors
        ≡ Some (vectors_of depth (flat_map (λ us. us) pieces)) }
    ensures replies { (number depth : ℕ) (pieces : List (List AnyUpdate)) (query : AnyQuery)
        (revealed : List ℕ) → length revealed < depth
        → (help_row query).refused_by (vectors_of depth (flat_map (λ us. us) pieces)) ≡ None
        → owed (query_heard (stream_heard number depth pieces) query revealed)
        ≡ flat_map (spelling (version_opened number))
        ((help_row query).honest (vectors_of depth (flat_map (λ us. us) pieces)) revealed) }
{}
