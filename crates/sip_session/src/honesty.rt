//! What honest helpers of a panel come to. These functions do nothing: each contract is a fact that
//! holds, of each call that keeps to what [`panel`](crate::panel) promises.
//!
//! A helper is honest here where the talk of its link is an honest one, as it is where it tells its
//! state and had heard nothing.

ghost use Rattle.std.specs.Prelude.{◌≡◌, ℕ, List, [], ◌∷◌, ◌++◌, codes};
ghost use Rattle.sip_helper.specs.KindRows.{not_strict, out_of_turn, want_of_memory};
ghost use Rattle.sip_vector.specs.declared.query.Query.TheVariants.{F2, Heavy, Inner};
ghost use Rattle.sip_vector.specs.declared.update.Side.TheVariants.{First};
ghost use Rattle.sip_wire.specs.declared.message.Reason.{Reason as AnyReason};
ghost use Rattle.sip_verifier.specs.declared.status.Status.{Status as AnyStatus};
ghost use Rattle.sip_verifier.specs.declared.task.Task.{Task as AnyTask};
ghost use Rattle.sip_verifier.specs.Snapshots.{Counts as AnyCounts};
ghost use Rattle.sip_verifier.specs.Questions.{asking};
ghost use Rattle.sip_verifier.specs.runs.CauseClause.{CauseClause};
ghost use Rattle.sip_session.specs.PanelEnds.{Ends};
ghost use Rattle.sip_session.specs.PanelExamples.{one_below, three_helpers};
ghost use Rattle.sip_session.specs.PanelExchanges.{PanelExchange, without_links};
ghost use Rattle.sip_session.specs.PanelHonesty.{AnswersAreOwn, AreDroppedRightly, IsCarried};
ghost use Rattle.sip_session.specs.PanelHonesty.{IsAttempted, IsRight, MightBeAsked, answer_lines};
ghost use Rattle.sip_session.specs.Panels.{Attempt, inquiry_of_panel};

/// Why an honest helper may be dropped, by hand: for want of memory, whatever is asked, but not for
/// a reply that is cut short nor for a message out of turn; for a negative entry where heavy
/// hitters are asked for, but not where a sum is.
pub fn reasons_by_hand()
    ensures memory { IsRight 1 [] Inner (AnyReason.Refused want_of_memory) }
    ensures cut { ¬ IsRight 1 [] Inner AnyReason.Closed }
    ensures turn { ¬ IsRight 1 [] Inner (AnyReason.Refused out_of_turn) }
    ensures negative { IsRight 1 one_below (Heavy First 1) (AnyReason.Refused not_strict) }
    ensures sum { ¬ IsRight 1 one_below (F2 First) (AnyReason.Refused not_strict) }
{}

/// Of four attempts two have an answer, and so a line of one.
pub fn answers_by_hand()
    ensures { answer_lines three_helpers
        ≡ codes "sub:0:0 none" ++ 10 ∷ codes "sub:0:0 none" ++ 10 ∷ [] }
{}

/// An honest helper is dropped for want of memory, or for a query whose answer has more entries
/// than may be sent, or for heavy hitters of a side with a negative entry; for no other reason.
pub fn honest_helpers_are_dropped_rightly()
    ensures { (helpers : ℕ) (task : AnyTask) (x : PanelExchange) (attempts : List Attempt)
        (status : AnyStatus)
        → IsAttempted helpers task x attempts
        → MightBeAsked helpers task x attempts
        → Ends helpers task x attempts status
        → AreDroppedRightly helpers task x attempts }
{}

/// A panel with an honest helper answers each query, where the seed, the stream and the limits are
/// good and no port fails, unless memory ran out: at this end, or at each honest helper's, which
/// was dropped for it.
pub fn panels_with_an_honest_helper_are_carried()
    ensures { (helpers : ℕ) (task : AnyTask) (x : PanelExchange) (attempts : List Attempt)
        (before now : AnyCounts) (status : AnyStatus)
        → IsAttempted helpers task x attempts
        → Ends helpers task x attempts status
        → CauseClause asking (inquiry_of_panel helpers task x.seed) (without_links x) before now
        status
        → IsCarried helpers task x attempts before now status }
{}

/// Where each helper is honest, and no side that is asked for heavy hitters has a negative entry,
/// the answers are the stream's own; and with `Accepted` their lines are those of all queries.
pub fn honest_panels_give_the_streams_answers()
    ensures { (helpers : ℕ) (task : AnyTask) (x : PanelExchange) (attempts : List Attempt)
        (status : AnyStatus)
        → IsAttempted helpers task x attempts
        → MightBeAsked helpers task x attempts
        → Ends helpers task x attempts status
        → AnswersAreOwn helpers task x attempts status }
{}
