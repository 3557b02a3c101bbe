//! The queries of a panel, each asked of one helper after another.

ghost use Rattle.std.specs.Prelude.{◌≡◌, ◌≢◌, ◌+◌, ◌*◌, ◌-◌, ◌<◌, ◌≤◌, ℕ, List, All, false, length};
ghost use Rattle.std.specs.Prelude.{drop, Err, IfOk, None, Ok, Option, Some};
ghost use Rattle.sip_ports.specs.Ports.{Lasts};
ghost use Rattle.sip_ports.specs.declared.port.TalkEvent.{TalkEvent as AnyEvent};
ghost use Rattle.sip_vector.specs.declared.query.Query.{Query as AnyQuery};
ghost use Rattle.sip_vector.specs.declared.update.Update.{Update as AnyUpdate};
ghost use Rattle.sip_wire.specs.declared.message.Reason.{Reason as AnyReason};
ghost use Rattle.sip_wire.specs.Table.{most_queries};
ghost use Rattle.sip_verifier.specs.Questions.{asking};
ghost use Rattle.sip_verifier.specs.QuerySeats.{StandsFor};
ghost use Rattle.sip_verifier.specs.runs.Askers.{IsFirst};
ghost use Rattle.sip_verifier.specs.Sittings.{asks_left, remaining_of};
ghost use Rattle.sip_duel.specs.Story.{IsHonestTalk};
ghost use Rattle.sip_session.specs.inside.Hearing.{AllTalks};
ghost use Rattle.sip_session.specs.Links.{EachLink, talks_of};
ghost use Rattle.sip_session.specs.inside.Trying.{AsksOn, Leads, Trails, TrailsTo, Tries, turn_at};

use sip_duel::HelperLink;
use sip_ports::{NullSink, Sink};
use sip_verifier::{Asker, Session, Status, Unanswered, on_report, status_of_fault, write_dropped};
use sip_wire::Reason;

/// What came of asking a helper.
#[derive(Clone, Copy, Debug, PartialEq, Eq)]
pub(crate) enum Came {
    /// Its replies were accepted, and the line of their answer was written.
    Answered,
    /// They have this first fault. The helper was dropped, and the line that says so was written.
    Dropped { round: u8, reason: Reason },
}

/// How far a panel has come: so many helpers were dropped, and so many queries answered.
#[derive(Clone, Copy, Debug, PartialEq, Eq)]
pub(crate) struct At {
    pub(crate) gone: usize,
    pub(crate) asked: u8,
}

/// Asks a helper the next query, judges the replies and writes the line of what came of it. A
/// helper whose replies have a fault is closed and dropped before that. Both are numbered from 1.
fn ask_helper<K: Sink>(
    session: &mut Session,
    link: &mut HelperLink,
    helper: u8,
    number: u8,
    report: &mut K,
) -> Result<Came, Status>
    requires left { 0 < length session.old.left }
    requires live { session.old.spent ≡ false }
    ensures tries { (stream : List AnyUpdate) (ask : AnyQuery × List ℕ)
        → All (StandsFor session.old.depth stream) session.old.left
        → IsFirst (remaining_of session.old) ask
        → Tries (asking session.old.version session.old.depth stream) ask helper number
        (Some link.old.kept.talk.items) (Some link.new.kept.talk.items) (K.talk report.old)
        (K.talk report.new) result }
    ensures next { asks_left session.new.left ≡ drop 1 (asks_left session.old.left) }
    ensures keeps { AsksOn session.old session.new (K.faults report.old) (K.faults report.new)
        result }
    ensures dropped { (round : ℕ) (reason : AnyReason) → result ≡ Ok (Came.Dropped round reason)
        → link.new.helper ≡ None }
    ensures goes_on { (query round : ℕ) (reason : AnyReason)
        → result ≢ Err (Status.Rejected query round reason) }
    ensures honest { ⟦<HelperLink as Sink>⟧.is_sure link.old
        → IsHonestTalk link.new.kept.talk.items }
    ensures sure { result ≡ Ok Came.Answered
        → ⟦<HelperLink as Sink>⟧.is_sure link.old
        → ⟦<HelperLink as Sink>⟧.is_sure link.new }
    ensures report { Lasts K.faults K.wants K.is_sure report.old report.new }
{
    match session.ask_next(link, &mut NullSink::new()) {
        Ok(given) => {
            on_report(session.write_line(&given, report))?;
            Ok(Came::Answered)
        }
        Err(Unanswered::Rejected { round, reason }) => {
            link.close_and_drop();
            on_report(write_dropped(report, helper, number, round, reason))?;
            Ok(Came::Dropped { round, reason })
        }
        Err(Unanswered::Fault(fault)) => Err(status_of_fault(fault)),
    }
}

/// Passes over so many seats.
fn skip_seats(session: &mut Session, count: usize)
    requires left { count ≤ length session.old.left }
    ensures next { session.new.left ≡ drop count session.old.left }
    ensures version { session.new.version ≡ session.old.version }
    ensures depth { session.new.depth ≡ session.old.depth }
    ensures spent { session.new.spent ≡ session.old.spent }
{
    for _passed in 0..count {
        session.skip();
    }
}

/// Asks the helper whose turn it is the query whose turn it is, at their seat: those before it are
/// passed over. Of all seats so many are left then that no query has fewer than one for each
/// helper.
///
/// # Errors
///
/// `Rejected` where the last helper was dropped; else how the run ends.
fn ask_at<K: Sink>(
    session: &mut Session,
    links: &mut [HelperLink],
    at: At,
    queries: u8,
    report: &mut K,
) -> Result<At, Status>
    requires gone { at.gone < length links.old }
    requires asked { at.asked < queries }
    requires few { queries * length links.old ≤ most_queries }
    requires left { (queries - at.asked) * length links.old - at.gone ≤ length session.old.left }
    requires live { session.old.spent ≡ false }
    ensures leads { (stream : List AnyUpdate) (asks : List (AnyQuery × List ℕ)) (old : AllTalks)
        (blank : Option (List AnyEvent))
        → All (StandsFor session.old.depth stream) session.old.left
        → asks_left (drop (length session.old.left
        - ((queries - at.asked) * length links.old - at.gone)) session.old.left)
        ≡ drop (at.asked * length links.old + at.gone) asks
        → length old ≡ length links.old
        → TrailsTo session.old.version session.old.depth stream (length links.old) queries asks old
        (talks_of links.old) blank (K.talk report.old)
        (turn_at at.gone at.asked)
        → Leads session.old.version session.old.depth stream (length links.old) queries asks old
        (talks_of links.new) blank (K.talk report.new) result }
    ensures count { length links.new ≡ length links.old }
    ensures next { asks_left session.new.left ≡ drop (length session.old.left
        - ((queries - at.asked) * length links.old - at.gone) + 1) (asks_left session.old.left) }
    ensures keeps { AsksOn session.old session.new (K.faults report.old) (K.faults report.new)
        result }
    ensures nearer { IfOk result (λ to. (to.gone < length links.old) × (to.asked ≤ queries)
        × (to.gone + to.asked ≡ at.gone + at.asked + 1) × (at.asked ≤ to.asked)
        × (at.gone ≤ to.gone)) }
    ensures dropped { IfOk result (λ to. EachLink (λ place l m. place ≡ at.gone
        → at.gone < to.gone → m.helper ≡ None) links.old links.new) }
    ensures out { (query round : ℕ) (reason : AnyReason)
        → result ≡ Err (Status.Rejected query round reason) → (at.gone + 1 ≡ length links.old)
        × EachLink (λ place l m. place ≡ at.gone → m.helper ≡ None) links.old links.new }
    ensures others { EachLink (λ place l m. place ≢ at.gone → m ≡ l) links.old links.new }
    ensures honest { EachLink (λ place l m. place ≡ at.gone
        → ⟦<HelperLink as Sink>⟧.is_sure l
        → IsHonestTalk m.kept.talk.items) links.old links.new }
    ensures sure { IfOk result (λ to. EachLink (λ place l m. to.gone ≤ place
        → ⟦<HelperLink as Sink>⟧.is_sure l
        → ⟦<HelperLink as Sink>⟧.is_sure m) links.old links.new) }
    ensures report { Lasts K.faults K.wants K.is_sure report.old report.new }
{
    let helpers = links.len();
    let due = (queries - at.asked) as usize * helpers - at.gone;
    let early = session.left() - due;
    skip_seats(session, early);
    match ask_helper(
        session,
        &mut links[at.gone],
        at.gone as u8 + 1,
        at.asked + 1,
        report,
    )? {
        Came::Answered => Ok(At {
            gone: at.gone,
            asked: at.asked + 1,
        }),
        Came::Dropped { round, reason } => {
            if at.gone + 1 == helpers {
                return Err(Status::Rejected {
                    query: at.asked + 1,
                    round,
                    reason,
                });
            }
            Ok(At {
                gone: at.gone + 1,
                asked: at.asked,
            })
        }
    }
}

/// Asks all queries in order, each of the helpers that are left, and answers how many were dropped:
/// these are closed, and no longer there.
///
/// # Errors
///
/// `Rejected` where all were dropped, with the place of the last fault; else how the run ends.
pub(crate) fn ask_all<K: Sink>(
    session: &mut Session,
    links: &mut [HelperLink],
    queries: u8,
    report: &mut K,
) -> Result<usize, Status>
    requires some { 0 < length links.old }
    requires few { queries * length links.old ≤ most_queries }
    requires left { length session.old.left ≡ queries * length links.old }
    requires live { session.old.spent ≡ false }
    ensures trails { (stream : List AnyUpdate)
        → All (StandsFor session.old.depth stream) session.old.left
        → Trails session.old.version session.old.depth stream (length links.old) queries
        (asks_left session.old.left) (talks_of links.old)
        (talks_of links.new) (K.talk report.old) (K.talk report.new) result }
    ensures gone { IfOk result (λ gone. gone < length links.old) }
    ensures count { length links.new ≡ length links.old }
    ensures keeps { AsksOn session.old session.new (K.faults report.old) (K.faults report.new)
        result }
    ensures dropped { IfOk result (λ gone. EachLink (λ place l m. place < gone
        → m.helper ≡ None) links.old links.new) }
    ensures out { (query round : ℕ) (reason : AnyReason)
        → result ≡ Err (Status.Rejected query round reason)
        → EachLink (λ _ l m. m.helper ≡ None) links.old links.new }
    ensures honest { EachLink (λ _ l m. ⟦<HelperLink as Sink>⟧.is_sure l
        → IsHonestTalk m.kept.talk.items) links.old links.new }
    ensures sure { IfOk result (λ gone. EachLink (λ place l m. gone ≤ place
        → ⟦<HelperLink as Sink>⟧.is_sure l
        → ⟦<HelperLink as Sink>⟧.is_sure m) links.old links.new) }
    ensures report { Lasts K.faults K.wants K.is_sure report.old report.new }
{
    let mut at = At { gone: 0, asked: 0 };
    while at.asked < queries {
        at = ask_at(session, links, at, queries, report)?;
    }
    Ok(at.gone)
}
