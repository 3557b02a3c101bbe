//! One question, asked of the helper and judged in the manner of its kind.

ghost use Rattle.std.specs.Prelude.{◌≡◌, ◌≤◌, IsSomeAnd, ℕ, List, length, vec_capacity};
ghost use Rattle.std.specs.Option.{option_map};
ghost use Rattle.sip_ports.specs.Ports.{Lasts};
ghost use Rattle.sip_vector.specs.declared.update.Update.{Update as AnyUpdate};
ghost use Rattle.sip_wire.specs.Versions.{deepest};
ghost use Rattle.sip_verifier.specs.AskClause.{AskClause};
ghost use Rattle.sip_verifier.specs.runs.Askers.{Asks};
ghost use Rattle.sip_verifier.specs.Snapshots.{span};
ghost use Rattle.sip_questions.specs.Questions.{asking};
ghost use Rattle.sip_questions.specs.Sittings.{CanAsk, StandsAt, ask_at, nodes_at, places_at};
ghost use Rattle.sip_questions.specs.Sittings.{query_given, question_at, stated};

use crate::asker::QuestionGiven;
use crate::seat::QuestionSeat;
use sip_above::ask_large;
use sip_heavy::HeavySpace;
use sip_lookup::ask_look;
use sip_moments::ask_moment;
use sip_ports::{Link, Sink};
use sip_vector::{Depth, Entry, Query};
use sip_verifier::{SessionFault, Unanswered, Verdict, ask_seat};
use sip_wire::{Frame, Version};

/// What came of a query, where the pairs of an answer are shown beside it.
fn query_given(
    query: Query,
    verdict: Result<Verdict, SessionFault>,
) -> Result<QuestionGiven, Unanswered>
    ensures { result ≡ query_given query verdict }
{
    match verdict {
        Ok(Verdict::Number(value)) => Ok(QuestionGiven::Number { query, value }),
        Ok(Verdict::Pairs) => Ok(QuestionGiven::Pairs { query }),
        Ok(Verdict::Rejected { round, reason }) => Err(Unanswered::Rejected { round, reason }),
        Err(fault) => Err(Unanswered::Fault(fault)),
    }
}

/// Asks the question of a seat, takes the replies and judges them. The pairs of an answer are in
/// `entries` then, rising.
///
/// No memory is taken: `entries` and `space` have room for the places and the nodes that the seat
/// needs, and keep it. The time is linear in the replies and in that room.
///
/// # Errors
///
/// `Rejected` with the first fault of the replies. The others are those of the ports, each only
/// where that port's own count of them rose.
pub fn ask_question<L: Link, C: Sink>(
    version: Version,
    depth: Depth,
    seat: &QuestionSeat,
    link: &mut L,
    keep: &mut C,
    frame: &mut Frame,
    entries: &mut Vec<Entry>,
    space: &mut Option<HeavySpace>,
) -> Result<QuestionGiven, Unanswered>
    requires shallow { depth ≤ deepest version }
    requires can { CanAsk version depth seat.now }
    requires places { places_at seat.now ≤ vec_capacity entries.old }
    requires nodes { IsSomeAnd space.old (λ s. nodes_at seat.now ≤ s.nodes) }
    ensures asks { (stream : List AnyUpdate) → StandsAt depth stream seat.now
        → Asks (asking version depth stream) (ask_at seat.now) (L.talk link.old) (L.talk link.new)
        (λ given answer. stated entries.new.items given ≡ (question_at seat.now, answer)) result }
    ensures room { vec_capacity entries.old ≤ vec_capacity entries.new }
    ensures space { option_map (λ s. s.nodes) space.new ≡ option_map (λ s. s.nodes) space.old }
    ensures keeps { AskClause version
        (span L.talk L.faults L.wants link.old link.new)
        (span C.talk C.faults C.wants keep.old keep.new) result }
    ensures link { Lasts L.faults L.wants L.is_sure link.old link.new }
    ensures keep { Lasts C.faults C.wants C.is_sure keep.old keep.new }
{
    match seat {
        QuestionSeat::Query(seat) => {
            let verdict = ask_seat(version, seat, link, keep, frame, entries, space);
            query_given(seat.query(), verdict)
        }
        QuestionSeat::Lookup(lookup, root) => {
            let lookup = *lookup;
            match ask_look(version, root, depth, lookup, link, keep, frame, entries) {
                Ok(answer) => Ok(QuestionGiven::Lookup { lookup, answer }),
                Err(why) => Err(why),
            }
        }
        QuestionSeat::Moment(moment, point) => {
            let moment = *moment;
            let extension = point.value();
            match ask_moment(version, moment, &point.seat, extension, frame, link, keep) {
                Ok(value) => Ok(QuestionGiven::Moment { moment, value }),
                Err(why) => Err(why),
            }
        }
        QuestionSeat::Large(large, root) => {
            let large = *large;
            match ask_large(version, large, root, link, keep, frame, entries, space) {
                Ok(()) => Ok(QuestionGiven::Large { large }),
                Err(why) => Err(why),
            }
        }
    }
}
