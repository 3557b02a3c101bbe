//! The query of a seat, asked of the helper by the check of its kind.

ghost use Rattle.std.specs.Prelude.{◌≡◌, ◌≢◌, ◌≤◌, ◌*◌, ◌/◌, IsSomeAnd, ℕ, List, [], Ok, Some};
ghost use Rattle.std.specs.Prelude.{IsTrue, length, take, vec_capacity};
ghost use Rattle.sip_field.specs.Elements.{m61_number};
ghost use Rattle.sip_field.specs.Moduli.{m61_modulus};
ghost use Rattle.sip_ports.specs.Ports.{Lasts};
ghost use Rattle.sip_vector.specs.declared.update.Update.{Update as AnyUpdate};
ghost use Rattle.sip_vector.specs.Streams.{IsLegal};
ghost use Rattle.sip_sums.specs.Protocol.{sum_asked, sum_protocol};
ghost use Rattle.sip_wire.specs.Versions.{Speaks};
ghost use Rattle.sip_verifier.specs.AskClause.{AskClause, came_of};
ghost use Rattle.sip_verifier.specs.Asking.{AnswersCount, Asks};
ghost use Rattle.sip_verifier.specs.inside.AskedOver.{AsksOver};
ghost use Rattle.sip_verifier.specs.inside.Judging.{found_in, verdict_of};
ghost use Rattle.sip_verifier.specs.ReplyBound.{ReplyBound};
ghost use Rattle.sip_verifier.specs.Rooms.{most_nodes, most_places};
ghost use Rattle.sip_verifier.specs.inside.Protocols.{IsProtocol};
ghost use Rattle.sip_heavy.specs.Protocol.{count_of, heavy_asked, heavy_protocol};
ghost use Rattle.std.specs.Option.{option_map};
ghost use Rattle.sip_verifier.specs.QuerySeats.{StandsFor, is_seat};
ghost use Rattle.sip_verifier.specs.Snapshots.{span};

use crate::running::Running;
use crate::seat::QuerySeat;
use crate::session::{SessionFault, Verdict};
use sip_field::{Field, M61};
use sip_heavy::{HeavyAsking, HeavySpace};
use sip_mle::interval_at;
use sip_ports::{Link, Sink};
use sip_replies::{AskStop, Said, ask};
use sip_subvec::SubAsking;
use sip_sums::SumAsking;
use sip_tree::AugRoot;
use sip_vector::{CAP, Entry, Query, share_of};
use sip_wire::{Frame, Version};

/// Asks the query of a seat, takes the replies and judges them, as
/// [`Session::ask`](crate::Session::ask) does for a query of a session. After [`Verdict::Pairs`]
/// the pairs of the answer are in `entries`, rising, and after any other answer none are.
///
/// The depth is the number of the seat's challenges. No memory is taken: `entries` has room for the
/// places that the seat says, and `space` for its nodes, and both keep it. The time is linear in
/// the replies and in that room. A seat is asked once: the other end knows all but one of its
/// challenges from then on.
///
/// # Errors
///
/// As of [`Session::ask`](crate::Session::ask). `PeerFault`: a reply is then missing or not whole,
/// and those before it have no fault. `KeepFault`: what came of the last reply was not judged.
/// `OutOfMemory` is the one or the other. Each comes only where that port's own count of them rose.
pub fn ask_seat<L: Link, C: Sink>(
    version: Version,
    seat: &QuerySeat,
    link: &mut L,
    keep: &mut C,
    frame: &mut Frame,
    entries: &mut Vec<Entry>,
    space: &mut Option<HeavySpace>,
) -> Result<Verdict, SessionFault>
    requires seat { IsTrue (is_seat (length seat.now.block) seat.now) }
    requires speaks { Speaks version (length seat.now.block) seat.now.query }
    requires room { most_places seat.now.query seat.now.running ≤ vec_capacity entries.old }
    requires space { IsSomeAnd space.old
        (λ s. most_nodes seat.now.query seat.now.running ≤ s.nodes) }
    ensures asks { (depth : ℕ) (stream : List AnyUpdate) → StandsFor depth stream seat.now
        → Asks version depth stream seat.now.query seat.now.block (L.talk link.old)
        (L.talk link.new) entries.new.items result }
    ensures count { (depth : ℕ) (stream : List AnyUpdate) → StandsFor depth stream seat.now
        → IsLegal depth stream
        → AnswersCount version depth stream seat.now.query seat.now.block (L.talk link.old)
        (L.talk link.new) entries.new.items result }
    ensures bound { (depth : ℕ) (stream : List AnyUpdate) → StandsFor depth stream seat.now
        → ReplyBound version depth stream seat.now.query (L.talk link.old) (L.talk link.new) }
    ensures cleared { result ≢ Ok Verdict.Pairs → entries.new.items ≡ [] }
    ensures room { vec_capacity entries.old ≤ vec_capacity entries.new }
    ensures space { option_map (λ s. s.nodes) space.new ≡ option_map (λ s. s.nodes) space.old }
    ensures keeps { AskClause version
        (span L.talk L.faults L.wants link.old link.new)
        (span C.talk C.faults C.wants keep.old keep.new) (came_of result) }
    ensures link { Lasts L.faults L.wants L.is_sure link.old link.new }
    ensures keep { Lasts C.faults C.wants C.is_sure keep.old keep.new }
{
    let Ok(()) = entries.resize(seat.most_places(), Entry { index: 0, value: 0 }) else {
        unreachable!()
    };
    let asked = ask_by_kind(version, seat, entries, frame, space, link, keep);
    entries.truncate(found_in(entries.len(), &asked));
    verdict_of(asked)
}

/// Asks the query of a seat, takes the replies and checks them. The pairs of an answer are written
/// to the front of `entries`, and what comes of the replies to `keep`.
#[inline(never)]
pub(crate) fn ask_by_kind<L: Link, C: Sink>(
    version: Version,
    seat: &QuerySeat,
    entries: &mut [Entry],
    frame: &mut Frame,
    space: &mut Option<HeavySpace>,
    link: &mut L,
    keep: &mut C,
) -> Result<Said, AskStop>
    requires seat { IsTrue (is_seat (length seat.now.block) seat.now) }
    requires speaks { Speaks version (length seat.now.block) seat.now.query }
    requires room { most_places seat.now.query seat.now.running ≤ length entries.old }
    requires space { IsSomeAnd space.old
        (λ s. most_nodes seat.now.query seat.now.running ≤ s.nodes) }
    ensures space { option_map (λ s. s.nodes) space.new ≡ option_map (λ s. s.nodes) space.old }
    ensures over { AsksOver version seat.now.query seat.now.block
        (λ depth stream. StandsFor depth stream seat.now) entries.old entries.new result
        (span L.talk L.faults L.wants link.old link.new)
        (span C.talk C.faults C.wants keep.old keep.new) }
    ensures link { Lasts L.faults L.wants L.is_sure link.old link.new }
    ensures keep { Lasts C.faults C.wants C.is_sure keep.old keep.new }
{
    match (&seat.query, &seat.running) {
        (Query::Sub { lo, hi }, Running::Root(root)) => {
            let levels = root.seat.depth();
            prove!(levels <= CAP);
            let mut check = SubAsking::start(root, *lo, *hi);
            ask(&mut check, version, &seat.query, entries, frame, link, keep)
        }
        (Query::Range { lo, hi, .. }, Running::Point(point)) => {
            let interval = interval_at(&point.seat, *lo, *hi);
            let product = point.value().times(interval);
            ask_sum(version, seat, product, entries, frame, link, keep)
        }
        (Query::F2 { .. }, Running::Point(point)) => {
            let product = point.value().times(point.value());
            ask_sum(version, seat, product, entries, frame, link, keep)
        }
        (Query::Inner, Running::Points(points)) => {
            let product = points.first.value().times(points.second);
            ask_sum(version, seat, product, entries, frame, link, keep)
        }
        (Query::Heavy { at_least, .. }, Running::AugRoot(root)) => {
            ask_heavy(
                version, seat, root, *at_least, space, entries, frame, link, keep,
            )
        }
        (Query::Share { num, den, .. }, Running::AugRoot(root)) => {
            let at_least = share_of(root.total(), *num, *den);
            ask_heavy(
                version, seat, root, at_least, space, entries, frame, link, keep,
            )
        }
        _ => unreachable!(),
    }
}

// Asks the query of a seat for the entries of at least `at_least` in the vector that has this root.
fn ask_heavy<L: Link, C: Sink>(
    version: Version,
    seat: &QuerySeat,
    root: &AugRoot<M61, CAP>,
    at_least: u64,
    space: &mut Option<HeavySpace>,
    entries: &mut [Entry],
    frame: &mut Frame,
    link: &mut L,
    keep: &mut C,
) -> Result<Said, AskStop>
    requires least { 1 ≤ at_least }
    requires seat { IsTrue (is_seat (length seat.now.block) seat.now) }
    requires speaks { Speaks version (length seat.now.block) seat.now.query }
    requires room { 2 * (count_of root.now.total / at_least) ≤ length entries.old }
    requires space { IsSomeAnd space.old
        (λ s. 2 * (count_of root.now.total / at_least) ≤ s.nodes) }
    ensures space { option_map (λ s. s.nodes) space.new ≡ option_map (λ s. s.nodes) space.old }
    ensures over { AsksOver version seat.now.query root.now.seat
        (λ depth stream. IsProtocol version depth stream seat.now.query root.now.seat
        (heavy_protocol (heavy_asked version m61_modulus root.now.hash root.now.total
        (length root.now.seat) at_least))) entries.old entries.new result
        (span L.talk L.faults L.wants link.old link.new)
        (span C.talk C.faults C.wants keep.old keep.new) }
    ensures link { Lasts L.faults L.wants L.is_sure link.old link.new }
    ensures keep { Lasts C.faults C.wants C.is_sure keep.old keep.new }
{
    let Some(lent) = space.take() else {
        unreachable!()
    };
    let mut check = HeavyAsking::start(root, at_least, lent);
    let asked = ask(&mut check, version, &seat.query, entries, frame, link, keep);
    *space = Some(check.into_space());
    asked
}

// Asks the query of a seat for a sum, where the extensions of the lists that it is over have this
// product.
#[inline(never)]
fn ask_sum<L: Link, C: Sink>(
    version: Version,
    seat: &QuerySeat,
    product: M61,
    entries: &mut [Entry],
    frame: &mut Frame,
    link: &mut L,
    keep: &mut C,
) -> Result<Said, AskStop>
    requires seat { IsTrue (is_seat (length seat.now.block) seat.now) }
    requires speaks { Speaks version (length seat.now.block) seat.now.query }
    ensures over { AsksOver version seat.now.query seat.now.block
        (λ depth stream. IsProtocol version depth stream seat.now.query seat.now.block
        (sum_protocol (sum_asked version m61_modulus (m61_number product))))
        entries.old entries.new result
        (span L.talk L.faults L.wants link.old link.new)
        (span C.talk C.faults C.wants keep.old keep.new) }
    ensures link { Lasts L.faults L.wants L.is_sure link.old link.new }
    ensures keep { Lasts C.faults C.wants C.is_sure keep.old keep.new }
{
    let mut check = SumAsking::start(seat.block(), product);
    ask(&mut check, version, &seat.query, entries, frame, link, keep)
}

/// How many of so many places have pairs of the answer.
pub(crate) fn found_in(places: usize, asked: &Result<Said, AskStop>) -> usize
    ensures { result ≡ found_in places asked.now }
{
    match asked {
        Ok(Said::Pairs(found)) => (*found).min(places),
        _ => 0,
    }
}

/// What a session answers then.
pub(crate) fn verdict_of(asked: Result<Said, AskStop>) -> Result<Verdict, SessionFault>
    ensures { result ≡ verdict_of asked }
{
    match asked {
        Ok(Said::Number(value)) => Ok(Verdict::Number(value)),
        Ok(Said::Pairs(_)) => Ok(Verdict::Pairs),
        Err(AskStop::Rejected { round, reason }) => Ok(Verdict::Rejected { round, reason }),
        Err(AskStop::PeerFault) => Err(SessionFault::PeerFault),
        Err(AskStop::KeepFault) => Err(SessionFault::KeepFault),
        Err(AskStop::OutOfMemory | AskStop::KeepOutOfMemory) => Err(SessionFault::OutOfMemory),
    }
}
