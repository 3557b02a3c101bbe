//! Checking a stored run again: its stream against its transcript.

ghost use Rattle.std.specs.Prelude.{◌≡◌, ◌≤◌, ℕ, List, All, Err, IfOk, IsSome, IsTrue, MatchResult};
ghost use Rattle.std.specs.Prelude.{[], Ok, Some, length, map, false};
ghost use Rattle.std.specs.declared.option.Option.{Option};
ghost use Rattle.sip_field.specs.Elements.{m61_number};
ghost use Rattle.sip_ports.specs.declared.port.TalkEvent.{TalkEvent};
ghost use Rattle.sip_ports.specs.Ports.{Lasts};
ghost use Rattle.sip_vector.specs.declared.update.Update.{Update as AnyUpdate};
ghost use Rattle.sip_vector.specs.Pieces.{cut};
ghost use Rattle.sip_wire.specs.declared.version.Version.{Version as AnyVersion};
ghost use Rattle.sip_wire.specs.Table.{is_element, most_queries};
ghost use Rattle.sip_verifier.specs.Concluding.{Reports};
ghost use Rattle.sip_verifier.specs.Gathering.{legal};
ghost use Rattle.sip_verifier.specs.Negatives.{NegativesClause, heavy_negatives};
ghost use Rattle.sip_verifier.specs.Snapshots.{Counts as AnyCounts, PortState, counts, port};
ghost use Rattle.sip_verifier.specs.Snapshots.{snapshot};
ghost use Rattle.sip_verifier.specs.QuerySeats.{StandsFor};
ghost use Rattle.sip_verifier.specs.Seats.{AreSeats, Seating};
ghost use Rattle.sip_verifier.specs.Statuses.{FaultClause, Stops, stops_asking};
ghost use Rattle.sip_transcript.specs.Auditing.{Audit, AuditClause, Audits, EndsAudit};
ghost use Rattle.sip_transcript.specs.Auditing.{stops_auditing};
ghost use Rattle.sip_transcript.specs.Credits.{StoredNegatives, stored_task};
ghost use Rattle.sip_transcript.specs.Heads.{Ask, Says};
ghost use Rattle.sip_transcript.specs.Replayed.{AreAsked, Begins, EndsBy, IsReplayed, TellsBehind};
ghost use Rattle.sip_transcript.specs.Replayed.{judged};

use crate::frames::next_byte;
use crate::head::{Head, MOST_CHALLENGES, TranscriptReader};
use crate::stopping::{status_of_head, status_of_source};
use crate::{Loan, Origin, TranscriptLink};
use arrayvec::ArrayVec;
use sip_field::{Field, M61};
use sip_ports::{NullSink, Sink, Source};
use sip_stream::Form;
use sip_vector::Negatives;
use sip_verifier::{Port, Seats, Session, Status, Task, conclude_session, follow, open_session};
use sip_wire::Version;
use std::alloc::Global;
use std::marker::Brand;

/// Challenges as elements of the field. What they are made in is off the stack behind the call.
#[inline(never)]
fn elements(challenges: &[u64]) -> ArrayVec<M61, MOST_CHALLENGES>
    requires most { length challenges.now ≤ 768 }
    requires each { All (λ x. IsTrue (is_element x)) challenges.now }
    ensures { map m61_number result.items ≡ challenges.now }
{
    let mut elements = ArrayVec::new();
    for challenge in challenges {
        elements.push(M61::of_number(*challenge));
    }
    elements
}

// Leaves the seats of a task at these challenges in `gathered`. The copies of them that this takes
// are off the stack behind the call.
#[inline(never)]
fn seat(task: &Task, challenges: &[u64], gathered: &mut Result<Seats, Status>)
    requires { (version : AnyVersion) × (asks : List Ask)
        × AreAsked version task.now challenges.now asks }
    ensures { (seats : Seating) × (gathered.new ≡ Ok seats)
        × AreSeats task.now.depth task.now.queries.items (cut task.now.depth challenges.now)
        [] seats }
{
    let elements = elements(challenges);
    *gathered = Ok(Seats::given(task.depth, &task.queries, &elements));
}

/// The session of a head's queries at their challenges, over the stream of `first`, which is read
/// to its end, and which of its sides had a delta below 0. What a run sends of it goes nowhere.
#[inline(never)]
fn begin<A: Source>(
    alloc: Global,
    version: Version,
    task: &Task,
    challenges: &[u64],
    first: &mut A,
    negatives: &mut Negatives,
) -> Result<Box<Session>, Status>
    requires { (asks : List Ask) × AreAsked version task.now challenges.now asks }
    ensures begins { (bytes : List ℕ) → A.left first.old ≡ Some bytes → MatchResult result
        (λ session. Begins version task.now challenges.now bytes (A.left first.new)
        (Ok session.value))
        (λ status. Begins version task.now challenges.now bytes (A.left first.new)
        (Err status)) }
    ensures negatives { (bytes : List ℕ) → A.left first.old ≡ Some bytes → MatchResult result
        (λ _. negatives.new ≡ heavy_negatives task.now.queries.items (legal task.now bytes))
        (λ status. NegativesClause task.now bytes status negatives.new) }
    ensures count { IfOk result
        (λ session. length session.value.left ≡ length task.now.queries.items) }
    ensures live { IfOk result (λ session. session.value.spent ≡ false) }
    ensures fault { (second seconds peer peers report reports keep keeps : ℕ)
        → Stops stops_auditing (counts (A.faults first.old) second peer report keep)
        (counts (A.faults first.new) seconds peers reports keeps) result }
    ensures told { IsSome (A.left first.old) → IsSome (A.left first.new) }
    ensures first { Lasts A.faults A.wants A.is_sure first.old first.new }
{
    // The seats stay here until the session has them.
    let mut gathered = Err(Status::SeedSpent);
    seat(task, challenges, &mut gathered);
    let Ok(seats) = &mut gathered else {
        unreachable!()
    };
    *negatives = Negatives::default();
    // Tables are for speed alone: an audit goes on without those that there is no memory for.
    let _ = seats.keep_tables(alloc);
    let weights = follow(task, seats, first, &mut NullSink::new())?;
    *negatives = seats.heavy_negatives(&weights);
    open_session(alloc, version, &mut gathered)
}

/// Asks the queries of a session of the replies of a source that is lent, and answers how the run
/// ended, how many bytes were heard, and the source.
fn replay<T: Loan, O: Origin, K: Sink>(
    session: &mut Session,
    source: T,
    report: &mut K,
) -> (Result<(), Status>, u64, T)
    requires first { T.left source ≡ O.first }
    requires lent { T.loan source ≡ O.lent }
    requires most { length session.old.left ≤ most_queries }
    requires live { session.old.spent ≡ false }
    ensures same { T.loan result.2 ≡ T.loan source }
    ensures replays { (bytes : List ℕ) → T.left source ≡ Some bytes
        → IsReplayed session.old bytes (T.left result.2) result.1 (K.talk report.old)
        (K.talk report.new) result.0 }
    ensures wrote { (stream : List AnyUpdate)
        → All (StandsFor session.old.depth stream) session.old.left
        → Reports (K.talk report.old) (K.talk report.new) }
    ensures told { IsSome (T.left source) → IsSome (T.left result.2) }
    ensures fault { (first firsts second seconds : ℕ) → Stops stops_asking
        (counts first second (T.faults source) (K.faults report.old) 0)
        (counts firsts seconds (T.faults result.2) (K.faults report.new) 0)
        result.0 }
    ensures source { Lasts T.faults T.wants T.is_sure source result.2 }
    ensures report { Lasts K.faults K.wants K.is_sure report.old report.new }
{
    let mut link: TranscriptLink<T, O> = TranscriptLink::new(source);
    let ended = conclude_session(session, &mut link, report, &mut NullSink::new());
    let taken = link.taken();
    (ended, taken, link.into_source())
}

/// The verdict that the queries came to.
fn judged(ended: Result<(), Status>) -> Result<Status, Status>
    ensures { result ≡ judged ended }
{
    match ended {
        Ok(()) => Ok(Status::Accepted),
        Err(
            Status::Rejected {
                query,
                round,
                reason,
            },
        ) => Ok(Status::Rejected {
            query,
            round,
            reason,
        }),
        Err(Status::PeerFault) => Err(Status::ReadFault { port: Port::Second }),
        Err(status) => Err(status),
    }
}

/// How an audit ends with a verdict, where what is left of the transcript begins at this place.
fn end<B: Source>(verdict: Status, place: Option<u64>, second: &mut B) -> Status
    ensures ends { EndsBy verdict place (B.left second.old) (B.left second.new) result }
    ensures fault { (first firsts peer peers report reports keep keeps : ℕ)
        → ((before now : AnyCounts) → FaultClause before now verdict)
        → FaultClause (counts first (B.faults second.old) peer report keep)
        (counts firsts (B.faults second.new) peers reports keeps) result }
    ensures told { IsSome (B.left second.old) → IsSome (B.left second.new) }
    ensures second { Lasts B.faults B.wants B.is_sure second.old second.new }
{
    match next_byte(second) {
        Ok(None) => verdict,
        Ok(Some(_)) => match place {
            Some(offset) => Status::BadTranscript { offset },
            None => Status::OutOfMemory,
        },
        Err(stop) => status_of_source(stop),
    }
}

/// [`replay`] over a source that comes back with what is left in it.
fn replay_lent<B: Source, K: Sink>(
    session: &mut Session,
    source: &mut B,
    report: &mut K,
) -> (Result<(), Status>, u64)
    requires most { length session.old.left ≤ most_queries }
    requires live { session.old.spent ≡ false }
    ensures replays { (bytes : List ℕ) → B.left source.old ≡ Some bytes
        → IsReplayed session.old bytes (B.left source.new) result.1 (K.talk report.old)
        (K.talk report.new) result.0 }
    ensures wrote { (stream : List AnyUpdate)
        → All (StandsFor session.old.depth stream) session.old.left
        → Reports (K.talk report.old) (K.talk report.new) }
    ensures told { IsSome (B.left source.old) → IsSome (B.left source.new) }
    ensures fault { (first firsts second seconds : ℕ) → Stops stops_asking
        (counts first second (B.faults source.old) (K.faults report.old) 0)
        (counts firsts seconds (B.faults source.new) (K.faults report.new) 0)
        result.0 }
    ensures source { Lasts B.faults B.wants B.is_sure source.old source.new }
    ensures report { Lasts K.faults K.wants K.is_sure report.old report.new }
{
    let (ended, taken, _lent) = replay::<&mut B, Brand, K>(session, source, report);
    (ended, taken)
}

/// All of an audit behind the head.
fn check<A: Source, B: Source, K: Sink>(
    alloc: Global,
    form: Form,
    head: Head,
    first: &mut A,
    second: &mut B,
    report: &mut K,
    negatives: &mut Negatives,
) -> Status
    requires { (asks : List Ask) × Says head asks }
    ensures audits { (asks : List Ask) (a : Audit) (before now : AnyCounts) → Says head asks
        → TellsBehind head.version head.depth asks a (A.left first.old) (A.left first.new)
        (B.left second.old) (B.left second.new) (K.talk report.old) (K.talk report.new)
        → FaultClause before now result → Audits form a before now result }
    ensures negatives { (asks : List Ask) (bytes : List ℕ) → Says head asks
        → A.left first.old ≡ Some bytes
        → NegativesClause (stored_task form head.depth asks) bytes result negatives.new }
    ensures wrote { IsSome (A.left first.old)
        → Reports (K.talk report.old) (K.talk report.new) }
    ensures fault { (peer peers keep keeps : ℕ) → FaultClause
        (counts (A.faults first.old) (B.faults second.old) peer (K.faults report.old) keep)
        (counts (A.faults first.new) (B.faults second.new) peers (K.faults report.new) keeps)
        result }
    ensures listed { EndsAudit result }
    ensures told { IsSome (A.left first.old) → IsSome (A.left first.new) }
    ensures also_told { IsSome (B.left second.old) → IsSome (B.left second.new) }
    ensures first { Lasts A.faults A.wants A.is_sure first.old first.new }
    ensures second { Lasts B.faults B.wants B.is_sure second.old second.new }
    ensures report { Lasts K.faults K.wants K.is_sure report.old report.new }
{
    let Head {
        version,
        depth,
        queries,
        challenges,
        length,
    } = head;
    let task = Task {
        depth,
        form,
        queries,
    };
    let mut session = match begin(alloc, version, &task, &challenges, first, negatives) {
        Ok(session) => session,
        Err(status) => return status,
    };
    let (ended, taken) = replay_lent(&mut *session, second, report);
    match judged(ended) {
        Ok(verdict) => end(verdict, length.checked_add(taken), second),
        Err(status) => status,
    }
}

/// Checks a stored run again: reads the head of its transcript from `second` and its stream from
/// `first`, asks the head's queries of the replies behind the head, at the head's challenges, and
/// writes the lines that a run writes. The memory is that of a session; the time is linear in the
/// stream and in the replies, with what a run takes for each record and query.
///
/// `Accepted` and `Rejected` come only where both were read to their ends. `BadTranscript` comes
/// where a field of the head is not there, and nothing is written then; or where a byte follows
/// those that the verdicts took, behind their lines. `BadStream` and `TooWide` come as they do in a
/// run. `ReadFault` and `WriteFault` come only where the count of faults of that port rose.
///
/// `negatives` gets which sides of the stream had a delta below 0, of those whose large entries the
/// head asks for, as a run tells it.
pub fn audit<A: Source, B: Source, K: Sink>(
    alloc: Global,
    form: Form,
    first: &mut A,
    second: &mut B,
    report: &mut K,
    negatives: &mut Negatives,
) -> Status
    ensures keeps { (peer peers keep keeps : PortState TalkEvent) → AuditClause form
        (snapshot (port A.left A.faults first.old) (port B.left B.faults second.old) peer
        (port K.talk K.faults report.old) keep)
        (snapshot (port A.left A.faults first.new) (port B.left B.faults second.new) peers
        (port K.talk K.faults report.new) keeps)
        result }
    ensures negatives { (bytes stored : List ℕ)
        → A.left first.old ≡ Some bytes → B.left second.old ≡ Some stored
        → StoredNegatives form bytes stored result negatives.new }
    ensures first { Lasts A.faults A.wants A.is_sure first.old first.new }
    ensures second { Lasts B.faults B.wants B.is_sure second.old second.new }
    ensures report { Lasts K.faults K.wants K.is_sure report.old report.new }
{
    match TranscriptReader::head(second) {
        Ok(head) => check(alloc, form, head, first, second, report, negatives),
        Err(fault) => {
            *negatives = Negatives::default();
            status_of_head(fault)
        }
    }
}
