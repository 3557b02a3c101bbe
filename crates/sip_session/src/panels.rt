//! A run over several helpers.

ghost use Rattle.std.specs.Prelude.{◌≡◌, ◌≢◌, ◌*◌, ◌<◌, ◌≤◌, ℕ, List, [], All, length, map, false};
ghost use Rattle.std.specs.Prelude.{None, Some, Ok, Err, IfErr, IfOk, IsSome, MatchResult};
ghost use Rattle.sip_ports.specs.Ports.{Lasts};
ghost use Rattle.sip_wire.specs.Table.{most_queries};
ghost use Rattle.sip_duel.specs.Story.{IsHonestTalk};
ghost use Rattle.sip_verifier.specs.Concluding.{status_of};
ghost use Rattle.sip_verifier.specs.Exchanges.{TakesAtMost};
ghost use Rattle.sip_verifier.specs.Gathering.{legal};
ghost use Rattle.sip_verifier.specs.inside.Passing.{left};
ghost use Rattle.sip_verifier.specs.Negatives.{NegativesClause, gathered_negatives};
ghost use Rattle.sip_verifier.specs.Negatives.{heavy_negatives};
ghost use Rattle.sip_verifier.specs.Snapshots.{counts};
ghost use Rattle.sip_verifier.specs.Statuses.{FaultClause, IsListed, Stops, stops_gathering};
ghost use Rattle.sip_verifier.specs.Tasks.{CanBeDone};
ghost use Rattle.sip_session.specs.inside.Beginning.{Begins, GathersAll, by_query, task_of_seats};
ghost use Rattle.sip_session.specs.Links.{EachLink, talks_of};
ghost use Rattle.sip_session.specs.PanelClause.{PanelRunClause};
ghost use Rattle.sip_session.specs.PanelExchanges.{panel_snapshot};
ghost use Rattle.sip_session.specs.Panels.{seat_queries};

use crate::farewells::let_all_go;
use crate::hearing::{follow_all, say_bye};
use crate::panel_asking::ask_all;
use arrayvec::ArrayVec;
use sip_duel::HelperLink;
use sip_ports::{Sink, Source};
use sip_vector::{Depth, Negatives};
use sip_verifier::{Port, Seats, Session, Status, Task, draw, on_link, open_session};
use std::alloc::Global;

/// The task whose queries are those of the seats: each query once for each helper.
fn seats_task(task: &Task, helpers: usize) -> Task
    requires { helpers * length task.now.queries.items ≤ most_queries }
    ensures { result ≡ task_of_seats helpers task.now }
{
    let mut queries = ArrayVec::new();
    for query in task.queries.iter() {
        for _seat in 0..helpers {
            queries.push(*query);
        }
    }
    Task {
        depth: task.depth,
        form: task.form,
        queries,
    }
}

/// The same end, where it names a seat by the query of that seat. Both are counted from 1.
fn by_query(status: Status, helpers: u8) -> Status
    requires some { 0 < helpers }
    requires counted { (seat : ℕ) → status ≡ Status.TooWide seat → 0 < seat }
    ensures { result ≡ by_query helpers status }
{
    match status {
        Status::TooWide { query } => Status::TooWide {
            query: (query - 1) / helpers + 1,
        },
        other => other,
    }
}

/// Draws the challenges of all seats, which keep their tables, and sends the stream to each helper.
/// The seats are left in `gathered`, as they are where the steps stop, and which sides of the
/// stream had a delta below 0 in `negatives`.
fn gather_all<A: Source, B: Source>(
    alloc: Global,
    wide: &Task,
    first: &mut A,
    second: &mut B,
    links: &mut [HelperLink],
    gathered: &mut Result<Seats, Status>,
    negatives: &mut Negatives,
) -> Result<(), Status>
    requires { CanBeDone wide.now }
    ensures gathers { (bytes seed : List ℕ) → A.left first.old ≡ Some bytes
        → B.left second.old ≡ Some seed
        → GathersAll wide.now bytes seed (A.left first.new)
        (talks_of links.old) (talks_of links.new)
        (left gathered.new result) }
    ensures negatives { 0 < length links.old → (bytes seed : List ℕ)
        → A.left first.old ≡ Some bytes → B.left second.old ≡ Some seed
        → negatives.new ≡ gathered_negatives wide.now bytes (left gathered.new result) }
    ensures count { length links.new ≡ length links.old }
    ensures sure { EachLink (λ _ l m. ⟦<HelperLink as Sink>⟧.is_sure l
        → ⟦<HelperLink as Sink>⟧.is_sure m) links.old links.new }
    ensures seated { IfOk (left gathered.new result) (λ seats. (seats.depth ≡ wide.now.depth)
        × (map (λ s. s.query) seats.seats ≡ wide.now.queries.items)) }
    ensures fault { Stops stops_gathering
        (counts (A.faults first.old) (B.faults second.old) 0 0 0)
        (counts (A.faults first.new) (B.faults second.new) 0 0 0) (left gathered.new result) }
    ensures told { IsSome (A.left first.old) → IsSome (A.left first.new) }
    ensures first { Lasts A.faults A.wants A.is_sure first.old first.new }
    ensures seed { TakesAtMost 32 (B.left second.old) (B.left second.new) }
    ensures second { Lasts B.faults B.wants B.is_sure second.old second.new }
{
    *negatives = Negatives::default();
    draw(wide, second, gathered)?;
    if let Ok(seats) = gathered {
        // Tables are for speed alone: a panel goes on without those that there is no memory for.
        let _ = seats.keep_tables(alloc);
        let weights = follow_all(wide, seats, first, links)?;
        *negatives = seats.heavy_negatives(&weights);
    }
    Ok(())
}

/// The session of all seats, once the stream was sent to each helper. It is a call of its own: the
/// place of the seats is on the stack no longer than that.
#[inline(never)]
fn begin<A: Source, B: Source>(
    alloc: Global,
    wide: &Task,
    first: &mut A,
    second: &mut B,
    links: &mut [HelperLink],
    negatives: &mut Negatives,
) -> Result<Box<Session>, Status>
    requires done { CanBeDone wide.now }
    requires some { 0 < length links.old }
    requires few { length links.old ≤ most_queries }
    ensures begins { (bytes seed : List ℕ) → A.left first.old ≡ Some bytes
        → B.left second.old ≡ Some seed
        → MatchResult result
        (λ session. Begins wide.now bytes seed (A.left first.new)
        (talks_of links.old) (talks_of links.new)
        (length links.old) (Ok session.value))
        (λ status. Begins wide.now bytes seed (A.left first.new)
        (talks_of links.old) (talks_of links.new)
        (length links.old) (Err status)) }
    ensures negatives { (bytes seed : List ℕ)
        → A.left first.old ≡ Some bytes → B.left second.old ≡ Some seed
        → MatchResult result
        (λ _. negatives.new ≡ heavy_negatives wide.now.queries.items (legal wide.now bytes))
        (λ status. NegativesClause wide.now bytes status negatives.new) }
    ensures left { IfOk result (λ session.
        length session.value.left ≡ length wide.now.queries.items) }
    ensures live { IfOk result (λ session. session.value.spent ≡ false) }
    ensures count { length links.new ≡ length links.old }
    ensures sure { EachLink (λ _ l m. ⟦<HelperLink as Sink>⟧.is_sure l
        → ⟦<HelperLink as Sink>⟧.is_sure m) links.old links.new }
    ensures fault { IfErr result (λ status. IsListed status × FaultClause
        (counts (A.faults first.old) (B.faults second.old) 0 0 0)
        (counts (A.faults first.new) (B.faults second.new) 0 0 0) status) }
    ensures told { IsSome (A.left first.old) → IsSome (A.left first.new) }
    ensures first { Lasts A.faults A.wants A.is_sure first.old first.new }
    ensures seed { TakesAtMost 32 (B.left second.old) (B.left second.new) }
    ensures second { Lasts B.faults B.wants B.is_sure second.old second.new }
{
    let levels = wide.depth.get();
    prove!(levels <= Depth::MOST);
    let mut gathered = Err(Status::SeedSpent);
    gather_all(alloc, wide, first, second, links, &mut gathered, negatives)?;
    match open_session(alloc, wide.version(), &mut gathered) {
        Ok(session) => Ok(session),
        Err(status) => Err(by_query(status, links.len() as u8)),
    }
}

/// All that a panel does up to its first stop. Some helpers may be left then.
fn panel_steps<A: Source, B: Source, K: Sink>(
    alloc: Global,
    task: &Task,
    first: &mut A,
    second: &mut B,
    links: &mut [HelperLink],
    report: &mut K,
    negatives: &mut Negatives,
) -> Result<(), Status>
    requires done { CanBeDone task.now }
    requires some { 0 < length links.old }
    requires few { length links.old * length task.now.queries.items ≤ most_queries }
    requires new { All (λ l. l.kept.talk.items ≡ []) links.old }
    ensures keeps { PanelRunClause (length links.old) task.now
        (panel_snapshot (A.left first.old) (A.faults first.old) (B.left second.old)
        (B.faults second.old) (talks_of links.old) (K.talk report.old)
        (K.faults report.old))
        (panel_snapshot (A.left first.new) (A.faults first.new) (B.left second.new)
        (B.faults second.new) (talks_of links.new) (K.talk report.new)
        (K.faults report.new))
        (status_of result) }
    ensures negatives { (bytes seed : List ℕ)
        → A.left first.old ≡ Some bytes → B.left second.old ≡ Some seed
        → NegativesClause task.now bytes (status_of result) negatives.new }
    ensures count { length links.new ≡ length links.old }
    ensures honest { EachLink (λ _ l m. ⟦<HelperLink as Sink>⟧.is_sure l
        → IsHonestTalk m.kept.talk.items) links.old links.new }
    ensures first { Lasts A.faults A.wants A.is_sure first.old first.new }
    ensures seed { TakesAtMost 32 (B.left second.old) (B.left second.new) }
    ensures second { Lasts B.faults B.wants B.is_sure second.old second.new }
    ensures report { Lasts K.faults K.wants K.is_sure report.old report.new }
{
    let levels = task.depth.get();
    prove!(levels >= 1 && levels <= Depth::MOST);
    let wide = seats_task(task, links.len());
    let mut session = begin(alloc, &wide, first, second, links, negatives)?;
    let queries = task.queries.len() as u8;
    let gone = ask_all(&mut *session, links, queries, report)?;
    on_link(say_bye(links, gone, task.version()))
}

/// The status that steps end with.
fn status_of(steps: Result<(), Status>) -> Status
    ensures { result ≡ status_of steps }
{
    match steps {
        Ok(()) => Status::Accepted,
        Err(status) => status,
    }
}

/// Does a task over links to several helpers, which hear the same stream: draws a block of
/// challenges for each query and helper from `second`, reads the stream of `first` and sends it to
/// each, and asks each query of one helper after another until the replies of one are accepted.
///
/// The line of its answer is then written to `report`. A helper whose replies have a fault is
/// closed and dropped at once, and a line says so; it is never asked again. At the end each helper
/// that is left hears a farewell. At every exit each is closed and dropped; the talks stay on the
/// links.
///
/// The link to a helper that keeps to its turns tells an honest talk. Such a helper is dropped only
/// for want of memory, for its limits or for a negative entry; one is enough for an answer to each
/// query, unless memory runs out; and where all are such, the answers are the stream's own.
///
/// The answers are those of a run over one helper, but for these: `Rejected` where every helper was
/// dropped, with the place of the last fault, whose line was written before; no fault of the peer,
/// since the links count none; and no fault of a record of the talk, since none is kept. `TooWide`
/// names the query. The memory is that of a run with a query for each seat; the time is that of a
/// run for each helper.
///
/// `negatives` gets which sides of the stream had a delta below 0, of those whose large entries are
/// asked for, as a run tells it.
pub fn panel<A: Source, B: Source, K: Sink>(
    alloc: Global,
    task: &Task,
    first: &mut A,
    second: &mut B,
    links: &mut Vec<HelperLink>,
    report: &mut K,
    negatives: &mut Negatives,
) -> Status
    requires done { CanBeDone task.now }
    requires some { 0 < length links.old.items }
    requires few { length links.old.items * length task.now.queries.items ≤ most_queries }
    requires new { All (λ l. l.kept.talk.items ≡ []) links.old.items }
    ensures keeps { PanelRunClause (length links.old.items) task.now
        (panel_snapshot (A.left first.old) (A.faults first.old) (B.left second.old)
        (B.faults second.old) (talks_of links.old.items) (K.talk report.old)
        (K.faults report.old))
        (panel_snapshot (A.left first.new) (A.faults first.new) (B.left second.new)
        (B.faults second.new) (talks_of links.new.items) (K.talk report.new)
        (K.faults report.new))
        result }
    ensures negatives { (bytes seed : List ℕ)
        → A.left first.old ≡ Some bytes → B.left second.old ≡ Some seed
        → NegativesClause task.now bytes result negatives.new }
    ensures peer { result ≢ Status.PeerFault }
    ensures keep { result ≢ Status.WriteFault Port.Keep }
    ensures honest { EachLink (λ _ l m. ⟦<HelperLink as Sink>⟧.is_sure l
        → IsHonestTalk m.kept.talk.items) links.old.items links.new.items }
    ensures gone { All (λ link. link.helper ≡ None) links.new.items }
    ensures count { length links.new.items ≡ length links.old.items }
    ensures first { Lasts A.faults A.wants A.is_sure first.old first.new }
    ensures seed { TakesAtMost 32 (B.left second.old) (B.left second.new) }
    ensures second { Lasts B.faults B.wants B.is_sure second.old second.new }
    ensures report { Lasts K.faults K.wants K.is_sure report.old report.new }
{
    let steps = panel_steps(
        alloc,
        task,
        first,
        second,
        links.as_mut_slice(),
        report,
        negatives,
    );
    let_all_go(links.as_mut_slice());
    status_of(steps)
}
