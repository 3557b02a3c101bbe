//! A whole run that asks for moments.

ghost use Rattle.std.specs.Prelude.{◌≡◌, ◌≤◌, List, IfOk, MatchResult, Result, length, map};
ghost use Rattle.sip_ports.specs.Ports.{Lasts};
ghost use Rattle.sip_ports.specs.declared.port.TalkEvent.{TalkEvent as AnyEvent};
ghost use Rattle.sip_vector.specs.declared.update.Update.{Update as AnyUpdate};
ghost use Rattle.sip_wire.specs.Table.{most_queries};
ghost use Rattle.sip_verifier.specs.declared.status.Status.{Status as AnyStatus};
ghost use Rattle.sip_verifier.specs.declared.weights.Weights.{Weights as AnyWeights};
ghost use Rattle.sip_verifier.specs.Exchanges.{TakesAtMost};
ghost use Rattle.sip_verifier.specs.GatherClause.{GatherClause};
ghost use Rattle.sip_verifier.specs.Seats.{Seating};
ghost use Rattle.sip_verifier.specs.Snapshots.{PortState, counts, no_port, port, snapshot};
ghost use Rattle.sip_verifier.specs.Weights.{AreWeights};
ghost use Rattle.sip_moments.specs.inside.Seating.{IsSeated, IsUnseated};
ghost use Rattle.sip_moments.specs.Manner.{first_high};
ghost use Rattle.sip_moments.specs.MomentClause.{MomentClause};
ghost use Rattle.sip_moments.specs.Sittings.{square_of};
ghost use Rattle.sip_moments.specs.Tasks.{CanBeDone, squares_of};

use crate::asker::Questions;
use crate::moment::Moment;
use crate::room::is_too_high;
use crate::task::MomentTask;
use arrayvec::ArrayVec;
use sip_ports::{Link, NullSink, Sink, Source};
use sip_vector::{Depth, Query};
use sip_verifier::{Seats, Status, Tables, Task, Weights, conclude_run, gather, status_of};
use sip_wire::{Frame, MOST_QUERIES, Version};
use std::alloc::Global;
use std::mem;

// The number of the first moment that may be too high, counted from 1.
fn first_high(moments: &[Moment], weights: &Weights) -> Option<u8>
    requires most { length moments.now ≤ most_queries }
    ensures { (stream : List AnyUpdate) → AreWeights stream weights.now
        → result ≡ first_high stream moments.now }
{
    for (index, moment) in moments.iter().enumerate() {
        if is_too_high(weights.of(moment.side), moment.degree) {
            return Some(index as u8 + 1);
        }
    }
    None
}

// The task whose seats keep what these moments want of the stream: the extension of each one's
// side, as a second moment wants it.
fn squares(task: &MomentTask) -> Task
    ensures { result ≡ squares_of task.now }
{
    let mut queries = ArrayVec::new();
    for moment in task.moments.iter() {
        queries.push(Query::F2 { side: moment.side });
    }
    Task {
        depth: task.depth,
        form: task.form,
        queries,
    }
}

// The moments of a task.
fn moments_of(task: &MomentTask) -> ArrayVec<Moment, MOST_QUERIES>
    ensures same { result.items ≡ task.now.moments.items }
    ensures few { length result.items ≤ most_queries }
{
    let mut moments = ArrayVec::new();
    for moment in task.moments.iter() {
        moments.push(*moment);
    }
    moments
}

/// The moments of a task over the seats that were gathered, if they were, on the heap. The seats
/// are taken from where they stand: they are large, and an argument would be a second place for
/// them on the stack of the run.
#[inline(never)]
fn seat_questions(
    alloc: Global,
    task: &MomentTask,
    weights: &Weights,
    gathered: &mut Result<Seats, Status>,
) -> Result<Box<Questions>, Status>
    requires can { CanBeDone task.now }
    requires same { IfOk gathered.old
        (λ seats. map (λ s. s.query) seats.seats ≡ map square_of task.now.moments.items) }
    ensures { MatchResult result
        (λ questions. IsSeated task.now weights.now gathered.old questions.value)
        (λ status. IsUnseated task.now weights.now gathered.old status) }
{
    let seats = mem::replace(gathered, Err(Status::SeedSpent))?;
    if let Some(query) = first_high(&task.moments, weights) {
        return Err(Status::TooHigh { query });
    }
    let Ok(frame) = Frame::new(alloc) else {
        return Err(Status::OutOfMemory);
    };
    let version = Version::needed(task.depth, &[]);
    let questions = Questions::new(version, moments_of(task), seats, frame);
    match Box::new(alloc, questions) {
        Ok(questions) => Ok(questions),
        Err(_) => Err(Status::OutOfMemory),
    }
}

/// Drops the questions of a run. What a box has is moved to the stack before it is dropped: this is
/// a call of its own, so that the run has no room for that on its stack.
#[inline(never)]
fn put_away(questions: Box<Questions>) {
    drop(questions);
}

/// Gathers the seats of a task and makes its questions over these. It is a call of its own: the
/// place where the seats are gathered is on the stack no longer than that, and not while the
/// moments are asked.
#[inline(never)]
fn gather_questions<A: Source, B: Source, L: Link>(
    alloc: Global,
    task: &MomentTask,
    first: &mut A,
    second: &mut B,
    peer: &mut L,
) -> Result<Box<Questions>, Status>
    requires { CanBeDone task.now }
    ensures gathers { (gathered : Result Seating AnyStatus) × (weights : AnyWeights)
        × ((report reports : PortState AnyEvent) → GatherClause (squares_of task.now)
        (snapshot (port A.left A.faults first.old) (port B.left B.faults second.old)
        (port L.talk L.faults peer.old) report no_port)
        (snapshot (port A.left A.faults first.new) (port B.left B.faults second.new)
        (port L.talk L.faults peer.new) reports no_port)
        (counts (A.wants first.old) (B.wants second.old) (L.wants peer.old) 0 0)
        (counts (A.wants first.new) (B.wants second.new) (L.wants peer.new) 0 0)
        gathered weights)
        × MatchResult result (λ questions. IsSeated task.now weights gathered questions.value)
        (λ status. IsUnseated task.now weights gathered status) }
    ensures first { Lasts A.faults A.wants A.is_sure first.old first.new }
    ensures second { Lasts B.faults B.wants B.is_sure second.old second.new }
    ensures peer { Lasts L.faults L.wants L.is_sure peer.old peer.new }
{
    // No record of the talk is kept, and nothing is gathered yet.
    let mut keep = NullSink::new();
    let mut gathered = Err(Status::SeedSpent);
    let weights = gather(
        &squares(task),
        first,
        second,
        peer,
        &mut keep,
        &Tables::new(alloc),
        &mut gathered,
    );
    seat_questions(alloc, task, &weights, &mut gathered)
}

/// Asks for moments of a stream: draws the challenges from `second`, reads the stream of `first`
/// and sends it over `peer`, asks each moment, judges the replies and writes a line for each to
/// `report`.
///
/// After a rejection its line is written and nothing more is sent. Nothing is asked, and the status
/// is `TooHigh`, where the weight of a moment's side, to the power of the degree, is above 2^60 -
/// 1: a claim may then have no room for it. The memory is a frame of 8,709 bytes, and for each
/// moment tables of 2 KiB for eight levels; it doesn't grow with the stream. The time is linear in
/// the stream and the replies, with one multiplication for each eight levels, record and moment.
///
/// No transcript is kept.
#[inline(never)]
pub fn moment_stream<A: Source, B: Source, L: Link, K: Sink>(
    alloc: Global,
    task: &MomentTask,
    first: &mut A,
    second: &mut B,
    peer: &mut L,
    report: &mut K,
) -> Status
    requires { CanBeDone task.now }
    ensures keeps { MomentClause task.now
        (snapshot (port A.left A.faults first.old) (port B.left B.faults second.old)
        (port L.talk L.faults peer.old) (port K.talk K.faults report.old) no_port)
        (snapshot (port A.left A.faults first.new) (port B.left B.faults second.new)
        (port L.talk L.faults peer.new) (port K.talk K.faults report.new) no_port)
        result }
    ensures first { Lasts A.faults A.wants A.is_sure first.old first.new }
    ensures seed { TakesAtMost 32 (B.left second.old) (B.left second.new) }
    ensures second { Lasts B.faults B.wants B.is_sure second.old second.new }
    ensures peer { Lasts L.faults L.wants L.is_sure peer.old peer.new }
    ensures report { Lasts K.faults K.wants K.is_sure report.old report.new }
{
    let levels = task.depth.get();
    prove!(levels >= 1 && levels <= Depth::MOST);
    let asked = task.moments.len();
    prove!(asked <= MOST_QUERIES);
    let mut questions = match gather_questions(alloc, task, first, second, peer) {
        Ok(questions) => questions,
        Err(status) => return status,
    };
    // No record of the talk is kept.
    let status = status_of(conclude_run(&mut *questions, peer, report, &mut NullSink::new()));
    put_away(questions);
    status
}
