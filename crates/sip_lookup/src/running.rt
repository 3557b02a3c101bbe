//! A whole run of a verifier of lookups.

ghost use Rattle.std.specs.Prelude.{◌≡◌, length, IfOk, IsTrue, MatchResult, Result};
ghost use Rattle.std.specs.List.{list_all};
ghost use Rattle.sip_ports.specs.Ports.{Lasts};
ghost use Rattle.sip_ports.specs.declared.port.TalkEvent.{TalkEvent as AnyEvent};
ghost use Rattle.sip_verifier.specs.declared.status.Status.{Status as AnyStatus};
ghost use Rattle.sip_verifier.specs.declared.task.Task.{Task as AnyTask};
ghost use Rattle.sip_verifier.specs.declared.weights.Weights.{Weights as AnyWeights};
ghost use Rattle.sip_verifier.specs.Exchanges.{TakesAtMost};
ghost use Rattle.sip_verifier.specs.GatherClause.{GatherClause};
ghost use Rattle.sip_verifier.specs.Snapshots.{PortState, counts, no_port, port, snapshot};
ghost use Rattle.sip_verifier.specs.SeatNumbers.{has_root};
ghost use Rattle.sip_verifier.specs.Seats.{Seating};
ghost use Rattle.sip_lookup.specs.inside.Seating.{IsRooted, IsSeated, IsUnseated};
ghost use Rattle.sip_lookup.specs.Promises.{LookClause};
ghost use Rattle.sip_lookup.specs.Tasks.{CanLookUp};

use crate::asker::Looker;
use crate::task::LookTask;
use sip_ports::{Link, NullSink, Sink, Source};
use sip_subvec::MOST_ENTRIES;
use sip_vector::Depth;
use sip_verifier::{Seats, Status, Tables, conclude_run, gather, status_of};
use sip_wire::Frame;
use std::alloc::Global;
use std::mem;

/// The lookups over the seats that were gathered, if they were, on the heap. The seats are taken
/// from where they stand: they are large, and an argument would be a second place for them on the
/// stack of the run.
#[inline(never)]
fn seat_lookups(
    alloc: Global,
    task: &LookTask,
    gathered: &mut Result<Seats, Status>,
) -> Result<Box<Looker>, Status>
    requires can { CanLookUp task.now }
    requires levels { IfOk gathered.old (λ seats. seats.depth ≡ task.now.depth) }
    requires each { IfOk gathered.old
        (λ seats. length seats.seats ≡ length task.now.lookups.items) }
    requires rooted { IfOk gathered.old
        (λ seats. IsTrue (list_all (λ s. has_root s.query) seats.seats)) }
    ensures { MatchResult result (λ looker. IsSeated task.now gathered.old looker.value)
        (λ status. IsUnseated gathered.old status) }
{
    if let Err(status) = gathered {
        return Err(*status);
    }
    // Made first: the seats that are moved below leave less of the stack for it.
    let Ok(frame) = Frame::new(alloc) else {
        return Err(Status::OutOfMemory);
    };
    let Ok(entries) = Vec::with_capacity(alloc, MOST_ENTRIES as usize) else {
        return Err(Status::OutOfMemory);
    };
    match mem::replace(gathered, Err(Status::SeedSpent)) {
        Ok(seats) => match Box::new(alloc, Looker::new(task, seats, frame, entries)) {
            Ok(looker) => Ok(looker),
            Err(_) => Err(Status::OutOfMemory),
        },
        Err(status) => Err(status),
    }
}

/// Drops the lookups of a run. What a box has is moved to the stack before it is dropped: this is a
/// call of its own, so that the run has no room for that on its stack.
#[inline(never)]
fn put_away(looker: Box<Looker>) {
    drop(looker);
}

/// Gathers a root for each lookup of a task, and makes the lookups over these. It is a call of its
/// own: the place where the seats are gathered is on the stack no longer than that, and not while
/// the lookups are asked.
#[inline(never)]
fn gather_lookups<A: Source, B: Source, L: Link>(
    alloc: Global,
    task: &LookTask,
    first: &mut A,
    second: &mut B,
    peer: &mut L,
) -> Result<Box<Looker>, Status>
    requires { CanLookUp task.now }
    ensures gathers { (over : AnyTask) × IsRooted task.now over
        × (gathered : Result Seating AnyStatus) × (weights : AnyWeights)
        × ((report reports : PortState AnyEvent) → GatherClause over
        (snapshot (port A.left A.faults first.old) (port B.left B.faults second.old)
        (port L.talk L.faults peer.old) report no_port)
        (snapshot (port A.left A.faults first.new) (port B.left B.faults second.new)
        (port L.talk L.faults peer.new) reports no_port)
        (counts (A.wants first.old) (B.wants second.old) (L.wants peer.old) 0 0)
        (counts (A.wants first.new) (B.wants second.new) (L.wants peer.new) 0 0)
        gathered weights)
        × MatchResult result (λ looker. IsSeated task.now gathered looker.value)
        (λ status. IsUnseated gathered status) }
    ensures first { Lasts A.faults A.wants A.is_sure first.old first.new }
    ensures second { Lasts B.faults B.wants B.is_sure second.old second.new }
    ensures peer { Lasts L.faults L.wants L.is_sure peer.old peer.new }
{
    // Nothing is gathered yet. What is stays here until the lookups have it.
    let mut gathered = Err(Status::SeedSpent);
    // A run of lookups keeps no record of its talk.
    gather(
        &task.rooted(),
        first,
        second,
        peer,
        &mut NullSink::new(),
        &Tables::new(alloc),
        &mut gathered,
    );
    seat_lookups(alloc, task, &mut gathered)
}

/// Does a task: draws the challenges from `second`, reads the stream of `first` and sends it over
/// `peer`, asks each lookup, judges the replies and writes a line for each to `report`.
///
/// After a rejection its line is written and nothing more is sent. The memory is a frame of 8,709
/// bytes and room for 65,536 entries of 16 bytes, taken before the first Ask, and for each lookup
/// tables of 2 KiB for eight levels: it does not grow with the stream. The time is linear in the
/// stream and the replies, with one multiplication for each eight levels, record and lookup. No
/// record of the talk is kept.
#[inline(never)]
pub fn look_stream<A: Source, B: Source, L: Link, K: Sink>(
    alloc: Global,
    task: &LookTask,
    first: &mut A,
    second: &mut B,
    peer: &mut L,
    report: &mut K,
) -> Status
    requires { CanLookUp task.now }
    ensures keeps { LookClause task.now
        (snapshot (port A.left A.faults first.old) (port B.left B.faults second.old)
        (port L.talk L.faults peer.old) (port K.talk K.faults report.old) no_port)
        (snapshot (port A.left A.faults first.new) (port B.left B.faults second.new)
        (port L.talk L.faults peer.new) (port K.talk K.faults report.new) no_port)
        result }
    ensures seed { TakesAtMost 32 (B.left second.old) (B.left second.new) }
    ensures first { Lasts A.faults A.wants A.is_sure first.old first.new }
    ensures second { Lasts B.faults B.wants B.is_sure second.old second.new }
    ensures peer { Lasts L.faults L.wants L.is_sure peer.old peer.new }
    ensures report { Lasts K.faults K.wants K.is_sure report.old report.new }
{
    let levels = task.depth.get();
    prove!(levels >= 1 && levels <= Depth::MOST);
    let mut looker = match gather_lookups(alloc, task, first, second, peer) {
        Ok(looker) => looker,
        Err(status) => return status,
    };
    let status = status_of(conclude_run(&mut *looker, peer, report, &mut NullSink::new()));
    put_away(looker);
    status
}
