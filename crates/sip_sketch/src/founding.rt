//! Begins the sketch of a desk.

ghost use Rattle.std.specs.Prelude.{◌≡◌, ◌≢◌, ◌≤◌, ◌<◌, ◌*◌, [], length, None, IfErr, IfOk, OnOk};
ghost use Rattle.std.specs.Prelude.{IsErrOf, IsTrue};
ghost use Rattle.sip_ports.specs.Desk.{Loads};
ghost use Rattle.sip_ports.specs.Ports.{GoesOn, Lasts};
ghost use Rattle.sip_verifier.specs.Draws.{challenges_of};
ghost use Rattle.sip_verifier.specs.Exchanges.{TakesAtMost};
ghost use Rattle.sip_sketch.specs.Beginnings.{Begins, IsSeedOf, is_unread};
ghost use Rattle.sip_sketch.specs.Risen.{Counts as AnyCounts, HasRisen, counts};
ghost use Rattle.sip_sketch.specs.Sketches.{SketchValues, most_seats, spelled_file};
ghost use Rattle.sip_sketch.specs.Standing.{IsBegun};
ghost use Rattle.sip_sketch.specs.inside.Causes.{with_second, with_sketch};
ghost use Rattle.sip_sketch.specs.inside.Founding.{HasNoSeed, IsNotMissing};

use crate::loading::load_file;
use crate::storing::store;
use crate::{BeginFault, SeatKind, Sketch, SketchPort, SketchStatus};
use sip_ports::{Desk, PortStop, Source, read_exact_into};
use sip_vector::Depth;
use std::alloc::Global;

// Loads the sketch, whose file has to be missing.
fn find_none<D: Desk>(alloc: Global, desk: &mut D) -> Result<(), SketchStatus>
    ensures none { OnOk result (Loads (D.start desk.old) (D.talk desk.old) None) }
    ensures why { IfErr result (IsNotMissing (D.start desk.old) (D.talk desk.old)) }
    ensures cause { (before now : AnyCounts) → IfErr result
        (HasRisen (with_sketch before (D.faults desk.old)) (with_sketch now (D.faults desk.new))) }
    ensures free { D.is_sure desk.old → ¬ IsErrOf result SketchStatus.Busy }
    ensures talk { GoesOn (D.talk desk.old) (D.talk desk.new) [] }
    ensures start { D.start desk.new ≡ D.start desk.old }
    ensures desk { Lasts D.faults D.wants D.is_sure desk.old desk.new }
{
    match load_file(alloc, desk)? {
        None => Ok(()),
        Some(_) => Err(SketchStatus::Exists),
    }
}

// Reads 32 bytes of a seed.
#[tactic(auto, using(crate::proofs::Founded::seeds))]
fn read_seed<B: Source>(second: &mut B) -> Result<[u8; 32], SketchStatus>
    ensures seed { IfOk result (IsSeedOf (B.left second.old)) }
    ensures why { IfErr result (HasNoSeed (B.left second.old)) }
    ensures cause { (before now : AnyCounts) → IfErr result
        (HasRisen (with_second before (B.faults second.old))
        (with_second now (B.faults second.new))) }
    ensures taken { TakesAtMost 32 (B.left second.old) (B.left second.new) }
    ensures second { Lasts B.faults B.wants B.is_sure second.old second.new }
{
    let mut seed = [0; 32];
    match read_exact_into(second, &mut seed) {
        Ok(came) if came < 32 => Err(SketchStatus::BadSeed),
        Ok(_) => Ok(seed),
        Err(PortStop::Failed) => Err(SketchStatus::ReadFault {
            port: SketchPort::Second,
        }),
        Err(PortStop::OutOfMemory) => Err(SketchStatus::OutOfMemory),
    }
}

// The file of the sketch of the empty stream.
fn first_file(
    alloc: Global,
    seed: &[u8; 32],
    depth: Depth,
    part: u32,
    parts: u32,
    kinds: &[SeatKind],
) -> Result<Vec<u8>, BeginFault>
    requires first_part { 1 ≤ part }
    requires last_part { part ≤ parts }
    requires some { 0 < length kinds.now }
    requires most { length kinds.now ≤ most_seats }
    ensures begun { IfOk result (λ file. (sketch : SketchValues) × IsBegun seed.now depth
        (record { count = parts; first = part; last = part }) kinds.now sketch
        × (file.items ≡ spelled_file sketch)) }
    ensures spent { IsErrOf result BeginFault.SeedSpent
        → challenges_of (depth * length kinds.now) seed.now ≡ None }
{
    let sketch = Sketch::begin(alloc, seed, depth, part, parts, kinds)?;
    let mut file = Vec::new(alloc);
    sketch.write(&mut file)?;
    Ok(file)
}

/// Begins a sketch: where the file of the desk is missing, draws the seats from 32 bytes of
/// `second` and stores the sketch of the empty stream, with a seat of each of these kinds and one
/// part in ([`Sketch::begin`]). A file that is there, and be it an empty one, is left as it is, and
/// nothing of `second` is read then.
///
/// It takes memory for the seats and the file, which is replaced once. Behind `Wrote` no crash
/// leaves anything but the whole file, and before it leaves that or none.
///
/// The first of these endings: `ReadFault` of the sketch or `Busy`; `Exists`; `ReadFault` of
/// `second`; `BadSeed`; `SeedSpent`; `WriteFault` of the sketch; `Wrote`. `OutOfMemory` may come at
/// each step.
#[tactic(auto, using(crate::proofs::Founded::founding))]
#[inline(never)]
pub fn begin<B: Source, D: Desk>(
    alloc: Global,
    depth: Depth,
    part: u32,
    parts: u32,
    kinds: &[SeatKind],
    second: &mut B,
    desk: &mut D,
) -> SketchStatus
    requires first_part { 1 ≤ part }
    requires last_part { part ≤ parts }
    requires some { 0 < length kinds.now }
    requires most { length kinds.now ≤ most_seats }
    ensures begins { Begins depth (record { count = parts; first = part; last = part }) kinds.now
        (B.left second.old) (D.start desk.old) (D.talk desk.old) (D.talk desk.new) result }
    ensures cause { HasRisen (counts 0 (B.faults second.old) (D.faults desk.old) 0 0)
        (counts 0 (B.faults second.new) (D.faults desk.new) 0 0) result }
    ensures free { D.is_sure desk.old → result ≢ SketchStatus.Busy }
    ensures taken { TakesAtMost 32 (B.left second.old) (B.left second.new) }
    ensures unread { IsTrue (is_unread result) → second.new ≡ second.old }
    ensures start { D.start desk.new ≡ D.start desk.old }
    ensures second { Lasts B.faults B.wants B.is_sure second.old second.new }
    ensures desk { Lasts D.faults D.wants D.is_sure desk.old desk.new }
{
    if let Err(status) = find_none(alloc, desk) {
        return status;
    }
    let seed = match read_seed(second) {
        Ok(seed) => seed,
        Err(status) => return status,
    };
    match first_file(alloc, &seed, depth, part, parts, kinds) {
        Ok(file) => store(desk, &file),
        Err(BeginFault::SeedSpent) => SketchStatus::SeedSpent,
        Err(BeginFault::OutOfMemory) => SketchStatus::OutOfMemory,
    }
}
