//! Loads sketches.

ghost use Rattle.std.specs.Prelude.{◌≡◌, [], Some, option_map, IfErr, IfOk, IsErrOf};
ghost use Rattle.sip_ports.specs.Desk.{Loads};
ghost use Rattle.sip_ports.specs.Ports.{GoesOn, Lasts};
ghost use Rattle.sip_sketch.specs.Risen.{Counts as AnyCounts, HasRisen};
ghost use Rattle.sip_sketch.specs.Sketches.{IsSketch, spelled_file};
ghost use Rattle.sip_sketch.specs.declared.status.SketchStatus.TheVariants as statuses;
ghost use Rattle.sip_sketch.specs.inside.Causes.{with_sketch};
ghost use Rattle.sip_sketch.specs.inside.Loading.{IsNoSketch, IsUnloaded, IsUnread};

use crate::{Sketch, SketchFault, SketchPort, SketchStatus};
use sip_ports::{Desk, DeskStop};
use std::alloc::Global;

/// The bytes of the sketch's file; `None` where it is missing. It takes memory for them.
///
/// A load has buffers for paths, and none of them stays on the stack.
#[inline(never)]
pub(crate) fn load_file<D: Desk>(
    alloc: Global,
    desk: &mut D,
) -> Result<Option<Vec<u8>>, SketchStatus>
    ensures found { IfOk result (λ file. Loads (D.start desk.old) (D.talk desk.old)
        (option_map (λ bytes. bytes.items) file)) }
    ensures fault { IfErr result IsUnloaded }
    ensures talk { GoesOn (D.talk desk.old) (D.talk desk.new) [] }
    ensures cause { IfErr result (λ status. (before now : AnyCounts) → HasRisen
        (with_sketch before (D.faults desk.old)) (with_sketch now (D.faults desk.new)) status) }
    ensures free { D.is_sure desk.old → ¬ IsErrOf result statuses.Busy }
    ensures start { D.start desk.new ≡ D.start desk.old }
    ensures desk { Lasts D.faults D.wants D.is_sure desk.old desk.new }
{
    match desk.load(alloc) {
        Ok(file) => Ok(file),
        Err(DeskStop::Failed) => Err(SketchStatus::ReadFault {
            port: SketchPort::Sketch,
        }),
        Err(DeskStop::OutOfMemory) => Err(SketchStatus::OutOfMemory),
        Err(DeskStop::Busy) => Err(SketchStatus::Busy),
    }
}

/// The sketch whose file these bytes are, which were loaded of this part. It takes memory for the
/// seats.
pub(crate) fn read_part(alloc: Global, part: u32, file: &[u8]) -> Result<Sketch, SketchStatus>
    ensures found { IfOk result (λ s. IsSketch s × (file.now ≡ spelled_file s)) }
    ensures fault { IfErr result (IsUnread part file.now) }
{
    match Sketch::read(alloc, file) {
        Ok(sketch) => Ok(sketch),
        Err(SketchFault::Bad { offset }) => Err(SketchStatus::BadSketch {
            part,
            offset: offset as u64,
        }),
        Err(SketchFault::OutOfMemory) => Err(SketchStatus::OutOfMemory),
    }
}

/// The sketch whose file, of the part of this number, was loaded; a missing file is none from its
/// first byte. It takes memory for the seats.
pub(crate) fn read_loaded(
    alloc: Global,
    part: u32,
    file: Option<Vec<u8>>,
) -> Result<Sketch, SketchStatus>
    ensures found { IfOk result (λ s. IsSketch s
        × (option_map (λ bytes. bytes.items) file ≡ Some (spelled_file s))) }
    ensures why { IfErr result (IsNoSketch part (option_map (λ bytes. bytes.items) file)) }
{
    match file {
        Some(bytes) => read_part(alloc, part, &bytes),
        None => Err(SketchStatus::BadSketch { part, offset: 0 }),
    }
}
