//! Stores a sketch that was loaded and grew.

ghost use Rattle.std.specs.Prelude.{◌≡◌};
ghost use Rattle.sip_ports.specs.Ports.{Lasts};
ghost use Rattle.sip_sketch.specs.Risen.{Counts as AnyCounts, HasRisen};
ghost use Rattle.sip_sketch.specs.Sketches.{IsSketch, spelled_file};
ghost use Rattle.sip_sketch.specs.declared.status.SketchStatus.TheVariants as statuses;
ghost use Rattle.sip_sketch.specs.inside.Causes.{with_sketch};
ghost use Rattle.sip_sketch.specs.inside.Keeping.{Closes};

use crate::storing::store;
use crate::{Sketch, SketchStatus};
use sip_ports::Desk;

/// Stores a sketch. Its file is written to the buffer first, which takes memory only where that has
/// less room.
pub(crate) fn keep<D: Desk>(sketch: &Sketch, file: &mut Vec<u8>, desk: &mut D) -> SketchStatus
    ensures talk { Closes (D.talk desk.old) (D.talk desk.new) (spelled_file sketch.now)
        statuses.Wrote result }
    ensures sketch { IsSketch sketch.now }
    ensures cause { (before now : AnyCounts) → HasRisen (with_sketch before (D.faults desk.old))
        (with_sketch now (D.faults desk.new)) result }
    ensures start { D.start desk.new ≡ D.start desk.old }
    ensures desk { Lasts D.faults D.wants D.is_sure desk.old desk.new }
{
    sketch.has_a_file();
    match sketch.write(file) {
        Ok(()) => store(desk, file),
        Err(_) => SketchStatus::OutOfMemory,
    }
}

/// Stores a sketch once more, behind what ended in this status. That it was not stored is the
/// greater fault.
pub(crate) fn close<D: Desk>(
    sketch: &Sketch,
    file: &mut Vec<u8>,
    desk: &mut D,
    status: SketchStatus,
) -> SketchStatus
    ensures talk { Closes (D.talk desk.old) (D.talk desk.new) (spelled_file sketch.now) status
        result }
    ensures sketch { IsSketch sketch.now }
    ensures cause { (before now : AnyCounts)
        → HasRisen (with_sketch before (D.faults desk.old)) (with_sketch now (D.faults desk.new))
        status → HasRisen (with_sketch before (D.faults desk.old))
        (with_sketch now (D.faults desk.new)) result }
    ensures start { D.start desk.new ≡ D.start desk.old }
    ensures desk { Lasts D.faults D.wants D.is_sure desk.old desk.new }
{
    match keep(sketch, file, desk) {
        SketchStatus::Wrote => status,
        stopped => stopped,
    }
}
