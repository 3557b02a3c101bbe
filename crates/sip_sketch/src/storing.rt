//! Stores the file of a sketch.

ghost use Rattle.std.specs.Prelude.{◌≡◌};
ghost use Rattle.sip_ports.specs.Ports.{Lasts};
ghost use Rattle.sip_sketch.specs.Risen.{Counts as AnyCounts, HasRisen};
ghost use Rattle.sip_sketch.specs.inside.Causes.{with_sketch};
ghost use Rattle.sip_sketch.specs.inside.Storing.{Stores};

use crate::{SketchPort, SketchStatus};
use sip_ports::{Desk, DeskStop};

/// Puts these bytes in the place of the file of the sketch.
#[inline(never)]
pub(crate) fn store<D: Desk>(desk: &mut D, file: &[u8]) -> SketchStatus
    ensures talk { Stores (D.talk desk.old) (D.talk desk.new) file.now result }
    ensures cause { (before now : AnyCounts) → HasRisen (with_sketch before (D.faults desk.old))
        (with_sketch now (D.faults desk.new)) result }
    ensures start { D.start desk.new ≡ D.start desk.old }
    ensures desk { Lasts D.faults D.wants D.is_sure desk.old desk.new }
{
    match desk.replace(file) {
        Ok(()) => SketchStatus::Wrote,
        Err(DeskStop::Failed) => SketchStatus::WriteFault {
            port: SketchPort::Sketch,
        },
        Err(DeskStop::OutOfMemory) => SketchStatus::OutOfMemory,
        Err(DeskStop::Busy) => unreachable!(),
    }
}
