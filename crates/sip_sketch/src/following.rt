//! Adds the records of a stream to a sketch that is stored again and again.

ghost use Rattle.std.specs.Prelude.{◌≡◌, ◌≢◌, ◌<◌, ◌≤◌, ℕ, List, Some, IsSome, IfSome, length};
ghost use Rattle.std.specs.Prelude.{take};
ghost use Rattle.sip_ports.specs.Ports.{Lasts, Rose};
ghost use Rattle.sip_stream.specs.declared.fault.StreamFault.TheVariants as faults;
ghost use Rattle.sip_vector.specs.declared.update.Update.{Update as AnyUpdate};
ghost use Rattle.sip_sketch.specs.Risen.{Counts as AnyCounts, HasRisen};
ghost use Rattle.sip_sketch.specs.Standing.{MayCome, Stands};
ghost use Rattle.sip_sketch.specs.Watching.{ReadsTo};
ghost use Rattle.sip_sketch.specs.declared.filling.Pause.TheVariants as pauses;
ghost use Rattle.sip_sketch.specs.inside.Causes.{with_first, with_sketch};
ghost use Rattle.sip_sketch.specs.inside.Following.{Adds, HasCome, status_of};

use crate::filling::{Pause, fill};
use crate::keeping::{close, keep};
use crate::pace::Pace;
use crate::{MOST_UPDATES, Sketch, SketchPort, SketchStatus};
use sip_ports::{Desk, Source};
use sip_stream::{Form, Reader, StreamFault, Why};
use sip_vector::{Side, Update};

/// The status where a stream is read no further, at this record.
pub(crate) fn status_of(fault: StreamFault, at: u64) -> SketchStatus
    ensures { result ≡ status_of fault at }
{
    match fault {
        StreamFault::Bad { why, .. } => SketchStatus::BadStream { at, why },
        StreamFault::ReadFault => SketchStatus::ReadFault {
            port: SketchPort::First,
        },
        StreamFault::OutOfMemory => SketchStatus::OutOfMemory,
    }
}

// Reads the next records for a sketch to the front of a block until it is full, and answers how
// many came, and why there are no more. They may come next to the sketch. A sketch with numbers
// that no stream has, which no call makes, may be found so here: no record is legal then.
fn next_block<A: Source>(
    sketch: &Sketch,
    form: Form,
    first: &mut A,
    block: &mut [Update],
) -> (usize, Pause)
    ensures few { result.0 ≤ length block.new }
    ensures len { length block.new ≡ length block.old }
    ensures full { result.1 ≡ pauses.Full → result.0 ≡ length block.new }
    ensures fewer { result.1 ≢ pauses.Full → result.0 < length block.new }
    ensures next { MayCome sketch.now (take result.0 block.new) }
    ensures reads { (stream : List AnyUpdate) (bytes : List ℕ) → Stands stream sketch.now
        → A.left first.old ≡ Some bytes → ReadsTo sketch.now.depth form stream bytes
        (A.left first.new) (take result.0 block.new) result.1 }
    ensures told { IsSome (A.left first.old) → IsSome (A.left first.new) }
    ensures cause { result.1 ≡ pauses.Stopped faults.ReadFault
        → Rose (A.faults first.old) (A.faults first.new) }
    ensures first { Lasts A.faults A.wants A.is_sure first.old first.new }
{
    sketch.has_a_file();
    let mut reader = Reader::resumed(sketch.depth(), form, &sketch.tally());
    let (count, pause) = fill(&mut reader, first, block);
    if sketch.takes(&block[..count]) {
        return (count, pause);
    }
    let fault = StreamFault::Bad {
        at: reader.count(),
        why: Why::TooHeavy(Side::First),
    };
    (0, Pause::Stopped(fault))
}

// Adds the next records to a sketch, which are read to the front of a block until it is full, and
// answers how many came, and why there are no more.
fn add_block<A: Source>(
    sketch: &mut Sketch,
    form: Form,
    first: &mut A,
    block: &mut [Update],
) -> (usize, Pause)
    requires { length block.old ≤ MOST_UPDATES }
    ensures few { result.0 ≤ length block.old }
    ensures full { result.1 ≡ pauses.Full → result.0 ≡ length block.old }
    ensures fewer { result.1 ≢ pauses.Full → result.0 < length block.old }
    ensures came { HasCome form sketch.old sketch.new (A.left first.old) (A.left first.new)
        result.0 result.1 }
    ensures told { IsSome (A.left first.old) → IsSome (A.left first.new) }
    ensures cause { result.1 ≡ pauses.Stopped faults.ReadFault
        → Rose (A.faults first.old) (A.faults first.new) }
    ensures first { Lasts A.faults A.wants A.is_sure first.old first.new }
{
    let (count, pause) = next_block(sketch, form, first, block);
    sketch.update_all(&block[..count]);
    (count, pause)
}

/// Adds the records of a stream to a sketch, by the block, and stores it after every so many and at
/// the end, also where the stream is read no further.
pub(crate) fn follow<A: Source, D: Desk>(
    sketch: &mut Sketch,
    file: &mut Vec<u8>,
    block: &mut [Update],
    form: Form,
    every: Option<u64>,
    first: &mut A,
    desk: &mut D,
) -> SketchStatus
    requires every { IfSome every (λ count. 0 < count) }
    requires block { length block.old ≡ MOST_UPDATES }
    ensures adds { Adds form every sketch.old (A.left first.old) (D.talk desk.old)
        (A.left first.new) (D.talk desk.new) result }
    ensures cause { (before now : AnyCounts) → HasRisen
        (with_first (with_sketch before (D.faults desk.old)) (A.faults first.old))
        (with_first (with_sketch now (D.faults desk.new)) (A.faults first.new)) result }
    ensures told { IsSome (A.left first.old) → IsSome (A.left first.new) }
    ensures start { D.start desk.new ≡ D.start desk.old }
    ensures first { Lasts A.faults A.wants A.is_sure first.old first.new }
    ensures desk { Lasts D.faults D.wants D.is_sure desk.old desk.new }
{
    sketch.has_a_file();
    let mut pace = Pace::new(every);
    loop {
        let most = pace.most();
        let (count, pause) = add_block(sketch, form, first, &mut block[..most]);
        match pause {
            Pause::Full => {}
            Pause::Ended => return keep(sketch, file, desk),
            Pause::Stopped(fault) => {
                let status = status_of(fault, sketch.tally().count);
                return close(sketch, file, desk, status);
            }
        }
        if pace.pass(count) {
            match keep(sketch, file, desk) {
                SketchStatus::Wrote => {}
                stopped => return stopped,
            }
        }
    }
}
