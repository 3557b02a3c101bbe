//! Watches a stream for the sketch of a desk.

ghost use Rattle.std.specs.Prelude.{◌≡◌, ◌≢◌, ◌<◌, ℕ, IfSome, IsSome};
ghost use Rattle.sip_ports.specs.Ports.{Lasts};
ghost use Rattle.sip_sketch.specs.Risen.{Counts as AnyCounts, HasRisen};
ghost use Rattle.sip_sketch.specs.Watching.{Watches, begins_at};
ghost use Rattle.sip_sketch.specs.declared.status.SketchStatus.TheVariants as statuses;
ghost use Rattle.sip_sketch.specs.inside.Causes.{with_first, with_sketch};

use crate::filling::Pause;
use crate::following::{follow, status_of};
use crate::keeping::close;
use crate::loading::{load_file, read_part};
use crate::passing::pass_over;
use crate::{MOST_UPDATES, SketchStatus};
use sip_ports::{Desk, Source};
use sip_stream::Form;
use sip_vector::Update;
use std::alloc::Global;

// The number of the stream's first record, by the own count of a sketch with so many records.
fn begins_at(at: Option<u64>, records: u64) -> u64
    ensures { result ≡ begins_at at records }
{
    match at {
        Some(at) => at,
        None => records,
    }
}

/// Adds the records of the stream `first` to the sketch of a desk, and stores it after every
/// `every` records that were added, and at the end.
///
/// The stream's first record has the number `at` in the sketch's own count, or is the next one
/// where there is no `at`. Records that the sketch has already are read, each legal after those of
/// the stream before it, and not added. So a call over a log from number 0 may be made again after
/// any crash, over the same log grown longer: each record is added once.
///
/// Where a record is not legal, or reading the stream stops, the sketch is stored once more with
/// what came before. Memory is taken for the sketch with its tables, for its file and for a block
/// of 512 records, and none for a record.
///
/// The first of these endings: `ReadFault` of the sketch or `Busy`; `BadSketch` of part 0, at 0
/// where there is no file; `BadStart` exactly where more than one part is in or `at` is above the
/// count of records; `BadStream` and `ReadFault` of `first` among the records that the sketch has;
/// `Behind` exactly where the stream ends among them; the same two of the others; `Wrote`. A
/// `WriteFault` of the sketch comes wherever it is stored, in place of the status of a stream that
/// is read no further too. `OutOfMemory` may come where memory is taken, and where `first` or the
/// desk is refused some.
#[inline(never)]
pub fn watch<A: Source, D: Desk>(
    alloc: Global,
    form: Form,
    at: Option<u64>,
    every: Option<u64>,
    first: &mut A,
    desk: &mut D,
) -> SketchStatus
    requires { IfSome every (λ count. 0 < count) }
    ensures watches { Watches form at every (D.start desk.old) (A.left first.old)
        (D.talk desk.old) (A.left first.new) (D.talk desk.new) result }
    ensures cause { (before now : AnyCounts) → HasRisen
        (with_first (with_sketch before (D.faults desk.old)) (A.faults first.old))
        (with_first (with_sketch now (D.faults desk.new)) (A.faults first.new)) result }
    ensures free { D.is_sure desk.old → result ≢ statuses.Busy }
    ensures told { IsSome (A.left first.old) → IsSome (A.left first.new) }
    ensures start { D.start desk.new ≡ D.start desk.old }
    ensures first { Lasts A.faults A.wants A.is_sure first.old first.new }
    ensures desk { Lasts D.faults D.wants D.is_sure desk.old desk.new }
{
    let mut file = match load_file(alloc, desk) {
        Ok(Some(file)) => file,
        Ok(None) => return SketchStatus::BadSketch { part: 0, offset: 0 },
        Err(status) => return status,
    };
    let mut sketch = match read_part(alloc, 0, &file) {
        Ok(sketch) => sketch,
        Err(status) => return status,
    };
    let records = sketch.tally().count;
    let parts = sketch.parts();
    let is_sum = parts.first != parts.last;
    let start = begins_at(at, records);
    if is_sum || start > records {
        return SketchStatus::BadStart { records, is_sum };
    }
    let Ok(mut block) = vec![in alloc; Update::default(); MOST_UPDATES] else {
        return SketchStatus::OutOfMemory;
    };
    // Tables are for speed alone: a watch goes on without those that there is no memory for.
    let _ = sketch.keep_tables(alloc);
    let (passed, pause) = pass_over(sketch.depth(), form, records - start, first, &mut block);
    match pause {
        Pause::Full => follow(&mut sketch, &mut file, &mut block, form, every, first, desk),
        Pause::Ended => SketchStatus::Behind { at: start + passed },
        Pause::Stopped(fault) => {
            let status = status_of(fault, start + passed);
            close(&sketch, &mut file, desk, status)
        }
    }
}
