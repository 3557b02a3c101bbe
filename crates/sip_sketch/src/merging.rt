//! Adds up the parts of a stream in the sketch of a desk.

ghost use Rattle.std.specs.Prelude.{◌≡◌, ◌≢◌, ◌≤◌, ◌+◌, List, [], length, IfErr, IfOk, OnOk};
ghost use Rattle.std.specs.Prelude.{IsErrOf};
ghost use Rattle.sip_ports.specs.Ports.{GoesOn, Lasts};
ghost use Rattle.sip_sketch.specs.Merging.{IsPart, IsThere, Merges};
ghost use Rattle.sip_sketch.specs.Risen.{Counts as AnyCounts, HasRisen, counts};
ghost use Rattle.sip_sketch.specs.Sketches.{SketchValues};
ghost use Rattle.sip_sketch.specs.declared.status.SketchStatus.TheVariants as statuses;
ghost use Rattle.sip_sketch.specs.inside.Causes.{with_parts, with_sketch};
ghost use Rattle.sip_sketch.specs.inside.Merging.{AreJoined, AreSummed, HaltsWith, IsNoPart};
ghost use Rattle.sip_sketch.specs.inside.Merging.{IsUnopened, StopsWith};

use crate::keeping::keep;
use crate::loading::{load_file, read_loaded, read_part};
use crate::sum::{Sum, told_of};
use crate::{Sketch, SketchFiles, SketchPort, SketchStatus};
use sip_ports::{Desk, PortStop};
use std::alloc::Global;

/// The most parts that are added up at once.
pub const MOST_PARTS: u32 = 1_024;

// The sketch of the desk; `None` where its file is missing.
fn open<D: Desk>(alloc: Global, desk: &mut D) -> Result<Option<Sketch>, SketchStatus>
    ensures found { IfOk result (IsThere (D.start desk.old) (D.talk desk.old)) }
    ensures why { IfErr result (IsUnopened (D.start desk.old) (D.talk desk.old)) }
    ensures talk { GoesOn (D.talk desk.old) (D.talk desk.new) [] }
    ensures cause { IfErr result (λ status. (before now : AnyCounts) → HasRisen
        (with_sketch before (D.faults desk.old)) (with_sketch now (D.faults desk.new)) status) }
    ensures free { D.is_sure desk.old → ¬ IsErrOf result statuses.Busy }
    ensures start { D.start desk.new ≡ D.start desk.old }
    ensures desk { Lasts D.faults D.wants D.is_sure desk.old desk.new }
{
    match load_file(alloc, desk)? {
        None => Ok(None),
        Some(file) => Ok(Some(read_part(alloc, 0, &file)?)),
    }
}

// The part of this number.
fn load_part<P: SketchFiles>(
    alloc: Global,
    parts: &mut P,
    number: u32,
) -> Result<Sketch, SketchStatus>
    ensures found { IfOk result (IsPart (P.content parts.old) number) }
    ensures why { IfErr result (IsNoPart (P.content parts.old) number) }
    ensures cause { IfErr result (λ status. (before now : AnyCounts) → HasRisen
        (with_parts before (P.faults parts.old)) (with_parts now (P.faults parts.new)) status) }
    ensures content { P.content parts.new ≡ P.content parts.old }
    ensures parts { Lasts P.faults P.wants P.is_sure parts.old parts.new }
{
    match parts.load(alloc, number) {
        Ok(file) => read_loaded(alloc, number, file),
        Err(PortStop::Failed) => Err(SketchStatus::ReadFault {
            port: SketchPort::Part(number),
        }),
        Err(PortStop::OutOfMemory) => Err(SketchStatus::OutOfMemory),
    }
}

// Adds the parts behind the first, each loaded and tested before the next one.
fn add_parts<P: SketchFiles>(
    alloc: Global,
    sum: &mut Sum,
    parts: &mut P,
    count: u32,
) -> Result<(), SketchStatus>
    requires least { 1 ≤ count }
    requires most { count ≤ MOST_PARTS }
    ensures joined { OnOk result ((more : List SketchValues) × (length more + 1 ≡ count)
        × AreJoined (P.content parts.old) 2 sum.old more sum.new) }
    ensures why { IfErr result (StopsWith (P.content parts.old) count sum.old) }
    ensures cause { IfErr result (λ status. (before now : AnyCounts) → HasRisen
        (with_parts before (P.faults parts.old)) (with_parts now (P.faults parts.new)) status) }
    ensures content { P.content parts.new ≡ P.content parts.old }
    ensures parts { Lasts P.faults P.wants P.is_sure parts.old parts.new }
{
    for number in 2..count + 1 {
        let part = load_part(alloc, parts, number)?;
        if let Err(why) = sum.add(&part) {
            return Err(SketchStatus::Unlike { part: number, why });
        }
    }
    Ok(())
}

// Adds up all parts in the place of a sketch.
fn add_up<P: SketchFiles>(
    alloc: Global,
    sketch: Option<Sketch>,
    parts: &mut P,
    count: u32,
) -> Result<Sum, SketchStatus>
    requires least { 1 ≤ count }
    requires most { count ≤ MOST_PARTS }
    ensures summed { IfOk result (AreSummed (P.content parts.old) count sketch) }
    ensures why { IfErr result (HaltsWith (P.content parts.old) count sketch) }
    ensures cause { IfErr result (λ status. (before now : AnyCounts) → HasRisen
        (with_parts before (P.faults parts.old)) (with_parts now (P.faults parts.new)) status) }
    ensures content { P.content parts.new ≡ P.content parts.old }
    ensures parts { Lasts P.faults P.wants P.is_sure parts.old parts.new }
{
    let first = load_part(alloc, parts, 1)?;
    let mut sum = match Sum::begin(sketch, first) {
        Ok(sum) => sum,
        Err(why) => return Err(SketchStatus::Unlike { part: 1, why }),
    };
    add_parts(alloc, &mut sum, parts, count)?;
    Ok(sum)
}

/// Adds up the parts of a stream, which several collectors kept, and puts the sum in the place of
/// the sketch of a desk. The parts are those of the files from number 1 to `count`, each the next
/// one of the stream behind the one before. The file of the desk may be missing, and it may be that
/// of a part too.
///
/// A seat is used exactly where it was used in the sketch before, and has then the numbers that the
/// sketch has; the other seats have those of the sum. So a sum may be made again from the same
/// collectors later, into the same sketch: what was asked stays used, and the other seats stand for
/// the longer streams.
///
/// Each part is loaded, read and tested before the next one, and nothing is stored before the last
/// one was. Memory is taken for two sketches and one file at a time, whatever the number of parts.
///
/// The first of these endings: `ReadFault` of the sketch or `Busy`; `BadSketch` of part 0; of each
/// part in turn `ReadFault`, `BadSketch`, at 0 where its file is missing, and `Unlike` with the
/// first reason that there is, of which those against the sum come with the last part;
/// `WriteFault` of the sketch; `Wrote`. `OutOfMemory` may come at each step.
#[inline(never)]
pub fn merge<P: SketchFiles, D: Desk>(
    alloc: Global,
    parts: &mut P,
    count: u32,
    desk: &mut D,
) -> SketchStatus
    requires least { 1 ≤ count }
    requires most { count ≤ MOST_PARTS }
    ensures merges { Merges (P.content parts.old) count (D.start desk.old) (D.talk desk.old)
        (D.talk desk.new) result }
    ensures cause { HasRisen (counts 0 0 (D.faults desk.old) (P.faults parts.old) 0)
        (counts 0 0 (D.faults desk.new) (P.faults parts.new) 0) result }
    ensures free { D.is_sure desk.old → result ≢ statuses.Busy }
    ensures content { P.content parts.new ≡ P.content parts.old }
    ensures start { D.start desk.new ≡ D.start desk.old }
    ensures parts { Lasts P.faults P.wants P.is_sure parts.old parts.new }
    ensures desk { Lasts D.faults D.wants D.is_sure desk.old desk.new }
{
    let sketch = match open(alloc, desk) {
        Ok(sketch) => sketch,
        Err(status) => return status,
    };
    let told = told_of(&sketch);
    let sum = match add_up(alloc, sketch, parts, count) {
        Ok(sum) => sum,
        Err(status) => return status,
    };
    if let Some(why) = sum.lacks_of(&told) {
        return SketchStatus::Unlike { part: count, why };
    }
    let sketch = sum.finish();
    keep(&sketch, &mut Vec::new(alloc), desk)
}
