//! The calls on sketches.

ghost use Rattle.std.specs.Prelude.{◌≡◌, None};
ghost use Rattle.sip_c.specs.Absorbing.{Absorbs, AbsorbsIn, OnSketches};
ghost use Rattle.sip_c.specs.Beginning.{Begun, StandsAgainst, Wanted};
ghost use Rattle.sip_c.specs.Handles.{BeginsSketch, OnSketch, Through, ThroughSketch};
ghost use Rattle.sip_c.specs.Loading.{IsLoaded, IsNone};
ghost use Rattle.sip_c.specs.Saving.{Saves};
ghost use Rattle.sip_c.specs.Statuses.{IsNumberOf};
ghost use Rattle.sip_c.specs.Telling.{Tells, TellsSeat};
ghost use Rattle.sip_c.specs.Updating.{KeepsTables, Updates, UpdatesBy};

use crate::absorbing::absorb;
use crate::adding::update;
use crate::beginning::begin;
use crate::codes::{CodeList, Codes, UpdateCode};
use crate::handle::Handle;
use crate::kept::Kept;
use crate::loading::{load, save};
use crate::records::records_of;
use crate::refusal::{Refusal, status_of};
use crate::telling::{SketchTold, tell_seat, told_of};
use std::alloc::Global;

// ---- begin and load

fn begin_in(
    alloc: Global,
    handle: &mut Handle,
    seed: &[u8],
    depth: u8,
    part: u32,
    parts: u32,
    kinds: &[u8],
) -> Result<(), Refusal>
    ensures { let wanted : Wanted = record {
      seed = seed.now;
      depth = depth;
      part = part;
      parts = parts;
      codes = kinds.now;
    } in BeginsSketch (Unit {0}) (Begun wanted) (StandsAgainst wanted)
        handle.old.spot.held result handle.new.spot.held }
{
    if handle.is_full() {
        return Err(Refusal::Full);
    }
    let sketch = begin(alloc, seed, depth, part, parts, kinds)?;
    handle.begin(alloc, Kept::Sketch(sketch))
}

/// Begins the sketch of the empty stream in an empty handle: a seat of each of the kinds that these
/// codes say, in order, with the challenges that 32 bytes of a seed give, and one part in.
#[unsafe(no_mangle)]
pub extern "C" fn sip_sketch_begin(
    alloc: Global,
    sketch: &mut Handle,
    seed: &[u8],
    depth: u8,
    part: u32,
    parts: u32,
    kinds: &[u8],
) -> u32
    ensures { let wanted : Wanted = record {
      seed = seed.now;
      depth = depth;
      part = part;
      parts = parts;
      codes = kinds.now;
    } in IsNumberOf result (λ answer. BeginsSketch (Unit {0}) (Begun wanted)
        (StandsAgainst wanted) sketch.old.spot.held answer sketch.new.spot.held) }
{
    status_of(begin_in(alloc, sketch, seed, depth, part, parts, kinds))
}

fn load_in(
    alloc: Global,
    handle: &mut Handle,
    bytes: &[u8],
    offset: &mut usize,
) -> Result<(), Refusal>
    ensures { BeginsSketch (offset.new ≡ offset.old) (IsLoaded bytes.now offset.old offset.new)
        (IsNone bytes.now offset.old offset.new) handle.old.spot.held result
        handle.new.spot.held }
{
    if handle.is_full() {
        return Err(Refusal::Full);
    }
    let sketch = load(alloc, bytes, offset)?;
    handle.begin(alloc, Kept::Sketch(sketch))
}

/// Loads the sketch of these bytes into an empty handle; or tells the offset of their first fault.
#[unsafe(no_mangle)]
pub extern "C" fn sip_sketch_load(
    alloc: Global,
    sketch: &mut Handle,
    bytes: &[u8],
    offset: &mut usize,
) -> u32
    ensures { IsNumberOf result (λ answer. BeginsSketch (offset.new ≡ offset.old)
        (IsLoaded bytes.now offset.old offset.new) (IsNone bytes.now offset.old offset.new)
        sketch.old.spot.held answer sketch.new.spot.held) }
{
    status_of(load_in(alloc, sketch, bytes, offset))
}

// ---- save

fn save_kept(alloc: Global, kept: &Kept, to: &mut [u8], size: &mut usize) -> Result<(), Refusal>
    ensures { OnSketch ((to.new ≡ to.old) × (size.new ≡ size.old)) (Saves to.old to.new size.old
        size.new) kept.now result kept.now }
{
    match kept {
        Kept::Sketch(sketch) => save(alloc, sketch, to, size),
        _ => Err(Refusal::OtherHandle),
    }
}

fn save_in(
    alloc: Global,
    handle: &mut Handle,
    to: &mut [u8],
    size: &mut usize,
) -> Result<(), Refusal>
    ensures { ThroughSketch ((to.new ≡ to.old) × (size.new ≡ size.old)) (Saves to.old to.new
        size.old size.new) handle.old.spot.held result
        handle.new.spot.held }
{
    let Some(kept) = handle.take(alloc) else {
        return Err(Refusal::Empty);
    };
    let answer = save_kept(alloc, &*kept, to, size);
    handle.put(alloc, kept);
    answer
}

/// Writes the bytes of a sketch to the front of a buffer, and their number; the number alone where
/// there is less room.
#[unsafe(no_mangle)]
pub extern "C" fn sip_sketch_save(
    alloc: Global,
    sketch: &mut Handle,
    to: &mut [u8],
    size: &mut usize,
) -> u32
    ensures { IsNumberOf result (λ answer. ThroughSketch ((to.new ≡ to.old) × (size.new ≡ size.old))
        (Saves to.old to.new size.old size.new) sketch.old.spot.held answer
        sketch.new.spot.held) }
{
    status_of(save_in(alloc, sketch, to, size))
}

// ---- update

fn update_kept<C: Codes>(kept: &mut Kept, codes: &C, at: &mut usize) -> Result<(), Refusal>
    ensures { OnSketch (at.new ≡ at.old) (Updates (C.codes codes.now) at.old at.new) kept.old result
        kept.new }
{
    match kept {
        Kept::Sketch(sketch) => update(sketch, codes, at),
        _ => Err(Refusal::OtherHandle),
    }
}

fn update_in<C: Codes>(
    alloc: Global,
    handle: &mut Handle,
    codes: &C,
    at: &mut usize,
) -> Result<(), Refusal>
    ensures { ThroughSketch (at.new ≡ at.old) (Updates (C.codes codes.now) at.old at.new)
        handle.old.spot.held result handle.new.spot.held }
{
    let Some(mut kept) = handle.take(alloc) else {
        return Err(Refusal::Empty);
    };
    let answer = update_kept(&mut *kept, codes, at);
    handle.put(alloc, kept);
    answer
}

/// Adds updates: all of them, or none where one of them may not come, whose place is told.
#[unsafe(no_mangle)]
pub extern "C" fn sip_sketch_update(
    alloc: Global,
    sketch: &mut Handle,
    updates: &[UpdateCode],
    at: &mut usize,
) -> u32
    ensures { IsNumberOf result (λ answer. ThroughSketch (at.new ≡ at.old) (Updates updates.now
        at.old at.new) sketch.old.spot.held answer
        sketch.new.spot.held) }
{
    let codes = CodeList { list: updates };
    status_of(update_in(alloc, sketch, &codes, at))
}

fn update_by_records(
    alloc: Global,
    handle: &mut Handle,
    form: u8,
    bytes: &[u8],
    at: &mut usize,
) -> Result<(), Refusal>
    ensures { UpdatesBy form bytes.now at.old at.new handle.old.spot.held result
        handle.new.spot.held }
{
    let records = records_of(form, bytes)?;
    update_in(alloc, handle, &records, at)
}

/// Adds the updates that records say as they lie in a file of a form: all of them, or none where
/// one of them may not come, whose number is told.
#[unsafe(no_mangle)]
pub extern "C" fn sip_sketch_update_records(
    alloc: Global,
    sketch: &mut Handle,
    form: u8,
    records: &[u8],
    at: &mut usize,
) -> u32
    ensures { IsNumberOf result (λ answer. UpdatesBy form records.now at.old at.new
        sketch.old.spot.held answer sketch.new.spot.held) }
{
    status_of(update_by_records(alloc, sketch, form, records, at))
}

// ---- tables

fn keep_tables_kept(alloc: Global, kept: &mut Kept) -> Result<(), Refusal>
    ensures { OnSketch (Unit {0}) KeepsTables kept.old result kept.new }
{
    match kept {
        Kept::Sketch(sketch) => match sketch.keep_tables(alloc) {
            Ok(()) => Ok(()),
            Err(_) => Err(Refusal::NoMemory),
        },
        _ => Err(Refusal::OtherHandle),
    }
}

fn keep_tables_in(alloc: Global, handle: &mut Handle) -> Result<(), Refusal>
    ensures { ThroughSketch (Unit {0}) KeepsTables handle.old.spot.held result
        handle.new.spot.held }
{
    let Some(mut kept) = handle.take(alloc) else {
        return Err(Refusal::Empty);
    };
    let answer = keep_tables_kept(alloc, &mut *kept);
    handle.put(alloc, kept);
    answer
}

/// Keeps tables of the challenges of each unused seat, by which updates are added faster from now
/// on.
#[unsafe(no_mangle)]
pub extern "C" fn sip_sketch_keep_tables(alloc: Global, sketch: &mut Handle) -> u32
    ensures { IsNumberOf result (λ answer. ThroughSketch (Unit {0}) KeepsTables
        sketch.old.spot.held answer sketch.new.spot.held) }
{
    status_of(keep_tables_in(alloc, sketch))
}

// ---- absorb

fn absorb_kept(kept: &mut Kept, part: &Kept) -> Result<(), Refusal>
    ensures { OnSketches Absorbs part.now kept.old result kept.new }
{
    match (kept, part) {
        (Kept::Sketch(sketch), Kept::Sketch(part)) => absorb(sketch, part),
        _ => Err(Refusal::OtherHandle),
    }
}

fn absorb_part(alloc: Global, handle: &mut Handle, part: &Kept) -> Result<(), Refusal>
    ensures { Through (Unit {0}) (OnSketches Absorbs part.now) handle.old.spot.held result
        handle.new.spot.held }
{
    let Some(mut kept) = handle.take(alloc) else {
        return Err(Refusal::Empty);
    };
    let answer = absorb_kept(&mut *kept, part);
    handle.put(alloc, kept);
    answer
}

fn absorb_in(alloc: Global, handle: &mut Handle, other: &mut Handle) -> Result<(), Refusal>
    ensures { AbsorbsIn other.old.spot.held other.new.spot.held handle.old.spot.held result
        handle.new.spot.held }
{
    let Some(part) = other.take(alloc) else {
        return Err(Refusal::Empty);
    };
    let answer = absorb_part(alloc, handle, &*part);
    other.put(alloc, part);
    answer
}

/// Adds the next part of the stream, which another collector kept at the same seed, to a sketch.
/// The part stays as it is.
#[unsafe(no_mangle)]
pub extern "C" fn sip_sketch_absorb(alloc: Global, sketch: &mut Handle, part: &mut Handle) -> u32
    ensures { IsNumberOf result (λ answer. AbsorbsIn part.old.spot.held part.new.spot.held
        sketch.old.spot.held answer sketch.new.spot.held) }
{
    status_of(absorb_in(alloc, sketch, part))
}

// ---- what is told

fn tell_kept(kept: &Kept, told: &mut SketchTold) -> Result<(), Refusal>
    ensures { OnSketch (told.new ≡ told.old) (Tells told.new) kept.now result kept.now }
{
    match kept {
        Kept::Sketch(sketch) => {
            *told = told_of(sketch);
            Ok(())
        }
        _ => Err(Refusal::OtherHandle),
    }
}

fn tell_in(alloc: Global, handle: &mut Handle, told: &mut SketchTold) -> Result<(), Refusal>
    ensures { ThroughSketch (told.new ≡ told.old) (Tells told.new) handle.old.spot.held
        result handle.new.spot.held }
{
    let Some(kept) = handle.take(alloc) else {
        return Err(Refusal::Empty);
    };
    let answer = tell_kept(&*kept, told);
    handle.put(alloc, kept);
    answer
}

/// Tells what a sketch is, but for its secrets.
#[unsafe(no_mangle)]
pub extern "C" fn sip_sketch_told(alloc: Global, sketch: &mut Handle, told: &mut SketchTold) -> u32
    ensures { IsNumberOf result (λ answer. ThroughSketch (told.new ≡ told.old) (Tells told.new)
        sketch.old.spot.held answer sketch.new.spot.held) }
{
    status_of(tell_in(alloc, sketch, told))
}

fn tell_seat_kept(
    kept: &Kept,
    place: usize,
    kind: &mut u8,
    is_used: &mut bool,
) -> Result<(), Refusal>
    ensures { OnSketch ((kind.new ≡ kind.old) × (is_used.new ≡ is_used.old)) (TellsSeat place
        kind.old kind.new is_used.old is_used.new) kept.now result
        kept.now }
{
    match kept {
        Kept::Sketch(sketch) => tell_seat(sketch, place, kind, is_used),
        _ => Err(Refusal::OtherHandle),
    }
}

fn tell_seat_in(
    alloc: Global,
    handle: &mut Handle,
    place: usize,
    kind: &mut u8,
    is_used: &mut bool,
) -> Result<(), Refusal>
    ensures { ThroughSketch ((kind.new ≡ kind.old) × (is_used.new ≡ is_used.old)) (TellsSeat place
        kind.old kind.new is_used.old is_used.new)
        handle.old.spot.held result handle.new.spot.held }
{
    let Some(kept) = handle.take(alloc) else {
        return Err(Refusal::Empty);
    };
    let answer = tell_seat_kept(&*kept, place, kind, is_used);
    handle.put(alloc, kept);
    answer
}

/// Tells what the seat at a place serves, and whether a question has used it.
#[unsafe(no_mangle)]
pub extern "C" fn sip_sketch_seat(
    alloc: Global,
    sketch: &mut Handle,
    place: usize,
    kind: &mut u8,
    is_used: &mut bool,
) -> u32
    ensures { IsNumberOf result (λ answer. ThroughSketch ((kind.new ≡ kind.old) × (is_used.new ≡
        is_used.old)) (TellsSeat place kind.old kind.new is_used.old is_used.new)
        sketch.old.spot.held answer sketch.new.spot.held) }
{
    status_of(tell_seat_in(alloc, sketch, place, kind, is_used))
}

/// Lets go of a sketch. The handle is empty then.
#[unsafe(no_mangle)]
pub extern "C" fn sip_sketch_free(alloc: Global, sketch: &mut Handle)
    ensures { sketch.new.spot.held ≡ None }
{
    let _ = sketch.take(alloc);
}
