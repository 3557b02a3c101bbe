//! Loads a sketch of its bytes, and saves it.

ghost use Rattle.std.specs.Prelude.{◌≡◌, IfErr, IfOk};
ghost use Rattle.sip_c.specs.Loading.{IsLoaded, IsNone};
ghost use Rattle.sip_c.specs.Saving.{IsSaved};

use crate::refusal::Refusal;
use sip_sketch::{Sketch, SketchFault};
use std::alloc::Global;

/// The sketch of these bytes; or the offset of their first fault.
pub(crate) fn load(alloc: Global, bytes: &[u8], offset: &mut usize) -> Result<Sketch, Refusal>
    ensures found { IfOk result (IsLoaded bytes.now offset.old offset.new) }
    ensures none { IfErr result (IsNone bytes.now offset.old offset.new) }
{
    match Sketch::read(alloc, bytes) {
        Ok(sketch) => Ok(sketch),
        Err(SketchFault::Bad { offset: at }) => {
            *offset = at;
            Err(Refusal::BadSketch)
        }
        Err(SketchFault::OutOfMemory) => Err(Refusal::NoMemory),
    }
}

/// Writes the bytes of a sketch to the front of a buffer, and their number.
pub(crate) fn save(
    alloc: Global,
    sketch: &Sketch,
    to: &mut [u8],
    size: &mut usize,
) -> Result<(), Refusal>
    ensures { IsSaved sketch.now to.old to.new size.old size.new result }
{
    let wanted = sketch.size();
    if to.len() < wanted {
        *size = wanted;
        return Err(Refusal::NoRoom);
    }
    let mut file = Vec::new(alloc);
    if sketch.write(&mut file).is_err() {
        return Err(Refusal::NoMemory);
    }
    to[..wanted].copy_from_slice(&file);
    *size = wanted;
    Ok(())
}
