//! Adds updates as numbers to a sketch: all of them, or none.

ghost use Rattle.std.specs.Prelude.{◌≡◌, ◌≤◌, ◌<◌, ◌+◌, drop, length, take};
ghost use Rattle.sip_c.specs.Updating.{Comes, Updates, place_of};
ghost use Rattle.sip_c.specs.Weighing.{CanCome, updates_of};

use crate::codes::Codes;
use crate::refusal::Refusal;
use crate::testing::first_bad;
use sip_sketch::{MOST_UPDATES, Sketch};
use sip_vector::Update;

// Writes the updates from a place on to the front of a block, as far as there are any and there is
// room, and answers how many.
fn fill<C: Codes>(codes: &C, from: usize, block: &mut [Update]) -> usize
    requires { from ≤ length (C.codes codes.now) }
    ensures len { length block.new ≡ length block.old }
    ensures most { result ≤ length block.old }
    ensures within { from + result ≤ length (C.codes codes.now) }
    ensures some { 0 < length block.old → from < length (C.codes codes.now) → 0 < result }
    ensures filled { take result block.new
        ≡ take result (drop from (updates_of (C.codes codes.now))) }
{
    let count = (codes.count() - from).min(block.len());
    for place in 0..count {
        block[place] = codes.at(from + place).update();
    }
    count
}

// Adds them by the block.
fn add_all<C: Codes>(sketch: &mut Sketch, codes: &C)
    requires { 0 < length (C.codes codes.now) → CanCome (place_of sketch.old) (C.codes codes.now) }
    ensures { Comes sketch.old (C.codes codes.now) sketch.new }
{
    let mut block = [Update::default(); MOST_UPDATES];
    let mut done = 0;
    while done < codes.count() {
        let count = fill(codes, done, &mut block);
        sketch.update_all(&block[..count]);
        done += count;
    }
}

/// Adds updates to a sketch: all of them, or none where one of them may not come, whose place is
/// told. There may be any number of them.
pub(crate) fn update<C: Codes>(
    sketch: &mut Sketch,
    codes: &C,
    at: &mut usize,
) -> Result<(), Refusal>
    ensures { Updates (C.codes codes.now) at.old at.new sketch.old result sketch.new }
{
    let tally = sketch.tally();
    if let Some((place, why)) = first_bad(sketch.depth(), tally.first, tally.second, codes) {
        *at = place;
        return Err(why);
    }
    add_all(sketch, codes);
    Ok(())
}
