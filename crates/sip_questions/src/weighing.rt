//! A store that is read again, for the sizes of its deltas.

ghost use Rattle.std.specs.Prelude.{◌≡◌, ◌<◌, [], IfSome, IsTrue, List, length};
ghost use Rattle.sip_ports.specs.Ports.{Lasts};
ghost use Rattle.sip_stream.specs.Reading.{IsAfter};
ghost use Rattle.sip_vector.specs.Tallies.{tally};
ghost use Rattle.sip_vector.specs.declared.update.Update.{Update as AnyUpdate};
ghost use Rattle.sip_questions.specs.StoreFronts.{Recalls};
ghost use Rattle.sip_questions.specs.inside.StoreHearing.{ReadsFront};
ghost use Rattle.sip_questions.specs.inside.StoreTurns.{AreSizes, IsReadTwice, WeighsStore};

use crate::sizes::Sizes;
use crate::store_hearing::{hear_records, held, nothing_told, take_some};
use sip_helper::HelperCore;
use sip_ports::Source;
use sip_stream::{Form, Reader, StreamFault};
use sip_vector::{Depth, Negatives, Tally, Update};
use sip_wire::{MOST_ROWS, Message};
use std::alloc::Global;

// Reads so many records of a store, or all where it has fewer, a block of them at a time.
fn read_front<B: Source>(
    reader: &mut Reader,
    again: &mut B,
    block: &mut [Update],
    count: u64,
) -> Result<(), StreamFault>
    requires room { 0 < length block.old }
    requires behind { IsAfter reader.old [] }
    ensures reads { ReadsFront reader.old reader.new (B.left again.old) (B.left again.new) count
        result }
    ensures again { Lasts B.faults B.wants B.is_sure again.old again.new }
{
    let mut left = count;
    while left > 0 {
        let most = left.min(block.len() as u64) as usize;
        let came = take_some(reader, again, &mut block[..most])?;
        if came == 0 {
            return Ok(());
        }
        left -= came as u64;
    }
    Ok(())
}

// Reads the first `count` records of a store once more, or all where it has fewer: whether they
// come to the same as those of which this is told.
#[inline(never)]
fn is_same_again<B: Source>(
    alloc: Global,
    depth: Depth,
    form: Form,
    again: &mut B,
    count: u64,
    told: &Tally,
) -> bool
    ensures same { IsTrue result → (r : Recalls) (us : List AnyUpdate) → r.depth ≡ depth
        → r.count ≡ count → told.now ≡ tally us
        → IsReadTwice r form (B.left again.old) (B.left again.new) us }
    ensures again { Lasts B.faults B.wants B.is_sure again.old again.new }
{
    let Ok(mut block) = vec![in alloc; Update::default(); MOST_ROWS] else {
        return false;
    };
    let mut reader = Reader::resumed(depth, form, &nothing_told());
    if read_front(&mut reader, again, &mut block, count).is_err() {
        return false;
    }
    match reader.tally() {
        Some(came) => held(&came) == held(told),
        None => false,
    }
}

// Hears the sizes of the deltas of the first `count` records of a store, or of all where it has
// fewer: what has heard them, where the records come to the same as those of which this is told.
#[inline(never)]
fn weigh_store<B: Source>(
    alloc: Global,
    depth: Depth,
    form: Form,
    again: &mut B,
    count: u64,
    told: &Tally,
) -> Option<Box<HelperCore>>
    requires recalls { (r : Recalls) × (r.number ≡ 2) × (r.depth ≡ depth) × (r.count ≡ count) }
    ensures weighs { (r : Recalls) (us : List AnyUpdate) → r.number ≡ 2 → r.depth ≡ depth
        → r.count ≡ count → told.now ≡ tally us → IfSome result (λ weights.
        WeighsStore r form (B.left again.old) (B.left again.new) us weights.value) }
    ensures again { Lasts B.faults B.wants B.is_sure again.old again.new }
{
    let mut weights = HelperCore::new(alloc);
    let depth = depth.get();
    if weights.hear(&Message::Open { version: 2, depth }).is_err() {
        return None;
    }
    match hear_records(alloc, &mut weights, form, again, count, true) {
        Ok(came) if held(&came) == held(told) => Box::new(alloc, weights).ok(),
        _ => None,
    }
}

/// Reads the first `count` records of a store once more, or all where it has fewer: what is known
/// then of the sizes of the deltas of those of which this is told, which were heard first. Nothing
/// is where these records do not come to the same, the store can't be read, or memory is refused.
/// Where no delta was below 0 nothing more is heard: the entries are their own weights.
pub(crate) fn sizes_again<B: Source>(
    alloc: Global,
    depth: Depth,
    form: Form,
    again: &mut B,
    count: u64,
    told: &Tally,
) -> Sizes
    requires recalls { (r : Recalls) × (r.number ≡ 2) × (r.depth ≡ depth) × (r.count ≡ count) }
    ensures sizes { (r : Recalls) (us : List AnyUpdate) → r.number ≡ 2 → r.depth ≡ depth
        → r.count ≡ count → told.now ≡ tally us
        → AreSizes r form (B.left again.old) (B.left again.new) us result }
    ensures again { Lasts B.faults B.wants B.is_sure again.old again.new }
{
    if told.negatives != Negatives::default() {
        return match weigh_store(alloc, depth, form, again, count, told) {
            Some(weights) => Sizes::Heard(weights),
            None => Sizes::Unheard,
        };
    }
    if is_same_again(alloc, depth, form, again, count, told) {
        Sizes::Deltas
    } else {
        Sizes::Unheard
    }
}
