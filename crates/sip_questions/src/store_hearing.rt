//! The records of a store, heard by its helper.

ghost use Rattle.std.specs.Prelude.{◌≡◌, ◌<◌, ◌≤◌, [], All, Bool, Err, IsSome, List};
ghost use Rattle.std.specs.Prelude.{false, length, nat_abs};
ghost use Rattle.sip_ports.specs.Ports.{Lasts, Rose};
ghost use Rattle.sip_stream.specs.Reading.{IsAfter};
ghost use Rattle.sip_vector.specs.Splits.{absolute};
ghost use Rattle.sip_vector.specs.Streams.{most_weight};
ghost use Rattle.sip_vector.specs.Tallies.{tally};
ghost use Rattle.sip_vector.specs.declared.update.Update.{Update as AnyUpdate};
ghost use Rattle.sip_wire.specs.declared.message.Message.TheVariants as messages;
ghost use Rattle.sip_helper.specs.Turns.{fresh, step};
ghost use Rattle.sip_questions.specs.StoreFronts.{HearsRecords, Recalls, heard_of};
ghost use Rattle.sip_questions.specs.StoreFronts.{held_by};
ghost use Rattle.sip_questions.specs.inside.StoreHearing.{HearsFront, HearsSome, IsAsFar};
ghost use Rattle.sip_questions.specs.inside.StoreHearing.{TakesSome};

use crate::StoreStatus;
use sip_helper::HelperCore;
use sip_ports::Source;
use sip_stream::{Form, Reader, StreamFault};
use sip_vector::{Side, Tally, Update};
use sip_wire::{Held, MOST_ROWS, Message};
use std::alloc::Global;

/// Takes records off a store to the front of a block: those that the source holds whole, as many as
/// there is room for, or else the next one. None come only where there are no more.
pub(crate) fn take_some<A: Source>(
    reader: &mut Reader,
    first: &mut A,
    block: &mut [Update],
) -> Result<usize, StreamFault>
    requires room { 0 < length block.old }
    requires ready { reader.old.is_spent ≡ false }
    ensures takes { TakesSome reader.old reader.new (A.left first.old) (A.left first.new)
        block.new result }
    ensures len { length block.new ≡ length block.old }
    ensures told { IsSome (A.left first.old) → IsSome (A.left first.new) }
    ensures cause { result ≡ Err StreamFault.ReadFault
        → Rose (A.faults first.old) (A.faults first.new) }
    ensures memory { result ≡ Err StreamFault.OutOfMemory
        → Rose (A.wants first.old) (A.wants first.new) }
    ensures first { Lasts A.faults A.wants A.is_sure first.old first.new }
{
    let held = reader.read_held(first, block);
    if held > 0 {
        return Ok(held);
    }
    let Some(update) = reader.next(first)? else {
        return Ok(0);
    };
    block[0] = update;
    Ok(1)
}

// An update by the size of a delta.
fn sized(update: &Update) -> Update
    requires { nat_abs update.now.delta ≤ most_weight }
    ensures { result ≡ absolute update.now }
{
    Update {
        side: update.side,
        item: update.item,
        delta: update.delta.unsigned_abs() as i64,
    }
}

// Each delta's size in the place of it, where sizes are heard.
fn take_sizes(block: &mut [Update], sizes: bool)
    requires small { All (λ u. nat_abs u.delta ≤ most_weight) block.old }
    ensures { block.new ≡ heard_of sizes block.old }
{
    if !sizes {
        return;
    }
    for index in 0..block.len() {
        block[index] = sized(&block[index]);
    }
}

// Hears some records of a store, or the sizes of their deltas, no more than a block has room for:
// none only where there are no more.
fn hear_some<A: Source>(
    stream: &mut HelperCore,
    reader: &mut Reader,
    first: &mut A,
    block: &mut [Update],
    sizes: bool,
) -> Result<usize, StreamFault>
    requires room { 0 < length block.old }
    requires far { IsAsFar stream.old reader.old }
    requires behind { (before : List AnyUpdate) × IsAfter reader.old before }
    ensures hears { HearsSome sizes stream.old stream.new reader.old reader.new
        (A.left first.old) (A.left first.new) (length block.old) result }
    ensures len { length block.new ≡ length block.old }
    ensures told { IsSome (A.left first.old) → IsSome (A.left first.new) }
    ensures cause { result ≡ Err StreamFault.ReadFault
        → Rose (A.faults first.old) (A.faults first.new) }
    ensures memory { result ≡ Err StreamFault.OutOfMemory
        → Rose (A.wants first.old) (A.wants first.new) }
    ensures first { Lasts A.faults A.wants A.is_sure first.old first.new }
{
    let came = take_some(reader, first, block)?;
    take_sizes(&mut block[..came], sizes);
    if stream.hear_updates(&block[..came]).is_err() {
        unreachable!()
    }
    Ok(came)
}

// Hears so many records of a store, or the sizes of their deltas, or all where it has fewer, a
// block of them at a time.
fn hear_front<A: Source>(
    stream: &mut HelperCore,
    reader: &mut Reader,
    first: &mut A,
    block: &mut [Update],
    count: u64,
    sizes: bool,
) -> Result<(), StreamFault>
    requires room { 0 < length block.old }
    requires far { IsAsFar stream.old reader.old }
    requires behind { IsAfter reader.old [] }
    ensures hears { HearsFront sizes stream.old stream.new reader.old reader.new
        (A.left first.old) (A.left first.new) count result }
    ensures told { IsSome (A.left first.old) → IsSome (A.left first.new) }
    ensures cause { result ≡ Err StreamFault.ReadFault
        → Rose (A.faults first.old) (A.faults first.new) }
    ensures memory { result ≡ Err StreamFault.OutOfMemory
        → Rose (A.wants first.old) (A.wants first.new) }
    ensures first { Lasts A.faults A.wants A.is_sure first.old first.new }
{
    let mut left = count;
    while left > 0 {
        let most = left.min(block.len() as u64) as usize;
        let came = hear_some(stream, reader, first, &mut block[..most], sizes)?;
        if came == 0 {
            return Ok(());
        }
        left -= came as u64;
    }
    Ok(())
}

/// What is told of no stream.
pub(crate) fn nothing_told() -> Tally
    ensures { result ≡ tally [] }
{
    Tally::default()
}

/// Hears the first `count` records of a store, or the sizes of their deltas, or all where it has
/// fewer, behind an opening, and the end of the stream. Answers what is told of the records.
#[inline(never)]
pub(crate) fn hear_records<A: Source>(
    alloc: Global,
    stream: &mut HelperCore,
    form: Form,
    first: &mut A,
    count: u64,
    sizes: bool,
) -> Result<Tally, StoreStatus>
    requires opened { (r : Recalls) × (refused : Bool)
        × (stream.old ≡ step fresh refused (messages.Open r.number r.depth)) × (count ≡ r.count) }
    ensures hears { (r : Recalls) (refused : Bool)
        → stream.old ≡ step fresh refused (messages.Open r.number r.depth) → count ≡ r.count
        → HearsRecords sizes r form (A.left first.old) (A.left first.new) stream.new result }
    ensures told { IsSome (A.left first.old) → IsSome (A.left first.new) }
    ensures cause { result ≡ Err StoreStatus.ReadFault
        → Rose (A.faults first.old) (A.faults first.new) }
    ensures first { Lasts A.faults A.wants A.is_sure first.old first.new }
{
    let Some(depth) = stream.depth() else {
        unreachable!()
    };
    let Ok(mut block) = vec![in alloc; Update::default(); MOST_ROWS] else {
        return Err(StoreStatus::OutOfMemory);
    };
    let mut reader = Reader::resumed(depth, form, &nothing_told());
    hear_front(stream, &mut reader, first, &mut block, count, sizes)?;
    if stream.hear(&Message::EndStream).is_err() {
        unreachable!()
    }
    if stream.vector(Side::First).is_none() {
        return Err(StoreStatus::OutOfMemory);
    }
    let Some(tally) = reader.tally() else {
        unreachable!()
    };
    Ok(tally)
}

/// What is held by one who has heard records of which this is told.
pub(crate) fn held(told: &Tally) -> Held
    ensures { result ≡ held_by told.now }
{
    Held {
        records: told.count,
        first: told.first,
        second: told.second,
        fingerprint: told.fingerprint.get(),
    }
}
