//! An update as a record of bytes.

ghost use Rattle.std.specs.Prelude.{◌≡◌, ◌≢◌, ◌≤◌, ◌<◌, ◌+◌, ◌^◌, ◌++◌, length, take, pos};
ghost use Rattle.arrayvec.specs.ArrayVec.{array_vec_len};
ghost use Rattle.sip_ports.specs.Ports.{HasCause, SendsWhole};
ghost use Rattle.sip_vector.specs.Limits.{most_depth, most_narrow_depth};
ghost use Rattle.sip_stream.specs.Layouts.{record_size};
ghost use Rattle.sip_stream.specs.Spellings.{record_bytes, side_number};

use crate::text::put;
use arrayvec::ArrayVec;
use sip_ports::{PortStop, Sink, write_whole};
use sip_vector::{Side, Update};

/// How many bytes the item has in a binary record.
pub(crate) const NARROW: usize = 4;

/// How many bytes the item has in a wide record.
pub(crate) const WIDE: usize = 8;

/// The most bytes of a record.
pub(crate) const MOST_RECORD: usize = 17;

/// How many bytes a record has whose item has so many: the side one more, and the delta eight.
pub(crate) fn size_of(width: usize) -> usize
    requires { width ≤ 8 }
    ensures size { result ≡ record_size width }
    ensures most { result ≤ MOST_RECORD }
{
    1 + width + 8
}

/// The number that a side is written as.
pub(crate) fn number_of(side: Side) -> u8
    ensures number { result ≡ side_number side }
    ensures bit { result ≤ 1 }
{
    match side {
        Side::First => 0,
        Side::Second => 1,
    }
}

/// Adds the record of an update, whose item has so many bytes, at the end. There is room for it.
/// The bytes are written where they are to lie, once: what is written in parts and read whole right
/// after waits for these parts.
pub(crate) fn put_bytes<const WIDTH: usize, const ROOM: usize>(
    update: &Update,
    gathered: &mut ArrayVec<u8, ROOM>,
)
    requires width { WIDTH ≤ 8 }
    requires item { update.now.item < 256 ^ WIDTH }
    requires room { array_vec_len gathered.old + MOST_RECORD ≤ ROOM }
    ensures { gathered.new.items ≡ gathered.old.items ++ record_bytes WIDTH update.now }
{
    put(gathered, &[number_of(update.side)]);
    put(gathered, &update.item.to_be_bytes()[8 - WIDTH..]);
    put(gathered, &update.delta.to_be_bytes());
}

// Writes bytes over those from a place on.
fn put_part(block: &mut [u8], at: usize, part: &[u8])
    requires { at + length part.now ≤ length block.old }
    ensures put { take (at + length part.now) block.new ≡ take at block.old ++ part.now }
    ensures len { length block.new ≡ length block.old }
{
    block[at..at + part.len()].copy_from_slice(part);
}

/// Writes the record of an update, whose item has so many bytes, over the bytes from a place on.
pub(crate) fn put_at<const WIDTH: usize>(update: &Update, block: &mut [u8], at: usize)
    requires width { WIDTH ≤ 8 }
    requires item { update.now.item < 256 ^ WIDTH }
    requires room { at + record_size WIDTH ≤ length block.old }
    ensures put { take (at + record_size WIDTH) block.new
        ≡ take at block.old ++ record_bytes WIDTH update.now }
    ensures len { length block.new ≡ length block.old }
{
    put_part(block, at, &[number_of(update.side)]);
    put_part(block, at + 1, &update.item.to_be_bytes()[8 - WIDTH..]);
    put_part(block, at + 1 + WIDTH, &update.delta.to_be_bytes());
}

/// The record of an update, whose item has so many bytes.
fn record_of<const WIDTH: usize>(update: &Update) -> ArrayVec<u8, MOST_RECORD>
    requires width { WIDTH ≤ 8 }
    requires item { update.now.item < 256 ^ WIDTH }
    ensures { result.items ≡ record_bytes WIDTH update.now }
{
    let mut record = ArrayVec::new();
    put_bytes::<WIDTH, MOST_RECORD>(update, &mut record);
    record
}

/// Writes an update as one record of 13 bytes, at once and without memory.
///
/// # Errors
///
/// Those of the sink, which a front of the record has then reached that is shorter than it.
pub fn put_record<K: Sink>(update: &Update, sink: &mut K) -> Result<(), PortStop>
    requires item { update.now.item < 2 ^ most_narrow_depth }
    requires delta { update.now.delta ≢ pos 0 }
    ensures talk { SendsWhole (K.talk sink.old) (K.talk sink.new) result
        (record_bytes 4 update.now) }
    ensures cause { HasCause K.faults K.wants K.is_sure sink.old sink.new result }
{
    write_whole(sink, record_of::<NARROW>(update).as_slice())
}

/// Writes an update as one record of 17 bytes, at once and without memory.
///
/// # Errors
///
/// Those of the sink, which a front of the record has then reached that is shorter than it.
pub fn put_wide<K: Sink>(update: &Update, sink: &mut K) -> Result<(), PortStop>
    requires item { update.now.item < 2 ^ most_depth }
    requires delta { update.now.delta ≢ pos 0 }
    ensures talk { SendsWhole (K.talk sink.old) (K.talk sink.new) result
        (record_bytes 8 update.now) }
    ensures cause { HasCause K.faults K.wants K.is_sure sink.old sink.new result }
{
    write_whole(sink, record_of::<WIDE>(update).as_slice())
}
