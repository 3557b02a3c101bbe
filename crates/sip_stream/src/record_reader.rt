//! Records of bytes.

ghost use Rattle.std.specs.Prelude.{◌≡◌, ◌≤◌, ◌==◌, ℕ, List, Some, IsSome, length, if◌then◌else◌};
ghost use Rattle.sip_ports.specs.Ports.{HasCause};
ghost use Rattle.sip_vector.specs.declared.update.Side.TheVariants.{First, Second};
ghost use Rattle.sip_stream.specs.Layouts.{of_bytes, record_size};
ghost use Rattle.sip_stream.specs.Records.{record_at};
ghost use Rattle.sip_stream.specs.Pieces.{ReadsPiece, record_said};

use crate::Why;
use crate::record_bytes::{MOST_RECORD, size_of};
use byteorder::{BigEndian, ByteOrder};
use sip_ports::{PortStop, Source, read_exact_into};
use sip_vector::{Side, Update};

/// The side that a number says; each but 0 is read as the second one.
pub(crate) fn side_of(number: u8) -> Side
    ensures { result ≡ if number == 0 then First else Second }
{
    if number == 0 {
        Side::First
    } else {
        Side::Second
    }
}

/// The update that a record says, whose item has so many bytes.
pub(crate) fn update_of<const WIDTH: usize>(bytes: &[u8]) -> Update
    requires some { 1 ≤ WIDTH }
    requires most { WIDTH ≤ 8 }
    requires whole { length bytes.now ≡ record_size WIDTH }
    ensures { result ≡ record_at WIDTH bytes.now }
{
    Update {
        side: side_of(bytes[0]),
        item: BigEndian::read_uint(&bytes[1..], WIDTH),
        delta: BigEndian::read_u64(&bytes[1 + WIDTH..]).cast_signed(),
    }
}

/// What a whole record says, whose item has so many bytes, or why it says no update.
pub(crate) fn said_by<const WIDTH: usize>(bytes: &[u8]) -> Result<Update, Why>
    requires some { 1 ≤ WIDTH }
    requires most { WIDTH ≤ 8 }
    requires whole { length bytes.now ≡ record_size WIDTH }
    ensures { result ≡ record_said WIDTH bytes.now }
{
    if bytes[0] > 1 {
        return Err(Why::BadSide);
    }
    Ok(update_of::<WIDTH>(bytes))
}

// The next record, cut out of the source by reads.
fn read_record<const WIDTH: usize, S: Source>(
    source: &mut S,
) -> Result<Option<Result<Update, Why>>, PortStop>
    requires some { 1 ≤ WIDTH }
    requires most { WIDTH ≤ 8 }
    ensures reads { (bytes : List ℕ) → S.left source.old ≡ Some bytes
        → ReadsPiece (of_bytes WIDTH) bytes (S.left source.new) result }
    ensures told { IsSome (S.left source.old) → IsSome (S.left source.new) }
    ensures cause { HasCause S.faults S.wants S.is_sure source.old source.new result }
{
    let mut buffer = [0; MOST_RECORD];
    let bytes = &mut buffer[..size_of(WIDTH)];
    let came = read_exact_into(source, bytes)?;
    if came == 0 {
        return Ok(None);
    }
    if came < bytes.len() {
        return Ok(Some(Err(Why::Truncated)));
    }
    Ok(Some(said_by::<WIDTH>(bytes)))
}

/// What the next record says, whose item has so many bytes, or why it says no update; `None` at the
/// end. One that the source holds is read where it lies.
pub(crate) fn next_record<const WIDTH: usize, S: Source>(
    source: &mut S,
) -> Result<Option<Result<Update, Why>>, PortStop>
    requires some { 1 ≤ WIDTH }
    requires most { WIDTH ≤ 8 }
    ensures reads { (bytes : List ℕ) → S.left source.old ≡ Some bytes
        → ReadsPiece (of_bytes WIDTH) bytes (S.left source.new) result }
    ensures told { IsSome (S.left source.old) → IsSome (S.left source.new) }
    ensures cause { HasCause S.faults S.wants S.is_sure source.old source.new result }
{
    let size = size_of(WIDTH);
    let held = source.held();
    if held.len() < size {
        return read_record::<WIDTH, S>(source);
    }
    let said = said_by::<WIDTH>(&held[..size]);
    source.skip(size);
    Ok(Some(said))
}
