//! Updates as the records of a file.

ghost use Rattle.std.specs.Prelude.{◌≡◌, ◌≤◌, ◌+◌, ◌*◌, drop, length, take, IfErr, IfOk, Some};
ghost use Rattle.sip_stream.specs.Layouts.{record_size};
ghost use Rattle.sip_c.specs.Records.{AreRecords, ByRecords, code_of, codes_of, width_of};

use crate::codes::{Codes, UpdateCode};
use crate::refusal::Refusal;
use byteorder::{BigEndian, ByteOrder};

// How many bytes the item has in a binary record.
const NARROW: usize = 4;

// How many bytes the item has in a wide record.
const WIDE: usize = 8;

// How many bytes a record has whose item has so many: the side one more, and the delta eight.
fn size_of(width: usize) -> usize
    requires { width ≤ 8 }
    ensures { result ≡ record_size width }
{
    1 + width + 8
}

// What a record says, whose item has so many bytes.
fn code_of(width: usize, bytes: &[u8]) -> UpdateCode
    requires some { 1 ≤ width }
    requires most { width ≤ 8 }
    requires whole { length bytes.now ≡ record_size width }
    ensures { result ≡ code_of width bytes.now }
{
    UpdateCode {
        item: BigEndian::read_uint(&bytes[1..], width),
        delta: BigEndian::read_u64(&bytes[1 + width..]).cast_signed(),
        side: bytes[0],
    }
}

// The piece of this number of some bytes, each of which has this size.
fn piece(bytes: &[u8], number: usize, size: usize) -> &[u8]
    requires { number * size + size ≤ length bytes.now }
    ensures { result.now ≡ take size (drop (number * size) bytes.now) }
{
    &bytes[number * size..][..size]
}

/// Records that lie one behind the other, whose items have so many bytes.
#[derive(Drop)]
pub(crate) struct Records<'a> {
    pub(crate) width: usize,
    pub(crate) bytes: &'a [u8],
    pub(crate) ghost some: { 1 ≤ width },
    pub(crate) ghost most: { width ≤ 8 },
}

// How many bytes the item has in a record of the form of this code.
fn width_of(form: u8) -> Option<usize>
    ensures { result ≡ width_of form }
{
    match form {
        1 => Some(NARROW),
        2 => Some(WIDE),
        _ => None,
    }
}

/// Bytes as records of the form of this code; or why they are none.
pub(crate) fn records_of(form: u8, bytes: &[u8]) -> Result<Records<'_>, Refusal>
    ensures found { IfOk result (λ records. (width_of form ≡ Some records.width)
        × AreRecords records.width bytes.now × (records.bytes.now ≡ bytes.now)) }
    ensures why { IfErr result (λ why. ByRecords form bytes.now (λ because. why ≡ because)
        (λ _. ⊥)) }
{
    let Some(width) = width_of(form) else {
        return Err(Refusal::BadCode);
    };
    if bytes.len() % size_of(width) != 0 {
        return Err(Refusal::BadLength);
    }
    Ok(Records { width, bytes })
}

impl<'a> Codes for Records<'a> {
    ghost use Rattle.sip_c.specs.Records.{codes_of};

    ghost codes = { λ r. codes_of r.width r.bytes.now };

    fn count(&self) -> usize {
        self.bytes.len() / size_of(self.width)
    }

    fn at(&self, place: usize) -> UpdateCode {
        code_of(self.width, piece(self.bytes, place, size_of(self.width)))
    }
}
