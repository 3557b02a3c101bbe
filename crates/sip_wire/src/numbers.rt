//! Numbers as bytes, the high byte first: taken off the front, and put behind others.
#![tactic(auto, unfolding(crate::specs::Spelling::in_bytes))]

ghost use Rattle.std.specs.Prelude.{◌≡◌, ◌≤◌, ◌<◌, ◌^◌, ◌+◌, ◌++◌, length, drop};
ghost use Rattle.byteorder.specs.Endian.{big_number};
ghost use Rattle.arrayvec.specs.ArrayVec.{array_vec_len};
ghost use Rattle.sip_wire.specs.Table.{is_element as element, is_small as small};
ghost use Rattle.sip_wire.specs.Spelling.{in_bytes};
ghost use Rattle.sip_wire.specs.Versions.{index_width};

use crate::Version;
use crate::frame::LONGEST_FRAME;
use arrayvec::ArrayVec;
use byteorder::{BigEndian, ByteOrder};
use sip_field::{Field, M61};
use sip_vector::CAP;

/// The bytes of any frame that is being written.
pub type Bytes = ArrayVec<u8, LONGEST_FRAME>;

/// How many bytes a query and its challenges have at most: the frame of one about a range has 21
/// with wide items, and each challenge has 8.
pub const LONGEST_ASK: usize = 21 + 8 * CAP;

/// The bytes of a query that is being written, and of its challenges.
pub type AskBytes = ArrayVec<u8, LONGEST_ASK>;

/// Whether a number is an element of the field.
pub fn is_element(number: u64) -> bool
    ensures { result ≡ element number }
{
    number < M61::MODULUS
}

/// Whether a number is the two's complement of one that a claim may be.
pub fn is_small(number: u64) -> bool
    ensures { result ≡ small number }
{
    number.cast_signed().unsigned_abs() <= M61::HALF
}

/// The byte at the front, and what follows.
pub fn take_u8(bytes: &[u8]) -> (u8, &[u8])
    requires { 1 ≤ length bytes.now }
    ensures number { result.0 ≡ big_number 1 bytes.now }
    ensures rest { result.1.now ≡ drop 1 bytes.now }
{
    (bytes[0], &bytes[1..])
}

/// The number in the first two bytes, and what follows.
pub fn take_u16(bytes: &[u8]) -> (u16, &[u8])
    requires { 2 ≤ length bytes.now }
    ensures number { result.0 ≡ big_number 2 bytes.now }
    ensures rest { result.1.now ≡ drop 2 bytes.now }
{
    (BigEndian::read_u16(bytes), &bytes[2..])
}

/// The number in the first four bytes, and what follows.
pub fn take_u32(bytes: &[u8]) -> (u32, &[u8])
    requires { 4 ≤ length bytes.now }
    ensures number { result.0 ≡ big_number 4 bytes.now }
    ensures rest { result.1.now ≡ drop 4 bytes.now }
{
    (BigEndian::read_u32(bytes), &bytes[4..])
}

/// The number in the first eight bytes, and what follows.
pub fn take_u64(bytes: &[u8]) -> (u64, &[u8])
    requires { 8 ≤ length bytes.now }
    ensures number { result.0 ≡ big_number 8 bytes.now }
    ensures rest { result.1.now ≡ drop 8 bytes.now }
{
    (BigEndian::read_u64(bytes), &bytes[8..])
}

/// The index at the front, and what follows.
pub fn take_index(version: Version, bytes: &[u8]) -> (u64, &[u8])
    requires { index_width version ≤ length bytes.now }
    ensures number { result.0 ≡ big_number (index_width version) bytes.now }
    ensures rest { result.1.now ≡ drop (index_width version) bytes.now }
{
    match version {
        Version::One => {
            let (index, rest) = take_u32(bytes);
            (index as u64, rest)
        }
        Version::Two => take_u64(bytes),
    }
}

/// Appends bytes that there is room for.
fn put_all<const ROOM: usize>(out: &mut ArrayVec<u8, ROOM>, bytes: &[u8])
    requires { array_vec_len out.old + length bytes.now ≤ ROOM }
    ensures bytes { out.new.items ≡ out.old.items ++ bytes.now }
    ensures len { array_vec_len out.new ≡ array_vec_len out.old + length bytes.now }
{
    let _ = out.try_extend_from_slice(bytes);
}

/// Appends a byte.
pub fn put_u8<const ROOM: usize>(out: &mut ArrayVec<u8, ROOM>, n: u8)
    requires { array_vec_len out.old + 1 ≤ ROOM }
    ensures bytes { out.new.items ≡ out.old.items ++ in_bytes 1 n }
    ensures len { array_vec_len out.new ≡ array_vec_len out.old + 1 }
{
    put_all(out, &n.to_be_bytes());
}

/// Appends a number of two bytes.
pub fn put_u16<const ROOM: usize>(out: &mut ArrayVec<u8, ROOM>, n: u16)
    requires { array_vec_len out.old + 2 ≤ ROOM }
    ensures bytes { out.new.items ≡ out.old.items ++ in_bytes 2 n }
    ensures len { array_vec_len out.new ≡ array_vec_len out.old + 2 }
{
    put_all(out, &n.to_be_bytes());
}

/// Appends a number of four bytes.
pub fn put_u32<const ROOM: usize>(out: &mut ArrayVec<u8, ROOM>, n: u32)
    requires { array_vec_len out.old + 4 ≤ ROOM }
    ensures bytes { out.new.items ≡ out.old.items ++ in_bytes 4 n }
    ensures len { array_vec_len out.new ≡ array_vec_len out.old + 4 }
{
    put_all(out, &n.to_be_bytes());
}

/// Appends a number of eight bytes.
pub fn put_u64<const ROOM: usize>(out: &mut ArrayVec<u8, ROOM>, n: u64)
    requires { array_vec_len out.old + 8 ≤ ROOM }
    ensures bytes { out.new.items ≡ out.old.items ++ in_bytes 8 n }
    ensures len { array_vec_len out.new ≡ array_vec_len out.old + 8 }
{
    put_all(out, &n.to_be_bytes());
}

/// Appends an index.
pub fn put_index<const ROOM: usize>(version: Version, out: &mut ArrayVec<u8, ROOM>, index: u64)
    requires fits { index < 256 ^ index_width version }
    requires room { array_vec_len out.old + index_width version ≤ ROOM }
    ensures bytes { out.new.items ≡ out.old.items ++ in_bytes (index_width version) index }
    ensures len { array_vec_len out.new ≡ array_vec_len out.old + index_width version }
{
    match version {
        Version::One => put_u32(out, index as u32),
        Version::Two => put_u64(out, index),
    }
}
