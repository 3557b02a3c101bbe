//! Rows, one after the other.

ghost use Rattle.std.specs.Prelude.{◌≡◌, ◌≤◌, ◌+◌, ◌++◌, ◌&&◌, true, false, length, OnSome, IfNone};
ghost use Rattle.std.specs.Prelude.{All};
ghost use Rattle.std.specs.List.{flat_map};
ghost use Rattle.arrayvec.specs.ArrayVec.{array_vec_len};
ghost use Rattle.sip_wire.specs.Table.{size, repeat, counted, most_rows, longest_frame};
ghost use Rattle.sip_wire.specs.Spelling.{in_bytes, numbers_in, all_hold, ReadsRows};
ghost use Rattle.sip_wire.specs.Filling.{filled};
ghost use Rattle.sip_wire.specs.Rows.{over, rooms, holds, bytes};

use crate::Version;
use crate::message::WireFault;
use crate::numbers::{Bytes, put_u16, take_u16};
use crate::row::Row;
use arrayvec::ArrayVec;

/// Makes the rows so many, whatever they say. Where they are as many, as those of one frame after
/// another mostly are, nothing is written: to clear them would be to write all of them.
fn make_rows<T: Row + Drop, const CAP: usize>(rows: &mut ArrayVec<T, CAP>, count: usize)
    requires { count ≤ CAP }
    ensures { length rows.new.items ≡ count }
{
    if rows.len() == count {
        return;
    }
    rows.clear();
    for _ in 0..count {
        rows.push(T::default());
    }
}

/// So many rows, if each number is one that its field may hold. They lie where the rows before lay.
pub fn fill_rows<T: Row + Drop, const CAP: usize>(
    version: Version,
    count: usize,
    bytes: &[u8],
    rows: &mut ArrayVec<T, CAP>,
) -> Option<()>
    requires room { count ≤ CAP }
    requires whole { length bytes.now ≡ size (repeat count (T.layout version)) }
    ensures count { OnSome result (length rows.new.items ≡ count) }
    ensures said { OnSome result (flat_map T.said rows.new.items
        ≡ numbers_in (repeat count (T.layout version)) bytes.now) }
    ensures some { OnSome result (all_hold (repeat count (T.layout version))
        (numbers_in (repeat count (T.layout version)) bytes.now) ≡ true) }
    ensures in_range { OnSome result (All T.in_range rows.new.items) }
    ensures none { IfNone result (all_hold (repeat count (T.layout version))
        (numbers_in (repeat count (T.layout version)) bytes.now) ≡ false) }
{
    make_rows(rows, count);
    let mut rest = bytes;
    for index in 0..count {
        let (row, after) = T::take(version, rest)?;
        rows.as_mut_slice()[index] = row;
        rest = after;
    }
    Some(())
}

/// Whether each row fits.
pub fn rows_fit<T: Row>(version: Version, rows: &[T]) -> bool
    ensures { result ≡ (rooms T.said (T.layout version) rows.now
        && holds T.said (T.layout version) rows.now) }
{
    for row in rows {
        if !row.fits(version) {
            return false;
        }
    }
    true
}

/// Appends the rows' bytes.
pub fn put_rows<T: Row>(version: Version, rows: &[T], out: &mut Bytes)
    requires fits { rooms T.said (T.layout version) rows.now ≡ true }
    requires room { array_vec_len out.old + size (over (T.layout version) rows.now)
        ≤ longest_frame }
    ensures bytes { out.new.items ≡ out.old.items ++ bytes T.said (T.layout version) rows.now }
{
    for row in rows {
        row.put(version, out);
    }
}

/// Reads the rows of a body that begins with their count, in place of those before. `BadCount`
/// where the body is not of this count, which is 1 to `CAP`, else `BadNumber` where a field may not
/// hold its number.
#[tactic(auto, using(crate::proofs::Counting::size_repeat), unfolding(crate::specs::Spelling::body_fault))]
pub fn fill_counted<T: Row + Drop, const CAP: usize>(
    version: Version,
    body: &[u8],
    rows: &mut ArrayVec<T, CAP>,
) -> Result<(), WireFault>
    requires { 2 ≤ length body.now }
    ensures { ReadsRows T.said T.in_range (counted CAP (T.layout version)) body.now
        (filled rows.new result) }
{
    let (count, rest) = take_u16(body);
    let count = count as usize;
    if count < 1 || count > CAP || body.len() != 2 + count * T::size(version) {
        return Err(WireFault::BadCount);
    }
    match fill_rows(version, count, rest, rows) {
        Some(()) => Ok(()),
        None => Err(WireFault::BadNumber),
    }
}

/// Appends the count of the rows, and their bytes.
#[tactic(auto, using(std::proofs::lemmas::Grind::common_steps))]
pub fn put_counted<T: Row>(version: Version, rows: &[T], out: &mut Bytes)
    requires fits { rooms T.said (T.layout version) rows.now ≡ true }
    requires count { length rows.now ≤ most_rows }
    requires room { array_vec_len out.old + (2 + size (over (T.layout version) rows.now))
        ≤ longest_frame }
    ensures { out.new.items ≡ out.old.items ++ (in_bytes 2 (length rows.now)
        ++ bytes T.said (T.layout version) rows.now) }
{
    put_u16(out, rows.len() as u16);
    put_rows(version, rows, out);
}
