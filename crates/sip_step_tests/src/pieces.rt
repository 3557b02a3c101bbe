// Rows of a table whose bytes come in pieces, of one size or cut in two.
ghost use Rattle.std.specs.Prelude.{◌≤◌};

use crate::facts::expect;
use sip_field::OutOfMemory;
use std::alloc::Global;
use std::process::Abort;
use std::test::Fail;

// A row: its name, what the other end says, part by part, and whether bytes in these pieces lead to
// what it has.
pub(crate) trait Row {
    fn name(&self) -> &str;

    fn said(&self) -> &[&[u8]];

    fn is_so(&self, alloc: Global, pieces: &[&[u8]]) -> Result<bool, Fail>;
}

// Bytes in pieces of a size.
fn pieces_of(alloc: Global, bytes: &[u8], size: usize) -> Result<Vec<&[u8]>, OutOfMemory>
    requires { 1 ≤ size }
{
    let mut pieces = Vec::new(alloc);
    for piece in bytes.chunks(size) {
        pieces.push(piece)?;
    }
    Ok(pieces)
}

// A row whose bytes come in pieces of one size.
pub(crate) fn in_pieces<R: Row>(rt: &impl Abort, alloc: Global, row: &R) -> Result<(), Fail> {
    let bytes = row.said().concat(alloc)?;
    let sizes = [
        pieces_of(alloc, &bytes, 1)?,
        pieces_of(alloc, &bytes, 2)?,
        pieces_of(alloc, &bytes, 7)?,
        pieces_of(alloc, &bytes, 100)?,
    ];
    for pieces in sizes.iter() {
        expect(rt, row.name(), &[row.is_so(alloc, pieces)?]);
    }
    Ok(())
}

// A row whose bytes are cut in two, at each byte.
pub(crate) fn cut_in_two<R: Row>(rt: &impl Abort, alloc: Global, row: &R) -> Result<(), Fail> {
    let bytes = row.said().concat(alloc)?;
    for cut in 0..bytes.len() {
        let (front, rest) = bytes.split_at(cut);
        expect(rt, row.name(), &[row.is_so(alloc, &[front, rest])?]);
    }
    Ok(())
}
