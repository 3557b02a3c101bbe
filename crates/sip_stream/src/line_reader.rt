//! Records in text, a line each, read where they lie, or else byte by byte.

ghost use Rattle.std.specs.Prelude.{◌≡◌, ◌<◌, ◌≤◌, ℕ, List, [], Some, IfSome, IsSome, length};
ghost use Rattle.arrayvec.specs.ArrayVec.{array_vec_len};
ghost use Rattle.sip_ports.specs.Ports.{HasCause};
ghost use Rattle.sip_stream.specs.Layouts.{of_line};
ghost use Rattle.sip_stream.specs.Pieces.{HoldsLine, ReadsByte, ReadsPiece, TakesLine, line_said};

use crate::Why;
use crate::numbers::{read_numbers, split_at};
use crate::spelled_line::spelled_in_front;
use arrayvec::ArrayVec;
use sip_ports::{PortStop, Source, read_exact_into};
use sip_vector::{Side, Update};

/// The greatest length of a line, its line feed included.
const MOST_LINE: usize = 40;

/// How a line ended.
#[derive(Clone, Copy, Debug, PartialEq, Eq)]
pub(crate) enum LineEnd {
    /// By its line feed.
    Feed,
    /// By the end of the input.
    Input,
    /// By a byte too many.
    TooLong,
}

/// The next byte, or `None` at the end.
fn next_byte<S: Source>(source: &mut S) -> Result<Option<u8>, PortStop>
    ensures reads { (bytes : List ℕ) → S.left source.old ≡ Some bytes
        → ReadsByte bytes (S.left source.new) result }
    ensures told { IsSome (S.left source.old) → IsSome (S.left source.new) }
    ensures cause { HasCause S.faults S.wants S.is_sure source.old source.new result }
{
    let mut byte = [0];
    let came = read_exact_into(source, &mut byte)?;
    if came == 0 {
        Ok(None)
    } else {
        Ok(Some(byte[0]))
    }
}

/// Takes the next line, and keeps what stands in front of the byte that ended it.
fn take_line<S: Source>(
    source: &mut S,
    line: &mut ArrayVec<u8, MOST_LINE>,
) -> Result<LineEnd, PortStop>
    requires { line.old.items ≡ [] }
    ensures takes { (bytes : List ℕ) → S.left source.old ≡ Some bytes
        → TakesLine bytes line.new.items (S.left source.new) result }
    ensures fits { length line.new.items ≤ 40 }
    ensures short { result ≡ Ok LineEnd.Feed → length line.new.items < 40 }
    ensures told { IsSome (S.left source.old) → IsSome (S.left source.new) }
    ensures cause { HasCause S.faults S.wants S.is_sure source.old source.new result }
{
    while let Some(byte) = next_byte(source)? {
        if line.is_full() {
            return Ok(LineEnd::TooLong);
        }
        if byte == b'\n' {
            return Ok(LineEnd::Feed);
        }
        line.push(byte);
    }
    Ok(LineEnd::Input)
}

/// The update that a line says, without its line feed, or why it says none.
fn update_of(line: &[u8]) -> Result<Update, Why>
    requires { length line.now ≤ 39 }
    ensures { result ≡ line_said line.now }
{
    let Some(numbers) = read_numbers(line) else {
        return Err(Why::BadLine);
    };
    if numbers.side > 1 {
        return Err(Why::BadSide);
    }
    Ok(Update {
        side: if numbers.side == 0 {
            Side::First
        } else {
            Side::Second
        },
        item: numbers.item,
        delta: numbers.delta,
    })
}

// The next line, taken byte by byte.
fn read_line<S: Source>(source: &mut S) -> Result<Option<Result<Update, Why>>, PortStop>
    ensures reads { (bytes : List ℕ) → S.left source.old ≡ Some bytes
        → ReadsPiece of_line bytes (S.left source.new) result }
    ensures told { IsSome (S.left source.old) → IsSome (S.left source.new) }
    ensures cause { HasCause S.faults S.wants S.is_sure source.old source.new result }
{
    let mut line = ArrayVec::new();
    match take_line(source, &mut line)? {
        LineEnd::Input if line.is_empty() => Ok(None),
        LineEnd::Input => Ok(Some(Err(Why::Truncated))),
        LineEnd::TooLong => Ok(Some(Err(Why::BadLine))),
        LineEnd::Feed => Ok(Some(update_of(line.as_slice()))),
    }
}

/// What the line in front of the bytes says, and how many bytes it has with its line feed, where it
/// is there whole and is not too long.
pub(crate) fn line_in_front(bytes: &[u8]) -> Option<(Result<Update, Why>, usize)>
    ensures line { IfSome result (λ line. HoldsLine bytes.now line.0 line.1) }
    ensures some { IfSome result (λ line. 0 < line.1) }
    ensures within { IfSome result (λ line. line.1 ≤ length bytes.now) }
{
    if let Some((update, size)) = spelled_in_front(bytes) {
        return Some((Ok(update), size));
    }
    let near = &bytes[..bytes.len().min(MOST_LINE)];
    let Some((line, _)) = split_at(near, b'\n') else {
        return None;
    };
    Some((update_of(line), line.len() + 1))
}

/// What the next line says, or why it says no update; `None` at the end. One that the source holds
/// with its line feed is read where it lies, unless it is too long.
pub(crate) fn next_line<S: Source>(source: &mut S) -> Result<Option<Result<Update, Why>>, PortStop>
    ensures reads { (bytes : List ℕ) → S.left source.old ≡ Some bytes
        → ReadsPiece of_line bytes (S.left source.new) result }
    ensures told { IsSome (S.left source.old) → IsSome (S.left source.new) }
    ensures cause { HasCause S.faults S.wants S.is_sure source.old source.new result }
{
    let held = source.held();
    let Some((said, size)) = line_in_front(held) else {
        return read_line(source);
    };
    source.skip(size);
    Ok(Some(said))
}
