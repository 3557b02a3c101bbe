//! Helpers over links in memory: how they end, and what they send.

ghost use Rattle.std.specs.Prelude.{◌≤◌};

use crate::events::sent_in;
use sip_field::OutOfMemory;
use sip_ports::MemoryLink;
use std::alloc::Global;

/// What serves a talk.
pub trait Server {
    /// How a talk ended.
    type End: Copy + PartialEq;

    /// Serves it to its end.
    fn serve(alloc: Global, link: &mut MemoryLink) -> Self::End;
}

/// What a helper receives, part by part, how the talk ends, and what it sends, part by part.
pub type Talk<'a, E> = (&'a [&'a [u8]], E, &'a [&'a [u8]]);

/// Serves a talk over a link in memory, and answers how it ended and what was sent. `fails` has the
/// numbers of the calls that fail.
pub fn served<S: Server>(
    alloc: Global,
    incoming: &[u8],
    chunk: usize,
    fails: &[u64],
) -> Result<(S::End, Vec<u8>), OutOfMemory>
    requires { 1 ≤ chunk }
{
    let incoming = incoming.to_vec(alloc)?;
    let fails = fails.to_vec(alloc)?;
    let mut link = MemoryLink::new(alloc, incoming, chunk, fails);
    let end = S::serve(alloc, &mut link);
    let sent = sent_in(alloc, link.talk())?;
    Ok((end, sent))
}

/// Whether a talk in pieces of this size ends so, and whether this is sent.
pub fn is_served<S: Server>(
    alloc: Global,
    talk: &[u8],
    chunk: usize,
    end: S::End,
    want: &[u8],
) -> Result<[bool; 2], OutOfMemory>
    requires { 1 ≤ chunk }
{
    let (ended, sent) = served::<S>(alloc, talk, chunk, &[])?;
    Ok([ended == end, sent.as_slice() == want])
}

/// The number of the first of these talks that does not end so, or in which something else is sent,
/// in pieces of one byte or in one piece.
pub fn first_unserved<S: Server>(
    alloc: Global,
    talks: &[Talk<'_, S::End>],
) -> Result<Option<usize>, OutOfMemory> {
    for (row, (parts, end, sent)) in talks.iter().enumerate() {
        let talk = parts.concat(alloc)?;
        let want = sent.concat(alloc)?;
        let by_the_byte = is_served::<S>(alloc, &talk, 1, *end, &want)?;
        let at_once = is_served::<S>(alloc, &talk, 10_000, *end, &want)?;
        if by_the_byte != [true, true] || at_once != [true, true] {
            return Ok(Some(row));
        }
    }
    Ok(None)
}

/// The number of the first call of the link at which a talk does not go as it has to: where one of
/// so many calls fails it ends in the first way, and where none of them does, in the second; and a
/// front of what is sent else is sent. The talk is what the helper receives, part by part, and what
/// it sends.
pub fn first_call_unserved<S: Server>(
    alloc: Global,
    (parts, sent): (&[&[u8]], &[&[u8]]),
    calls: u64,
    (fault, end): (S::End, S::End),
) -> Result<Option<u64>, OutOfMemory> {
    let (talk, whole) = (parts.concat(alloc)?, sent.concat(alloc)?);
    for call in 1..=calls.saturating_add(1) {
        let (ended, sent) = served::<S>(alloc, &talk, 10_000, &[call])?;
        let want = if call <= calls { fault } else { end };
        if ended != want || !whole.starts_with(sent.as_slice()) {
            return Ok(Some(call));
        }
    }
    Ok(None)
}
