//! Frames off a source.

ghost use Rattle.std.specs.Prelude.{◌≡◌, ◌≤◌, Ok, [], true, length, IsSome, OnOk};
ghost use Rattle.sip_ports.specs.Ports.{HasCause};
ghost use Rattle.sip_wire.specs.declared.kind.Place.TheVariants.{ToVerifier};
ghost use Rattle.sip_wire.specs.Frames.{frame_bytes, frame_message};
ghost use Rattle.sip_wire.specs.Table.{longest_frame};
ghost use Rattle.sip_transcript.specs.Frames.{HasFrame, ReadsByte, ReadsReply, TakesMore};

use arrayvec::ArrayVec;
use sip_ports::{PortStop, Source, read_exact_into};
use sip_wire::{Frame, Place, Taken, Version, frame_length};

/// How many bytes of a frame say how many it has.
const FRAME_HEAD: usize = 3;

/// How many bytes of a reply are taken at once.
const PIECE: usize = 1024;

/// What stands next in the replies of a transcript.
#[derive(Drop)]
pub(crate) enum Reply {
    /// Nothing: the source has ended.
    End,
    /// Bytes that begin with no whole frame to a verifier.
    Faulty,
    /// A message to a verifier, which the frame has.
    Said,
}

/// The next byte, or `None` at the end.
pub(crate) fn next_byte<S: Source>(source: &mut S) -> Result<Option<u8>, PortStop>
    ensures reads { ReadsByte (S.left source.old) (S.left source.new) result }
    ensures told { IsSome (S.left source.old) → IsSome (S.left source.new) }
    ensures cause { HasCause S.faults S.wants S.is_sure source.old source.new result }
{
    let mut byte = [0];
    let came = read_exact_into(source, &mut byte)?;
    if came == 0 {
        Ok(None)
    } else {
        Ok(Some(byte[0]))
    }
}

/// Adds bytes of a source to a frame until it has so many, or the source ends.
fn take_more<S: Source, const ROOM: usize>(
    source: &mut S,
    upto: usize,
    frame: &mut ArrayVec<u8, ROOM>,
) -> Result<(), PortStop>
    requires room { upto ≤ ROOM }
    requires order { length frame.old.items ≤ upto }
    ensures took { OnOk result (TakesMore (S.left source.old) (S.left source.new)
        frame.old.items frame.new.items upto) }
    ensures told { IsSome (S.left source.old) → IsSome (S.left source.new) }
    ensures cause { HasCause S.faults S.wants S.is_sure source.old source.new result }
{
    while frame.len() < upto {
        let next = next_byte(source)?;
        match next {
            Some(byte) => frame.push(byte),
            None => return Ok(()),
        }
    }
    Ok(())
}

#[tactic(auto, using(crate::proofs::Framing::least_asked))]
/// Takes the next frame at a place, or what the source has of it; `false` where there is no room
/// for as many bytes as it has.
pub(crate) fn take_frame<S: Source, const ROOM: usize>(
    source: &mut S,
    place: Place,
    version: Version,
    frame: &mut ArrayVec<u8, ROOM>,
) -> Result<bool, PortStop>
    requires empty { frame.old.items ≡ [] }
    requires room { 3 ≤ ROOM }
    ensures has { HasFrame place version ROOM (S.left source.old) (S.left source.new)
        frame.new.items result }
    ensures told { IsSome (S.left source.old) → IsSome (S.left source.new) }
    ensures cause { HasCause S.faults S.wants S.is_sure source.old source.new result }
{
    take_more(source, FRAME_HEAD, frame)?;
    if frame.len() < FRAME_HEAD {
        return Ok(true);
    }
    let size = frame_length(place, version, frame.as_slice());
    if size > ROOM {
        return Ok(false);
    }
    take_more(source, size, frame)?;
    Ok(true)
}

/// Takes the next frame of the replies, or what the source has of it.
fn fill<S: Source>(source: &mut S, version: Version, frame: &mut Frame) -> Result<(), PortStop>
    ensures has { OnOk result (HasFrame ToVerifier version longest_frame (S.left source.old)
        (S.left source.new) (frame_bytes frame.new) (Ok true)) }
    ensures told { IsSome (S.left source.old) → IsSome (S.left source.new) }
    ensures cause { HasCause S.faults S.wants S.is_sure source.old source.new result }
{
    frame.clear();
    let mut piece = [0; PIECE];
    loop {
        let room = frame.room(Place::ToVerifier, version).min(PIECE);
        if room == 0 {
            return Ok(());
        }
        let came = source.read(&mut piece[..room])?;
        if came == 0 {
            return Ok(());
        }
        frame.put(Place::ToVerifier, version, &piece[..came]);
    }
}

/// What stands next in the replies. A message, and the bytes that spell it, are then in `frame`.
pub(crate) fn take_reply<S: Source>(
    source: &mut S,
    version: Version,
    frame: &mut Frame,
) -> Result<Reply, PortStop>
    ensures reads { ReadsReply version (S.left source.old) (S.left source.new)
        (frame_bytes frame.new) (frame_message frame.new) result }
    ensures told { IsSome (S.left source.old) → IsSome (S.left source.new) }
    ensures cause { HasCause S.faults S.wants S.is_sure source.old source.new result }
{
    fill(source, version, frame)?;
    if frame.bytes().is_empty() {
        return Ok(Reply::End);
    }
    match frame.judge(Place::ToVerifier, version) {
        Taken::Whole => Ok(Reply::Said),
        Taken::Part | Taken::NoFrame(_) => Ok(Reply::Faulty),
    }
}
