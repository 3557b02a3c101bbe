ghost use Rattle.std.specs.Prelude.{◌≤◌};

use crate::facts::expect;
use crate::frames::{
    ASKED_FAULTS, ASKED_FRAMES, ASKED_NUMBERS, FAULTS, FRAMES, NUMBERS, OPENING_FAULTS,
    WIDE_FAULTS, WIDE_FRAMES, WIDE_NUMBERS,
};
use sip_ports::{MemoryLink, MemorySink};
use sip_wire::{Frame, Message, Place, Version, WireFault, decode, encode, frame_length, read};
use std::alloc::Global;
use std::process::Abort;
use std::test::Fail;

// A link that gives these bytes, so many a call and one at least, whose calls of these numbers
// fail, and a frame to receive them.
fn link_of(
    alloc: Global,
    bytes: Vec<u8>,
    chunk: usize,
    fails: Vec<u64>,
) -> Result<(MemoryLink, Frame), Fail> {
    let frame = Frame::new(alloc).ok().ok_or("no memory")?;
    let link = MemoryLink::new(alloc, bytes, chunk.max(1), fails);
    Ok((link, frame))
}

// What `decode` answers to these bytes, and how many of them the frame shows; it shows the front of
// them.
fn fault_of(
    alloc: Global,
    version: Version,
    place: Place,
    bytes: &[u8],
    chunk: usize,
) -> Result<(Option<WireFault>, usize), Fail> {
    let (mut link, mut frame) = link_of(alloc, bytes.to_vec(alloc)?, chunk, Vec::new(alloc))?;
    let fault = decode(&mut link, place, version, &mut frame).err();
    let shown = frame.bytes();
    bytes.starts_with(shown).then_some(()).ok_or("other bytes")?;
    Ok((fault, shown.len()))
}

// A sink to which `encode` wrote the message, in pieces, if it has a spelling.
fn spelled(alloc: Global, version: Version, message: &Message, chunk: usize) -> Option<MemorySink>
    requires { 1 ≤ chunk }
{
    let mut sink = MemorySink::new(alloc, chunk, Vec::new(alloc));
    if !message.fits(version) || encode(message, version, &mut sink).is_err() {
        return None;
    }
    Some(sink)
}

// Whether the frame at a place is decoded, and its message encoded again. Whatever follows stays on
// the link.
fn is_read_and_written(
    alloc: Global,
    version: Version,
    place: Place,
    bytes: &[u8],
    chunk: usize,
) -> Result<bool, Fail> {
    let mut more = bytes.to_vec(alloc)?;
    more.push(0x06)?;
    let (mut link, mut frame) = link_of(alloc, more, chunk, Vec::new(alloc))?;
    let spelling = match decode(&mut link, place, version, &mut frame) {
        Ok(message) => spelled(alloc, version, &message, 1),
        Err(_) => None,
    };
    let is_same = match spelling {
        Some(sink) => sink.bytes() == bytes,
        None => false,
    };
    Ok((frame.bytes() == bytes) & (link.talk().len() == bytes.len()) & is_same)
}

// What `read` answers to bytes that are no more than a frame has.
pub(crate) fn at_hand(
    version: Version,
    place: Place,
    bytes: &[u8],
) -> Option<Result<Message, WireFault>> {
    if bytes.len() < 3 || frame_length(place, version, bytes) < bytes.len() {
        return None;
    }
    Some(read(place, version, bytes))
}

// Whether the fault at hand is that which a link with these bytes would have, where they are enough
// to tell.
fn has_fault_at_hand(version: Version, place: Place, bytes: &[u8], fault: WireFault) -> bool {
    if bytes.len() < 3 {
        return true;
    }
    match at_hand(version, place, bytes) {
        Some(answer) => answer.err() == Some(fault),
        None => false,
    }
}

// The encoding of the message that `read` answers to these bytes.
fn read_back(alloc: Global, version: Version, place: Place, bytes: &[u8]) -> Option<MemorySink> {
    match at_hand(version, place, bytes) {
        Some(Ok(message)) => spelled(alloc, version, &message, 1),
        _ => None,
    }
}

// Whether the frame is not whole yet without its last byte, and with it is read as the message that
// it is the encoding of.
pub(crate) fn is_read_at_hand(alloc: Global, version: Version, place: Place, bytes: &[u8]) -> bool {
    match (bytes, read_back(alloc, version, place, bytes)) {
        ([front @ .., _], Some(sink)) => {
            let is_cut = has_fault_at_hand(version, place, front, WireFault::Closed);
            is_cut & (sink.bytes() == bytes)
        }
        _ => false,
    }
}

fn frames_hold(
    rt: &impl Abort,
    alloc: Global,
    version: Version,
    frames: &[(Place, &[u8])],
) -> Result<(), Fail> {
    for (row, (place, bytes)) in frames.iter().enumerate() {
        let facts = [
            is_read_and_written(alloc, version, *place, bytes, 1)?,
            is_read_and_written(alloc, version, *place, bytes, 10_000)?,
            is_read_at_hand(alloc, version, *place, bytes),
        ];
        expect(rt, row, &facts);
    }
    Ok(())
}

#[test]
fn frames_are_decoded_and_encoded_again(rt: HostRuntime) -> Result<(), Fail> {
    let alloc = rt.alloc();
    frames_hold(&rt, alloc, Version::One, &FRAMES)?;
    frames_hold(&rt, alloc, Version::Two, &WIDE_FRAMES)?;
    frames_hold(&rt, alloc, Version::One, &ASKED_FRAMES)?;
    frames_hold(&rt, alloc, Version::Two, &ASKED_FRAMES)
}

fn faults_hold(
    rt: &impl Abort,
    alloc: Global,
    version: Version,
    faults: &[(Place, &[u8], WireFault, usize)],
) -> Result<(), Fail> {
    for (row, (place, bytes, fault, taken)) in faults.iter().enumerate() {
        let want = (Some(*fault), *taken);
        let is_more = *taken != bytes.len();
        let facts = [
            fault_of(alloc, version, *place, bytes, 1)? == want,
            fault_of(alloc, version, *place, bytes, 10_000)? == want,
            is_more | has_fault_at_hand(version, *place, bytes, *fault),
        ];
        expect(rt, row, &facts);
    }
    Ok(())
}

#[test]
fn faults_are_the_first(rt: HostRuntime) -> Result<(), Fail> {
    let alloc = rt.alloc();
    faults_hold(&rt, alloc, Version::One, &FAULTS)?;
    faults_hold(&rt, alloc, Version::Two, &WIDE_FAULTS)?;
    for version in [Version::One, Version::Two] {
        faults_hold(&rt, alloc, version, &OPENING_FAULTS)?;
        faults_hold(&rt, alloc, version, &ASKED_FAULTS)?;
    }
    Ok(())
}

// The frame of these parts.
fn with_number(alloc: Global, before: &[u8], number: u64, zeros: usize) -> Result<Vec<u8>, Fail> {
    let mut bytes = before.to_vec(alloc)?;
    bytes.extend_from_slice(&number.to_be_bytes())?;
    for _ in 0..zeros {
        bytes.push(0)?;
    }
    Ok(bytes)
}

// Each frame has a number that is out of its range.
fn numbers_hold(
    rt: &impl Abort,
    alloc: Global,
    version: Version,
    rows: &[(Place, &[u8], u64, usize)],
) -> Result<(), Fail> {
    for (row, (place, before, number, zeros)) in rows.iter().enumerate() {
        let bytes = with_number(alloc, before, *number, *zeros)?;
        let want = (Some(WireFault::BadNumber), bytes.len());
        let facts = [
            fault_of(alloc, version, *place, &bytes, 1)? == want,
            fault_of(alloc, version, *place, &bytes, 10_000)? == want,
        ];
        expect(rt, row, &facts);
    }
    Ok(())
}

#[test]
fn numbers_are_in_range(rt: HostRuntime) -> Result<(), Fail> {
    let alloc = rt.alloc();
    numbers_hold(&rt, alloc, Version::One, &NUMBERS)?;
    numbers_hold(&rt, alloc, Version::Two, &WIDE_NUMBERS)?;
    numbers_hold(&rt, alloc, Version::One, &ASKED_NUMBERS)?;
    numbers_hold(&rt, alloc, Version::Two, &ASKED_NUMBERS)
}

// After a failing call the frame shows what came, and the next call goes on behind it.
#[test]
fn a_link_fails_in_mid_frame(rt: HostRuntime) -> Result<(), Fail> {
    let alloc = rt.alloc();
    let bytes = b"\x11\0\x08\0\x06\0\0".to_vec(alloc)?;
    let (mut link, mut frame) = link_of(alloc, bytes, 1, vec![in alloc; 5]?)?;
    let fault = decode(&mut link, Place::Claim, Version::One, &mut frame).err();
    let came = frame.bytes() == b"\x11\0\x08\0".as_slice();
    let next = decode(&mut link, Place::ToHelper, Version::One, &mut frame).ok();
    let facts = [
        fault == Some(WireFault::PeerFault),
        came,
        matches!(next, Some(Message::Bye)),
        frame.bytes() == b"\x06\0\0".as_slice(),
    ];
    expect(&rt, 0, &facts);
    Ok(())
}
