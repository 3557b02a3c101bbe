//! Transcripts by hand: their heads, and ports that fail.

ghost use Rattle.std.specs.Prelude.{◌≤◌};

use crate::audit_frames::{TALK, WIDE};
use crate::facts::expect;
use sip_ports::{MemorySink, MemorySource, Source};
use sip_transcript::{HeadFault, TranscriptReader, show};
use sip_vector::{Query, Side};
use sip_verifier::{Port, Status};
use sip_wire::Version;
use std::alloc::Global;
use std::process::Abort;
use std::test::Fail;

// Two queries at depth 1: a share of side 1, at the challenge 2^61 - 2, and the inner product, at
// the challenge 0.
const TWO_ASKS: [u8; 40] = [
    b'S', b'I', b'P', b'T', 2, 1, 2, //
    4, 0, 10, 6, 1, 0, 0, 0, 1, 0, 0, 0, 2, //
    0x1f, 0xff, 0xff, 0xff, 0xff, 0xff, 0xff, 0xfe, //
    4, 0, 1, 4, //
    0, 0, 0, 0, 0, 0, 0, 0,
];

// Each row: how many bytes of the first transcript there are, and where the field begins that is
// cut.
const CUTS: &[(usize, u64)] = &[
    (0, 0),
    (3, 0),
    (4, 4),
    (5, 5),
    (6, 6),
    (7, 7),
    (9, 7),
    (10, 7),
    (18, 7),
    (19, 19),
    (26, 19),
    (27, 27),
    (34, 27),
];

// Each row: a transcript, the place of a byte of its head, what stands there instead, and where the
// field begins that it is in. Version 2 goes to depth 48, and has a query for a share; 2^61 - 1 is
// no element.
const CHANGES: &[(&[u8], usize, u8, u64)] = &[
    (&TALK, 0, b's', 0),
    (&TALK, 3, b'U', 0),
    (&TALK, 4, 0, 4),
    (&TALK, 4, 3, 4),
    (&TALK, 5, 0, 5),
    (&TALK, 5, 33, 5),
    (&TALK, 6, 0, 6),
    (&TALK, 6, 17, 6),
    (&TALK, 7, 5, 7),
    (&TALK, 7, 0x13, 7),
    (&TALK, 7, 2, 7),
    (&TALK, 9, 10, 7),
    (&TALK, 10, 6, 7),
    (&TALK, 14, 3, 7),
    (&TALK, 18, 4, 7),
    (&TALK, 18, 0, 7),
    (&TALK, 19, 0x20, 19),
    (&TALK, 27, 0xff, 27),
    (&WIDE, 5, 49, 5),
    (&WIDE, 10, 7, 7),
    (&WIDE, 7, 5, 7),
    (&TWO_ASKS, 27, 0xff, 20),
];

fn copied(alloc: Global, bytes: &[u8], kept: usize) -> Result<Vec<u8>, Fail> {
    let mut copy = Vec::new(alloc);
    copy.extend_from_slice(bytes)?;
    copy.truncate(kept);
    Ok(copy)
}

// A list of one call that fails; none fails where it is 0.
fn failing(alloc: Global, call: u64) -> Result<Vec<u64>, Fail> {
    let mut calls = Vec::new(alloc);
    calls.push(call)?;
    Ok(calls)
}

// Whether `show` stops at a field of the head that begins at this place, and has written nothing.
fn is_bad(alloc: Global, bytes: Vec<u8>, chunk: usize, offset: u64) -> bool
    requires { 1 ≤ chunk }
{
    let mut second = MemorySource::new(bytes, chunk, Vec::new(alloc));
    let mut report = MemorySink::new(alloc, chunk, Vec::new(alloc));
    let status = show(alloc, &mut second, &mut report);
    status == Status::BadTranscript { offset } && report.bytes().is_empty()
}

fn expect_cuts(rt: &impl Abort, alloc: Global, chunk: usize) -> Result<(), Fail>
    requires { 1 ≤ chunk }
{
    for (row, (kept, bad)) in CUTS.iter().enumerate() {
        let copy = copied(alloc, &TALK, *kept)?;
        expect(rt, row, &[is_bad(alloc, copy, chunk, *bad)]);
    }
    Ok(())
}

fn expect_changes(rt: &impl Abort, alloc: Global, chunk: usize) -> Result<(), Fail>
    requires { 1 ≤ chunk }
{
    for (row, (bytes, place, byte, bad)) in CHANGES.iter().enumerate() {
        let mut copy = copied(alloc, bytes, bytes.len())?;
        if let Some(slot) = copy.get_mut(*place) {
            *slot = *byte;
        }
        expect(rt, row, &[is_bad(alloc, copy, chunk, *bad)]);
    }
    Ok(())
}

#[test]
fn heads_that_are_cut(rt: HostRuntime) -> Result<(), Fail> {
    expect_cuts(&rt, rt.alloc(), 1)?;
    expect_cuts(&rt, rt.alloc(), 10_000)
}

#[test]
fn fields_with_none_of_their_values(rt: HostRuntime) -> Result<(), Fail> {
    expect_changes(&rt, rt.alloc(), 1)?;
    expect_changes(&rt, rt.alloc(), 10_000)
}

// Of a head: that it is in this version, at this depth, has this length, and leaves so many bytes.
fn is_head(
    alloc: Global,
    bytes: &[u8],
    version: Version,
    depth: u8,
    length: u64,
    left: usize,
) -> Result<bool, Fail> {
    let mut source = MemorySource::new(copied(alloc, bytes, 88)?, 10_000, Vec::new(alloc));
    let head = TranscriptReader::head(&mut source)?;
    let mut rest = [0; 100];
    Ok(
        head.version == version
            && head.depth.get() == depth
            && head.length == length
            && source.read(&mut rest)? == left,
    )
}

#[test]
fn heads_by_hand(rt: HostRuntime) -> Result<(), Fail> {
    let alloc = rt.alloc();
    let mut source = MemorySource::new(copied(alloc, &TWO_ASKS, 40)?, 1, Vec::new(alloc));
    let head = TranscriptReader::head(&mut source)?;
    let share = Query::Share {
        side: Side::Second,
        num: 1,
        den: 2,
    };
    expect(
        &rt,
        0,
        &[
            is_head(alloc, &TALK, Version::One, 2, 35, 41)?,
            is_head(alloc, &WIDE, Version::Two, 2, 43, 45)?,
            is_head(alloc, &TWO_ASKS, Version::Two, 1, 40, 0)?,
            head.queries.as_slice() == [share, Query::Inner].as_slice(),
            head.challenges.as_slice() == [(1 << 61) - 2, 0].as_slice(),
        ],
    );
    Ok(())
}

// With one byte a call the transcript takes 76 calls and the end one; its lines are five writes.
#[test]
fn ports_that_fail(rt: HostRuntime) -> Result<(), Fail> {
    let alloc = rt.alloc();
    for call in 1..=77 {
        let calls = failing(alloc, call)?;
        let mut second = MemorySource::new(copied(alloc, &TALK, 76)?, 1, calls);
        let mut report = MemorySink::new(alloc, 10_000, Vec::new(alloc));
        let status = show(alloc, &mut second, &mut report);
        let wanted = Status::ReadFault { port: Port::Second };
        expect(&rt, call as usize, &[status == wanted]);
    }
    for call in 1..=5 {
        let mut second = MemorySource::new(copied(alloc, &TALK, 76)?, 10_000, Vec::new(alloc));
        let mut report = MemorySink::new(alloc, 10_000, failing(alloc, call)?);
        let status = show(alloc, &mut second, &mut report);
        let wanted = Status::WriteFault { port: Port::Report };
        expect(&rt, call as usize, &[status == wanted]);
    }
    for call in [1, 20, 35] {
        let mut source = MemorySource::new(copied(alloc, &TALK, 76)?, 1, failing(alloc, call)?);
        let stopped = TranscriptReader::head(&mut source).err();
        expect(&rt, call as usize, &[stopped == Some(HeadFault::ReadFault)]);
    }
    Ok(())
}
