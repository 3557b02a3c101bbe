//! The line of a frame, by the call that has the frame and its message, with ample memory.

use crate::facts::expect;
use sip_ports::{MemoryLink, MemorySink};
use sip_transcript::show_line;
use sip_wire::{Frame, Place, Version, decode};
use std::alloc::Global;

// Whether a frame that comes so has this line.
fn has_line(alloc: Global, version: Version, bytes: &[u8], line: &[u8]) -> bool {
    let (Ok(bytes), Ok(mut frame)) = (bytes.to_vec(alloc), Frame::new(alloc)) else {
        return false;
    };
    let mut link = MemoryLink::new(alloc, bytes, 7, Vec::new(alloc));
    let mut sink = MemorySink::new(alloc, 7, Vec::new(alloc));
    let Ok(message) = decode(&mut link, Place::ToVerifier, version, &mut frame) else {
        return false;
    };
    show_line(&message, &frame, &mut sink).is_ok() && sink.bytes() == line
}

// An entry in both versions, a claim, and the end of a level, which has no body.
#[test]
fn a_frame_has_its_line(rt: HostRuntime) {
    let alloc = rt.alloc();
    let facts = [
        has_line(
            alloc,
            Version::One,
            b"\x13\0\x0e\0\x01\0\0\0\x02\0\0\0\0\0\0\0\x05",
            b"frame Entries 0001000000020000000000000005\n",
        ),
        has_line(
            alloc,
            Version::Two,
            b"\x13\0\x12\0\x01\0\0\0\0\0\0\0\x02\0\0\0\0\0\0\0\x05",
            b"frame Entries 000100000000000000020000000000000005\n",
        ),
        has_line(
            alloc,
            Version::One,
            b"\x11\0\x08\0\0\0\0\0\0\0\x06",
            b"frame Claim 0000000000000006\n",
        ),
        has_line(alloc, Version::One, b"\x17\0\0", b"frame LevelEnd -\n"),
    ];
    expect(&rt, 0, &facts);
}
