// Frames of what a helper holds and of marks, and a query for large entries of any stream.

use crate::facts::expect;
use crate::frame_tests::{at_hand, is_read_at_hand};
use sip_wire::{Place, Version, WireFault};

const RECALL: &[u8] = b"\x27\0\x08\0\0\0\0\0\0\0\x03";

const HELD: &[u8] =
    b"\x26\0\x20\0\0\0\0\0\0\0\x03\0\0\0\0\0\0\0\x09\0\0\0\0\0\0\0\0\xb8\x26\x1a\xe7\xdb\x4f\xab\0";

const ABOVE: &[u8] = b"\x04\0\x0a\x07\0\0\0\0\0\0\0\0\x03";

const MARK: &[u8] =
    b"\x28\0\x1a\0\x01\0\0\0\0\0\0\0\x02\xff\xff\xff\xff\xff\xff\xff\xf7\0\0\0\0\0\0\0\x09";

#[test]
fn held_records_and_marks_are_read_and_written(rt: HostRuntime) {
    let table = [
        (Version::One, Place::AskedQuestion, RECALL),
        (Version::Two, Place::AskedQuestion, RECALL),
        (Version::One, Place::Held, HELD),
        (Version::Two, Place::Held, HELD),
        (Version::Two, Place::ToHelper, ABOVE),
        (Version::Two, Place::AskedQuestion, ABOVE),
        (Version::Two, Place::Marks, MARK),
    ];
    for (row, (version, place, bytes)) in table.iter().enumerate() {
        let is_read = is_read_at_hand(rt.alloc(), *version, *place, bytes);
        expect(&rt, row, &[is_read]);
    }
}

#[test]
fn held_records_and_marks_have_their_faults(rt: HostRuntime) {
    let table: [(Version, Place, &[u8], WireFault); 12] = [
        (Version::One, Place::Marks, &MARK[..3], WireFault::BadKind),
        (Version::One, Place::ToHelper, ABOVE, WireFault::BadCount),
        (
            Version::Two,
            Place::ToVerifier,
            &MARK[..3],
            WireFault::BadKind,
        ),
        (
            Version::Two,
            Place::ToHelper,
            &RECALL[..3],
            WireFault::BadKind,
        ),
        (Version::Two, Place::Held, b"\x18\0\x01", WireFault::BadKind),
        (
            Version::Two,
            Place::Held,
            b"\x26\0\x1f",
            WireFault::BadLength,
        ),
        (
            Version::Two,
            Place::AskedQuestion,
            b"\x27\0\x04",
            WireFault::BadLength,
        ),
        (
            Version::Two,
            Place::AskedQuestion,
            b"\x23\0\0",
            WireFault::BadKind,
        ),
        // No marks, and 257 of them.
        (
            Version::Two,
            Place::Marks,
            b"\x28\0\x02",
            WireFault::BadLength,
        ),
        (
            Version::Two,
            Place::Marks,
            b"\x28\x18\x1a",
            WireFault::BadLength,
        ),
        // A value above its weight, below 0.
        (
            Version::Two,
            Place::Marks,
            b"\x28\0\x1a\0\x01\0\0\0\0\0\0\0\x02\xff\xff\xff\xff\xff\xff\xff\xf7\0\0\0\0\0\0\0\x08",
            WireFault::BadNumber,
        ),
        // A weight of 2^61 - 1.
        (
            Version::Two,
            Place::Marks,
            b"\x28\0\x1a\0\x01\0\0\0\0\0\0\0\x02\0\0\0\0\0\0\0\x09\x1f\xff\xff\xff\xff\xff\xff\xff",
            WireFault::BadNumber,
        ),
    ];
    for (row, (version, place, bytes, fault)) in table.iter().enumerate() {
        let found = match at_hand(*version, *place, bytes) {
            Some(answer) => answer.err(),
            None => None,
        };
        expect(&rt, row, &[found == Some(*fault)]);
    }
}
