//! Updates that are written with ample memory: as records of 13 and of 17 bytes, and as lines.

use crate::facts::expect;
use sip_ports::MemorySink;
use sip_stream::{put_line, put_record, put_wide};
use sip_vector::{Side, Update};
use std::alloc::Global;

// The last item of four bytes loses 1.
const NARROW: Update = Update {
    side: Side::Second,
    item: 0xffff_ffff,
    delta: -1,
};

// The last item of all gets the greatest weight.
const FAR: Update = Update {
    side: Side::First,
    item: 0xffff_ffff_ffff,
    delta: 0x3fff_ffff,
};

// A sink that takes five bytes in a call.
fn sink(alloc: Global) -> MemorySink {
    MemorySink::new(alloc, 5, Vec::new(alloc))
}

fn is_record(alloc: Global, update: &Update, want: &[u8]) -> bool {
    let mut sink = sink(alloc);
    let can = update.item < 1 << 32 && update.delta != 0;
    can && put_record(update, &mut sink).is_ok() && sink.bytes() == want
}

fn is_wide(alloc: Global, update: &Update, want: &[u8]) -> bool {
    let mut sink = sink(alloc);
    let can = update.item < 1 << 48 && update.delta != 0;
    can && put_wide(update, &mut sink).is_ok() && sink.bytes() == want
}

fn is_line(alloc: Global, update: &Update, want: &[u8]) -> bool {
    let mut sink = sink(alloc);
    let can = update.item < 1 << 48 && update.delta != 0;
    can && put_line(update, &mut sink).is_ok() && sink.bytes() == want
}

#[test]
fn updates_are_written_in_each_form(rt: HostRuntime) {
    let alloc = rt.alloc();
    let facts = [
        is_record(
            alloc,
            &NARROW,
            b"\x01\xff\xff\xff\xff\xff\xff\xff\xff\xff\xff\xff\xff",
        ),
        is_wide(
            alloc,
            &NARROW,
            b"\x01\0\0\0\0\xff\xff\xff\xff\xff\xff\xff\xff\xff\xff\xff\xff",
        ),
        is_wide(
            alloc,
            &FAR,
            b"\0\0\0\xff\xff\xff\xff\xff\xff\0\0\0\0\x3f\xff\xff\xff",
        ),
        is_line(alloc, &NARROW, b"1 4294967295 -1\n"),
        is_line(alloc, &FAR, b"0 281474976710655 1073741823\n"),
    ];
    expect(&rt, 0, &facts);
}
