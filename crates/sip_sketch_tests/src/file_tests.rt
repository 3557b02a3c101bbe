// The worked sketch as a file: that it is read and written again, and where each fault of it is.

use crate::worked::WATCHED;
use sip_sketch::{Sketch, SketchFault};
use std::alloc::Global;
use std::process::Abort;

// Where its fields begin.
const FIELDS: [usize; 28] = [
    0, 1, 2, 3, 4, 5, 6, 10, 14, 18, 26, 34, 42, 43, 51, 52, 53, 54, 62, 70, 78, 86, 87, 88, 96,
    104, 112, 120,
];

// A byte that is changed, what it is then, and where the first fault is.
const CHANGED: [(usize, u8, usize); 14] = [
    (3, b'T', 3),
    (4, 2, 4),
    (5, 49, 5),
    (9, 0, 6),
    (13, 2, 10),
    (17, 0, 14),
    (22, 0x40, 18),
    (41, 10, 34),
    (42, 2, 42),
    (51, 0, 51),
    (52, 9, 52),
    (53, 2, 53),
    (54, 0x20, 54),
    (85, 1, 78),
];

// Whether these bytes are no sketch, and this is the place.
fn is_bad(alloc: Global, bytes: &[u8], offset: usize) -> bool {
    match Sketch::read(alloc, bytes) {
        Ok(_) => false,
        Err(fault) => fault == SketchFault::Bad { offset },
    }
}

#[test]
fn a_sketch_is_read_and_written_again(rt: HostRuntime) {
    let sketch = Sketch::read(rt.alloc(), &WATCHED).expect(&rt, "a sketch");
    let mut bytes = Vec::new(rt.alloc());
    sketch.write(&mut bytes).expect(&rt, "memory");
    assert!(rt; sketch.size() == 152, "its size");
    assert!(rt; bytes.as_slice() == WATCHED.as_slice(), "its bytes");
}

#[test]
fn a_file_that_is_cut_is_bad_at_the_field(rt: HostRuntime) {
    let mut begins = 0;
    for length in 0..152 {
        if FIELDS.contains(&length) {
            begins = length;
        }
        let cut = &WATCHED[..length];
        assert!(rt; is_bad(rt.alloc(), cut, begins), "{length} bytes");
    }
}

#[test]
fn a_field_with_none_of_its_values_is_bad(rt: HostRuntime) {
    for (row, (at, byte, offset)) in CHANGED.iter().enumerate() {
        let mut bytes = WATCHED;
        if let Some(changed) = bytes.get_mut(*at) {
            *changed = *byte;
        }
        assert!(rt; is_bad(rt.alloc(), &bytes, *offset), "row {row}");
    }
}

// What only the digest shows: a seat that is used, and a byte behind the end.
#[test]
fn a_digest_finds_other_bytes(rt: HostRuntime) {
    let mut used = WATCHED;
    used[53] = 1;
    assert!(rt; is_bad(rt.alloc(), &used, 120), "a seat that is used");
    let mut longer = WATCHED.to_vec(rt.alloc()).expect(&rt, "memory");
    longer.push(0).expect(&rt, "memory");
    assert!(rt; is_bad(rt.alloc(), &longer, 152), "a byte more");
}
