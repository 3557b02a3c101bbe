// The lines by which sketches are shown, and what is no sketch. The lines were written by hand.

use crate::absorbing_tests::{ALL_KINDS, USED_PART};
use crate::worked::WATCHED;
use sip_ports::MemorySink;
use sip_sketch::{MemoryFiles, SketchPort, SketchStatus, seats};
use std::alloc::Global;
use std::process::Abort;
use std::test::Fail;

const WATCHED_LINES: &str = "depth 2
parts 1 to 1 of 1
records 3 weights 9 0 fingerprint b8261ae7db4fab00
negatives none
seat 1 entries unused
seat 2 sums:0 unused
";

const ALL_LINES: &str = "depth 2
parts 1 to 2 of 2
records 6 weights 9 7 fingerprint dfa14b6d3e515214
negatives 1
seat 1 entries unused
seat 2 sums:0 unused
seat 3 sums:1 unused
seat 4 products unused
seat 5 heavy:0 unused
seat 6 heavy:1 unused
seat 7 above:0 unused
seat 8 above:1 unused
";

const USED_LINES: &str = "depth 2
parts 1 to 1 of 2
records 2 weights 8 0 fingerprint 9b1b0603004e1b13
negatives none
seat 1 entries used
seat 2 sums:0 unused
";

// The report takes so many bytes a call.
const PIECE: usize = 100;

const BAD_AT_0: SketchStatus = SketchStatus::BadSketch { part: 0, offset: 0 };

const BAD_AT_3: SketchStatus = SketchStatus::BadSketch { part: 0, offset: 3 };

const READ_SKETCH: SketchStatus = SketchStatus::ReadFault {
    port: SketchPort::Sketch,
};

const WRITE_REPORT: SketchStatus = SketchStatus::WriteFault {
    port: SketchPort::Report,
};

// What the file has, the load and the write that fail, the status, and the lines.
type Row = (Option<&'static [u8]>, u64, u64, SketchStatus, &'static str);

const ROWS: [Row; 9] = [
    (Some(&WATCHED), 0, 0, SketchStatus::Wrote, WATCHED_LINES),
    (Some(&ALL_KINDS), 0, 0, SketchStatus::Wrote, ALL_LINES),
    (Some(&USED_PART), 0, 0, SketchStatus::Wrote, USED_LINES),
    (None, 0, 0, BAD_AT_0, ""),
    (Some(&[]), 0, 0, BAD_AT_0, ""),
    (Some(&[0x53, 0x49, 0x50]), 0, 0, BAD_AT_3, ""),
    (Some(&WATCHED), 1, 0, READ_SKETCH, ""),
    (Some(&WATCHED), 0, 1, WRITE_REPORT, ""),
    (Some(&WATCHED), 2, 2, WRITE_REPORT, WATCHED_LINES),
];

// Files of which the first is this one.
fn files(alloc: Global, file: Option<&[u8]>, fails: u64) -> Result<MemoryFiles, Fail> {
    let file = match file {
        None => None,
        Some(bytes) => Some(bytes.to_vec(alloc)?),
    };
    let mut list = Vec::new(alloc);
    list.push(file)?;
    Ok(MemoryFiles::new(list, vec![in alloc; fails]?))
}

#[test]
fn a_sketch_is_shown_without_its_secrets(rt: HostRuntime) -> Result<(), Fail> {
    let alloc = rt.alloc();
    for (number, row) in ROWS.iter().enumerate() {
        let mut files = files(alloc, row.0, row.1)?;
        let mut report = MemorySink::new(alloc, PIECE, vec![in alloc; row.2]?);
        let status = seats(alloc, &mut files, &mut report);
        assert!(rt; status == row.3, "the status of row {number}");
        let lines = row.4.as_bytes();
        let shown = if row.2 == 2 {
            &lines[..lines.len().min(PIECE)]
        } else {
            lines
        };
        assert!(rt; report.bytes() == shown, "the lines of row {number}");
    }
    Ok(())
}
