// Streams that are watched for the sketch of a desk in memory, at depth 2, with a seat for entries
// and one for sums of side 0 at the challenges of 32 zero bytes: the records of the stream that
// adds up to (3, 0, 5, 1), as lines of text.

use crate::growing_tests::begun;
use crate::worked::WATCHED;
use sip_ports::{MemoryDesk, MemoryLink, MemorySource};
use sip_sketch::{SketchPort, SketchStatus, watch};
use sip_stream::{Form, Why};
use std::alloc::Global;
use std::process::Abort;
use std::test::Fail;

pub(crate) const LOG: &[u8] = b"0 0 3\n0 2 5\n0 3 1\n";

// The number of the first record and of the records between two replacements; the stream; which
// calls of the desk and of the stream fail; the status; how many events the desk has then, 155 for
// each replacement; and whether the file is that of all three records.
type Row<'a> = (
    Option<u64>,
    Option<u64>,
    &'a [u8],
    &'a [u64],
    &'a [u64],
    SketchStatus,
    usize,
    bool,
);

const READ_FIRST: SketchStatus = SketchStatus::ReadFault {
    port: SketchPort::First,
};

const READ_SKETCH: SketchStatus = SketchStatus::ReadFault {
    port: SketchPort::Sketch,
};

const WRITE_SKETCH: SketchStatus = SketchStatus::WriteFault {
    port: SketchPort::Sketch,
};

const CUT: SketchStatus = SketchStatus::BadStream {
    at: 2,
    why: Why::Truncated,
};

const START: SketchStatus = SketchStatus::BadStart {
    records: 0,
    is_sum: false,
};

// A sketch of no record.
const ROWS: [Row; 8] = [
    (None, None, LOG, &[], &[], SketchStatus::Wrote, 155, true),
    (
        Some(0),
        Some(1),
        LOG,
        &[],
        &[],
        SketchStatus::Wrote,
        620,
        true,
    ),
    (
        Some(0),
        Some(2),
        LOG,
        &[],
        &[],
        SketchStatus::Wrote,
        310,
        true,
    ),
    (Some(4), None, LOG, &[], &[], START, 0, false),
    (None, None, b"0 0 3\n0 2 5\n0 3", &[], &[], CUT, 155, false),
    (None, None, LOG, &[1], &[], READ_SKETCH, 0, false),
    (None, None, LOG, &[2], &[], WRITE_SKETCH, 0, false),
    (None, None, LOG, &[], &[1], READ_FIRST, 155, false),
];

// A desk with this file, and a stream.
fn ports(alloc: Global, file: &[u8], row: &Row) -> Result<(MemoryDesk, MemorySource), Fail> {
    let link = MemoryLink::new(alloc, Vec::new(alloc), 1, row.3.to_vec(alloc)?);
    let desk = MemoryDesk::new(link, Some(file.to_vec(alloc)?), 0);
    let stream = MemorySource::new(row.2.to_vec(alloc)?, 64, row.4.to_vec(alloc)?);
    Ok((desk, stream))
}

#[test]
fn a_stream_is_watched(rt: HostRuntime) -> Result<(), Fail> {
    for (number, row) in ROWS.iter().enumerate() {
        let (mut desk, mut stream) = ports(rt.alloc(), &begun(), row)?;
        let status = watch(rt.alloc(), Form::Text, row.0, row.1, &mut stream, &mut desk);
        assert!(rt; status == row.5, "status of row {number}");
        assert!(rt; desk.talk().len() == row.6, "events of row {number}");
        let all = desk.file() == Some(WATCHED.as_slice());
        assert!(rt; all == row.7, "file of row {number}");
    }
    Ok(())
}

// What a sketch of the three records has already is not added.
#[test]
fn a_record_is_added_once(rt: HostRuntime) -> Result<(), Fail> {
    let row = &ROWS[1];
    let (mut desk, mut again) = ports(rt.alloc(), &WATCHED, row)?;
    let status = watch(rt.alloc(), Form::Text, row.0, row.1, &mut again, &mut desk);
    assert!(rt; status == SketchStatus::Wrote, "again");
    assert!(rt; desk.file() == Some(WATCHED.as_slice()), "nothing is added");
    let mut shorter = MemorySource::new(LOG[..12].to_vec(rt.alloc())?, 64, Vec::new(rt.alloc()));
    let status = watch(
        rt.alloc(),
        Form::Text,
        Some(0),
        None,
        &mut shorter,
        &mut desk,
    );
    assert!(rt; status == SketchStatus::Behind { at: 2 }, "a shorter log");
    Ok(())
}
