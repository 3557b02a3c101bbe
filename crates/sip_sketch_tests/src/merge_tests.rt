// Parts of a stream that are added up in the sketch of a desk in memory, at the challenges of 32
// zero bytes. The files were worked out by a calculation of their own.

use crate::absorbing_tests::{
    KINDS, Part, TWO_PARTS, USED_OTHER, USED_PART, USED_SUM, kept, of_two, part_of, record,
    three_records,
};
use crate::begin_tests::{desk, keeps_only};
use crate::watch_tests::LOG;
use crate::worked::WATCHED;
use sip_ports::{MemoryDesk, MemorySource};
use sip_sketch::{
    MOST_PARTS, MemoryFiles, SeatKind, SketchPort, SketchStatus, Unlike, merge, watch,
};
use sip_stream::Form;
use sip_vector::Side;
use std::alloc::Global;
use std::process::Abort;
use std::test::Fail;

// Part 1 of two, with two of three records that add up to (3, 0, 5, 1), and with seats for entries
// and for sums of side 0.
const ONE: [u8; 152] = [
    0x53, 0x49, 0x50, 0x4b, 0x01, 0x02, 0x00, 0x00, 0x00, 0x02, 0x00, 0x00, 0x00, 0x01, 0x00, 0x00,
    0x00, 0x01, 0x00, 0x00, 0x00, 0x00, 0x00, 0x00, 0x00, 0x08, 0x00, 0x00, 0x00, 0x00, 0x00, 0x00,
    0x00, 0x00, 0x00, 0x00, 0x00, 0x00, 0x00, 0x00, 0x00, 0x02, 0x00, 0x9b, 0x1b, 0x06, 0x03, 0x00,
    0x4e, 0x1b, 0x13, 0x02, 0x01, 0x00, 0x12, 0x07, 0xbe, 0x34, 0x15, 0xbc, 0x17, 0x0e, 0x05, 0x17,
    0xb0, 0xca, 0x7c, 0xad, 0x4b, 0xa8, 0x19, 0x76, 0x73, 0xf4, 0x6f, 0x62, 0x7a, 0x4b, 0x00, 0x00,
    0x00, 0x00, 0x00, 0x00, 0x00, 0x00, 0x02, 0x00, 0x03, 0x5d, 0xb1, 0xb4, 0x17, 0x03, 0x3a, 0x57,
    0x18, 0xe1, 0xae, 0xf1, 0x79, 0x9d, 0xe6, 0xd5, 0x04, 0x3f, 0x91, 0xe5, 0xf8, 0xdf, 0x56, 0x4d,
    0x00, 0x00, 0x00, 0x00, 0x00, 0x00, 0x00, 0x00, 0xbc, 0x0e, 0x6d, 0x7c, 0xcb, 0x3a, 0x53, 0x9e,
    0x46, 0x10, 0xf7, 0xa6, 0x33, 0xe5, 0x84, 0xb9, 0x51, 0xcd, 0x35, 0x28, 0xe4, 0x0a, 0x87, 0x26,
    0x86, 0x0f, 0x7f, 0x4b, 0x69, 0xeb, 0x04, 0x01,
];

// Part 2, with the third.
const TWO: [u8; 152] = [
    0x53, 0x49, 0x50, 0x4b, 0x01, 0x02, 0x00, 0x00, 0x00, 0x02, 0x00, 0x00, 0x00, 0x02, 0x00, 0x00,
    0x00, 0x02, 0x00, 0x00, 0x00, 0x00, 0x00, 0x00, 0x00, 0x01, 0x00, 0x00, 0x00, 0x00, 0x00, 0x00,
    0x00, 0x00, 0x00, 0x00, 0x00, 0x00, 0x00, 0x00, 0x00, 0x01, 0x00, 0x1d, 0x0b, 0x14, 0xe4, 0xdb,
    0x01, 0x8f, 0xed, 0x02, 0x01, 0x00, 0x12, 0x07, 0xbe, 0x34, 0x15, 0xbc, 0x17, 0x0e, 0x05, 0x17,
    0xb0, 0xca, 0x7c, 0xad, 0x4b, 0xa8, 0x0e, 0xec, 0x3f, 0xc4, 0x40, 0xba, 0x03, 0xd5, 0x00, 0x00,
    0x00, 0x00, 0x00, 0x00, 0x00, 0x00, 0x02, 0x00, 0x03, 0x5d, 0xb1, 0xb4, 0x17, 0x03, 0x3a, 0x57,
    0x18, 0xe1, 0xae, 0xf1, 0x79, 0x9d, 0xe6, 0xd5, 0x01, 0xb5, 0x5b, 0x70, 0x5a, 0xa9, 0x64, 0x2e,
    0x00, 0x00, 0x00, 0x00, 0x00, 0x00, 0x00, 0x00, 0x71, 0x1b, 0xc2, 0xb7, 0xd0, 0xb8, 0x9a, 0xe7,
    0xbf, 0x60, 0x25, 0x82, 0x15, 0xd3, 0xf3, 0xf7, 0xf4, 0x5c, 0x83, 0x65, 0x70, 0x08, 0xcf, 0xd8,
    0xfb, 0x75, 0x9b, 0x9b, 0x0d, 0x48, 0xb0, 0xe7,
];

// Part 1 before any record.
const EMPTY: [u8; 152] = [
    0x53, 0x49, 0x50, 0x4b, 0x01, 0x02, 0x00, 0x00, 0x00, 0x02, 0x00, 0x00, 0x00, 0x01, 0x00, 0x00,
    0x00, 0x01, 0x00, 0x00, 0x00, 0x00, 0x00, 0x00, 0x00, 0x00, 0x00, 0x00, 0x00, 0x00, 0x00, 0x00,
    0x00, 0x00, 0x00, 0x00, 0x00, 0x00, 0x00, 0x00, 0x00, 0x00, 0x00, 0x00, 0x00, 0x00, 0x00, 0x00,
    0x00, 0x00, 0x00, 0x02, 0x01, 0x00, 0x12, 0x07, 0xbe, 0x34, 0x15, 0xbc, 0x17, 0x0e, 0x05, 0x17,
    0xb0, 0xca, 0x7c, 0xad, 0x4b, 0xa8, 0x00, 0x00, 0x00, 0x00, 0x00, 0x00, 0x00, 0x00, 0x00, 0x00,
    0x00, 0x00, 0x00, 0x00, 0x00, 0x00, 0x02, 0x00, 0x03, 0x5d, 0xb1, 0xb4, 0x17, 0x03, 0x3a, 0x57,
    0x18, 0xe1, 0xae, 0xf1, 0x79, 0x9d, 0xe6, 0xd5, 0x00, 0x00, 0x00, 0x00, 0x00, 0x00, 0x00, 0x00,
    0x00, 0x00, 0x00, 0x00, 0x00, 0x00, 0x00, 0x00, 0x56, 0x7c, 0x21, 0x48, 0x84, 0x23, 0x4c, 0xcc,
    0x8d, 0xa7, 0x17, 0xd7, 0x49, 0x65, 0xa6, 0xb2, 0x5a, 0x70, 0x83, 0x73, 0xa7, 0x36, 0xb3, 0x27,
    0xfe, 0xa8, 0x1f, 0xa9, 0x92, 0x0e, 0x03, 0xfc,
];

// The sum of 1,024 parts, with a seat for sums of side 0, of which each of four items comes to 256.
const MANY: [u8; 118] = [
    0x53, 0x49, 0x50, 0x4b, 0x01, 0x02, 0x00, 0x00, 0x04, 0x00, 0x00, 0x00, 0x00, 0x01, 0x00, 0x00,
    0x04, 0x00, 0x00, 0x00, 0x00, 0x00, 0x00, 0x00, 0x04, 0x00, 0x00, 0x00, 0x00, 0x00, 0x00, 0x00,
    0x00, 0x00, 0x00, 0x00, 0x00, 0x00, 0x00, 0x00, 0x04, 0x00, 0x00, 0x8e, 0x20, 0xe8, 0xfb, 0xb9,
    0x11, 0x2b, 0x00, 0x01, 0x02, 0x00, 0x12, 0x07, 0xbe, 0x34, 0x15, 0xbc, 0x17, 0x0e, 0x05, 0x17,
    0xb0, 0xca, 0x7c, 0xad, 0x4b, 0xa8, 0x00, 0x00, 0x00, 0x00, 0x00, 0x00, 0x01, 0x00, 0x00, 0x00,
    0x00, 0x00, 0x00, 0x00, 0x00, 0x00, 0x4f, 0x54, 0x1b, 0x4c, 0xd8, 0xd9, 0xa7, 0xc8, 0x1b, 0xd9,
    0x90, 0xd1, 0x06, 0x9e, 0x9c, 0x0b, 0x2c, 0xec, 0x9b, 0x63, 0x07, 0x80, 0xa8, 0x24, 0xdb, 0xb3,
    0xdb, 0x74, 0xd0, 0xbd, 0xfb, 0x70,
];

// The sum of parts 1 and 2 at the same records, with a used seat for large entries of side 0. Its
// hash is any number, and its total is 9.
const USED_TOTAL: [u8; 118] = [
    0x53, 0x49, 0x50, 0x4b, 0x01, 0x02, 0x00, 0x00, 0x00, 0x02, 0x00, 0x00, 0x00, 0x01, 0x00, 0x00,
    0x00, 0x02, 0x00, 0x00, 0x00, 0x00, 0x00, 0x00, 0x00, 0x09, 0x00, 0x00, 0x00, 0x00, 0x00, 0x00,
    0x00, 0x00, 0x00, 0x00, 0x00, 0x00, 0x00, 0x00, 0x00, 0x03, 0x00, 0xb8, 0x26, 0x1a, 0xe7, 0xdb,
    0x4f, 0xab, 0x00, 0x01, 0x05, 0x01, 0x12, 0x07, 0xbe, 0x34, 0x15, 0xbc, 0x17, 0x0e, 0x05, 0x17,
    0xb0, 0xca, 0x7c, 0xad, 0x4b, 0xa8, 0x00, 0x00, 0x00, 0x00, 0x00, 0x00, 0x00, 0x07, 0x00, 0x00,
    0x00, 0x00, 0x40, 0x00, 0x00, 0x08, 0xfd, 0xe7, 0xec, 0xc9, 0x89, 0xca, 0x1c, 0x96, 0x75, 0xa6,
    0x7a, 0xbe, 0x08, 0xb1, 0xf2, 0xba, 0xec, 0xf3, 0xa5, 0xdd, 0x38, 0x97, 0x89, 0xdb, 0x70, 0xc8,
    0x2c, 0x0d, 0xf6, 0x35, 0x15, 0xfa,
];

// What a file has.
#[derive(Clone, Copy, PartialEq, Eq)]
enum File {
    Missing,
    // no byte
    Nothing,
    // its first three bytes alone
    Cut,
    One,
    Two,
    // part 1 before any record
    Empty,
    // both parts
    Both,
    // the same three with the first seat used
    UsedOne,
    UsedTwo,
    UsedBoth,
    // the only part of a stream
    Only,
}

impl File {
    fn bytes(self, alloc: Global) -> Result<Option<Vec<u8>>, Fail> {
        let bytes = match self {
            File::Missing => return Ok(None),
            File::Nothing => b"".to_vec(alloc),
            File::Cut => b"SIP".to_vec(alloc),
            File::One => ONE.to_vec(alloc),
            File::Two => TWO.to_vec(alloc),
            File::Empty => EMPTY.to_vec(alloc),
            File::Both => TWO_PARTS.to_vec(alloc),
            File::UsedOne => USED_PART.to_vec(alloc),
            File::UsedTwo => USED_OTHER.to_vec(alloc),
            File::UsedBoth => USED_SUM.to_vec(alloc),
            File::Only => WATCHED.to_vec(alloc),
        };
        Ok(Some(bytes?))
    }
}

const BOTH: &[File] = &[File::One, File::Two];

// The file of the sketch, those of the parts in order, and the file of their sum.
const SUMS: [(File, &[File], File); 8] = [
    (File::Missing, BOTH, File::Both),
    (File::Missing, &[File::One], File::One),
    (File::Missing, &[File::Two], File::Two),
    // the sketch is one of the parts, or has fewer records
    (File::One, BOTH, File::Both),
    (File::Empty, BOTH, File::Both),
    // again, from the same collectors
    (File::Both, BOTH, File::Both),
    // a used seat stays used, and as it was
    (File::UsedBoth, BOTH, File::UsedBoth),
    (File::UsedOne, BOTH, File::UsedBoth),
];

// The file of the sketch, those of the parts in order, and which part is refused and why.
const REFUSED: [(File, &[File], u32, Unlike); 15] = [
    // the shape is that of the sketch where it is there, and else of the first part
    (File::Only, BOTH, 1, Unlike::Shape),
    (File::Both, &[File::Only], 1, Unlike::Shape),
    (File::Missing, &[File::One, File::Only], 2, Unlike::Shape),
    (File::Missing, &[File::Both], 1, Unlike::Whole),
    // the part behind it is no sketch, and is not loaded
    (File::Missing, &[File::Both, File::Cut], 1, Unlike::Whole),
    (File::Missing, &[File::One, File::Both], 2, Unlike::Whole),
    (
        File::Missing,
        &[File::UsedOne, File::Two],
        1,
        Unlike::UsedSeat,
    ),
    (
        File::Missing,
        &[File::One, File::UsedTwo],
        2,
        Unlike::UsedSeat,
    ),
    // a used seat is the earlier reason
    (
        File::Missing,
        &[File::One, File::UsedOne],
        2,
        Unlike::UsedSeat,
    ),
    (File::Missing, &[File::One, File::One], 2, Unlike::NotNext),
    (File::Missing, &[File::Two, File::One], 2, Unlike::NotNext),
    (File::Both, &[File::One], 1, Unlike::Missing),
    (File::Both, &[File::Two], 1, Unlike::Missing),
    (File::UsedBoth, &[File::One], 1, Unlike::Missing),
    (File::Both, &[File::Empty, File::Two], 2, Unlike::Fewer),
];

// The file of the sketch, those of the parts in order, and which part is no sketch from which byte.
const BAD: [(File, &[File], u32, u64); 6] = [
    (File::Nothing, BOTH, 0, 0),
    (File::Cut, BOTH, 0, 3),
    (File::Missing, &[File::Missing], 1, 0),
    (File::Missing, &[File::One, File::Missing], 2, 0),
    (File::One, &[File::One, File::Cut], 2, 3),
    // the part behind it is whole, and is not loaded
    (File::Missing, &[File::Cut, File::Both], 1, 3),
];

// The call of the desk that fails, the load of a part that does, and the status.
const FAULTS: [(u64, u64, SketchStatus); 4] = [
    (
        1,
        0,
        SketchStatus::ReadFault {
            port: SketchPort::Sketch,
        },
    ),
    (
        0,
        1,
        SketchStatus::ReadFault {
            port: SketchPort::Part(1),
        },
    ),
    (
        0,
        2,
        SketchStatus::ReadFault {
            port: SketchPort::Part(2),
        },
    ),
    (2, 0, WRITE_SKETCH),
];

const WRITE_SKETCH: SketchStatus = SketchStatus::WriteFault {
    port: SketchPort::Sketch,
};

// These files, from number 1 on, of which the load of this number fails.
fn files(alloc: Global, parts: &[File], fails: u64) -> Result<MemoryFiles, Fail> {
    let mut files = vec![in alloc; None]?;
    for part in parts {
        files.push(part.bytes(alloc)?)?;
    }
    Ok(MemoryFiles::new(files, vec![in alloc; fails]?))
}

// How merging so many parts ended; `None` where there may not be so many.
fn merged(
    alloc: Global,
    parts: &mut MemoryFiles,
    count: usize,
    desk: &mut MemoryDesk,
) -> Option<SketchStatus> {
    if count < 1 || count > MOST_PARTS as usize {
        return None;
    }
    Some(merge(alloc, parts, count as u32, desk))
}

// Whether these parts end so over a sketch, and leave this file. Nothing but `Wrote` stores one.
fn ends(
    alloc: Global,
    sketch: File,
    parts: &[File],
    status: SketchStatus,
    file: File,
) -> Result<bool, Fail> {
    let was = sketch.bytes(alloc)?;
    let mut desk = desk(alloc, was.as_deref(), 0, 0)?;
    let mut files = files(alloc, parts, 0)?;
    let said = merged(alloc, &mut files, parts.len(), &mut desk);
    let steps = if status == SketchStatus::Wrote {
        155
    } else {
        0
    };
    let left = file.bytes(alloc)?;
    Ok(said == Some(status) && desk.file() == left.as_deref() && desk.talk().len() == steps)
}

#[test]
fn parts_add_up_in_the_place_of_a_sketch(rt: HostRuntime) -> Result<(), Fail> {
    for (row, (sketch, parts, sum)) in SUMS.iter().enumerate() {
        let ends = ends(rt.alloc(), *sketch, parts, SketchStatus::Wrote, *sum)?;
        assert!(rt; ends, "row {row}");
    }
    Ok(())
}

#[test]
fn the_first_part_that_is_unlike_is_said(rt: HostRuntime) -> Result<(), Fail> {
    for (row, (sketch, parts, part, why)) in REFUSED.iter().enumerate() {
        let status = SketchStatus::Unlike {
            part: *part,
            why: *why,
        };
        let ends = ends(rt.alloc(), *sketch, parts, status, *sketch)?;
        assert!(rt; ends, "row {row}");
    }
    Ok(())
}

#[test]
fn the_first_file_that_is_no_sketch_is_said(rt: HostRuntime) -> Result<(), Fail> {
    for (row, (sketch, parts, part, offset)) in BAD.iter().enumerate() {
        let status = SketchStatus::BadSketch {
            part: *part,
            offset: *offset,
        };
        let ends = ends(rt.alloc(), *sketch, parts, status, *sketch)?;
        assert!(rt; ends, "row {row}");
    }
    Ok(())
}

#[test]
fn a_fault_of_a_port_is_said(rt: HostRuntime) -> Result<(), Fail> {
    for (row, (call, load, status)) in FAULTS.iter().enumerate() {
        let mut desk = desk(rt.alloc(), Some(&ONE), *call, 0)?;
        let mut parts = files(rt.alloc(), BOTH, *load)?;
        let said = merged(rt.alloc(), &mut parts, 2, &mut desk);
        assert!(rt; said == Some(*status), "the status of row {row}");
        assert!(rt;
            desk.file() == Some(ONE.as_slice()),
            "the file of row {row}"
        );
        assert!(rt; desk.talk().is_empty(), "nothing was done in row {row}");
    }
    Ok(())
}

#[test]
fn a_sketch_of_another_process_is_busy(rt: HostRuntime) -> Result<(), Fail> {
    let mut desk = desk(rt.alloc(), None, 0, 0)?;
    desk.take_away();
    let mut parts = files(rt.alloc(), BOTH, 0)?;
    let status = merged(rt.alloc(), &mut parts, 2, &mut desk);
    assert!(rt; status == Some(SketchStatus::Busy), "busy");
    assert!(rt; desk.talk().is_empty(), "nothing was done");
    Ok(())
}

// Storing 152 bytes takes 155 steps, of which the name is given behind 154.
#[test]
fn a_sum_that_is_cut_off_is_stored_whole_or_not(rt: HostRuntime) -> Result<(), Fail> {
    for stops in 0..155 {
        let mut desk = desk(rt.alloc(), Some(&ONE), 2, stops)?;
        let mut parts = files(rt.alloc(), BOTH, 0)?;
        let status = merged(rt.alloc(), &mut parts, 2, &mut desk);
        assert!(rt;
            status == Some(WRITE_SKETCH),
            "the status behind {stops} steps"
        );
        assert!(rt; desk.talk().len() == stops, "the steps");
        let file: &[u8] = if stops < 154 { &ONE } else { &TWO_PARTS };
        assert!(rt; desk.file() == Some(file), "the file behind {stops} steps");
    }
    Ok(())
}

// The file that is made beside the kept one has all bytes before it takes its name.
#[test]
fn a_crash_leaves_no_other_file(rt: HostRuntime) -> Result<(), Fail> {
    let mut desk = desk(rt.alloc(), Some(&USED_PART), 0, 0)?;
    let mut parts = files(rt.alloc(), BOTH, 0)?;
    let status = merged(rt.alloc(), &mut parts, 2, &mut desk);
    assert!(rt; status == Some(SketchStatus::Wrote), "the status");
    let keeps = keeps_only(rt.alloc(), desk.talk(), &USED_SUM)?;
    assert!(rt; keeps, "a whole file");
    Ok(())
}

#[test]
fn a_sum_is_not_watched(rt: HostRuntime) -> Result<(), Fail> {
    let mut desk = desk(rt.alloc(), None, 0, 0)?;
    let mut parts = files(rt.alloc(), BOTH, 0)?;
    let status = merged(rt.alloc(), &mut parts, 2, &mut desk);
    assert!(rt; status == Some(SketchStatus::Wrote), "the sum");
    let mut stream = MemorySource::new(LOG.to_vec(rt.alloc())?, 64, Vec::new(rt.alloc()));
    let status = watch(rt.alloc(), Form::Text, None, None, &mut stream, &mut desk);
    let start = SketchStatus::BadStart {
        records: 3,
        is_sum: true,
    };
    assert!(rt; status == start, "a sum grows by its parts");
    Ok(())
}

// The file of a part.
fn file_of(alloc: Global, part: &Part<'_>) -> Result<Vec<u8>, Fail> {
    let mut bytes = Vec::new(alloc);
    if let Some(sketch) = kept(alloc, part) {
        sketch.write(&mut bytes)?;
    }
    Ok(bytes)
}

// A total of 9 is above the weight of part 1, which is 8.
#[test]
fn a_used_total_may_be_above_the_weight_of_a_part(rt: HostRuntime) -> Result<(), Fail> {
    let alloc = rt.alloc();
    let kinds = [SeatKind::Heavy(Side::First)];
    let three = three_records();
    let one = file_of(alloc, &of_two(1, &kinds, &three[..2]))?;
    let two = file_of(alloc, &of_two(2, &kinds, &three[2..]))?;
    let files = vec![in alloc; None, Some(one), Some(two)]?;
    let mut parts = MemoryFiles::new(files, Vec::new(alloc));
    let mut desk = desk(alloc, Some(&USED_TOTAL), 0, 0)?;
    let status = merged(alloc, &mut parts, 2, &mut desk);
    assert!(rt; status == Some(SketchStatus::Wrote), "the status");
    assert!(rt; desk.file() == Some(USED_TOTAL.as_slice()), "the used seat");
    Ok(())
}

#[test]
fn a_sum_is_not_too_heavy(rt: HostRuntime) -> Result<(), Fail> {
    let alloc = rt.alloc();
    let unlike = SketchStatus::Unlike {
        part: 2,
        why: Unlike::Heavy(Side::First),
    };
    for (weight, status) in [((1 << 29) - 1, SketchStatus::Wrote), (1 << 29, unlike)] {
        let one = file_of(
            alloc,
            &of_two(1, &KINDS, &[record(Side::First, 1, 1 << 29)]),
        )?;
        let two = file_of(alloc, &of_two(2, &KINDS, &[record(Side::First, 1, weight)]))?;
        let files = vec![in alloc; None, Some(one), Some(two)]?;
        let mut parts = MemoryFiles::new(files, Vec::new(alloc));
        let mut desk = desk(alloc, None, 0, 0)?;
        let said = merged(alloc, &mut parts, 2, &mut desk);
        assert!(rt; said == Some(status), "with a weight of {weight}");
        let stored = status == SketchStatus::Wrote;
        assert!(rt; desk.file().is_some() == stored, "the file");
    }
    Ok(())
}

// The items come to 256 each, so their extension is 256 at any point.
#[test]
fn a_thousand_parts_add_up(rt: HostRuntime) -> Result<(), Fail> {
    let alloc = rt.alloc();
    let kinds = [SeatKind::Sums(Side::First)];
    let mut files = vec![in alloc; None]?;
    for part in 1..MOST_PARTS + 1 {
        let updates = [record(Side::First, u64::from(part) % 4, 1)];
        let file = file_of(alloc, &part_of(part, MOST_PARTS, &kinds, &updates))?;
        files.push(Some(file))?;
    }
    let mut parts = MemoryFiles::new(files, Vec::new(alloc));
    let mut desk = desk(alloc, None, 0, 0)?;
    let status = merge(alloc, &mut parts, MOST_PARTS, &mut desk);
    assert!(rt; status == SketchStatus::Wrote, "the status");
    assert!(rt; desk.file() == Some(MANY.as_slice()), "the sum");
    Ok(())
}
