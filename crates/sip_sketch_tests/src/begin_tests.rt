// A sketch at depth 2 that begins over a desk in memory, at the challenges of 32 zero bytes, and
// what its file has then.

use crate::growing_tests::{KINDS, begun};
use sip_ports::{MemoryDesk, MemoryLink, MemorySource, TalkEvent};
use sip_sketch::{SketchPort, SketchStatus, begin};
use sip_vector::Depth;
use std::alloc::Global;
use std::process::Abort;
use std::test::Fail;

// What the file has.
#[derive(Clone, Copy)]
enum File {
    Missing,
    These(&'static [u8]),
    Begun,
}

const READ_SKETCH: SketchStatus = SketchStatus::ReadFault {
    port: SketchPort::Sketch,
};

const READ_SEED: SketchStatus = SketchStatus::ReadFault {
    port: SketchPort::Second,
};

const WRITE_SKETCH: SketchStatus = SketchStatus::WriteFault {
    port: SketchPort::Sketch,
};

// What the file has at first, how many bytes the seed has, the call of the desk that fails and the
// read of the seed that does, the status, and what the file has then.
type Row = (File, usize, u64, u64, SketchStatus, File);

const ROWS: [Row; 11] = [
    (File::Missing, 32, 0, 0, SketchStatus::Wrote, File::Begun),
    (File::Missing, 40, 0, 0, SketchStatus::Wrote, File::Begun),
    (
        File::These(&[]),
        32,
        0,
        0,
        SketchStatus::Exists,
        File::These(&[]),
    ),
    (
        File::These(&[7]),
        0,
        0,
        1,
        SketchStatus::Exists,
        File::These(&[7]),
    ),
    (
        File::Missing,
        31,
        0,
        0,
        SketchStatus::BadSeed,
        File::Missing,
    ),
    (File::Missing, 0, 0, 0, SketchStatus::BadSeed, File::Missing),
    (File::Missing, 0, 1, 0, READ_SKETCH, File::Missing),
    (File::These(&[7]), 0, 1, 0, READ_SKETCH, File::These(&[7])),
    (File::Missing, 32, 0, 1, READ_SEED, File::Missing),
    (File::Missing, 32, 0, 7, READ_SEED, File::Missing),
    (File::Missing, 32, 2, 0, WRITE_SKETCH, File::Missing),
];

impl File {
    // Whether a file is this one.
    fn is(&self, file: Option<&[u8]>) -> bool {
        match (self, file) {
            (File::Missing, None) => true,
            (File::These(bytes), Some(file)) => file == *bytes,
            (File::Begun, Some(file)) => file == begun().as_slice(),
            _ => false,
        }
    }
}

// A desk whose file has these bytes, where the call of this number fails, a replacement behind so
// many steps.
pub(crate) fn desk(
    alloc: Global,
    file: Option<&[u8]>,
    fails: u64,
    stops: usize,
) -> Result<MemoryDesk, Fail> {
    let link = MemoryLink::new(alloc, Vec::new(alloc), 1, vec![in alloc; fails]?);
    let file = match file {
        None => None,
        Some(bytes) => Some(bytes.to_vec(alloc)?),
    };
    Ok(MemoryDesk::new(link, file, stops))
}

// A seed of so many zero bytes, five a read, where the read of this number fails.
fn seed(alloc: Global, length: usize, fails: u64) -> Result<MemorySource, Fail> {
    Ok(MemorySource::new(vec![in alloc; 0; length]?, 5, vec![in alloc; fails]?))
}

// How it began over these ports; `None` where 2 is the depth of no vector.
fn begin_over(
    alloc: Global,
    seed: &mut MemorySource,
    desk: &mut MemoryDesk,
) -> Option<SketchStatus> {
    let depth = Depth::new(2)?;
    Some(begin(alloc, depth, 1, 1, &KINDS, seed, desk))
}

#[test]
fn a_sketch_begins_where_there_is_none(rt: HostRuntime) -> Result<(), Fail> {
    let alloc = rt.alloc();
    for (number, row) in ROWS.iter().enumerate() {
        let file = match row.0 {
            File::These(bytes) => Some(bytes),
            _ => None,
        };
        let mut desk = desk(alloc, file, row.2, 0)?;
        let mut seed = seed(alloc, row.1.min(40), row.3)?;
        let status = begin_over(alloc, &mut seed, &mut desk);
        assert!(rt; status == Some(row.4), "the status of row {number}");
        assert!(rt; row.5.is(desk.file()), "the file of row {number}");
    }
    Ok(())
}

#[test]
fn a_sketch_of_another_process_is_busy(rt: HostRuntime) -> Result<(), Fail> {
    let mut desk = desk(rt.alloc(), None, 0, 0)?;
    desk.take_away();
    let mut seed = seed(rt.alloc(), 32, 0)?;
    let status = begin_over(rt.alloc(), &mut seed, &mut desk);
    assert!(rt; status == Some(SketchStatus::Busy), "busy");
    assert!(rt;
        desk.file().is_none() && desk.talk().is_empty(),
        "nothing was done"
    );
    Ok(())
}

// Storing 152 bytes takes 155 steps, of which the name is given behind 154.
#[test]
fn a_sketch_that_is_cut_off_is_missing_or_whole(rt: HostRuntime) -> Result<(), Fail> {
    for stops in 0..155 {
        let mut desk = desk(rt.alloc(), None, 2, stops)?;
        let mut seed = seed(rt.alloc(), 32, 0)?;
        let status = begin_over(rt.alloc(), &mut seed, &mut desk);
        assert!(rt;
            status == Some(WRITE_SKETCH),
            "the status behind {stops} steps"
        );
        assert!(rt; desk.talk().len() == stops, "the steps");
        let file = if stops < 154 {
            File::Missing
        } else {
            File::Begun
        };
        assert!(rt; file.is(desk.file()), "the file behind {stops} steps");
    }
    Ok(())
}

// Whether a file takes its name only once it has all of these bytes, and the link has no part in
// it.
pub(crate) fn keeps_only(alloc: Global, talk: &[TalkEvent], file: &[u8]) -> Result<bool, Fail> {
    let mut beside = Vec::new(alloc);
    for event in talk {
        match event {
            TalkEvent::Fresh => beside.clear(),
            TalkEvent::Stored(byte) => beside.push(*byte)?,
            TalkEvent::Renames | TalkEvent::Kept if beside.as_slice() == file => {}
            _ => return Ok(false),
        }
    }
    Ok(true)
}

// The file that is made beside the kept one has all bytes before it takes its name.
#[test]
fn a_crash_leaves_no_other_file(rt: HostRuntime) -> Result<(), Fail> {
    let mut desk = desk(rt.alloc(), None, 0, 0)?;
    let mut seed = seed(rt.alloc(), 32, 0)?;
    let status = begin_over(rt.alloc(), &mut seed, &mut desk);
    assert!(rt; status == Some(SketchStatus::Wrote), "the status");
    let keeps = keeps_only(rt.alloc(), desk.talk(), &begun())?;
    assert!(rt; keeps, "a whole file");
    assert!(rt; desk.talk().len() == 155, "all steps");
    assert!(rt;
        desk.talk()[153..] == [TalkEvent::Renames, TalkEvent::Kept],
        "the last two"
    );
    Ok(())
}
