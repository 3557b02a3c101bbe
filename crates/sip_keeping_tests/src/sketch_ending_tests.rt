// The line and the exit code of each status of the commands that keep a sketch.

use sip_command_tests::case::Case;
use sip_keeping::finish_sketch;
use sip_sketch::{SketchPort, SketchStatus, Unlike};
use sip_stream::Why;
use sip_vector::Side;
use sip_word_tests::endings::{ended_in_front, ended_whole, failing_sink, wide_sink};
use std::alloc::Global;
use std::process::Abort;
use std::test::Fail;

// A status, its exit code and its line.
type Ending<'a> = (SketchStatus, u8, &'a str);

const ENDINGS: &[Ending<'static>] = &[
    (SketchStatus::Wrote, 0, ""),
    (SketchStatus::Exists, 3, "sip: sketch exists\n"),
    (
        SketchStatus::BadSketch { part: 0, offset: 0 },
        3,
        "sip: bad sketch at offset 0\n",
    ),
    (
        SketchStatus::BadSketch {
            part: 1,
            offset: 152,
        },
        3,
        "sip: bad part 1 at offset 152\n",
    ),
    (
        SketchStatus::BadSketch {
            part: 1024,
            offset: u64::MAX,
        },
        3,
        "sip: bad part 1024 at offset 18446744073709551615\n",
    ),
    (SketchStatus::BadSeed, 3, "sip: seed too short\n"),
    (SketchStatus::SeedSpent, 3, "sip: seed spent\n"),
    (SketchStatus::Busy, 3, "sip: sketch is busy\n"),
    (
        SketchStatus::BadStream {
            at: 2,
            why: Why::Truncated,
        },
        3,
        "sip: bad stream at record 2: Truncated\n",
    ),
    (
        SketchStatus::BadStream {
            at: 2147483648,
            why: Why::TooHeavy(Side::Second),
        },
        3,
        "sip: bad stream at record 2147483648: TooHeavy(1)\n",
    ),
    (
        SketchStatus::BadStart {
            records: 3,
            is_sum: false,
        },
        3,
        "sip: bad start, sketch has 3 records\n",
    ),
    (
        SketchStatus::BadStart {
            records: 3,
            is_sum: true,
        },
        3,
        "sip: bad start, sketch is a sum\n",
    ),
    (
        SketchStatus::Behind { at: 2 },
        3,
        "sip: stream ends at record 2\n",
    ),
    (
        SketchStatus::Unlike {
            part: 2,
            why: Unlike::Shape,
        },
        3,
        "sip: part 2: Shape\n",
    ),
    (
        SketchStatus::Unlike {
            part: 1,
            why: Unlike::Whole,
        },
        3,
        "sip: part 1: Whole\n",
    ),
    (
        SketchStatus::Unlike {
            part: 3,
            why: Unlike::UsedSeat,
        },
        3,
        "sip: part 3: UsedSeat\n",
    ),
    (
        SketchStatus::Unlike {
            part: 2,
            why: Unlike::NotNext,
        },
        3,
        "sip: part 2: NotNext\n",
    ),
    (
        SketchStatus::Unlike {
            part: 2,
            why: Unlike::Heavy(Side::First),
        },
        3,
        "sip: part 2: Heavy(0)\n",
    ),
    (
        SketchStatus::Unlike {
            part: 1024,
            why: Unlike::Heavy(Side::Second),
        },
        3,
        "sip: part 1024: Heavy(1)\n",
    ),
    (
        SketchStatus::Unlike {
            part: 1,
            why: Unlike::Missing,
        },
        3,
        "sip: part 1: Missing\n",
    ),
    (
        SketchStatus::Unlike {
            part: 1,
            why: Unlike::Fewer,
        },
        3,
        "sip: part 1: Fewer\n",
    ),
    (
        SketchStatus::ReadFault {
            port: SketchPort::First,
        },
        4,
        "sip: read fault on first\n",
    ),
    (
        SketchStatus::ReadFault {
            port: SketchPort::Second,
        },
        4,
        "sip: read fault on second\n",
    ),
    (
        SketchStatus::ReadFault {
            port: SketchPort::Sketch,
        },
        4,
        "sip: read fault on sketch\n",
    ),
    (
        SketchStatus::ReadFault {
            port: SketchPort::Part(7),
        },
        4,
        "sip: read fault on part 7\n",
    ),
    (
        SketchStatus::WriteFault {
            port: SketchPort::Sketch,
        },
        4,
        "sip: write fault on sketch\n",
    ),
    (
        SketchStatus::WriteFault {
            port: SketchPort::Report,
        },
        4,
        "sip: write fault on report\n",
    ),
    (SketchStatus::OutOfMemory, 5, "sip: out of memory\n"),
];

fn check_endings(rt: &impl Abort, alloc: Global, rows: &[Ending]) {
    for (index, (status, code, name)) in rows.iter().enumerate() {
        let mut sink = wide_sink(alloc);
        let ending = finish_sketch(status, &mut sink);
        let number = index as u64;
        ended_whole(Case { name, number }, *code, ending, &sink).expect(rt, "an ending");
    }
}

#[test]
fn each_status_of_a_sketch_has_its_line_and_code(rt: HostRuntime) -> Result<(), Fail> {
    let alloc = rt.alloc();
    check_endings(&rt, alloc, ENDINGS);
    let mut sink = failing_sink(alloc)?;
    let ending = finish_sketch(&SketchStatus::Busy, &mut sink);
    ended_in_front(ending, &sink).expect(&rt, "a front");
    Ok(())
}
