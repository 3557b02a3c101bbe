// The line and the exit code that each status has.

use crate::endings::{ended_in_front, ended_whole, failing_sink, wide_sink};
use sip_advice::finish;
use sip_command_tests::case::Case;
use sip_stream::Why;
use sip_vector::Side;
use sip_verifier::{Port, Status};
use sip_wire::Reason;
use std::alloc::Global;
use std::process::Abort;
use std::test::Fail;

// A status, its exit code and its line.
type Ending<'a> = (Status, u8, &'a str);

const ENDINGS: &[Ending<'static>] = &[
    (Status::Accepted, 0, ""),
    (Status::Served, 0, ""),
    (Status::Wrote, 0, ""),
    (
        Status::Rejected {
            query: 1,
            round: 2,
            reason: Reason::Root,
        },
        1,
        "",
    ),
    (Status::Usage { word: 7 }, 2, "sip: usage at word 7\n"),
    (
        Status::BadStream {
            at: 0,
            why: Why::Truncated,
        },
        3,
        "sip: bad stream at record 0: Truncated\n",
    ),
    (
        Status::BadStream {
            at: 2,
            why: Why::BadLine,
        },
        3,
        "sip: bad stream at record 2: BadLine\n",
    ),
    (
        Status::BadStream {
            at: 10,
            why: Why::BadSide,
        },
        3,
        "sip: bad stream at record 10: BadSide\n",
    ),
    (
        Status::BadStream {
            at: 511,
            why: Why::BadItem,
        },
        3,
        "sip: bad stream at record 511: BadItem\n",
    ),
    (
        Status::BadStream {
            at: 512,
            why: Why::ZeroDelta,
        },
        3,
        "sip: bad stream at record 512: ZeroDelta\n",
    ),
    (
        Status::BadStream {
            at: 2147483646,
            why: Why::TooHeavy(Side::First),
        },
        3,
        "sip: bad stream at record 2147483646: TooHeavy(0)\n",
    ),
    (
        Status::BadStream {
            at: 1,
            why: Why::TooHeavy(Side::Second),
        },
        3,
        "sip: bad stream at record 1: TooHeavy(1)\n",
    ),
    (Status::BadSeed, 3, "sip: seed too short\n"),
    (Status::SeedSpent, 3, "sip: seed spent\n"),
    (
        Status::BadTranscript { offset: 8 },
        3,
        "sip: bad transcript at offset 8\n",
    ),
    (
        Status::BadFrame { offset: 5 },
        3,
        "sip: bad frame at offset 5\n",
    ),
    (Status::TooWide { query: 16 }, 3, "sip: query 16 too wide\n"),
    (Status::TooHigh { query: 1 }, 3, "sip: query 1 too high\n"),
    (
        Status::ReadFault { port: Port::First },
        4,
        "sip: read fault on first\n",
    ),
    (
        Status::ReadFault { port: Port::Second },
        4,
        "sip: read fault on second\n",
    ),
    (
        Status::WriteFault { port: Port::Report },
        4,
        "sip: write fault on report\n",
    ),
    (
        Status::WriteFault { port: Port::Keep },
        4,
        "sip: write fault on record\n",
    ),
    (Status::PeerFault, 4, "sip: peer fault\n"),
    (Status::PeerClosed, 4, "sip: peer closed\n"),
    (Status::OutOfMemory, 5, "sip: out of memory\n"),
    (Status::Usage { word: 0 }, 2, "sip: usage at word 0\n"),
    (
        Status::BadTranscript { offset: u64::MAX },
        3,
        "sip: bad transcript at offset 18446744073709551615\n",
    ),
];

fn check_endings(rt: &impl Abort, alloc: Global, rows: &[Ending]) {
    for (index, (status, code, name)) in rows.iter().enumerate() {
        let mut sink = wide_sink(alloc);
        let ending = finish(status, &mut sink);
        let number = index as u64;
        ended_whole(Case { name, number }, *code, ending, &sink).expect(rt, "an ending");
    }
}

#[test]
fn each_status_has_its_line_and_code(rt: HostRuntime) -> Result<(), Fail> {
    let alloc = rt.alloc();
    check_endings(&rt, alloc, ENDINGS);
    let mut sink = failing_sink(alloc)?;
    let ending = finish(&Status::BadSeed, &mut sink);
    ended_in_front(ending, &sink).expect(&rt, "a front");
    Ok(())
}
