// Commands whose stream is made, and streams of several blocks.
ghost use Rattle.std.specs.Prelude.{◌≤◌};

use crate::case::Case;
use crate::copy_tests::copy;
use crate::cut::{Copied, check_copied};
use crate::row::words_of;
use sip_cli::run;
use sip_ports::{MemoryLink, MemorySink, MemorySource, NullSink};
use sip_stream::MadeSource;
use sip_verifier::Status;
use sip_words::{Opening, ports, read_words};
use std::alloc::Global;
use std::process::Abort;
use std::test::Fail;

// Runs a command whose stream is made, over the source that its words name.
fn run_made(alloc: Global, text: &str, chunk: usize) -> Result<(Status, MemorySink), Fail>
    requires { 1 ≤ chunk }
{
    let words = words_of(alloc, text)?;
    let mut report = MemorySink::new(alloc, chunk, Vec::new(alloc));
    let Ok(command) = read_words(&words) else {
        return Ok((Status::Usage { word: 0 }, report));
    };
    let plan = ports(&words, &command);
    let Opening::Made {
        number,
        count,
        depth,
    } = &plan.first
    else {
        return Ok((Status::Usage { word: 0 }, report));
    };
    let status = run(
        alloc,
        &words,
        &mut MadeSource::new(*number, *count, *depth),
        &mut MemorySource::new(Vec::new(alloc), chunk, Vec::new(alloc)),
        &mut MemoryLink::new(alloc, Vec::new(alloc), chunk, Vec::new(alloc)),
        &mut report,
        &mut NullSink::new(),
    );
    Ok((status, report))
}

// The first record of NUMBER 7 has the last bits of 0xfc8651781efb for its item, as many as the
// depth has.
const MADE_33: [u8; 17] = [
    0, 0, 0, 0, 0, 0x51, 0x78, 0x1e, 0xfb, 0, 0, 0, 0, 0, 0, 0, 8,
];

const MADE_48: [u8; 17] = [
    0, 0, 0, 0xfc, 0x86, 0x51, 0x78, 0x1e, 0xfb, 0, 0, 0, 0, 0, 0, 0, 8,
];

// The words of a command, and what it writes of a made stream.
const MADE: &[(&str, &[u8])] = &[
    ("lines made:7:1 20", b"0 532219 8\n"),
    ("lines made:0:1 20", b"0 913103 1\n"),
    ("gen 7 1 20", &[0, 0, 8, 0x1e, 0xfb, 0, 0, 0, 0, 0, 0, 0, 8]),
    (
        "gen 7 1 32",
        &[0, 0x51, 0x78, 0x1e, 0xfb, 0, 0, 0, 0, 0, 0, 0, 8],
    ),
    ("gen 7 1 33", &MADE_33),
    ("lines made:7:1 48", b"0 277653822643963 8\n"),
    ("gen 7 1 48", &MADE_48),
    ("widen made:7:1 48", &MADE_48),
];

fn check_made(rt: &impl Abort, alloc: Global, rows: &[(&str, &[u8])]) -> Result<(), Fail> {
    for (words, want) in rows {
        writes_made(rt, run_made(alloc, words, 1)?, words, want);
        writes_made(rt, run_made(alloc, words, 10_000)?, words, want);
    }
    Ok(())
}

fn writes_made(rt: &impl Abort, (status, report): (Status, MemorySink), name: &str, want: &[u8]) {
    let case = Case { name, number: 0 };
    case.ends(status, Status::Wrote).expect(rt, "a case");
    case.writes(report.bytes(), want).expect(rt, "a case");
}

#[test]
fn made_streams(rt: HostRuntime) -> Result<(), Fail> {
    check_made(&rt, rt.alloc(), MADE)
}

fn sum(bytes: &[u8]) -> u64 {
    let mut sum = 0u64;
    for byte in bytes {
        sum = sum.wrapping_add(u64::from(*byte));
    }
    sum
}

// A made stream as lines and as records. The length of each and the sum of its bytes were computed
// apart.
const LINES_OF_1000: (usize, u64) = (9_708, 421_314);

const RECORDS_OF_1000: (usize, u64) = (13_000, 198_709);

fn check_long(
    rt: &impl Abort,
    alloc: Global,
    words: &str,
    want: (usize, u64),
) -> Result<MemorySink, Fail> {
    let (status, report) = run_made(alloc, words, 1)?;
    let (status_at_once, at_once) = run_made(alloc, words, 10_000)?;
    let case = Case {
        name: words,
        number: 1000,
    };
    case.ends(status, Status::Wrote).expect(rt, "a case");
    case.ends(status_at_once, Status::Wrote)
        .expect(rt, "a case");
    case.holds((report.bytes().len(), sum(report.bytes())) == want)
        .expect(rt, "a case");
    case.writes(at_once.bytes(), report.bytes())
        .expect(rt, "a case");
    Ok(report)
}

// 630 records are the most below a block of 8,192 bytes.
const BLOCKS: &[(u64, u64, usize)] = &[
    (1, 1, 0),
    (631, 631, 8190),
    (632, 632, 8203),
    (1001, 1001, 13000),
];

// What is gathered when the source fails is written.
fn check_blocks(rt: &impl Abort, alloc: Global, records: &[u8]) -> Result<(), Fail> {
    let copied = Copied {
        name: "the stream of gen in blocks",
        row: copy("gen 7 1000 20", records, Status::Wrote, 0, records),
        by_the_byte: false,
        calls: BLOCKS,
    };
    check_copied(rt, alloc, &[copied])
}

// Streams of several blocks.
#[test]
fn long_streams(rt: HostRuntime) -> Result<(), Fail> {
    let alloc = rt.alloc();
    let lines = check_long(&rt, alloc, "lines made:7:1000 20", LINES_OF_1000)?;
    let records = check_long(&rt, alloc, "gen 7 1000 20", RECORDS_OF_1000)?;
    let (lines, records) = (lines.bytes(), records.bytes());
    let case = Case {
        name: "the first lines and the last one",
        number: 1000,
    };
    case.holds(
        lines.starts_with(b"0 532219 8\n1 991056 3\n1 367341 2\n0 1 5\n")
            && lines.ends_with(b"\n0 678910 7\n"),
    ).expect(&rt, "a case");
    check_blocks(&rt, alloc, records)?;
    copy("lines s 20", records, Status::Wrote, 0, lines).check(&rt, alloc)?;
    copy("lines text:s 20", lines, Status::Wrote, 0, lines).check(&rt, alloc)
}
