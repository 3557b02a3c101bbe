// Words of an ask, done over the worked sketch in memory: how it ends, and what is reported.

use sip_ask::AskStatus;
use sip_command_tests::case::Case;
use sip_keeping::{finish_ask, obey_ask, read_ask_words};
use sip_ports::{MemoryDesk, MemoryLink, MemorySink};
use sip_sketch_tests::worked::WATCHED;
use sip_word_tests::words::words_between;
use std::alloc::Global;
use std::process::Abort;
use std::test::Fail;

// What the helper holds, the honest replies to `sub:1:2`, and one record more than the sketch has.
const HELD: &[u8] = b"\x26\0\x20\0\0\0\0\0\0\0\x03\0\0\0\0\0\0\0\x09\0\0\0\0\0\0\0\0\
\xb8\x26\x1a\xe7\xdb\x4f\xab\0";

const REPLIES: &[u8] = b"\x13\0\x0e\0\x01\0\0\0\x02\0\0\0\0\0\0\0\x05\
\x14\0\x11\x03\0\0\0\0\0\0\0\x03\0\0\0\0\0\0\0\x01\x14\0\x01\0";

const LIES: &[u8] = b"\x13\0\x0e\0\x01\0\0\0\x02\0\0\0\0\0\0\0\x05\
\x14\0\x11\x03\0\0\0\0\0\0\0\x01\0\0\0\0\0\0\0\x01\x14\0\x01\0";

const OTHER: &[u8] = b"\x26\0\x20\0\0\0\0\0\0\0\x04\0\0\0\0\0\0\0\x0b\0\0\0\0\0\0\0\0\
\xda\x3a\x76\xc0\xed\x54\x64\x82";

// What is asked; what the helper says; which calls of the desk fail, of which the first loads, two
// send the opening, two receive what is held, and the sixth stores; the code, the line and the
// report.
type Row<'a> = (&'a str, &'a [&'a [u8]], &'a [u64], u8, &'a str, &'a str);

const ROWS: &[Row<'static>] = &[
    ("sub:1:2", &[HELD, REPLIES], &[], 0, "", "sub:1:2 2:5\n"),
    (
        "heavy:0:10|sub:1:2",
        &[HELD, REPLIES],
        &[],
        0,
        "",
        "heavy:0:10 none\nsub:1:2 2:5\n",
    ),
    (
        "sub:1:2|f2:0",
        &[HELD, LIES],
        &[],
        1,
        "",
        "rejected query 1 round 2 Root\n",
    ),
    (
        "sub:1:2|index:0",
        &[HELD, REPLIES],
        &[],
        3,
        "sip: no seat for query 2\n",
        "",
    ),
    (
        "moment:0:3|share:0:1:3",
        &[HELD],
        &[],
        3,
        "sip: no seat for query 2\n",
        "",
    ),
    (
        "inner|sub:0:4",
        &[HELD],
        &[],
        3,
        "sip: query 2 does not fit\n",
        "",
    ),
    (
        "sub:1:2",
        &[OTHER],
        &[],
        3,
        "sip: helper holds 4 11 0 da3a76c0ed546482, sketch 3 9 0 b8261ae7db4fab00\n",
        "",
    ),
    ("sub:1:2", &[], &[], 4, "sip: peer closed\n", ""),
    (
        "sub:1:2",
        &[b"\x18\0\x01\x01"],
        &[],
        3,
        "sip: bad frame at offset 0\n",
        "",
    ),
    (
        "sub:1:2",
        &[HELD, REPLIES],
        &[1],
        4,
        "sip: read fault on sketch\n",
        "",
    ),
    (
        "sub:1:2",
        &[HELD, REPLIES],
        &[2],
        4,
        "sip: peer fault\n",
        "",
    ),
    (
        "sub:1:2",
        &[HELD, REPLIES],
        &[6],
        4,
        "sip: write fault on sketch\n",
        "",
    ),
];

// The status of what these words ask of the sketch, or of a file that has other bytes.
fn asked(
    alloc: Global,
    file: &[u8],
    row: &Row,
    report: &mut MemorySink,
) -> Result<Option<AskStatus>, Fail> {
    let mut text = String::from_str(alloc, "ask|sketch|from|to|")?;
    text.push_str(row.0)?;
    let words = words_between(alloc, &text, '|')?;
    let mut said = Vec::new(alloc);
    for part in row.1 {
        said.extend_from_slice(part)?;
    }
    let link = MemoryLink::new(alloc, said, 10_000, row.2.to_vec(alloc)?);
    let mut desk = MemoryDesk::new(link, Some(file.to_vec(alloc)?), 0);
    match read_ask_words(&words) {
        Ok(asked) => Ok(Some(obey_ask(alloc, &asked, &mut desk, report))),
        Err(_) => Ok(None),
    }
}

fn check_rows(rt: &impl Abort, alloc: Global, file: &[u8], rows: &[Row]) -> Result<(), Fail> {
    for (index, row) in rows.iter().enumerate() {
        let case = Case {
            name: row.0,
            number: index as u64,
        };
        let mut report = MemorySink::new(alloc, 10_000, Vec::new(alloc));
        let Some(status) = asked(alloc, file, row, &mut report)? else {
            case.holds(false).expect(rt, "words of an ask");
            return Ok(());
        };
        let mut errors = MemorySink::new(alloc, 10_000, Vec::new(alloc));
        let ending = finish_ask(&status, &mut errors);
        case.holds(ending.code == row.3).expect(rt, "a code");
        case.writes(errors.bytes(), row.4.as_bytes())
            .expect(rt, "a line");
        case.writes(report.bytes(), row.5.as_bytes())
            .expect(rt, "a report");
    }
    Ok(())
}

#[test]
fn an_ask_ends_by_its_words_and_its_helper(rt: HostRuntime) -> Result<(), Fail> {
    check_rows(&rt, rt.alloc(), &WATCHED, ROWS)
}

// A sketch that is cut in its digest, and an empty file.
#[test]
fn an_ask_of_a_bad_sketch_says_where(rt: HostRuntime) -> Result<(), Fail> {
    let alloc = rt.alloc();
    let cut: Row = (
        "sub:1:2",
        &[],
        &[],
        3,
        "sip: bad sketch at offset 120\n",
        "",
    );
    check_rows(&rt, alloc, &WATCHED[..151], &[cut])?;
    let none: Row = ("sub:1:2", &[], &[], 3, "sip: bad sketch at offset 0\n", "");
    check_rows(&rt, alloc, &[], &[none])
}
