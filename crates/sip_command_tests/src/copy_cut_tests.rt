// The commands that copy a stream, over ports that fail.

use crate::copy_tests::THREE_LINES;
use crate::cut::{Calls, Copied, Cut, check_copied, check_cuts};
use crate::frames::{THREE_RECORDS, ZERO_SEED};
use crate::row::{At, Row, RunInput};
use sip_verifier::Status;
use std::test::Fail;

const LINES: Row<'static> = Row {
    name: "lines s 2",
    given: RunInput {
        words: "lines s 2",
        stream: &THREE_RECORDS,
        seed: &ZERO_SEED,
        replies: &[],
    },
    status: Status::Wrote,
    code: 0,
    report: THREE_LINES,
    sent: &[],
    then: &[],
};

const TEXT: Row<'static> = Row {
    name: "lines text:s 2",
    given: RunInput {
        words: "lines text:s 2",
        stream: THREE_LINES,
        seed: &ZERO_SEED,
        replies: &[],
    },
    ..LINES
};

const RECORDS: Row<'static> = Row {
    name: "gen 7 3 2",
    given: RunInput {
        words: "gen 7 3 2",
        stream: &THREE_RECORDS,
        seed: &ZERO_SEED,
        replies: &[],
    },
    report: &THREE_RECORDS,
    ..LINES
};

// Where the stream fails, all that the calls before it gave whole is written. A record is 13 bytes,
// and each line is 6. In single bytes these are as many calls; a record that may be asked for at
// once is one call, and a line is read byte by byte all the same.
const COPIED: &[Copied<'static>] = &[
    Copied {
        name: "the stream of lines s by the byte",
        row: LINES,
        by_the_byte: true,
        calls: &[(1, 13, 0), (14, 26, 6), (27, 39, 12), (40, 40, 18)],
    },
    Copied {
        name: "the stream of lines s at once",
        row: LINES,
        by_the_byte: false,
        calls: &[(1, 1, 0), (2, 2, 6), (3, 3, 12), (4, 4, 18)],
    },
    Copied {
        name: "the stream of lines text:s",
        row: TEXT,
        by_the_byte: true,
        calls: TEXT_CALLS,
    },
    Copied {
        name: "the stream of lines text:s",
        row: TEXT,
        by_the_byte: false,
        calls: TEXT_CALLS,
    },
    Copied {
        name: "the stream of gen by the byte",
        row: RECORDS,
        by_the_byte: true,
        calls: &[(1, 13, 0), (14, 26, 13), (27, 39, 26), (40, 40, 39)],
    },
    Copied {
        name: "the stream of gen at once",
        row: RECORDS,
        by_the_byte: false,
        calls: &[(1, 1, 0), (2, 2, 13), (3, 3, 26), (4, 4, 39)],
    },
];

const TEXT_CALLS: &[(u64, u64, usize)] = &[(1, 6, 0), (7, 12, 6), (13, 18, 12), (19, 19, 18)];

// Each call of the report fails once: the bytes before it are written.
const REPORT: &[Cut<'static>] = &[Cut {
    row: LINES,
    by_the_byte: true,
    calls: &[Calls {
        name: "the report of lines s",
        at: At::Report,
        from: 1,
        to: 18,
        said: (0, 0),
        written: (0, 17),
    }],
    not_made: &[],
    quiet: 0,
    whole_lines: false,
}];

#[test]
fn copies_over_ports_that_fail(rt: HostRuntime) -> Result<(), Fail> {
    check_copied(&rt, rt.alloc(), COPIED)?;
    check_cuts(&rt, rt.alloc(), REPORT)
}
