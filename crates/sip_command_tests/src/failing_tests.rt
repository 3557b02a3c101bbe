// The first run, and one that is rejected, where each call of each port fails once.

use crate::cut::{Calls, Cut, SEED_AT_ONCE, STREAM_AT_ONCE, check_cuts};
use crate::row::{At, FIRST_RUN, REJECTED_RUN};
use std::test::Fail;

// The stream has 39 bytes and an end, the seed 32, the talk 119, the line 12 and the transcript 76,
// of which the first 35 are its head. Nothing is said before the head is kept. The opening is 5
// bytes, and the farewell the last 3.
const BY_THE_BYTE: &[Calls<'static>] = &[
    Calls {
        name: "the stream by the byte",
        at: At::First,
        from: 1,
        to: 40,
        said: (5, 5),
        written: (0, 0),
    },
    Calls {
        name: "the seed by the byte",
        at: At::Second,
        from: 1,
        to: 32,
        said: (0, 0),
        written: (0, 0),
    },
    Calls {
        name: "the link by the byte",
        at: At::Peer,
        from: 1,
        to: 119,
        said: (0, 118),
        written: (0, 12),
    },
    Calls {
        name: "the report by the byte",
        at: At::Report,
        from: 1,
        to: 12,
        said: (116, 116),
        written: (0, 11),
    },
    Calls {
        name: "the head by the byte",
        at: At::Keep,
        from: 1,
        to: 35,
        said: (0, 0),
        written: (0, 0),
    },
    Calls {
        name: "the record by the byte",
        at: At::Keep,
        from: 36,
        to: 76,
        said: (0, 116),
        written: (0, 12),
    },
];

// The stream has 3 records and its end, and the seed and the line are one call each; the link has 6
// frames out, and 3 frames in of a header and a body each; the transcript is written in 2 parts of
// its head and 3 frames.
const AT_ONCE: &[Calls<'static>] = &[
    STREAM_AT_ONCE,
    SEED_AT_ONCE,
    Calls {
        name: "the link at once",
        at: At::Peer,
        from: 1,
        to: 12,
        said: (0, 116),
        written: (0, 12),
    },
    Calls {
        name: "the line at once",
        at: At::Report,
        from: 1,
        to: 1,
        said: (116, 116),
        written: (0, 0),
    },
    Calls {
        name: "the record at once",
        at: At::Keep,
        from: 1,
        to: 5,
        said: (0, 116),
        written: (0, 12),
    },
];

// Its line is cut short at each byte: the talk is that of the rejection.
const ITS_LINE: &[Calls<'static>] = &[Calls {
    name: "the line of a rejection",
    at: At::Report,
    from: 1,
    to: 30,
    said: (116, 116),
    written: (0, 29),
}];

// Nothing is written before the last reply came.
const CUTS: &[Cut<'static>] = &[
    Cut {
        row: FIRST_RUN,
        by_the_byte: true,
        calls: BY_THE_BYTE,
        not_made: &[
            (At::First, 41),
            (At::Second, 33),
            (At::Peer, 120),
            (At::Report, 13),
            (At::Keep, 77),
        ],
        quiet: 116,
        whole_lines: false,
    },
    Cut {
        row: FIRST_RUN,
        by_the_byte: false,
        calls: AT_ONCE,
        not_made: &[
            (At::First, 5),
            (At::Second, 2),
            (At::Peer, 13),
            (At::Report, 2),
            (At::Keep, 6),
        ],
        quiet: 116,
        whole_lines: true,
    },
    Cut {
        row: REJECTED_RUN,
        by_the_byte: true,
        calls: ITS_LINE,
        not_made: &[(At::Report, 31)],
        quiet: 116,
        whole_lines: false,
    },
];

#[test]
fn each_call_fails_once(rt: HostRuntime) -> Result<(), Fail> {
    check_cuts(&rt, rt.alloc(), CUTS)
}
