// Worked runs of `verify`, by the bytes that go in and those that come out.

use crate::checks::check_rows;
use crate::frames::*;
use crate::row::{FIRST_GIVEN, FIRST_RUN, Row, RunInput, Said};
use sip_stream::Why;
use sip_vector::Side;
use sip_verifier::Status;
use std::test::Fail;

// What is said is the same, whatever the form of the stream.
const ACCEPTED: &[Row<'static>] = &[
    FIRST_RUN,
    Row {
        name: "a stream of text",
        given: RunInput {
            words: "verify text:s seed a b - 2 sub:1:2",
            stream: &THREE_LINES,
            ..FIRST_GIVEN
        },
        ..FIRST_RUN
    },
    Row {
        name: "a stream of wide records",
        given: RunInput {
            words: "verify wide:s seed a b - 2 sub:1:2",
            stream: &THREE_WIDE_RECORDS,
            ..FIRST_GIVEN
        },
        ..FIRST_RUN
    },
    Row {
        name: "a stream of nothing has no entries",
        given: RunInput {
            words: "verify s seed a b - 2 sub:0:3",
            stream: &[],
            seed: &ZERO_SEED,
            replies: &[&NO_SIBLINGS, &NO_SIBLINGS],
        },
        status: Status::Accepted,
        code: 0,
        report: b"sub:0:3 none\n",
        sent: &[
            Said::Out(&OPEN_2),
            Said::Out(&END_STREAM),
            Said::Out(&SUB_0_3),
        ],
        then: &[
            Said::In(&NO_SIBLINGS),
            Said::Out(&REVEAL),
            Said::In(&NO_SIBLINGS),
            Said::Out(&BYE),
        ],
    },
    Row {
        name: "depth 1 has one reply, and no challenge is revealed",
        given: RunInput {
            words: "verify s seed a b - 1 sub:0:1",
            stream: &TWO_RECORDS,
            seed: &ZERO_SEED,
            replies: &[&ENTRIES_0_1, &NO_SIBLINGS],
        },
        status: Status::Accepted,
        code: 0,
        report: b"sub:0:1 0:3 1:5\n",
        sent: &[
            Said::Out(&OPEN_1),
            Said::Out(&UPDATES_OF_TWO),
            Said::Out(&TWO_RECORDS),
            Said::Out(&END_STREAM),
            Said::Out(&SUB_0_1),
        ],
        then: &[
            Said::In(&ENTRIES_0_1),
            Said::In(&NO_SIBLINGS),
            Said::Out(&BYE),
        ],
    },
];

// The first record that is not legal is named, and nothing but the opening is said.
const BAD: Row<'static> = Row {
    name: "",
    given: FIRST_GIVEN,
    status: Status::BadStream {
        at: 0,
        why: Why::Truncated,
    },
    code: 3,
    report: b"",
    sent: &[Said::Out(&OPEN_2)],
    then: &[],
};

// What is given with a stream of records, with one of text, and with one of wide records.
const RECORDS: RunInput<'static> = FIRST_GIVEN;

const TEXT: RunInput<'static> = RunInput {
    words: "verify text:s seed a b - 2 sub:1:2",
    ..FIRST_GIVEN
};

const WIDE: RunInput<'static> = RunInput {
    words: "verify wide:s seed a b - 2 sub:1:2",
    ..FIRST_GIVEN
};

const BAD_STREAMS: &[Row<'static>] = &[
    Row {
        name: "12 bytes are no record",
        given: RunInput {
            stream: &TWELVE_BYTES,
            ..RECORDS
        },
        status: Status::BadStream {
            at: 0,
            why: Why::Truncated,
        },
        ..BAD
    },
    Row {
        name: "item 4 is none of 4",
        given: RunInput {
            stream: &ITEM_4,
            ..RECORDS
        },
        status: Status::BadStream {
            at: 0,
            why: Why::BadItem,
        },
        ..BAD
    },
    Row {
        name: "side 2 is none",
        given: RunInput {
            stream: &SIDE_2,
            ..RECORDS
        },
        status: Status::BadStream {
            at: 0,
            why: Why::BadSide,
        },
        ..BAD
    },
    Row {
        name: "delta 0 is none",
        given: RunInput {
            stream: &DELTA_0,
            ..RECORDS
        },
        status: Status::BadStream {
            at: 0,
            why: Why::ZeroDelta,
        },
        ..BAD
    },
    Row {
        name: "a side weighs 2^30",
        given: RunInput {
            stream: &TOO_HEAVY,
            ..RECORDS
        },
        status: Status::BadStream {
            at: 1,
            why: Why::TooHeavy(Side::First),
        },
        ..BAD
    },
    Row {
        name: "a record weighs 2^63",
        given: RunInput {
            stream: &LEAST_DELTA,
            ..RECORDS
        },
        status: Status::BadStream {
            at: 0,
            why: Why::TooHeavy(Side::First),
        },
        ..BAD
    },
    Row {
        name: "a line of two numbers is none",
        given: RunInput {
            stream: b"0 0 3\n0 2\n0 3 1\n",
            ..TEXT
        },
        status: Status::BadStream {
            at: 1,
            why: Why::BadLine,
        },
        ..BAD
    },
    Row {
        name: "the last line has no end",
        given: RunInput {
            stream: b"0 0 3\n0 2 5",
            ..TEXT
        },
        status: Status::BadStream {
            at: 1,
            why: Why::Truncated,
        },
        ..BAD
    },
    Row {
        name: "item 4 of a line is none of 4",
        given: RunInput {
            stream: b"0 4 3\n",
            ..TEXT
        },
        status: Status::BadStream {
            at: 0,
            why: Why::BadItem,
        },
        ..BAD
    },
    Row {
        name: "16 bytes are no wide record",
        given: RunInput {
            stream: &WIDE_RECORDS_CUT_SHORT,
            ..WIDE
        },
        status: Status::BadStream {
            at: 2,
            why: Why::Truncated,
        },
        ..BAD
    },
    Row {
        name: "item 2^48 of a wide record is none of 4",
        given: RunInput {
            stream: &ITEM_2_TO_48,
            ..WIDE
        },
        status: Status::BadStream {
            at: 0,
            why: Why::BadItem,
        },
        ..BAD
    },
    Row {
        name: "records are no lines",
        given: RunInput {
            stream: &THREE_RECORDS,
            ..TEXT
        },
        status: Status::BadStream {
            at: 0,
            why: Why::Truncated,
        },
        ..BAD
    },
];

// Words that are no command, and the first one that is none; and a seed that is too short.
const SILENT: Row<'static> = Row {
    name: "",
    given: FIRST_GIVEN,
    status: Status::BadSeed,
    code: 3,
    report: b"",
    sent: &[],
    then: &[],
};

const REFUSED: Row<'static> = Row { code: 2, ..SILENT };

const NOTHING_SAID: &[Row<'static>] = &[
    Row {
        name: "31 bytes are no seed",
        given: RunInput {
            seed: &SHORT_SEED,
            ..FIRST_GIVEN
        },
        ..SILENT
    },
    Row {
        name: "verify",
        given: RunInput {
            words: "verify",
            ..FIRST_GIVEN
        },
        status: Status::Usage { word: 1 },
        ..REFUSED
    },
    Row {
        name: "verify s seed a b - 2 sub:1:4",
        given: RunInput {
            words: "verify s seed a b - 2 sub:1:4",
            ..FIRST_GIVEN
        },
        status: Status::Usage { word: 7 },
        ..REFUSED
    },
    Row {
        name: "verify s seed a b - 2 f2:2",
        given: RunInput {
            words: "verify s seed a b - 2 f2:2",
            ..FIRST_GIVEN
        },
        status: Status::Usage { word: 7 },
        ..REFUSED
    },
    Row {
        name: "verify s seed a b - 2 sub:01:2",
        given: RunInput {
            words: "verify s seed a b - 2 sub:01:2",
            ..FIRST_GIVEN
        },
        status: Status::Usage { word: 7 },
        ..REFUSED
    },
    Row {
        name: "verify s seed a b - 49 sub:1:2",
        given: RunInput {
            words: "verify s seed a b - 49 sub:1:2",
            ..FIRST_GIVEN
        },
        status: Status::Usage { word: 6 },
        ..REFUSED
    },
    Row {
        name: "seventeen queries",
        given: RunInput {
            words: "verify s seed a b - 2 sub:0:0 sub:0:0 sub:0:0 sub:0:0 sub:0:0 sub:0:0 sub:0:0 \
                    sub:0:0 sub:0:0 sub:0:0 sub:0:0 sub:0:0 sub:0:0 sub:0:0 sub:0:0 sub:0:0 \
                    sub:0:0",
            ..FIRST_GIVEN
        },
        status: Status::Usage { word: 23 },
        ..REFUSED
    },
];

// A program that always answers that memory ran out would keep every promise, since that answer is
// free. It fails here.
#[test]
fn worked_runs(rt: HostRuntime) -> Result<(), Fail> {
    check_rows(&rt, rt.alloc(), ACCEPTED)?;
    check_rows(&rt, rt.alloc(), BAD_STREAMS)?;
    check_rows(&rt, rt.alloc(), NOTHING_SAID)
}

// `run` does words of `play` and of `panel` over the link that it is given, whatever helpers they
// name.
const OVER_A_LINK: &[Row<'static>] = &[
    Row {
        name: "words of play",
        given: RunInput {
            words: "play s k mute - 2 sub:1:2",
            ..FIRST_GIVEN
        },
        ..FIRST_RUN
    },
    Row {
        name: "words of panel",
        given: RunInput {
            words: "panel s k mute,skewed 2 sub:1:2",
            ..FIRST_GIVEN
        },
        ..FIRST_RUN
    },
];

#[test]
fn the_link_brings_the_replies_whoever_is_named(rt: HostRuntime) -> Result<(), Fail> {
    check_rows(&rt, rt.alloc(), OVER_A_LINK)
}
