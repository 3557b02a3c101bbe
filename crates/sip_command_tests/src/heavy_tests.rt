// Heavy hitters and shares that are known by the total of a side: nothing is asked, or the answer
// is too wide.

use crate::checks::check_rows;
use crate::frames::*;
use crate::heavy_frames::*;
use crate::row::{FIRST_GIVEN, FIRST_RUN, Row, RunInput, Said};
use sip_verifier::Status;
use std::test::Fail;

// Nothing is heard, and what is sent has no query. A share has version 2.
const NOT_ASKED: &[Row<'static>] = &[
    Row {
        name: "9 is less than 10",
        given: RunInput {
            words: "verify s seed a b - 2 heavy:0:10",
            replies: &[],
            ..FIRST_GIVEN
        },
        report: b"heavy:0:10 none\n",
        sent: &[
            Said::Out(&OPEN_2),
            Said::Out(&UPDATES_OF_THREE),
            Said::Out(&THREE_RECORDS),
            Said::Out(&END_STREAM),
        ],
        then: &[Said::Out(&BYE)],
        ..FIRST_RUN
    },
    Row {
        name: "a share of nothing",
        given: RunInput {
            words: "verify s seed a b - 2 share:0:1:2",
            stream: &[],
            replies: &[],
            ..FIRST_GIVEN
        },
        report: b"share:0:1:2 none\n",
        sent: &[Said::Out(&OPEN_2_WIDE), Said::Out(&END_STREAM)],
        then: &[Said::Out(&BYE)],
        ..FIRST_RUN
    },
];

// No entry is all of the total. The threshold is the total itself, so the query is asked.
const ASKED: &[Row<'static>] = &[Row {
    name: "no entry is 9",
    given: RunInput {
        words: "verify s seed a b - 2 share:0:1:1",
        replies: &[&LEVEL_END, &WIDE_NODES_AT_ZERO_SEED, &LEVEL_END],
        ..FIRST_GIVEN
    },
    report: b"share:0:1:1 none\n",
    sent: &[
        Said::Out(&OPEN_2_WIDE),
        Said::Out(&UPDATES_OF_THREE_WIDE),
        Said::Out(&THREE_WIDE_RECORDS),
        Said::Out(&END_STREAM),
        Said::Out(&ALL),
    ],
    then: &[
        Said::In(&LEVEL_END),
        Said::Out(&REVEAL),
        Said::In(&WIDE_NODES_AT_ZERO_SEED),
        Said::In(&LEVEL_END),
        Said::Out(&BYE),
    ],
    ..FIRST_RUN
}];

// A total of 65,537 is too wide for a threshold of 1, which a share of 1/65537 comes to. The talk
// ends with the stream.
const TOO_WIDE: Row<'static> = Row {
    name: "",
    given: ONE_OF_65537,
    status: Status::TooWide { query: 1 },
    code: 3,
    report: b"",
    sent: &[
        Said::Out(&OPEN_1),
        Said::Out(&UPDATE_OF_65537),
        Said::Out(&END_STREAM),
    ],
    then: &[],
};

const ONE_OF_65537: RunInput<'static> = RunInput {
    words: "",
    stream: b"0 0 65537\n",
    seed: &ZERO_SEED,
    replies: &[],
};

const WIDE: &[Row<'static>] = &[
    Row {
        name: "heavy:0:1 is too wide",
        given: RunInput {
            words: "verify text:s seed a b - 1 heavy:0:1",
            ..ONE_OF_65537
        },
        ..TOO_WIDE
    },
    Row {
        name: "share:0:1:65537 is too wide",
        given: RunInput {
            words: "verify text:s seed a b - 1 share:0:1:65537",
            ..ONE_OF_65537
        },
        sent: &[
            Said::Out(&OPEN_1_WIDE),
            Said::Out(&WIDE_UPDATE_OF_65537),
            Said::Out(&END_STREAM),
        ],
        ..TOO_WIDE
    },
    Row {
        name: "heavy:0:1 is too wide before another query",
        given: RunInput {
            words: "verify text:s seed a b - 1 heavy:0:1 sub:0:1",
            ..ONE_OF_65537
        },
        ..TOO_WIDE
    },
];

#[test]
fn queries_by_their_total(rt: HostRuntime) -> Result<(), Fail> {
    check_rows(&rt, rt.alloc(), NOT_ASKED)?;
    check_rows(&rt, rt.alloc(), ASKED)?;
    check_rows(&rt, rt.alloc(), WIDE)
}
