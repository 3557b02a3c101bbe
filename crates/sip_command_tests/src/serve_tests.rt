// Talks of `serve`, by what the one says who asks, over a stream in a file.

use crate::case::Case;
use crate::checks::check_rows;
use crate::frames::*;
use crate::question_frames::{ASK_SUCC_1, ASK_THIRD, CLAIM_153, CUBES_1, CUBES_2, FOUND_2};
use crate::row::{At, Failing, HELPING, Row, RunInput, SERVED, Said};
use sip_stream::Why;
use sip_verifier::{Port, Status};
use std::alloc::Global;
use std::process::Abort;
use std::test::Fail;

// How many records are to be heard.
const RECALL_2: [u8; 11] = [0x27, 0, 8, 0, 0, 0, 0, 0, 0, 0, 2];

const RECALL_3: [u8; 11] = [0x27, 0, 8, 0, 0, 0, 0, 0, 0, 0, 3];

// What two and three records come to: how many they are, the weights of both sides, and their
// fingerprint.
const HELD_2: [u8; 35] = [
    0x26, 0, 0x20, 0, 0, 0, 0, 0, 0, 0, 2, 0, 0, 0, 0, 0, 0, 0, 8, 0, 0, 0, 0, 0, 0, 0, 0, 0x9b,
    0x1b, 0x06, 0x03, 0x00, 0x4e, 0x1b, 0x13,
];

const HELD_3: [u8; 35] = [
    0x26, 0, 0x20, 0, 0, 0, 0, 0, 0, 0, 3, 0, 0, 0, 0, 0, 0, 0, 9, 0, 0, 0, 0, 0, 0, 0, 0, 0xb8,
    0x26, 0x1a, 0xe7, 0xdb, 0x4f, 0xab, 0x00,
];

const SERVING: RunInput<'static> = RunInput {
    words: "serve s - -",
    ..HELPING
};

// Questions of each kind in one talk.
const WHOLE: Row<'static> = Row {
    name: "a whole talk",
    given: RunInput {
        replies: &[
            &OPEN_2,
            &RECALL_3,
            &SUB_1_2,
            &REVEAL_OF_2,
            &ASK_SUCC_1,
            &ASK_THIRD,
            &REVEAL_OF_2,
            &BYE,
        ],
        ..SERVING
    },
    then: &[
        Said::In(&OPEN_2),
        Said::In(&RECALL_3),
        Said::Out(&HELD_3),
        Said::In(&SUB_1_2),
        Said::Out(&ENTRY_2),
        Said::Out(&SIBLINGS_3_1),
        Said::In(&REVEAL_OF_2),
        Said::Out(&NO_SIBLINGS),
        Said::In(&ASK_SUCC_1),
        Said::Out(&FOUND_2),
        Said::In(&ASK_THIRD),
        Said::Out(&CLAIM_153),
        Said::Out(&CUBES_1),
        Said::In(&REVEAL_OF_2),
        Said::Out(&CUBES_2),
        Said::In(&BYE),
    ],
    ..SERVED
};

// The first two records alone, whatever is behind them.
const ASKED_FOR_TWO: RunInput<'static> = RunInput {
    replies: &[&OPEN_2, &RECALL_2, &BYE],
    ..SERVING
};

const TWO_HEARD: Row<'static> = Row {
    name: "two records of three",
    given: ASKED_FOR_TWO,
    then: &[
        Said::In(&OPEN_2),
        Said::In(&RECALL_2),
        Said::Out(&HELD_2),
        Said::In(&BYE),
    ],
    ..SERVED
};

const TALKS: &[Row<'static>] = &[
    WHOLE,
    Row {
        name: "a talk in version 2 over lines",
        given: RunInput {
            words: "serve text:s from to",
            stream: &THREE_LINES,
            replies: &[&OPEN_2_WIDE, &RECALL_3, &SUB_1_2_WIDE, &REVEAL_OF_2, &BYE],
            ..SERVING
        },
        then: &[
            Said::In(&OPEN_2_WIDE),
            Said::In(&RECALL_3),
            Said::Out(&HELD_3),
            Said::In(&SUB_1_2_WIDE),
            Said::Out(&ENTRY_2_WIDE),
            Said::Out(&SIBLINGS_3_1),
            Said::In(&REVEAL_OF_2),
            Said::Out(&NO_SIBLINGS),
            Said::In(&BYE),
        ],
        ..SERVED
    },
    TWO_HEARD,
    Row {
        name: "two records and half of a third",
        given: RunInput {
            stream: &RECORDS_CUT_SHORT,
            ..ASKED_FOR_TWO
        },
        ..TWO_HEARD
    },
    Row {
        name: "two records where three are asked for",
        given: RunInput {
            words: "serve text:s from to",
            stream: b"0 0 3\n0 2 5\n",
            replies: &[&OPEN_2, &RECALL_3, &BYE],
            ..SERVING
        },
        then: &[
            Said::In(&OPEN_2),
            Said::In(&RECALL_3),
            Said::Out(&HELD_2),
            Said::In(&BYE),
        ],
        ..SERVED
    },
    Row {
        name: "a farewell before anything is read",
        given: RunInput {
            stream: &SIDE_2,
            replies: &[&OPEN_2, &BYE],
            ..SERVING
        },
        then: &[Said::In(&OPEN_2), Said::In(&BYE)],
        ..SERVED
    },
];

// The other end sees that the link was closed: nothing is said of what was heard.
const ASKED_FOR_HALF: RunInput<'static> = RunInput {
    stream: &RECORDS_CUT_SHORT,
    replies: &[&OPEN_2, &RECALL_3, &SUB_1_2],
    ..SERVING
};

const UNHEARD: Row<'static> = Row {
    name: "half of a record that is asked for",
    given: ASKED_FOR_HALF,
    status: Status::BadStream {
        at: 2,
        why: Why::Truncated,
    },
    code: 3,
    then: &[Said::In(&OPEN_2), Said::In(&RECALL_3)],
    ..SERVED
};

const STOPPED: &[Row<'static>] = &[
    UNHEARD,
    Row {
        name: "lines that are read as records",
        given: RunInput {
            stream: &THREE_LINES,
            ..ASKED_FOR_HALF
        },
        status: Status::BadStream {
            at: 0,
            why: Why::BadSide,
        },
        ..UNHEARD
    },
    Row {
        name: "the stream is sent",
        given: RunInput {
            replies: &[&STREAM_OF_THREE],
            ..SERVING
        },
        status: Status::BadFrame { offset: 5 },
        code: 3,
        then: &[
            Said::In(&OPEN_2),
            Said::In(&UPDATES_OF_THREE),
            Said::In(&THREE_RECORDS),
            Said::Out(&REFUSE_4),
        ],
        ..SERVED
    },
    Row {
        name: "records are asked for once more",
        given: RunInput {
            replies: &[&OPEN_2, &RECALL_3, &RECALL_2],
            ..SERVING
        },
        status: Status::BadFrame { offset: 16 },
        code: 3,
        then: &[
            Said::In(&OPEN_2),
            Said::In(&RECALL_3),
            Said::Out(&HELD_3),
            Said::In(&RECALL_2),
            Said::Out(&REFUSE_4),
        ],
        ..SERVED
    },
    Row {
        name: "the other end leaves",
        given: RunInput {
            replies: &[&OPEN_2, &RECALL_3],
            ..SERVING
        },
        status: Status::PeerClosed,
        code: 4,
        then: &[
            Said::In(&OPEN_2),
            Said::In(&RECALL_3),
            Said::Out(&HELD_3),
            Said::Ended,
        ],
        ..SERVED
    },
];

// A call of the stream or of the link that fails ends the talk so.
fn check_failing(rt: &impl Abort, alloc: Global, at: At, status: Status) -> Result<(), Fail> {
    let failing = Some(Failing { at, number: 1 });
    let shown = WHOLE.given.run(alloc, 10_000, failing)?;
    let case = Case {
        name: "a call that fails",
        number: 1,
    };
    case.ends(shown.status, status).expect(rt, "a case");
    case.writes(shown.report.bytes(), &[]).expect(rt, "a case");
    Ok(())
}

#[test]
fn a_stream_is_served_as_far_as_it_is_asked_for(rt: HostRuntime) -> Result<(), Fail> {
    check_rows(&rt, rt.alloc(), TALKS)
}

#[test]
fn a_talk_over_a_stream_stops(rt: HostRuntime) -> Result<(), Fail> {
    let alloc = rt.alloc();
    check_rows(&rt, alloc, STOPPED)?;
    let first = Status::ReadFault { port: Port::First };
    check_failing(&rt, alloc, At::First, first)?;
    check_failing(&rt, alloc, At::Peer, Status::PeerFault)
}
