// Worked runs of `moments`, and talks of `helpmom`, by the bytes that go in and those that come
// out.

use crate::checks::check_rows;
use crate::faulty::{Faulty, NO_MEMORY, check_first};
use crate::frames::*;
use crate::question_frames::*;
use crate::row::{self, LEFT, OUT_OF_TURN, Row, RunInput, SERVED, Said};
use sip_verifier::Status;
use sip_wire::Reason;
use std::test::Fail;

// The numbers 3, 0, 5, 1, whose cubes are 153.
const GIVEN: RunInput<'static> = RunInput {
    words: "moments s seed a b 2 moment:0:3",
    stream: &THREE_RECORDS,
    seed: &ZERO_SEED,
    replies: &[&CLAIM_153, &CUBES_1, &CUBES_2_AT_ZERO_SEED],
};

const CUBES: Row<'static> = Row {
    name: "the cubes",
    given: GIVEN,
    status: Status::Accepted,
    code: 0,
    report: b"moment:0:3 153\n",
    sent: &[
        Said::Out(&OPEN_2),
        Said::Out(&UPDATES_OF_THREE),
        Said::Out(&THREE_RECORDS),
        Said::Out(&END_STREAM),
        Said::Out(&ASK_THIRD),
    ],
    then: &[
        Said::In(&CLAIM_153),
        Said::In(&CUBES_1),
        Said::Out(&REVEAL),
        Said::In(&CUBES_2_AT_ZERO_SEED),
        Said::Out(&END),
    ],
};

// The eighth power of 181 fits a claim, and that of 182 does not.
const EIGHTH: Row<'static> = Row {
    name: "the eighth power of 181",
    given: RunInput {
        words: "moments s seed a b 1 moment:0:8",
        stream: &RECORD_OF_181,
        replies: &[&CLAIM_OF_181, &EIGHTH_OF_181],
        ..GIVEN
    },
    status: Status::Accepted,
    code: 0,
    report: b"moment:0:8 1151936657823500641\n",
    sent: &[
        Said::Out(&OPEN_1),
        Said::Out(&UPDATES_OF_ONE),
        Said::Out(&RECORD_OF_181),
        Said::Out(&END_STREAM),
        Said::Out(&ASK_EIGHTH),
    ],
    then: &[
        Said::In(&CLAIM_OF_181),
        Said::In(&EIGHTH_OF_181),
        Said::Out(&END),
    ],
};

const OF_182: RunInput<'static> = RunInput {
    words: "moments s seed a b 1 moment:0:8",
    stream: &RECORD_OF_182,
    replies: &[],
    ..GIVEN
};

const TOO_HIGH: Row<'static> = Row {
    name: "that of 182",
    given: OF_182,
    status: Status::TooHigh { query: 1 },
    code: 3,
    report: b"",
    sent: &[
        Said::Out(&OPEN_1),
        Said::Out(&UPDATES_OF_ONE),
        Said::Out(&RECORD_OF_182),
        Said::Out(&END_STREAM),
    ],
    then: &[],
};

const RUNS: &[Row<'static>] = &[
    CUBES,
    EIGHTH,
    TOO_HIGH,
    Row {
        name: "the other side weighs nothing, and the seventh power fits",
        given: RunInput {
            words: "moments s seed a b 1 moment:1:8 moment:0:7 moment:0:8",
            ..OF_182
        },
        status: Status::TooHigh { query: 3 },
        ..TOO_HIGH
    },
];

const REPLIES: &[Faulty<'static>] = &[
    Faulty {
        name: "the polynomials of another challenge",
        replies: &[&CLAIM_153, &CUBES_1, &CUBES_2],
        then: &[
            Said::In(&CLAIM_153),
            Said::In(&CUBES_1),
            Said::Out(&REVEAL),
            Said::In(&CUBES_2),
        ],
        round: 1,
        reason: Reason::Sum,
        line: b"rejected query 1 round 1 Sum\n",
    },
    NO_MEMORY,
];

const HELPING: RunInput<'static> = RunInput {
    words: "helpmom from to",
    ..row::HELPING
};

const CUBES_SERVED: Row<'static> = Row {
    name: "a whole talk",
    given: RunInput {
        replies: &[&STREAM_OF_THREE, &ASK_THIRD, &REVEAL_OF_2, &END],
        ..HELPING
    },
    sent: &[Said::In(&STREAM_OF_THREE)],
    then: &[
        Said::In(&ASK_THIRD),
        Said::Out(&CLAIM_153),
        Said::Out(&CUBES_1),
        Said::In(&REVEAL_OF_2),
        Said::Out(&CUBES_2),
        Said::In(&END),
    ],
    ..SERVED
};

const TALKS: &[Row<'static>] = &[
    CUBES_SERVED,
    Row {
        name: "a whole talk in version 2",
        given: RunInput {
            replies: &[&STREAM_OF_THREE_WIDE, &ASK_THIRD, &REVEAL_OF_2, &END],
            ..HELPING
        },
        sent: &[Said::In(&STREAM_OF_THREE_WIDE)],
        ..CUBES_SERVED
    },
    Row {
        name: "the verifier leaves where a moment is due",
        given: RunInput {
            replies: &[&OPEN_2, &END_STREAM],
            ..HELPING
        },
        ..LEFT
    },
    Row {
        name: "side 2 is none",
        given: RunInput {
            replies: &[&OPEN_2, &END_STREAM, &ASK_SIDE_2],
            ..HELPING
        },
        then: &[Said::In(&ASK_SIDE_2), Said::Out(&REFUSE_4)],
        ..OUT_OF_TURN
    },
    Row {
        name: "a claim has no room for the eighth power of 182",
        given: RunInput {
            replies: &[
                &OPEN_1,
                &UPDATES_OF_ONE,
                &RECORD_OF_182,
                &END_STREAM,
                &ASK_EIGHTH,
            ],
            ..HELPING
        },
        status: Status::BadFrame { offset: 26 },
        code: 3,
        then: &[
            Said::In(&OPEN_1),
            Said::In(&UPDATES_OF_ONE),
            Said::In(&RECORD_OF_182),
            Said::In(&END_STREAM),
            Said::In(&ASK_EIGHTH),
            Said::Out(&REFUSE_4),
        ],
        ..SERVED
    },
    Row {
        name: "a lookup where a moment is due",
        given: RunInput {
            replies: &[&OPEN_2, &END_STREAM, &ASK_SUCC_1],
            ..HELPING
        },
        then: &[Said::In(&ASK_HEADER)],
        ..OUT_OF_TURN
    },
];

#[test]
fn runs_and_talks_of_moments(rt: HostRuntime) -> Result<(), Fail> {
    check_rows(&rt, rt.alloc(), RUNS)?;
    check_first(&rt, rt.alloc(), &CUBES, REPLIES)?;
    check_rows(&rt, rt.alloc(), TALKS)
}
