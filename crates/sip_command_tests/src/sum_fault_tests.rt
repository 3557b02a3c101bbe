// Runs of `verify` that ask for the sum of the squares of (3, 0, 5, 1), with scripted replies.

use crate::checks::check_rows;
use crate::faulty::{Behind, Faulty, NOTHING_OF_REPLY_1, check_faulty};
use crate::frames::*;
use crate::row::{FIRST_GIVEN, FIRST_RUN, Row, RunInput, Said};
use crate::sum_frames::*;
use sip_wire::Reason;
use std::test::Fail;

const ASKING: RunInput<'static> = RunInput {
    words: "verify s seed a b - 2 f2:0",
    replies: &[&CLAIM_35, &SQUARES_1, &SQUARES_2_AT_ZERO_SEED],
    ..FIRST_GIVEN
};

// The run that is accepted, with the challenge that the seed of zeros gives.
const SQUARES: Row<'static> = Row {
    name: "the squares are 35",
    given: ASKING,
    report: b"f2:0 35\n",
    sent: &[
        Said::Out(&OPEN_2),
        Said::Out(&UPDATES_OF_THREE),
        Said::Out(&THREE_RECORDS),
        Said::Out(&END_STREAM),
        Said::Out(&F2),
    ],
    then: &[
        Said::In(&CLAIM_35),
        Said::In(&SQUARES_1),
        Said::Out(&REVEAL),
        Said::In(&SQUARES_2_AT_ZERO_SEED),
        Said::Out(&BYE),
    ],
    ..FIRST_RUN
};

// The same, up to its query.
const ASKED: Row<'static> = Row {
    given: RunInput {
        replies: &[],
        ..ASKING
    },
    report: b"",
    then: &[],
    ..SQUARES
};

// Reply 0 has a fault. The bytes behind it are not taken.
const FIRST_REPLIES: &[Faulty<'static>] = &[
    Faulty {
        name: "entries may not stand here",
        replies: &[&ENTRY_2, &SIBLINGS_3_1],
        then: &[Said::In(&ENTRY_HEADER)],
        round: 0,
        reason: Reason::BadKind,
        line: b"rejected query 1 round 0 BadKind\n",
    },
    Faulty {
        name: "a claim has no body of 9 bytes",
        replies: &[&LONG_CLAIM_HEADER, &ZEROS],
        then: &[Said::In(&LONG_CLAIM_HEADER)],
        round: 0,
        reason: Reason::BadLength,
        line: b"rejected query 1 round 0 BadLength\n",
    },
    Faulty {
        name: "a claim is no 2^60",
        replies: &[&CLAIM_2_TO_60, &SQUARES_1],
        then: &[Said::In(&CLAIM_2_TO_60)],
        round: 0,
        reason: Reason::BadNumber,
        line: b"rejected query 1 round 0 BadNumber\n",
    },
    Faulty {
        name: "p is no element",
        replies: &[&CLAIM_35, &POLY_OF_P, &SQUARES_2],
        then: &[Said::In(&CLAIM_35), Said::In(&POLY_OF_P)],
        round: 0,
        reason: Reason::BadNumber,
        line: b"rejected query 1 round 0 BadNumber\n",
    },
    Faulty {
        name: "the squares are not 36",
        replies: &[&CLAIM_36, &SQUARES_1, &SQUARES_2],
        then: &[Said::In(&CLAIM_36), Said::In(&SQUARES_1)],
        round: 0,
        reason: Reason::Sum,
        line: b"rejected query 1 round 0 Sum\n",
    },
    Faulty {
        name: "the squares are not 2^60 - 1",
        replies: &[&GREATEST_CLAIM, &SQUARES_1, &SQUARES_2],
        then: &[Said::In(&GREATEST_CLAIM), Said::In(&SQUARES_1)],
        round: 0,
        reason: Reason::Sum,
        line: b"rejected query 1 round 0 Sum\n",
    },
    Faulty {
        name: "a part of a polynomial comes",
        replies: &[&CLAIM_35, &PART_OF_POLY],
        then: &[Said::In(&CLAIM_35), Said::In(&PART_OF_POLY), Said::Ended],
        round: 0,
        reason: Reason::Closed,
        line: b"rejected query 1 round 0 Closed\n",
    },
    Faulty {
        name: "the helper refuses behind its claim",
        replies: &[&CLAIM_35, &REFUSE_1, &SQUARES_1],
        then: &[Said::In(&CLAIM_35), Said::In(&REFUSE_1)],
        round: 0,
        reason: Reason::Refused(1),
        line: b"rejected query 1 round 0 Refused(1)\n",
    },
    Faulty {
        name: "a claim is no -2^60",
        replies: &[&CLAIM_BELOW_LEAST, &SQUARES_1],
        then: &[Said::In(&CLAIM_BELOW_LEAST)],
        round: 0,
        reason: Reason::BadNumber,
        line: b"rejected query 1 round 0 BadNumber\n",
    },
    Faulty {
        name: "no polynomial comes",
        replies: &[&CLAIM_35],
        then: &[Said::In(&CLAIM_35), Said::Ended],
        round: 0,
        reason: Reason::Closed,
        line: b"rejected query 1 round 0 Closed\n",
    },
    Faulty {
        name: "a polynomial comes before its claim",
        replies: &[&SQUARES_1, &CLAIM_35],
        then: &[Said::In(&POLY_HEADER)],
        round: 0,
        reason: Reason::BadKind,
        line: b"rejected query 1 round 0 BadKind\n",
    },
    Faulty {
        name: "a claim comes behind the claim",
        replies: &[&CLAIM_35, &CLAIM_35],
        then: &[Said::In(&CLAIM_35), Said::In(&CLAIM_HEADER)],
        round: 0,
        reason: Reason::BadKind,
        line: b"rejected query 1 round 0 BadKind\n",
    },
];

// Reply 0 is taken, and the challenge goes out. The farewell does not.
const REVEALED: Row<'static> = Row {
    given: RunInput {
        replies: &[&CLAIM_35, &SQUARES_1],
        ..ASKING
    },
    then: &[
        Said::In(&CLAIM_35),
        Said::In(&SQUARES_1),
        Said::Out(&REVEAL),
    ],
    ..ASKED
};

const LAST_REPLIES: &[Faulty<'static>] = &[
    NOTHING_OF_REPLY_1,
    Faulty {
        name: "reply 1 has no claim",
        replies: &[&CLAIM_35, &SQUARES_2],
        then: &[Said::In(&CLAIM_HEADER)],
        round: 1,
        reason: Reason::BadKind,
        line: b"rejected query 1 round 1 BadKind\n",
    },
    Faulty {
        name: "a polynomial of two coefficients",
        replies: &[&SHORT_POLY_HEADER, &ZEROS],
        then: &[Said::In(&SHORT_POLY_HEADER)],
        round: 1,
        reason: Reason::BadLength,
        line: b"rejected query 1 round 1 BadLength\n",
    },
    Faulty {
        name: "the polynomial at another challenge",
        replies: &[&SQUARES_2, &REFUSE_1],
        then: &[Said::In(&SQUARES_2)],
        round: 1,
        reason: Reason::Sum,
        line: b"rejected query 1 round 1 Sum\n",
    },
    Faulty {
        name: "another polynomial of the same sum",
        replies: &[&SAME_SUM_AT_ZERO_SEED, &REFUSE_1],
        then: &[Said::In(&SAME_SUM_AT_ZERO_SEED)],
        round: 2,
        reason: Reason::Root,
        line: b"rejected query 1 round 2 Root\n",
    },
    Faulty {
        name: "the helper refuses in reply 1",
        replies: &[&REFUSE_1, &SQUARES_2],
        then: &[Said::In(&REFUSE_1)],
        round: 1,
        reason: Reason::Refused(1),
        line: b"rejected query 1 round 1 Refused(1)\n",
    },
];

const ACCEPTED: &[Row<'static>] = &[SQUARES];

const FAULTS: &[Behind<'static>] = &[
    Behind {
        before: ASKED,
        query: 1,
        rows: FIRST_REPLIES,
    },
    Behind {
        before: REVEALED,
        query: 1,
        rows: LAST_REPLIES,
    },
];

#[test]
fn replies_about_squares(rt: HostRuntime) -> Result<(), Fail> {
    check_rows(&rt, rt.alloc(), ACCEPTED)?;
    check_faulty(&rt, rt.alloc(), FAULTS)
}
