// Talks of `help`, by what the verifier says.

use crate::checks::check_rows;
use crate::frames::*;
use crate::row::{HELPING, OUT_OF_TURN, Row, RunInput, SERVED, Said};
use crate::sum_frames::*;
use sip_verifier::Status;
use std::test::Fail;

// A talk that is served.
const WHOLE: Row<'static> = Row {
    name: "a whole talk",
    given: RunInput {
        replies: &[&STREAM_OF_THREE, &SUB_1_2, &REVEAL_OF_2, &BYE],
        ..HELPING
    },
    then: &[
        Said::In(&STREAM_OF_THREE),
        Said::In(&SUB_1_2),
        Said::Out(&ENTRY_2),
        Said::Out(&SIBLINGS_3_1),
        Said::In(&REVEAL_OF_2),
        Said::Out(&NO_SIBLINGS),
        Said::In(&BYE),
    ],
    ..SERVED
};

// That talk, and how talks end otherwise.
const TALKS: &[Row<'static>] = &[
    WHOLE,
    Row {
        name: "the verifier leaves after the stream",
        given: RunInput {
            replies: &[&STREAM_OF_THREE],
            ..HELPING
        },
        status: Status::PeerClosed,
        code: 4,
        then: &[Said::In(&STREAM_OF_THREE), Said::Ended],
        ..SERVED
    },
    Row {
        name: "bytes that are no frame",
        given: RunInput {
            replies: &[&NO_FRAME],
            ..HELPING
        },
        status: Status::BadFrame { offset: 0 },
        code: 3,
        then: &[Said::In(&NO_FRAME)],
        ..SERVED
    },
    Row {
        name: "a challenge that no query is open for",
        given: RunInput {
            replies: &[&OPEN_2, &REVEAL_OF_2],
            ..HELPING
        },
        status: Status::BadFrame { offset: 5 },
        code: 3,
        then: &[
            Said::In(&OPEN_2),
            Said::In(&REVEAL_OF_2),
            Said::Out(&REFUSE_4),
        ],
        ..SERVED
    },
];

// A talk is in the version of its opening.
const TWO_VERSIONS: &[Row<'static>] = &[
    Row {
        name: "a whole talk in version 2",
        given: RunInput {
            replies: &[&STREAM_OF_THREE_WIDE, &SUB_1_2_WIDE, &REVEAL_OF_2, &BYE],
            ..HELPING
        },
        then: &[
            Said::In(&STREAM_OF_THREE_WIDE),
            Said::In(&SUB_1_2_WIDE),
            Said::Out(&ENTRY_2_WIDE),
            Said::Out(&SIBLINGS_3_1),
            Said::In(&REVEAL_OF_2),
            Said::Out(&NO_SIBLINGS),
            Said::In(&BYE),
        ],
        ..WHOLE
    },
    Row {
        name: "depth 33 is none of version 1",
        given: RunInput {
            replies: &[&OPEN_33],
            ..HELPING
        },
        status: Status::BadFrame { offset: 0 },
        code: 3,
        then: &[Said::In(&OPEN_33)],
        ..SERVED
    },
    Row {
        name: "a query of version 2 in version 1",
        given: RunInput {
            replies: &[&OPEN_2, &END_STREAM, &SUB_1_2_WIDE],
            ..HELPING
        },
        then: &[Said::In(&WIDE_SUB_HEADER)],
        ..OUT_OF_TURN
    },
    Row {
        name: "a query of version 1 in version 2",
        given: RunInput {
            replies: &[&OPEN_2_WIDE, &END_STREAM, &SUB_1_2],
            ..HELPING
        },
        status: Status::BadFrame { offset: 8 },
        code: 3,
        then: &[
            Said::In(&OPEN_2_WIDE),
            Said::In(&END_STREAM),
            Said::In(&SUB_HEADER),
        ],
        ..SERVED
    },
    Row {
        name: "a share of nothing",
        given: RunInput {
            replies: &[&OPEN_2_WIDE, &END_STREAM, &HALF, &REVEAL_OF_2, &BYE],
            ..HELPING
        },
        then: &[
            Said::In(&OPEN_2_WIDE),
            Said::In(&END_STREAM),
            Said::In(&HALF),
            Said::Out(&LEVEL_END),
            Said::In(&REVEAL_OF_2),
            Said::Out(&LEVEL_END),
            Said::In(&BYE),
        ],
        ..SERVED
    },
];

// The sums of side 0, which is 3, 0, 5, 1, of its products with side 1, which is 2, 7, 1, 0, and of
// its entries 1 to 3.
const THREE_SUMS: Row<'static> = Row {
    name: "three sums",
    given: RunInput {
        replies: &[
            &OPEN_2,
            &UPDATES_OF_SIX,
            &THREE_RECORDS,
            &THREE_OF_SIDE_1,
            &END_STREAM,
            &F2,
            &REVEAL_OF_2,
            &INNER,
            &REVEAL_OF_2,
            &RANGE_1_3,
            &REVEAL_OF_2,
            &BYE,
        ],
        ..HELPING
    },
    sent: &[
        Said::In(&OPEN_2),
        Said::In(&UPDATES_OF_SIX),
        Said::In(&THREE_RECORDS),
        Said::In(&THREE_OF_SIDE_1),
        Said::In(&END_STREAM),
        Said::In(&F2),
        Said::Out(&CLAIM_35),
        Said::Out(&SQUARES_1),
        Said::In(&REVEAL_OF_2),
        Said::Out(&SQUARES_2),
        Said::In(&INNER),
        Said::Out(&CLAIM_11),
        Said::Out(&PRODUCTS_1),
        Said::In(&REVEAL_OF_2),
        Said::Out(&PRODUCTS_2),
        Said::In(&RANGE_1_3),
    ],
    then: &[
        Said::Out(&CLAIM_6),
        Said::Out(&ENTRIES_1),
        Said::In(&REVEAL_OF_2),
        Said::Out(&ENTRIES_2),
        Said::In(&BYE),
    ],
    ..SERVED
};

// A query that comes too early, or asks for an item that is none, is out of turn.
const SUMS: &[Row<'static>] = &[
    THREE_SUMS,
    Row {
        name: "a sum in version 2",
        given: RunInput {
            replies: &[&STREAM_OF_THREE_WIDE, &RANGE_1_3_WIDE, &REVEAL_OF_2, &BYE],
            ..HELPING
        },
        sent: &[Said::In(&STREAM_OF_THREE_WIDE), Said::In(&RANGE_1_3_WIDE)],
        ..THREE_SUMS
    },
    Row {
        name: "a sum before the stream has ended",
        given: RunInput {
            replies: &[&OPEN_2, &F2],
            ..HELPING
        },
        status: Status::BadFrame { offset: 5 },
        code: 3,
        then: &[Said::In(&OPEN_2), Said::In(&F2), Said::Out(&REFUSE_4)],
        ..SERVED
    },
    Row {
        name: "a sum up to item 4 of 4",
        given: RunInput {
            replies: &[&OPEN_2, &END_STREAM, &RANGE_1_4],
            ..HELPING
        },
        then: &[Said::In(&RANGE_1_4), Said::Out(&REFUSE_4)],
        ..OUT_OF_TURN
    },
];

// The entries of side 0, which is 3, 0, 5, 1, that are at least 4. A query for them that comes too
// early, or while another one is open, is out of turn; a query for a share is no frame in version
// 1.
const HEAVY_ENTRIES: &[Row<'static>] = &[
    Row {
        name: "at least 4",
        given: RunInput {
            replies: &[&STREAM_OF_THREE, &HEAVY_4, &REVEAL_OF_2, &BYE],
            ..HELPING
        },
        then: &[
            Said::In(&STREAM_OF_THREE),
            Said::In(&HEAVY_4),
            Said::Out(&LEAVES_5_1),
            Said::Out(&LEVEL_END),
            Said::In(&REVEAL_OF_2),
            Said::Out(&NODE_OF_3),
            Said::Out(&LEVEL_END),
            Said::In(&BYE),
        ],
        ..SERVED
    },
    Row {
        name: "before the stream has ended",
        given: RunInput {
            replies: &[&OPEN_2, &HEAVY_4],
            ..HELPING
        },
        status: Status::BadFrame { offset: 5 },
        code: 3,
        then: &[Said::In(&OPEN_2), Said::In(&HEAVY_4), Said::Out(&REFUSE_4)],
        ..SERVED
    },
    Row {
        name: "while a query is open",
        given: RunInput {
            replies: &[&OPEN_2, &END_STREAM, &SUB_0_3, &HEAVY_4],
            ..HELPING
        },
        status: Status::BadFrame { offset: 20 },
        code: 3,
        then: &[
            Said::In(&OPEN_2),
            Said::In(&END_STREAM),
            Said::In(&SUB_0_3),
            Said::Out(&NO_SIBLINGS),
            Said::In(&HEAVY_4),
            Said::Out(&REFUSE_4),
        ],
        ..SERVED
    },
    Row {
        name: "a share in version 1",
        given: RunInput {
            replies: &[&OPEN_2, &END_STREAM, &HALF],
            ..HELPING
        },
        then: &[Said::In(&HALF)],
        ..OUT_OF_TURN
    },
];

#[test]
fn talks_of_help(rt: HostRuntime) -> Result<(), Fail> {
    check_rows(&rt, rt.alloc(), TALKS)?;
    check_rows(&rt, rt.alloc(), TWO_VERSIONS)?;
    check_rows(&rt, rt.alloc(), SUMS)?;
    check_rows(&rt, rt.alloc(), HEAVY_ENTRIES)
}
