// Worked runs of `lookup`, and talks of `helplook`, by the bytes that go in and those that come
// out.

use crate::checks::check_rows;
use crate::faulty::{Faulty, NO_MEMORY, check_first};
use crate::frames::*;
use crate::question_frames::*;
use crate::row::{self, LEFT, OUT_OF_TURN, Row, RunInput, SERVED, Said};
use sip_verifier::Status;
use sip_wire::Reason;
use std::test::Fail;

// The numbers 3, 0, 5, 1, whose entry from 1 on is 5 at item 2.
const GIVEN: RunInput<'static> = RunInput {
    words: "lookup s seed a b 2 succ:1",
    stream: &THREE_RECORDS,
    seed: &ZERO_SEED,
    replies: &[&FOUND_2, &ENTRY_2, &SIBLINGS_3_1, &NO_SIBLINGS],
};

const SUCCESSOR: Row<'static> = Row {
    name: "the entry from 1 on",
    given: GIVEN,
    status: Status::Accepted,
    code: 0,
    report: b"succ:1 2:5\n",
    sent: &[
        Said::Out(&OPEN_2),
        Said::Out(&UPDATES_OF_THREE),
        Said::Out(&THREE_RECORDS),
        Said::Out(&END_STREAM),
        Said::Out(&ASK_SUCC_1),
    ],
    then: &[
        Said::In(&FOUND_2),
        Said::Out(&SUB_1_2),
        Said::In(&ENTRY_2),
        Said::In(&SIBLINGS_3_1),
        Said::Out(&REVEAL),
        Said::In(&NO_SIBLINGS),
        Said::Out(&END),
    ],
};

const ACCEPTED: &[Row<'static>] = &[
    SUCCESSOR,
    Row {
        name: "three lookups",
        given: RunInput {
            words: "lookup s seed a b 2 index:1 pred:1 succ:1",
            replies: &[
                &FOUND_1,
                &LEFT_SIBLING_3,
                &RIGHT_NODE,
                &FOUND_0,
                &ENTRY_0,
                &NO_SIBLINGS,
                &RIGHT_NODE_FOR_QUERY_2,
                &FOUND_2,
                &ENTRY_2,
                &SIBLINGS_3_1,
                &NO_SIBLINGS,
            ],
            ..GIVEN
        },
        report: b"index:1 0\npred:1 0:3\nsucc:1 2:5\n",
        sent: &[
            Said::Out(&OPEN_2),
            Said::Out(&UPDATES_OF_THREE),
            Said::Out(&THREE_RECORDS),
            Said::Out(&END_STREAM),
            Said::Out(&ASK_INDEX_1),
        ],
        then: &[
            Said::In(&FOUND_1),
            Said::Out(&SUB_1_1),
            Said::In(&LEFT_SIBLING_3),
            Said::Out(&REVEAL),
            Said::In(&RIGHT_NODE),
            Said::Out(&ASK_PRED_1),
            Said::In(&FOUND_0),
            Said::Out(&SUB_0_1),
            Said::In(&ENTRY_0),
            Said::In(&NO_SIBLINGS),
            Said::Out(&REVEAL_FOR_QUERY_2),
            Said::In(&RIGHT_NODE_FOR_QUERY_2),
            Said::Out(&ASK_SUCC_1),
            Said::In(&FOUND_2),
            Said::Out(&SUB_1_2),
            Said::In(&ENTRY_2),
            Said::In(&SIBLINGS_3_1),
            Said::Out(&REVEAL_FOR_QUERY_3),
            Said::In(&NO_SIBLINGS),
            Said::Out(&END),
        ],
        ..SUCCESSOR
    },
    Row {
        name: "no entry up to 3",
        given: RunInput {
            words: "lookup s seed a b 2 pred:3",
            stream: &[],
            replies: &[&FOUND_NONE, &NO_SIBLINGS, &NO_SIBLINGS],
            ..GIVEN
        },
        report: b"pred:3 none\n",
        sent: &[
            Said::Out(&OPEN_2),
            Said::Out(&END_STREAM),
            Said::Out(&ASK_PRED_3),
        ],
        then: &[
            Said::In(&FOUND_NONE),
            Said::Out(&SUB_0_3),
            Said::In(&NO_SIBLINGS),
            Said::Out(&REVEAL),
            Said::In(&NO_SIBLINGS),
            Said::Out(&END),
        ],
        ..SUCCESSOR
    },
];

const NOT_ALONE: Faulty<'static> = Faulty {
    name: "another entry is nearer",
    replies: &[&FOUND_3, &ENTRIES_2_3, &LEFT_SIBLING_3, &NO_SIBLINGS],
    then: &[
        Said::In(&FOUND_3),
        Said::Out(&SUB_1_3),
        Said::In(&ENTRIES_2_3),
        Said::In(&LEFT_SIBLING_3),
        Said::Out(&REVEAL),
        Said::In(&NO_SIBLINGS),
    ],
    round: 2,
    reason: Reason::NotAlone,
    line: b"rejected query 1 round 2 NotAlone\n",
};

// Nothing is said behind a place that can't be, and nothing behind the reply whose fault shows.
const REPLIES: &[Faulty<'static>] = &[
    Faulty {
        name: "a place below the item",
        replies: &[&FOUND_0],
        then: &[Said::In(&FOUND_0)],
        round: 0,
        reason: Reason::BadFound,
        line: b"rejected query 1 round 0 BadFound\n",
    },
    NOT_ALONE,
    Faulty {
        name: "an entry from 1 on, and none was found",
        replies: &[&FOUND_NONE, &ENTRIES_2_3, &LEFT_SIBLING_3, &NO_SIBLINGS],
        then: &[
            Said::In(&FOUND_NONE),
            Said::Out(&SUB_1_3),
            Said::In(&ENTRIES_2_3),
            Said::In(&LEFT_SIBLING_3),
            Said::Out(&REVEAL),
            Said::In(&NO_SIBLINGS),
        ],
        ..NOT_ALONE
    },
    Faulty {
        name: "none was found, and yet there is an index",
        replies: &[&FOUND_NONE_AT_1],
        then: &[Said::In(&FOUND_NONE_AT_1)],
        round: 0,
        reason: Reason::BadNumber,
        line: b"rejected query 1 round 0 BadNumber\n",
    },
    NO_MEMORY,
    Faulty {
        name: "the helper leaves",
        replies: &[&FOUND_2],
        then: &[Said::In(&FOUND_2), Said::Out(&SUB_1_2), Said::Ended],
        round: 0,
        reason: Reason::Closed,
        line: b"rejected query 1 round 0 Closed\n",
    },
];

const HELPING: RunInput<'static> = RunInput {
    words: "helplook from to",
    ..row::HELPING
};

const SUCCESSOR_SERVED: Row<'static> = Row {
    name: "a whole talk",
    given: RunInput {
        replies: &[&STREAM_OF_THREE, &ASK_SUCC_1, &SUB_1_2, &REVEAL_OF_2, &END],
        ..HELPING
    },
    sent: &[
        Said::In(&STREAM_OF_THREE),
        Said::In(&ASK_SUCC_1),
        Said::Out(&FOUND_2),
        Said::In(&SUB_1_2),
        Said::Out(&ENTRY_2),
    ],
    then: &[
        Said::Out(&SIBLINGS_3_1),
        Said::In(&REVEAL_OF_2),
        Said::Out(&NO_SIBLINGS),
        Said::In(&END),
    ],
    ..SERVED
};

const TALKS: &[Row<'static>] = &[
    SUCCESSOR_SERVED,
    Row {
        name: "a whole talk in version 2",
        given: RunInput {
            replies: &[
                &STREAM_OF_THREE_WIDE,
                &ASK_SUCC_1,
                &SUB_1_2_WIDE,
                &REVEAL_OF_2,
                &END,
            ],
            ..HELPING
        },
        sent: &[
            Said::In(&STREAM_OF_THREE_WIDE),
            Said::In(&ASK_SUCC_1),
            Said::Out(&FOUND_2),
            Said::In(&SUB_1_2_WIDE),
            Said::Out(&ENTRY_2_WIDE),
        ],
        ..SUCCESSOR_SERVED
    },
    Row {
        name: "the verifier leaves where a lookup is due",
        given: RunInput {
            replies: &[&OPEN_2, &END_STREAM],
            ..HELPING
        },
        ..LEFT
    },
    Row {
        name: "item 4 is none of 4",
        given: RunInput {
            replies: &[&OPEN_2, &END_STREAM, &ASK_INDEX_4],
            ..HELPING
        },
        then: &[Said::In(&ASK_INDEX_4), Said::Out(&REFUSE_4)],
        ..OUT_OF_TURN
    },
    Row {
        name: "code 4 is none",
        given: RunInput {
            replies: &[&OPEN_2, &END_STREAM, &ASK_CODE_4],
            ..HELPING
        },
        then: &[Said::In(&ASK_CODE_4), Said::Out(&REFUSE_4)],
        ..OUT_OF_TURN
    },
    Row {
        name: "a moment where a lookup is due",
        given: RunInput {
            replies: &[&OPEN_2, &END_STREAM, &ASK_THIRD],
            ..HELPING
        },
        then: &[Said::In(&ASK_MOMENT_HEADER)],
        ..OUT_OF_TURN
    },
    Row {
        name: "a lookup where a query is due",
        given: RunInput {
            words: "help from to",
            replies: &[&OPEN_2, &END_STREAM, &ASK_SUCC_1],
            ..HELPING
        },
        then: &[Said::In(&ASK_HEADER)],
        ..OUT_OF_TURN
    },
];

#[test]
fn runs_and_talks_of_lookups(rt: HostRuntime) -> Result<(), Fail> {
    check_rows(&rt, rt.alloc(), ACCEPTED)?;
    check_first(&rt, rt.alloc(), &SUCCESSOR, REPLIES)?;
    check_rows(&rt, rt.alloc(), TALKS)
}
