// Runs of three queries: 1 to 2, 0 to 3, and 1 to 2 again.

use crate::checks::check_rows;
use crate::cut::{Calls, Cut, SEED_AT_ONCE, STREAM_AT_ONCE, check_cuts};
use crate::faulty::{Behind, Faulty, NOTHING_OF_REPLY_0, check_faulty};
use crate::frames::*;
use crate::row::{At, FIRST_RUN, Row, RunInput, Said};
use sip_wire::Reason;
use std::test::Fail;

const ASKING: RunInput<'static> = RunInput {
    words: "verify s seed a b - 2 sub:1:2 sub:0:3 sub:1:2",
    stream: &THREE_RECORDS,
    seed: &ZERO_SEED,
    replies: &[
        &ENTRY_2,
        &SIBLINGS_3_1,
        &NO_SIBLINGS,
        &ENTRIES_0_2_3,
        &NO_SIBLINGS,
        &NO_SIBLINGS,
        &ENTRY_2,
        &SIBLINGS_3_1,
        &NO_SIBLINGS,
    ],
};

// The run up to the second query.
const UP_TO_QUERY_2: Row<'static> = Row {
    given: RunInput {
        replies: &[&ENTRY_2, &SIBLINGS_3_1, &NO_SIBLINGS],
        ..ASKING
    },
    report: b"sub:1:2 2:5\n",
    sent: &[
        Said::Out(&STREAM_OF_THREE),
        Said::Out(&SUB_1_2),
        Said::In(&ENTRY_2),
        Said::In(&SIBLINGS_3_1),
        Said::Out(&REVEAL),
        Said::In(&NO_SIBLINGS),
        Said::Out(&SUB_0_3),
    ],
    then: &[],
    ..FIRST_RUN
};

// The run that is accepted.
const THREE_QUERIES: Row<'static> = Row {
    name: "three queries",
    given: ASKING,
    report: b"sub:1:2 2:5\nsub:0:3 0:3 2:5 3:1\nsub:1:2 2:5\n",
    then: &[
        Said::In(&ENTRIES_0_2_3),
        Said::In(&NO_SIBLINGS),
        Said::Out(&REVEAL_FOR_QUERY_2),
        Said::In(&NO_SIBLINGS),
        Said::Out(&SUB_1_2),
        Said::In(&ENTRY_2),
        Said::In(&SIBLINGS_3_1),
        Said::Out(&REVEAL_FOR_QUERY_3),
        Said::In(&NO_SIBLINGS),
        Said::Out(&BYE),
    ],
    ..UP_TO_QUERY_2
};

const ACCEPTED: &[Row<'static>] = &[THREE_QUERIES];

// The root tells that entries are left out.
const TWO_LEFT_OUT: Faulty<'static> = Faulty {
    name: "entries 0 and 3 are left out",
    replies: &[
        &ENTRY_2,
        &NO_SIBLINGS,
        &NO_SIBLINGS,
        &ENTRY_2,
        &SIBLINGS_3_1,
        &NO_SIBLINGS,
    ],
    then: &[
        Said::In(&ENTRY_2),
        Said::In(&NO_SIBLINGS),
        Said::Out(&REVEAL_FOR_QUERY_2),
        Said::In(&NO_SIBLINGS),
    ],
    round: 2,
    reason: Reason::Root,
    line: b"rejected query 2 round 2 Root\n",
};

// The line of query 1 stands, the line of the rejection is the last one, and nothing more is sent.
// The bytes behind the fault are not taken.
const ROWS: &[Faulty<'static>] = &[
    Faulty {
        line: b"rejected query 2 round 0 Closed\n",
        ..NOTHING_OF_REPLY_0
    },
    Faulty {
        name: "all items have no sibling",
        replies: &[&SIBLINGS_3_1, &NO_SIBLINGS],
        then: &[Said::In(&SIBLINGS_3_1)],
        round: 0,
        reason: Reason::BadFlags,
        line: b"rejected query 2 round 0 BadFlags\n",
    },
    Faulty {
        name: "the helper refuses in reply 1",
        replies: &[&ENTRIES_0_2_3, &NO_SIBLINGS, &REFUSE_1, &ENTRY_2],
        then: &[
            Said::In(&ENTRIES_0_2_3),
            Said::In(&NO_SIBLINGS),
            Said::Out(&REVEAL_FOR_QUERY_2),
            Said::In(&REFUSE_1),
        ],
        round: 1,
        reason: Reason::Refused(1),
        line: b"rejected query 2 round 1 Refused(1)\n",
    },
    TWO_LEFT_OUT,
    Faulty {
        name: "all items have no left sibling",
        replies: &[&LEFT_SIBLING_3, &NO_SIBLINGS],
        then: &[Said::In(&LEFT_SIBLING_3)],
        round: 0,
        reason: Reason::BadFlags,
        line: b"rejected query 2 round 0 BadFlags\n",
    },
    Faulty {
        name: "all entries are left out",
        replies: &[&NO_SIBLINGS, &NO_SIBLINGS, &ENTRY_2],
        then: &[
            Said::In(&NO_SIBLINGS),
            Said::Out(&REVEAL_FOR_QUERY_2),
            Said::In(&NO_SIBLINGS),
        ],
        ..TWO_LEFT_OUT
    },
];

const FAULTS: &[Behind<'static>] = &[Behind {
    before: UP_TO_QUERY_2,
    query: 2,
    rows: ROWS,
}];

// Ports move as many bytes a call as are asked for: 3 records and the end; the seed; 10 frames out,
// and 9 in of a header and a body each; 3 lines. The report has whole lines of the run, and the
// talk is a front of its talk.
const CUTS: &[Cut<'static>] = &[Cut {
    row: THREE_QUERIES,
    by_the_byte: false,
    calls: &[
        Calls {
            name: "the stream of three queries",
            ..STREAM_AT_ONCE
        },
        Calls {
            name: "the seed of three queries",
            ..SEED_AT_ONCE
        },
        Calls {
            name: "the link of three queries",
            at: At::Peer,
            from: 1,
            to: 28,
            said: (0, 252),
            written: (0, 44),
        },
        Calls {
            name: "the lines of three queries",
            at: At::Report,
            from: 1,
            to: 3,
            said: (116, 252),
            written: (0, 32),
        },
    ],
    not_made: &[
        (At::First, 5),
        (At::Second, 2),
        (At::Peer, 29),
        (At::Report, 4),
    ],
    quiet: 116,
    whole_lines: true,
}];

#[test]
fn three_queries(rt: HostRuntime) -> Result<(), Fail> {
    check_rows(&rt, rt.alloc(), ACCEPTED)?;
    check_faulty(&rt, rt.alloc(), FAULTS)?;
    check_cuts(&rt, rt.alloc(), CUTS)
}
