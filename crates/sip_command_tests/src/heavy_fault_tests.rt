// Runs of `verify` that ask for the heavy hitters of (3, 0, 5, 1), with scripted replies.

use crate::checks::check_rows;
use crate::faulty::{Behind, Faulty, NOTHING_OF_REPLY_0, check_faulty};
use crate::frames::*;
use crate::heavy_frames::*;
use crate::row::{FIRST_GIVEN, FIRST_RUN, Row, RunInput, Said};
use sip_wire::Reason;
use std::test::Fail;

const ASKING: RunInput<'static> = RunInput {
    words: "verify s seed a b - 2 heavy:0:4",
    replies: &[&LEAVES_5_1, &LEVEL_END, &NODE_0_AT_ZERO_SEED, &LEVEL_END],
    ..FIRST_GIVEN
};

// The run that is accepted, with the challenge that the seed of zeros gives.
const HITTERS: Row<'static> = Row {
    name: "entry 2 is at least 4",
    given: ASKING,
    report: b"heavy:0:4 2:5\n",
    sent: &[
        Said::Out(&OPEN_2),
        Said::Out(&UPDATES_OF_THREE),
        Said::Out(&THREE_RECORDS),
        Said::Out(&END_STREAM),
        Said::Out(&HEAVY_4),
    ],
    then: &[
        Said::In(&LEAVES_5_1),
        Said::In(&LEVEL_END),
        Said::Out(&REVEAL),
        Said::In(&NODE_0_AT_ZERO_SEED),
        Said::In(&LEVEL_END),
        Said::Out(&BYE),
    ],
    ..FIRST_RUN
};

// The same up to its query.
const NOTHING_HEARD: RunInput<'static> = RunInput {
    replies: &[],
    ..ASKING
};

const ASKED: Row<'static> = Row {
    given: NOTHING_HEARD,
    report: b"",
    then: &[],
    ..HITTERS
};

// Reply 0 has a fault. The bytes behind it are not taken.
const LEAVES: &[Faulty<'static>] = &[
    Faulty {
        name: "leaf 3 is not shown",
        replies: &[&LEAF_2, &LEVEL_END, &LEVEL_END],
        then: &[Said::In(&LEAF_2), Said::In(&LEVEL_END)],
        round: 0,
        reason: Reason::Pairs,
        line: b"rejected query 1 round 0 Pairs\n",
    },
    Faulty {
        name: "leaves of 3 together",
        replies: &[&LEAVES_0_1, &LEVEL_END, &LEVEL_END],
        then: &[Said::In(&LEAVES_0_1), Said::In(&LEVEL_END)],
        round: 0,
        reason: Reason::LightParent,
        line: b"rejected query 1 round 0 LightParent\n",
    },
    Faulty {
        name: "leaves of 10 together",
        replies: &[&LEAVES_2_3_OF_10, &LEVEL_END, &LEVEL_END],
        then: &[Said::In(&LEAVES_2_3_OF_10), Said::In(&LEVEL_END)],
        round: 0,
        reason: Reason::Total,
        line: b"rejected query 1 round 0 Total\n",
    },
    Faulty {
        name: "leaves in falling order",
        replies: &[&LEAVES_3_2, &LEVEL_END],
        then: &[Said::In(&LEAVES_3_2)],
        round: 0,
        reason: Reason::BadOrder,
        line: b"rejected query 1 round 0 BadOrder\n",
    },
    Faulty {
        name: "nodes may not stand here",
        replies: &[&NODES_HEADER, &ZEROS],
        then: &[Said::In(&NODES_HEADER)],
        round: 0,
        reason: Reason::BadKind,
        line: b"rejected query 1 round 0 BadKind\n",
    },
    Faulty {
        name: "leaves have no body of 2 bytes",
        replies: &[&SHORT_LEAVES_HEADER, &ZEROS],
        then: &[Said::In(&SHORT_LEAVES_HEADER)],
        round: 0,
        reason: Reason::BadLength,
        line: b"rejected query 1 round 0 BadLength\n",
    },
    Faulty {
        name: "p is no count",
        replies: &[&LEAF_2_OF_P, &LEVEL_END],
        then: &[Said::In(&LEAF_2_OF_P)],
        round: 0,
        reason: Reason::BadNumber,
        line: b"rejected query 1 round 0 BadNumber\n",
    },
    NOTHING_OF_REPLY_0,
];

// At least 9 is one entry at most, so that two leaves are shown at most.
const ASKED_FOR_9: Row<'static> = Row {
    given: RunInput {
        words: "verify s seed a b - 2 heavy:0:9",
        ..NOTHING_HEARD
    },
    sent: &[
        Said::Out(&OPEN_2),
        Said::Out(&UPDATES_OF_THREE),
        Said::Out(&THREE_RECORDS),
        Said::Out(&END_STREAM),
        Said::Out(&HEAVY_9),
    ],
    ..ASKED
};

const THREE_LEAVES: &[Faulty<'static>] = &[Faulty {
    name: "three leaves",
    replies: &[&LEAVES_0_1_2, &LEVEL_END],
    then: &[Said::In(&LEAVES_0_1_2)],
    round: 0,
    reason: Reason::TooMany,
    line: b"rejected query 1 round 0 TooMany\n",
}];

// Reply 0 has no leaf, and is taken.
const NO_LEAF: Row<'static> = Row {
    given: RunInput {
        replies: &[&LEVEL_END],
        ..ASKING
    },
    then: &[Said::In(&LEVEL_END), Said::Out(&REVEAL)],
    ..ASKED
};

const NODES_BEHIND_NO_LEAF: &[Faulty<'static>] = &[
    Faulty {
        name: "no node",
        replies: &[&LEVEL_END, &BYE],
        then: &[Said::In(&LEVEL_END)],
        round: 1,
        reason: Reason::Pairs,
        line: b"rejected query 1 round 1 Pairs\n",
    },
    Faulty {
        name: "nodes of 6 together",
        replies: &[&NODES_0_1, &LEVEL_END],
        then: &[Said::In(&NODES_0_1), Said::In(&LEVEL_END)],
        round: 2,
        reason: Reason::Total,
        line: b"rejected query 1 round 2 Total\n",
    },
];

// Reply 0 is taken, and the challenge goes out. The farewell does not.
const REVEALED: Row<'static> = Row {
    given: RunInput {
        replies: &[&LEAVES_5_1, &LEVEL_END],
        ..ASKING
    },
    then: &[
        Said::In(&LEAVES_5_1),
        Said::In(&LEVEL_END),
        Said::Out(&REVEAL),
    ],
    ..ASKED
};

const NODES: &[Faulty<'static>] = &[
    Faulty {
        name: "a node of 4 is heavy",
        replies: &[&NODE_0_OF_4, &LEVEL_END],
        then: &[Said::In(&NODE_0_OF_4)],
        round: 1,
        reason: Reason::HeavySibling,
        line: b"rejected query 1 round 1 HeavySibling\n",
    },
    Faulty {
        name: "node 1 is known",
        replies: &[&NODE_1, &LEVEL_END],
        then: &[Said::In(&NODE_1)],
        round: 1,
        reason: Reason::BadOrder,
        line: b"rejected query 1 round 1 BadOrder\n",
    },
    Faulty {
        name: "node 2 is none of two",
        replies: &[&NODE_2, &LEVEL_END],
        then: &[Said::In(&NODE_2)],
        round: 1,
        reason: Reason::BadOrder,
        line: b"rejected query 1 round 1 BadOrder\n",
    },
    Faulty {
        name: "all nodes are 8",
        replies: &[&NODE_0_OF_2, &LEVEL_END, &LEVEL_END],
        then: &[Said::In(&NODE_0_OF_2), Said::In(&LEVEL_END)],
        round: 2,
        reason: Reason::Total,
        line: b"rejected query 1 round 2 Total\n",
    },
    Faulty {
        name: "the helper refuses in reply 1",
        replies: &[&REFUSE_1, &LEVEL_END],
        then: &[Said::In(&REFUSE_1)],
        round: 1,
        reason: Reason::Refused(1),
        line: b"rejected query 1 round 1 Refused(1)\n",
    },
];

const ACCEPTED: &[Row<'static>] = &[HITTERS];

const FAULTS: &[Behind<'static>] = &[
    Behind {
        before: ASKED,
        query: 1,
        rows: LEAVES,
    },
    Behind {
        before: ASKED_FOR_9,
        query: 1,
        rows: THREE_LEAVES,
    },
    Behind {
        before: NO_LEAF,
        query: 1,
        rows: NODES_BEHIND_NO_LEAF,
    },
    Behind {
        before: REVEALED,
        query: 1,
        rows: NODES,
    },
];

#[test]
fn replies_about_hitters(rt: HostRuntime) -> Result<(), Fail> {
    check_rows(&rt, rt.alloc(), ACCEPTED)?;
    check_faulty(&rt, rt.alloc(), FAULTS)
}
