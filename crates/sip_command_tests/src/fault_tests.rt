// Runs of `verify` that ask for the entries 1 to 2 of (3, 0, 5, 1), with scripted replies.

use crate::faulty::{Behind, Faulty, NOTHING_OF_REPLY_0, NOTHING_OF_REPLY_1, check_faulty};
use crate::frames::*;
use crate::row::{FIRST_GIVEN, FIRST_RUN, Row, RunInput, Said};
use sip_wire::Reason;
use std::test::Fail;

// The first run, up to its query.
const ASKED: Row<'static> = Row {
    given: RunInput {
        replies: &[],
        ..FIRST_GIVEN
    },
    report: b"",
    then: &[],
    ..FIRST_RUN
};

// One frame of reply 0 has a fault. The bytes behind it are not taken.
const FRAMES: &[Faulty<'static>] = &[
    Faulty {
        name: "nothing comes",
        ..NOTHING_OF_REPLY_0
    },
    Faulty {
        name: "a part of a header comes",
        replies: &[&PART_OF_HEADER],
        then: &[Said::In(&PART_OF_HEADER), Said::Ended],
        round: 0,
        reason: Reason::Closed,
        line: b"rejected query 1 round 0 Closed\n",
    },
    Faulty {
        name: "a part of a body comes",
        replies: &[&PART_OF_SIBLINGS],
        then: &[Said::In(&PART_OF_SIBLINGS), Said::Ended],
        round: 0,
        reason: Reason::Closed,
        line: b"rejected query 1 round 0 Closed\n",
    },
    Faulty {
        name: "a claim may not stand here",
        replies: &[&CLAIM_HEADER, &ZEROS],
        then: &[Said::In(&CLAIM_HEADER)],
        round: 0,
        reason: Reason::BadKind,
        line: b"rejected query 1 round 0 BadKind\n",
    },
    Faulty {
        name: "entries have no body of 13 bytes",
        replies: &[&SHORT_ENTRIES_HEADER, &ZEROS],
        then: &[Said::In(&SHORT_ENTRIES_HEADER)],
        round: 0,
        reason: Reason::BadLength,
        line: b"rejected query 1 round 0 BadLength\n",
    },
    Faulty {
        name: "one entry is not two",
        replies: &[&ONE_AS_TWO, &SIBLINGS_3_1],
        then: &[Said::In(&ONE_AS_TWO)],
        round: 0,
        reason: Reason::BadCount,
        line: b"rejected query 1 round 0 BadCount\n",
    },
    Faulty {
        name: "one sibling is not both",
        replies: &[&ONE_AS_BOTH, &NO_SIBLINGS],
        then: &[Said::In(&ONE_AS_BOTH)],
        round: 0,
        reason: Reason::BadCount,
        line: b"rejected query 1 round 0 BadCount\n",
    },
    Faulty {
        name: "an entry is not 0",
        replies: &[&ENTRY_2_OF_ZERO, &SIBLINGS_3_1],
        then: &[Said::In(&ENTRY_2_OF_ZERO)],
        round: 0,
        reason: Reason::BadNumber,
        line: b"rejected query 1 round 0 BadNumber\n",
    },
    Faulty {
        name: "2^61 - 1 is no element",
        replies: &[&ENTRY_2, &SIBLINGS_P_1, &NO_SIBLINGS],
        then: &[Said::In(&ENTRY_2), Said::In(&SIBLINGS_P_1)],
        round: 0,
        reason: Reason::BadNumber,
        line: b"rejected query 1 round 0 BadNumber\n",
    },
    Faulty {
        name: "the helper refuses",
        replies: &[&REFUSE_1, &SIBLINGS_3_1],
        then: &[Said::In(&REFUSE_1)],
        round: 0,
        reason: Reason::Refused(1),
        line: b"rejected query 1 round 0 Refused(1)\n",
    },
    Faulty {
        name: "5 is no code of a refusal",
        replies: &[&REFUSE_5, &SIBLINGS_3_1],
        then: &[Said::In(&REFUSE_5)],
        round: 0,
        reason: Reason::BadNumber,
        line: b"rejected query 1 round 0 BadNumber\n",
    },
];

// Replies that are in order and false, which the root tells at the end.
const FALSE: Faulty<'static> = Faulty {
    name: "",
    replies: &[],
    then: &[],
    round: 2,
    reason: Reason::Root,
    line: b"rejected query 1 round 2 Root\n",
};

// Each frame is in order, and the replies have a fault. The bytes behind it are not taken. Where
// reply 0 is false, which only the root tells, the challenge goes out. The farewell does not.
const REPLIES: &[Faulty<'static>] = &[
    Faulty {
        name: "entries fall",
        replies: &[&ENTRIES_2_1, &SIBLINGS_3_1, &NO_SIBLINGS],
        then: &[Said::In(&ENTRIES_2_1)],
        round: 0,
        reason: Reason::BadOrder,
        line: b"rejected query 1 round 0 BadOrder\n",
    },
    Faulty {
        name: "an entry comes twice",
        replies: &[&ENTRY_2, &ENTRY_2, &SIBLINGS_3_1],
        then: &[Said::In(&ENTRY_2), Said::In(&ENTRY_2)],
        round: 0,
        reason: Reason::BadOrder,
        line: b"rejected query 1 round 0 BadOrder\n",
    },
    Faulty {
        name: "entry 3 was not asked for",
        replies: &[&ENTRY_3, &SIBLINGS_3_1],
        then: &[Said::In(&ENTRY_3)],
        round: 0,
        reason: Reason::BadOrder,
        line: b"rejected query 1 round 0 BadOrder\n",
    },
    Faulty {
        name: "leaves 1 to 2 have two siblings",
        replies: &[&ENTRY_2, &NO_SIBLINGS, &NO_SIBLINGS],
        then: &[Said::In(&ENTRY_2), Said::In(&NO_SIBLINGS)],
        round: 0,
        reason: Reason::BadFlags,
        line: b"rejected query 1 round 0 BadFlags\n",
    },
    Faulty {
        name: "leaf 0 is not 4",
        replies: &[&ENTRY_2, &SIBLINGS_4_1, &NO_SIBLINGS],
        then: &[
            Said::In(&ENTRY_2),
            Said::In(&SIBLINGS_4_1),
            Said::Out(&REVEAL),
            Said::In(&NO_SIBLINGS),
        ],
        ..FALSE
    },
    Faulty {
        name: "entry 1 is not 7",
        replies: &[&ENTRIES_1_2, &SIBLINGS_3_1, &NO_SIBLINGS],
        then: &[
            Said::In(&ENTRIES_1_2),
            Said::In(&SIBLINGS_3_1),
            Said::Out(&REVEAL),
            Said::In(&NO_SIBLINGS),
        ],
        ..FALSE
    },
    Faulty {
        name: "entry 1 is not 7, in a frame of its own",
        replies: &[&ENTRY_1, &ENTRY_2, &SIBLINGS_3_1, &NO_SIBLINGS],
        then: &[
            Said::In(&ENTRY_1),
            Said::In(&ENTRY_2),
            Said::In(&SIBLINGS_3_1),
            Said::Out(&REVEAL),
            Said::In(&NO_SIBLINGS),
        ],
        ..FALSE
    },
    Faulty {
        name: "entry 2 is not left out",
        replies: &[&SIBLINGS_3_1, &NO_SIBLINGS],
        then: &[
            Said::In(&SIBLINGS_3_1),
            Said::Out(&REVEAL),
            Said::In(&NO_SIBLINGS),
        ],
        ..FALSE
    },
];

// Reply 0 is taken, and the challenge goes out. The farewell does not.
const REVEALED: Row<'static> = Row {
    given: RunInput {
        replies: &[&ENTRY_2, &SIBLINGS_3_1],
        ..FIRST_GIVEN
    },
    report: b"",
    then: &[
        Said::In(&ENTRY_2),
        Said::In(&SIBLINGS_3_1),
        Said::Out(&REVEAL),
    ],
    ..FIRST_RUN
};

const LATER_REPLIES: &[Faulty<'static>] = &[
    NOTHING_OF_REPLY_1,
    Faulty {
        name: "two bytes of reply 1 come",
        replies: &[&PART_OF_NO_SIBLINGS],
        then: &[Said::In(&PART_OF_NO_SIBLINGS), Said::Ended],
        round: 1,
        reason: Reason::Closed,
        line: b"rejected query 1 round 1 Closed\n",
    },
    Faulty {
        name: "level 1 has no sibling",
        replies: &[&RIGHT_SIBLING_1, &NO_SIBLINGS],
        then: &[Said::In(&RIGHT_SIBLING_1)],
        round: 1,
        reason: Reason::BadFlags,
        line: b"rejected query 1 round 1 BadFlags\n",
    },
    Faulty {
        name: "reply 1 has no entries",
        replies: &[&ENTRY_2, &NO_SIBLINGS],
        then: &[Said::In(&ENTRY_HEADER)],
        round: 1,
        reason: Reason::BadKind,
        line: b"rejected query 1 round 1 BadKind\n",
    },
    Faulty {
        name: "the helper refuses in reply 1",
        replies: &[&REFUSE_1, &NO_SIBLINGS],
        then: &[Said::In(&REFUSE_1)],
        round: 1,
        reason: Reason::Refused(1),
        line: b"rejected query 1 round 1 Refused(1)\n",
    },
];

const FAULTS: &[Behind<'static>] = &[
    Behind {
        before: ASKED,
        query: 1,
        rows: FRAMES,
    },
    Behind {
        before: ASKED,
        query: 1,
        rows: REPLIES,
    },
    Behind {
        before: REVEALED,
        query: 1,
        rows: LATER_REPLIES,
    },
];

#[test]
fn entries_with_a_fault(rt: HostRuntime) -> Result<(), Fail> {
    check_faulty(&rt, rt.alloc(), FAULTS)
}
