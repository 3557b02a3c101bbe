// One question without a link, over talks that were worked out by hand.
use crate::asking::came_of;
use crate::pieces::{Row, cut_in_two, in_pieces};
use sip_replies::{AskStop, Said};
use sip_vector::Entry;
use sip_wire::Reason;
use std::alloc::Global;
use std::test::Fail;

// The query, and the first challenge.
const QUERY: [u8; 12] = [4, 0, 9, 1, 0, 0, 0, 1, 0, 0, 0, 2];

const REVEAL: [u8; 11] = [5, 0, 8, 0, 0, 0, 0, 0, 0, 0, 2];

const ASKED: &[&[u8]] = &[&QUERY];

const REVEALED: &[&[u8]] = &[&QUERY, &REVEAL];

// The entry (2, 5), the siblings 3 and 1, and no siblings.
const ENTRY: [u8; 17] = [0x13, 0, 0x0e, 0, 1, 0, 0, 0, 2, 0, 0, 0, 0, 0, 0, 0, 5];

const SIBLINGS: [u8; 20] = [
    0x14, 0, 0x11, 3, 0, 0, 0, 0, 0, 0, 0, 3, 0, 0, 0, 0, 0, 0, 0, 1,
];

const NONE: [u8; 4] = [0x14, 0, 1, 0];

// The entry (2, 6), which is wrong, and one behind the interval.
const WRONG: [u8; 17] = [0x13, 0, 0x0e, 0, 1, 0, 0, 0, 2, 0, 0, 0, 0, 0, 0, 0, 6];

const BEHIND: [u8; 17] = [0x13, 0, 0x0e, 0, 1, 0, 0, 0, 3, 0, 0, 0, 0, 0, 0, 0, 1];

// A sibling that is no element, the left one alone, and a refusal.
const NO_ELEMENT: [u8; 12] = [
    0x14, 0, 9, 1, 0x1f, 0xff, 0xff, 0xff, 0xff, 0xff, 0xff, 0xff,
];

const LEFT: [u8; 12] = [0x14, 0, 9, 1, 0, 0, 0, 0, 0, 0, 0, 3];

const REFUSE: [u8; 4] = [0x18, 0, 1, 1];

// Bytes behind a verdict.
const MORE: [u8; 3] = [0x14, 0, 1];

// What comes of a question: the pair (2, 5), a rejection, or nothing yet.
#[derive(Clone, Copy)]
enum Verdict {
    Pair,
    Rejected(u8, Reason),
    Waits,
}

impl Verdict {
    fn said(&self) -> Option<Result<Said, AskStop>> {
        match *self {
            Verdict::Pair => Some(Ok(Said::Pairs(1))),
            Verdict::Rejected(round, reason) => Some(Err(AskStop::Rejected { round, reason })),
            Verdict::Waits => None,
        }
    }

    fn pairs(&self) -> &'static [Entry] {
        match *self {
            Verdict::Pair => &[Entry { index: 2, value: 5 }],
            _ => &[],
        }
    }
}

// What the other end says, part by part, and whether it closes then; what comes of it: the verdict,
// how many bytes are taken, and what was sent.
struct AskRow {
    name: &'static str,
    said: &'static [&'static [u8]],
    closes: bool,
    verdict: Verdict,
    taken: usize,
    sent: &'static [&'static [u8]],
}

const ROWS: &[AskRow] = &[
    AskRow {
        name: "the entries are told",
        said: &[&ENTRY, &SIBLINGS, &NONE],
        closes: false,
        verdict: Verdict::Pair,
        taken: 41,
        sent: REVEALED,
    },
    AskRow {
        name: "bytes behind the verdict are left",
        said: &[&ENTRY, &SIBLINGS, &NONE, &MORE],
        closes: true,
        verdict: Verdict::Pair,
        taken: 41,
        sent: REVEALED,
    },
    AskRow {
        name: "the second reply is not whole",
        said: &[&ENTRY, &SIBLINGS, &MORE],
        closes: false,
        verdict: Verdict::Waits,
        taken: 40,
        sent: REVEALED,
    },
    AskRow {
        name: "the other end closes inside it",
        said: &[&ENTRY, &SIBLINGS, &MORE],
        closes: true,
        verdict: Verdict::Rejected(1, Reason::Closed),
        taken: 40,
        sent: REVEALED,
    },
    AskRow {
        name: "the other end closes before a byte",
        said: &[],
        closes: true,
        verdict: Verdict::Rejected(0, Reason::Closed),
        taken: 0,
        sent: ASKED,
    },
    AskRow {
        name: "a wrong entry",
        said: &[&WRONG, &SIBLINGS, &NONE],
        closes: false,
        verdict: Verdict::Rejected(2, Reason::Root),
        taken: 41,
        sent: REVEALED,
    },
    AskRow {
        name: "an entry behind the interval",
        said: &[&BEHIND, &SIBLINGS, &NONE],
        closes: false,
        verdict: Verdict::Rejected(0, Reason::BadOrder),
        taken: 17,
        sent: ASKED,
    },
    AskRow {
        name: "a sibling is missing",
        said: &[&ENTRY, &LEFT, &NONE],
        closes: false,
        verdict: Verdict::Rejected(0, Reason::BadFlags),
        taken: 29,
        sent: ASKED,
    },
    AskRow {
        name: "a sibling that is not asked for",
        said: &[&ENTRY, &SIBLINGS, &LEFT, &MORE],
        closes: false,
        verdict: Verdict::Rejected(1, Reason::BadFlags),
        taken: 49,
        sent: REVEALED,
    },
    AskRow {
        name: "a number that is no element",
        said: &[&ENTRY, &NO_ELEMENT, &NONE],
        closes: false,
        verdict: Verdict::Rejected(0, Reason::BadNumber),
        taken: 29,
        sent: ASKED,
    },
    AskRow {
        name: "a kind that may not come",
        said: &[&QUERY],
        closes: false,
        verdict: Verdict::Rejected(0, Reason::BadKind),
        taken: 3,
        sent: ASKED,
    },
    AskRow {
        name: "entries where siblings are due alone",
        said: &[&ENTRY, &SIBLINGS, &ENTRY],
        closes: false,
        verdict: Verdict::Rejected(1, Reason::BadKind),
        taken: 40,
        sent: REVEALED,
    },
    AskRow {
        name: "a length that the kind has not",
        said: &[&[0x14, 0, 2, 0, 0]],
        closes: false,
        verdict: Verdict::Rejected(0, Reason::BadLength),
        taken: 3,
        sent: ASKED,
    },
    AskRow {
        name: "a refusal",
        said: &[&REFUSE, &ENTRY],
        closes: false,
        verdict: Verdict::Rejected(0, Reason::Refused(1)),
        taken: 4,
        sent: ASKED,
    },
];

impl Row for AskRow {
    fn name(&self) -> &str {
        self.name
    }

    fn said(&self) -> &[&[u8]] {
        self.said
    }

    fn is_so(&self, alloc: Global, pieces: &[&[u8]]) -> Result<bool, Fail> {
        let came = came_of(alloc, pieces, self.closes)?;
        let sent = self.sent.concat(alloc)?;
        Ok(
            came.verdict == self.verdict.said()
                && came.pairs.as_slice() == self.verdict.pairs()
                && came.taken == self.taken
                && came.sent.as_slice() == sent.as_slice(),
        )
    }
}

#[test]
fn a_question_in_pieces_of_one_size(rt: HostRuntime) -> Result<(), Fail> {
    for row in ROWS.iter() {
        in_pieces(&rt, rt.alloc(), row)?;
    }
    Ok(())
}

#[test]
fn a_question_cut_in_two_at_each_byte(rt: HostRuntime) -> Result<(), Fail> {
    for row in ROWS.iter() {
        cut_in_two(&rt, rt.alloc(), row)?;
    }
    Ok(())
}
