// Questions of every kind without a link, over talks that were worked out by hand.
use crate::kinds::asked;
use crate::pieces::{Row, cut_in_two, in_pieces};
use sip_check_tests::frames::{
    CUBES, ENTRY, ENTRY_0, F2, FOUND_0, FOUND_1, FOUND_2, FOUND_NONE, HEAVY_4, INDEX_1, LAST,
    LEAVES, LEFT_3, NINE, NO_SIBLINGS, NODES, PRED_1, RANGE, REVEAL, RIGHT_7, SIX, SQUARES,
    SUB_0_1, SUB_1_1, SUB_1_2, SUB_1_3, SUCC_1, SUM, THREES, TWO_ENTRIES,
};
use sip_lookup::Lookup;
use sip_moments::Moment;
use sip_question_tests::large::{
    ALL_MARKS, ASK_3, ASK_6, LARGE_3, LARGE_6, LARGE_20, MARKS, NO_NODES, NODE,
};
use sip_questions::Question;
use sip_vector::{Query, Side};
use sip_verifier::Unanswered;
use sip_wire::Reason;
use std::alloc::Global;
use std::test::Fail;

// Bytes behind a verdict.
const MORE: [u8; 3] = [0x14, 0, 1];

// What comes of a question: the line of its answer, a rejection, or nothing yet.
#[derive(Clone, Copy)]
enum Comes {
    Line(&'static [u8]),
    Rejected(u8, Reason),
    Waits,
}

// What the other end says to a question, part by part, and whether it closes then; what comes of
// it, how many bytes are taken, and what is sent, part by part.
struct KindRow {
    name: &'static str,
    question: Question,
    said: &'static [&'static [u8]],
    closes: bool,
    comes: Comes,
    taken: usize,
    sent: &'static [&'static [u8]],
}

const SUB: Question = Question::Query(Query::Sub { lo: 1, hi: 2 });

const SQUARE: Question = Question::Query(Query::F2 { side: Side::First });

const WITHIN: Question = Question::Query(Query::Range {
    side: Side::First,
    lo: 1,
    hi: 3,
});

const HEAVY: Question = Question::Query(Query::Heavy {
    side: Side::First,
    at_least: 4,
});

const TOO_HEAVY: Question = Question::Query(Query::Heavy {
    side: Side::First,
    at_least: 10,
});

const CUBE: Question = Question::Moment(Moment {
    side: Side::First,
    degree: 3,
});

const SUCC: Question = Question::Lookup(Lookup::Succ(1));

const PRED: Question = Question::Lookup(Lookup::Pred(1));

const INDEX: Question = Question::Lookup(Lookup::Index(1));

// Each kind is answered; bytes behind the verdict are left.
const ANSWERED: &[KindRow] = &[
    KindRow {
        name: "entries",
        question: SUB,
        said: &[&ENTRY, &NO_SIBLINGS, &MORE],
        closes: true,
        comes: Comes::Line(b"sub:1:2 2:5\n"),
        taken: 41,
        sent: &[&SUB_1_2, &REVEAL],
    },
    KindRow {
        name: "a second moment",
        question: SQUARE,
        said: &[&SQUARES, &NINE, &MORE],
        closes: false,
        comes: Comes::Line(b"f2:0 35\n"),
        taken: 65,
        sent: &[&F2, &REVEAL],
    },
    KindRow {
        name: "a sum of a range",
        question: WITHIN,
        said: &[&SIX, &THREES],
        closes: false,
        comes: Comes::Line(b"range:0:1:3 6\n"),
        taken: 65,
        sent: &[&RANGE, &REVEAL],
    },
    KindRow {
        name: "heavy hitters",
        question: HEAVY,
        said: &[&LEAVES, &NODES, &MORE],
        closes: false,
        comes: Comes::Line(b"heavy:0:4 2:5\n"),
        taken: 60,
        sent: &[&HEAVY_4, &REVEAL],
    },
    KindRow {
        name: "what is known without a reply",
        question: TOO_HEAVY,
        said: &[&MORE],
        closes: true,
        comes: Comes::Line(b"heavy:0:10 none\n"),
        taken: 0,
        sent: &[],
    },
    KindRow {
        name: "a moment",
        question: CUBE,
        said: &[&SUM, &LAST, &MORE],
        closes: false,
        comes: Comes::Line(b"moment:0:3 153\n"),
        taken: 81,
        sent: &[&CUBES, &REVEAL],
    },
    KindRow {
        name: "a nearest entry above",
        question: SUCC,
        said: &[&FOUND_2, &ENTRY, &NO_SIBLINGS, &MORE],
        closes: true,
        comes: Comes::Line(b"succ:1 2:5\n"),
        taken: 53,
        sent: &[&SUCC_1, &SUB_1_2, &REVEAL],
    },
    KindRow {
        name: "a nearest entry below",
        question: PRED,
        said: &[&FOUND_0, &ENTRY_0, &NO_SIBLINGS, &RIGHT_7, &MORE],
        closes: false,
        comes: Comes::Line(b"pred:1 0:3\n"),
        taken: 45,
        sent: &[&PRED_1, &SUB_0_1, &REVEAL],
    },
    KindRow {
        name: "an entry",
        question: INDEX,
        said: &[&FOUND_1, &LEFT_3, &RIGHT_7],
        closes: false,
        comes: Comes::Line(b"index:1 0\n"),
        taken: 36,
        sent: &[&INDEX_1, &SUB_1_1, &REVEAL],
    },
];

// Large entries are told by their values: none is, where only what was taken away is as large.
const LARGE: &[KindRow] = &[
    KindRow {
        name: "large entries",
        question: LARGE_3,
        said: &[&ALL_MARKS, &NO_NODES, &MORE],
        closes: false,
        comes: Comes::Line(b"above:0:3 1:5 3:3\n"),
        taken: 107,
        sent: &[&ASK_3, &REVEAL],
    },
    KindRow {
        name: "no large entry beside a large weight",
        question: LARGE_6,
        said: &[&MARKS, &NODE],
        closes: true,
        comes: Comes::Line(b"above:0:6 none\n"),
        taken: 88,
        sent: &[&ASK_6, &REVEAL],
    },
    KindRow {
        name: "more than all together",
        question: LARGE_20,
        said: &[&MORE],
        closes: false,
        comes: Comes::Line(b"above:0:20 none\n"),
        taken: 0,
        sent: &[],
    },
    KindRow {
        name: "leaves where marks are due",
        question: LARGE_6,
        said: &[&LEAVES],
        closes: false,
        comes: Comes::Rejected(0, Reason::BadKind),
        taken: 3,
        sent: &[&ASK_6],
    },
    KindRow {
        name: "siblings where nodes are due",
        question: LARGE_6,
        said: &[&MARKS, &MORE],
        closes: true,
        comes: Comes::Rejected(1, Reason::BadKind),
        taken: 59,
        sent: &[&ASK_6, &REVEAL],
    },
];

// A question has no answer.
const UNANSWERED: &[KindRow] = &[
    KindRow {
        name: "siblings where a polynomial is due",
        question: SQUARE,
        said: &[&SQUARES, &MORE],
        closes: true,
        comes: Comes::Rejected(1, Reason::BadKind),
        taken: 41,
        sent: &[&F2, &REVEAL],
    },
    KindRow {
        name: "the end before the second polynomial",
        question: SQUARE,
        said: &[&SQUARES],
        closes: true,
        comes: Comes::Rejected(1, Reason::Closed),
        taken: 38,
        sent: &[&F2, &REVEAL],
    },
    KindRow {
        name: "a moment waits",
        question: CUBE,
        said: &[&SUM, &[0x25, 0]],
        closes: false,
        comes: Comes::Waits,
        taken: 48,
        sent: &[&CUBES, &REVEAL],
    },
    KindRow {
        name: "a place where entries are due",
        question: SUB,
        said: &[&FOUND_2],
        closes: false,
        comes: Comes::Rejected(0, Reason::BadKind),
        taken: 3,
        sent: &[&SUB_1_2],
    },
    KindRow {
        name: "entries where a place is due",
        question: SUCC,
        said: &[&ENTRY],
        closes: false,
        comes: Comes::Rejected(0, Reason::BadKind),
        taken: 3,
        sent: &[&SUCC_1],
    },
    KindRow {
        name: "a place that is too low",
        question: SUCC,
        said: &[&FOUND_0, &ENTRY],
        closes: false,
        comes: Comes::Rejected(0, Reason::BadFound),
        taken: 12,
        sent: &[&SUCC_1],
    },
    KindRow {
        name: "no place of an item",
        question: INDEX,
        said: &[&FOUND_NONE, &LEFT_3],
        closes: false,
        comes: Comes::Rejected(0, Reason::BadFound),
        taken: 12,
        sent: &[&INDEX_1],
    },
    KindRow {
        name: "no place, and entries in the interval",
        question: SUCC,
        said: &[&FOUND_NONE, &TWO_ENTRIES, &LEFT_3, &NO_SIBLINGS, &MORE],
        closes: false,
        comes: Comes::Rejected(2, Reason::NotAlone),
        taken: 57,
        sent: &[&SUCC_1, &SUB_1_3, &REVEAL],
    },
    KindRow {
        name: "a refusal of a lookup",
        question: PRED,
        said: &[&[0x18, 0, 1, 1], &ENTRY_0],
        closes: false,
        comes: Comes::Rejected(0, Reason::Refused(1)),
        taken: 4,
        sent: &[&PRED_1],
    },
    KindRow {
        name: "the end before a place",
        question: PRED,
        said: &[],
        closes: true,
        comes: Comes::Rejected(0, Reason::Closed),
        taken: 0,
        sent: &[&PRED_1],
    },
    KindRow {
        name: "the end inside a place",
        question: PRED,
        said: &[&[0x22, 0, 9, 1]],
        closes: true,
        comes: Comes::Rejected(0, Reason::Closed),
        taken: 4,
        sent: &[&PRED_1],
    },
    KindRow {
        name: "the end behind a place",
        question: PRED,
        said: &[&FOUND_0],
        closes: true,
        comes: Comes::Rejected(0, Reason::Closed),
        taken: 12,
        sent: &[&PRED_1, &SUB_0_1],
    },
    KindRow {
        name: "a lookup waits for its place",
        question: PRED,
        said: &[&[0x22, 0]],
        closes: false,
        comes: Comes::Waits,
        taken: 2,
        sent: &[&PRED_1],
    },
    KindRow {
        name: "a lookup waits for its entries",
        question: PRED,
        said: &[&FOUND_0, &ENTRY_0],
        closes: false,
        comes: Comes::Waits,
        taken: 29,
        sent: &[&PRED_1, &SUB_0_1],
    },
];

// Whether this line, or this rejection, is what comes.
fn is_what_comes(line: &Option<Result<Vec<u8>, Unanswered>>, comes: Comes) -> bool {
    match (line, comes) {
        (Some(Ok(line)), Comes::Line(wanted)) => line.as_slice() == wanted,
        (Some(Err(why)), Comes::Rejected(round, reason)) => {
            *why == Unanswered::Rejected { round, reason }
        }
        (None, Comes::Waits) => true,
        _ => false,
    }
}

impl Row for KindRow {
    fn name(&self) -> &str {
        self.name
    }

    fn said(&self) -> &[&[u8]] {
        self.said
    }

    fn is_so(&self, alloc: Global, pieces: &[&[u8]]) -> Result<bool, Fail> {
        let Some(came) = asked(alloc, self.question, pieces, self.closes)? else {
            return Ok(false);
        };
        let sent = self.sent.concat(alloc)?;
        Ok(
            is_what_comes(&came.line, self.comes)
                && came.taken == self.taken
                && came.sent.as_slice() == sent.as_slice(),
        )
    }
}

#[test]
fn each_kind_is_answered_in_any_pieces(rt: HostRuntime) -> Result<(), Fail> {
    for row in ANSWERED.iter() {
        in_pieces(&rt, rt.alloc(), row)?;
        cut_in_two(&rt, rt.alloc(), row)?;
    }
    Ok(())
}

#[test]
fn large_entries_are_answered_by_their_marks(rt: HostRuntime) -> Result<(), Fail> {
    for row in LARGE.iter() {
        in_pieces(&rt, rt.alloc(), row)?;
        cut_in_two(&rt, rt.alloc(), row)?;
    }
    Ok(())
}

#[test]
fn no_kind_is_answered_otherwise(rt: HostRuntime) -> Result<(), Fail> {
    for row in UNANSWERED.iter() {
        in_pieces(&rt, rt.alloc(), row)?;
        cut_in_two(&rt, rt.alloc(), row)?;
    }
    Ok(())
}
