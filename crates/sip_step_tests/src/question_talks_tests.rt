// A helper of questions without a link, over a talk of every kind in pieces of many sizes.
use crate::pieces::{Row, cut_in_two, in_pieces};
use sip_check_tests::frames::{
    BYE, CUBES, ENTRY, ENTRY_0, F2, FOUND_0, FOUND_1, FOUND_2, HEAVY_4, INDEX_1, LAST, LEAVES,
    LEFT_3, NINE, NO_SIBLINGS, NODES, OUT_OF_TURN, PRED_1, RANGE, REVEAL, RIGHT_7, SIX, SQUARES,
    STREAM, SUB_0_1, SUB_1_1, SUB_1_2, SUCC_1, SUM, THREES,
};
use sip_helper::HelpStatus;
use sip_ports::MemorySink;
use sip_questions::QuestionCore;
use sip_steps::Serving;
use std::alloc::Global;
use std::test::Fail;

// What the other end says, part by part, how the talk ends, and what is sent, part by part.
struct TalkRow {
    name: &'static str,
    said: &'static [&'static [u8]],
    status: HelpStatus,
    sent: &'static [&'static [u8]],
}

const ROWS: &[TalkRow] = &[
    TalkRow {
        name: "questions of every kind",
        said: &[
            &STREAM, &SUB_1_2, &REVEAL, &SUCC_1, &SUB_1_2, &REVEAL, &CUBES, &REVEAL, &F2, &REVEAL,
            &INDEX_1, &SUB_1_1, &REVEAL, &HEAVY_4, &REVEAL, &PRED_1, &SUB_0_1, &REVEAL, &RANGE,
            &REVEAL, &BYE,
        ],
        status: HelpStatus::Served,
        sent: &[
            &ENTRY,
            &NO_SIBLINGS,
            &FOUND_2,
            &ENTRY,
            &NO_SIBLINGS,
            &SUM,
            &LAST,
            &SQUARES,
            &NINE,
            &FOUND_1,
            &LEFT_3,
            &RIGHT_7,
            &LEAVES,
            &NODES,
            &FOUND_0,
            &ENTRY_0,
            &NO_SIBLINGS,
            &RIGHT_7,
            &SIX,
            &THREES,
        ],
    },
    TalkRow {
        name: "a query while a moment is open",
        said: &[&STREAM, &CUBES, &SUB_1_2],
        status: HelpStatus::BadFrame { offset: 57 },
        sent: &[&SUM, &OUT_OF_TURN],
    },
];

impl Row for TalkRow {
    fn name(&self) -> &str {
        self.name
    }

    fn said(&self) -> &[&[u8]] {
        self.said
    }

    fn is_so(&self, alloc: Global, pieces: &[&[u8]]) -> Result<bool, Fail> {
        let mut serving = Serving::begin(alloc, QuestionCore::new(alloc))?;
        let mut replies = MemorySink::new(alloc, 5, Vec::new(alloc));
        for piece in pieces {
            serving.feed(piece, &mut replies);
        }
        let sent = self.sent.concat(alloc)?;
        Ok(serving.status() == Some(self.status) && replies.bytes() == sent.as_slice())
    }
}

#[test]
fn questions_of_every_kind_are_served_in_any_pieces(rt: HostRuntime) -> Result<(), Fail> {
    for row in ROWS.iter() {
        in_pieces(&rt, rt.alloc(), row)?;
        cut_in_two(&rt, rt.alloc(), row)?;
    }
    Ok(())
}
