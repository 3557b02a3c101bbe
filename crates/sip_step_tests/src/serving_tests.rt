// A helper without a link, over talks that were worked out by hand.
use crate::pieces::{Row, cut_in_two, in_pieces};
use crate::serving::served;
use sip_check_tests::frames::{BYE, ENTRY, NO_SIBLINGS, OUT_OF_TURN, REVEAL, STREAM, SUB_1_2};
use sip_helper::HelpStatus;
use std::alloc::Global;
use std::test::Fail;

// The opening of a talk over four items.
const OPEN: [u8; 5] = [1, 0, 2, 1, 2];

// What the other end says, part by part, whether it closes then, and which call of the sink fails;
// what comes of it: how the talk ends, how many bytes are taken, and what is sent.
struct ServeRow {
    name: &'static str,
    said: &'static [&'static [u8]],
    closes: bool,
    fails: &'static [u64],
    status: Option<HelpStatus>,
    taken: usize,
    sent: &'static [&'static [u8]],
}

const NO_FRAME: ServeRow = ServeRow {
    name: "a kind that no frame has",
    said: &[&STREAM, &[9, 0, 0], &BYE],
    closes: false,
    fails: &[],
    status: Some(HelpStatus::BadFrame { offset: 52 }),
    taken: 55,
    sent: &[],
};

const ROWS: &[ServeRow] = &[
    ServeRow {
        name: "a whole talk",
        said: &[&STREAM, &SUB_1_2, &REVEAL, &BYE],
        closes: false,
        fails: &[],
        status: Some(HelpStatus::Served),
        taken: 78,
        sent: &[&ENTRY, &NO_SIBLINGS],
    },
    ServeRow {
        name: "bytes behind a Bye are left",
        said: &[&STREAM, &SUB_1_2, &REVEAL, &BYE, &SUB_1_2],
        closes: true,
        fails: &[],
        status: Some(HelpStatus::Served),
        taken: 78,
        sent: &[&ENTRY, &NO_SIBLINGS],
    },
    ServeRow {
        name: "more is to come",
        said: &[&STREAM, &SUB_1_2, &REVEAL, &[6, 0]],
        closes: false,
        fails: &[],
        status: None,
        taken: 77,
        sent: &[&ENTRY, &NO_SIBLINGS],
    },
    ServeRow {
        name: "the other end closes inside a frame",
        said: &[&STREAM, &SUB_1_2, &REVEAL, &[6, 0]],
        closes: true,
        fails: &[],
        status: Some(HelpStatus::PeerClosed),
        taken: 77,
        sent: &[&ENTRY, &NO_SIBLINGS],
    },
    ServeRow {
        name: "a query before the stream",
        said: &[&OPEN, &SUB_1_2, &BYE],
        closes: false,
        fails: &[],
        status: Some(HelpStatus::BadFrame { offset: 5 }),
        taken: 17,
        sent: &[&OUT_OF_TURN],
    },
    ServeRow {
        name: "a challenge too many",
        said: &[&STREAM, &SUB_1_2, &REVEAL, &REVEAL, &BYE],
        closes: false,
        fails: &[],
        status: Some(HelpStatus::BadFrame { offset: 75 }),
        taken: 86,
        sent: &[&ENTRY, &NO_SIBLINGS, &OUT_OF_TURN],
    },
    NO_FRAME,
    ServeRow {
        name: "a length that the kind has not",
        said: &[&STREAM, &[5, 0, 9], &BYE],
        ..NO_FRAME
    },
    ServeRow {
        name: "the sink fails at the first reply",
        said: &[&STREAM, &SUB_1_2, &REVEAL, &BYE],
        closes: false,
        fails: &[1],
        status: Some(HelpStatus::PeerFault),
        taken: 64,
        sent: &[],
    },
    ServeRow {
        name: "the sink fails inside the first reply",
        said: &[&STREAM, &SUB_1_2, &REVEAL, &BYE],
        closes: true,
        fails: &[3],
        status: Some(HelpStatus::PeerFault),
        taken: 64,
        sent: &[&[0x13, 0, 0x0e, 0, 1, 0, 0, 0, 2, 0]],
    },
];

impl Row for ServeRow {
    fn name(&self) -> &str {
        self.name
    }

    fn said(&self) -> &[&[u8]] {
        self.said
    }

    fn is_so(&self, alloc: Global, pieces: &[&[u8]]) -> Result<bool, Fail> {
        let served = served(alloc, pieces, self.closes, self.fails)?;
        let sent = self.sent.concat(alloc)?;
        Ok(
            served.status == self.status
                && served.taken == self.taken
                && served.sent.as_slice() == sent.as_slice(),
        )
    }
}

#[test]
fn a_talk_in_pieces_of_one_size(rt: HostRuntime) -> Result<(), Fail> {
    for row in ROWS.iter() {
        in_pieces(&rt, rt.alloc(), row)?;
    }
    Ok(())
}

#[test]
fn a_talk_cut_in_two_at_each_byte(rt: HostRuntime) -> Result<(), Fail> {
    for row in ROWS.iter() {
        cut_in_two(&rt, rt.alloc(), row)?;
    }
    Ok(())
}
