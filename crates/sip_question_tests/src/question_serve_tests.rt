// What a helper of questions says, over whole talks.
use crate::facts::expect;
use crate::store_rows::END;
use sip_check_tests::frames::{
    BYE, CUBES, ENTRY, F2, FOUND_0, FOUND_2, HEAVY_4, LAST, LEAVES, NINE, NO_SIBLINGS, NODES,
    OUT_OF_TURN, REVEAL, SQUARES, STREAM, SUB_1_2, SUCC_1, SUM,
};
use sip_check_tests::serving::{Server, Talk, first_unserved, is_served};
use sip_helper::HelpStatus;
use sip_ports::MemoryLink;
use sip_questions::serve_questions;
use std::alloc::Global;
use std::process::Abort;

// The helper of questions.
pub(crate) struct Helper;

impl Server for Helper {
    type End = HelpStatus;

    fn serve(alloc: Global, link: &mut MemoryLink) -> HelpStatus {
        serve_questions(alloc, link)
    }
}

// Talks that are served to their end: any kind behind any other, and a Bye at any place.
const SERVED: [Talk<'static, HelpStatus>; 9] = [
    (
        &[
            &STREAM, &SUB_1_2, &REVEAL, &CUBES, &REVEAL, &SUCC_1, &SUB_1_2, &REVEAL, &F2, &REVEAL,
            &CUBES, &REVEAL, &HEAVY_4, &REVEAL, &SUCC_1, &BYE,
        ],
        HelpStatus::Served,
        &[
            &ENTRY,
            &NO_SIBLINGS,
            &SUM,
            &LAST,
            &FOUND_2,
            &ENTRY,
            &NO_SIBLINGS,
            &SQUARES,
            &NINE,
            &SUM,
            &LAST,
            &LEAVES,
            &NODES,
            &FOUND_2,
        ],
    ),
    // Behind a place any question may come, and so may no query.
    (
        &[&STREAM, &SUCC_1, &SUCC_1, &CUBES, &REVEAL, &F2, &BYE],
        HelpStatus::Served,
        &[&FOUND_2, &FOUND_2, &SUM, &LAST, &SQUARES],
    ),
    // A Bye before the opening, in the stream, behind it, and behind each kind's first reply.
    (&[&BYE], HelpStatus::Served, &[]),
    (&[&[1, 0, 2, 1, 2], &BYE], HelpStatus::Served, &[]),
    (&[&STREAM, &BYE, &[7]], HelpStatus::Served, &[]),
    (&[&STREAM, &SUCC_1, &BYE], HelpStatus::Served, &[&FOUND_2]),
    (&[&STREAM, &CUBES, &BYE], HelpStatus::Served, &[&SUM]),
    (&[&STREAM, &SUB_1_2, &BYE], HelpStatus::Served, &[&ENTRY]),
    // The link ends while a moment is open.
    (&[&STREAM, &CUBES], HelpStatus::PeerClosed, &[&SUM]),
];

// Talks with a message that may not come: while a query is open, and while a moment is.
const OPEN: [Talk<'static, HelpStatus>; 8] = [
    (
        &[&STREAM, &SUB_1_2, &SUCC_1],
        HelpStatus::BadFrame { offset: 64 },
        &[&ENTRY, &OUT_OF_TURN],
    ),
    (
        &[&STREAM, &SUB_1_2, &CUBES],
        HelpStatus::BadFrame { offset: 64 },
        &[&ENTRY, &OUT_OF_TURN],
    ),
    (
        &[&STREAM, &CUBES, &SUB_1_2],
        HelpStatus::BadFrame { offset: 57 },
        &[&SUM, &OUT_OF_TURN],
    ),
    (
        &[&STREAM, &CUBES, &SUCC_1],
        HelpStatus::BadFrame { offset: 57 },
        &[&SUM, &OUT_OF_TURN],
    ),
    (
        &[&STREAM, &CUBES, &CUBES],
        HelpStatus::BadFrame { offset: 57 },
        &[&SUM, &OUT_OF_TURN],
    ),
    (
        &[&STREAM, &CUBES, &[3, 0, 0]],
        HelpStatus::BadFrame { offset: 57 },
        &[&SUM, &OUT_OF_TURN],
    ),
    // A challenge more than there are levels below the last, and one where nothing is open.
    (
        &[&STREAM, &CUBES, &REVEAL, &REVEAL],
        HelpStatus::BadFrame { offset: 68 },
        &[&SUM, &LAST, &OUT_OF_TURN],
    ),
    (
        &[&STREAM, &SUCC_1, &REVEAL],
        HelpStatus::BadFrame { offset: 64 },
        &[&FOUND_2, &OUT_OF_TURN],
    ),
];

// Questions that cannot be asked: an Ask of no kind, an item too high, a side above 1, and degrees
// beside 3 to 8.
const REFUSED: [&[u8]; 5] = [
    &[0x21, 0, 9, 4, 0, 0, 0, 0, 0, 0, 0, 1],
    &[0x21, 0, 9, 1, 0, 0, 0, 0, 0, 0, 0, 4],
    &[0x24, 0, 2, 2, 3],
    &[0x24, 0, 2, 0, 2],
    &[0x24, 0, 2, 0, 9],
];

// Talks with a question too early, or with the end of another talk.
const EARLY: [Talk<'static, HelpStatus>; 3] = [
    (
        &[&[1, 0, 2, 1, 2], &SUCC_1],
        HelpStatus::BadFrame { offset: 5 },
        &[&OUT_OF_TURN],
    ),
    (
        &[&[1, 0, 2, 1, 2], &CUBES],
        HelpStatus::BadFrame { offset: 5 },
        &[&OUT_OF_TURN],
    ),
    (&[&STREAM, &END], HelpStatus::BadFrame { offset: 52 }, &[]),
];

// Each talk, in pieces of one byte and in one piece.
fn are_served(rt: &impl Abort, alloc: Global, talks: &[Talk<'_, HelpStatus>]) {
    let unserved = first_unserved::<Helper>(alloc, talks).expect(rt, "memory");
    assert_eq!(rt; unserved, None);
}

#[test]
fn questions_of_every_kind_are_served(rt: HostRuntime) {
    are_served(&rt, rt.alloc(), &SERVED);
}

#[test]
fn what_may_not_come_while_a_question_is_open(rt: HostRuntime) {
    are_served(&rt, rt.alloc(), &OPEN);
}

#[test]
fn questions_that_cannot_be_asked(rt: HostRuntime) {
    let end = HelpStatus::BadFrame { offset: 52 };
    for ask in &REFUSED {
        let parts: [&[u8]; 2] = [&STREAM, ask];
        are_served(&rt, rt.alloc(), &[(&parts, end, &[&OUT_OF_TURN])]);
    }
    are_served(&rt, rt.alloc(), &EARLY);
}

// ---- how many of each

// Over two items with no entry: the value at 0 is asked for, the query for it has one reply, the
// sibling 0, and a moment has one: 0, and the polynomial 0.
const NOTHING: [u8; 8] = [1, 0, 2, 1, 1, 3, 0, 0];

const ASK_INDEX_0: [u8; 12] = [0x21, 0, 9, 1, 0, 0, 0, 0, 0, 0, 0, 0];

const SUB_0_0: [u8; 12] = [4, 0, 9, 1, 0, 0, 0, 0, 0, 0, 0, 0];

const SIBLING_1: [u8; 12] = [0x14, 0, 9, 2, 0, 0, 0, 0, 0, 0, 0, 0];

const ZERO: [u8; 46] = [
    0x11, 0, 8, 0, 0, 0, 0, 0, 0, 0, 0, 0x25, 0, 32, 0, 0, 0, 0, 0, 0, 0, 0, 0, 0, 0, 0, 0, 0, 0,
    0, 0, 0, 0, 0, 0, 0, 0, 0, 0, 0, 0, 0, 0, 0, 0, 0,
];

// Each is asked 16 times, then one of the other kinds, and then it may not come. So the query about
// a lookup's interval is one of 16 queries.
const LIMITS: [(&str, &[u8], &[u8], &[u8], &[u8]); 3] = [
    ("lookups", &ASK_INDEX_0, &FOUND_0, &CUBES, &ZERO),
    ("moments", &CUBES, &ZERO, &ASK_INDEX_0, &FOUND_0),
    ("queries", &SUB_0_0, &SIBLING_1, &ASK_INDEX_0, &FOUND_0),
];

#[test]
fn the_17th_of_a_kind_is_out_of_turn(rt: HostRuntime) {
    let alloc = rt.alloc();
    for (name, ask, reply, other, given) in &LIMITS {
        let mut talk = NOTHING.to_vec(alloc).expect(&rt, "memory");
        let mut want = Vec::new(alloc);
        for _ in 0..16 {
            talk.extend_from_slice(ask).expect(&rt, "memory");
            want.extend_from_slice(reply).expect(&rt, "memory");
        }
        talk.extend_from_slice(other).expect(&rt, "memory");
        want.extend_from_slice(given).expect(&rt, "memory");
        let offset = talk.len() as u64;
        talk.extend_from_slice(ask).expect(&rt, "memory");
        want.extend_from_slice(&OUT_OF_TURN).expect(&rt, "memory");
        let end = HelpStatus::BadFrame { offset };
        let facts = is_served::<Helper>(alloc, &talk, 7, end, &want);
        expect(&rt, name, &facts.expect(&rt, "memory"));
    }
}
