// What a helper of moments says, over whole talks, and a run of moments against what it said.
use crate::facts::expect;
use crate::moment_runs::one;
use sip_check_tests::events::sent_in;
use sip_check_tests::frames::{BYE, OUT_OF_TURN, REVEAL, STREAM, SUB_1_2};
use sip_check_tests::serving::{
    Server, Talk, first_call_unserved, first_unserved, is_served, served,
};
use sip_helper::HelpStatus;
use sip_moments::{moment_stream, serve_moments};
use sip_ports::{MemoryLink, MemorySink, MemorySource};
use sip_vector::Side;
use sip_verifier::Status;
use std::alloc::Global;
use std::process::Abort;
use std::test::Fail;

// An Ask of the third moment of side 0, and the end of the talk.
const ASK: [u8; 5] = [0x24, 0, 2, 0, 3];

const END: [u8; 3] = [0x23, 0, 0];

// The third moment of (3, 0, 5, 1) is 153.
const CLAIM: [u8; 11] = [0x11, 0, 8, 0, 0, 0, 0, 0, 0, 0, 153];

// 152 - 381x + 321x^2 - 91x^3.
const FIRST: [u8; 35] = [
    0x25, 0, 32, 0, 0, 0, 0, 0, 0, 0, 152, 0x1f, 0xff, 0xff, 0xff, 0xff, 0xff, 0xfe, 0x82, 0, 0, 0,
    0, 0, 0, 1, 0x41, 0x1f, 0xff, 0xff, 0xff, 0xff, 0xff, 0xff, 0xa4,
];

// Behind the challenge 2 both entries are -3: the polynomial is -27.
const SECOND: [u8; 35] = [
    0x25, 0, 32, 0x1f, 0xff, 0xff, 0xff, 0xff, 0xff, 0xff, 0xe4, 0, 0, 0, 0, 0, 0, 0, 0, 0, 0, 0,
    0, 0, 0, 0, 0, 0, 0, 0, 0, 0, 0, 0, 0,
];

// The opening of a talk over four items, the vector (2, -7, 1, 0) of side 1, and its end.
const SIDE_1: [u8; 52] = [
    1, 0, 2, 1, 2, 2, 0, 41, 0, 3, 1, 0, 0, 0, 0, 0, 0, 0, 0, 0, 0, 0, 2, 1, 0, 0, 0, 1, 0xff,
    0xff, 0xff, 0xff, 0xff, 0xff, 0xff, 0xf9, 1, 0, 0, 0, 2, 0, 0, 0, 0, 0, 0, 0, 1, 3, 0, 0,
];

// Its fifth moment is -16774, by the polynomials (33, -725, 6490, -29170, 65615, -59050) and,
// behind the challenge 2, (-16 + 15x)^5.
const OF_SIDE_1: [u8; 113] = [
    0x11, 0, 8, 0xff, 0xff, 0xff, 0xff, 0xff, 0xff, 0xbe, 122, 0x25, 0, 48, 0, 0, 0, 0, 0, 0, 0,
    33, 31, 0xff, 0xff, 0xff, 0xff, 0xff, 0xfd, 42, 0, 0, 0, 0, 0, 0, 25, 90, 31, 0xff, 0xff, 0xff,
    0xff, 0xff, 142, 13, 0, 0, 0, 0, 0, 1, 0, 79, 31, 0xff, 0xff, 0xff, 0xff, 0xff, 25, 85, 0x25,
    0, 48, 31, 0xff, 0xff, 0xff, 0xff, 0xef, 0xff, 0xff, 0, 0, 0, 0, 0, 75, 0, 0, 31, 0xff, 0xff,
    0xff, 0xff, 115, 95, 0xff, 0, 0, 0, 0, 0, 131, 0xd6, 0, 31, 0xff, 0xff, 0xff, 0xff, 0xc2, 51,
    0xaf, 0, 0, 0, 0, 0, 11, 150, 79,
];

// The opening of a talk over two items, one update of item 1, and its end: the delta 181, and 182.
const OF_181: [u8; 26] = [
    1, 0, 2, 1, 1, 2, 0, 15, 0, 1, 0, 0, 0, 0, 1, 0, 0, 0, 0, 0, 0, 0, 181, 3, 0, 0,
];

const OF_182: [u8; 26] = [
    1, 0, 2, 1, 1, 2, 0, 15, 0, 1, 0, 0, 0, 0, 1, 0, 0, 0, 0, 0, 0, 0, 182, 3, 0, 0,
];

const ASK_EIGHTH: [u8; 5] = [0x24, 0, 2, 0, 8];

// The eighth moment of 181, 1151936657823500641, and the polynomial that is it times x^8.
const EIGHTH: [u8; 86] = [
    0x11, 0, 8, 15, 0xfc, 128, 73, 125, 82, 9, 97, 0x25, 0, 72, 0, 0, 0, 0, 0, 0, 0, 0, 0, 0, 0, 0,
    0, 0, 0, 0, 0, 0, 0, 0, 0, 0, 0, 0, 0, 0, 0, 0, 0, 0, 0, 0, 0, 0, 0, 0, 0, 0, 0, 0, 0, 0, 0, 0,
    0, 0, 0, 0, 0, 0, 0, 0, 0, 0, 0, 0, 0, 0, 0, 0, 0, 0, 0, 0, 15, 0xfc, 128, 73, 125, 82, 9, 97,
];

// Over two items with no entry a moment has one reply: 0, and the polynomial 0.
const NOTHING: [u8; 8] = [1, 0, 2, 1, 1, 3, 0, 0];

const ZERO: [u8; 46] = [
    0x11, 0, 8, 0, 0, 0, 0, 0, 0, 0, 0, 0x25, 0, 32, 0, 0, 0, 0, 0, 0, 0, 0, 0, 0, 0, 0, 0, 0, 0,
    0, 0, 0, 0, 0, 0, 0, 0, 0, 0, 0, 0, 0, 0, 0, 0, 0,
];

// Talks that are served to their end, or in which the link ends.
const SERVED: [Talk<'static, HelpStatus>; 7] = [
    (
        &[&STREAM, &ASK, &REVEAL, &END],
        HelpStatus::Served,
        &[&CLAIM, &FIRST, &SECOND],
    ),
    (
        &[&SIDE_1, &[0x24, 0, 2, 1, 5], &REVEAL, &END],
        HelpStatus::Served,
        &[&OF_SIDE_1],
    ),
    (
        &[&OF_181, &ASK_EIGHTH, &ASK, &END],
        HelpStatus::Served,
        &[
            &EIGHTH,
            // 181^3 = 5929741.
            &[0x11, 0, 8, 0, 0, 0, 0, 0, 0x5a, 0x7b, 0x0d],
            &[0x25, 0, 32],
            &[0; 24],
            &[0, 0, 0, 0, 0, 0x5a, 0x7b, 0x0d],
        ],
    ),
    // No moment is asked, and bytes stand behind the end.
    (&[&STREAM, &END, &[7]], HelpStatus::Served, &[]),
    // The link ends where a moment is due, behind an opening, and inside a moment.
    (&[&STREAM], HelpStatus::PeerClosed, &[]),
    (&[&[1, 0, 2, 1, 2]], HelpStatus::PeerClosed, &[]),
    (&[&STREAM, &ASK], HelpStatus::PeerClosed, &[&CLAIM, &FIRST]),
];

// Talks with a message that may not come, or none.
const REFUSED: [Talk<'static, HelpStatus>; 12] = [
    // A side above 1, degrees beside 3 to 8, and a moment for which a claim may have no room.
    (
        &[&STREAM, &[0x24, 0, 2, 2, 3]],
        HelpStatus::BadFrame { offset: 52 },
        &[&OUT_OF_TURN],
    ),
    (
        &[&STREAM, &[0x24, 0, 2, 0, 2]],
        HelpStatus::BadFrame { offset: 52 },
        &[&OUT_OF_TURN],
    ),
    (
        &[&STREAM, &[0x24, 0, 2, 0, 9]],
        HelpStatus::BadFrame { offset: 52 },
        &[&OUT_OF_TURN],
    ),
    (
        &[&OF_182, &ASK_EIGHTH],
        HelpStatus::BadFrame { offset: 26 },
        &[&OUT_OF_TURN],
    ),
    // The other side weighs nothing.
    (
        &[&OF_182, &[0x24, 0, 2, 1, 8], &ASK_EIGHTH],
        HelpStatus::BadFrame { offset: 31 },
        &[
            &[0x11, 0, 8],
            &[0; 8],
            &[0x25, 0, 72],
            &[0; 72],
            &OUT_OF_TURN,
        ],
    ),
    // A farewell of queries and a query while a moment is open.
    (
        &[&STREAM, &ASK, &BYE],
        HelpStatus::BadFrame { offset: 57 },
        &[&CLAIM, &FIRST, &OUT_OF_TURN],
    ),
    (
        &[&STREAM, &ASK, &SUB_1_2],
        HelpStatus::BadFrame { offset: 57 },
        &[&CLAIM, &FIRST, &OUT_OF_TURN],
    ),
    // A farewell of queries before the stream has ended.
    (
        &[&[1, 0, 2, 1, 2], &BYE],
        HelpStatus::BadFrame { offset: 5 },
        &[&OUT_OF_TURN],
    ),
    // Where a moment is due that farewell is no frame, nor is a challenge behind the last reply.
    (&[&STREAM, &BYE], HelpStatus::BadFrame { offset: 52 }, &[]),
    (
        &[&STREAM, &ASK, &REVEAL, &REVEAL],
        HelpStatus::BadFrame { offset: 68 },
        &[&CLAIM, &FIRST, &SECOND],
    ),
    // Where none is due an Ask and an end are none: before the stream has ended, and inside a
    // moment.
    (
        &[&[1, 0, 2, 1, 2], &ASK],
        HelpStatus::BadFrame { offset: 5 },
        &[],
    ),
    (
        &[&STREAM, &ASK, &END],
        HelpStatus::BadFrame { offset: 57 },
        &[&CLAIM, &FIRST],
    ),
];

// The helper of moments.
struct Helper;

impl Server for Helper {
    type End = HelpStatus;

    fn serve(alloc: Global, link: &mut MemoryLink) -> HelpStatus {
        serve_moments(alloc, link)
    }
}

// Each talk, in pieces of one byte and in one piece.
fn are_served(rt: &impl Abort, alloc: Global, talks: &[Talk<'_, HelpStatus>]) {
    let unserved = first_unserved::<Helper>(alloc, talks).expect(rt, "memory");
    assert_eq!(rt; unserved, None);
}

#[test]
fn moments_are_served(rt: HostRuntime) {
    are_served(&rt, rt.alloc(), &SERVED);
}

#[test]
fn moments_are_out_of_turn(rt: HostRuntime) {
    are_served(&rt, rt.alloc(), &REFUSED);
}

#[test]
fn the_17th_moment_is_out_of_turn(rt: HostRuntime) {
    let alloc = rt.alloc();
    let mut talk = NOTHING.to_vec(alloc).expect(&rt, "memory");
    let mut want = Vec::new(alloc);
    for _ in 0..16 {
        talk.extend_from_slice(&ASK).expect(&rt, "memory");
        want.extend_from_slice(&ZERO).expect(&rt, "memory");
    }
    talk.extend_from_slice(&ASK).expect(&rt, "memory");
    want.extend_from_slice(&OUT_OF_TURN).expect(&rt, "memory");
    let status = HelpStatus::BadFrame { offset: 88 };
    for (row, chunk) in [1, 10_000].iter().enumerate() {
        let facts = is_served::<Helper>(alloc, &talk, *chunk, status, &want);
        expect(&rt, row, &facts.expect(&rt, "memory"));
    }
}

// Six frames are received, two calls each where there is a body, and three are sent: 13 calls in
// all.
#[test]
fn a_link_of_moments_fails_at_each_call(rt: HostRuntime) {
    let parts: [&[u8]; 4] = [&STREAM, &ASK, &REVEAL, &END];
    let sent: [&[u8]; 3] = [&CLAIM, &FIRST, &SECOND];
    let ends = (HelpStatus::PeerFault, HelpStatus::Served);
    let unserved = first_call_unserved::<Helper>(rt.alloc(), (&parts, &sent), 13, ends);
    assert_eq!(rt; unserved.expect(&rt, "memory"), None);
}

// The first challenge of 32 zero bytes.
const AT_SEED: [u8; 11] = [5, 0, 8, 0x12, 0x07, 0xbe, 0x34, 0x15, 0xbc, 0x17, 0x0e];

// Of a run for the third moment of side 0 over these replies: that it is accepted, reports it, and
// sends this.
fn is_asked(
    rt: &impl Abort,
    alloc: Global,
    replies: Vec<u8>,
    talk: &[u8],
) -> Result<[bool; 3], Fail> {
    let task = one(2, Side::First, 3)?;
    let lines = b"0 0 3\n0 2 5\n0 3 1\n".to_vec(alloc).expect(rt, "memory");
    let seed = vec![in alloc; 0; 32].expect(rt, "memory");
    let mut first = MemorySource::new(lines, 7, Vec::new(alloc));
    let mut second = MemorySource::new(seed, 7, Vec::new(alloc));
    let mut peer = MemoryLink::new(alloc, replies, 7, Vec::new(alloc));
    let mut report = MemorySink::new(alloc, 7, Vec::new(alloc));
    let status = moment_stream(
        alloc,
        &task,
        &mut first,
        &mut second,
        &mut peer,
        &mut report,
    );
    Ok([
        status == Status::Accepted,
        report.bytes() == b"moment:0:3 153\n".as_slice(),
        sent_in(alloc, peer.talk()).expect(rt, "memory").as_slice() == talk,
    ])
}

// What a verifier says is served, and what was served is accepted where it is said.
#[test]
fn both_ends_fit_together(rt: HostRuntime) -> Result<(), Fail> {
    let alloc = rt.alloc();
    let parts: [&[u8]; 4] = [&STREAM, &ASK, &AT_SEED, &END];
    let talk = parts.concat(alloc).expect(&rt, "memory");
    let (ended, sent) = served::<Helper>(alloc, &talk, 10_000, &[]).expect(&rt, "memory");
    expect(&rt, 0, &[ended == HelpStatus::Served]);
    expect(&rt, 1, &is_asked(&rt, alloc, sent, &talk)?);
    Ok(())
}
