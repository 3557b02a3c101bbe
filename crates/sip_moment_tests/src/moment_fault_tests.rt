//! Replies to a question for a moment that are not accepted, byte by byte and all at once.
ghost use Rattle.std.specs.Prelude.{◌≤◌};

use crate::moment_runs::{END, Talk, check, one};
use sip_ports::TalkEvent;
use sip_vector::Side;
use sip_verifier::Status;
use sip_wire::Reason;
use std::alloc::Global;
use std::process::Abort;
use std::test::Fail;

// The vector (3, 0, 5, 1), and what is sent of it.
const FOUR: &[u8] = b"0 0 3\n0 2 5\n0 3 1\n";

const FOUR_SENT: [u8; 52] = [
    1, 0, 2, 1, 2, 2, 0, 41, 0, 3, 0, 0, 0, 0, 0, 0, 0, 0, 0, 0, 0, 0, 3, 0, 0, 0, 0, 2, 0, 0, 0,
    0, 0, 0, 0, 5, 0, 0, 0, 0, 3, 0, 0, 0, 0, 0, 0, 0, 1, 3, 0, 0,
];

const ASK: [u8; 5] = [0x24, 0, 2, 0, 3];

const CLAIM: [u8; 11] = [0x11, 0, 8, 0, 0, 0, 0, 0, 0, 0, 153];

const FALSE_CLAIM: [u8; 11] = [17, 0, 8, 0, 0, 0, 0, 0, 0, 0, 0x9a];

// 2^60.
const HIGH_CLAIM: [u8; 11] = [17, 0, 8, 16, 0, 0, 0, 0, 0, 0, 0];

const FIRST: [u8; 35] = [
    37, 0, 32, 0, 0, 0, 0, 0, 0, 0, 0x98, 31, 0xff, 0xff, 0xff, 0xff, 0xff, 0xfe, 0x82, 0, 0, 0, 0,
    0, 0, 1, 65, 31, 0xff, 0xff, 0xff, 0xff, 0xff, 0xff, 0xa4,
];

const REVEAL: [u8; 11] = [5, 0, 8, 18, 7, 0xbe, 52, 21, 0xbc, 23, 14];

const SECOND: [u8; 35] = [
    37, 0, 32, 28, 60, 56, 17, 0x81, 0xc8, 0x8e, 80, 24, 126, 56, 11, 0x83, 113, 85, 0xce, 4, 0xa5,
    13, 0x82, 104, 0xc1, 58, 74, 16, 119, 19, 80, 0xc3, 0xc9, 119, 119,
];

// It adds up to the same, but has another value at the last challenge.
const FALSE_SECOND: [u8; 35] = [
    37, 0, 32, 28, 60, 56, 17, 0x81, 0xc8, 0x8e, 79, 24, 126, 56, 11, 0x83, 113, 85, 0xd0, 4, 0xa5,
    13, 0x82, 104, 0xc1, 58, 74, 16, 119, 19, 80, 0xc3, 0xc9, 119, 119,
];

// The last coefficient is the modulus.
const LARGE: [u8; 35] = [
    37, 0, 32, 0, 0, 0, 0, 0, 0, 0, 0x98, 31, 0xff, 0xff, 0xff, 0xff, 0xff, 0xfe, 0x82, 0, 0, 0, 0,
    0, 0, 1, 65, 31, 0xff, 0xff, 0xff, 0xff, 0xff, 0xff, 0xff,
];

// What was said and heard behind the question before a reply with a fault comes.
#[derive(Clone, Copy)]
enum Before {
    Nothing,
    FalseClaim,
    Claim,
    Reveal,
}

impl Before {
    fn put(self, rt: &impl Abort, talk: &mut Talk) {
        match self {
            Before::Nothing => {}
            Before::FalseClaim => talk.hear(rt, &FALSE_CLAIM),
            Before::Claim => talk.hear(rt, &CLAIM),
            Before::Reveal => {
                talk.hear(rt, &CLAIM);
                talk.hear(rt, &FIRST);
                talk.say(rt, &REVEAL);
            }
        }
    }
}

// What came before, the last bytes that are heard, whether the link's end was found behind them,
// the round and the reason.
type Row<'a> = (Before, &'a [u8], bool, u8, Reason);

const OF_CLAIMS: [Row<'static>; 4] = [
    (Before::Nothing, &[], true, 0, Reason::Closed),
    (Before::FalseClaim, &FIRST, false, 0, Reason::Sum),
    (Before::Nothing, &HIGH_CLAIM, false, 0, Reason::BadNumber),
    // A power where a claim is due.
    (Before::Nothing, &[0x25, 0, 32], false, 0, Reason::BadKind),
];

const OF_FIRST: [Row<'static>; 9] = [
    // A claim, a polynomial of a sum or an End where a power is due.
    (Before::Claim, &[0x11, 0, 8], false, 0, Reason::BadKind),
    (Before::Claim, &[0x12, 0, 24], false, 0, Reason::BadKind),
    (Before::Claim, &END, false, 0, Reason::BadKind),
    // Powers of degree 2 and 4, and of a part of a coefficient.
    (Before::Claim, &[0x25, 0, 24], false, 0, Reason::BadLength),
    (Before::Claim, &[0x25, 0, 40], false, 0, Reason::BadLength),
    (Before::Claim, &[0x25, 1, 33], false, 0, Reason::BadLength),
    (Before::Claim, &LARGE, false, 0, Reason::BadNumber),
    (
        Before::Claim,
        &[0x18, 0, 1, 1],
        false,
        0,
        Reason::Refused(1),
    ),
    (Before::Claim, &[0x25, 0, 32, 0, 0], true, 0, Reason::Closed),
];

const OF_SECOND: [Row<'static>; 7] = [
    // A power of an earlier round where the next is due.
    (Before::Reveal, &FIRST, false, 1, Reason::Sum),
    (Before::Reveal, &[], true, 1, Reason::Closed),
    // Where that power is due, a claim, a power of degree 4, one that is cut, and a refusal.
    (Before::Reveal, &[0x11, 0, 8], false, 1, Reason::BadKind),
    (Before::Reveal, &[0x25, 0, 40], false, 1, Reason::BadLength),
    (
        Before::Reveal,
        &[0x25, 0, 32, 28, 60, 56, 17],
        true,
        1,
        Reason::Closed,
    ),
    (
        Before::Reveal,
        &[0x18, 0, 1, 1],
        false,
        1,
        Reason::Refused(1),
    ),
    // One that fails the last test.
    (Before::Reveal, &FALSE_SECOND, false, 2, Reason::Root),
];

// How the line of a rejection ends.
fn name_of(reason: Reason) -> &'static [u8] {
    match reason {
        Reason::Closed => b"Closed\n",
        Reason::Sum => b"Sum\n",
        Reason::BadNumber => b"BadNumber\n",
        Reason::BadKind => b"BadKind\n",
        Reason::BadLength => b"BadLength\n",
        Reason::Refused(1) => b"Refused(1)\n",
        Reason::Root => b"Root\n",
        _ => b"another reason\n",
    }
}

// The line of a rejection in a round below 10.
fn line_of(rt: &impl Abort, alloc: Global, round: u8, reason: Reason) -> Vec<u8> {
    let round = [b'0'.wrapping_add(round)];
    let parts = [
        b"rejected query 1 round ".as_slice(),
        &round,
        b" ",
        name_of(reason),
    ];
    parts.concat(alloc).expect(rt, "memory")
}

// All that is said where a row's last bytes come.
fn talk_of(rt: &impl Abort, alloc: Global, row: &Row) -> Talk {
    let (before, last, is_ended, _, _) = row;
    let mut talk = Talk::new(alloc);
    talk.say(rt, &FOUR_SENT);
    talk.say(rt, &ASK);
    before.put(rt, &mut talk);
    talk.hear(rt, last);
    if *is_ended {
        talk.events.push(TalkEvent::Ended).expect(rt, "memory");
    }
    talk
}

fn check_row(rt: &impl Abort, alloc: Global, row: &Row, chunk: usize) -> Result<(), Fail>
    requires { 1 ≤ chunk }
{
    let task = one(2, Side::First, 3)?;
    let (round, reason) = (row.3, row.4);
    let talk = talk_of(rt, alloc, row);
    let line = line_of(rt, alloc, round, reason);
    let want = Status::Rejected {
        query: 1,
        round,
        reason,
    };
    let name = "a rejection";
    check(rt, alloc, name, &task, FOUR, chunk, &talk, want, &line);
    Ok(())
}

fn check_rows(rt: &impl Abort, alloc: Global, rows: &[Row]) -> Result<(), Fail> {
    for row in rows {
        check_row(rt, alloc, row, 1)?;
        check_row(rt, alloc, row, 10_000)?;
    }
    Ok(())
}

#[test]
fn hostile_claims_are_rejected(rt: HostRuntime) -> Result<(), Fail> {
    check_rows(&rt, rt.alloc(), &OF_CLAIMS)
}

#[test]
fn hostile_first_replies_are_rejected(rt: HostRuntime) -> Result<(), Fail> {
    check_rows(&rt, rt.alloc(), &OF_FIRST)
}

#[test]
fn hostile_later_replies_are_rejected(rt: HostRuntime) -> Result<(), Fail> {
    check_rows(&rt, rt.alloc(), &OF_SECOND)
}

#[test]
fn a_cube_is_accepted(rt: HostRuntime) -> Result<(), Fail> {
    let alloc = rt.alloc();
    let task = one(2, Side::First, 3)?;
    let mut talk = Talk::new(alloc);
    talk.say(&rt, &FOUR_SENT);
    talk.say(&rt, &ASK);
    talk.hear(&rt, &CLAIM);
    talk.hear(&rt, &FIRST);
    talk.say(&rt, &REVEAL);
    talk.hear(&rt, &SECOND);
    talk.say(&rt, &END);
    let want = Status::Accepted;
    let line = b"moment:0:3 153\n";
    check(&rt, alloc, "four", &task, FOUR, 5, &talk, want, line);
    Ok(())
}
