// Replies that are not accepted: what they are made of, and how a question is rejected for them,
// alone and behind another one.
ghost use Rattle.std.specs.Prelude.{◌≤◌, length};
ghost use Rattle.sip_wire.specs.Table.{most_queries};
ghost use Rattle.sip_wire.specs.Versions.{deepest};

use crate::asking::Numbers;
use crate::facts::expect;
use crate::kinds::{Kind, MOMENT, asked_by, numbers_of_four};
use sip_check_tests::frames::{CUBES, LAST, REVEAL, SUM};
use sip_questions::Question;
use sip_verifier::Status;
use sip_wire::{Reason, Version};
use std::alloc::Global;
use std::process::Abort;
use std::test::Fail;

// Claims of sums, alone and with the polynomial of another one, and one that has no room.
pub(crate) const CLAIM: [u8; 11] = [0x11, 0, 8, 0, 0, 0, 0, 0, 0, 0, 0x23];

pub(crate) const CLAIM_153: [u8; 11] = [0x11, 0, 8, 0, 0, 0, 0, 0, 0, 0, 0x99];

pub(crate) const CLAIM_36: [u8; 38] = [
    0x11, 0, 8, 0, 0, 0, 0, 0, 0, 0, 0x24, 0x12, 0, 0x18, 0, 0, 0, 0, 0, 0, 0, 0x22, 0x1f, 0xff,
    0xff, 0xff, 0xff, 0xff, 0xff, 0xc5, 0, 0, 0, 0, 0, 0, 0, 0x19,
];

pub(crate) const CLAIM_154: [u8; 46] = [
    0x11, 0, 8, 0, 0, 0, 0, 0, 0, 0, 0x9a, 0x25, 0, 0x20, 0, 0, 0, 0, 0, 0, 0, 0x98, 0x1f, 0xff,
    0xff, 0xff, 0xff, 0xff, 0xfe, 0x82, 0, 0, 0, 0, 0, 0, 1, 0x41, 0x1f, 0xff, 0xff, 0xff, 0xff,
    0xff, 0xff, 0xa4,
];

pub(crate) const HIGH_CLAIM: [u8; 11] = [0x11, 0, 8, 0x10, 0, 0, 0, 0, 0, 0, 0];

// Polynomials alone: of a sum, of a moment, and of a moment of degree 2.
pub(crate) const POLY: [u8; 27] = [
    0x12, 0, 0x18, 0, 0, 0, 0, 0, 0, 0, 0x22, 0x1f, 0xff, 0xff, 0xff, 0xff, 0xff, 0xff, 0xc5, 0, 0,
    0, 0, 0, 0, 0, 0x19,
];

pub(crate) const POWER: [u8; 35] = [
    0x25, 0, 0x20, 0, 0, 0, 0, 0, 0, 0, 0x98, 0x1f, 0xff, 0xff, 0xff, 0xff, 0xff, 0xfe, 0x82, 0, 0,
    0, 0, 0, 0, 1, 0x41, 0x1f, 0xff, 0xff, 0xff, 0xff, 0xff, 0xff, 0xa4,
];

pub(crate) const SHORT_POWER: [u8; 3] = [0x25, 0, 0x18];

// How the frame begins that says what was heard, and the end of a level.
pub(crate) const HELD: [u8; 3] = [0x26, 0, 0x20];

pub(crate) const LEVEL_END: [u8; 3] = [0x17, 0, 0];

// A refusal.
pub(crate) const REFUSE: [u8; 4] = [0x18, 0, 1, 1];

// Entries: of 13 bytes, one as two, of 0, outside of 1 to 2, without siblings, and another one.
pub(crate) const SHORT_ENTRIES: [u8; 3] = [0x13, 0, 0xd];

pub(crate) const ONE_AS_TWO: [u8; 17] = [0x13, 0, 0xe, 0, 2, 0, 0, 0, 2, 0, 0, 0, 0, 0, 0, 0, 5];

pub(crate) const ENTRY_OF_0: [u8; 17] = [0x13, 0, 0xe, 0, 1, 0, 0, 0, 2, 0, 0, 0, 0, 0, 0, 0, 0];

pub(crate) const ENTRY_3: [u8; 17] = [0x13, 0, 0xe, 0, 1, 0, 0, 0, 3, 0, 0, 0, 0, 0, 0, 0, 1];

pub(crate) const ENTRY_UNFLAGGED: [u8; 21] = [
    0x13, 0, 0xe, 0, 1, 0, 0, 0, 2, 0, 0, 0, 0, 0, 0, 0, 5, 0x14, 0, 1, 0,
];

pub(crate) const ENTRY_OF_6: [u8; 37] = [
    0x13, 0, 0xe, 0, 1, 0, 0, 0, 2, 0, 0, 0, 0, 0, 0, 0, 6, 0x14, 0, 0x11, 3, 0, 0, 0, 0, 0, 0, 0,
    3, 0, 0, 0, 0, 0, 0, 0, 1,
];

// A last polynomial of the same sum, 8 + 2x.
pub(crate) const NINE_AND_MORE: [u8; 27] = [
    0x12, 0, 0x18, 0, 0, 0, 0, 0, 0, 0, 8, 0, 0, 0, 0, 0, 0, 0, 2, 0, 0, 0, 0, 0, 0, 0, 0,
];

// Leaves: one of two that belong together, falling ones, and of 10 together.
pub(crate) const LEAF_2: [u8; 20] = [
    0x15, 0, 0xe, 0, 1, 0, 0, 0, 2, 0, 0, 0, 0, 0, 0, 0, 5, 0x17, 0, 0,
];

pub(crate) const LEAVES_3_2: [u8; 29] = [
    0x15, 0, 0x1a, 0, 2, 0, 0, 0, 3, 0, 0, 0, 0, 0, 0, 0, 1, 0, 0, 0, 2, 0, 0, 0, 0, 0, 0, 0, 5,
];

pub(crate) const LEAVES_OF_10: [u8; 32] = [
    0x15, 0, 0x1a, 0, 2, 0, 0, 0, 2, 0, 0, 0, 0, 0, 0, 0, 5, 0, 0, 0, 3, 0, 0, 0, 0, 0, 0, 0, 5,
    0x17, 0, 0,
];

// Nodes beside them: of 4, of 2, and of another hash.
pub(crate) const NODE_OF_4: [u8; 25] = [
    0x16, 0, 0x16, 0, 1, 0, 0, 0, 0, 0, 0, 0, 0, 0, 0, 0, 9, 0, 0, 0, 0, 0, 0, 0, 4,
];

pub(crate) const NODE_OF_2: [u8; 28] = [
    0x16, 0, 0x16, 0, 1, 0, 0, 0, 0, 0, 0, 0, 0, 0, 0, 0, 9, 0, 0, 0, 0, 0, 0, 0, 2, 0x17, 0, 0,
];

pub(crate) const NODE_OF_10: [u8; 28] = [
    0x16, 0, 0x16, 0, 1, 0, 0, 0, 0, 0, 0, 0, 0, 0, 0, 0, 0xa, 0, 0, 0, 0, 0, 0, 0, 3, 0x17, 0, 0,
];

// Places: others than that of the nearest entry, none, one of 8 bytes, and one with a flag of 2.
pub(crate) const FOUND_0: [u8; 12] = [0x22, 0, 9, 1, 0, 0, 0, 0, 0, 0, 0, 0];

pub(crate) const FOUND_3: [u8; 12] = [0x22, 0, 9, 1, 0, 0, 0, 0, 0, 0, 0, 3];

pub(crate) const FOUND_4: [u8; 12] = [0x22, 0, 9, 1, 0, 0, 0, 0, 0, 0, 0, 4];

pub(crate) const FOUND_NONE: [u8; 12] = [0x22, 0, 9, 0, 0, 0, 0, 0, 0, 0, 0, 0];

pub(crate) const SHORT_FOUND: [u8; 3] = [0x22, 0, 8];

pub(crate) const FLAG_2: [u8; 12] = [0x22, 0, 9, 2, 0, 0, 0, 0, 0, 0, 0, 1];

// The entries 2 and 3, with the sibling of the first.
pub(crate) const ENTRIES_2_3: [u8; 41] = [
    0x13, 0, 0x1a, 0, 2, 0, 0, 0, 2, 0, 0, 0, 0, 0, 0, 0, 5, 0, 0, 0, 3, 0, 0, 0, 0, 0, 0, 0, 1,
    0x14, 0, 9, 1, 0, 0, 0, 0, 0, 0, 0, 3,
];

// A last power of the same sum, -28 + 2x.
pub(crate) const LAST_AND_MORE: [u8; 35] = [
    0x25, 0, 0x20, 0x1f, 0xff, 0xff, 0xff, 0xff, 0xff, 0xff, 0xe3, 0, 0, 0, 0, 0, 0, 0, 2, 0, 0, 0,
    0, 0, 0, 0, 0, 0, 0, 0, 0, 0, 0, 0, 0,
];

// What replies are, the replies, how many parts of what is said of the question go out, and the
// round and the reason of the rejection.
pub(crate) type Hostile = (&'static str, &'static [&'static [u8]], usize, u8, Reason);

// How the line of a rejection ends.
fn name_of(reason: Reason) -> &'static [u8] {
    match reason {
        Reason::Closed => b"Closed\n",
        Reason::BadKind => b"BadKind\n",
        Reason::BadLength => b"BadLength\n",
        Reason::BadCount => b"BadCount\n",
        Reason::BadNumber => b"BadNumber\n",
        Reason::Refused(1) => b"Refused(1)\n",
        Reason::BadFound => b"BadFound\n",
        Reason::BadOrder => b"BadOrder\n",
        Reason::BadFlags => b"BadFlags\n",
        Reason::HeavySibling => b"HeavySibling\n",
        Reason::Pairs => b"Pairs\n",
        Reason::LightParent => b"LightParent\n",
        Reason::Sum => b"Sum\n",
        Reason::Total => b"Total\n",
        Reason::Root => b"Root\n",
        Reason::NotAlone => b"NotAlone\n",
        _ => b"another reason\n",
    }
}

// The line of a rejection, of a query and a round below 10.
fn line_of(alloc: Global, query: u8, round: u8, reason: Reason) -> Result<Vec<u8>, Fail> {
    let (query, round) = ([b'0'.wrapping_add(query)], [b'0'.wrapping_add(round)]);
    let parts = [
        b"rejected query ".as_slice(),
        &query,
        b" round ",
        &round,
        b" ",
        name_of(reason),
    ];
    Ok(parts.concat(alloc)?)
}

// What was said, what was replied, and the lines, of the questions before.
struct Before {
    count: u8,
    said: &'static [&'static [u8]],
    replies: &'static [&'static [u8]],
    line: &'static [u8],
}

const NOTHING: Before = Before {
    count: 0,
    said: &[],
    replies: &[],
    line: b"",
};

const A_MOMENT: Before = Before {
    count: 1,
    said: &[&CUBES, &REVEAL],
    replies: &[&SUM, &LAST],
    line: b"moment:0:3 153\n",
};

// The last one of these questions is rejected, and those before are answered.
fn check_row(
    rt: &impl Abort,
    alloc: Global,
    by: (Version, &Numbers),
    questions: &[Question],
    before: &Before,
    kind: &Kind,
    row: &Hostile,
) -> Result<(), Fail>
    requires shallow { 2 ≤ deepest by.0 }
    requires few { length questions.now ≤ most_queries }
{
    let (name, replies, turns, round, reason) = row;
    let query = before.count.wrapping_add(1);
    let mut incoming = before.replies.concat(alloc)?;
    incoming.extend_from_slice(&replies.concat(alloc)?)?;
    let mut said = before.said.concat(alloc)?;
    for part in kind.said.iter().take(*turns) {
        said.extend_from_slice(part)?;
    }
    let mut lines = before.line.to_vec(alloc)?;
    lines.extend_from_slice(&line_of(alloc, query, *round, *reason)?)?;
    let end = Status::Rejected {
        query,
        round: *round,
        reason: *reason,
    };
    let came = asked_by(alloc, by.0, by.1, questions, incoming, 7)?;
    let facts = [
        came.ended == Err(end),
        came.sent == said,
        came.lines == lines,
    ];
    expect(rt, name, &facts);
    Ok(())
}

// Each of these replies is rejected, to the first question of a talk and to the second, in this
// version and by these numbers.
pub(crate) fn check_hostile_of(
    rt: &impl Abort,
    alloc: Global,
    by: (Version, &Numbers),
    kind: &Kind,
    rows: &[Hostile],
) -> Result<(), Fail>
    requires { 2 ≤ deepest by.0 }
{
    let question = kind.question;
    for row in rows {
        check_row(rt, alloc, by, &[question], &NOTHING, kind, row)?;
        check_row(
            rt,
            alloc,
            by,
            &[MOMENT.question, question],
            &A_MOMENT,
            kind,
            row,
        )?;
    }
    Ok(())
}

// Each of these, in version 1, by the numbers of the vector of four.
pub(crate) fn check_hostile(
    rt: &impl Abort,
    alloc: Global,
    kind: &Kind,
    rows: &[Hostile],
) -> Result<(), Fail> {
    let by = (Version::One, &numbers_of_four());
    check_hostile_of(rt, alloc, by, kind, rows)
}
