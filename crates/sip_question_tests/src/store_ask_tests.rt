// Questions of every kind, asked of a helper with a store: it says what it heard, and its replies
// are judged.
ghost use Rattle.std.specs.Prelude.{◌≤◌, length};
ghost use Rattle.sip_wire.specs.Table.{most_queries};

use crate::asking::{Numbers, asked};
use crate::facts::expect;
use crate::kinds::{
    HEAVY, INDEX, Kind, MOMENT, PRED, SQUARE, SUB, SUCC, SUM_1_3, asked_by, numbers_of_four, wanted,
};
use crate::store_rows::{HELD_3, HELD_4, OPEN, RECALL_3, RECORDS};
use crate::store_tests::served;
use sip_check_tests::frames::{BYE, F2, INDEX_1, PRED_1, REVEAL, SUB_1_2, SUCC_1};
use sip_field::{Field, M61};
use sip_questions::{Question, StoreStatus};
use sip_stream::Form;
use sip_vector::{Depth, Query, Side};
use sip_verifier::Status;
use sip_wire::{Reason, Version};
use std::alloc::Global;
use std::process::Abort;
use std::test::Fail;

// ---- a sketch's seat, and the store behind it

const RECALL_4: [u8; 11] = [0x27, 0, 8, 0, 0, 0, 0, 0, 0, 0, 4];

// The first three records.
const THREE: [u8; 39] = [
    0, 0, 0, 0, 0, 0, 0, 0, 0, 0, 0, 0, 3, 0, 0, 0, 0, 2, 0, 0, 0, 0, 0, 0, 0, 5, 0, 0, 0, 0, 3, 0,
    0, 0, 0, 0, 0, 0, 1,
];

// The first challenge of each of two seats that the seed of zeros gives.
const FIRST_OF_1: [u8; 11] = [5, 0, 8, 0x12, 0x07, 0xbe, 0x34, 0x15, 0xbc, 0x17, 0x0e];

const FIRST_OF_2: [u8; 11] = [5, 0, 8, 0x03, 0x5d, 0xb1, 0xb4, 0x17, 0x03, 0x3a, 0x57];

// What a seat is, the store, what is said of it, and what is asked of it, part by part; how that
// ends, and the line.
struct Kept {
    block: [u64; 2],
    number: u64,
    store: &'static [u8],
    recall: &'static [u8],
    held: &'static [u8],
    query: Query,
    said: &'static [&'static [u8]],
    ended: Result<(), Status>,
    line: &'static [u8],
}

// The root of the first three records, and what is asked by it.
const ROOT: Kept = Kept {
    block: [0x1207_be34_15bc_170e, 0x0517_b0ca_7cad_4ba8],
    number: 0x0862_b3b8_b01c_7e21,
    store: &THREE,
    recall: &RECALL_3,
    held: &HELD_3,
    query: Query::Sub { lo: 1, hi: 2 },
    said: &[&SUB_1_2, &FIRST_OF_1, &BYE],
    ended: Ok(()),
    line: b"sub:1:2 2:5\n",
};

// The extension of all four.
const POINT: Kept = Kept {
    block: [0x035d_b1b4_1703_3a57, 0x18e1_aef1_799d_e6d5],
    number: 0x0945_99dd_cc3c_66cd,
    store: &RECORDS,
    recall: &RECALL_4,
    held: &HELD_4,
    query: Query::F2 { side: Side::First },
    said: &[&F2, &FIRST_OF_2, &BYE],
    ended: Ok(()),
    line: b"f2:0 39\n",
};

const SKETCHES: [Kept; 4] = [
    ROOT,
    // The store has grown since.
    Kept {
        store: &RECORDS,
        ..ROOT
    },
    POINT,
    // It has fewer records than are asked for, and says so. Who asks it all the same is told of
    // another stream, and finds that out.
    Kept {
        store: &THREE,
        held: &HELD_3,
        said: &[&F2, &FIRST_OF_2],
        ended: Err(Status::Rejected {
            query: 1,
            round: 2,
            reason: Reason::Root,
        }),
        line: b"rejected query 1 round 2 Root\n",
        ..POINT
    },
];

// What the helper sends behind what it holds.
fn behind(alloc: Global, sent: &[u8], held: &[u8]) -> Result<Vec<u8>, Fail> {
    match sent.get(held.len()..) {
        Some(replies) => Ok(replies.to_vec(alloc)?),
        None => Err("what is held")?,
    }
}

fn check_kept(rt: &impl Abort, alloc: Global, kept: &Kept, chunk: usize) -> Result<(), Fail>
    requires { 1 ≤ chunk }
{
    let said = kept.said.concat(alloc)?;
    let mut talk = [OPEN.as_slice(), kept.recall].concat(alloc)?;
    talk.extend_from_slice(&said)?;
    if kept.ended.is_err() {
        talk.extend_from_slice(&BYE)?;
    }
    let (end, sent) = served(alloc, (Form::Binary, kept.store, &talk), chunk, (&[], &[]))?;
    let replies = behind(alloc, &sent, kept.held)?;
    let number = M61::of(kept.number);
    let numbers = Numbers {
        root: number,
        extension: number,
        ..numbers_of_four()
    };
    let block = [M61::of(kept.block[0]), M61::of(kept.block[1])];
    let depth = Depth::new(2).unwrap();
    let questions = [Question::Query(kept.query)];
    let came = asked(
        alloc,
        Version::One,
        depth,
        &block,
        &numbers,
        &questions,
        replies,
        chunk,
    )?;
    let facts = [
        end == StoreStatus::Served,
        sent.starts_with(kept.held),
        came.ended == kept.ended,
        came.sent == said,
        came.lines.as_slice() == kept.line,
    ];
    expect(rt, "a seat", &facts);
    Ok(())
}

#[test]
fn a_seat_of_a_sketch_is_asked_of_a_store(rt: HostRuntime) -> Result<(), Fail> {
    for kept in &SKETCHES {
        check_kept(&rt, rt.alloc(), kept, 1)?;
        check_kept(&rt, rt.alloc(), kept, 10_000)?;
    }
    Ok(())
}

// ---- every kind behind each other

// The vectors (3, 0, 5, 1) and (2, 7, 1, 0), in a store with a record more.
const LINES: &[u8] = b"0 0 3\n0 2 5\n0 3 1\n1 0 2\n1 1 7\n1 2 1\n0 1 2\n";

const OPEN_WIDE: [u8; 5] = [1, 0, 2, 2, 2];

const RECALL_6: [u8; 11] = [0x27, 0, 8, 0, 0, 0, 0, 0, 0, 0, 6];

const HELD_6: [u8; 35] = [
    0x26, 0, 0x20, 0, 0, 0, 0, 0, 0, 0, 6, 0, 0, 0, 0, 0, 0, 0, 9, 0, 0, 0, 0, 0, 0, 0, 0x0a, 0x0f,
    0xdc, 0xbd, 0xaf, 0x2f, 0x65, 0xa3, 0x15,
];

// What is asked of these at the challenges 2 and 10 in version 2, part by part.
const WIDE_SUB_1_2: [u8; 20] = [4, 0, 17, 1, 0, 0, 0, 0, 0, 0, 0, 1, 0, 0, 0, 0, 0, 0, 0, 2];

const WIDE_SUB_1_1: [u8; 20] = [4, 0, 17, 1, 0, 0, 0, 0, 0, 0, 0, 1, 0, 0, 0, 0, 0, 0, 0, 1];

const WIDE_SUB_0_1: [u8; 20] = [4, 0, 17, 1, 0, 0, 0, 0, 0, 0, 0, 0, 0, 0, 0, 0, 0, 0, 0, 1];

const WIDE_RANGE_1_3: [u8; 21] = [
    4, 0, 18, 2, 0, 0, 0, 0, 0, 0, 0, 0, 1, 0, 0, 0, 0, 0, 0, 0, 3,
];

const INNER: [u8; 4] = [4, 0, 1, 4];

const SHARE_1_2: [u8; 13] = [4, 0, 10, 6, 0, 0, 0, 0, 1, 0, 0, 0, 2];

const WIDE_KINDS: [Kind; 10] = [
    Kind {
        said: &[&WIDE_SUB_1_2, &REVEAL],
        ..SUB
    },
    Kind {
        said: &[&SUCC_1, &WIDE_SUB_1_2, &REVEAL],
        ..SUCC
    },
    MOMENT,
    SQUARE,
    Kind {
        said: &[&INDEX_1, &WIDE_SUB_1_1, &REVEAL],
        ..INDEX
    },
    HEAVY,
    Kind {
        said: &[&PRED_1, &WIDE_SUB_0_1, &REVEAL],
        ..PRED
    },
    Kind {
        said: &[&WIDE_RANGE_1_3, &REVEAL],
        ..SUM_1_3
    },
    Kind {
        question: Question::Query(Query::Inner),
        said: &[&INNER, &REVEAL],
        line: b"inner 11\n",
    },
    Kind {
        question: Question::Query(Query::Share {
            side: Side::First,
            num: 1,
            den: 2,
        }),
        said: &[&SHARE_1_2, &REVEAL],
        line: b"share:0:1:2 2:5\n",
    },
];

// The helper says what it holds of the records that are asked for, hears what is asked, and its
// replies are accepted, in pieces of that size.
fn check_talk(
    rt: &impl Abort,
    alloc: Global,
    questions: &[Question],
    kinds: &[&Kind],
    chunk: usize,
) -> Result<(), Fail>
    requires few { length questions.now ≤ most_queries }
    requires chunk { 1 ≤ chunk }
{
    let (said, lines) = wanted(alloc, kinds)?;
    let mut talk = [OPEN_WIDE.as_slice(), &RECALL_6].concat(alloc)?;
    talk.extend_from_slice(&said)?;
    let (end, sent) = served(alloc, (Form::Text, LINES, &talk), chunk, (&[], &[]))?;
    let replies = behind(alloc, &sent, &HELD_6)?;
    let numbers = Numbers {
        second: M61::of_signed(-118),
        ..numbers_of_four()
    };
    let came = asked_by(alloc, Version::Two, &numbers, questions, replies, chunk)?;
    let facts = [
        end == StoreStatus::Served,
        sent.starts_with(&HELD_6),
        came.ended == Ok(()),
        came.sent == said,
        came.lines == lines,
    ];
    expect(rt, "kinds in one talk", &facts);
    Ok(())
}

// Two of the kinds, and each third one behind them.
fn check_behind(rt: &impl Abort, alloc: Global, one: &Kind, two: &Kind) -> Result<(), Fail> {
    check_talk(
        rt,
        alloc,
        &[one.question, two.question],
        &[one, two],
        10_000,
    )?;
    for three in &WIDE_KINDS {
        let questions = [one.question, two.question, three.question];
        check_talk(rt, alloc, &questions, &[one, two, three], 10_000)?;
    }
    Ok(())
}

#[test]
fn each_kind_is_asked_of_a_store_behind_each_other(rt: HostRuntime) -> Result<(), Fail> {
    for one in &WIDE_KINDS {
        for two in &WIDE_KINDS {
            check_behind(&rt, rt.alloc(), one, two)?;
        }
    }
    Ok(())
}

#[test]
fn every_kind_is_asked_of_a_store_in_pieces(rt: HostRuntime) -> Result<(), Fail> {
    let [a, b, c, d, e, f, g, h, i, j] = &WIDE_KINDS;
    let questions = [
        a.question, b.question, c.question, d.question, e.question, f.question, g.question,
        h.question, i.question, j.question, a.question, b.question, c.question, d.question,
        e.question, f.question,
    ];
    let kinds = [a, b, c, d, e, f, g, h, i, j, a, b, c, d, e, f];
    for chunk in [1, 2, 7, 10_000] {
        check_talk(&rt, rt.alloc(), &questions, &kinds, chunk)?;
    }
    Ok(())
}
