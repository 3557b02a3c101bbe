// Sixteen questions of the widest answers at the greatest depth, one behind another, asked of a
// helper with a store.

use crate::asking::{Numbers, asked};
use crate::facts::expect;
use crate::store_tests::served;
use sip_field::{Field, M61};
use sip_questions::{Question, StoreStatus};
use sip_stream::Form;
use sip_vector::{Depth, Query, Side};
use sip_wire::Version;
use std::alloc::Global;
use std::process::Abort;
use std::test::Fail;

// The most entries that an answer may have: items from 0 on, with the number 1 each.
const MOST: u64 = 65_536;

// The whole interval of depth 48.
const LAST: u64 = (1 << 48) - 1;

// Version 2 at depth 48, and that many records.
const OPENING: [u8; 16] = [1, 0, 2, 2, 48, 0x27, 0, 8, 0, 0, 0, 0, 0, 1, 0, 0];

// How what is held begins: the records, and the weights of both sides. The fingerprint is not
// looked at here.
const HELD: [u8; 27] = [
    0x26, 0, 0x20, 0, 0, 0, 0, 0, 1, 0, 0, 0, 0, 0, 0, 0, 1, 0, 0, 0, 0, 0, 0, 0, 0, 0, 0,
];

const HELD_LENGTH: usize = 35;

const SUB: [u8; 20] = [
    4, 0, 17, 1, 0, 0, 0, 0, 0, 0, 0, 0, 0, 0, 0xff, 0xff, 0xff, 0xff, 0xff, 0xff,
];

const HEAVY: [u8; 13] = [4, 0, 10, 5, 0, 0, 0, 0, 0, 0, 0, 0, 1];

const BYE: [u8; 3] = [6, 0, 0];

// What is asked, and the word of its line.
const ENTRIES: Question = Question::Query(Query::Sub { lo: 0, hi: LAST });

const LARGE: Question = Question::Query(Query::Heavy {
    side: Side::First,
    at_least: 1,
});

const QUESTIONS: [Question; 16] = [
    ENTRIES, LARGE, ENTRIES, LARGE, ENTRIES, LARGE, ENTRIES, LARGE, LARGE, ENTRIES, LARGE, ENTRIES,
    LARGE, ENTRIES, LARGE, ENTRIES,
];

// The challenges 1 to 48. There the root is the product of 1 + r of the lowest 16 of them, since
// an item has no bit above those: 17! is that. An augmented root adds up what 1 is multiplied by at
// each item; at j of the lowest levels the sum of these is (1 + r^2) times the sum of the level
// below and 2^(j-1) r, and each level above adds 65,536 r.
fn challenges() -> [M61; 48] {
    let mut block = [M61::of(0); 48];
    let mut challenge = M61::of(0);
    for place in &mut block {
        challenge = challenge.plus(M61::of(1));
        *place = challenge;
    }
    block
}

fn numbers_of_most() -> Numbers {
    Numbers {
        root: M61::of(355_687_428_096_000),
        extension: M61::of(0),
        hash: M61::of(1_796_212_749_248_619_248),
        total: 65_536,
        second: M61::of(0),
    }
}

// The store, in wide records.
fn store(alloc: Global) -> Result<Vec<u8>, Fail> {
    let mut records = Vec::new(alloc);
    for item in 0..MOST {
        records.push(0)?;
        records.extend_from_slice(&item.to_be_bytes())?;
        records.extend_from_slice(&1_i64.to_be_bytes())?;
    }
    Ok(records)
}

// What is said of all questions: each, and all challenges but the last.
fn said(alloc: Global, block: &[M61]) -> Result<Vec<u8>, Fail> {
    let mut said = Vec::new(alloc);
    for question in &QUESTIONS {
        if *question == ENTRIES {
            said.extend_from_slice(&SUB)?;
        } else {
            said.extend_from_slice(&HEAVY)?;
        }
        for challenge in block.iter().take(47) {
            said.extend_from_slice(&[5, 0, 8])?;
            said.extend_from_slice(&challenge.number().to_be_bytes())?;
        }
    }
    said.extend_from_slice(&BYE)?;
    Ok(said)
}

// All pairs, as they stand in a line.
fn pairs(alloc: Global) -> Result<String, Fail> {
    let mut pairs = String::new(alloc);
    for item in 0..MOST {
        pairs.push_str(&format!(in alloc; " {item}:1")?)?;
    }
    pairs.push('\n')?;
    Ok(pairs)
}

// The lines of all questions.
fn lines(alloc: Global) -> Result<String, Fail> {
    let pairs = pairs(alloc)?;
    let mut lines = String::new(alloc);
    for question in &QUESTIONS {
        if *question == ENTRIES {
            lines.push_str(&format!(in alloc; "sub:0:{LAST}")?)?;
        } else {
            lines.push_str("heavy:0:1")?;
        }
        lines.push_str(&pairs)?;
    }
    Ok(lines)
}

#[test]
fn sixteen_questions_of_the_widest_answers(rt: HostRuntime) -> Result<(), Fail> {
    let alloc = rt.alloc();
    let (block, store) = (challenges(), store(alloc)?);
    let said = said(alloc, &block)?;
    let talk = [OPENING.as_slice(), &said].concat(alloc)?;
    let (end, sent) = served(alloc, (Form::Wide, &store, &talk), 10_000, (&[], &[]))?;
    let Some(replies) = sent.get(HELD_LENGTH..) else {
        return Err("what is held")?;
    };
    let came = asked(
        alloc,
        Version::Two,
        Depth::new(48).unwrap(),
        &block,
        &numbers_of_most(),
        &QUESTIONS,
        replies.to_vec(alloc)?,
        10_000,
    )?;
    let lines = lines(alloc)?;
    let facts = [
        end == StoreStatus::Served,
        sent.starts_with(&HELD),
        came.ended == Ok(()),
        came.sent == said,
        came.lines.as_slice() == lines.as_bytes(),
    ];
    expect(&rt, "the widest answers", &facts);
    Ok(())
}
