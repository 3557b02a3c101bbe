// A question of each kind, asked of runs of `serve` by what is kept of a stream at the challenges 2
// and 10: the run says what it heard of its store, and its replies are judged.
ghost use Rattle.std.specs.Prelude.{◌≤◌};

use crate::duel::sent;
use sip_command_tests::case::Case;
use sip_command_tests::frames::*;
use sip_command_tests::row::{RunInput, Shown};
use sip_question_tests::kinds::{KINDS, asked_in, wanted};
use sip_verifier::Status;
use std::alloc::Global;
use std::process::Abort;
use std::test::Fail;

const RECALL_3: [u8; 11] = [0x27, 0, 8, 0, 0, 0, 0, 0, 0, 0, 3];

// What three records come to: how many they are, the weights of both sides, and their fingerprint.
const HELD_3: [u8; 35] = [
    0x26, 0, 0x20, 0, 0, 0, 0, 0, 0, 0, 3, 0, 0, 0, 0, 0, 0, 0, 9, 0, 0, 0, 0, 0, 0, 0, 0, 0xb8,
    0x26, 0x1a, 0xe7, 0xdb, 0x4f, 0xab, 0x00,
];

// The three records in each form, and one more behind them.
const FOUR_RECORDS: [u8; 52] = [
    0, 0, 0, 0, 0, 0, 0, 0, 0, 0, 0, 0, 3, 0, 0, 0, 0, 2, 0, 0, 0, 0, 0, 0, 0, 5, 0, 0, 0, 0, 3, 0,
    0, 0, 0, 0, 0, 0, 1, 0, 0, 0, 0, 1, 0, 0, 0, 0, 0, 0, 0, 2,
];

const FOUR_LINES: &[u8] = b"0 0 3\n0 2 5\n0 3 1\n0 1 2\n";

const STORES: [(&str, &[u8]); 5] = [
    ("serve s from to", &THREE_RECORDS),
    ("serve s - -", &FOUR_RECORDS),
    ("serve text:s from to", &THREE_LINES),
    ("serve text:s - -", FOUR_LINES),
    ("serve wide:s from -", &THREE_WIDE_RECORDS),
];

// A run over a store that hears this, in pieces of that size.
fn serve(alloc: Global, over: (&str, &[u8]), said: &[u8], chunk: usize) -> Result<Shown, Fail>
    requires { 1 ≤ chunk }
{
    let input = RunInput {
        words: over.0,
        stream: over.1,
        seed: &[],
        replies: &[said],
    };
    input.run(alloc, chunk, None)
}

fn check_ends(rt: &impl Abort, alloc: Global, over: (&str, &[u8]), chunk: usize) -> Result<(), Fail>
    requires { 1 ≤ chunk }
{
    let (said, lines) = wanted(alloc, &KINDS.each_ref())?;
    let heard = [OPEN_2.as_slice(), &RECALL_3, &said].concat(alloc)?;
    let served = serve(alloc, over, &heard, chunk)?;
    let written = sent(alloc, served.peer.talk())?;
    let Some(replies) = written.get(HELD_3.len()..) else {
        return Err("what is held")?;
    };
    let questions = KINDS.map(|kind| kind.question);
    let came = asked_in(alloc, &questions, replies.to_vec(alloc)?, chunk)?;
    let case = Case {
        name: over.0,
        number: chunk as u64,
    };
    case.ends(served.status, Status::Served)
        .expect(rt, "a case");
    case.holds(written.starts_with(&HELD_3) && came.ended == Ok(()))
        .expect(rt, "a case");
    case.writes(&came.sent, &said).expect(rt, "a case");
    case.writes(&came.lines, &lines).expect(rt, "a case");
    Ok(())
}

#[test]
fn questions_of_every_kind_are_asked_of_runs_over_stores(rt: HostRuntime) -> Result<(), Fail> {
    for over in &STORES {
        for chunk in [1, 2, 7, 10_000] {
            check_ends(&rt, rt.alloc(), *over, chunk)?;
        }
    }
    Ok(())
}
