// A run of `verify` against a run of `help`.

use sip_command_tests::case::Case;
use sip_command_tests::frames::*;
use sip_command_tests::row::{RunInput, Shown, words_of};
use sip_field::{Field, M61, draw_challenges};
use sip_ports::TalkEvent;
use sip_verifier::{Status, Task};
use sip_words::{Command, read_words};
use std::alloc::Global;
use std::process::Abort;
use std::test::Fail;

// The bytes that a side sent.
pub fn sent(alloc: Global, talk: &[TalkEvent]) -> Result<Vec<u8>, Fail> {
    let mut bytes = Vec::new(alloc);
    for event in talk {
        if let TalkEvent::Out(byte) = event {
            bytes.push(*byte)?;
        }
    }
    Ok(bytes)
}

// The bytes that it heard.
pub fn heard(alloc: Global, talk: &[TalkEvent]) -> Result<Vec<u8>, Fail> {
    let mut bytes = Vec::new(alloc);
    for event in talk {
        if let TalkEvent::In(byte) = event {
            bytes.push(*byte)?;
        }
    }
    Ok(bytes)
}

// What is drawn for 16 queries at depth 48.
pub const MOST_CHALLENGES: usize = 768;

// The task that these words of `verify` ask for.
fn task_of(alloc: Global, words: &str) -> Result<Task, Fail> {
    match read_words(&words_of(alloc, words)?) {
        Ok(Command::Verify(task)) => Ok(task),
        _ => Err("words of verify")?,
    }
}

// A run of `help` that hears this.
fn help(alloc: Global, said: &[u8]) -> Result<Shown, Fail> {
    let helping = RunInput {
        words: "help from to",
        stream: &[],
        seed: &[],
        replies: &[said],
    };
    helping.run(alloc, 10_000, None)
}

// The frames that reveal all of these but the last.
pub fn push_reveals(said: &mut Vec<u8>, challenges: &[M61]) -> Result<(), Fail> {
    for challenge in challenges.iter().take(challenges.len().saturating_sub(1)) {
        said.extend_from_slice(&[0x05, 0, 8])?;
        said.extend_from_slice(&challenge.number().to_be_bytes())?;
    }
    Ok(())
}

// The verifier's run once the helper has answered all that it sends. A run that lacks replies ends
// behind the first query that has none. The helper hears what was sent by then, and the challenges
// that are to be revealed, which the seed of zeros gives; the next run has its replies to that.
pub fn duel(alloc: Global, words: &str, stream: &[u8]) -> Result<Shown, Fail> {
    let task = task_of(alloc, words)?;
    let asking = RunInput {
        words,
        stream,
        seed: &ZERO_SEED,
        replies: &[],
    };
    let mut shown = asking.run(alloc, 10_000, None)?;
    let Ok(challenges) = draw_challenges::<MOST_CHALLENGES>(ZERO_SEED, MOST_CHALLENGES) else {
        return Err("challenges")?;
    };
    let depth = task.depth.get() as usize;
    for block in challenges.chunks(depth).take(task.queries.len()) {
        let mut said = sent(alloc, shown.peer.talk())?;
        push_reveals(&mut said, block)?;
        let replies = sent(alloc, help(alloc, &said)?.peer.talk())?;
        let answered = RunInput {
            words,
            stream,
            seed: &ZERO_SEED,
            replies: &[&replies],
        };
        shown = answered.run(alloc, 10_000, None)?;
    }
    Ok(shown)
}

// The words of a run, its stream, and its lines.
pub type Talk<'a> = (&'a str, &'a [u8], &'a str);

// Runs it against our own helper: it is accepted, these are its lines, and the helper serves the
// very talk that was held.
pub fn check_duel(rt: &impl Abort, alloc: Global, talk: Talk) -> Result<Shown, Fail> {
    let (words, stream, lines) = talk;
    let shown = duel(alloc, words, stream)?;
    let case = Case {
        name: words,
        number: 10_000,
    };
    case.ends(shown.status, Status::Accepted)
        .expect(rt, "a case");
    case.writes(shown.report.bytes(), lines.as_bytes())
        .expect(rt, "a case");
    let events = shown.peer.talk();
    let helped = help(alloc, &sent(alloc, events)?)?;
    case.ends(helped.status, Status::Served)
        .expect(rt, "a case");
    case.writes(&sent(alloc, helped.peer.talk())?, &heard(alloc, events)?)
        .expect(rt, "a case");
    Ok(shown)
}

pub fn check_duels(rt: &impl Abort, alloc: Global, talks: &[Talk]) -> Result<(), Fail> {
    for talk in talks {
        check_duel(rt, alloc, *talk)?;
    }
    Ok(())
}
