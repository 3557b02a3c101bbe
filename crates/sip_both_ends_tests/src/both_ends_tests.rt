// Runs of `lookup` and of `moments` against runs of `helplook` and of `helpmom`.

use crate::duel::{MOST_CHALLENGES, push_reveals, sent};
use sip_command_tests::case::Case;
use sip_command_tests::frames::ZERO_SEED;
use sip_command_tests::row::{RunInput, Shown, words_of};
use sip_field::{M61, draw_challenges};
use sip_vector::Depth;
use sip_verifier::Status;
use sip_words::{Command, read_words};
use std::alloc::Global;
use std::process::Abort;
use std::test::Fail;

// The words of both ends, the stream, how the talk opens, and the lines.
#[derive(Clone, Copy)]
struct Ends<'a> {
    asking: &'a str,
    helping: &'a str,
    stream: &'a str,
    open: [u8; 5],
    lines: &'a str,
}

// A stream over 8 items, and one over 2^40, which version 2 alone speaks of.
const NARROW: &str = "0 0 3\n0 5 -2\n0 7 4\n1 6 9\n";

const WIDE: &str = "0 5 7\n0 1099511627775 -1\n1 0 2\n";

const OPEN_3: [u8; 5] = [1, 0, 2, 1, 3];

const OPEN_40: [u8; 5] = [1, 0, 2, 2, 40];

const ENDS: &[Ends<'static>] = &[
    Ends {
        asking: "lookup text:s seed a b 3 index:5 index:6 pred:4 pred:7 succ:6 succ:0",
        helping: "helplook from to",
        stream: NARROW,
        open: OPEN_3,
        lines: "index:5 -2\nindex:6 0\npred:4 0:3\npred:7 7:4\nsucc:6 7:4\nsucc:0 0:3\n",
    },
    Ends {
        asking: "lookup text:s seed a b 3 pred:7 succ:0 index:3",
        helping: "helplook from to",
        stream: "",
        open: OPEN_3,
        lines: "pred:7 none\nsucc:0 none\nindex:3 0\n",
    },
    Ends {
        asking: "lookup text:s seed a b 40 succ:6 pred:1099511627774 index:1099511627775",
        helping: "helplook from to",
        stream: WIDE,
        open: OPEN_40,
        lines: "succ:6 1099511627775:-1\npred:1099511627774 5:7\nindex:1099511627775 -1\n",
    },
    // 27 - 8 + 64, 81 + 16 + 256, and 9^8.
    Ends {
        asking: "moments text:s seed a b 3 moment:0:3 moment:0:4 moment:1:8",
        helping: "helpmom from to",
        stream: NARROW,
        open: OPEN_3,
        lines: "moment:0:3 83\nmoment:0:4 353\nmoment:1:8 43046721\n",
    },
    // 343 - 1, and 2^8.
    Ends {
        asking: "moments text:s seed a b 40 moment:0:3 moment:1:8",
        helping: "helpmom from to",
        stream: WIDE,
        open: OPEN_40,
        lines: "moment:0:3 342\nmoment:1:8 256\n",
    },
];

// The depth of a run, how many questions it asks, and whether each is a lookup.
fn questions_of(alloc: Global, words: &str) -> Result<(Depth, usize, bool), Fail> {
    match read_words(&words_of(alloc, words)?) {
        Ok(Command::Lookup(task)) => Ok((task.depth, task.lookups.len(), true)),
        Ok(Command::Moments(task)) => Ok((task.depth, task.moments.len(), false)),
        _ => Err("words of questions")?,
    }
}

// A run of the asking end over these replies.
fn ask(alloc: Global, ends: Ends, replies: &[u8]) -> Result<Shown, Fail> {
    let asking = RunInput {
        words: ends.asking,
        stream: ends.stream.as_bytes(),
        seed: &ZERO_SEED,
        replies: &[replies],
    };
    asking.run(alloc, 10_000, None)
}

// A run of the helping end that hears this.
fn help(alloc: Global, ends: Ends, said: &[u8]) -> Result<Shown, Fail> {
    let helping = RunInput {
        words: ends.helping,
        stream: &[],
        seed: &[],
        replies: &[said],
    };
    helping.run(alloc, 10_000, None)
}

// What the helping end replies to what the asking end says over these replies, and to the
// challenges of a block.
fn reply(alloc: Global, ends: Ends, replies: &[u8], block: &[M61]) -> Result<Vec<u8>, Fail> {
    let mut said = sent(alloc, ask(alloc, ends, replies)?.peer.talk())?;
    push_reveals(&mut said, block)?;
    sent(alloc, help(alloc, ends, &said)?.peer.talk())
}

// The replies once the next question was answered too. A lookup has two: the place of its answer
// comes before its challenges are due.
fn answered(
    alloc: Global,
    ends: Ends,
    replies: &[u8],
    block: &[M61],
    is_lookup: bool,
) -> Result<Vec<u8>, Fail> {
    if is_lookup {
        let placed = reply(alloc, ends, replies, &[])?;
        return reply(alloc, ends, &placed, block);
    }
    reply(alloc, ends, replies, block)
}

// The asking end once all was answered, question by question: a run that lacks replies ends behind
// the first question that has none, and the challenges that are to be revealed for it are those of
// the seed of zeros.
fn converse(alloc: Global, ends: Ends) -> Result<Shown, Fail> {
    let (depth, count, is_lookup) = questions_of(alloc, ends.asking)?;
    let Ok(challenges) = draw_challenges::<MOST_CHALLENGES>(ZERO_SEED, MOST_CHALLENGES) else {
        return Err("challenges")?;
    };
    let mut replies = Vec::new(alloc);
    for block in challenges.chunks(depth.get() as usize).take(count) {
        replies = answered(alloc, ends, &replies, block, is_lookup)?;
    }
    ask(alloc, ends, &replies)
}

// Both ends come to the answers, and nothing is kept of the talk.
fn check_ends(rt: &impl Abort, alloc: Global, rows: &[Ends]) -> Result<(), Fail> {
    for ends in rows {
        let asked = converse(alloc, *ends)?;
        let said = sent(alloc, asked.peer.talk())?;
        let helped = help(alloc, *ends, &said)?;
        let case = Case {
            name: ends.asking,
            number: 10_000,
        };
        case.ends(asked.status, Status::Accepted)
            .expect(rt, "a case");
        case.ends(helped.status, Status::Served)
            .expect(rt, "a case");
        case.writes(asked.report.bytes(), ends.lines.as_bytes())
            .expect(rt, "a case");
        case.writes(asked.keep.bytes(), &[]).expect(rt, "a case");
        case.holds(said.starts_with(&ends.open))
            .expect(rt, "a case");
    }
    Ok(())
}

#[test]
fn both_ends_come_to_the_answers(rt: HostRuntime) -> Result<(), Fail> {
    check_ends(&rt, rt.alloc(), ENDS)
}
