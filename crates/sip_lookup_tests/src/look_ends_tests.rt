// The helper's end of talks of lookups, and both ends, each over what the other one sent.
ghost use Rattle.std.specs.Prelude.{IfOk};
ghost use Rattle.sip_lookup.specs.Tasks.{CanLookUp};

use crate::facts::expect;
use arrayvec::ArrayVec;
use sip_check_tests::events::sent_in;
use sip_check_tests::serving::{Server, is_served, served};
use sip_field::{Field, M61, draw_challenges};
use sip_helper::HelpStatus;
use sip_lookup::{LookTask, Lookup, look_stream, serve_look};
use sip_ports::{MemoryLink, MemorySink, MemorySource};
use sip_stream::Form;
use sip_vector::Depth;
use sip_verifier::Status;
use std::alloc::Global;
use std::process::Abort;
use std::slice::Iter;
use std::test::Fail;

// The opening of a talk over four items, the vector (3, 0, 5, 1) and its end.
const STREAM: [u8; 52] = [
    1, 0, 2, 1, 2, 2, 0, 41, 0, 3, 0, 0, 0, 0, 0, 0, 0, 0, 0, 0, 0, 0, 3, 0, 0, 0, 0, 2, 0, 0, 0,
    0, 0, 0, 0, 5, 0, 0, 0, 0, 3, 0, 0, 0, 0, 0, 0, 0, 1, 3, 0, 0,
];

const ASK_SUCC_1: &[u8] = &[0x21, 0, 9, 3, 0, 0, 0, 0, 0, 0, 0, 1];

const FOUND_2: &[u8] = &[0x22, 0, 9, 1, 0, 0, 0, 0, 0, 0, 0, 2];

const SUB_1_2: &[u8] = &[4, 0, 9, 1, 0, 0, 0, 1, 0, 0, 0, 2];

// The entry (2, 5) and the siblings 3 and 1; then, behind the challenge 2, no siblings.
const REPLY_1_2: &[u8] = &[
    0x13, 0, 0x0e, 0, 1, 0, 0, 0, 2, 0, 0, 0, 0, 0, 0, 0, 5, 0x14, 0, 0x11, 3, 0, 0, 0, 0, 0, 0, 0,
    3, 0, 0, 0, 0, 0, 0, 0, 1,
];

const REVEALED: &[u8] = &[5, 0, 8, 0, 0, 0, 0, 0, 0, 0, 2];

const NO_SIBLINGS: &[u8] = &[0x14, 0, 1, 0];

const END: &[u8] = &[0x23, 0, 0];

const BYE: &[u8] = &[6, 0, 0];

const OUT_OF_TURN: &[u8] = &[0x18, 0, 1, 4];

// A talk of the helper: its name, what comes, how it ends, and what is sent.
type Talk = (
    &'static str,
    &'static [&'static [u8]],
    HelpStatus,
    &'static [&'static [u8]],
);

const TALKS: [Talk; 7] = [
    (
        "a whole lookup",
        &[&STREAM, ASK_SUCC_1, SUB_1_2, REVEALED, END],
        HelpStatus::Served,
        &[FOUND_2, REPLY_1_2, NO_SIBLINGS],
    ),
    ("no lookup", &[&STREAM, END], HelpStatus::Served, &[]),
    (
        "no End",
        &[&STREAM, ASK_SUCC_1, SUB_1_2, REVEALED],
        HelpStatus::PeerClosed,
        &[FOUND_2, REPLY_1_2, NO_SIBLINGS],
    ),
    (
        "a part of an End",
        &[&STREAM, &[0x23, 0]],
        HelpStatus::PeerClosed,
        &[],
    ),
    (
        "an End of one byte",
        &[&STREAM, &[0x23, 0, 1, 0]],
        HelpStatus::BadFrame { offset: 52 },
        &[],
    ),
    (
        "an End before the stream",
        &[END],
        HelpStatus::BadFrame { offset: 0 },
        &[],
    ),
    (
        "an End in the stream",
        &[&[1, 0, 2, 1, 2], END],
        HelpStatus::BadFrame { offset: 5 },
        &[],
    ),
];

const OUT_OF_TURNS: [Talk; 7] = [
    (
        "an End where the query is due",
        &[&STREAM, ASK_SUCC_1, END],
        HelpStatus::BadFrame { offset: 64 },
        &[FOUND_2],
    ),
    (
        "a Bye where a lookup is due",
        &[&STREAM, BYE],
        HelpStatus::BadFrame { offset: 52 },
        &[],
    ),
    (
        "a Bye where the query is due",
        &[&STREAM, ASK_SUCC_1, BYE],
        HelpStatus::BadFrame { offset: 64 },
        &[FOUND_2, OUT_OF_TURN],
    ),
    (
        "a second Ask",
        &[&STREAM, ASK_SUCC_1, ASK_SUCC_1],
        HelpStatus::BadFrame { offset: 64 },
        &[FOUND_2],
    ),
    (
        "no code",
        &[&STREAM, &[0x21, 0, 9, 0, 0, 0, 0, 0, 0, 0, 0, 1]],
        HelpStatus::BadFrame { offset: 52 },
        &[OUT_OF_TURN],
    ),
    (
        "a code of 4",
        &[&STREAM, &[0x21, 0, 9, 4, 0, 0, 0, 0, 0, 0, 0, 1]],
        HelpStatus::BadFrame { offset: 52 },
        &[OUT_OF_TURN],
    ),
    (
        "an item behind the stream",
        &[&STREAM, &[0x21, 0, 9, 1, 0, 0, 0, 0, 0, 0, 0, 4]],
        HelpStatus::BadFrame { offset: 52 },
        &[OUT_OF_TURN],
    ),
];

// The helper of lookups.
struct Helper;

impl Server for Helper {
    type End = HelpStatus;

    fn serve(alloc: Global, link: &mut MemoryLink) -> HelpStatus {
        serve_look(alloc, link)
    }
}

// Each talk, in pieces of one byte and in one piece.
fn are_served(rt: &impl Abort, alloc: Global, talks: &[Talk]) {
    for (name, parts, status, want) in talks {
        let talk = parts.concat(alloc).expect(rt, "memory");
        let want = want.concat(alloc).expect(rt, "memory");
        for chunk in [1, 10_000] {
            let facts = is_served::<Helper>(alloc, &talk, chunk, *status, &want);
            expect(rt, name, &facts.expect(rt, "memory"));
        }
    }
}

#[test]
fn lookups_are_served(rt: HostRuntime) {
    are_served(&rt, rt.alloc(), &TALKS);
}

#[test]
fn what_may_not_come_in_a_talk_of_lookups(rt: HostRuntime) {
    are_served(&rt, rt.alloc(), &OUT_OF_TURNS);
}

// Over two items: the value at 0 is asked for, and the query for it has one reply, the sibling 0.
const ASK_INDEX_0: &[u8] = &[0x21, 0, 9, 1, 0, 0, 0, 0, 0, 0, 0, 0];

const FOUND_0: &[u8] = &[0x22, 0, 9, 1, 0, 0, 0, 0, 0, 0, 0, 0];

const SUB_0_0: &[u8] = &[4, 0, 9, 1, 0, 0, 0, 0, 0, 0, 0, 0];

const SIBLING_1: &[u8] = &[0x14, 0, 9, 2, 0, 0, 0, 0, 0, 0, 0, 0];

#[test]
fn the_17th_lookup_is_out_of_turn(rt: HostRuntime) {
    let alloc = rt.alloc();
    let mut talk = [1, 0, 2, 1, 1, 3, 0, 0].to_vec(alloc).expect(&rt, "memory");
    let mut want = Vec::new(alloc);
    for _ in 0..16 {
        talk.extend_from_slice(ASK_INDEX_0).expect(&rt, "memory");
        talk.extend_from_slice(SUB_0_0).expect(&rt, "memory");
        want.extend_from_slice(FOUND_0).expect(&rt, "memory");
        want.extend_from_slice(SIBLING_1).expect(&rt, "memory");
    }
    talk.extend_from_slice(ASK_INDEX_0).expect(&rt, "memory");
    want.extend_from_slice(OUT_OF_TURN).expect(&rt, "memory");
    let end = HelpStatus::BadFrame {
        offset: 8 + 16 * 24,
    };
    let facts = is_served::<Helper>(alloc, &talk, 7, end, &want);
    expect(&rt, "17 lookups", &facts.expect(&rt, "memory"));
}

// ---- both ends

// The challenges of 16 lookups over 2^48 items.
const MOST_CHALLENGES: usize = 768;

// A lookup, and the first and last item of the interval whose entries prove its answer.
type Asked = (Lookup, u64, u64);

// A run: its depth, its lines, what is sent of them, its lookups, and the report.
struct Run {
    name: &'static str,
    depth: u8,
    lines: &'static [u8],
    opening: &'static [u8],
    asked: &'static [Asked],
    report: &'static [u8],
}

// The last of 2^48 items, and the one in the middle of 2^33.
const LAST: u64 = 281_474_976_710_655;

const FAR: u64 = 4_294_967_296;

const RUNS: [Run; 4] = [
    Run {
        name: "16 lookups over 8 items",
        depth: 3,
        lines: b"0 0 3\n0 5 -2\n0 7 4\n1 6 9\n",
        opening: &[
            1, 0, 2, 1, 3, 2, 0, 54, 0, 4, 0, 0, 0, 0, 0, 0, 0, 0, 0, 0, 0, 0, 3, 0, 0, 0, 0, 5,
            0xff, 0xff, 0xff, 0xff, 0xff, 0xff, 0xff, 0xfe, 0, 0, 0, 0, 7, 0, 0, 0, 0, 0, 0, 0, 4,
            1, 0, 0, 0, 6, 0, 0, 0, 0, 0, 0, 0, 9, 3, 0, 0,
        ],
        asked: &[
            (Lookup::Index(0), 0, 0),
            (Lookup::Index(7), 7, 7),
            (Lookup::Index(5), 5, 5),
            (Lookup::Index(6), 6, 6),
            (Lookup::Pred(0), 0, 0),
            (Lookup::Pred(4), 0, 4),
            (Lookup::Pred(5), 5, 5),
            (Lookup::Pred(6), 5, 6),
            (Lookup::Pred(7), 7, 7),
            (Lookup::Succ(0), 0, 0),
            (Lookup::Succ(1), 1, 5),
            (Lookup::Succ(5), 5, 5),
            (Lookup::Succ(6), 6, 7),
            (Lookup::Succ(7), 7, 7),
            (Lookup::Index(1), 1, 1),
            (Lookup::Index(4), 4, 4),
        ],
        report: b"index:0 3\nindex:7 4\nindex:5 -2\nindex:6 0\npred:0 0:3\npred:4 0:3\n\
          pred:5 5:-2\npred:6 5:-2\npred:7 7:4\nsucc:0 0:3\nsucc:1 5:-2\nsucc:5 5:-2\n\
          succ:6 7:4\nsucc:7 7:4\nindex:1 0\nindex:4 0\n",
    },
    Run {
        name: "no records",
        depth: 3,
        lines: b"",
        opening: &[1, 0, 2, 1, 3, 3, 0, 0],
        asked: &[
            (Lookup::Pred(7), 0, 7),
            (Lookup::Succ(0), 0, 7),
            (Lookup::Index(3), 3, 3),
            (Lookup::Pred(0), 0, 0),
            (Lookup::Succ(7), 7, 7),
        ],
        report: b"pred:7 none\nsucc:0 none\nindex:3 0\npred:0 none\nsucc:7 none\n",
    },
    Run {
        name: "an entry that comes to 0",
        depth: 3,
        lines: b"0 2 5\n0 2 -5\n0 3 1\n",
        opening: &[
            1, 0, 2, 1, 3, 2, 0, 41, 0, 3, 0, 0, 0, 0, 2, 0, 0, 0, 0, 0, 0, 0, 5, 0, 0, 0, 0, 2,
            0xff, 0xff, 0xff, 0xff, 0xff, 0xff, 0xff, 0xfb, 0, 0, 0, 0, 3, 0, 0, 0, 0, 0, 0, 0, 1,
            3, 0, 0,
        ],
        asked: &[(Lookup::Pred(2), 0, 2), (Lookup::Succ(2), 2, 3)],
        report: b"pred:2 none\nsucc:2 3:1\n",
    },
    Run {
        name: "16 lookups over 2^48 items",
        depth: 48,
        lines: b"0 5 7\n0 281474976710655 -1\n0 4294967296 3\n",
        opening: &[
            1, 0, 2, 2, 48, 2, 0, 53, 0, 3, 0, 0, 0, 0, 0, 0, 0, 0, 5, 0, 0, 0, 0, 0, 0, 0, 7, 0,
            0, 0, 0xff, 0xff, 0xff, 0xff, 0xff, 0xff, 0xff, 0xff, 0xff, 0xff, 0xff, 0xff, 0xff,
            0xff, 0, 0, 0, 0, 1, 0, 0, 0, 0, 0, 0, 0, 0, 0, 0, 0, 3, 3, 0, 0,
        ],
        asked: &[
            (Lookup::Index(0), 0, 0),
            (Lookup::Index(5), 5, 5),
            (Lookup::Index(4_294_967_295), 4_294_967_295, 4_294_967_295),
            (Lookup::Index(FAR), FAR, FAR),
            (Lookup::Index(LAST), LAST, LAST),
            (Lookup::Pred(0), 0, 0),
            (Lookup::Pred(5), 5, 5),
            (Lookup::Pred(6), 5, 6),
            (Lookup::Pred(FAR), FAR, FAR),
            (Lookup::Pred(281_474_976_710_654), FAR, 281_474_976_710_654),
            (Lookup::Pred(LAST), LAST, LAST),
            (Lookup::Succ(0), 0, 5),
            (Lookup::Succ(5), 5, 5),
            (Lookup::Succ(6), 6, FAR),
            (Lookup::Succ(4_294_967_297), 4_294_967_297, LAST),
            (Lookup::Succ(LAST), LAST, LAST),
        ],
        report: b"index:0 0\nindex:5 7\nindex:4294967295 0\nindex:4294967296 3\n\
          index:281474976710655 -1\npred:0 none\npred:5 5:7\npred:6 5:7\n\
          pred:4294967296 4294967296:3\npred:281474976710654 4294967296:3\n\
          pred:281474976710655 281474976710655:-1\nsucc:0 5:7\nsucc:5 5:7\n\
          succ:6 4294967296:3\nsucc:4294967297 281474976710655:-1\n\
          succ:281474976710655 281474976710655:-1\n",
    },
];

// The task of these lookups.
fn task(depth: u8, asked: &[Asked]) -> Result<LookTask, Fail>
    ensures { IfOk result CanLookUp }
{
    let depth = Depth::new(depth).ok_or("a depth")?;
    let mut list = ArrayVec::new();
    for (lookup, _, _) in asked {
        if lookup.item() >= 1 << depth.get() || list.try_push(*lookup).is_err() {
            return Err("an item")?;
        }
    }
    if list.is_empty() {
        return Err("a lookup")?;
    }
    Ok(LookTask {
        depth,
        form: Form::Text,
        lookups: list,
    })
}

// Puts an Ask and the query for the interval, in the version of the depth.
fn put_question(rt: &impl Abort, said: &mut Vec<u8>, depth: u8, asked: &Asked) {
    let (lookup, lo, hi) = asked;
    let (code, item) = match lookup {
        Lookup::Index(item) => (1, item),
        Lookup::Pred(item) => (2, item),
        Lookup::Succ(item) => (3, item),
    };
    // An item has four bytes up to depth 32, and eight above.
    let (length, from) = if depth > 32 { (17, 0) } else { (9, 4) };
    let ask = [0x21, 0, 9, code];
    said.extend_from_slice(&ask).expect(rt, "memory");
    said.extend_from_slice(&item.to_be_bytes())
        .expect(rt, "memory");
    let query = [4, 0, length, 1];
    said.extend_from_slice(&query).expect(rt, "memory");
    for end in [lo, hi] {
        said.extend_from_slice(&end.to_be_bytes()[from..])
            .expect(rt, "memory");
    }
}

// Puts the challenges of a lookup that are revealed: all but the last, which never leaves.
fn put_reveals(rt: &impl Abort, said: &mut Vec<u8>, depth: u8, challenges: &mut Iter<M61>) {
    for _ in 1..depth {
        let challenge = challenges.next().expect(rt, "a challenge");
        said.extend_from_slice(&[5, 0, 8]).expect(rt, "memory");
        said.extend_from_slice(&challenge.number().to_be_bytes())
            .expect(rt, "memory");
    }
    challenges.next();
}

// All that is said to a helper in a run at the challenges of 32 zero bytes.
fn said_in(rt: &impl Abort, alloc: Global, run: &Run) -> Vec<u8> {
    let drawn = draw_challenges::<MOST_CHALLENGES>([0; 32], MOST_CHALLENGES);
    let drawn = drawn.expect(rt, "challenges");
    let mut challenges = drawn.iter();
    let mut said = run.opening.to_vec(alloc).expect(rt, "memory");
    for asked in run.asked {
        put_question(rt, &mut said, run.depth, asked);
        put_reveals(rt, &mut said, run.depth, &mut challenges);
    }
    said.extend_from_slice(END).expect(rt, "memory");
    said
}

// Of a run over these replies: that it is accepted, reports what it has to, and sends this.
fn is_looked(
    rt: &impl Abort,
    alloc: Global,
    run: &Run,
    replies: Vec<u8>,
    asked: &[u8],
) -> Result<[bool; 3], Fail> {
    let task = task(run.depth, run.asked)?;
    let lines = run.lines.to_vec(alloc).expect(rt, "memory");
    let seed = vec![in alloc; 0; 32].expect(rt, "memory");
    let mut first = MemorySource::new(lines, 5, Vec::new(alloc));
    let mut second = MemorySource::new(seed, 5, Vec::new(alloc));
    let mut peer = MemoryLink::new(alloc, replies, 5, Vec::new(alloc));
    let mut report = MemorySink::new(alloc, 5, Vec::new(alloc));
    let status = look_stream(
        alloc,
        &task,
        &mut first,
        &mut second,
        &mut peer,
        &mut report,
    );
    Ok([
        status == Status::Accepted,
        report.bytes() == run.report,
        sent_in(alloc, peer.talk()).expect(rt, "memory").as_slice() == asked,
    ])
}

// Each end is one call, over what the other one sends. A reply hangs on nothing that is said behind
// its question, so this is what both come to over one link.
fn are_one_talk(rt: &impl Abort, alloc: Global, run: &Run) -> Result<(), Fail> {
    let asked = said_in(rt, alloc, run);
    let (end, replies) = served::<Helper>(alloc, &asked, 5, &[]).expect(rt, "memory");
    expect(rt, run.name, &[end == HelpStatus::Served]);
    expect(rt, run.name, &is_looked(rt, alloc, run, replies, &asked)?);
    Ok(())
}

#[test]
fn both_ends_come_to_the_answers(rt: HostRuntime) -> Result<(), Fail> {
    for run in &RUNS {
        are_one_talk(&rt, rt.alloc(), run)?;
    }
    Ok(())
}
