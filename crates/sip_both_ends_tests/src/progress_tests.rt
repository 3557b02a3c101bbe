// What a run says on the way.
ghost use Rattle.std.specs.Prelude.{◌≤◌};

use crate::duel::{duel, heard, sent};
use crate::ticking::{Ticking, said, taker};
use sip_advice::exit_code;
use sip_cli::{ToldLink, ToldSource, run};
use sip_command_tests::case::Case;
use sip_command_tests::frames::*;
use sip_command_tests::row::{At, FIRST_GIVEN, Failing, RunInput, Shown, link, source, words_of};
use sip_ports::{Link, MemoryLink, MemorySink, MemorySource, write_whole};
use sip_verifier::Status;
use sip_words::{Words, read_words};
use std::alloc::Global;
use std::process::Abort;
use std::test::Fail;

// Ports of a run, of which those of the stream and of the talk tell.
#[derive(Drop)]
struct Told {
    first: ToldSource<MemorySource, MemorySink, Ticking>,
    second: MemorySource,
    peer: ToldLink<MemoryLink, MemorySink, Ticking>,
    report: MemorySink,
    keep: MemorySink,
}

impl Told {
    fn run(&mut self, alloc: Global, words: &Words) -> Status {
        let (first, second) = (&mut self.first, &mut self.second);
        let (report, keep) = (&mut self.report, &mut self.keep);
        run(alloc, words, first, second, &mut self.peer, report, keep)
    }
}

// Runs it over ports that move at most a chunk in a call, and tell. One call of a port fails, and
// the calls of these numbers for the lines.
fn run_told(
    given: &RunInput,
    alloc: Global,
    chunk: usize,
    failing: Option<Failing>,
    fails: &[u64],
) -> Result<(Status, Told), Fail>
    requires { 1 ≤ chunk }
{
    let words = words_of(alloc, given.words)?;
    let command = read_words(&words)?;
    let first = source(alloc, given.stream, chunk, failing, At::First)?;
    let peer = link(alloc, given.replies, chunk, failing)?;
    let mut told = Told {
        first: ToldSource::new(&command, first, taker(alloc, fails.to_vec(alloc)?, None)),
        second: source(alloc, given.seed, chunk, None, At::Second)?,
        peer: ToldLink::new(&command, peer, taker(alloc, fails.to_vec(alloc)?, None)),
        report: MemorySink::new(alloc, chunk, Vec::new(alloc)),
        keep: MemorySink::new(alloc, chunk, Vec::new(alloc)),
    };
    let status = told.run(alloc, &words);
    Ok((status, told))
}

// The lines of a run: those about its stream, and those about its talk.
#[derive(Clone, Copy)]
struct Lines<'a> {
    stream: &'a str,
    talk: &'a str,
}

// Nothing differs between a run over ports that tell and one over ports that don't.
fn check_same(rt: &impl Abort, case: Case, status: Status, told: &Told, plain: &Shown) {
    case.ends(status, plain.status).expect(rt, "a case");
    case.holds(exit_code(&status) == exit_code(&plain.status))
        .expect(rt, "a case");
    case.writes(told.report.bytes(), plain.report.bytes())
        .expect(rt, "a case");
    case.writes(told.keep.bytes(), plain.keep.bytes())
        .expect(rt, "a case");
    case.says(told.peer.link().talk(), plain.peer.talk())
        .expect(rt, "a case");
}

// Runs it over both: nothing differs, and these are the lines.
fn check_lines(
    rt: &impl Abort,
    alloc: Global,
    given: &RunInput,
    chunk: usize,
    fails: &[u64],
    lines: Lines,
) -> Result<(), Fail>
    requires { 1 ≤ chunk }
{
    let plain = given.run(alloc, chunk, None)?;
    let (status, told) = run_told(given, alloc, chunk, None, fails)?;
    let case = Case {
        name: given.words,
        number: chunk as u64,
    };
    check_same(rt, case, status, &told, &plain);
    case.writes(said(told.first.lines()), lines.stream.as_bytes())
        .expect(rt, "a case");
    case.writes(said(told.peer.lines()), lines.talk.as_bytes())
        .expect(rt, "a case");
    Ok(())
}

fn check_cuts(rt: &impl Abort, alloc: Global, given: &RunInput, lines: Lines) -> Result<(), Fail> {
    check_lines(rt, alloc, given, 1, &[], lines)?;
    check_lines(rt, alloc, given, 10_000, &[], lines)
}

const FIRST: &str = "sip: progress: 0 MiB of STREAM read, 0 records\n";

// Words of `verify` at depth 2 over the three lines, and the lines about the talk. A query whose
// answer is known without a reply has none, and is counted: 9, the total, is below its threshold.
const TALKS: &[(&str, &str)] = &[
    (
        "verify text:s seed a b - 2 sub:1:2 range:0:0:3",
        "sip: progress: waiting for the reply of query 1 round 0\n\
        sip: progress: waiting for the reply of query 1 round 1\n\
        sip: progress: waiting for the reply of query 2 round 0\n\
        sip: progress: waiting for the reply of query 2 round 1\n",
    ),
    (
        "verify text:s seed a b - 2 heavy:0:10 f2:0 f2:0 heavy:0:10 heavy:0:9",
        "sip: progress: waiting for the reply of query 2 round 0\n\
        sip: progress: waiting for the reply of query 2 round 1\n\
        sip: progress: waiting for the reply of query 3 round 0\n\
        sip: progress: waiting for the reply of query 3 round 1\n\
        sip: progress: waiting for the reply of query 5 round 0\n\
        sip: progress: waiting for the reply of query 5 round 1\n",
    ),
    (
        "verify text:s seed a b - 2 share:1:1:2 share:0:1:2 inner",
        "sip: progress: waiting for the reply of query 2 round 0\n\
        sip: progress: waiting for the reply of query 2 round 1\n\
        sip: progress: waiting for the reply of query 3 round 0\n\
        sip: progress: waiting for the reply of query 3 round 1\n",
    ),
];

// A run that is rejected in its last round waits for no more; one whose seed is too short reads no
// stream; a copy has no talk.
const OTHERS: &[(RunInput<'static>, Lines<'static>)] = &[
    (
        RunInput {
            replies: &[&ENTRY_2, &SIBLINGS_3_1, &PART_OF_NO_SIBLINGS],
            ..FIRST_GIVEN
        },
        Lines {
            stream: FIRST,
            talk: "sip: progress: waiting for the reply of query 1 round 0\n\
                sip: progress: waiting for the reply of query 1 round 1\n",
        },
    ),
    (
        RunInput {
            seed: &SHORT_SEED,
            ..FIRST_GIVEN
        },
        Lines {
            stream: "",
            talk: "",
        },
    ),
    (
        RunInput {
            words: "widen text:s 2",
            stream: &THREE_LINES,
            seed: &[],
            replies: &[],
        },
        Lines {
            stream: FIRST,
            talk: "",
        },
    ),
];

pub(crate) const HEARD_NOTHING: &str =
    "sip: progress: waiting for the other side, 0 MiB of FROM read\n";

const HEARING: Lines<'static> = Lines {
    stream: "",
    talk: HEARD_NOTHING,
};

// Both sides of a talk that they held: that of the verifier, whose first line about it is lost too,
// and that of the helper.
fn check_talk(rt: &impl Abort, alloc: Global, words: &str, talk: &str) -> Result<(), Fail> {
    let whole = duel(alloc, words, &THREE_LINES)?;
    let (replies, asked) = (
        heard(alloc, whole.peer.talk())?,
        sent(alloc, whole.peer.talk())?,
    );
    let asking = RunInput {
        words,
        stream: &THREE_LINES,
        seed: &ZERO_SEED,
        replies: &[&replies],
    };
    let lines = Lines {
        stream: FIRST,
        talk,
    };
    check_cuts(rt, alloc, &asking, lines)?;
    let lost = Lines {
        stream: "",
        talk: talk.split_once('\n').unwrap_or(("", "")).1,
    };
    check_lines(rt, alloc, &asking, 10_000, &[1], lost)?;
    let helping = RunInput {
        words: "help from to",
        stream: &[],
        seed: &[],
        replies: &[&asked],
    };
    check_cuts(rt, alloc, &helping, HEARING)
}

#[test]
fn a_run_that_tells_its_progress_is_the_same(rt: HostRuntime) -> Result<(), Fail> {
    let alloc = rt.alloc();
    for &(words, talk) in TALKS {
        check_talk(&rt, alloc, words, talk)?;
    }
    for (given, lines) in OTHERS {
        check_cuts(&rt, alloc, given, *lines)?;
    }
    Ok(())
}

// Each of the first calls of a port fails once, in single bytes: nothing differs either.
fn check_failing(rt: &impl Abort, alloc: Global, given: &RunInput, at: At) -> Result<(), Fail> {
    for number in 1..60 {
        let failing = Some(Failing { at, number });
        let plain = given.run(alloc, 1, failing)?;
        let (status, told) = run_told(given, alloc, 1, failing, &[])?;
        let case = Case {
            name: given.words,
            number,
        };
        check_same(rt, case, status, &told, &plain);
    }
    Ok(())
}

#[test]
fn ports_that_tell_fail_where_those_inside_do(rt: HostRuntime) -> Result<(), Fail> {
    let alloc = rt.alloc();
    check_failing(&rt, alloc, &FIRST_GIVEN, At::First)?;
    check_failing(&rt, alloc, &FIRST_GIVEN, At::Peer)
}

// The frames that ask the nearest entry at 1 or above it, the value at 0 and a third moment, the
// one in which a helper says where it found an entry, and what is asked of it behind that.
const ASK_SUCC_1: [u8; 12] = [0x21, 0, 9, 3, 0, 0, 0, 0, 0, 0, 0, 1];

const ASK_INDEX_0: [u8; 12] = [0x21, 0, 9, 1, 0, 0, 0, 0, 0, 0, 0, 0];

pub(crate) const ASK_MOMENT_3: [u8; 5] = [0x24, 0, 2, 0, 3];

const FOUND_2: [u8; 12] = [0x22, 0, 9, 1, 0, 0, 0, 0, 0, 0, 0, 2];

// Words, frames that are sent with a receive behind each, and the lines about them: a lookup or a
// moment has the number of its Ask, and the query that proves a lookup has none of its own.
type Asking<'a> = (&'a str, &'a [&'a [u8]], &'a str);

const ASKING: &[Asking<'static>] = &[
    (
        "lookup text:s seed a b 2 succ:1 index:0",
        &[
            &ASK_SUCC_1,
            &SUB_1_2,
            &REVEAL,
            &ASK_INDEX_0,
            &SUB_0_1,
            &REVEAL,
        ],
        "sip: progress: waiting for the reply of query 1 round 0\n\
        sip: progress: waiting for the reply of query 1 round 1\n\
        sip: progress: waiting for the reply of query 2 round 0\n\
        sip: progress: waiting for the reply of query 2 round 1\n",
    ),
    (
        "moments text:s seed a b 3 moment:0:3 moment:1:3",
        &[&ASK_MOMENT_3, &REVEAL, &REVEAL_OF_2, &ASK_MOMENT_3, &REVEAL],
        "sip: progress: waiting for the reply of query 1 round 0\n\
        sip: progress: waiting for the reply of query 1 round 1\n\
        sip: progress: waiting for the reply of query 1 round 2\n\
        sip: progress: waiting for the reply of query 2 round 0\n\
        sip: progress: waiting for the reply of query 2 round 1\n",
    ),
    ("helplook from to", &[&FOUND_2, &FOUND_2], HEARD_NOTHING),
];

#[test]
fn lookups_and_moments_are_told_by_their_number(rt: HostRuntime) -> Result<(), Fail> {
    let alloc = rt.alloc();
    for &(name, frames, want) in ASKING {
        let peer = link(alloc, &[&THREE_RECORDS], 10_000, None)?;
        let lines = taker(alloc, Vec::new(alloc), None);
        let command = read_words(&words_of(alloc, name)?)?;
        let mut told = ToldLink::new(&command, peer, lines);
        let mut moved = true;
        for frame in frames {
            moved = moved && write_whole(&mut told, frame).is_ok() && told.recv(&mut [0]).is_ok();
        }
        let case = Case { name, number: 0 };
        case.holds(moved).expect(&rt, "a case");
        case.writes(said(told.lines()), want.as_bytes())
            .expect(&rt, "a case");
    }
    Ok(())
}
