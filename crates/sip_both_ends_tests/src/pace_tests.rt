// When the lines come that a run says on the way.
use crate::progress_tests::{ASK_MOMENT_3, HEARD_NOTHING};
use crate::ticking::{said, taker};
use sip_cli::{ToldLink, ToldSource};
use sip_command_tests::case::Case;
use sip_command_tests::frames::*;
use sip_command_tests::row::{link, words_of};
use sip_ports::{Link, PortStop, Source, write_whole};
use sip_words::read_words;
use std::alloc::Global;
use std::process::Abort;
use std::test::Fail;

const MEBIBYTE: usize = 1 << 20;

// Words, the byte that a stream is full of, how many MiB of it are moved, and what is said.
type Moved<'a> = (&'a str, u8, usize, &'a str);

const MOVED: &[Moved<'static>] = &[
    ("lines s 9", 7, 0, ""),
    (
        "lines s 9",
        7,
        1,
        "sip: progress: 0 MiB of STREAM read, 0 records\n",
    ),
    (
        "gen 7 1 9",
        7,
        64,
        "sip: progress: 0 MiB of STREAM read, 0 records\n",
    ),
    (
        "gen 7 1 9",
        7,
        65,
        "sip: progress: 0 MiB of STREAM read, 0 records\n\
        sip: progress: 64 MiB of STREAM read, 5162220 records\n",
    ),
    (
        "widen wide:s 9",
        7,
        129,
        "sip: progress: 0 MiB of STREAM read, 0 records\n\
        sip: progress: 64 MiB of STREAM read, 3947580 records\n\
        sip: progress: 128 MiB of STREAM read, 7895160 records\n",
    ),
    (
        "play text:s seed mute - 9 inner",
        10,
        65,
        "sip: progress: 0 MiB of STREAM read, 0 records\n\
        sip: progress: 64 MiB of STREAM read, 67108864 records\n",
    ),
    (
        "verify text:s seed a b - 9 inner",
        7,
        2,
        "sip: progress: 0 MiB of STREAM read, 0 records\n",
    ),
];

// A source that brings a MiB in each call, which it holds too, without an end.
#[derive(Drop)]
struct Endless {
    bytes: Vec<u8>,
}

impl Source for Endless {
    ghost use Rattle.std.specs.Prelude.{None, refl};
    ghost use Rattle.std.proofs.Common.{rules};

    ghost left = { λ _. None };

    ghost ahead = { λ source. source.bytes.items };

    ghost faults = { λ _. 0 };

    ghost wants = { λ _. 0 };

    ghost is_sure = { λ _. Unit {0} };

    ghost faults_fit = { λ _. Prim.search rules };

    ghost wants_fit = { λ _. Prim.search rules };

    ghost sure_counts = { λ _ _. refl };

    fn read(&mut self, buf: &mut [u8]) -> Result<usize, PortStop> {
        Ok(buf.len())
    }

    fn held(&self) -> &[u8] {
        &self.bytes
    }

    fn skip(&mut self, _count: usize) {}
}

// Moves as much as that: reads it, or skips what is held.
fn move_all<S: Source>(source: &mut S, mebibytes: usize, buffer: &mut [u8], skips: bool) -> bool {
    for _ in 0..mebibytes {
        if skips {
            let held = source.held().len();
            source.skip(held);
        } else if source.read(buffer).is_err() {
            return false;
        }
    }
    true
}

fn check_moved(
    rt: &impl Abort,
    alloc: Global,
    rows: &[Moved],
    step: Option<u64>,
    skips: bool,
) -> Result<(), Fail> {
    for &(name, byte, mebibytes, want) in rows {
        let command = read_words(&words_of(alloc, name)?)?;
        let mut buffer = vec![in alloc; byte; MEBIBYTE]?;
        let endless = Endless {
            bytes: buffer.clone()?,
        };
        let mut told = ToldSource::new(&command, endless, taker(alloc, Vec::new(alloc), step));
        let case = Case {
            name,
            number: mebibytes as u64,
        };
        case.holds(move_all(&mut told, mebibytes, &mut buffer, skips))
            .expect(rt, "a case");
        case.writes(said(told.lines()), want.as_bytes())
            .expect(rt, "a case");
    }
    Ok(())
}

#[test]
fn a_line_comes_once_in_64_mebibytes(rt: HostRuntime) -> Result<(), Fail> {
    let alloc = rt.alloc();
    for step in [None, Some(0)] {
        check_moved(&rt, alloc, MOVED, step, false)?;
        check_moved(&rt, alloc, MOVED, step, true)?;
    }
    Ok(())
}

// The same of a clock that is two seconds further at each look, so that a line is late behind two
// calls without one; where 64 MiB come sooner, the time counts from the line behind them.
const LATE: &[Moved<'static>] = &[
    (
        "lines s 9",
        7,
        2,
        "sip: progress: 0 MiB of STREAM read, 0 records\n",
    ),
    (
        "lines s 9",
        7,
        3,
        "sip: progress: 0 MiB of STREAM read, 0 records\n\
        sip: progress: 2 MiB of STREAM read, 161319 records\n",
    ),
    (
        "widen wide:s 9",
        7,
        6,
        "sip: progress: 0 MiB of STREAM read, 0 records\n\
        sip: progress: 2 MiB of STREAM read, 123361 records\n\
        sip: progress: 4 MiB of STREAM read, 246723 records\n",
    ),
    (
        "verify text:s seed a b - 9 inner",
        10,
        5,
        "sip: progress: 0 MiB of STREAM read, 0 records\n\
        sip: progress: 2 MiB of STREAM read, 2097152 records\n\
        sip: progress: 4 MiB of STREAM read, 4194304 records\n",
    ),
];

#[test]
fn a_line_comes_once_in_a_few_seconds(rt: HostRuntime) -> Result<(), Fail> {
    let alloc = rt.alloc();
    check_moved(&rt, alloc, LATE, Some(2), false)?;
    check_moved(&rt, alloc, LATE, Some(2), true)
}

// Words, how many receives are made, and the lines about them by a clock that is two seconds
// further at each: a side that answers says again that it hears, and one that asks has a line for
// each reply.
const RECEIVED: &[(&str, usize, &str)] = &[
    ("help from to", 2, HEARD_NOTHING),
    (
        "helpmom from to",
        5,
        "sip: progress: waiting for the other side, 0 MiB of FROM read\n\
        sip: progress: waiting for the other side, 0 MiB of FROM read\n\
        sip: progress: waiting for the other side, 0 MiB of FROM read\n",
    ),
];

#[test]
fn a_side_that_answers_says_so_once_in_a_few_seconds(rt: HostRuntime) -> Result<(), Fail> {
    let alloc = rt.alloc();
    for &(name, receives, want) in RECEIVED {
        let peer = link(alloc, &[&THREE_RECORDS], 10_000, None)?;
        let lines = taker(alloc, Vec::new(alloc), Some(2));
        let command = read_words(&words_of(alloc, name)?)?;
        let mut told = ToldLink::new(&command, peer, lines);
        let mut moved = true;
        for _ in 0..receives {
            moved = moved && told.recv(&mut [0]).is_ok();
        }
        let case = Case {
            name,
            number: receives as u64,
        };
        case.holds(moved).expect(&rt, "a case");
        case.writes(said(told.lines()), want.as_bytes())
            .expect(&rt, "a case");
    }
    Ok(())
}

#[test]
fn a_reply_has_one_line_however_long_it_takes(rt: HostRuntime) -> Result<(), Fail> {
    let alloc = rt.alloc();
    let peer = link(alloc, &[&THREE_RECORDS], 10_000, None)?;
    let lines = taker(alloc, Vec::new(alloc), Some(100));
    let name = "moments text:s seed a b 3 moment:0:3";
    let command = read_words(&words_of(alloc, name)?)?;
    let mut told = ToldLink::new(&command, peer, lines);
    let sent = write_whole(&mut told, &ASK_MOMENT_3).is_ok();
    let heard = told.recv(&mut [0]).is_ok() && told.recv(&mut [0]).is_ok();
    let case = Case { name, number: 0 };
    case.holds(sent && heard).expect(&rt, "a case");
    case.writes(
        said(told.lines()),
        b"sip: progress: waiting for the reply of query 1 round 0\n",
    )
    .expect(&rt, "a case");
    Ok(())
}
