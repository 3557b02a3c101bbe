// All that a verifier does until the stream has ended, over ports in memory.
ghost use Rattle.std.specs.Prelude.{◌≤◌, IfOk};
ghost use Rattle.sip_verifier.specs.Tasks.{CanBeDone};

use crate::session_facts::{expect, was_sent};
use arrayvec::ArrayVec;
use sip_ports::{MemoryLink, MemorySink, MemorySource};
use sip_stream::{Form, Why};
use sip_vector::{Depth, Query, Side};
use sip_verifier::{Port, Status, Tables, Task, gather};
use std::alloc::Global;
use std::process::Abort;
use std::test::Fail;

// The opening of version 1 at depth 2.
const OPENING: [u8; 5] = [1, 0, 2, 1, 2];

// The opening, the updates (0, 0, 3), (0, 2, 5) and (0, 3, 1) in one frame, and the end of the
// stream.
const THREE_SENT: [u8; 52] = [
    1, 0, 2, 1, 2, 2, 0, 41, 0, 3, 0, 0, 0, 0, 0, 0, 0, 0, 0, 0, 0, 0, 3, 0, 0, 0, 0, 2, 0, 0, 0,
    0, 0, 0, 0, 5, 0, 0, 0, 0, 3, 0, 0, 0, 0, 0, 0, 0, 1, 3, 0, 0,
];

// The same three updates as records.
const THREE_RECORDS: [u8; 39] = [
    0, 0, 0, 0, 0, 0, 0, 0, 0, 0, 0, 0, 3, 0, 0, 0, 0, 2, 0, 0, 0, 0, 0, 0, 0, 5, 0, 0, 0, 0, 3, 0,
    0, 0, 0, 0, 0, 0, 1,
];

// A query over four items.
fn task(form: Form) -> Result<Task, Fail>
    ensures { IfOk result CanBeDone }
{
    let depth = Depth::new(2).ok_or("a depth")?;
    let mut queries = ArrayVec::new();
    queries.push(Query::Sub { lo: 1, hi: 2 });
    Ok(Task {
        depth,
        form,
        queries,
    })
}

// A run: its stream, the number of the seed's bytes, the calls of the stream, of the seed and of
// the link that fail, where 0 is none, what it answers in place of seats, and what is sent.
#[derive(Clone, Copy)]
struct Row<'a> {
    name: &'a str,
    form: Form,
    stream: &'a [u8],
    seed: usize,
    fails: (u64, u64, u64),
    want: Option<Status>,
    sent: &'a [u8],
}

impl Row<'_> {
    // How many bytes are kept: the head of a transcript once there are challenges.
    fn kept(&self) -> usize {
        match self.want {
            Some(Status::BadSeed | Status::ReadFault { port: Port::Second }) => 0,
            _ => 35,
        }
    }

    fn check(&self, rt: &impl Abort, alloc: Global, chunk: usize) -> Result<(), Fail>
        requires { 1 ≤ chunk }
    {
        let task = task(self.form)?;
        let stream = self.stream.to_vec(alloc).expect(rt, "memory");
        let seed = vec![in alloc; 7; self.seed].expect(rt, "memory");
        let fails = vec![in alloc; self.fails.0].expect(rt, "memory");
        let mut first = MemorySource::new(stream, chunk, fails);
        let fails = vec![in alloc; self.fails.1].expect(rt, "memory");
        let mut second = MemorySource::new(seed, 5, fails);
        let fails = vec![in alloc; self.fails.2].expect(rt, "memory");
        let mut peer = MemoryLink::new(alloc, Vec::new(alloc), chunk, fails);
        let mut keep = MemorySink::new(alloc, 10, Vec::new(alloc));
        // Nothing is gathered yet.
        let mut gathered = Err(Status::SeedSpent);
        gather(
            &task,
            &mut first,
            &mut second,
            &mut peer,
            &mut keep,
            &Tables::new(alloc),
            &mut gathered,
        );
        let facts = [
            gathered.err() == self.want,
            was_sent(&peer, self.sent),
            keep.bytes().len() == self.kept(),
        ];
        expect(rt, self.name, &facts);
        Ok(())
    }
}

// A stream, the record from which on it is not legal and why, and what is sent of it.
type Stream<'a> = (&'a str, Form, &'a [u8], Option<(u64, Why)>, &'a [u8]);

const STREAMS: [Stream<'static>; 8] = [
    (
        "three records",
        Form::Binary,
        &THREE_RECORDS,
        None,
        &THREE_SENT,
    ),
    (
        "three lines",
        Form::Text,
        b"0 0 3\n0 2 5\n0 3 1\n",
        None,
        &THREE_SENT,
    ),
    ("no line", Form::Text, b"", None, &[1, 0, 2, 1, 2, 3, 0, 0]),
    (
        "item 4",
        Form::Text,
        b"0 2 5\n0 4 1\n",
        Some((1, Why::BadItem)),
        &OPENING,
    ),
    (
        "delta 0",
        Form::Text,
        b"0 2 5\n0 2 0\n",
        Some((1, Why::ZeroDelta)),
        &OPENING,
    ),
    (
        "2^30 on the second side",
        Form::Text,
        b"0 2 5\n0 0 1\n1 0 -1073741824\n",
        Some((2, Why::TooHeavy(Side::Second))),
        &OPENING,
    ),
    (
        "a part of a line",
        Form::Text,
        b"0 2 5\n0 2",
        Some((1, Why::Truncated)),
        &OPENING,
    ),
    (
        "12 bytes",
        Form::Binary,
        &[0; 12],
        Some((0, Why::Truncated)),
        &OPENING,
    ),
];

fn check_streams(
    rt: &impl Abort,
    alloc: Global,
    streams: &[Stream],
    chunk: usize,
) -> Result<(), Fail>
    requires { 1 ≤ chunk }
{
    for &(name, form, stream, bad, sent) in streams {
        let row = Row {
            name,
            form,
            stream,
            seed: 32,
            fails: (0, 0, 0),
            want: bad.map(|(at, why)| Status::BadStream { at, why }),
            sent,
        };
        row.check(rt, alloc, chunk)?;
    }
    Ok(())
}

#[test]
fn streams_are_sent_as_far_as_they_are_legal(rt: HostRuntime) -> Result<(), Fail> {
    check_streams(&rt, rt.alloc(), &STREAMS, 1)?;
    check_streams(&rt, rt.alloc(), &STREAMS, 10_000)
}

const NO_STREAM: Option<Status> = Some(Status::ReadFault { port: Port::First });

const NO_SEED: Option<Status> = Some(Status::ReadFault { port: Port::Second });

// The number of the seed's bytes, the calls that fail, and what is answered and sent.
type Failing<'a> = (&'a str, usize, (u64, u64, u64), Option<Status>, &'a [u8]);

// What waits for a frame is not sent. A seed of too few bytes is refused before anything is said.
const FAILING: [Failing<'static>; 9] = [
    ("the first record", 32, (1, 0, 0), NO_STREAM, &OPENING),
    ("the second record", 32, (2, 0, 0), NO_STREAM, &OPENING),
    ("the seed", 32, (0, 1, 0), NO_SEED, &[]),
    ("the fourth piece of the seed", 32, (0, 4, 1), NO_SEED, &[]),
    ("the opening", 32, (0, 0, 1), Some(Status::PeerFault), &[]),
    (
        "the frame",
        32,
        (0, 0, 2),
        Some(Status::PeerFault),
        &OPENING,
    ),
    ("no seed", 0, (0, 0, 0), Some(Status::BadSeed), &[]),
    ("31 bytes", 31, (0, 0, 0), Some(Status::BadSeed), &[]),
    ("33 bytes", 33, (0, 0, 0), None, &THREE_SENT),
];

// Over three records, in pieces of 13 bytes.
fn check_failing(rt: &impl Abort, alloc: Global, failing: &[Failing]) -> Result<(), Fail> {
    for &(name, seed, fails, want, sent) in failing {
        let row = Row {
            name,
            form: Form::Binary,
            stream: &THREE_RECORDS,
            seed,
            fails,
            want,
            sent,
        };
        row.check(rt, alloc, 13)?;
    }
    Ok(())
}

#[test]
fn a_failing_port_is_named(rt: HostRuntime) -> Result<(), Fail> {
    check_failing(&rt, rt.alloc(), &FAILING)
}

// 513 lines of text, and what is sent of the first 512.
fn many(rt: &impl Abort, alloc: Global) -> (Vec<u8>, Vec<u8>) {
    let mut lines = Vec::new(alloc);
    let mut sent = OPENING.to_vec(alloc).expect(rt, "memory");
    sent.extend_from_slice(&[2, 26, 2, 2, 0])
        .expect(rt, "memory");
    for _ in 0..512 {
        lines.extend_from_slice(b"0 3 1\n").expect(rt, "memory");
        sent.extend_from_slice(&[0, 0, 0, 0, 3, 0, 0, 0, 0, 0, 0, 0, 1])
            .expect(rt, "memory");
    }
    lines.extend_from_slice(b"0 3 1\n").expect(rt, "memory");
    (lines, sent)
}

// 512 updates go out with the last of them, and the one behind them does not where no end comes.
#[test]
fn a_full_frame_goes_out_at_once(rt: HostRuntime) -> Result<(), Fail> {
    let (mut lines, sent) = many(&rt, rt.alloc());
    lines.extend_from_slice(b"0 4 1\n").expect(&rt, "memory");
    let (at, form) = (Some((513, Why::BadItem)), Form::Text);
    let stream: Stream = ("513 and item 4", form, &lines, at, &sent);
    check_streams(&rt, rt.alloc(), &[stream], 4096)
}

// The one behind them goes out with the end.
#[test]
fn the_last_update_goes_out_with_the_end(rt: HostRuntime) -> Result<(), Fail> {
    let (lines, mut sent) = many(&rt, rt.alloc());
    let rest = [
        2, 0, 15, 0, 1, 0, 0, 0, 0, 3, 0, 0, 0, 0, 0, 0, 0, 1, 3, 0, 0,
    ];
    sent.extend_from_slice(&rest).expect(&rt, "memory");
    let stream: Stream = ("513 lines", Form::Text, &lines, None, &sent);
    check_streams(&rt, rt.alloc(), &[stream], 4096)
}
