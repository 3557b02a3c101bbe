//! A run of a verifier, its stream and its replies in pieces.
ghost use Rattle.std.specs.Prelude.{◌≡◌, ◌≤◌, None, false};
ghost use Rattle.sip_runs.specs.Runs.{HasBegun};
ghost use Rattle.sip_run_tests.specs.Left.{AreLeft};
ghost use Rattle.sip_steps.specs.Questioned.{HasBegun as HasBegunQuestion};

use crate::held::Held;
use crate::lines::{write_answer, write_rejection};
use crate::sizes::Sizes;
use sip_field::OutOfMemory;
use sip_ports::{Link, Sink, Source};
use sip_questions::Question;
use sip_run_tests::whole_run::next_asking;
use sip_runs::{BadUpdate, Following, RunStart, ToAsk};
use sip_steps::QuestionAsking;
use sip_stream::{Form, Reader, StreamFault};
use sip_vector::{Depth, Update};
use sip_verifier::{Port, Status, Unanswered, on_link, on_report};
use std::alloc::Global;

// How many records are handed over at a time, at most.
const MOST: usize = 16;

/// What is asked of a stream in this form, over 2^depth items.
#[derive(Drop)]
pub(crate) struct Asked {
    pub(crate) depth: Depth,
    pub(crate) form: Form,
    pub(crate) questions: Vec<Question>,
}

fn status_of_start(start: RunStart) -> Status {
    match start {
        RunStart::Count | RunStart::Unfit(_) => Status::Usage { word: 0 },
        RunStart::SeedSpent => Status::SeedSpent,
        RunStart::OutOfMemory => Status::OutOfMemory,
    }
}

fn status_of_stream(fault: StreamFault) -> Status {
    match fault {
        StreamFault::Bad { at, why } => Status::BadStream { at, why },
        StreamFault::ReadFault => Status::ReadFault { port: Port::First },
        StreamFault::OutOfMemory => Status::OutOfMemory,
    }
}

// Hands a piece of the stream over, no longer than a frame, and sends what is due.
fn hand_over<L: Link>(
    following: &mut Following,
    updates: &[Update],
    link: &mut L,
) -> Result<(), Status>
    requires { HasBegun following.old }
    ensures { HasBegun following.new }
{
    let mut taken = 0;
    for _frame in 0..3 {
        on_link(following.due(link))?;
        match following.feed(&updates[taken..]) {
            Ok(count) => taken += count,
            Err(BadUpdate { at, why }) => return Err(Status::BadStream { at, why }),
        }
    }
    on_link(following.due(link))
}

// Reads so many records at most to the front of a block, and what stopped it: the end of the
// stream, or a fault.
fn read_some<A: Source>(
    reader: &mut Reader,
    first: &mut A,
    block: &mut [Update; MOST],
    most: usize,
) -> (usize, Option<Result<(), Status>>)
    requires few { most ≤ 16 }
    requires ready { reader.old.is_spent ≡ false }
    ensures few { result.0 ≤ 16 }
    ensures ready { result.1 ≡ None → reader.new.is_spent ≡ false }
{
    for count in 0..most {
        match reader.next(first) {
            Ok(Some(update)) => block[count] = update,
            Ok(None) => return (count, Some(Ok(()))),
            Err(fault) => return (count, Some(Err(status_of_stream(fault)))),
        }
    }
    (most, None)
}

// Hands the whole stream over, and sends what is due.
fn follow<A: Source, L: Link>(
    following: &mut Following,
    depth: Depth,
    form: Form,
    first: &mut A,
    link: &mut L,
    sizes: &mut Sizes,
) -> Result<(), Status>
    requires { HasBegun following.old }
    ensures { HasBegun following.new }
{
    let mut reader = Reader::new(depth, form);
    let mut block = [Update::default(); MOST];
    on_link(following.due(link))?;
    for _piece in 0..u64::MAX {
        let (count, end) = read_some(&mut reader, first, &mut block, sizes.next());
        hand_over(following, &block[..count], link)?;
        if let Some(ended) = end {
            ended?;
            if !following.is_taking() {
                return Err(Status::PeerFault);
            }
            following.end();
            return on_link(following.due(link));
        }
    }
    Err(Status::PeerFault)
}

// Passes the bytes of one question, until it has a verdict.
fn exchange<L: Link>(
    asking: &mut QuestionAsking,
    held: &mut Held,
    link: &mut L,
    sizes: &mut Sizes,
) -> Result<(), Status>
    requires { HasBegunQuestion asking.old }
{
    for _piece in 0..u64::MAX {
        on_link(asking.due(link))?;
        if !asking.is_waiting() {
            return Ok(());
        }
        match held.fill(link, sizes.next()) {
            Ok(true) => asking.close(),
            Ok(false) => {
                let count = asking.feed(held.bytes());
                held.taken(count);
            }
            Err(stop) => return on_link(Err(stop)),
        }
    }
    Ok(())
}

// Asks one question, which has this number, and writes the line of its verdict.
fn ask_one<L: Link, K: Sink>(
    alloc: Global,
    asking: &mut QuestionAsking,
    number: u8,
    held: &mut Held,
    link: &mut L,
    report: &mut K,
    sizes: &mut Sizes,
) -> Result<(), Status>
    requires { HasBegunQuestion asking.old }
{
    exchange(asking, held, link, sizes)?;
    match asking.verdict() {
        Some(Ok(given)) => on_report(write_answer(report, &given, asking.pairs())),
        Some(Err(Unanswered::Rejected { round, reason })) => {
            on_report(write_rejection(alloc, report, number, round, reason))?;
            Err(Status::Rejected {
                query: number,
                round,
                reason,
            })
        }
        _ => Err(Status::PeerFault),
    }
}

// Asks all questions, and says farewell.
fn ask_all<L: Link, K: Sink>(
    alloc: Global,
    to_ask: &mut ToAsk,
    link: &mut L,
    report: &mut K,
    sizes: &mut Sizes,
) -> Result<(), Status>
    requires { AreLeft to_ask.old }
{
    let mut held = Held::new();
    for number in 1..=16 {
        let mut asking = match next_asking(alloc, to_ask) {
            Ok(Some(asking)) => asking,
            Ok(None) => break,
            Err(OutOfMemory) => return Err(Status::OutOfMemory),
        };
        ask_one(alloc, &mut asking, number, &mut held, link, report, sizes)?;
    }
    on_link(to_ask.say_farewell(link))
}

/// Follows a stream, and asks questions of it at the challenges of a seed.
pub(crate) fn run<A: Source, L: Link, K: Sink>(
    alloc: Global,
    asked: &Asked,
    seed: &[u8; 32],
    first: &mut A,
    link: &mut L,
    report: &mut K,
    sizes: &mut Sizes,
) -> Result<(), Status> {
    let mut following = match Following::begin(alloc, asked.depth, &asked.questions, seed) {
        Ok(following) => following,
        Err(start) => return Err(status_of_start(start)),
    };
    follow(&mut following, asked.depth, asked.form, first, link, sizes)?;
    if !following.is_ended() {
        return Err(Status::PeerFault);
    }
    let mut to_ask = following.into_questions()?;
    ask_all(alloc, &mut to_ask, link, report, sizes)
}
