//! Questions that are asked of replies in memory, by what is kept of a vector.

ghost use Rattle.std.specs.Prelude.{All, IfOk, IfSome, IsTrue, ◌≡◌, ◌≤◌, length};
ghost use Rattle.sip_verifier.specs.QuerySeats.{keeps};
ghost use Rattle.sip_verifier.specs.Running.{block_of, numbers_of};
ghost use Rattle.sip_wire.specs.Table.{most_queries};
ghost use Rattle.sip_wire.specs.Versions.{deepest};
ghost use Rattle.sip_questions.specs.Sittings.{CanAsk};

use sip_check_tests::events::sent_in;
use sip_field::{Field, M61, Seat};
use sip_mle::Point;
use sip_ports::{MemoryLink, MemorySink};
use sip_questions::{Question, QuestionAsker, QuestionSeat};
use sip_tree::{AugRoot, Root, SplitRoot};
use sip_vector::{CAP, Depth, Query};
use sip_verifier::{Points, Running, Status, Weights, conclude_run};
use sip_wire::Version;
use std::alloc::Global;
use std::test::Fail;

// A side's weight, and the sum of its numbers, is at most this here.
const MOST_TOTAL: u32 = 1 << 20;

/// What is kept of the vector of side 0 at a block of challenges: its root, its extension, the hash
/// of its augmented root, and the sum of its numbers, of which none is below 0; and the extension
/// of the vector of side 1. Where large entries are asked for, the hash is that of its split root,
/// and the sum that of the weights.
#[derive(Clone, Copy)]
pub struct Numbers {
    pub root: M61,
    pub extension: M61,
    pub hash: M61,
    pub total: u32,
    pub second: M61,
}

/// What came of a run: how it ended, what was sent, and the lines.
#[derive(Drop)]
pub struct Outcome {
    pub ended: Result<(), Status>,
    pub sent: Vec<u8>,
    pub lines: Vec<u8>,
}

// The numbers by which a query is judged.
fn running_of(query: &Query, seat: Seat<M61, CAP>, numbers: &Numbers) -> Option<Running>
    ensures keeps { IfSome result (λ running. IsTrue (keeps query.now (numbers_of running))) }
    ensures block { IfSome result (λ running. block_of running ≡ seat) }
{
    match query {
        Query::Sub { .. } => Some(Running::Root(Root::of(seat, numbers.root.number()))),
        Query::Range { .. } | Query::F2 { .. } => {
            Some(Running::Point(Point::of(seat, numbers.extension.number())))
        }
        Query::Inner => Some(Running::Points(Points {
            first: Point::of(seat, numbers.extension.number()),
            second: numbers.second,
        })),
        Query::Heavy { .. } | Query::Share { .. } if numbers.total <= MOST_TOTAL => {
            Some(Running::AugRoot(AugRoot::of(
                seat,
                numbers.hash.number(),
                i64::from(numbers.total),
            )))
        }
        Query::Above { .. } if numbers.total <= MOST_TOTAL => {
            Some(Running::SplitRoot(SplitRoot {
                seat,
                hash: numbers.hash.number(),
                weight: u64::from(numbers.total),
            }))
        }
        _ => None,
    }
}

// The seat of a question by these numbers.
fn seat_of(
    version: Version,
    depth: Depth,
    block: &[M61],
    numbers: &Numbers,
    question: Question,
) -> Option<QuestionSeat>
    ensures { IfSome result (CanAsk version depth) }
{
    if !question.can_pose(version, depth) {
        return None;
    }
    let seat = Seat::of(block)?;
    if seat.depth() != usize::from(depth.get()) {
        return None;
    }
    let running = running_of(&question.query_like(), seat, numbers)?;
    Some(QuestionSeat::of(question, running))
}

// The seats of a few questions.
fn seats_of(
    alloc: Global,
    version: Version,
    depth: Depth,
    block: &[M61],
    numbers: &Numbers,
    questions: &[Question],
) -> Result<Vec<QuestionSeat>, Fail>
    requires { length questions.now ≤ most_queries }
    ensures few { IfOk result (λ seats. length seats.items ≤ most_queries) }
    ensures can { IfOk result (λ seats. All (CanAsk version depth) seats.items) }
{
    let mut seats = Vec::new(alloc);
    for question in questions {
        let Some(seat) = seat_of(version, depth, block, numbers, *question) else {
            break;
        };
        seats.push(seat)?;
    }
    Ok(seats)
}

/// Asks these questions at a block of challenges, all at the same, of a helper that replies so, in
/// pieces of that size. Questions that can't be asked, and those behind them, are left out.
pub fn asked(
    alloc: Global,
    version: Version,
    depth: Depth,
    block: &[M61],
    numbers: &Numbers,
    questions: &[Question],
    replies: Vec<u8>,
    chunk: usize,
) -> Result<Outcome, Fail>
    requires few { length questions.now ≤ most_queries }
    requires shallow { depth ≤ deepest version }
    requires chunk { 1 ≤ chunk }
{
    let weights = Weights {
        first: u64::from(numbers.total),
        second: 0,
    };
    let seats = seats_of(alloc, version, depth, block, numbers, questions)?;
    let mut link = MemoryLink::new(alloc, replies, chunk, Vec::new(alloc));
    let mut report = MemorySink::new(alloc, chunk, Vec::new(alloc));
    let mut keep = MemorySink::new(alloc, chunk, Vec::new(alloc));
    let ended = match QuestionAsker::new(alloc, version, depth, seats, &weights) {
        Ok(mut asker) => conclude_run(&mut asker, &mut link, &mut report, &mut keep),
        Err(status) => Err(status),
    };
    let sent = sent_in(alloc, link.talk())?;
    let lines = report.bytes().to_vec(alloc)?;
    Ok(Outcome { ended, sent, lines })
}
