// Questions of every kind that are driven by hand, over the vector (3, 0, 5, 1) at the challenges 2
// and 10, and for large entries over (0, 5, -9, 3) with the weights (0, 5, 9, 5).
ghost use Rattle.std.specs.Prelude.{◌≡◌, IfOk, IfSome, IsTrue};
ghost use Rattle.sip_verifier.specs.QuerySeats.{keeps};
ghost use Rattle.sip_verifier.specs.Running.{block_of, numbers_of};
ghost use Rattle.sip_steps.specs.Questioned.{HasBegun};

use crate::ends::said_of;
use sip_check_tests::events::sent_in;
use sip_field::{Field, M61, Seat};
use sip_mle::Point;
use sip_ports::{MemoryLink, PortStop};
use sip_questions::Question;
use sip_steps::QuestionAsking;
use sip_tree::{AugRoot, Root, SplitRoot};
use sip_vector::{CAP, Depth, Query};
use sip_verifier::{Running, Unanswered};
use sip_wire::Version;
use std::alloc::Global;
use std::test::Fail;

// The numbers that a query is judged by, at these challenges: of that vector the root is 73, the
// extension -3, and the augmented root 8739 with the total 9; of the other one the split root is
// 20210 with the weight 19.
fn running_of(query: &Query, seat: Seat<M61, CAP>) -> Option<Running>
    ensures keeps { IfSome result (λ running. IsTrue (keeps query.now (numbers_of running))) }
    ensures block { IfSome result (λ running. block_of running ≡ seat) }
{
    match query {
        Query::Sub { .. } => Some(Running::Root(Root::of(seat, 73))),
        Query::Range { .. } | Query::F2 { .. } => {
            Some(Running::Point(Point::of(seat, (1 << 61) - 4)))
        }
        Query::Heavy { .. } => Some(Running::AugRoot(AugRoot::of(seat, 8739, 9))),
        Query::Above { .. } => Some(Running::SplitRoot(SplitRoot {
            seat,
            hash: 20_210,
            weight: 19,
        })),
        _ => None,
    }
}

// The version in which a question has a spelling.
fn version_of(question: &Question) -> Version {
    match question {
        Question::Large(_) => Version::Two,
        _ => Version::One,
    }
}

// A question, before anything was said; none that cannot be asked.
pub(crate) fn begun(alloc: Global, question: Question) -> Result<Option<QuestionAsking>, Fail>
    ensures { IfOk result (λ asking. IfSome asking HasBegun) }
{
    let Some(depth) = Depth::new(2) else {
        return Ok(None);
    };
    let version = version_of(&question);
    if !question.can_pose(version, depth) {
        return Ok(None);
    }
    let Some(seat) = Seat::of(&[M61::of(2), M61::of(10)]) else {
        return Ok(None);
    };
    let Some(running) = running_of(&question.query_like(), seat) else {
        return Ok(None);
    };
    Ok(Some(QuestionAsking::begin(alloc, version, depth, question, running)?))
}

// Feeds bytes, and sends what is due whenever something is. Answers how many bytes were taken.
fn pass(asking: &mut QuestionAsking, bytes: &[u8], link: &mut MemoryLink) -> Result<usize, PortStop>
    requires begun { HasBegun asking.old }
    ensures begun { HasBegun asking.new }
{
    let mut taken = 0;
    asking.due(link)?;
    while taken < bytes.len() {
        let count = asking.feed(&bytes[taken..]);
        if count == 0 {
            return Ok(taken);
        }
        taken += count;
        asking.due(link)?;
    }
    Ok(taken)
}

// What came of a question: the line of its answer, or why it has none; how many bytes were taken,
// and what was sent.
#[derive(Drop)]
pub(crate) struct Outcome {
    pub(crate) line: Option<Result<Vec<u8>, Unanswered>>,
    pub(crate) taken: usize,
    pub(crate) sent: Vec<u8>,
}

// Asks a question of an other end that says these pieces, and then closes or not.
pub(crate) fn asked(
    alloc: Global,
    question: Question,
    pieces: &[&[u8]],
    closes: bool,
) -> Result<Option<Outcome>, Fail> {
    let Some(mut asking) = begun(alloc, question)? else {
        return Ok(None);
    };
    let mut link = MemoryLink::new(alloc, Vec::new(alloc), 3, Vec::new(alloc));
    let mut taken = pass(&mut asking, &[], &mut link)?;
    for piece in pieces {
        taken = taken.saturating_add(pass(&mut asking, piece, &mut link)?);
    }
    if closes {
        asking.close();
    }
    Ok(Some(Outcome {
        line: said_of(alloc, &asking)?,
        taken,
        sent: sent_in(alloc, link.talk())?,
    }))
}
