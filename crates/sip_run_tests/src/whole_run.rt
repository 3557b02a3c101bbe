//! A run and a helper that pass each other their bytes in pieces of many sizes, from the stream's
//! first update to the farewell.
ghost use Rattle.std.specs.Prelude.{IfOk, IfSome, not};
ghost use Rattle.sip_questions.specs.Serving.{question_rules};
ghost use Rattle.sip_questions.specs.inside.Keeping.{questions_left};
ghost use Rattle.sip_runs.specs.Runs.{HasBegun as HasBegunRun};
ghost use Rattle.sip_steps.specs.Questioned.{HasBegun as HasBegunQuestion};
ghost use Rattle.sip_steps.specs.Served.{HasBegun};
ghost use Rattle.sip_run_tests.specs.Left.{AreLeft};

use sip_check_tests::sizes::{Sizes, piece_of};
use sip_field::OutOfMemory;
use sip_helper::HelpStatus;
use sip_ports::MemorySink;
use sip_question_tests::kinds::{KINDS, wanted};
use sip_questions::QuestionCore;
use sip_runs::{Following, ToAsk};
use sip_step_tests::ends::{exchange, said_of};
use sip_steps::{QuestionAsking, Serving};
use sip_vector::{Depth, Side, Update};
use std::alloc::Global;
use std::test::Fail;

fn update(item: u64, delta: i64) -> Update {
    let side = Side::First;
    Update { side, item, delta }
}

// A stream of the vector (3, 0, 5, 1) in two frames: an entry comes and goes 300 times before.
fn stream(alloc: Global) -> Result<Vec<Update>, Fail> {
    let mut stream = Vec::new(alloc);
    for _time in 0..300 {
        stream.push(update(1, 1))?;
        stream.push(update(1, -1))?;
    }
    for (item, delta) in [(0, 3), (2, 5), (3, 1)] {
        stream.push(update(item, delta))?;
    }
    Ok(stream)
}

// The run of a question of each kind at the challenges of a seed, before anything was said.
fn begun(alloc: Global, seed: &[u8; 32]) -> Result<Following, Fail>
    ensures { IfOk result HasBegunRun }
{
    let mut questions = Vec::new(alloc);
    for kind in &KINDS {
        questions.push(kind.question)?;
    }
    Ok(Following::begin(alloc, Depth::new(2).unwrap(), &questions, seed)?)
}

// Hands a stream of two frames over in pieces of these sizes, and sends what is due.
fn hand_over(
    following: &mut Following,
    stream: &[Update],
    out: &mut MemorySink,
    sizes: &mut Sizes,
) -> Result<(), Fail>
    requires { HasBegunRun following.old }
    ensures { HasBegunRun following.new }
{
    let mut taken = 0usize;
    for _turn in 0..700 {
        following.due(out)?;
        let rest = if taken < stream.len() {
            &stream[taken..]
        } else {
            &[]
        };
        let count = following.feed(&rest[..sizes.next().min(rest.len())])?;
        taken = taken.saturating_add(count);
    }
    Ok(())
}

// Passes what a run said of such a stream on to a helper in pieces of these sizes.
fn pass_on(
    serving: &mut Serving<QuestionCore>,
    said: &[u8],
    out: &mut MemorySink,
    sizes: &mut Sizes,
)
    requires { HasBegun question_rules questions_left (λ s. not s.helper.spent) serving.old }
    ensures { HasBegun question_rules questions_left (λ s. not s.helper.spent) serving.new }
{
    let mut passed = 0usize;
    for _turn in 0..9000 {
        let count = serving.feed(piece_of(said, passed, sizes.next()), out);
        passed = passed.saturating_add(count);
    }
}

/// What a run has to ask behind the updates that it was handed, once it has sent the rest of them.
pub(crate) fn ended(mut following: Following, out: &mut MemorySink) -> Result<Option<ToAsk>, Fail>
    requires { HasBegunRun following }
    ensures { IfOk result (λ to_ask. IfSome to_ask AreLeft) }
{
    if !following.is_taking() {
        return Ok(None);
    }
    following.end();
    following.due(out)?;
    if !following.is_ended() {
        return Ok(None);
    }
    Ok(Some(following.into_questions()?))
}

/// The next question, before anything was said.
pub fn next_asking(alloc: Global, to_ask: &mut ToAsk) -> Result<Option<QuestionAsking>, OutOfMemory>
    requires { AreLeft to_ask.old }
    ensures left { AreLeft to_ask.new }
    ensures begun { IfOk result (λ asking. IfSome asking HasBegunQuestion) }
{
    let Some(seat) = to_ask.next() else {
        return Ok(None);
    };
    let question = seat.question();
    Ok(Some(QuestionAsking::begin(
        alloc,
        to_ask.version(),
        to_ask.depth(),
        question,
        seat.into_running(),
    )?))
}

// The lines of all answers in a run, and how the helper's talk ended.
fn talked(
    alloc: Global,
    seed: &[u8; 32],
    sizes: &mut Sizes,
) -> Result<(Vec<u8>, Option<HelpStatus>), Fail> {
    let mut said = MemorySink::new(alloc, 100, Vec::new(alloc));
    let mut replies = MemorySink::new(alloc, 100, Vec::new(alloc));
    let mut lines = Vec::new(alloc);
    let mut serving = Serving::begin(alloc, QuestionCore::new(alloc))?;
    let mut following = begun(alloc, seed)?;
    hand_over(&mut following, &stream(alloc)?, &mut said, sizes)?;
    let Some(mut to_ask) = ended(following, &mut said)? else {
        return Ok((lines, None));
    };
    pass_on(&mut serving, said.bytes(), &mut replies, sizes);
    for _question in 0..8 {
        let Some(mut asking) = next_asking(alloc, &mut to_ask)? else {
            break;
        };
        exchange(alloc, &mut asking, &mut serving, sizes)?;
        if let Some(Ok(line)) = said_of(alloc, &asking)? {
            lines.extend_from_slice(&line)?;
        }
    }
    let mut bye = MemorySink::new(alloc, 100, Vec::new(alloc));
    to_ask.say_farewell(&mut bye)?;
    pass_on(&mut serving, bye.bytes(), &mut replies, sizes);
    Ok((lines, serving.status()))
}

/// Whether a run at the challenges of a seed, in pieces of these sizes, has an answer of each kind,
/// and the helper has served its talk.
pub fn is_answered(alloc: Global, seed: &[u8; 32], mut sizes: Sizes) -> Result<[bool; 2], Fail> {
    let (lines, status) = talked(alloc, seed, &mut sizes)?;
    let (_said, all) = wanted(alloc, &KINDS.each_ref())?;
    Ok([lines == all, status == Some(HelpStatus::Served)])
}
