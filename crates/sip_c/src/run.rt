//! A run while its stream goes by.

ghost use Rattle.std.specs.Prelude.{◌≡◌, ◌∷◌, [], IfErr, IfOk, false, true};
ghost use Rattle.sip_runs.specs.Runs.{HasBegun, is_taking};
ghost use Rattle.sip_c.specs.Codes.{HasSide, update_of};
ghost use Rattle.sip_c.specs.Runs.{ComesToRun, Hears, IsBadBehind, RunDue, RunEnds, RunFeeds};
ghost use Rattle.sip_c.specs.Runs.{StandsAgainstRun, refusal_for, run_wants};

use crate::beginning::{SEED, seed_of};
use crate::codes::{Codes, UpdateCode};
use crate::ending::{Ending, about};
use crate::questions::{QuestionCode, questions_of};
use crate::refusal::Refusal;
use crate::room::{MOST_FRAME, Room};
use sip_runs::{Following, RunStart};
use sip_stream::Why;
use sip_vector::Depth;
use sip_wire::MOST_QUERIES;
use std::alloc::Global;

/// The run of these questions, as they are asked by numbers, before anything was said.
pub(crate) fn begin(
    alloc: Global,
    seed: &[u8],
    depth: u8,
    codes: &[QuestionCode],
    told: &mut Ending,
) -> Result<Following, Refusal>
    ensures run { IfOk result (λ f. ComesToRun (record {
      seed = seed.now;
      depth = depth;
      codes = codes.now;
    }) (Ok f)) }
    ensures begun { IfOk result HasBegun }
    ensures unwritten { IfOk result (λ _. told.new ≡ told.old) }
    ensures why { IfErr result (StandsAgainstRun (record {
      seed = seed.now;
      depth = depth;
      codes = codes.now;
    }) told.old told.new) }
{
    if seed.len() != SEED || codes.is_empty() || codes.len() > MOST_QUERIES {
        return Err(Refusal::BadLength);
    }
    let Some(depth) = Depth::new(depth) else {
        return Err(Refusal::BadDepth);
    };
    let Some(questions) = questions_of(codes) else {
        return Err(Refusal::BadCode);
    };
    match Following::begin(alloc, depth, &questions, &seed_of(seed)) {
        Ok(following) => Ok(following),
        Err(RunStart::Count) => Err(Refusal::BadLength),
        Err(RunStart::Unfit(number)) => {
            *told = about(number);
            Err(Refusal::Unfit)
        }
        Err(RunStart::SeedSpent) => Err(Refusal::SeedSpent),
        Err(RunStart::OutOfMemory) => Err(Refusal::NoMemory),
    }
}

/// The number of what is wanted.
pub(crate) fn wants(run: &Following) -> u8
    ensures { result ≡ run_wants run.now }
{
    if run.is_due() {
        1
    } else if run.is_taking() {
        6
    } else {
        7
    }
}

/// Hands out the bytes that are due, and their number; the most that it may be where there is no
/// room for so many.
pub(crate) fn due(run: &mut Following, to: &mut [u8], count: &mut usize) -> Result<(), Refusal>
    requires begun { HasBegun run.old }
    ensures begun { HasBegun run.new }
    ensures due { RunDue to.old to.new count.new run.old result run.new }
{
    if to.len() < MOST_FRAME {
        *count = MOST_FRAME;
        return Err(Refusal::NoRoom);
    }
    let mut out = Room::<MOST_FRAME>::new();
    match run.due(&mut out) {
        Ok(()) => {
            out.hand_out(to, count);
            Ok(())
        }
        Err(_) => {
            *count = MOST_FRAME;
            Err(Refusal::NoRoom)
        }
    }
}

// The refusal of an update for a reason. Those of records as lines are met by none.
fn refusal_of(why: Why) -> Refusal
    ensures { result ≡ refusal_for why }
{
    match why {
        Why::BadSide => Refusal::BadSide,
        Why::BadItem => Refusal::BadItem,
        Why::ZeroDelta => Refusal::ZeroDelta,
        Why::TooHeavy(_) => Refusal::TooHeavy,
        Why::Truncated | Why::BadLine => Refusal::BadLength,
    }
}

// Takes an update, and answers whether it did.
fn take(run: &mut Following, code: &UpdateCode) -> Result<bool, Refusal>
    requires begun { HasBegun run.old }
    ensures begun { HasBegun run.new }
    ensures side { IfOk result (λ _. HasSide code.now) }
    ensures came { IfOk result (λ did. did ≡ true
        → Hears run.old (update_of code.now ∷ []) run.new) }
    ensures stays { IfOk result (λ did. did ≡ false → Hears run.old [] run.new) }
    ensures full { IfOk result (λ did. did ≡ false → is_taking run.new.step ≡ false) }
    ensures bad { IfErr result (λ why. Hears run.old [] run.new
        × IsBadBehind run.old [] code.now why) }
{
    if !code.has_side() {
        return Err(Refusal::BadSide);
    }
    match run.feed(&[code.update()]) {
        Ok(taken) => Ok(taken == 1),
        Err(bad) => Err(refusal_of(bad.why)),
    }
}

/// Takes updates of the stream, and tells how many.
pub(crate) fn feed<C: Codes>(
    run: &mut Following,
    codes: &C,
    taken: &mut usize,
) -> Result<(), Refusal>
    requires begun { HasBegun run.old }
    ensures begun { HasBegun run.new }
    ensures feeds { RunFeeds (C.codes codes.now) taken.new run.old result run.new }
{
    *taken = 0;
    for place in 0..codes.count() {
        *taken = place;
        if !take(run, &codes.at(place))? {
            return Ok(());
        }
    }
    *taken = codes.count();
    Ok(())
}

/// The stream ends.
pub(crate) fn end(run: &mut Following) -> Result<(), Refusal>
    requires begun { HasBegun run.old }
    ensures begun { HasBegun run.new }
    ensures ends { RunEnds run.old result run.new }
{
    if !run.is_taking() {
        return Err(Refusal::NotNow);
    }
    run.end();
    Ok(())
}
