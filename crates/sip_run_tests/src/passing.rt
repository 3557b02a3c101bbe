//! A run that is handed its stream.
ghost use Rattle.std.specs.Prelude.{IfOk};
ghost use Rattle.sip_runs.specs.Runs.{HasBegun};

use crate::whole_run::ended;
use sip_field::{Field, M61};
use sip_ports::MemorySink;
use sip_questions::Question;
use sip_runs::{Following, ToAsk};
use sip_vector::{Depth, Query, Update};
use std::alloc::Global;
use std::test::Fail;

// Hands updates over, of four frames at most, and sends what is due.
pub(crate) fn pass(
    following: &mut Following,
    updates: &[Update],
    out: &mut MemorySink,
) -> Result<usize, Fail>
    requires begun { HasBegun following.old }
    ensures begun { HasBegun following.new }
{
    let mut taken = 0;
    for _turn in 0..4 {
        following.due(out)?;
        let count = following.feed(&updates[taken..])?;
        taken += count;
    }
    following.due(out)?;
    Ok(taken)
}

// The run of the query for the entries 1 to 2 at the challenges (2, 10), before anything was said.
pub(crate) fn begun(alloc: Global) -> Result<Following, Fail>
    ensures { IfOk result HasBegun }
{
    let questions = [Question::Query(Query::Sub { lo: 1, hi: 2 })];
    let challenges = [M61::of(2), M61::of(10)];
    Ok(Following::given(alloc, Depth::new(2).unwrap(), &questions, &challenges)?)
}

// What a run over a stream in these pieces sends, and what it has to ask behind it.
pub(crate) fn followed(
    alloc: Global,
    pieces: &[&[Update]],
    out: &mut MemorySink,
) -> Result<Option<ToAsk>, Fail> {
    let mut following = begun(alloc)?;
    for piece in pieces {
        pass(&mut following, piece, out)?;
    }
    ended(following, out)
}
