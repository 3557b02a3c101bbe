//! What is done with a sketch that is asked.

ghost use Rattle.std.specs.Prelude.{◌≡◌};
ghost use Rattle.sip_ask_steps.specs.Steps.{HasBegun};
ghost use Rattle.sip_ask_steps.specs.Steps.{wants_at};
ghost use Rattle.sip_c.specs.Asking.{Answers, Closes, Copies, Due, Ends, Feeds, Goes, Stored};
ghost use Rattle.sip_c.specs.Asking.{StoresTo, wants_number};

use crate::answers::{AnswerCode, EntryCode, copy, told_of};
use crate::ending::{Ending, answer_of, ending_of};
use crate::refusal::Refusal;
use crate::room::{MOST_DUE, Room};
use sip_ask_steps::{SketchAsking, Wants};

/// The number of what is wanted.
pub(crate) fn wants(machine: &SketchAsking) -> u8
    ensures { result ≡ wants_number (wants_at machine.now.step) }
{
    match machine.wants() {
        Wants::Due => 1,
        Wants::Waits => 2,
        Wants::Stores => 3,
        Wants::Answers => 4,
        Wants::Ended(_) => 5,
    }
}

/// Hands out the bytes that are due, and their number; the most that it may be where there is no
/// room for so many.
pub(crate) fn due(
    machine: &mut SketchAsking,
    to: &mut [u8],
    count: &mut usize,
) -> Result<(), Refusal>
    requires begun { HasBegun machine.old }
    ensures begun { HasBegun machine.new }
    ensures due { Due to.old to.new count.new machine.old result machine.new }
{
    if to.len() < MOST_DUE {
        *count = MOST_DUE;
        return Err(Refusal::NoRoom);
    }
    let mut out = Room::<MOST_DUE>::new();
    match machine.due(&mut out) {
        Ok(()) => {
            out.hand_out(to, count);
            Ok(())
        }
        Err(_) => {
            *count = MOST_DUE;
            Err(Refusal::NoRoom)
        }
    }
}

/// Takes bytes that came, and says how many.
pub(crate) fn feed(
    machine: &mut SketchAsking,
    bytes: &[u8],
    taken: &mut usize,
) -> Result<(), Refusal>
    requires begun { HasBegun machine.old }
    ensures begun { HasBegun machine.new }
    ensures fed { Feeds bytes.now taken.new machine.old result machine.new }
{
    *taken = machine.feed(bytes);
    Ok(())
}

/// The other end closed.
pub(crate) fn close(machine: &mut SketchAsking) -> Result<(), Refusal>
    requires begun { HasBegun machine.old }
    ensures begun { HasBegun machine.new }
    ensures closed { Closes machine.old result machine.new }
{
    machine.close();
    Ok(())
}

/// Writes the file that is to be stored to the front of a buffer, and its size.
pub(crate) fn to_store(
    machine: &SketchAsking,
    to: &mut [u8],
    size: &mut usize,
) -> Result<(), Refusal>
    ensures { StoresTo to.old to.new size.old size.new machine.now result machine.now }
{
    if machine.wants() != Wants::Stores {
        return Err(Refusal::NotNow);
    }
    let file = machine.to_store();
    let wanted = file.len();
    *size = wanted;
    if to.len() < wanted {
        return Err(Refusal::NoRoom);
    }
    to[..wanted].copy_from_slice(file);
    Ok(())
}

/// The file is stored.
pub(crate) fn stored(machine: &mut SketchAsking) -> Result<(), Refusal>
    requires begun { HasBegun machine.old }
    ensures begun { HasBegun machine.new }
    ensures stored { Stored machine.old result machine.new }
{
    if machine.wants() != Wants::Stores {
        return Err(Refusal::NotNow);
    }
    machine.stored();
    Ok(())
}

/// The answer was read.
pub(crate) fn next(machine: &mut SketchAsking) -> Result<(), Refusal>
    requires begun { HasBegun machine.old }
    ensures begun { HasBegun machine.new }
    ensures goes { Goes machine.old result machine.new }
{
    if machine.wants() != Wants::Answers {
        return Err(Refusal::NotNow);
    }
    machine.next();
    Ok(())
}

/// Tells how it ended, once it has.
pub(crate) fn ended(machine: &SketchAsking, told: &mut Ending) -> Result<(), Refusal>
    ensures { Ends told.old told.new machine.now result machine.now }
{
    match machine.wants() {
        Wants::Ended(status) => {
            *told = ending_of(status);
            answer_of(status)
        }
        _ => Err(Refusal::NotNow),
    }
}

/// Tells the answer to the question at hand.
pub(crate) fn answer(machine: &SketchAsking, told: &mut AnswerCode) -> Result<(), Refusal>
    ensures { Answers told.old told.new machine.now result machine.now }
{
    let Some((number, given)) = machine.answer() else {
        return Err(Refusal::NotNow);
    };
    *told = told_of(number, machine.pairs().len(), given);
    Ok(())
}

/// Copies pairs of the answer from a place on.
pub(crate) fn pairs(
    machine: &SketchAsking,
    from: usize,
    to: &mut [EntryCode],
    count: &mut usize,
) -> Result<(), Refusal>
    ensures { Copies from to.old to.new count.old count.new machine.now result machine.now }
{
    *count = copy(machine.pairs(), from, to);
    Ok(())
}
