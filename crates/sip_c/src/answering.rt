//! The calls by which a sketch that is asked goes on from question to question: its file is stored,
//! its answers are read, and how it ended is told.

ghost use Rattle.std.specs.Prelude.{◌≡◌, Some};
ghost use Rattle.sip_c.specs.Asking.{Answers, Copies, Ends, Goes, Stored, StoresTo};
ghost use Rattle.sip_c.specs.Handles.{IsBegun, OnAsking, ThroughAsking};
ghost use Rattle.sip_c.specs.RunAsking.{NotStored, RunAskingAnswers, RunAskingCopies};
ghost use Rattle.sip_c.specs.RunAsking.{RunAskingEnds, RunGoes};
ghost use Rattle.sip_c.specs.Statuses.{IsNumberOf};

use crate::answers::{AnswerCode, EntryCode};
use crate::asker;
use crate::ending::Ending;
use crate::handle::Handle;
use crate::kept::Kept;
use crate::refusal::{Refusal, status_of};
use std::alloc::Global;

// ---- the file that is to be stored

fn to_store_kept(kept: &Kept, to: &mut [u8], size: &mut usize) -> Result<(), Refusal>
    ensures { OnAsking ((to.new ≡ to.old) × (size.new ≡ size.old)) (StoresTo to.old to.new
        size.old size.new) (NotStored ((to.new ≡ to.old) × (size.new ≡ size.old))) kept.now result
        kept.now }
{
    match kept {
        Kept::Asking(machine) => asker::to_store(machine, to, size),
        Kept::RunAsking(_) => Err(Refusal::NotNow),
        _ => Err(Refusal::OtherHandle),
    }
}

fn to_store_in(
    alloc: Global,
    handle: &mut Handle,
    to: &mut [u8],
    size: &mut usize,
) -> Result<(), Refusal>
    requires begun { IsBegun handle.old.spot.held }
    ensures begun { IsBegun handle.new.spot.held }
    ensures does { ThroughAsking ((to.new ≡ to.old) × (size.new ≡ size.old)) (StoresTo to.old
        to.new size.old size.new) (NotStored ((to.new ≡ to.old) × (size.new ≡ size.old)))
        handle.old.spot.held result handle.new.spot.held }
{
    let Some(kept) = handle.take(alloc) else {
        return Err(Refusal::Empty);
    };
    let did = to_store_kept(&*kept, to, size);
    handle.put(alloc, kept);
    did
}

/// Writes the file that is to be stored, with the next question's seat used, to the front of a
/// buffer, and its size; the size alone where there is less room.
#[unsafe(no_mangle)]
pub extern "C" fn sip_asking_to_store(
    alloc: Global,
    asking: &mut Handle,
    to: &mut [u8],
    size: &mut usize,
) -> u32
    requires begun { IsBegun asking.old.spot.held }
    ensures begun { IsBegun asking.new.spot.held }
    ensures does { IsNumberOf result (λ did. ThroughAsking ((to.new ≡ to.old) × (size.new ≡
        size.old)) (StoresTo to.old to.new size.old size.new) (NotStored ((to.new ≡ to.old) ×
        (size.new ≡ size.old))) asking.old.spot.held did asking.new.spot.held) }
{
    status_of(to_store_in(alloc, asking, to, size))
}

// ---- that it is stored

fn stored_kept(kept: &mut Kept) -> Result<(), Refusal>
    requires begun { IsBegun (Some kept.old) }
    ensures begun { IsBegun (Some kept.new) }
    ensures does { OnAsking (Unit {0}) Stored (NotStored (Unit {0})) kept.old result kept.new }
{
    match kept {
        Kept::Asking(machine) => asker::stored(machine),
        Kept::RunAsking(_) => Err(Refusal::NotNow),
        _ => Err(Refusal::OtherHandle),
    }
}

fn stored_in(alloc: Global, handle: &mut Handle) -> Result<(), Refusal>
    requires begun { IsBegun handle.old.spot.held }
    ensures begun { IsBegun handle.new.spot.held }
    ensures does { ThroughAsking (Unit {0}) Stored (NotStored (Unit {0})) handle.old.spot.held
        result handle.new.spot.held }
{
    let Some(mut kept) = handle.take(alloc) else {
        return Err(Refusal::Empty);
    };
    let did = stored_kept(&mut *kept);
    handle.put(alloc, kept);
    did
}

/// The file that was to be stored is stored: from here on bytes of the question are due, and its
/// seat is used.
#[unsafe(no_mangle)]
pub extern "C" fn sip_asking_stored(alloc: Global, asking: &mut Handle) -> u32
    requires begun { IsBegun asking.old.spot.held }
    ensures begun { IsBegun asking.new.spot.held }
    ensures does { IsNumberOf result (λ did. ThroughAsking (Unit {0}) Stored (NotStored (Unit
        {0})) asking.old.spot.held did asking.new.spot.held) }
{
    status_of(stored_in(alloc, asking))
}

// ---- the next question

fn next_kept(alloc: Global, kept: &mut Kept) -> Result<(), Refusal>
    requires begun { IsBegun (Some kept.old) }
    ensures begun { IsBegun (Some kept.new) }
    ensures does { OnAsking (Unit {0}) Goes RunGoes kept.old result kept.new }
{
    match kept {
        Kept::Asking(machine) => asker::next(machine),
        Kept::RunAsking(run) => run.next(alloc),
        _ => Err(Refusal::OtherHandle),
    }
}

fn next_in(alloc: Global, handle: &mut Handle) -> Result<(), Refusal>
    requires begun { IsBegun handle.old.spot.held }
    ensures begun { IsBegun handle.new.spot.held }
    ensures does { ThroughAsking (Unit {0}) Goes RunGoes handle.old.spot.held result
        handle.new.spot.held }
{
    let Some(mut kept) = handle.take(alloc) else {
        return Err(Refusal::Empty);
    };
    let did = next_kept(alloc, &mut *kept);
    handle.put(alloc, kept);
    did
}

/// The answer was read: the next question has its turn.
#[unsafe(no_mangle)]
pub extern "C" fn sip_asking_next(alloc: Global, asking: &mut Handle) -> u32
    requires begun { IsBegun asking.old.spot.held }
    ensures begun { IsBegun asking.new.spot.held }
    ensures does { IsNumberOf result (λ did. ThroughAsking (Unit {0}) Goes RunGoes
        asking.old.spot.held did asking.new.spot.held) }
{
    status_of(next_in(alloc, asking))
}

// ---- how it ended

fn ended_kept(kept: &Kept, ending: &mut Ending) -> Result<(), Refusal>
    ensures { OnAsking (ending.new ≡ ending.old) (Ends ending.old ending.new) (RunAskingEnds
        ending.old ending.new) kept.now result kept.now }
{
    match kept {
        Kept::Asking(machine) => asker::ended(machine, ending),
        Kept::RunAsking(run) => run.ended(ending),
        _ => Err(Refusal::OtherHandle),
    }
}

fn ended_in(alloc: Global, handle: &mut Handle, ending: &mut Ending) -> Result<(), Refusal>
    requires begun { IsBegun handle.old.spot.held }
    ensures begun { IsBegun handle.new.spot.held }
    ensures does { ThroughAsking (ending.new ≡ ending.old) (Ends ending.old ending.new)
        (RunAskingEnds ending.old ending.new) handle.old.spot.held result handle.new.spot.held }
{
    let Some(kept) = handle.take(alloc) else {
        return Err(Refusal::Empty);
    };
    let did = ended_kept(&*kept, ending);
    handle.put(alloc, kept);
    did
}

/// Tells how it ended, once it has.
#[unsafe(no_mangle)]
pub extern "C" fn sip_asking_ended(alloc: Global, asking: &mut Handle, ending: &mut Ending) -> u32
    requires begun { IsBegun asking.old.spot.held }
    ensures begun { IsBegun asking.new.spot.held }
    ensures does { IsNumberOf result (λ did. ThroughAsking (ending.new ≡ ending.old) (Ends
        ending.old ending.new) (RunAskingEnds ending.old ending.new) asking.old.spot.held did
        asking.new.spot.held) }
{
    status_of(ended_in(alloc, asking, ending))
}

// ---- the answer at hand

fn answer_kept(kept: &Kept, answer: &mut AnswerCode) -> Result<(), Refusal>
    ensures { OnAsking (answer.new ≡ answer.old) (Answers answer.old answer.new) (RunAskingAnswers
        answer.old answer.new) kept.now result kept.now }
{
    match kept {
        Kept::Asking(machine) => asker::answer(machine, answer),
        Kept::RunAsking(run) => run.answer(answer),
        _ => Err(Refusal::OtherHandle),
    }
}

fn answer_in(alloc: Global, handle: &mut Handle, answer: &mut AnswerCode) -> Result<(), Refusal>
    requires begun { IsBegun handle.old.spot.held }
    ensures begun { IsBegun handle.new.spot.held }
    ensures does { ThroughAsking (answer.new ≡ answer.old) (Answers answer.old answer.new)
        (RunAskingAnswers answer.old answer.new) handle.old.spot.held result handle.new.spot.held }
{
    let Some(kept) = handle.take(alloc) else {
        return Err(Refusal::Empty);
    };
    let did = answer_kept(&*kept, answer);
    handle.put(alloc, kept);
    did
}

/// Tells the answer to the question at hand, once it was accepted.
#[unsafe(no_mangle)]
pub extern "C" fn sip_asking_answer(
    alloc: Global,
    asking: &mut Handle,
    answer: &mut AnswerCode,
) -> u32
    requires begun { IsBegun asking.old.spot.held }
    ensures begun { IsBegun asking.new.spot.held }
    ensures does { IsNumberOf result (λ did. ThroughAsking (answer.new ≡ answer.old) (Answers
        answer.old answer.new) (RunAskingAnswers answer.old answer.new) asking.old.spot.held did
        asking.new.spot.held) }
{
    status_of(answer_in(alloc, asking, answer))
}

// ---- its pairs

fn pairs_kept(
    kept: &Kept,
    from: usize,
    to: &mut [EntryCode],
    count: &mut usize,
) -> Result<(), Refusal>
    ensures { OnAsking ((to.new ≡ to.old) × (count.new ≡ count.old)) (Copies from to.old to.new
        count.old count.new) (RunAskingCopies from to.old to.new count.new) kept.now result
        kept.now }
{
    match kept {
        Kept::Asking(machine) => asker::pairs(machine, from, to, count),
        Kept::RunAsking(run) => {
            run.pairs(from, to, count);
            Ok(())
        }
        _ => Err(Refusal::OtherHandle),
    }
}

fn pairs_in(
    alloc: Global,
    handle: &mut Handle,
    from: usize,
    to: &mut [EntryCode],
    count: &mut usize,
) -> Result<(), Refusal>
    requires begun { IsBegun handle.old.spot.held }
    ensures begun { IsBegun handle.new.spot.held }
    ensures does { ThroughAsking ((to.new ≡ to.old) × (count.new ≡ count.old)) (Copies from to.old
        to.new count.old count.new) (RunAskingCopies from to.old to.new count.new)
        handle.old.spot.held result handle.new.spot.held }
{
    let Some(kept) = handle.take(alloc) else {
        return Err(Refusal::Empty);
    };
    let did = pairs_kept(&*kept, from, to, count);
    handle.put(alloc, kept);
    did
}

/// Copies the pairs of the answer from a place on, rising, as many as there are and there is room
/// for.
#[unsafe(no_mangle)]
pub extern "C" fn sip_asking_pairs(
    alloc: Global,
    asking: &mut Handle,
    from: usize,
    to: &mut [EntryCode],
    count: &mut usize,
) -> u32
    requires begun { IsBegun asking.old.spot.held }
    ensures begun { IsBegun asking.new.spot.held }
    ensures does { IsNumberOf result (λ did. ThroughAsking ((to.new ≡ to.old) × (count.new ≡
        count.old)) (Copies from to.old to.new count.old count.new) (RunAskingCopies from to.old
        to.new count.new) asking.old.spot.held did asking.new.spot.held) }
{
    status_of(pairs_in(alloc, asking, from, to, count))
}
