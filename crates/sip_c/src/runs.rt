//! The calls on runs while their streams go by, and the one by which their questions are asked.

ghost use Rattle.std.specs.Prelude.{◌≡◌, None, Some, true};
ghost use Rattle.sip_runs.specs.Runs.{HasBegun, is_ended};
ghost use Rattle.sip_c.specs.Handles.{IsBegun, OnRun, ThroughRun};
ghost use Rattle.sip_c.specs.RunAsking.{AsksBehind, AsksIn, refusal_by, told_by};
ghost use Rattle.sip_c.specs.Runs.{BeginsRun, RunDue, RunEnds, RunFeeds, RunFeedsBy, RunWanted};
ghost use Rattle.sip_c.specs.Runs.{WantedRun};
ghost use Rattle.sip_c.specs.Statuses.{IsNumberOf};
ghost use Rattle.sip_c.specs.inside.Sending.{IsSent};

use crate::codes::{CodeList, Codes, UpdateCode};
use crate::ending::{Ending, about};
use crate::handle::Handle;
use crate::kept::Kept;
use crate::questions::QuestionCode;
use crate::records::records_of;
use crate::refusal::{Refusal, status_of};
use crate::run;
use crate::run_asking::RunAsking;
use sip_runs::Following;
use sip_verifier::Status;
use std::alloc::Global;

// ---- begin

fn begin_in(
    alloc: Global,
    handle: &mut Handle,
    seed: &[u8],
    depth: u8,
    codes: &[QuestionCode],
    told: &mut Ending,
) -> Result<(), Refusal>
    requires begun { IsBegun handle.old.spot.held }
    ensures begun { IsBegun handle.new.spot.held }
    ensures begins { let wanted : WantedRun = record {
      seed = seed.now;
      depth = depth;
      codes = codes.now;
    } in BeginsRun wanted told.old told.new handle.old.spot.held result handle.new.spot.held }
{
    if handle.is_full() {
        return Err(Refusal::Full);
    }
    let following = run::begin(alloc, seed, depth, codes, told)?;
    handle.begin(alloc, Kept::Run(following))
}

/// Begins a run of 1 to 16 questions in an empty handle, with the challenges that 32 bytes of a
/// seed give.
#[unsafe(no_mangle)]
pub extern "C" fn sip_run_begin(
    alloc: Global,
    run: &mut Handle,
    seed: &[u8],
    depth: u8,
    questions: &[QuestionCode],
    ending: &mut Ending,
) -> u32
    requires begun { IsBegun run.old.spot.held }
    ensures begun { IsBegun run.new.spot.held }
    ensures begins { let wanted : WantedRun = record {
      seed = seed.now;
      depth = depth;
      codes = questions.now;
    } in IsNumberOf result (λ answer. BeginsRun wanted ending.old ending.new run.old.spot.held
        answer run.new.spot.held) }
{
    status_of(begin_in(alloc, run, seed, depth, questions, ending))
}

/// Lets go of a run. The handle is empty then.
#[unsafe(no_mangle)]
pub extern "C" fn sip_run_free(alloc: Global, run: &mut Handle)
    ensures { run.new.spot.held ≡ None }
{
    let _ = run.take(alloc);
}

// ---- what is wanted

fn wants_kept(kept: &Kept, wants: &mut u8) -> Result<(), Refusal>
    ensures { OnRun (wants.new ≡ wants.old) (RunWanted wants.new) kept.now result kept.now }
{
    match kept {
        Kept::Run(following) => {
            *wants = run::wants(following);
            Ok(())
        }
        _ => Err(Refusal::OtherHandle),
    }
}

fn wants_in(alloc: Global, handle: &mut Handle, wants: &mut u8) -> Result<(), Refusal>
    requires begun { IsBegun handle.old.spot.held }
    ensures begun { IsBegun handle.new.spot.held }
    ensures wanted { ThroughRun (wants.new ≡ wants.old) (RunWanted wants.new)
        handle.old.spot.held result handle.new.spot.held }
{
    let Some(kept) = handle.take(alloc) else {
        return Err(Refusal::Empty);
    };
    let answer = wants_kept(&*kept, wants);
    handle.put(alloc, kept);
    answer
}

/// Tells what is wanted before anything goes on.
#[unsafe(no_mangle)]
pub extern "C" fn sip_run_wants(alloc: Global, run: &mut Handle, wants: &mut u8) -> u32
    requires begun { IsBegun run.old.spot.held }
    ensures begun { IsBegun run.new.spot.held }
    ensures wanted { IsNumberOf result (λ answer. ThroughRun (wants.new ≡ wants.old)
        (RunWanted wants.new) run.old.spot.held answer run.new.spot.held) }
{
    status_of(wants_in(alloc, run, wants))
}

// ---- the bytes that are due

fn due_kept(kept: &mut Kept, to: &mut [u8], count: &mut usize) -> Result<(), Refusal>
    requires begun { IsBegun (Some kept.old) }
    ensures begun { IsBegun (Some kept.new) }
    ensures does { OnRun ((to.new ≡ to.old) × (count.new ≡ count.old)) (RunDue to.old to.new
        count.new) kept.old result kept.new }
{
    match kept {
        Kept::Run(following) => run::due(following, to, count),
        _ => Err(Refusal::OtherHandle),
    }
}

fn due_in(
    alloc: Global,
    handle: &mut Handle,
    to: &mut [u8],
    count: &mut usize,
) -> Result<(), Refusal>
    requires begun { IsBegun handle.old.spot.held }
    ensures begun { IsBegun handle.new.spot.held }
    ensures does { ThroughRun ((to.new ≡ to.old) × (count.new ≡ count.old)) (RunDue to.old to.new
        count.new) handle.old.spot.held result handle.new.spot.held }
{
    let Some(mut kept) = handle.take(alloc) else {
        return Err(Refusal::Empty);
    };
    let did = due_kept(&mut *kept, to, count);
    handle.put(alloc, kept);
    did
}

/// Hands out the bytes that are due, each once, and their number; the most that it may be where
/// there is no room for so many, and then all of them are due as before.
#[unsafe(no_mangle)]
pub extern "C" fn sip_run_due(
    alloc: Global,
    run: &mut Handle,
    to: &mut [u8],
    count: &mut usize,
) -> u32
    requires begun { IsBegun run.old.spot.held }
    ensures begun { IsBegun run.new.spot.held }
    ensures does { IsNumberOf result (λ did. ThroughRun ((to.new ≡ to.old) × (count.new ≡
        count.old)) (RunDue to.old to.new count.new)
        run.old.spot.held did run.new.spot.held) }
{
    status_of(due_in(alloc, run, to, count))
}

// ---- updates

fn update_kept<C: Codes>(kept: &mut Kept, codes: &C, taken: &mut usize) -> Result<(), Refusal>
    requires begun { IsBegun (Some kept.old) }
    ensures begun { IsBegun (Some kept.new) }
    ensures feeds { OnRun (taken.new ≡ taken.old) (RunFeeds (C.codes codes.now) taken.new) kept.old
        result kept.new }
{
    match kept {
        Kept::Run(following) => run::feed(following, codes, taken),
        _ => Err(Refusal::OtherHandle),
    }
}

fn update_in<C: Codes>(
    alloc: Global,
    handle: &mut Handle,
    codes: &C,
    taken: &mut usize,
) -> Result<(), Refusal>
    requires begun { IsBegun handle.old.spot.held }
    ensures begun { IsBegun handle.new.spot.held }
    ensures feeds { ThroughRun (taken.new ≡ taken.old) (RunFeeds (C.codes codes.now) taken.new)
        handle.old.spot.held result handle.new.spot.held }
{
    let Some(mut kept) = handle.take(alloc) else {
        return Err(Refusal::Empty);
    };
    let answer = update_kept(&mut *kept, codes, taken);
    handle.put(alloc, kept);
    answer
}

/// Takes updates of the stream, and tells how many: all of them, or as many as fill a frame, which
/// is due then. Where one of them may not come those before it are taken.
#[unsafe(no_mangle)]
pub extern "C" fn sip_run_update(
    alloc: Global,
    run: &mut Handle,
    updates: &[UpdateCode],
    taken: &mut usize,
) -> u32
    requires begun { IsBegun run.old.spot.held }
    ensures begun { IsBegun run.new.spot.held }
    ensures feeds { IsNumberOf result (λ answer. ThroughRun (taken.new ≡ taken.old)
        (RunFeeds updates.now taken.new) run.old.spot.held answer run.new.spot.held) }
{
    let codes = CodeList { list: updates };
    status_of(update_in(alloc, run, &codes, taken))
}

fn update_by_records(
    alloc: Global,
    handle: &mut Handle,
    form: u8,
    bytes: &[u8],
    taken: &mut usize,
) -> Result<(), Refusal>
    requires begun { IsBegun handle.old.spot.held }
    ensures begun { IsBegun handle.new.spot.held }
    ensures feeds { RunFeedsBy form bytes.now taken.old taken.new handle.old.spot.held result
        handle.new.spot.held }
{
    let records = records_of(form, bytes)?;
    update_in(alloc, handle, &records, taken)
}

/// Takes updates that records say as they lie in a file of a form, and tells how many.
#[unsafe(no_mangle)]
pub extern "C" fn sip_run_update_records(
    alloc: Global,
    run: &mut Handle,
    form: u8,
    records: &[u8],
    taken: &mut usize,
) -> u32
    requires begun { IsBegun run.old.spot.held }
    ensures begun { IsBegun run.new.spot.held }
    ensures feeds { IsNumberOf result (λ answer. RunFeedsBy form records.now taken.old taken.new
        run.old.spot.held answer run.new.spot.held) }
{
    status_of(update_by_records(alloc, run, form, records, taken))
}

// ---- the end

fn end_kept(kept: &mut Kept) -> Result<(), Refusal>
    requires begun { IsBegun (Some kept.old) }
    ensures begun { IsBegun (Some kept.new) }
    ensures ends { OnRun (Unit {0}) RunEnds kept.old result kept.new }
{
    match kept {
        Kept::Run(following) => run::end(following),
        _ => Err(Refusal::OtherHandle),
    }
}

fn end_in(alloc: Global, handle: &mut Handle) -> Result<(), Refusal>
    requires begun { IsBegun handle.old.spot.held }
    ensures begun { IsBegun handle.new.spot.held }
    ensures ends { ThroughRun (Unit {0}) RunEnds handle.old.spot.held result handle.new.spot.held }
{
    let Some(mut kept) = handle.take(alloc) else {
        return Err(Refusal::Empty);
    };
    let answer = end_kept(&mut *kept);
    handle.put(alloc, kept);
    answer
}

/// The stream ends: the rest of it is due.
#[unsafe(no_mangle)]
pub extern "C" fn sip_run_end(alloc: Global, run: &mut Handle) -> u32
    requires begun { IsBegun run.old.spot.held }
    ensures begun { IsBegun run.new.spot.held }
    ensures ends { IsNumberOf result (λ answer. ThroughRun (Unit {0}) RunEnds run.old.spot.held
        answer run.new.spot.held) }
{
    status_of(end_in(alloc, run))
}

// ---- its questions

// The refusal of questions by a status. No other comes from a run.
fn refusal_of(status: Status) -> Refusal
    ensures { result ≡ refusal_by status }
{
    match status {
        Status::TooWide { .. } => Refusal::TooWide,
        Status::TooHigh { .. } => Refusal::TooHigh,
        _ => Refusal::NoMemory,
    }
}

// Tells the question that is meant.
fn tell(status: Status, told: &mut Ending)
    ensures { told.new ≡ told_by status told.old }
{
    match status {
        Status::TooWide { query } | Status::TooHigh { query } => *told = about(query),
        _ => {}
    }
}

// Begins to ask the questions of a run all of which was sent.
fn ask_behind(
    alloc: Global,
    handle: &mut Handle,
    following: Following,
    told: &mut Ending,
) -> Result<(), Refusal>
    requires empty { handle.old.spot.held ≡ None }
    requires begun { HasBegun following }
    requires ended { is_ended following.step ≡ true }
    ensures begun { IsBegun handle.new.spot.held }
    ensures asks { AsksBehind following told.old told.new result handle.new.spot.held }
{
    match following.into_questions() {
        Ok(left) => {
            let asking = RunAsking::begin(alloc, left)?;
            handle.begin(alloc, Kept::RunAsking(asking))
        }
        Err(status) => {
            tell(status, told);
            Err(refusal_of(status))
        }
    }
}

// Whether the questions can be asked; or why not.
fn is_sent(kept: &Kept) -> Result<(), Refusal>
    ensures { IsSent kept.now result }
{
    match kept {
        Kept::Run(following) => {
            if following.is_ended() {
                Ok(())
            } else {
                Err(Refusal::NotNow)
            }
        }
        _ => Err(Refusal::OtherHandle),
    }
}

fn ask_in(
    alloc: Global,
    run: &mut Handle,
    asking: &mut Handle,
    told: &mut Ending,
) -> Result<(), Refusal>
    requires begun { IsBegun asking.old.spot.held }
    requires run_begun { IsBegun run.old.spot.held }
    ensures begun { IsBegun asking.new.spot.held }
    ensures run_begun { IsBegun run.new.spot.held }
    ensures asks { AsksIn told.old told.new asking.old.spot.held asking.new.spot.held
        run.old.spot.held result run.new.spot.held }
{
    if asking.is_full() {
        return Err(Refusal::Full);
    }
    let Some(kept) = run.take(alloc) else {
        return Err(Refusal::Empty);
    };
    if let Err(why) = is_sent(&*kept) {
        run.put(alloc, kept);
        return Err(why);
    }
    match Box::into_inner(kept) {
        Kept::Run(following) => ask_behind(alloc, asking, following, told),
        _ => unreachable!(),
    }
}

/// Begins to ask the questions of a run all of which was sent, behind another handle, which is
/// empty. The handle of the run is empty then, whatever comes of it.
#[unsafe(no_mangle)]
pub extern "C" fn sip_run_ask(
    alloc: Global,
    run: &mut Handle,
    asking: &mut Handle,
    ending: &mut Ending,
) -> u32
    requires begun { IsBegun asking.old.spot.held }
    requires run_begun { IsBegun run.old.spot.held }
    ensures begun { IsBegun asking.new.spot.held }
    ensures run_begun { IsBegun run.new.spot.held }
    ensures asks { IsNumberOf result (λ answer. AsksIn ending.old ending.new
        asking.old.spot.held asking.new.spot.held run.old.spot.held answer run.new.spot.held) }
{
    status_of(ask_in(alloc, run, asking, ending))
}
