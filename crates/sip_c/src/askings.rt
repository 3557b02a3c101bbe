//! The calls by which a sketch begins to be asked, and bytes go out and come in.

ghost use Rattle.std.specs.Prelude.{◌≡◌, None, Some};
ghost use Rattle.sip_c.specs.Asking.{Closes, Due, Feeds, Wanted};
ghost use Rattle.sip_c.specs.Handles.{IsBegun, OnAsking, ThroughAsking};
ghost use Rattle.sip_c.specs.Posing.{PosesFrom, PosesIn};
ghost use Rattle.sip_c.specs.RunAsking.{RunAskingCloses, RunAskingDue, RunAskingFeeds};
ghost use Rattle.sip_c.specs.RunAsking.{RunAskingWanted};
ghost use Rattle.sip_c.specs.Statuses.{IsNumberOf};

use crate::asker;
use crate::ending::Ending;
use crate::handle::Handle;
use crate::kept::Kept;
use crate::posing::pose;
use crate::questions::QuestionCode;
use crate::refusal::{Refusal, status_of};
use std::alloc::Global;

// ---- begin

fn pose_from(
    alloc: Global,
    handle: &mut Handle,
    kept: &Kept,
    codes: &[QuestionCode],
    told: &mut Ending,
) -> Result<(), Refusal>
    requires { handle.old.spot.held ≡ None }
    ensures begun { IsBegun handle.new.spot.held }
    ensures poses { PosesFrom codes.now told.old told.new kept.now result handle.new.spot.held }
{
    match kept {
        Kept::Sketch(sketch) => match pose(alloc, sketch, codes, told) {
            Ok(machine) => handle.begin(alloc, Kept::Asking(machine)),
            Err(why) => Err(why),
        },
        _ => Err(Refusal::OtherHandle),
    }
}

fn begin_in(
    alloc: Global,
    handle: &mut Handle,
    sketch: &mut Handle,
    codes: &[QuestionCode],
    told: &mut Ending,
) -> Result<(), Refusal>
    requires begun { IsBegun handle.old.spot.held }
    requires sketch_begun { IsBegun sketch.old.spot.held }
    ensures begun { IsBegun handle.new.spot.held }
    ensures sketch_begun { IsBegun sketch.new.spot.held }
    ensures poses { PosesIn codes.now told.old told.new handle.old.spot.held handle.new.spot.held
        sketch.old.spot.held result sketch.new.spot.held }
{
    if handle.is_full() {
        return Err(Refusal::Full);
    }
    let Some(kept) = sketch.take(alloc) else {
        return Err(Refusal::Empty);
    };
    let answer = pose_from(alloc, handle, &*kept, codes, told);
    if answer.is_err() {
        sketch.put(alloc, kept);
    }
    answer
}

/// Begins to ask a sketch 1 to 16 questions, in order, in an empty handle. The handle of the sketch
/// is empty then; where the sketch is not asked it stays there.
#[unsafe(no_mangle)]
pub extern "C" fn sip_asking_begin(
    alloc: Global,
    asking: &mut Handle,
    sketch: &mut Handle,
    questions: &[QuestionCode],
    ending: &mut Ending,
) -> u32
    requires begun { IsBegun asking.old.spot.held }
    requires sketch_begun { IsBegun sketch.old.spot.held }
    ensures begun { IsBegun asking.new.spot.held }
    ensures sketch_begun { IsBegun sketch.new.spot.held }
    ensures poses { IsNumberOf result (λ did. PosesIn questions.now ending.old ending.new
        asking.old.spot.held asking.new.spot.held sketch.old.spot.held did sketch.new.spot.held) }
{
    status_of(begin_in(alloc, asking, sketch, questions, ending))
}

/// Lets go of a sketch that is asked. The handle is empty then.
#[unsafe(no_mangle)]
pub extern "C" fn sip_asking_free(alloc: Global, asking: &mut Handle)
    ensures { asking.new.spot.held ≡ None }
{
    let _ = asking.take(alloc);
}

// ---- what is wanted

fn wants_kept(kept: &Kept, wants: &mut u8) -> Result<(), Refusal>
    ensures { OnAsking (wants.new ≡ wants.old) (Wanted wants.new) (RunAskingWanted wants.new)
        kept.now result kept.now }
{
    match kept {
        Kept::Asking(machine) => {
            *wants = asker::wants(machine);
            Ok(())
        }
        Kept::RunAsking(run) => {
            *wants = run.wants();
            Ok(())
        }
        _ => Err(Refusal::OtherHandle),
    }
}

fn wants_in(alloc: Global, handle: &mut Handle, wants: &mut u8) -> Result<(), Refusal>
    requires begun { IsBegun handle.old.spot.held }
    ensures begun { IsBegun handle.new.spot.held }
    ensures wanted { ThroughAsking (wants.new ≡ wants.old) (Wanted wants.new) (RunAskingWanted
        wants.new) handle.old.spot.held result handle.new.spot.held }
{
    let Some(kept) = handle.take(alloc) else {
        return Err(Refusal::Empty);
    };
    let answer = wants_kept(&*kept, wants);
    handle.put(alloc, kept);
    answer
}

/// Tells what is wanted before anything goes on.
#[unsafe(no_mangle)]
pub extern "C" fn sip_asking_wants(alloc: Global, asking: &mut Handle, wants: &mut u8) -> u32
    requires begun { IsBegun asking.old.spot.held }
    ensures begun { IsBegun asking.new.spot.held }
    ensures wanted { IsNumberOf result (λ answer. ThroughAsking (wants.new ≡ wants.old) (Wanted
        wants.new) (RunAskingWanted wants.new) asking.old.spot.held answer asking.new.spot.held) }
{
    status_of(wants_in(alloc, asking, wants))
}

// ---- the bytes that are due

fn due_kept(kept: &mut Kept, to: &mut [u8], count: &mut usize) -> Result<(), Refusal>
    requires begun { IsBegun (Some kept.old) }
    ensures begun { IsBegun (Some kept.new) }
    ensures does { OnAsking ((to.new ≡ to.old) × (count.new ≡ count.old)) (Due to.old to.new
        count.new) (RunAskingDue to.old to.new count.new) kept.old result kept.new }
{
    match kept {
        Kept::Asking(machine) => asker::due(machine, to, count),
        Kept::RunAsking(run) => run.due(to, count),
        _ => Err(Refusal::OtherHandle),
    }
}

fn due_in(
    alloc: Global,
    handle: &mut Handle,
    to: &mut [u8],
    count: &mut usize,
) -> Result<(), Refusal>
    requires begun { IsBegun handle.old.spot.held }
    ensures begun { IsBegun handle.new.spot.held }
    ensures does { ThroughAsking ((to.new ≡ to.old) × (count.new ≡ count.old)) (Due to.old to.new
        count.new) (RunAskingDue to.old to.new count.new) handle.old.spot.held result
        handle.new.spot.held }
{
    let Some(mut kept) = handle.take(alloc) else {
        return Err(Refusal::Empty);
    };
    let did = due_kept(&mut *kept, to, count);
    handle.put(alloc, kept);
    did
}

/// Hands out the bytes that are due, each once, and their number; the most that it may be where
/// there is no room for so many, and then all of them are due as before.
#[unsafe(no_mangle)]
pub extern "C" fn sip_asking_due(
    alloc: Global,
    asking: &mut Handle,
    to: &mut [u8],
    count: &mut usize,
) -> u32
    requires begun { IsBegun asking.old.spot.held }
    ensures begun { IsBegun asking.new.spot.held }
    ensures does { IsNumberOf result (λ did. ThroughAsking ((to.new ≡ to.old) × (count.new ≡
        count.old)) (Due to.old to.new count.new) (RunAskingDue to.old to.new count.new)
        asking.old.spot.held did asking.new.spot.held) }
{
    status_of(due_in(alloc, asking, to, count))
}

// ---- the bytes that came

fn feed_kept(kept: &mut Kept, bytes: &[u8], taken: &mut usize) -> Result<(), Refusal>
    requires begun { IsBegun (Some kept.old) }
    ensures begun { IsBegun (Some kept.new) }
    ensures does { OnAsking (taken.new ≡ taken.old) (Feeds bytes.now taken.new) (RunAskingFeeds
        bytes.now taken.new) kept.old result kept.new }
{
    match kept {
        Kept::Asking(machine) => asker::feed(machine, bytes, taken),
        Kept::RunAsking(run) => run.feed(bytes, taken),
        _ => Err(Refusal::OtherHandle),
    }
}

fn feed_in(
    alloc: Global,
    handle: &mut Handle,
    bytes: &[u8],
    taken: &mut usize,
) -> Result<(), Refusal>
    requires begun { IsBegun handle.old.spot.held }
    ensures begun { IsBegun handle.new.spot.held }
    ensures does { ThroughAsking (taken.new ≡ taken.old) (Feeds bytes.now taken.new)
        (RunAskingFeeds bytes.now taken.new) handle.old.spot.held result handle.new.spot.held }
{
    let Some(mut kept) = handle.take(alloc) else {
        return Err(Refusal::Empty);
    };
    let did = feed_kept(&mut *kept, bytes, taken);
    handle.put(alloc, kept);
    did
}

/// Takes bytes that came, in any pieces, and tells how many: all of them while some are awaited,
/// and none behind the last one that is.
#[unsafe(no_mangle)]
pub extern "C" fn sip_asking_feed(
    alloc: Global,
    asking: &mut Handle,
    bytes: &[u8],
    taken: &mut usize,
) -> u32
    requires begun { IsBegun asking.old.spot.held }
    ensures begun { IsBegun asking.new.spot.held }
    ensures does { IsNumberOf result (λ did. ThroughAsking (taken.new ≡ taken.old) (Feeds
        bytes.now taken.new) (RunAskingFeeds bytes.now taken.new) asking.old.spot.held did
        asking.new.spot.held) }
{
    status_of(feed_in(alloc, asking, bytes, taken))
}

// ---- the end of them

fn close_kept(kept: &mut Kept) -> Result<(), Refusal>
    requires begun { IsBegun (Some kept.old) }
    ensures begun { IsBegun (Some kept.new) }
    ensures does { OnAsking (Unit {0}) Closes RunAskingCloses kept.old result kept.new }
{
    match kept {
        Kept::Asking(machine) => asker::close(machine),
        Kept::RunAsking(run) => run.close(),
        _ => Err(Refusal::OtherHandle),
    }
}

fn close_in(alloc: Global, handle: &mut Handle) -> Result<(), Refusal>
    requires begun { IsBegun handle.old.spot.held }
    ensures begun { IsBegun handle.new.spot.held }
    ensures does { ThroughAsking (Unit {0}) Closes RunAskingCloses handle.old.spot.held result
        handle.new.spot.held }
{
    let Some(mut kept) = handle.take(alloc) else {
        return Err(Refusal::Empty);
    };
    let did = close_kept(&mut *kept);
    handle.put(alloc, kept);
    did
}

/// The other end closed.
#[unsafe(no_mangle)]
pub extern "C" fn sip_asking_close(alloc: Global, asking: &mut Handle) -> u32
    requires begun { IsBegun asking.old.spot.held }
    ensures begun { IsBegun asking.new.spot.held }
    ensures does { IsNumberOf result (λ did. ThroughAsking (Unit {0}) Closes RunAskingCloses
        asking.old.spot.held did asking.new.spot.held) }
{
    status_of(close_in(alloc, asking))
}
