//! The command whose helper is in the program.

ghost use Rattle.std.specs.Prelude.{◌≡◌, ◌≢◌, ℕ, List, [], Some, None, IfOk, OnErr, MatchOption};
ghost use Rattle.sip_ports.specs.Ports.{Lasts};
ghost use Rattle.std.specs.Option.{option_and_then};
ghost use Rattle.sip_duel.specs.Story.{Keeps};
ghost use Rattle.sip_duel.specs.Told.{told_state};
ghost use Rattle.sip_helper.specs.Turns.{fresh};
ghost use Rattle.sip_verifier.specs.declared.task.Task.{Task as AnyTask};
ghost use Rattle.sip_verifier.specs.Exchanges.{TakesAtMost};
ghost use Rattle.sip_verifier.specs.Negatives.{NegativesClause};
ghost use Rattle.sip_verifier.specs.Snapshots.{port, snapshot, telling};
ghost use Rattle.sip_verifier.specs.Tasks.{CanBeDone};
ghost use Rattle.sip_words.specs.declared.helper_name.HelperName.{HelperName as AnyName};
ghost use Rattle.sip_cli.specs.PlayClause.{PlayClause};
ghost use Rattle.sip_words.specs.Words.{IsSpelled};

use sip_duel::{Helper, HelperLink, Honest, Mute, MuteLink, Skewed, play_mute};
use sip_field::OutOfMemory;
use sip_ports::{Sink, Source};
use sip_vector::Negatives;
use sip_verifier::{Status, Task};
use sip_words::{Command, HelperName};
use std::alloc::Global;

// The honest helper, on the heap. It is made in a call of its own, so that the stack has it no
// longer than that.
#[inline(never)]
pub(crate) fn honest(alloc: Global) -> Result<Box<Honest>, OutOfMemory>
    ensures { IfOk result (λ helper. told_state helper.value ≡ Some fresh) }
{
    Ok(Box::new(alloc, Honest::new(alloc))?)
}

// The skewed helper, on the heap.
#[inline(never)]
pub(crate) fn skewed(alloc: Global) -> Result<Box<Skewed>, OutOfMemory> {
    Ok(Box::new(alloc, Skewed::new(alloc)?)?)
}

// A link to a boxed helper, which is the one of this name: so much is asked of the name, and what
// the box shows nowhere else.
fn link_to(
    alloc: Global,
    name: HelperName,
    helper: Box<dyn Helper>,
) -> Result<HelperLink, OutOfMemory>
    requires { name ≡ HelperName.Honest → honest_state helper ≡ Some fresh }
    ensures talk { IfOk result (λ link. link.kept.talk.items ≡ []) }
    ensures promise { name ≡ HelperName.Honest
        → IfOk result (λ link. Keeps (option_and_then honest_state link.helper) link.kept) }
{
    HelperLink::new(alloc, helper)
}

// Does a task over a link to the helper of this name. Where memory is refused to either nothing is
// done.
fn play_named<A: Source, B: Source, K: Sink, C: Sink>(
    alloc: Global,
    task: &Task,
    name: HelperName,
    first: &mut A,
    second: &mut B,
    report: &mut K,
    keep: &mut C,
    negatives: &mut Negatives,
) -> Result<Status, OutOfMemory>
    requires { CanBeDone task.now }
    ensures played { IfOk result (PlayClause task.now
        (name ≡ HelperName.Honest) (name ≡ HelperName.Mute)
        (snapshot (port A.left A.faults first.old) (port B.left B.faults second.old)
        (telling []) (port K.talk K.faults report.old)
        (port C.talk C.faults keep.old))
        (λ talk. snapshot (port A.left A.faults first.new)
        (port B.left B.faults second.new)
        (telling talk) (port K.talk K.faults report.new)
        (port C.talk C.faults keep.new))) }
    ensures negatives { (bytes seed : List ℕ)
        → A.left first.old ≡ Some bytes → B.left second.old ≡ Some seed
        → IfOk result (λ status. NegativesClause task.now bytes status negatives.new) }
    ensures unbegun { OnErr result ((first.new ≡ first.old) × (second.new ≡ second.old)
        × (report.new ≡ report.old) × (keep.new ≡ keep.old)) }
    ensures first { Lasts A.faults A.wants A.is_sure first.old first.new }
    ensures seed { TakesAtMost 32 (B.left second.old) (B.left second.new) }
    ensures second { Lasts B.faults B.wants B.is_sure second.old second.new }
    ensures report { Lasts K.faults K.wants K.is_sure report.old report.new }
    ensures keep { Lasts C.faults C.wants C.is_sure keep.old keep.new }
{
    let mut link = match name {
        HelperName::Honest => link_to(alloc, name, honest(alloc)?)?,
        HelperName::Skewed => link_to(alloc, name, skewed(alloc)?)?,
        HelperName::Mute => {
            let mut link = MuteLink::new(alloc, Box::new(alloc, Mute::new())?)?;
            let link = &mut link;
            let status = play_mute(alloc, task, first, second, link, report, keep, negatives);
            return Ok(status);
        }
    };
    let link = &mut link;
    Ok(sip_duel::play(alloc, task, first, second, link, report, keep, negatives))
}

/// Does a command `play`; another one gives `None`, and then no port is called.
///
/// `play STREAM SEED HELPER RECORD DEPTH QUERY..` is [`obey`](crate::obey) over a link to the
/// helper of that name, which is made here, and is closed and dropped at the end. `keep` gets the
/// transcript of the run. Memory grows with the entries that are not 0, which the helper keeps, and
/// with the talk, which the link keeps. Where memory is refused to the helper or the link, the run
/// ends at once for want of it. `negatives` gets what [`obey`](crate::obey) tells.
#[inline(never)]
pub fn play<A: Source, B: Source, K: Sink, C: Sink>(
    alloc: Global,
    command: &Command,
    first: &mut A,
    second: &mut B,
    report: &mut K,
    keep: &mut C,
    negatives: &mut Negatives,
) -> Option<Status>
    requires { IsSpelled command.now }
    // The seven promises, over the talk of a link that counts no fault. So the run never ends by a
    // fault of the peer, with the helper `honest` a good run is accepted, and from the helper
    // `mute` nothing is received.
    ensures played { MatchOption result
        ((task : AnyTask) (name : AnyName) → command.now ≢ Command.Play task name)
        (λ status. (task : AnyTask) × (name : AnyName)
        × (command.now ≡ Command.Play task name)
        × PlayClause task (name ≡ HelperName.Honest) (name ≡ HelperName.Mute)
        (snapshot (port A.left A.faults first.old) (port B.left B.faults second.old)
        (telling []) (port K.talk K.faults report.old)
        (port C.talk C.faults keep.old))
        (λ talk. snapshot (port A.left A.faults first.new)
        (port B.left B.faults second.new)
        (telling talk) (port K.talk K.faults report.new)
        (port C.talk C.faults keep.new)) status
        × ((bytes seed : List ℕ) → A.left first.old ≡ Some bytes → B.left second.old ≡ Some seed
        → NegativesClause task bytes status negatives.new)) }
    ensures untouched { result ≡ None → (first.new ≡ first.old) × (second.new ≡ second.old)
        × (report.new ≡ report.old) × (keep.new ≡ keep.old) × (negatives.new ≡ negatives.old) }

    // Counts of faults and of wants of memory never fall, and no more than 32 bytes of the seed are
    // taken.
    ensures first { Lasts A.faults A.wants A.is_sure first.old first.new }
    ensures seed { TakesAtMost 32 (B.left second.old) (B.left second.new) }
    ensures second { Lasts B.faults B.wants B.is_sure second.old second.new }
    ensures report { Lasts K.faults K.wants K.is_sure report.old report.new }
    ensures keep { Lasts C.faults C.wants C.is_sure keep.old keep.new }
{
    let Command::Play(task, name) = command else {
        return None;
    };
    match play_named(alloc, task, *name, first, second, report, keep, negatives) {
        Ok(status) => Some(status),
        Err(_) => {
            *negatives = Negatives::default();
            Some(Status::OutOfMemory)
        }
    }
}
