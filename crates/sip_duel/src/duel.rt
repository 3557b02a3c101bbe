//! A run of the verifier against a boxed helper.

ghost use Rattle.std.specs.Prelude.{◌≡◌, ◌≢◌, ◌≤◌, ℕ, List, None, Some, []};
ghost use Rattle.std.specs.Option.{option_and_then};
ghost use Rattle.sip_ports.specs.Ports.{Lasts, heard};
ghost use Rattle.sip_verifier.specs.Exchanges.{Exchange as AnyExchange, Tells, TakesAtMost};
ghost use Rattle.sip_verifier.specs.Negatives.{NegativesClause};
ghost use Rattle.sip_verifier.specs.Snapshots.{counts, port, snapshot, telling};
ghost use Rattle.sip_verifier.specs.RunClause.{RunClause};
ghost use Rattle.sip_verifier.specs.Tasks.{CanBeDone};
ghost use Rattle.sip_duel.specs.Accepting.{DuelAccepts};
ghost use Rattle.sip_duel.specs.Muting.{DuelCloses, IsSilent};
ghost use Rattle.sip_duel.specs.Story.{IsHonestTalk, Keeps};

use crate::{HelperLink, MuteLink};
use sip_ports::{Sink, Source};
use sip_vector::{Depth, Negatives};
use sip_verifier::{Status, Task, check_stream};
use sip_wire::MOST_QUERIES;
use std::alloc::Global;

/// Does a task over a link to a boxed helper, which is closed and dropped at every exit; the talk
/// stays on the link.
///
/// It is [`check_stream`] over that link, and makes its seven promises. The link counts no fault,
/// so no answer is a fault of the peer. Where the helper is an honest one that had heard nothing,
/// its bytes are the replies that are owed by the turns of a helper, and a good run over a link
/// that was made for it is accepted with the stream's own answers. Want of memory alone changes
/// that: at this end it is the answer, and the helper refuses a query. `negatives` gets what
/// [`check_stream`] tells.
pub fn play<A: Source, B: Source, K: Sink, C: Sink>(
    alloc: Global,
    task: &Task,
    first: &mut A,
    second: &mut B,
    link: &mut HelperLink,
    report: &mut K,
    keep: &mut C,
    negatives: &mut Negatives,
) -> Status
    requires { CanBeDone task.now }
    ensures keeps { RunClause task.now
        (snapshot (port A.left A.faults first.old) (port B.left B.faults second.old)
        (telling link.old.kept.talk.items) (port K.talk K.faults report.old)
        (port C.talk C.faults keep.old))
        (snapshot (port A.left A.faults first.new) (port B.left B.faults second.new)
        (telling link.new.kept.talk.items) (port K.talk K.faults report.new)
        (port C.talk C.faults keep.new))
        result }
    ensures peer { result ≢ Status.PeerFault }
    ensures honest { Keeps (option_and_then honest_state link.old.helper) link.old.kept
        → IsHonestTalk link.new.kept.talk.items }
    ensures accepts { Keeps (option_and_then honest_state link.old.helper) link.old.kept
        → link.old.kept.talk.items ≡ [] → (x : AnyExchange)
        → Tells
        (snapshot (port A.left A.faults first.old) (port B.left B.faults second.old)
        (telling link.old.kept.talk.items) (port K.talk K.faults report.old)
        (port C.talk C.faults keep.old))
        (snapshot (port A.left A.faults first.new) (port B.left B.faults second.new)
        (telling link.new.kept.talk.items) (port K.talk K.faults report.new)
        (port C.talk C.faults keep.new)) x
        → DuelAccepts task.now x
        (counts (A.faults first.old) (B.faults second.old) 0 (K.faults report.old)
        (C.faults keep.old))
        (counts (A.faults first.new) (B.faults second.new) 0 (K.faults report.new)
        (C.faults keep.new)) result }
    ensures negatives { (bytes seed : List ℕ)
        → A.left first.old ≡ Some bytes → B.left second.old ≡ Some seed
        → NegativesClause task.now bytes result negatives.new }
    ensures gone { link.new.helper ≡ None }
    ensures wants { link.old.wants.count ≤ link.new.wants.count }
    ensures first { Lasts A.faults A.wants A.is_sure first.old first.new }
    ensures seed { TakesAtMost 32 (B.left second.old) (B.left second.new) }
    ensures second { Lasts B.faults B.wants B.is_sure second.old second.new }
    ensures report { Lasts K.faults K.wants K.is_sure report.old report.new }
    ensures keep { Lasts C.faults C.wants C.is_sure keep.old keep.new }
{
    let levels = task.depth.get();
    prove!(levels >= 1 && levels <= Depth::MOST);
    let asked = task.queries.len();
    prove!(asked <= MOST_QUERIES);
    let status = check_stream(alloc, task, first, second, link, report, keep, negatives);
    link.close_and_drop();
    status
}

/// Does a task over a link to a helper that says nothing, which is closed and dropped at every
/// exit; the talk stays on the link.
///
/// It is [`check_stream`] over that link, as [`play`] is over another one. Nothing is received, so
/// a query is rejected only at its first reply, where the link has ended; one whose answer is known
/// without a reply is accepted.
pub fn play_mute<A: Source, B: Source, K: Sink, C: Sink>(
    alloc: Global,
    task: &Task,
    first: &mut A,
    second: &mut B,
    link: &mut MuteLink,
    report: &mut K,
    keep: &mut C,
    negatives: &mut Negatives,
) -> Status
    requires { CanBeDone task.now }
    ensures keeps { RunClause task.now
        (snapshot (port A.left A.faults first.old) (port B.left B.faults second.old)
        (telling link.old.link.kept.talk.items) (port K.talk K.faults report.old)
        (port C.talk C.faults keep.old))
        (snapshot (port A.left A.faults first.new) (port B.left B.faults second.new)
        (telling link.new.link.kept.talk.items) (port K.talk K.faults report.new)
        (port C.talk C.faults keep.new))
        result }
    ensures peer { result ≢ Status.PeerFault }
    ensures silent { IsSilent is_mute link.old.link.helper link.old.link.kept
        → heard link.new.link.kept.talk.items ≡ [] }
    ensures closes { IsSilent is_mute link.old.link.helper link.old.link.kept → (x : AnyExchange)
        → Tells
        (snapshot (port A.left A.faults first.old) (port B.left B.faults second.old)
        (telling link.old.link.kept.talk.items) (port K.talk K.faults report.old)
        (port C.talk C.faults keep.old))
        (snapshot (port A.left A.faults first.new) (port B.left B.faults second.new)
        (telling link.new.link.kept.talk.items) (port K.talk K.faults report.new)
        (port C.talk C.faults keep.new)) x
        → DuelCloses result }
    ensures negatives { (bytes seed : List ℕ)
        → A.left first.old ≡ Some bytes → B.left second.old ≡ Some seed
        → NegativesClause task.now bytes result negatives.new }
    ensures gone { link.new.link.helper ≡ None }
    ensures wants { link.old.link.wants.count ≤ link.new.link.wants.count }
    ensures first { Lasts A.faults A.wants A.is_sure first.old first.new }
    ensures seed { TakesAtMost 32 (B.left second.old) (B.left second.new) }
    ensures second { Lasts B.faults B.wants B.is_sure second.old second.new }
    ensures report { Lasts K.faults K.wants K.is_sure report.old report.new }
    ensures keep { Lasts C.faults C.wants C.is_sure keep.old keep.new }
{
    let levels = task.depth.get();
    prove!(levels >= 1 && levels <= Depth::MOST);
    let status = check_stream(alloc, task, first, second, link, report, keep, negatives);
    link.close_and_drop();
    status
}
