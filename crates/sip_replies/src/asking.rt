//! One query, asked of the helper and checked.
ghost use Rattle.std.specs.Prelude.{◌≡◌, ◌<◌, ℕ, List, true, false, length, Ok, Err, IfOk, IsTrue};
ghost use Rattle.std.specs.Prelude.{MatchResult};
ghost use Rattle.std.specs.declared.option.Option.{Option as AnyOption};
ghost use Rattle.sip_ports.specs.declared.port.TalkEvent.{TalkEvent as AnyEvent};
ghost use Rattle.sip_ports.specs.Ports.{Lasts, Rose};
ghost use Rattle.sip_wire.specs.Spelling.{fits};
ghost use Rattle.sip_wire.specs.declared.message.Message.{Message as AnyMessage};
ghost use Rattle.sip_replies.specs.Protocols.{Begins};
ghost use Rattle.sip_replies.specs.Asking.{Answers, stop_in_round};
ghost use Rattle.sip_replies.specs.Following.{Follows, IsAt, is_hearing, is_open, left};
ghost use Rattle.sip_replies.specs.declared.taking.ReplyStop.{ReplyStop as AnyReplyStop};
ghost use Rattle.sip_replies.specs.declared.taking.ReplyStop.TheVariants as reply_stops;
ghost use Rattle.sip_replies.specs.declared.turn.Stage.TheVariants as stages;

use crate::check::{Check, Said};
use crate::request::Request;
use crate::taking::{ReplyStop, receive};
use crate::turn::Turn;
use sip_ports::{Link, PortStop, Sink};
use sip_vector::Entry;
use sip_wire::{Frame, Reason, Version};

/// Why a query has no answer.
#[derive(Clone, Copy, Debug, PartialEq, Eq)]
pub enum AskStop {
    /// The replies have this first fault; `round` is the number of the reply, or the depth for the
    /// tests after the last.
    Rejected { round: u8, reason: Reason },
    /// A call of the link failed.
    PeerFault,
    /// What was received could not be kept: a call of the keeper failed.
    KeepFault,
    /// The link ran out of memory.
    OutOfMemory,
    /// The keeper ran out of memory.
    KeepOutOfMemory,
}

impl From<PortStop> for AskStop {
    ghost use Rattle.std.specs.Prelude.{◌≡◌};
    ghost use Rattle.sip_replies.specs.Asking.{stop_of_port};

    ghost from_gives = { λ port stop. stop ≡ stop_of_port port };

    fn from(port: PortStop) -> Self {
        match port {
            PortStop::Failed => AskStop::PeerFault,
            PortStop::OutOfMemory => AskStop::OutOfMemory,
        }
    }
}

// what taking the reply of this round gave, as a part of the query's turn
fn in_round(round: u8, taken: Result<(), ReplyStop>) -> Result<(), AskStop>
    ensures same { MatchResult result (λ x. taken ≡ Ok x)
        (λ stop. (of_reply : AnyReplyStop) × (taken ≡ Err of_reply)
        × (stop ≡ stop_in_round round of_reply)) }
    ensures peer { result ≡ Err AskStop.PeerFault → taken ≡ Err reply_stops.PeerFault }
    ensures keeper { result ≡ Err AskStop.KeepFault → taken ≡ Err reply_stops.KeepFault }
    ensures memory { result ≡ Err AskStop.OutOfMemory → taken ≡ Err reply_stops.OutOfMemory }
    ensures keeper_memory { result ≡ Err AskStop.KeepOutOfMemory
        → taken ≡ Err reply_stops.KeepOutOfMemory }
{
    match taken {
        Ok(reply) => Ok(reply),
        Err(ReplyStop::Faulty(reason)) => Err(AskStop::Rejected { round, reason }),
        Err(ReplyStop::PeerFault) => Err(AskStop::PeerFault),
        Err(ReplyStop::KeepFault) => Err(AskStop::KeepFault),
        Err(ReplyStop::OutOfMemory) => Err(AskStop::OutOfMemory),
        Err(ReplyStop::KeepOutOfMemory) => Err(AskStop::KeepOutOfMemory),
    }
}

// Hears the reply that is due. The bytes of each frame are written to `keep` before the frame is
// judged.
fn hear<C: Check, L: Link, K: Sink>(
    turn: &mut Turn,
    check: &mut C,
    places: &mut [Entry],
    frame: &mut Frame,
    link: &mut L,
    keep: &mut K,
) -> Result<(), AskStop>
    requires hears { turn.old.stage ≡ stages.Hears }
    requires at { IsAt turn.old (C.phase check.old) }
    requires stood { (asked : C.Asked) × (s : C.State) × C.stands asked s check.old places.old }
    ensures version { turn.new.version ≡ turn.old.version }
    ensures nearer { IfOk result (λ _. left turn.new < left turn.old) }
    ensures silent { IfOk result (λ _. is_hearing turn.new.stage ≡ false) }
    ensures at { IfOk result (λ _. is_open turn.new.stage ≡ true
        → IsAt turn.new (C.phase check.new)) }
    ensures block { IfOk result (λ _. is_open turn.new.stage ≡ true
        → (C.phase check.new).block ≡ (C.phase check.old).block) }
    ensures stands { (asked : C.Asked) (s : C.State) → C.stands asked s check.old places.old
        → IfOk result (λ _. is_open turn.new.stage ≡ true
        → (t : C.State) × C.stands asked t check.new places.new) }
    ensures follows { (asked : C.Asked) (request : AnyMessage) (block : List ℕ)
        (old before : AnyOption (List AnyEvent)) → (C.phase check.old).block ≡ block
        → Follows (C.protocol asked) request block old (L.talk link.old) before
        (K.talk keep.old) (λ s. C.stands asked s check.old places.old) places.old turn.old
        → MatchResult result
        (λ _. Follows (C.protocol asked) request block old (L.talk link.new) before
        (K.talk keep.new) (λ s. C.stands asked s check.new places.new) places.new turn.new)
        (λ stop. Answers (C.protocol asked) request block old (L.talk link.new) before
        (K.talk keep.new) places.new (Err stop)) }
    ensures lent { C.lent check.new ≡ C.lent check.old }
    ensures places { length places.new ≡ length places.old }
    ensures link { Lasts L.faults L.wants L.is_sure link.old link.new }
    ensures keep { Lasts K.faults K.wants K.is_sure keep.old keep.new }
    ensures peer { result ≡ Err AskStop.PeerFault → Rose (L.faults link.old) (L.faults link.new) }
    ensures keeper { result ≡ Err AskStop.KeepFault → Rose (K.faults keep.old) (K.faults keep.new) }
    ensures memory { result ≡ Err AskStop.OutOfMemory → Rose (L.wants link.old) (L.wants link.new) }
    ensures keeper_memory { result ≡ Err AskStop.KeepOutOfMemory
        → Rose (K.wants keep.old) (K.wants keep.new) }
{
    loop {
        let place = check.place();
        in_round(
            turn.round(),
            receive(turn.version(), place, frame, link, keep),
        )?;
        turn.took(check, places, frame.message());
        if !turn.is_hearing() {
            return Ok(());
        }
    }
}

/// Asks what is requested, takes the replies, reveals a challenge between two of them, and checks
/// them.
///
/// A challenge leaves only after the reply before it was taken and passed its tests, and the last
/// challenge never leaves. No byte is received behind the one that shows the verdict. Where the
/// check knows the answer without a reply, nothing is said. The bytes of each frame are written to
/// `keep` before they are judged; of a frame that a failure of the link cut, none are. Takes no
/// memory; the time is that of the check's calls, one for each frame.
///
/// # Errors
///
/// [`AskStop::Rejected`] with the first fault of the replies; the others are those of the ports,
/// each only where that port's own count of them rose.
pub fn ask<C: Check, Q: Request, L: Link, K: Sink>(
    check: &mut C,
    version: Version,
    request: &Q,
    places: &mut [Entry],
    frame: &mut Frame,
    link: &mut L,
    keep: &mut K,
) -> Result<Said, AskStop>
    requires begins { Begins (C.phase check.old) }
    requires stood { (asked : C.Asked)
        × C.stands asked (C.protocol asked).rules.start check.old places.old }
    requires fits { IsTrue (fits version (Q.message request.now)) }
    ensures answers { (asked : C.Asked) → (C.protocol asked).rules.version ≡ version
        → C.stands asked (C.protocol asked).rules.start check.old places.old
        → Answers (C.protocol asked) (Q.message request.now) (C.phase check.old).block
        (L.talk link.old) (L.talk link.new) (K.talk keep.old) (K.talk keep.new) places.new result }
    ensures lent { C.lent check.new ≡ C.lent check.old }
    ensures places { length places.new ≡ length places.old }
    ensures link { Lasts L.faults L.wants L.is_sure link.old link.new }
    ensures keep { Lasts K.faults K.wants K.is_sure keep.old keep.new }
    ensures peer { result ≡ Err AskStop.PeerFault → Rose (L.faults link.old) (L.faults link.new) }
    ensures keeper { result ≡ Err AskStop.KeepFault → Rose (K.faults keep.old) (K.faults keep.new) }
    ensures memory { result ≡ Err AskStop.OutOfMemory → Rose (L.wants link.old) (L.wants link.new) }
    ensures keeper_memory { result ≡ Err AskStop.KeepOutOfMemory
        → Rose (K.wants keep.old) (K.wants keep.new) }
{
    let mut turn = Turn::begin(check, version);
    loop {
        if let Some(verdict) = turn.verdict() {
            return verdict;
        }
        turn.send(request, link)?;
        turn.sent();
        hear(&mut turn, check, places, frame, link, keep)?;
    }
}
