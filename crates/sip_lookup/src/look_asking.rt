//! One lookup, asked of the helper and checked.

ghost use Rattle.std.specs.Prelude.{◌≡◌, ◌⊎◌, ◌<◌, ◌≤◌, ◌^◌, ℕ, false, IfErr, IsTrue, Ok, Err};
ghost use Rattle.std.specs.Prelude.{List, MatchResult, length, vec_capacity};
ghost use Rattle.sip_field.specs.Moduli.{m61_modulus};
ghost use Rattle.sip_ports.specs.declared.port.PortStop.{PortStop as AnyPortStop};
ghost use Rattle.sip_ports.specs.Ports.{HasCause, Lasts, Rose, SendsWhole};
ghost use Rattle.sip_subvec.specs.Replies.{most_entries};
ghost use Rattle.sip_tree.specs.StandsFor.{RootStandsFor};
ghost use Rattle.sip_vector.specs.declared.update.Side.TheVariants.{First};
ghost use Rattle.sip_vector.specs.declared.update.Update.{Update as AnyUpdate};
ghost use Rattle.sip_vector.specs.Streams.{vector};
ghost use Rattle.sip_wire.specs.declared.message.Reason.{Reason as AnyReason};
ghost use Rattle.sip_wire.specs.declared.message.WireFault.{WireFault as AnyWireFault};
ghost use Rattle.sip_wire.specs.Spelling.{spelling};
ghost use Rattle.sip_wire.specs.Versions.{deepest};
ghost use Rattle.sip_verifier.specs.AskClause.{AskClause};
ghost use Rattle.sip_verifier.specs.runs.Askers.{Asks};
ghost use Rattle.sip_verifier.specs.Snapshots.{span};
ghost use Rattle.sip_lookup.specs.Frames.{ask_message, found_in};
ghost use Rattle.sip_lookup.specs.Hearing.{HearsFound, is_of_link, stop_of_found, stop_of_keeper};
ghost use Rattle.sip_lookup.specs.Hearing.{stop_of_link};
ghost use Rattle.sip_lookup.specs.Lookups.{item_of};
ghost use Rattle.sip_lookup.specs.Questions.{looking};
ghost use Rattle.sip_lookup.specs.Sittings.{looked_of};

use crate::answer::LookAnswer;
use crate::lookup::Lookup;
use sip_field::M61;
use sip_ports::{Link, PortStop, Sink, write_whole};
use sip_tree::Root;
use sip_vector::{CAP, Depth, Entry};
use sip_verifier::{SessionFault, Unanswered, Verdict, ask_sub};
use sip_wire::{Frame, Message, Place, Reason, Version, WireFault, decode_within, encode};

/// What sending on the link gave.
fn on_link(sent: Result<(), PortStop>) -> Result<(), Unanswered>
    ensures { MatchResult result (λ x. sent ≡ Ok x) (λ stop. (port : AnyPortStop)
        × (sent ≡ Err port) × (stop ≡ stop_of_link port)) }
{
    match sent {
        Ok(()) => Ok(()),
        Err(PortStop::Failed) => Err(Unanswered::Fault(SessionFault::PeerFault)),
        Err(PortStop::OutOfMemory) => Err(Unanswered::Fault(SessionFault::OutOfMemory)),
    }
}

/// What writing to the keeper gave.
fn on_keep(written: Result<(), PortStop>) -> Result<(), Unanswered>
    ensures { MatchResult result (λ x. written ≡ Ok x) (λ stop. (port : AnyPortStop)
        × (written ≡ Err port) × (stop ≡ stop_of_keeper port)) }
{
    match written {
        Ok(()) => Ok(()),
        Err(PortStop::Failed) => Err(Unanswered::Fault(SessionFault::KeepFault)),
        Err(PortStop::OutOfMemory) => Err(Unanswered::Fault(SessionFault::OutOfMemory)),
    }
}

/// Where the link stopped inside a Found, what that gave.
fn on_wire(judged: Result<(), WireFault>) -> Result<(), Unanswered>
    ensures { MatchResult result (λ _. IfErr judged (λ fault. is_of_link fault ≡ false))
        (λ stop. (fault : AnyWireFault) × (judged ≡ Err fault) × IsTrue (is_of_link fault)
        × (stop ≡ stop_of_found fault)) }
{
    match judged {
        Err(WireFault::PeerFault) => Err(Unanswered::Fault(SessionFault::PeerFault)),
        Err(WireFault::OutOfMemory) => Err(Unanswered::Fault(SessionFault::OutOfMemory)),
        _ => Ok(()),
    }
}

/// What receiving a Found gave.
fn on_found(judged: Result<(), WireFault>) -> Result<(), Unanswered>
    ensures { MatchResult result (λ x. judged ≡ Ok x) (λ stop. (fault : AnyWireFault)
        × (judged ≡ Err fault) × (stop ≡ stop_of_found fault)) }
{
    let reason = match judged {
        Ok(()) => return Ok(()),
        Err(WireFault::PeerFault) => return Err(Unanswered::Fault(SessionFault::PeerFault)),
        Err(WireFault::OutOfMemory) => return Err(Unanswered::Fault(SessionFault::OutOfMemory)),
        Err(WireFault::Closed) => Reason::Closed,
        Err(WireFault::BadKind) => Reason::BadKind,
        Err(WireFault::BadLength) => Reason::BadLength,
        Err(WireFault::BadCount) => Reason::BadCount,
        Err(WireFault::BadNumber) => Reason::BadNumber,
    };
    Err(Unanswered::Rejected { round: 0, reason })
}

/// The place that a message names where a Found is awaited, or that it names none.
fn place_in(message: &Message) -> Result<Option<u64>, Unanswered>
    ensures { MatchResult result (λ found. found_in message.now ≡ Ok found)
        (λ stop. (reason : AnyReason) × (found_in message.now ≡ Err reason)
        × (stop ≡ Unanswered.Rejected 0 reason)) }
{
    let reason = match message {
        Message::Found { flag, index } => {
            return Ok(if *flag == 1 { Some(*index) } else { None });
        }
        Message::Refuse { code } => Reason::Refused(*code),
        _ => Reason::BadKind,
    };
    Err(Unanswered::Rejected { round: 0, reason })
}

/// Sends an Ask.
fn send_ask<L: Link>(lookup: Lookup, version: Version, link: &mut L) -> Result<(), PortStop>
    ensures talk { SendsWhole (L.talk link.old) (L.talk link.new) result
        (spelling version (ask_message lookup)) }
    ensures cause { HasCause L.faults L.wants L.is_sure link.old link.new result }
{
    let ask = Message::AskLook {
        code: lookup.code(),
        item: lookup.item(),
    };
    encode(&ask, version, link)
}

/// Receives a Found, writes its bytes to `keep`, and then judges it. Where the link stopped inside
/// it nothing is kept.
fn hear_found<L: Link, C: Sink>(
    version: Version,
    link: &mut L,
    keep: &mut C,
    frame: &mut Frame,
) -> Result<Option<u64>, Unanswered>
    ensures hears { HearsFound version (L.talk link.old) (L.talk link.new) (C.talk keep.old)
        (C.talk keep.new) result }
    ensures cause { result ≡ Err (Unanswered.Fault SessionFault.PeerFault)
        → Rose (L.faults link.old) (L.faults link.new) }
    ensures keep_cause { result ≡ Err (Unanswered.Fault SessionFault.KeepFault)
        → Rose (C.faults keep.old) (C.faults keep.new) }
    ensures memory { result ≡ Err (Unanswered.Fault SessionFault.OutOfMemory)
        → Rose (L.wants link.old) (L.wants link.new) ⊎ Rose (C.wants keep.old) (C.wants keep.new) }
    ensures link { Lasts L.faults L.wants L.is_sure link.old link.new }
    ensures keep { Lasts C.faults C.wants C.is_sure keep.old keep.new }
{
    let judged = decode_within(link, Place::Found, version, frame);
    on_wire(judged)?;
    on_keep(write_whole(keep, frame.bytes()))?;
    on_found(judged)?;
    place_in(frame.message())
}

/// Asks a lookup, takes the replies and judges them: the place that is found, and the entries of
/// the interval that proves it, by the root of side 0.
///
/// The query for the interval leaves only after the Found was taken, has no fault and names a place
/// that may be found. `keep` gets each frame's bytes before they are judged. No memory is taken:
/// `entries` has room for 65,536, and keeps it. The time is linear in the replies and in that room.
/// A root is asked once: the other end knows all but one of its challenges from then on.
///
/// # Errors
///
/// `Rejected` with the first fault of the replies: those of the Found, and that its place may not
/// be found, in round 0; those of the sub-vector; and, in round `depth`, that its entries do not
/// stand alone. The others are those of the ports, each only where that port's own count of them
/// rose.
pub fn ask_look<L: Link, C: Sink>(
    version: Version,
    root: &Root<M61, CAP>,
    depth: Depth,
    lookup: Lookup,
    link: &mut L,
    keep: &mut C,
    frame: &mut Frame,
    entries: &mut Vec<Entry>,
) -> Result<LookAnswer, Unanswered>
    requires levels { length root.now.seat ≡ depth }
    requires shallow { depth ≤ deepest version }
    requires item { item_of lookup < 2 ^ depth }
    requires room { most_entries ≤ vec_capacity entries.old }
    ensures asks { (stream : List AnyUpdate)
        → RootStandsFor m61_modulus root.now.seat root.now.value (vector depth stream First)
        → Asks (looking version depth stream) (lookup, root.now.seat) (L.talk link.old)
        (L.talk link.new) (λ given answer. looked_of given ≡ answer) result }
    ensures room { vec_capacity entries.old ≤ vec_capacity entries.new }
    ensures keeps { AskClause version
        (span L.talk L.faults L.wants link.old link.new)
        (span C.talk C.faults C.wants keep.old keep.new) result }
    ensures link { Lasts L.faults L.wants L.is_sure link.old link.new }
    ensures keep { Lasts C.faults C.wants C.is_sure keep.old keep.new }
{
    let levels = depth.get();
    prove!(levels >= 1);
    on_link(send_ask(lookup, version, link))?;
    let found = hear_found(version, link, keep, frame)?;
    if !lookup.is_possible(depth, found) {
        return Err(Unanswered::Rejected {
            round: 0,
            reason: Reason::BadFound,
        });
    }
    let (lo, hi) = lookup.interval(depth, found);
    match ask_sub(version, root, lo, hi, link, keep, frame, entries) {
        Ok(Verdict::Pairs) => {
            if !lookup.is_alone(found, entries) {
                return Err(Unanswered::Rejected {
                    round: depth.get(),
                    reason: Reason::NotAlone,
                });
            }
            Ok(lookup.answer(entries))
        }
        Ok(Verdict::Rejected { round, reason }) => Err(Unanswered::Rejected { round, reason }),
        // A sub-vector's answer is no number, which would not be its entries alone.
        Ok(Verdict::Number(_)) => Err(Unanswered::Rejected {
            round: depth.get(),
            reason: Reason::NotAlone,
        }),
        Err(fault) => Err(Unanswered::Fault(fault)),
    }
}
