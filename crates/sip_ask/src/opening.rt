//! The other end is told how much of the stream is asked about, and says what it holds of it.

ghost use Rattle.std.specs.Prelude.{◌≡◌, ◌≤◌, MatchResult, Ok, Err};
ghost use Rattle.sip_ports.specs.Ports.{HasCause, Lasts, Rose, SendsWhole};
ghost use Rattle.sip_wire.specs.Spelling.{spelling};
ghost use Rattle.sip_wire.specs.Versions.{deepest, number_of};
ghost use Rattle.sip_wire.specs.declared.message.Message.TheVariants as messages;
ghost use Rattle.sip_wire.specs.declared.message.WireFault.{WireFault as AnyWireFault};
ghost use Rattle.sip_ask.specs.Turns.{held_by, recall_bytes};
ghost use Rattle.sip_ask.specs.inside.Opening.{HearsHeld, OpensWith, of_fault};

use crate::AskStatus;
use crate::ending::on_link;
use sip_ports::{Link, PortStop, Sink};
use sip_vector::{Depth, Tally};
use sip_wire::{Frame, Held, Message, Place, Version, WireFault, decode_within, encode};

/// What a sketch has of its stream, as a helper says what it holds.
pub fn held_by(tally: &Tally) -> Held
    ensures { result ≡ held_by tally.now }
{
    Held {
        records: tally.count,
        first: tally.first,
        second: tally.second,
        fingerprint: tally.fingerprint.get(),
    }
}

// What receiving the frame gave that is due.
fn on_frame(judged: Result<(), WireFault>) -> Result<(), AskStatus>
    ensures { MatchResult result (λ x. judged ≡ Ok x)
        (λ status. (fault : AnyWireFault) × (judged ≡ Err fault) × (status ≡ of_fault fault)) }
{
    match judged {
        Ok(()) => Ok(()),
        Err(WireFault::Closed) => Err(AskStatus::PeerClosed),
        Err(WireFault::PeerFault) => Err(AskStatus::PeerFault),
        Err(WireFault::OutOfMemory) => Err(AskStatus::OutOfMemory),
        Err(_) => Err(AskStatus::BadFrame),
    }
}

// Sends the opening. A message is as large as any, so each is made in a call of its own.
#[inline(never)]
fn send_opening<K: Sink>(version: Version, depth: Depth, sink: &mut K) -> Result<(), PortStop>
    requires { depth ≤ deepest version }
    ensures talk { SendsWhole (K.talk sink.old) (K.talk sink.new) result
        (spelling version (messages.Open (number_of version) depth)) }
    ensures cause { HasCause K.faults K.wants K.is_sure sink.old sink.new result }
{
    let opening = Message::Open {
        version: version.number(),
        depth: depth.get(),
    };
    encode(&opening, version, sink)
}

// Sends how many records the other end is to hear.
#[inline(never)]
fn send_count<K: Sink>(version: Version, count: u64, sink: &mut K) -> Result<(), PortStop>
    ensures talk { SendsWhole (K.talk sink.old) (K.talk sink.new) result
        (spelling version (messages.Recall count)) }
    ensures cause { HasCause K.faults K.wants K.is_sure sink.old sink.new result }
{
    encode(&Message::Recall { count }, version, sink)
}

/// Sends what a talk begins with: its opening in a version, and how many records the other end is
/// to hear. Nothing of it depends on a challenge.
///
/// # Errors
///
/// Those of the sink, which a front of it has then reached that is shorter than it.
pub fn recall<K: Sink>(
    version: Version,
    depth: Depth,
    count: u64,
    sink: &mut K,
) -> Result<(), PortStop>
    requires { depth ≤ deepest version }
    ensures talk { SendsWhole (K.talk sink.old) (K.talk sink.new) result
        (recall_bytes version depth count) }
    ensures cause { HasCause K.faults K.wants K.is_sure sink.old sink.new result }
{
    send_opening(version, depth, sink)?;
    send_count(version, count, sink)
}

// Hears what the other end holds.
fn hear_held<L: Link>(version: Version, link: &mut L, frame: &mut Frame) -> Result<Held, AskStatus>
    ensures hears { HearsHeld version (L.talk link.old) (L.talk link.new) result }
    ensures cause { result ≡ Err AskStatus.PeerFault
        → Rose (L.faults link.old) (L.faults link.new) }
    ensures memory { result ≡ Err AskStatus.OutOfMemory
        → Rose (L.wants link.old) (L.wants link.new) }
    ensures link { Lasts L.faults L.wants L.is_sure link.old link.new }
{
    on_frame(decode_within(link, Place::Held, version, frame))?;
    match frame.message() {
        Message::Held(held) => Ok(*held),
        _ => unreachable!(),
    }
}

/// Opens a talk in a version about the records that are told of here, and hears that the other end
/// holds them. Nothing that is sent depends on a challenge.
///
/// # Errors
///
/// `PeerFault` and `OutOfMemory` where the link's own count of them rose; `PeerClosed` where it
/// ended before what is held was said, and `BadFrame` where something else was said; `OutOfStep`
/// where the other end holds anything else.
pub(crate) fn open<L: Link>(
    version: Version,
    depth: Depth,
    tally: &Tally,
    link: &mut L,
    frame: &mut Frame,
) -> Result<(), AskStatus>
    requires { depth ≤ deepest version }
    ensures opens { OpensWith version depth tally.now (L.talk link.old) (L.talk link.new) result }
    ensures cause { result ≡ Err AskStatus.PeerFault
        → Rose (L.faults link.old) (L.faults link.new) }
    ensures memory { result ≡ Err AskStatus.OutOfMemory
        → Rose (L.wants link.old) (L.wants link.new) }
    ensures link { Lasts L.faults L.wants L.is_sure link.old link.new }
{
    on_link(recall(version, depth, tally.count, link))?;
    let held = hear_held(version, link, frame)?;
    let kept = held_by(tally);
    if held != kept {
        return Err(AskStatus::OutOfStep { held, kept });
    }
    Ok(())
}
