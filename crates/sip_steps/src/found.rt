//! The place that a lookup is told, as its bytes come.

ghost use Rattle.std.specs.Prelude.{◌≡◌, ◌++◌, ◌<◌, ◌≤◌, None, length, take};
ghost use Rattle.sip_wire.specs.Frames.{frame_bytes};
ghost use Rattle.sip_wire.specs.Spelling.{asked};
ghost use Rattle.sip_wire.specs.declared.kind.Place.TheVariants as places;
ghost use Rattle.sip_replies.specs.Replies.{reason_of};
ghost use Rattle.sip_lookup.specs.Frames.{found_in};
ghost use Rattle.sip_steps.specs.Looked.{SaysFound};

use sip_wire::{Frame, Message, Place, Reason, Taken, Version, WireFault};

// The fault of a frame, as the reason that it is.
fn reason_for(fault: WireFault) -> Reason
    ensures { result ≡ reason_of fault }
{
    match fault {
        WireFault::BadKind => Reason::BadKind,
        WireFault::BadLength => Reason::BadLength,
        WireFault::BadCount => Reason::BadCount,
        WireFault::BadNumber => Reason::BadNumber,
        WireFault::Closed | WireFault::PeerFault | WireFault::OutOfMemory => Reason::Closed,
    }
}

// The place that a message names where a Found is awaited, or that it names none.
fn place_in(message: &Message) -> Result<Option<u64>, Reason>
    ensures { result ≡ found_in message.now }
{
    match message {
        Message::Found { flag, index } => Ok(if *flag == 1 { Some(*index) } else { None }),
        Message::Refuse { code } => Err(Reason::Refused(*code)),
        _ => Err(Reason::BadKind),
    }
}

// Looks at what came of a Found: a part, or what it says.
fn look(version: Version, frame: &mut Frame) -> Option<Result<Option<u64>, Reason>>
    requires { length (frame_bytes frame.old)
        ≤ asked version places.Found (frame_bytes frame.old) }
    ensures bytes { frame_bytes frame.new ≡ frame_bytes frame.old }
    ensures says { SaysFound version (frame_bytes frame.new) result }
{
    match frame.judge(Place::Found, version) {
        Taken::Part => None,
        Taken::Whole => Some(place_in(frame.message())),
        Taken::NoFrame(fault) => Some(Err(reason_for(fault))),
    }
}

/// Takes bytes of a Found, and answers how many, and what it says once that is known: the place, or
/// its fault.
pub(crate) fn take_found(
    version: Version,
    frame: &mut Frame,
    bytes: &[u8],
) -> (usize, Option<Result<Option<u64>, Reason>>)
    requires { SaysFound version (frame_bytes frame.old) None }
    ensures most { result.0 ≤ length bytes.now }
    ensures all { result.1 ≡ None → result.0 ≡ length bytes.now }
    ensures bytes { frame_bytes frame.new ≡ frame_bytes frame.old ++ take result.0 bytes.now }
    ensures says { SaysFound version (frame_bytes frame.new) result.1 }
{
    let mut taken = 0;
    while taken < bytes.len() {
        let rest = &bytes[taken..];
        let count = frame.room(Place::Found, version).min(rest.len());
        frame.put(Place::Found, version, &rest[..count]);
        taken += count;
        let said = look(version, frame);
        if said.is_some() {
            return (taken, said);
        }
    }
    (taken, None)
}
