//! What the other end holds, as its bytes come.

ghost use Rattle.std.specs.Prelude.{◌≡◌, ◌++◌, ◌≤◌, length, take};
ghost use Rattle.sip_wire.specs.Frames.{frame_bytes};
ghost use Rattle.sip_wire.specs.Spelling.{asked};
ghost use Rattle.sip_wire.specs.declared.kind.Place.TheVariants as places;
ghost use Rattle.sip_wire.specs.declared.message.Message.TheVariants as messages;
ghost use Rattle.sip_ask_steps.specs.Hearing.{IsHeld, SaysHeld};

use sip_wire::{Frame, Held, Message, Place, Taken, Version};

/// What a frame says where what is held is awaited.
#[derive(Clone, Copy)]
pub(crate) enum Says {
    /// It is not whole yet.
    Nothing,
    /// This is held.
    Holds(Held),
    /// It has another spelling.
    Other,
}

// What a message says.
fn held_in(message: &Message) -> Held
    requires { IsHeld message.now }
    ensures { message.now ≡ messages.Held result }
{
    match message {
        Message::Held(held) => *held,
        _ => unreachable!(),
    }
}

// Looks at what came of the frame.
fn look(version: Version, frame: &mut Frame) -> Says
    requires { length (frame_bytes frame.old)
        ≤ asked version places.Held (frame_bytes frame.old) }
    ensures bytes { frame_bytes frame.new ≡ frame_bytes frame.old }
    ensures says { SaysHeld version (frame_bytes frame.new) result }
{
    match frame.judge(Place::Held, version) {
        Taken::Part => Says::Nothing,
        Taken::Whole => Says::Holds(held_in(frame.message())),
        Taken::NoFrame(_) => Says::Other,
    }
}

/// Takes bytes of the frame, and answers how many, and what it says once that is known.
pub(crate) fn take_held(version: Version, frame: &mut Frame, bytes: &[u8]) -> (usize, Says)
    requires { SaysHeld version (frame_bytes frame.old) Says.Nothing }
    ensures most { result.0 ≤ length bytes.now }
    ensures all { result.1 ≡ Says.Nothing → result.0 ≡ length bytes.now }
    ensures bytes { frame_bytes frame.new ≡ frame_bytes frame.old ++ take result.0 bytes.now }
    ensures says { SaysHeld version (frame_bytes frame.new) result.1 }
{
    let mut taken = 0;
    while taken < bytes.len() {
        let rest = &bytes[taken..];
        let count = frame.room(Place::Held, version).min(rest.len());
        frame.put(Place::Held, version, &rest[..count]);
        taken += count;
        let says = look(version, frame);
        if !matches!(says, Says::Nothing) {
            return (taken, says);
        }
    }
    (taken, Says::Nothing)
}
