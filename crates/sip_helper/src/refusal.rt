//! Replies that refuse.

ghost use Rattle.std.specs.Prelude.{◌≡◌, ◌≤◌};
ghost use Rattle.sip_ports.specs.Ports.{HasCause, SendsWhole};
ghost use Rattle.sip_wire.specs.Spelling.{spelling};
ghost use Rattle.sip_wire.specs.Table.{most_refusal};
ghost use Rattle.sip_wire.specs.declared.message.Message.TheVariants as messages;

use sip_ports::{PortStop, Sink};
use sip_wire::{Message, Version, encode};

/// The code of a refusal for want of memory.
pub const WANT_OF_MEMORY: u8 = 1;

/// The code of a refusal where the answer has more entries than one may have.
pub const TOO_MANY: u8 = 2;

/// The code of a refusal where an entry of the query's side is negative.
pub(crate) const NOT_STRICT: u8 = 3;

/// The code of the refusal of a message out of turn.
pub(crate) const OUT_OF_TURN: u8 = 4;

/// Sends a refusal, in one write. After an `Err` a part of it was sent, and not all.
#[inline(never)]
pub fn put_refusal<K: Sink>(version: Version, code: u8, out: &mut K) -> Result<(), PortStop>
    requires some { 1 ≤ code }
    requires most { code ≤ most_refusal }
    ensures talk { SendsWhole (K.talk out.old)
        (K.talk out.new) result (spelling version (messages.Refuse code)) }
    ensures cause { HasCause K.faults K.wants K.is_sure out.old out.new result }
{
    encode(&Message::Refuse { code }, version, out)
}
