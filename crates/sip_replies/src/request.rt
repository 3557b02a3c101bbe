// What is asked: the message that begins a talk.

use sip_ports::{Link, PortStop};
use sip_vector::Query;
use sip_wire::{Version, encode_query};

/// What can be asked: one message, behind which the replies are due.
pub trait Request {
    ghost use Rattle.std.specs.Prelude.{IsTrue};
    ghost use Rattle.sip_ports.specs.Ports.{HasCause, SendsWhole};
    ghost use Rattle.sip_wire.specs.declared.message.Message.{Message as AnyMessage};
    ghost use Rattle.sip_wire.specs.Spelling.{fits, spelling};

    /// The message.
    ghost message: { Self → AnyMessage };

    /// Sends the message, in one write where the link takes it whole.
    ///
    /// # Errors
    ///
    /// Those of the link, which a front of the message has then reached that is shorter than it.
    fn send<L: Link>(&self, version: Version, link: &mut L) -> Result<(), PortStop>
        requires fits { IsTrue (fits version (message self.now)) }
        ensures talk { SendsWhole (L.talk link.old) (L.talk link.new) result
            (spelling version (message self.now)) }
        ensures cause { HasCause L.faults L.wants L.is_sure link.old link.new result };
}

/// A query is asked by the message of it.
impl Request for Query {
    ghost use Rattle.sip_wire.specs.declared.message.Message.TheVariants as messages;

    ghost message = { messages.Query };

    fn send<L: Link>(&self, version: Version, link: &mut L) -> Result<(), PortStop> {
        encode_query(*self, version, link)
    }
}
