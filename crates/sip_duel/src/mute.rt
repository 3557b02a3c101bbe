//! A helper that says nothing.

ghost use Rattle.std.specs.Prelude.{◌≡◌, None, Ok};
ghost use Rattle.sip_ports.specs.Memory.{sink_bytes, sink_is_sure};
ghost use Rattle.sip_duel.specs.Helping.{Replies};

use crate::{Helper, More};
use sip_field::OutOfMemory;
use sip_ports::MemorySink;
use sip_wire::Message;

/// A helper that has ended from the start, and says nothing.
#[derive(Drop)]
pub struct Mute {}

impl Mute {
    /// A helper that says nothing.
    pub fn new() -> Mute {
        Mute {}
    }
}

impl Helper for Mute {
    ghost use Rattle.std.specs.Prelude.{None, true};

    ghost honest_state = { λ _. None };

    ghost is_mute = { λ _. true };

    fn hear(&mut self, _message: &Message) {}

    fn answer(&mut self, out: &mut MemorySink) -> Result<More, OutOfMemory>
        ensures ended { result ≡ Ok More.Ended }
        ensures same { out.new ≡ out.old }
    {
        Ok(More::Ended)
    }

    fn close(&mut self) {}
}
