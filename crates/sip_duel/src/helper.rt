//! What a helper is.

ghost use Rattle.std.specs.Prelude.{◌≡◌, Bool, false, Ok, Option, IsTrue};
ghost use Rattle.sip_ports.specs.Memory.{sink_bytes, sink_is_sure};
ghost use Rattle.sip_wire.specs.Spelling.{fits};
ghost use Rattle.sip_wire.specs.declared.version.Version.TheVariants.{Two};
ghost use Rattle.sip_helper.specs.Turns.{HelperState};
ghost use Rattle.sip_duel.specs.Helping.{Hears, Replies};

use sip_field::OutOfMemory;
use sip_ports::MemorySink;
use sip_wire::Message;

/// Whether a helper goes on.
#[derive(Clone, Copy, Debug, PartialEq, Eq)]
pub enum More {
    /// Bytes were appended.
    Goes,
    /// None were, and none will be.
    Ended,
}

/// The other end of a talk, in a box.
///
/// Where its `honest_state` is told, it keeps to the turns of an honest helper; where it `is_mute`,
/// it says nothing. After `Ended` or an `Err` neither `hear` nor `answer` is called again.
pub trait Helper: Drop {
    /// Its state by the turns of a helper, where it is told.
    ghost honest_state: { Self → Option HelperState };

    /// Whether it has ended, whatever it hears.
    ghost is_mute: { Self → Bool } = { λ _. false };

    /// Hears a message. One that may come next steps the state; after another one the state is the
    /// same, or is told no longer.
    fn hear(&mut self, message: &Message)
        requires { IsTrue (fits Two message.now) }
        ensures hears { Hears (honest_state self.old) message.now (honest_state self.new) }
        ensures mute { IsTrue (is_mute self.old) → IsTrue (is_mute self.new) };

    /// Appends the reply that is due, at least one byte of it where it [`Goes`](More::Goes), and
    /// none where it has [`Ended`](More::Ended). Where the state is told it is the reply that is
    /// owed, or nothing where none is. After an `Err` any bytes may have been appended.
    fn answer(&mut self, out: &mut MemorySink) -> Result<More, OutOfMemory>
        requires { sink_is_sure out.old }
        ensures sure { sink_is_sure out.new }
        ensures replies { Replies (honest_state self.old) (honest_state self.new)
            (sink_bytes out.old) (sink_bytes out.new) result }
        ensures mute { IsTrue (is_mute self.old)
            → (result ≡ Ok More.Ended) × IsTrue (is_mute self.new) };

    /// Lets go of what it has.
    fn close(&mut self);
}
