//! The honest helper.

ghost use Rattle.std.specs.Prelude.{◌≡◌, ◌≢◌, false, Option, Some, None, IsTrue};
ghost use Rattle.sip_ports.specs.Memory.{sink_bytes, sink_is_sure};
ghost use Rattle.sip_wire.specs.Spelling.{fits};
ghost use Rattle.sip_wire.specs.declared.version.Version.TheVariants.{Two};
ghost use Rattle.sip_helper.specs.Turns.{HelperState};
ghost use Rattle.sip_duel.specs.Helping.{IsRefusal, Replies};
ghost use Rattle.sip_duel.specs.declared.honest.Standing.TheVariants as standings;

use crate::{Helper, More};
use sip_field::OutOfMemory;
use sip_helper::{HelperCore, put_refusal};
use sip_ports::MemorySink;
use sip_wire::{Message, Version};
use std::alloc::Global;

/// How far the honest helper kept to the turns.
#[derive(Clone, Copy, Debug, PartialEq, Eq)]
pub(crate) enum Standing {
    /// Each message so far might come.
    InTurn,
    /// One might not, and its refusal is due.
    Stray,
    /// Nothing is due any more.
    Over,
}

/// The honest helper. It keeps to the turns; after a message that may not come it appends a refusal
/// once, and has ended then.
#[derive(Drop)]
pub struct Honest {
    core: HelperCore,
    standing: Standing,
    ghost live: { standing ≡ standings.InTurn → core.spent ≡ false },
}

impl Honest {
    ghost use Rattle.std.specs.Prelude.{◌≡◌};
    ghost use Rattle.sip_duel.specs.Skewing.{Passes};
    ghost use Rattle.sip_duel.specs.Told.{told_state};
    ghost use Rattle.sip_helper.specs.Turns.{fresh};

    /// A helper that has heard nothing.
    pub fn new(alloc: Global) -> Honest
        ensures { told_state result ≡ Option.Some fresh }
    {
        Honest {
            core: HelperCore::new(alloc),
            standing: Standing::InTurn,
        }
    }

    /// Hears a message where it may come, and passes over another one.
    pub(crate) fn slip_in(&mut self, message: &Message)
        requires { IsTrue (fits Two message.now) }
        ensures { Passes (told_state self.old) message.now (told_state self.new) }
    {
        if let Standing::InTurn = self.standing {
            if self.core.hear(message).is_err() {
                return;
            }
        }
    }
}

/// Appends the refusal of a message out of turn.
pub(crate) fn refuse(version: Version, out: &mut MemorySink) -> Result<More, OutOfMemory>
    requires { sink_is_sure out.old }
    ensures sure { sink_is_sure out.new }
    ensures replies { (new : Option HelperState)
        → Replies None new (sink_bytes out.old) (sink_bytes out.new) result }
    ensures refusal { IsRefusal version (sink_bytes out.old) (sink_bytes out.new) result }
{
    match put_refusal(version, 4, out) {
        Ok(()) => Ok(More::Goes),
        Err(_) => Err(OutOfMemory),
    }
}

impl Helper for Honest {
    ghost use Rattle.std.specs.Prelude.{◌≡◌, Ok, false};
    ghost use Rattle.sip_helper.specs.Turns.{is_allowed};
    ghost use Rattle.sip_duel.specs.Helping.{Hears, Replies, IsRefusal};
    ghost use Rattle.sip_duel.specs.Told.{told_state};

    ghost honest_state = { told_state };

    fn hear(&mut self, message: &Message)
        requires { IsTrue (fits Two message.now) }
        ensures hears { Hears (told_state self.old) message.now (told_state self.new) }
        ensures stray { self.old.standing ≡ standings.InTurn
            → is_allowed self.old.core message.now ≡ false
            → self.new.standing ≡ standings.Stray }
    {
        if let Standing::InTurn = self.standing {
            if self.core.hear(message).is_err() {
                self.standing = Standing::Stray;
            }
        }
    }

    fn answer(&mut self, out: &mut MemorySink) -> Result<More, OutOfMemory>
        requires { sink_is_sure out.old }
        ensures sure { sink_is_sure out.new }
        ensures replies { Replies (told_state self.old) (told_state self.new)
            (sink_bytes out.old) (sink_bytes out.new) result }
        ensures refuses { self.old.standing ≡ standings.Stray
            → IsRefusal self.old.core.version (sink_bytes out.old) (sink_bytes out.new) result }
        ensures once { self.old.standing ≡ standings.Stray
            → self.new.standing ≡ standings.Over }
        ensures over { self.old.standing ≡ standings.Over
            → (result ≡ Ok More.Ended) × (out.new ≡ out.old) }
    {
        match self.standing {
            Standing::InTurn => {
                if !self.core.owes() {
                    return Ok(More::Ended);
                }
                let had = out.bytes().len();
                match self.core.answer(out) {
                    Ok(()) => {
                        if out.bytes().len() > had {
                            Ok(More::Goes)
                        } else {
                            Ok(More::Ended)
                        }
                    }
                    Err(_) => {
                        self.standing = Standing::Over;
                        Err(OutOfMemory)
                    }
                }
            }
            Standing::Stray => {
                self.standing = Standing::Over;
                refuse(self.core.spoken(), out)
            }
            Standing::Over => Ok(More::Ended),
        }
    }

    fn close(&mut self) {}
}
