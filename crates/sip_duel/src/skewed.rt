//! A helper whose stream has one update more.

ghost use Rattle.std.specs.Prelude.{◌≡◌, IfOk, IsTrue, Option, Some, None};
ghost use Rattle.sip_ports.specs.Memory.{sink_bytes, sink_is_sure};
ghost use Rattle.sip_wire.specs.Spelling.{fits};
ghost use Rattle.sip_wire.specs.declared.version.Version.TheVariants.{Two};
ghost use Rattle.sip_helper.specs.Turns.{fresh};
ghost use Rattle.sip_duel.specs.Helping.{Replies};
ghost use Rattle.sip_duel.specs.Skewing.{one_update};
ghost use Rattle.sip_duel.specs.Told.{told_state};

use crate::{Helper, Honest, More};
use arrayvec::ArrayVec;
use sip_field::OutOfMemory;
use sip_ports::MemorySink;
use sip_vector::{Side, Update};
use sip_wire::Message;
use std::alloc::Global;

/// An honest helper that counts item 0 of the first side once more before the stream ends, where
/// the side's weight has room for it. Its replies are honest ones of another vector.
#[derive(Drop)]
pub struct Skewed {
    honest: Honest,
    // The frame of one more update. A message is as large as the longest frame's rows, so it waits
    // on the heap: the stack of the call that sends the end of a stream has no place for it.
    one_more: Box<Message>,
    ghost counts: { one_more.value ≡ one_update },
}

impl Skewed {
    /// A helper that has heard nothing.
    ///
    /// # Errors
    ///
    /// Memory was refused for its update.
    pub fn new(alloc: Global) -> Result<Skewed, OutOfMemory>
        ensures { IfOk result (λ skewed. told_state skewed.honest ≡ Some fresh) }
    {
        let one_more = one_more(alloc)?;
        Ok(Skewed {
            honest: Honest::new(alloc),
            one_more,
        })
    }
}

/// The frame of one more update. It is made in a call of its own, so that the stack has it no
/// longer than that.
#[inline(never)]
fn one_more(alloc: Global) -> Result<Box<Message>, OutOfMemory>
    ensures { IfOk result (λ message. message.value ≡ one_update) }
{
    let mut updates = ArrayVec::new();
    updates.push(Update {
        side: Side::First,
        item: 0,
        delta: 1,
    });
    Ok(Box::new(alloc, Message::Updates(updates))?)
}

impl Helper for Skewed {
    ghost use Rattle.std.specs.Prelude.{◌≡◌, ◌≢◌, None};
    ghost use Rattle.sip_wire.specs.declared.message.Message.TheVariants.{EndStream};
    ghost use Rattle.sip_duel.specs.Helping.{Hears, Replies};
    ghost use Rattle.sip_duel.specs.Skewing.{HearsSkewedEnd};
    ghost use Rattle.sip_duel.specs.Told.{told_state};

    ghost honest_state = { λ _. None };

    fn hear(&mut self, message: &Message)
        requires { IsTrue (fits Two message.now) }
        ensures ends { message.now ≡ EndStream
            → HearsSkewedEnd (told_state self.old.honest) (told_state self.new.honest) }
        ensures hears { message.now ≢ EndStream
            → Hears (told_state self.old.honest) message.now (told_state self.new.honest) }
    {
        if let Message::EndStream = message {
            self.honest.slip_in(&self.one_more);
        }
        self.honest.hear(message);
    }

    fn answer(&mut self, out: &mut MemorySink) -> Result<More, OutOfMemory>
        requires { sink_is_sure out.old }
        ensures sure { sink_is_sure out.new }
        ensures replies { Replies None None (sink_bytes out.old) (sink_bytes out.new) result }
        ensures honest { Replies (told_state self.old.honest) (told_state self.new.honest)
            (sink_bytes out.old) (sink_bytes out.new) result }
    {
        self.honest.answer(out)
    }

    fn close(&mut self) {
        self.honest.close();
    }
}
