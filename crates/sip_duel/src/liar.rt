//! A helper that replies by a table of lies.

ghost use Rattle.std.specs.Prelude.{◌≡◌, Some, None};
ghost use Rattle.sip_ports.specs.Memory.{sink_bytes, sink_is_sure};
ghost use Rattle.sip_duel.specs.Helping.{Replies};
ghost use Rattle.sip_duel.specs.Lying.{AppendsAll, lied, lying_after, talk_start};

use crate::lie::{Lie, Point, first_lie};
use crate::{Helper, More};
use sip_field::OutOfMemory;
use sip_ports::{MemorySink, write_whole};
use sip_wire::Message;
use std::marker::Model;

/// A helper whose replies are a table's. It answers with the first lie that is about the point of
/// the talk, however often it is asked there, and has ended where there is none or its reply is
/// empty. Behind more than 255 queries, or more than [`CAP`](sip_vector::CAP) challenges of one, it
/// has ended.
#[derive(Drop)]
pub struct Liar {
    table: Vec<Lie>,
    point: Option<Point>,
}

impl Model for Liar {
    ghost use Rattle.sip_duel.specs.Lying.{Lying};

    ghost Value = { Lying };

    ghost view = { λ l. record { lies = l.table.items; point = l.point } };
}

impl Liar {
    /// A liar with these lies, which has heard nothing.
    pub fn new(table: Vec<Lie>) -> Liar
        ensures { result ≡ record { lies = table.items; point = Some talk_start } }
    {
        Liar {
            table,
            point: Some(Point::start()),
        }
    }

    /// Goes on to the point behind a message.
    fn note(&mut self, message: &Message)
        ensures { self.new ≡ lying_after message.now self.old }
    {
        if let Some(point) = self.point.take() {
            self.point = point.after(message);
        }
    }

    /// The reply at the point of the talk; empty where there is none.
    fn reply(&self) -> &[u8]
        ensures { result.now ≡ lied self.now }
    {
        match &self.point {
            Some(point) => match first_lie(&self.table, point) {
                Some(lie) => lie.reply(),
                None => &[],
            },
            None => &[],
        }
    }
}

/// Appends a reply.
fn append(reply: &[u8], out: &mut MemorySink) -> Result<More, OutOfMemory>
    requires { sink_is_sure out.old }
    ensures sure { sink_is_sure out.new }
    ensures all { AppendsAll reply.now (sink_bytes out.old) (sink_bytes out.new) result }
{
    if reply.is_empty() {
        return Ok(More::Ended);
    }
    match write_whole(out, reply) {
        Ok(()) => Ok(More::Goes),
        Err(_) => Err(OutOfMemory),
    }
}

impl Helper for Liar {
    ghost use Rattle.std.specs.Prelude.{None};

    ghost honest_state = { λ _. None };

    fn hear(&mut self, message: &Message)
        ensures { self.new ≡ lying_after message.now self.old }
    {
        self.note(message);
    }

    fn answer(&mut self, out: &mut MemorySink) -> Result<More, OutOfMemory>
        requires { sink_is_sure out.old }
        ensures sure { sink_is_sure out.new }
        ensures replies { Replies None None (sink_bytes out.old) (sink_bytes out.new) result }
        ensures lies { AppendsAll (lied self.old) (sink_bytes out.old) (sink_bytes out.new)
            result }
        ensures same { self.new ≡ self.old }
    {
        append(self.reply(), out)
    }

    fn close(&mut self) {}
}
