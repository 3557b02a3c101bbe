//! The questions of a run behind its stream, in their order.

ghost use Rattle.std.specs.Prelude.{◌≡◌, ◌++◌, [], ℕ, List, IfNone, IfSome, option_to_list, length};
ghost use Rattle.sip_vector.specs.declared.update.Update.{Update as AnyUpdate};
ghost use Rattle.sip_ports.specs.Ports.{HasCause, SendsWhole};
ghost use Rattle.sip_wire.specs.Spelling.{spelling};
ghost use Rattle.sip_wire.specs.declared.message.Message.TheVariants as messages;
ghost use Rattle.sip_runs.specs.Plans.{Plan};
ghost use Rattle.sip_runs.specs.Runs.{IsFirstOf, IsToBeAsked, behind_first};

use crate::seat::RunSeat;
use sip_ports::{PortStop, Sink};
use sip_vector::Depth;
use sip_wire::{Message, Version, encode};

/// The questions of a run that are still to be asked, each with the running numbers of the stream,
/// and how they are asked: in this version, at this depth.
///
/// Each is [taken](ToAsk::next) once, and asked in a talk of its own behind that of the one before.
/// Once all were accepted the [farewell](ToAsk::say_farewell) is said. After a rejection nothing
/// more is.
#[derive(Drop)]
pub struct ToAsk {
    version: Version,
    depth: Depth,
    seats: Vec<RunSeat>,
}

impl ToAsk {
    pub(crate) fn new(version: Version, depth: Depth, seats: Vec<RunSeat>) -> ToAsk
        ensures version { result.version ≡ version }
        ensures depth { result.depth ≡ depth }
        ensures seats { result.seats.items ≡ seats.items }
    {
        ToAsk {
            version,
            depth,
            seats,
        }
    }

    /// The version of the talk.
    pub fn version(&self) -> Version
        ensures { result ≡ self.now.version }
    {
        self.version
    }

    /// The depth of the stream's vectors.
    pub fn depth(&self) -> Depth
        ensures { result ≡ self.now.depth }
    {
        self.depth
    }

    /// How many questions were not taken yet.
    pub fn left(&self) -> usize
        ensures { result ≡ length self.now.seats.items }
    {
        self.seats.len()
    }

    /// The seat of the next question, in the order of the run; `None` behind the last one.
    pub fn next(&mut self) -> Option<RunSeat>
        ensures order { self.old.seats.items ≡ option_to_list result ++ self.new.seats.items }
        ensures none { IfNone result (self.old.seats.items ≡ []) }
        ensures asked { (p : Plan) (stream : List AnyUpdate) → IsToBeAsked p stream self.old
            → IfSome result (IsFirstOf p stream) × IsToBeAsked (behind_first p) stream self.new }
        ensures version { self.new.version ≡ self.old.version }
        ensures depth { self.new.depth ≡ self.old.depth }
    {
        if self.seats.is_empty() {
            return None;
        }
        Some(self.seats.remove(0))
    }

    /// Sends the farewell.
    ///
    /// # Errors
    ///
    /// Those of the sink, which a front of it has then reached that is shorter than it.
    pub fn say_farewell<K: Sink>(&self, out: &mut K) -> Result<(), PortStop>
        ensures talk { SendsWhole (K.talk out.old) (K.talk out.new) result
            (spelling self.now.version messages.Bye) }
        ensures cause { HasCause K.faults K.wants K.is_sure out.old out.new result }
    {
        encode(&Message::Bye, self.version, out)
    }
}
