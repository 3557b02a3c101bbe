//! The bytes of a frame.

ghost use Rattle.std.specs.Prelude.{◌≡◌, ◌<◌, ◌≤◌, vec_len};
ghost use Rattle.sip_wire.specs.Table.{longest_frame};

use crate::Version;
use crate::at_hand::frame_length;
use crate::decoding::{head_of, read_message};
use crate::kind::{Kind, Place};
use crate::message::{Message, WireFault};
use arrayvec::ArrayVec;
use sip_field::OutOfMemory;
use sip_ports::Link;
use std::alloc::Global;
use std::mem;

/// How many bytes stand before the body of a frame: its kind and the length of its body.
pub const HEAD: usize = 3;

/// How many bytes the longest frame has: an Updates frame of 512 records with wide items.
pub const LONGEST_FRAME: usize = 8709;

/// How many bytes the frame of a challenge has.
pub const REVEAL_FRAME: usize = 11;

/// What bytes are that were put behind each other.
#[derive(Clone, Copy, Debug, PartialEq, Eq)]
pub enum Taken {
    /// A frame that is not whole yet.
    Part,
    /// A frame that spells a message ([`Frame::message`]).
    Whole,
    /// No frame: they show this fault.
    NoFrame(WireFault),
}

/// The bytes of a frame as they come: room for the longest one, taken once, and how many of them
/// are there; and the message that was read off a frame last.
///
/// [`decode_within`](crate::decode_within) receives one frame off a link. Without a link, whoever
/// has bytes puts as many as there is [`room`](Frame::room) for, and has what is there
/// [`judged`](Frame::judge): what was put can be read in between ([`bytes`](Frame::bytes)), and
/// stays until [`clear`](Frame::clear).
#[derive(Drop)]
pub struct Frame {
    buffer: Vec<u8>,
    taken: usize,
    // A message is as large as the longest frame's rows. So the last one with rows and the last one
    // of another kind lie apart, and neither is moved: a frame is read in place of the one like it.
    rows: Box<Message>,
    other: Box<Message>,
    has_rows: bool,
    ghost room: { vec_len buffer ≡ longest_frame },
    ghost within: { taken ≤ longest_frame },
}

impl Frame {
    ghost use Rattle.std.specs.Prelude.{◌+◌, ◌-◌, ◌++◌, [], IsTrue, drop, length, IfOk, IsErrOf};
    ghost use Rattle.sip_ports.specs.Ports.{Lasts, Rose};
    ghost use Rattle.sip_wire.specs.Decoding.{IsBytes};
    ghost use Rattle.sip_wire.specs.Filling.{filled};
    ghost use Rattle.sip_wire.specs.Frames.{frame_bytes, frame_message, Receives};
    ghost use Rattle.sip_wire.specs.Spelling.{ReadsBody, asked};
    ghost use Rattle.sip_wire.specs.Table.{shape};
    ghost use Rattle.sip_wire.specs.Taking.{Judges, room_for};

    /// A frame with no bytes. This is the only call of the crate that takes memory, for the bytes
    /// and for two messages.
    pub fn new(alloc: Global) -> Result<Frame, OutOfMemory>
        ensures { IfOk result (λ f. frame_bytes f ≡ []) }
    {
        let Ok(buffer) = vec![in alloc; 0; LONGEST_FRAME] else {
            return Err(OutOfMemory);
        };
        // What the replies to heavy hitters begin with, and what ends each of them.
        let Ok(rows) = Box::new(alloc, Message::Leaves(ArrayVec::new())) else {
            return Err(OutOfMemory);
        };
        let Ok(other) = Box::new(alloc, Message::LevelEnd) else {
            return Err(OutOfMemory);
        };
        Ok(Frame {
            buffer,
            taken: 0,
            rows,
            other,
            has_rows: false,
        })
    }

    /// The bytes that are there: those that the last `decode` received, also where it failed, or
    /// that were put since the last `clear`.
    pub fn bytes(&self) -> &[u8]
        ensures { result.now ≡ frame_bytes self.now }
    {
        &self.buffer[..self.taken]
    }

    /// The message that was read last, by a call of `decode_within` that answered `Ok` or a call of
    /// `judge` that answered `Whole`.
    pub fn message(&self) -> &Message
        ensures { result.now ≡ frame_message self.now }
    {
        if self.has_rows {
            return &*self.rows;
        }
        &*self.other
    }

    /// Forgets the bytes, and not the message.
    pub fn clear(&mut self)
        ensures bytes { frame_bytes self.new ≡ [] }
        ensures message { frame_message self.new ≡ frame_message self.old }
    {
        self.taken = 0;
    }

    /// How many more bytes a frame of a version takes before it is looked at: up to its head, and
    /// then up to its end. It is 0 where the frame is whole, and where no frame begins so.
    pub fn room(&self, place: Place, version: Version) -> usize
        ensures room { result ≡ room_for version place (frame_bytes self.now) }
        ensures some { length (frame_bytes self.now) < asked version place (frame_bytes self.now)
            → 0 < result }
    {
        let bytes = self.bytes();
        if bytes.len() < HEAD {
            return HEAD - bytes.len();
        }
        frame_length(place, version, bytes).saturating_sub(bytes.len())
    }

    /// Puts bytes behind those that are there.
    fn append(&mut self, bytes: &[u8])
        requires { length (frame_bytes self.old) + length bytes.now ≤ longest_frame }
        ensures takes { frame_bytes self.new ≡ frame_bytes self.old ++ bytes.now }
        ensures message { frame_message self.new ≡ frame_message self.old }
    {
        let upto = self.taken + bytes.len();
        self.buffer[self.taken..upto].copy_from_slice(bytes);
        self.taken = upto;
    }

    /// Puts bytes of a frame of a version behind those that are there, no more than there is room
    /// for. It takes no memory.
    pub fn put(&mut self, place: Place, version: Version, bytes: &[u8])
        requires { length bytes.now ≤ room_for version place (frame_bytes self.old) }
        ensures takes { frame_bytes self.new ≡ frame_bytes self.old ++ bytes.now }
        ensures most { length (frame_bytes self.old) ≤ asked version place (frame_bytes self.old)
            → length (frame_bytes self.new) ≤ asked version place (frame_bytes self.new) }
        ensures message { frame_message self.new ≡ frame_message self.old }
    {
        self.append(bytes);
    }

    /// Looks at the bytes that are there, no more than the frame has that begins with them: a frame
    /// that is not whole yet, a message, which the frame then has, or a fault, the first in the
    /// order of [`WireFault`].
    pub fn judge(&mut self, place: Place, version: Version) -> Taken
        requires { length (frame_bytes self.old) ≤ asked version place (frame_bytes self.old) }
        ensures bytes { frame_bytes self.new ≡ frame_bytes self.old }
        ensures judges { Judges version place (frame_bytes self.old) (frame_message self.new)
            result }
    {
        if self.taken < HEAD {
            return Taken::Part;
        }
        let (kind, len) = match head_of(version, place, self.bytes()) {
            Ok(head) => head,
            Err(fault) => return Taken::NoFrame(fault),
        };
        if self.taken < HEAD + len {
            return Taken::Part;
        }
        match self.read(version, kind) {
            Ok(()) => Taken::Whole,
            Err(fault) => Taken::NoFrame(fault),
        }
    }

    /// Receives until so many bytes are there. `Closed` where the link ended before, `PeerFault`
    /// where it failed, and `OutOfMemory` where memory was refused to it.
    pub(crate) fn receive<L: Link>(&mut self, link: &mut L, upto: usize) -> Result<(), WireFault>
        requires order { length (frame_bytes self.old) ≤ upto }
        requires room { upto ≤ longest_frame }
        ensures heard { Receives (L.talk link.old) (L.talk link.new) (frame_bytes self.old)
            (frame_bytes self.new) upto result }
        ensures failed { IsErrOf result WireFault.PeerFault
            → Rose (L.faults link.old) (L.faults link.new) }
        ensures memory { IsErrOf result WireFault.OutOfMemory
            → Rose (L.wants link.old) (L.wants link.new) }
        ensures lasts { Lasts L.faults L.wants L.is_sure link.old link.new }
    {
        while self.taken < upto {
            let came = link.recv(&mut self.buffer[self.taken..upto])?;
            if came == 0 {
                return Err(WireFault::Closed);
            }
            self.taken += came;
        }
        Ok(())
    }

    /// Reads the message of a whole frame, whose body is as long as its kind has it.
    pub(crate) fn read(&mut self, version: Version, kind: Kind) -> Result<(), WireFault>
        requires head { 3 ≤ length (frame_bytes self.old) }
        requires body { IsTrue ((shape version kind).has_length
            (length (frame_bytes self.old) - 3)) }
        ensures bytes { frame_bytes self.new ≡ frame_bytes self.old }
        ensures fits { IsBytes (frame_bytes self.old) }
        ensures read { ReadsBody version kind (drop 3 (frame_bytes self.old))
            (filled (frame_message self.new) result) }
    {
        self.has_rows = matches!(
            kind,
            Kind::Updates
                | Kind::Entries
                | Kind::Leaves
                | Kind::Nodes
                | Kind::Power { .. }
                | Kind::Marks
        );
        let bytes = &self.buffer[..self.taken];
        if self.has_rows {
            return read_message(version, kind, bytes, &mut *self.rows);
        }
        read_message(version, kind, bytes, &mut *self.other)
    }

    /// The message that was read last, which is not there any more.
    pub(crate) fn take_message(&mut self) -> Message
        ensures bytes { frame_bytes self.new ≡ frame_bytes self.old }
        ensures message { result ≡ frame_message self.old }
    {
        if self.has_rows {
            return mem::replace(&mut *self.rows, Message::Bye);
        }
        mem::replace(&mut *self.other, Message::Bye)
    }
}
