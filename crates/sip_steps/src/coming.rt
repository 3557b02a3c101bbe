//! The frame that is coming to a helper, and the turn that it makes.

ghost use Rattle.std.specs.Prelude.{◌≡◌, ◌<◌, ◌≤◌, ◌-◌, ◌++◌, [], ℕ, List, false, length, take};
ghost use Rattle.std.specs.Prelude.{IfOk, IsTrue, Some};
ghost use Rattle.sip_ports.specs.Ports.{GoesOn, Lasts, Rose, outs};
ghost use Rattle.sip_wire.specs.Frames.{frame_bytes};
ghost use Rattle.sip_wire.specs.Spelling.{asked};
ghost use Rattle.sip_wire.specs.Taking.{room_for};
ghost use Rattle.sip_helper.specs.inside.Measures.{most_received};
ghost use Rattle.sip_steps.specs.inside.Turning.{Comes, end_of};

use sip_field::OutOfMemory;
use sip_helper::{HelpStatus, Helps, answer_turn};
use sip_ports::Sink;
use sip_wire::{Frame, Place, Taken, Version};
use std::alloc::Global;

/// What came of bytes.
#[derive(Clone, Copy, Debug, PartialEq, Eq)]
pub(crate) enum Came {
    /// They are a part of a frame.
    Part,
    /// They were a message, which was answered, and the talk goes on.
    Turn,
    /// The talk ended.
    End(HelpStatus),
}

impl Came {
    /// How the talk ended, where it did.
    pub(crate) fn end(self) -> Option<HelpStatus>
        ensures { result ≡ end_of self }
    {
        match self {
            Came::Part | Came::Turn => None,
            Came::End(status) => Some(status),
        }
    }
}

/// The bytes that are there of the next frame of a talk.
#[derive(Drop)]
pub(crate) struct Coming {
    pub(crate) frame: Frame,
    // While the talk goes on, how many bytes the frame takes at least before it is looked at.
    pub(crate) lacking: usize,
    // How many bytes came in whole turns.
    pub(crate) offset: u64,
}

impl Coming {
    /// No byte came. Memory is taken for a frame.
    pub(crate) fn begin(alloc: Global) -> Result<Coming, OutOfMemory>
        ensures bytes { IfOk result (λ c. frame_bytes c.frame ≡ []) }
        ensures lacking { IfOk result (λ c. c.lacking ≡ 0) }
        ensures offset { IfOk result (λ c. c.offset ≡ 0) }
    {
        let frame = Frame::new(alloc)?;
        Ok(Coming {
            frame,
            lacking: 0,
            offset: 0,
        })
    }

    /// Takes bytes of the frame: at least one, and none behind it.
    pub(crate) fn put(&mut self, place: Place, version: Version, bytes: &[u8]) -> usize
        requires some { 0 < length bytes.now }
        requires short { length (frame_bytes self.old.frame)
            < asked version place (frame_bytes self.old.frame) }
        ensures some { 0 < result }
        ensures most { result ≤ length bytes.now }
        ensures puts { frame_bytes self.new.frame
            ≡ frame_bytes self.old.frame ++ take result bytes.now }
        ensures within { length (frame_bytes self.new.frame)
            ≤ asked version place (frame_bytes self.new.frame) }
        ensures offset { self.new.offset ≡ self.old.offset }
    {
        let count = self.frame.room(place, version).min(bytes.len());
        self.frame.put(place, version, &bytes[..count]);
        count
    }

    /// Puts bytes behind those that are there, too few for a look at the frame.
    #[inline]
    pub(crate) fn gather(&mut self, place: Place, version: Version, bytes: &[u8])
        requires few { length bytes.now < self.old.lacking }
        requires lacks { self.old.lacking ≤ room_for version place (frame_bytes self.old.frame) }
        ensures puts { frame_bytes self.new.frame ≡ frame_bytes self.old.frame ++ bytes.now }
        ensures lacking { self.new.lacking ≡ self.old.lacking - length bytes.now }
        ensures offset { self.new.offset ≡ self.old.offset }
    {
        self.frame.put(place, version, bytes);
        self.lacking -= bytes.len();
    }

    /// Looks at what came of the frame: a part, a message, which is answered, or none.
    pub(crate) fn look<H: Helps, K: Sink>(
        &mut self,
        helper: &mut H,
        place: Place,
        version: Version,
        out: &mut K,
    ) -> Came
        requires live { IsTrue (H.is_live helper.old) }
        requires going { H.rules.is_done helper.old ≡ false }
        requires version { version ≡ H.rules.version helper.old }
        requires place { place ≡ H.rules.place helper.old }
        requires within { length (frame_bytes self.old.frame)
            ≤ asked version place (frame_bytes self.old.frame) }
        requires few { self.old.offset ≤ most_received }
        ensures comes { (sent : List ℕ) × GoesOn (K.talk out.old) (K.talk out.new) (outs sent)
            × Comes H.rules H.turns_left H.is_live helper.old helper.new sent self.old self.new
            result }
        ensures cause { end_of result ≡ Some HelpStatus.PeerFault
            → Rose (K.faults out.old) (K.faults out.new) }
        ensures memory { end_of result ≡ Some HelpStatus.OutOfMemory
            → Rose (K.wants out.old) (K.wants out.new) }
        ensures lasts { Lasts K.faults K.wants K.is_sure out.old out.new }
    {
        match self.frame.judge(place, version) {
            Taken::Part => {
                self.lacking = self.frame.room(place, version);
                Came::Part
            }
            Taken::Whole => {
                let message = self.frame.message();
                if let Err(status) = answer_turn(helper, message, out, self.offset) {
                    return Came::End(status);
                }
                self.offset += self.frame.bytes().len() as u64;
                self.frame.clear();
                self.lacking = 0;
                Came::Turn
            }
            Taken::NoFrame(_) => Came::End(HelpStatus::BadFrame {
                offset: self.offset,
            }),
        }
    }
}
