//! A whole talk of queries, on a link.

ghost use Rattle.std.specs.Prelude.{◌≡◌, ◌⊎◌};
ghost use Rattle.sip_ports.specs.Ports.{Lasts, Rose};
ghost use Rattle.sip_helper.specs.Serving.{Serves};

use crate::talking::{Helps, talk};
use crate::{HelpStatus, HelperCore, OutOfTurn};
use sip_ports::{Link, PortStop, Sink};
use sip_wire::{Message, Place, Version};
use std::alloc::Global;

impl Helps for HelperCore {
    ghost use Rattle.std.specs.Prelude.{not};
    ghost use Rattle.sip_helper.specs.Serving.{helper_rules};
    ghost use Rattle.sip_helper.specs.Turns.{owes};
    ghost use Rattle.sip_helper.specs.inside.Measures.{turns_left};

    ghost rules = { helper_rules };

    ghost turns_left = { turns_left };

    ghost is_live = { λ s. not s.spent };

    ghost is_owing = { owes };

    fn version_due(&self) -> Version {
        self.spoken()
    }

    fn place_due(&self) -> Place {
        Place::ToHelper
    }

    fn take(&mut self, message: &Message) -> Result<(), OutOfTurn> {
        // The proof wants that the depth is bounded.
        let _ = self.levels();
        self.hear(message)
    }

    fn owes_reply(&self) -> bool {
        self.owes()
    }

    fn is_over(&self) -> bool {
        self.done()
    }

    fn send_reply<K: Sink>(&mut self, out: &mut K) -> Result<(), PortStop> {
        self.answer(out)
    }
}

/// Hears a helper's talk and answers, until a Bye. Frames are in the version of the opening, and in
/// version 1 up to it.
///
/// It is a [`talk`] by the turns of [`HelperCore`]: it ends, since each update weighs something and
/// a side's weight is bounded, and since there are at most 16 queries with fewer than 48 challenges
/// each. Memory is taken for one frame, for the two vectors, and for what the replies to a query
/// are made from.
///
/// The memory for the frame is taken first. Where that is refused the link is left alone; from then
/// on `OutOfMemory` comes only where the link's count of wants rose, since want of memory for a
/// query or for the vectors is an answer to the verifier.
pub fn serve<L: Link>(alloc: Global, link: &mut L) -> HelpStatus
    ensures serves { Serves (L.talk link.old) (L.talk link.new) result }
    ensures cause { result ≡ HelpStatus.PeerFault
        → Rose (L.faults link.old) (L.faults link.new) }
    ensures memory { result ≡ HelpStatus.OutOfMemory
        → (link.new ≡ link.old) ⊎ Rose (L.wants link.old) (L.wants link.new) }
    ensures lasts { Lasts L.faults L.wants L.is_sure link.old link.new }
{
    talk(HelperCore::new(alloc), alloc, link)
}
