//! A link to a helper that says nothing.

ghost use Rattle.std.specs.Prelude.{◌≡◌, [], None, IfOk, IsTrue};
ghost use Rattle.sip_duel.specs.Muting.{IsSilent};

use crate::{Helper, HelperLink};
use sip_field::OutOfMemory;
use sip_ports::{Link, PortStop, Sink, TalkEvent};
use std::alloc::Global;

/// A [`HelperLink`] whose helper says nothing, whatever it hears: it never fails to be silent, so
/// no call receives a byte on it.
#[derive(Drop)]
pub struct MuteLink {
    link: HelperLink,
}

impl MuteLink {
    /// A link to this helper, on which nothing has happened. Where memory is refused the helper is
    /// closed and dropped.
    pub fn new(alloc: Global, helper: Box<dyn Helper>) -> Result<MuteLink, OutOfMemory>
        requires { IsTrue (is_mute helper) }
        ensures talk { IfOk result (λ mute. mute.link.kept.talk.items ≡ []) }
        ensures silent { IfOk result
            (λ mute. IsSilent is_mute mute.link.helper mute.link.kept) }
    {
        let link = HelperLink::new(alloc, helper)?;
        Ok(MuteLink { link })
    }

    /// All that has happened on it.
    pub fn talk(&self) -> &[TalkEvent]
        ensures { result.now ≡ self.now.link.kept.talk.items }
    {
        self.link.talk()
    }

    /// Closes the helper and drops it, once. The talk stays.
    pub fn close_and_drop(&mut self)
        ensures talk { self.new.link.kept.talk ≡ self.old.link.kept.talk }
        ensures gone { self.new.link.helper ≡ None }
        ensures wants { self.new.link.wants ≡ self.old.link.wants }
    {
        self.link.close_and_drop();
    }
}

impl Sink for MuteLink {
    ghost use Rattle.std.specs.Prelude.{Some, ◌≡◌, refl, ◌<◌, ◌^◌};
    ghost use Rattle.std.proofs.Common.{rules};
    ghost use Rattle.sip_duel.specs.Muting.{IsSilent};

    ghost talk = { λ l. Some l.link.kept.talk.items };

    ghost faults = { λ _. 0 };

    ghost wants = { λ l. l.link.wants.count };

    ghost is_sure = { λ l. IsSilent (λ b. (Helper-box b).is_mute b.value)
        l.link.helper l.link.kept };

    ghost faults_fit = { λ _. Prim.search rules };

    ghost wants_fit = { λ l. l.link.wants.fits };

    ghost sure_counts = { λ _ _. refl };

    fn write(&mut self, buf: &[u8]) -> Result<usize, PortStop> {
        self.link.transmit(buf)
    }
}

impl Link for MuteLink {
    fn recv(&mut self, buf: &mut [u8]) -> Result<usize, PortStop> {
        self.link.receive(buf)
    }
}
