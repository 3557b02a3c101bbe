//! A helper's end of a talk, without a link.

ghost use Rattle.std.specs.Prelude.{◌≡◌, ◌<◌, ◌≤◌, ◌++◌, [], List, None, Some, false};
ghost use Rattle.std.specs.Prelude.{length, take, IfOk, IsSome, IsTrue};
ghost use Rattle.sip_ports.specs.declared.port.TalkEvent.{TalkEvent as AnyEvent};
ghost use Rattle.sip_ports.specs.Ports.{Lasts, Rose, ins};
ghost use Rattle.sip_helper.specs.inside.Measures.{most_turns};
ghost use Rattle.sip_steps.specs.Served.{HasBegun, IsServed, Passes, end_seen};

use crate::coming::Coming;
use sip_field::OutOfMemory;
use sip_helper::{HelpStatus, Helps};
use sip_ports::Sink;
use std::alloc::Global;

/// A helper's end of a talk that is under way: the helper, and room for one frame.
///
/// What comes is [fed](Serving::feed), and what is owed goes out at once, until the talk has a
/// [`status`](Serving::status). Memory is taken by [`begin`](Serving::begin), and else only what
/// the helper takes. The time is that of the bytes, and of the helper's replies.
#[derive(Drop)]
pub struct Serving<H: Helps + Drop> {
    helper: H,
    coming: Coming,
    status: Option<HelpStatus>,
}

impl<H: Helps + Drop> Serving<H> {
    /// Before anything was heard.
    ///
    /// # Errors
    ///
    /// `OutOfMemory` where there is none for a frame of 8,709 bytes.
    pub fn begin(alloc: Global, helper: H) -> Result<Self, OutOfMemory>
        requires live { IsTrue (H.is_live helper) }
        requires going { H.rules.is_done helper ≡ false }
        requires few { H.turns_left helper ≤ most_turns }
        ensures begun { IfOk result (HasBegun H.rules H.turns_left H.is_live) }
        ensures served { IfOk result (IsServed H.rules H.turns_left H.is_live helper []) }
    {
        let coming = Coming::begin(alloc)?;
        Ok(Serving {
            helper,
            coming,
            status: None,
        })
    }

    /// How the talk ended, once it has: as of a [`talk`](sip_helper::talk) on a link, whose faults
    /// are those of the sink.
    pub fn status(&self) -> Option<HelpStatus>
        ensures { result ≡ self.now.status }
    {
        self.status
    }

    // Takes bytes of the frame that is coming: at least one, and none behind it.
    fn piece<K: Sink>(&mut self, bytes: &[u8], out: &mut K) -> usize
        requires some { 0 < length bytes.now }
        requires going { self.old.status ≡ None }
        requires begun { HasBegun H.rules H.turns_left H.is_live self.old }
        ensures begun { HasBegun H.rules H.turns_left H.is_live self.new }
        ensures some { 0 < result }
        ensures most { result ≤ length bytes.now }
        ensures passes { (first : H) (events : List AnyEvent)
            → IsServed H.rules H.turns_left H.is_live first events self.old
            → Passes (K.talk out.old) (K.talk out.new) (take result bytes.now) events
            (λ all. IsServed H.rules H.turns_left H.is_live first all self.new) }
        ensures cause { self.new.status ≡ Some HelpStatus.PeerFault
            → Rose (K.faults out.old) (K.faults out.new) }
        ensures memory { self.new.status ≡ Some HelpStatus.OutOfMemory
            → Rose (K.wants out.old) (K.wants out.new) }
        ensures lasts { Lasts K.faults K.wants K.is_sure out.old out.new }
    {
        let version = self.helper.version_due();
        let place = self.helper.place_due();
        let taken = self.coming.put(place, version, bytes);
        let came = self.coming.look(&mut self.helper, place, version, out);
        self.status = came.end();
        taken
    }

    // Puts bytes behind those of the frame that are there, too few for a look at it.
    #[inline]
    fn gather(&mut self, bytes: &[u8])
        requires going { self.old.status ≡ None }
        requires begun { HasBegun H.rules H.turns_left H.is_live self.old }
        requires few { length bytes.now < self.old.coming.lacking }
        ensures going { self.new.status ≡ None }
        ensures served { (first : H) (events : List AnyEvent)
            → IsServed H.rules H.turns_left H.is_live first events self.old
            → IsServed H.rules H.turns_left H.is_live first (events ++ ins bytes.now) self.new }
    {
        let version = self.helper.version_due();
        let place = self.helper.place_due();
        self.coming.gather(place, version, bytes);
    }

    // Takes bytes that came, and looks at each frame as far as it came.
    #[inline(never)]
    fn hear<K: Sink>(&mut self, bytes: &[u8], out: &mut K) -> usize
        requires begun { HasBegun H.rules H.turns_left H.is_live self.old }
        ensures begun { HasBegun H.rules H.turns_left H.is_live self.new }
        ensures most { result ≤ length bytes.now }
        ensures all { self.new.status ≡ None → result ≡ length bytes.now }
        ensures none { IsSome self.old.status → result ≡ 0 }
        ensures passes { (first : H) (events : List AnyEvent)
            → IsServed H.rules H.turns_left H.is_live first events self.old
            → Passes (K.talk out.old) (K.talk out.new) (take result bytes.now) events
            (λ all. IsServed H.rules H.turns_left H.is_live first all self.new) }
        ensures cause { self.old.status ≡ None → self.new.status ≡ Some HelpStatus.PeerFault
            → Rose (K.faults out.old) (K.faults out.new) }
        ensures memory { self.old.status ≡ None → self.new.status ≡ Some HelpStatus.OutOfMemory
            → Rose (K.wants out.old) (K.wants out.new) }
        ensures lasts { Lasts K.faults K.wants K.is_sure out.old out.new }
    {
        let mut taken = 0;
        while taken < bytes.len() {
            if self.status.is_some() {
                return taken;
            }
            taken += self.piece(&bytes[taken..], out);
        }
        taken
    }

    /// Takes bytes that came, in any pieces, and answers how many: all of them while the talk goes
    /// on, and none behind its end. Each reply that is owed goes to `out`, and the refusal of a
    /// message out of turn.
    ///
    /// Where the sink fails, or memory is refused to it, that is how the talk ended.
    #[inline]
    pub fn feed<K: Sink>(&mut self, bytes: &[u8], out: &mut K) -> usize
        requires begun { HasBegun H.rules H.turns_left H.is_live self.old }
        ensures begun { HasBegun H.rules H.turns_left H.is_live self.new }
        ensures most { result ≤ length bytes.now }
        ensures all { self.new.status ≡ None → result ≡ length bytes.now }
        ensures none { IsSome self.old.status → result ≡ 0 }
        ensures passes { (first : H) (events : List AnyEvent)
            → IsServed H.rules H.turns_left H.is_live first events self.old
            → Passes (K.talk out.old) (K.talk out.new) (take result bytes.now) events
            (λ all. IsServed H.rules H.turns_left H.is_live first all self.new) }
        ensures cause { self.old.status ≡ None → self.new.status ≡ Some HelpStatus.PeerFault
            → Rose (K.faults out.old) (K.faults out.new) }
        ensures memory { self.old.status ≡ None → self.new.status ≡ Some HelpStatus.OutOfMemory
            → Rose (K.wants out.old) (K.wants out.new) }
        ensures lasts { Lasts K.faults K.wants K.is_sure out.old out.new }
    {
        if self.status.is_none() && bytes.len() < self.coming.lacking {
            self.gather(bytes);
            return bytes.len();
        }
        self.hear(bytes, out)
    }

    /// The other end closed, without a farewell where the talk had not ended.
    pub fn close(&mut self)
        requires begun { HasBegun H.rules H.turns_left H.is_live self.old }
        ensures begun { HasBegun H.rules H.turns_left H.is_live self.new }
        ensures closed { self.old.status ≡ None → self.new.status ≡ Some HelpStatus.PeerClosed }
        ensures same { IsSome self.old.status → self.new ≡ self.old }
        ensures served { (first : H) (events : List AnyEvent)
            → IsServed H.rules H.turns_left H.is_live first events self.old
            → IsServed H.rules H.turns_left H.is_live first (events ++ end_seen self.old.status)
            self.new }
    {
        if self.status.is_none() {
            self.status = Some(HelpStatus::PeerClosed);
        }
    }
}
