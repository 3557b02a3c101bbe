//! A helper's end of a talk over a store of its own, without a link.

ghost use Rattle.std.specs.Prelude.{◌≡◌, ◌≢◌, ◌<◌, ◌≤◌, ◌++◌, ◌⊎◌, ℕ, Bool, false, true, List, []};
ghost use Rattle.std.specs.Prelude.{None, Some, Option, Err, length, take, IfOk, IsSome};
ghost use Rattle.sip_ports.specs.declared.port.TalkEvent.{TalkEvent as AnyEvent};
ghost use Rattle.sip_ports.specs.Ports.{GoesOn, Lasts, Rose, outs};
ghost use Rattle.sip_stream.specs.declared.form.Form.{Form as AnyForm};
ghost use Rattle.sip_questions.specs.StoreFronts.{Recalls};
ghost use Rattle.sip_questions.specs.Stores.{questions_opened};
ghost use Rattle.sip_steps.specs.declared.coming.Coming.{Coming as AnyComing};
ghost use Rattle.sip_steps.specs.Served.{Passes, end_seen};
ghost use Rattle.sip_steps.specs.StoreServed.{IsStoreServed, IsUnderWay, StoreRead, is_read};
ghost use Rattle.sip_steps.specs.StoreServed.{read_then};
ghost use Rattle.sip_steps.specs.inside.StoreTurning.{HasPut, HasStoreCause, IsPut, TellsBy};

use crate::coming::{Came, Coming};
use sip_field::OutOfMemory;
use sip_helper::{HelpStatus, Helps};
use sip_ports::{Sink, Source};
use sip_questions::{QuestionCore, Recalling, StoreStatus, say_held};
use sip_stream::Form;
use sip_wire::{Place, Version};
use std::alloc::Global;

// Hears so many records of the store, and says what they come to.
fn recall<A: Source, K: Sink>(
    form: Form,
    core: &mut QuestionCore,
    count: u64,
    first: &mut A,
    out: &mut K,
) -> Result<(), StoreStatus>
    requires opened { (r : Recalls) × (refused : Bool)
        × (core.old ≡ questions_opened r refused) × (count ≡ r.count) }
    ensures tells { (r : Recalls) (refused : Bool) → core.old ≡ questions_opened r refused
        → count ≡ r.count → (sent : List ℕ) × GoesOn (K.talk out.old) (K.talk out.new) (outs sent)
        × TellsBy r form (A.left first.old) (A.left first.new) core.new sent result }
    ensures told { IsSome (A.left first.old) → IsSome (A.left first.new) }
    ensures cause { result ≡ Err StoreStatus.PeerFault
        → Rose (K.faults out.old) (K.faults out.new) }
    ensures fault { result ≡ Err StoreStatus.ReadFault
        → Rose (A.faults first.old) (A.faults first.new) }
    ensures memory { result ≡ Err StoreStatus.OutOfMemory
        → GoesOn (K.talk out.old) (K.talk out.new) [] ⊎ Rose (K.wants out.old) (K.wants out.new) }
    ensures first { Lasts A.faults A.wants A.is_sure first.old first.new }
    ensures lasts { Lasts K.faults K.wants K.is_sure out.old out.new }
{
    let told = match core.hear_store(form, first, count) {
        Ok(told) => told,
        Err(status) => return Err(status),
    };
    if let Err(stop) = say_held(&told, core.version_due(), out) {
        return Err(StoreStatus::from(HelpStatus::from(stop)));
    }
    Ok(())
}

/// What is awaited in a talk over a store.
#[derive(Clone, Copy, Debug, PartialEq, Eq)]
pub enum StoreStage {
    /// The opening.
    Opening,
    /// How many records of the store are to be heard.
    Recalling,
    /// A question: the store was read.
    Answering,
}

/// A helper's end of a talk over a store of its own that is under way.
///
/// What comes is [fed](ServingStore::feed), and what is owed goes out at once, until the talk has a
/// [`status`](ServingStore::status): it is the talk of a [`serve_store`](sip_questions::serve_store)
/// on a link, whatever the source tells that is read again there. The store is lent at each call and
/// read in one of them alone, that in which it became known how many of its records are to be heard
/// ([`has_read`](ServingStore::has_read)). So questions for large entries are refused, as for want
/// of memory. Memory is taken by [`begin`](ServingStore::begin), and else what `serve_store` takes.
/// The time is that of the bytes, of hearing the records and of the replies.
#[derive(Drop)]
pub struct ServingStore {
    form: Form,
    core: QuestionCore,
    coming: Coming,
    stage: StoreStage,
    status: Option<StoreStatus>,
}

impl ServingStore {
    /// Before anything was heard, over a store whose records have this form.
    ///
    /// # Errors
    ///
    /// `OutOfMemory` where there is none for a frame of 8,709 bytes.
    pub fn begin(alloc: Global, form: Form) -> Result<Self, OutOfMemory>
        ensures begun { IfOk result IsUnderWay }
        ensures served { IfOk result (IsStoreServed form None []) }
    {
        let coming = Coming::begin(alloc)?;
        Ok(ServingStore {
            form,
            core: QuestionCore::new(alloc),
            coming,
            stage: StoreStage::Opening,
            status: None,
        })
    }

    /// How the talk ended, once it has: as of a [`serve_store`](sip_questions::serve_store) on a
    /// link, whose faults are those of the sink.
    pub fn status(&self) -> Option<StoreStatus>
        ensures { result ≡ self.now.status }
    {
        self.status
    }

    /// Whether the store was read: from there on nothing of it is used.
    pub fn has_read(&self) -> bool
        ensures { result ≡ is_read self.now }
    {
        matches!(self.stage, StoreStage::Answering)
    }

    // Looks at what came of the frame behind the opening.
    fn look_at_recall<A: Source, K: Sink>(&mut self, version: Version, first: &mut A, out: &mut K)
        requires stage { self.old.stage ≡ StoreStage.Recalling }
        requires put { HasPut version self.old }
        ensures passes { (form : AnyForm) (read : Option StoreRead) (events : List AnyEvent)
            (was : AnyComing) (piece : List ℕ) → IsPut form read events was piece self.old
            → Passes (K.talk out.old) (K.talk out.new) piece events
            (λ all. IsStoreServed form (read_then (is_read self.old) (is_read self.new)
            (A.left first.old) (A.left first.new) read) all self.new) }
        ensures unread { is_read self.new ≡ false → first.new ≡ first.old }
        ensures told { IsSome (A.left first.old) → IsSome (A.left first.new) }
        ensures silent { is_read self.new ≡ false → self.new.status ≡ None
            → GoesOn (K.talk out.old) (K.talk out.new) [] }
        ensures causes { HasStoreCause A.faults K.faults first.old first.new out.old out.new
            self.new.status }
        ensures memory { self.new.status ≡ Some StoreStatus.OutOfMemory
            → GoesOn (K.talk out.old) (K.talk out.new) []
            ⊎ Rose (K.wants out.old) (K.wants out.new) }
        ensures first { Lasts A.faults A.wants A.is_sure first.old first.new }
        ensures lasts { Lasts K.faults K.wants K.is_sure out.old out.new }
    {
        let mut recalling = Recalling::new(version);
        match self
            .coming
            .look(&mut recalling, Place::AskedQuestion, version, out)
        {
            Came::Part => {}
            Came::End(how) => self.status = Some(StoreStatus::from(how)),
            Came::Turn => {
                let Some(count) = recalling.count else {
                    unreachable!()
                };
                self.stage = StoreStage::Answering;
                if let Err(status) = recall(self.form, &mut self.core, count, first, out) {
                    self.status = Some(status);
                }
            }
        }
    }

    // Looks at what came of an opening, or of what is asked.
    fn look_at_turn<K: Sink>(&mut self, version: Version, out: &mut K)
        requires stage { self.old.stage ≢ StoreStage.Recalling }
        requires put { HasPut version self.old }
        ensures passes { (form : AnyForm) (read : Option StoreRead) (events : List AnyEvent)
            (was : AnyComing) (piece : List ℕ) → IsPut form read events was piece self.old
            → Passes (K.talk out.old) (K.talk out.new) piece events
            (λ all. IsStoreServed form read all self.new) }
        ensures unread { is_read self.new ≡ is_read self.old }
        ensures silent { is_read self.new ≡ false → self.new.status ≡ None
            → GoesOn (K.talk out.old) (K.talk out.new) [] }
        ensures cause { self.new.status ≡ Some StoreStatus.PeerFault
            → Rose (K.faults out.old) (K.faults out.new) }
        ensures fault { self.new.status ≢ Some StoreStatus.ReadFault }
        ensures memory { self.new.status ≡ Some StoreStatus.OutOfMemory
            → Rose (K.wants out.old) (K.wants out.new) }
        ensures lasts { Lasts K.faults K.wants K.is_sure out.old out.new }
    {
        match self
            .coming
            .look(&mut self.core, Place::AskedQuestion, version, out)
        {
            Came::Part => {}
            Came::End(how) => self.status = Some(StoreStatus::from(how)),
            Came::Turn => {
                if let StoreStage::Opening = self.stage {
                    self.stage = StoreStage::Recalling;
                }
            }
        }
    }

    // Takes bytes of the frame that is coming: at least one, and none behind it.
    fn piece<A: Source, K: Sink>(&mut self, bytes: &[u8], first: &mut A, out: &mut K) -> usize
        requires some { 0 < length bytes.now }
        requires going { self.old.status ≡ None }
        requires begun { IsUnderWay self.old }
        ensures begun { IsUnderWay self.new }
        ensures some { 0 < result }
        ensures most { result ≤ length bytes.now }
        ensures told { IsSome (A.left first.old) → IsSome (A.left first.new) }
        ensures passes { (form : AnyForm) (read : Option StoreRead) (events : List AnyEvent)
            → IsStoreServed form read events self.old
            → Passes (K.talk out.old) (K.talk out.new) (take result bytes.now) events
            (λ all. IsStoreServed form (read_then (is_read self.old) (is_read self.new)
            (A.left first.old) (A.left first.new) read) all self.new) }
        ensures once { is_read self.old ≡ true → is_read self.new ≡ true }
        ensures unread { is_read self.new ≡ is_read self.old → first.new ≡ first.old }
        ensures silent { is_read self.new ≡ false → self.new.status ≡ None
            → GoesOn (K.talk out.old) (K.talk out.new) [] }
        ensures causes { HasStoreCause A.faults K.faults first.old first.new out.old out.new
            self.new.status }
        ensures memory { self.new.status ≡ Some StoreStatus.OutOfMemory
            → (is_read self.old ≡ false) × GoesOn (K.talk out.old) (K.talk out.new) []
            ⊎ Rose (K.wants out.old) (K.wants out.new) }
        ensures first { Lasts A.faults A.wants A.is_sure first.old first.new }
        ensures lasts { Lasts K.faults K.wants K.is_sure out.old out.new }
    {
        let version = self.core.version_due();
        let taken = self.coming.put(Place::AskedQuestion, version, bytes);
        if let StoreStage::Recalling = self.stage {
            self.look_at_recall(version, first, out);
            return taken;
        }
        self.look_at_turn(version, out);
        taken
    }

    /// Takes bytes that came, in any pieces, and answers how many: all of them while the talk goes
    /// on, and none behind its end. Each reply that is owed goes to `out`, and the refusal of a
    /// message out of turn.
    ///
    /// The store is left alone but in the call in which it becomes known how many of its records are
    /// to be heard. Where it can't be read, where the sink fails, or where memory is refused to one
    /// of these, that is how the talk ended.
    pub fn feed<A: Source, K: Sink>(&mut self, bytes: &[u8], first: &mut A, out: &mut K) -> usize
        requires begun { IsUnderWay self.old }
        ensures begun { IsUnderWay self.new }
        ensures most { result ≤ length bytes.now }
        ensures all { self.new.status ≡ None → result ≡ length bytes.now }
        ensures none { IsSome self.old.status → result ≡ 0 }
        ensures passes { (form : AnyForm) (read : Option StoreRead) (events : List AnyEvent)
            → IsStoreServed form read events self.old
            → Passes (K.talk out.old) (K.talk out.new) (take result bytes.now) events
            (λ all. IsStoreServed form (read_then (is_read self.old) (is_read self.new)
            (A.left first.old) (A.left first.new) read) all self.new) }
        ensures unread { is_read self.new ≡ is_read self.old → first.new ≡ first.old }
        ensures told { IsSome (A.left first.old) → IsSome (A.left first.new) }
        ensures cause { self.old.status ≡ None → self.new.status ≡ Some StoreStatus.PeerFault
            → Rose (K.faults out.old) (K.faults out.new) }
        ensures fault { self.old.status ≡ None → self.new.status ≡ Some StoreStatus.ReadFault
            → Rose (A.faults first.old) (A.faults first.new) }
        ensures memory { self.old.status ≡ None → self.new.status ≡ Some StoreStatus.OutOfMemory
            → (is_read self.old ≡ false) × GoesOn (K.talk out.old) (K.talk out.new) []
            ⊎ Rose (K.wants out.old) (K.wants out.new) }
        ensures first { Lasts A.faults A.wants A.is_sure first.old first.new }
        ensures lasts { Lasts K.faults K.wants K.is_sure out.old out.new }
    {
        let mut taken = 0;
        while taken < bytes.len() {
            if self.status.is_some() {
                return taken;
            }
            taken += self.piece(&bytes[taken..], first, out);
        }
        taken
    }

    /// The other end closed, without a farewell where the talk had not ended.
    pub fn close(&mut self)
        requires begun { IsUnderWay self.old }
        ensures begun { IsUnderWay self.new }
        ensures closed { self.old.status ≡ None → self.new.status ≡ Some StoreStatus.PeerClosed }
        ensures same { IsSome self.old.status → self.new ≡ self.old }
        ensures unread { is_read self.new ≡ is_read self.old }
        ensures served { (form : AnyForm) (read : Option StoreRead) (events : List AnyEvent)
            → IsStoreServed form read events self.old
            → IsStoreServed form read (events ++ end_seen self.old.status) self.new }
    {
        if self.status.is_none() {
            self.status = Some(StoreStatus::PeerClosed);
        }
    }
}
