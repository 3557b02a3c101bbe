//! The helper's end of a talk of lookups.

ghost use Rattle.std.specs.Prelude.{◌≡◌, ◌⊎◌, IsOk, IsTrue, OnErr, OnOk, Some, ◌↔◌, false};
ghost use Rattle.sip_ports.specs.Ports.{HasCause, Lasts, Rose, SendsWhole};
ghost use Rattle.sip_wire.specs.Spelling.{spelling};
ghost use Rattle.sip_wire.specs.declared.message.Message.TheVariants as messages;
ghost use Rattle.sip_helper.specs.Turns.{whole_of};
ghost use Rattle.sip_helper.specs.Turns as turns;
ghost use Rattle.sip_lookup.specs.Frames.{found_message};
ghost use Rattle.sip_lookup.specs.Lookups.{CanLook, honest_found};
ghost use Rattle.sip_lookup.specs.Serving.{ServesLooks, after_answer, fresh_look, lookup_of};
ghost use Rattle.sip_lookup.specs.Serving.{may_look, may_question, owed, step};

use crate::Lookup;
use sip_helper::{HelpStatus, HelperCore, Helps, OutOfTurn, WANT_OF_MEMORY, put_refusal, talk};
use sip_ports::{Link, PortStop, Sink};
use sip_vector::{Depth, Side, Vector};
use sip_wire::{MOST_QUERIES, Message, Place, Version, encode};
use std::alloc::Global;
use std::marker::Model;

/// How far the lookup is that is under way.
#[derive(Clone, Copy, Debug, PartialEq, Eq)]
pub(crate) enum Stage {
    /// None is: behind the stream one is due, or the end.
    Due,
    /// It was asked, and the place of its answer is owed.
    Asked(Lookup),
    /// The place was said: the query about the interval is due, or open.
    Found,
}

/// What a helper of lookups knows.
#[derive(Drop)]
pub(crate) struct LookCore {
    core: HelperCore,
    asked: u8,
    stage: Stage,
    done: bool,
}

impl Model for LookCore {
    ghost use Rattle.sip_lookup.specs.Serving.{LookHelper};
    ghost use Rattle.sip_lookup.specs.inside.Keeping.{IsCoherent};

    ghost Value = { LookHelper };

    ghost view = { λ h. record {
      helper = h.core;
      asked = h.asked;
      stage = h.stage;
      done = h.done;
    } };

    ghost invariant = { λ h. IsCoherent (record {
      helper = h.core;
      asked = h.asked;
      stage = h.stage;
      done = h.done;
    }) };
}

/// The lookup of a code at an item; `None` where there is no such code.
pub fn lookup_of(code: u8, item: u64) -> Option<Lookup>
    ensures { result ≡ lookup_of code item }
{
    match code {
        1 => Some(Lookup::Index(item)),
        2 => Some(Lookup::Pred(item)),
        3 => Some(Lookup::Succ(item)),
        _ => None,
    }
}

/// The place of a lookup's answer over the vector: O(log m) for m entries that are not 0.
pub fn honest_place(vector: &Vector, lookup: Lookup) -> Option<u64>
    requires { CanLook vector.now.depth lookup }
    ensures { result ≡ honest_found vector.now.numbers lookup }
{
    match lookup {
        Lookup::Index(item) => Some(item),
        Lookup::Pred(item) => Some(vector.last_entry(0, item)?.index),
        Lookup::Succ(item) => {
            let last = (1 << vector.depth().get()) - 1;
            Some(vector.next_entry(item, last)?.index)
        }
    }
}

/// Says the place of a lookup's answer, or that there is none.
///
/// # Errors
///
/// Those of the sink, which a front of the frame has then reached that is shorter than it.
#[inline(never)]
#[tactic(auto, using(crate::proofs::FoundFits::some_fits, crate::proofs::FoundFits::none_fits))]
pub fn put_place<K: Sink>(version: Version, place: Option<u64>, out: &mut K) -> Result<(), PortStop>
    ensures talk { SendsWhole (K.talk out.old) (K.talk out.new) result
        (spelling version (found_message place)) }
    ensures cause { HasCause K.faults K.wants K.is_sure out.old out.new result }
{
    let message = match place {
        Some(index) => Message::Found { flag: 1, index },
        None => Message::Found { flag: 0, index: 0 },
    };
    encode(&message, version, out)
}

impl LookCore {
    /// A helper that has heard nothing. It takes no memory yet.
    fn new(alloc: Global) -> LookCore
        ensures { result ≡ fresh_look }
    {
        LookCore {
            core: HelperCore::new(alloc),
            asked: 0,
            stage: Stage::Due,
            done: false,
        }
    }

    /// Takes a lookup, where it may be asked of a stream of this depth.
    fn ask(&mut self, depth: Depth, code: u8, item: u64) -> Result<(), OutOfTurn>
        requires due { self.old.stage ≡ Stage.Due }
        requires whole { whole_of self.old.helper.heard ≡ Some depth }
        ensures turn { IsOk result ↔ IsTrue (may_look depth self.old.asked code item) }
        ensures asked { OnOk result
            (self.new ≡ step self.old false (messages.AskLook code item)) }
        ensures same { OnErr result (self.new ≡ self.old) }
    {
        if self.asked >= MOST_QUERIES as u8 {
            return Err(OutOfTurn);
        }
        if item >= 1 << depth.get() {
            return Err(OutOfTurn);
        }
        let Some(lookup) = lookup_of(code, item) else {
            return Err(OutOfTurn);
        };
        self.asked += 1;
        self.stage = Stage::Asked(lookup);
        Ok(())
    }

    /// Takes what may come where a lookup is due, or the end.
    fn hear_question(&mut self, depth: Depth, message: &Message) -> Result<(), OutOfTurn>
        requires due { self.old.stage ≡ Stage.Due }
        requires whole { whole_of self.old.helper.heard ≡ Some depth }
        ensures turn { IsOk result ↔ IsTrue (may_question depth self.old.asked message.now) }
        ensures heard { OnOk result (self.new ≡ step self.old false message.now) }
        ensures same { OnErr result (self.new ≡ self.old) }
    {
        match message {
            Message::AskLook { code, item } => self.ask(depth, *code, *item),
            Message::End => {
                self.done = true;
                Ok(())
            }
            _ => Err(OutOfTurn),
        }
    }

    /// Says the place of a lookup's answer, or refuses for want of memory.
    fn say_place<K: Sink>(&mut self, lookup: Lookup, out: &mut K) -> Result<(), PortStop>
        requires asked { self.old.stage ≡ Stage.Asked lookup }
        ensures talk { SendsWhole (K.talk out.old) (K.talk out.new) result (owed self.old) }
        ensures given { OnOk result (self.new ≡ after_answer self.old) }
        ensures cause { HasCause K.faults K.wants K.is_sure out.old out.new result }
    {
        let version = self.core.spoken();
        let Some(vector) = self.core.vector(Side::First) else {
            self.stage = Stage::Due;
            return put_refusal(version, WANT_OF_MEMORY, out);
        };
        let place = honest_place(vector, lookup);
        self.stage = Stage::Found;
        put_place(version, place, out)
    }

    /// Sends the reply that is owed to the query about the interval, or to its challenge.
    fn prove<K: Sink>(&mut self, out: &mut K) -> Result<(), PortStop>
        requires found { self.old.stage ≡ Stage.Found }
        requires owes { IsTrue (turns.owes self.old.helper) }
        requires live { self.old.helper.spent ≡ false }
        ensures talk { SendsWhole (K.talk out.old) (K.talk out.new) result (owed self.old) }
        ensures given { OnOk result (self.new ≡ after_answer self.old) }
        ensures cause { HasCause K.faults K.wants K.is_sure out.old out.new result }
    {
        self.core.answer(out)?;
        if !self.core.query_open() {
            self.stage = Stage::Due;
        }
        Ok(())
    }
}

impl Helps for LookCore {
    ghost use Rattle.std.specs.Prelude.{not};
    ghost use Rattle.sip_lookup.specs.Serving.{look_rules, owes};
    ghost use Rattle.sip_lookup.specs.inside.Keeping.{looks_left};

    ghost rules = { look_rules };

    ghost turns_left = { looks_left };

    ghost is_live = { λ s. not s.helper.spent };

    ghost is_owing = { owes };

    fn version_due(&self) -> Version {
        self.core.spoken()
    }

    fn place_due(&self) -> Place {
        match (self.stage, self.core.whole()) {
            (Stage::Due, Some(_)) => Place::AskedLook,
            _ => Place::ToHelper,
        }
    }

    fn take(&mut self, message: &Message) -> Result<(), OutOfTurn> {
        match (self.stage, self.core.whole()) {
            (Stage::Asked(_), _) => Err(OutOfTurn),
            (Stage::Due, Some(depth)) => self.hear_question(depth, message),
            _ => self.core.hear_on(message),
        }
    }

    fn owes_reply(&self) -> bool {
        match self.stage {
            Stage::Due => false,
            Stage::Asked(_) => true,
            Stage::Found => self.core.owes(),
        }
    }

    fn is_over(&self) -> bool {
        self.done
    }

    fn send_reply<K: Sink>(&mut self, out: &mut K) -> Result<(), PortStop> {
        match self.stage {
            Stage::Asked(lookup) => self.say_place(lookup, out),
            _ => self.prove(out),
        }
    }
}

/// Hears a talk of lookups and answers, until its end. Frames are in the version of the opening,
/// and in version 1 up to it.
///
/// The stream is heard as by `sip_helper::serve`. Behind it a lookup is asked, or the talk ends. To
/// a lookup the place of its answer goes out, and then the query about the interval and its
/// challenges are answered as there, until it is closed. Where memory was refused while the stream
/// was heard a lookup is refused for want of it, and the next may be asked. A lookup is out of turn
/// where its item is not below 2^depth, its code is not 1 to 3, or 16 were asked before it, and a
/// Bye always is.
///
/// Memory is taken for one frame, which comes first, for the two vectors, and for what the replies
/// to a query are made from; a place takes none. Where there is none for the frame the link is left
/// alone; from then on `OutOfMemory` comes only where the link's count of wants rose.
pub fn serve_look<L: Link>(alloc: Global, link: &mut L) -> HelpStatus
    ensures serves { ServesLooks (L.talk link.old) (L.talk link.new) result }
    ensures cause { result ≡ HelpStatus.PeerFault
        → Rose (L.faults link.old) (L.faults link.new) }
    ensures memory { result ≡ HelpStatus.OutOfMemory
        → (link.new ≡ link.old) ⊎ Rose (L.wants link.old) (L.wants link.new) }
    ensures lasts { Lasts L.faults L.wants L.is_sure link.old link.new }
{
    talk(LookCore::new(alloc), alloc, link)
}
