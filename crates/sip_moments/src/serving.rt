//! The helper's end of a talk of moments.

ghost use Rattle.std.specs.Prelude.{◌≡◌, ◌≢◌, ◌⊎◌, Bool, IfSome, IsOk, IsTrue, OnErr, OnOk, None};
ghost use Rattle.std.specs.Prelude.{Some, ◌↔◌, false};
ghost use Rattle.sip_ports.specs.Ports.{Lasts, Rose};
ghost use Rattle.sip_wire.specs.declared.message.Message.TheVariants as messages;
ghost use Rattle.sip_wire.specs.declared.version.Version.TheVariants.{Two};
ghost use Rattle.sip_wire.specs.Spelling.{fits};
ghost use Rattle.sip_helper.specs.Turns.{whole_of};
ghost use Rattle.sip_moments.specs.Serving.{ServesMoments, fresh_moments, may_ask, may_follow};
ghost use Rattle.sip_moments.specs.Serving.{may_question, side_of, step};

use crate::moment::LEAST_DEGREE;
use crate::room::is_too_high;
use crate::under_way::MomentUnderWay;
use sip_helper::{HelpStatus, HelperCore, Helps, OutOfTurn, talk};
use sip_ports::{Link, PortStop, Sink};
use sip_vector::{Depth, Side};
use sip_wire::{MOST_DEGREE, MOST_QUERIES, Message, Place, Version};
use std::alloc::Global;
use std::marker::Model;

/// What a helper of moments knows.
#[derive(Drop)]
pub(crate) struct MomentCore {
    alloc: Global,
    core: HelperCore,
    asked: u8,
    question: Option<MomentUnderWay>,
    done: bool,
}

impl Model for MomentCore {
    ghost use Rattle.std.specs.Option.{option_map};
    ghost use Rattle.sip_moments.specs.Serving.{MomentHelper};
    ghost use Rattle.sip_moments.specs.UnderWay.{open_of};
    ghost use Rattle.sip_moments.specs.inside.Keeping.{IsCoherent};

    ghost Value = { MomentHelper };

    ghost view = { λ h. record {
      helper = h.core;
      asked = h.asked;
      question = option_map open_of h.question;
      done = h.done;
    } };

    ghost invariant = { λ h. IsCoherent h.core h.asked h.question };
}

/// The side of a number; `None` where it is above 1.
pub fn side_of(number: u8) -> Option<Side>
    ensures { result ≡ side_of number }
{
    match number {
        0 => Some(Side::First),
        1 => Some(Side::Second),
        _ => None,
    }
}

impl MomentCore {
    /// A helper that has heard nothing. It takes no memory yet.
    fn new(alloc: Global) -> MomentCore
        ensures { result ≡ fresh_moments }
    {
        MomentCore {
            alloc,
            core: HelperCore::new(alloc),
            asked: 0,
            question: None,
            done: false,
        }
    }

    /// Takes a moment, where it may be asked, and the memory that its replies want.
    fn ask(&mut self, depth: Depth, number: u8, degree: u8) -> Result<(), OutOfTurn>
        requires due { self.old.question ≡ None }
        requires whole { whole_of self.old.helper.heard ≡ Some depth }
        ensures turn { IsOk result ↔ IsTrue (may_ask self.old number degree) }
        ensures asked { OnOk result ((refused : Bool)
            × (self.new ≡ step self.old refused (messages.AskMoment number degree))) }
        ensures same { OnErr result (self.new ≡ self.old) }
    {
        if self.asked >= MOST_QUERIES as u8 || degree < LEAST_DEGREE || degree > MOST_DEGREE {
            return Err(OutOfTurn);
        }
        let Some(side) = side_of(number) else {
            return Err(OutOfTurn);
        };
        if is_too_high(self.core.weight(side), degree) {
            return Err(OutOfTurn);
        }
        let question = MomentUnderWay::begin(self.alloc, &self.core, depth, side, degree);
        self.question = Some(question);
        self.asked += 1;
        Ok(())
    }

    /// Takes what may come where a moment is due, or the end.
    fn hear_question(&mut self, depth: Depth, message: &Message) -> Result<(), OutOfTurn>
        requires due { self.old.question ≡ None }
        requires whole { whole_of self.old.helper.heard ≡ Some depth }
        ensures turn { IsOk result ↔ IsTrue (may_question self.old message.now) }
        ensures heard { OnOk result ((refused : Bool)
            × (self.new ≡ step self.old refused message.now)) }
        ensures same { OnErr result (self.new ≡ self.old) }
    {
        match message {
            Message::AskMoment { side, degree } => self.ask(depth, *side, *degree),
            Message::End => {
                self.done = true;
                Ok(())
            }
            _ => Err(OutOfTurn),
        }
    }

    /// Takes what may come while a moment is open.
    fn hear_challenge(&mut self, depth: Depth, message: &Message) -> Result<(), OutOfTurn>
        requires open { self.old.question ≢ None }
        requires whole { whole_of self.old.helper.heard ≡ Some depth }
        requires fits { IsTrue (fits Two message.now) }
        ensures turn { IfSome self.old.question (λ o.
            IsOk result ↔ IsTrue (may_follow depth o message.now)) }
        ensures heard { OnOk result (self.new ≡ step self.old false message.now) }
        ensures same { OnErr result (self.new ≡ self.old) }
    {
        let Some(question) = &mut self.question else {
            return Err(OutOfTurn);
        };
        match message {
            Message::Reveal { challenge } => question.reveal(depth.get(), *challenge),
            _ => Err(OutOfTurn),
        }
    }
}

impl Helps for MomentCore {
    ghost use Rattle.std.specs.Prelude.{not};
    ghost use Rattle.sip_moments.specs.Serving.{moment_rules, owes};
    ghost use Rattle.sip_moments.specs.inside.Keeping.{moments_left};

    ghost rules = { moment_rules };

    ghost turns_left = { moments_left };

    ghost is_live = { λ s. not s.helper.spent };

    ghost is_owing = { owes };

    fn version_due(&self) -> Version {
        self.core.spoken()
    }

    fn place_due(&self) -> Place {
        if self.question.is_none() && self.core.whole().is_some() {
            Place::AskedMoment
        } else {
            Place::ToHelper
        }
    }

    fn take(&mut self, message: &Message) -> Result<(), OutOfTurn> {
        let Some(depth) = self.core.whole() else {
            return self.core.hear_on(message);
        };
        if self.question.is_none() {
            return self.hear_question(depth, message);
        }
        self.hear_challenge(depth, message)
    }

    fn owes_reply(&self) -> bool {
        match &self.question {
            Some(question) => question.is_owed(),
            None => false,
        }
    }

    fn is_over(&self) -> bool {
        self.done
    }

    fn send_reply<K: Sink>(&mut self, out: &mut K) -> Result<(), PortStop> {
        let Some(question) = &self.question else {
            return Ok(());
        };
        question.put_reply(self.core.spoken(), out)?;
        let Some(depth) = self.core.whole() else {
            return Ok(());
        };
        self.question = match self.question.take() {
            Some(question) => question.after_reply(depth.get()),
            None => None,
        };
        Ok(())
    }
}

/// Hears a talk of moments and answers, until its end. Frames are in the version of the opening,
/// and in version 1 up to it.
///
/// The stream is heard as by `sip_helper::serve`. Behind it a moment is asked, or the talk ends. To
/// a moment the claim and the first round polynomial go out, and behind each challenge the next
/// polynomial, until the last one closes it. Where memory was refused, while the stream was heard
/// or at the question, it is refused for want of it, and the next may be asked. A moment is out of
/// turn where its side is above 1, its degree is not 3 to 8, the side's weight to that power is
/// above 2^60 - 1, or 16 were asked before it; a challenge is where no moment is open that has a
/// round left, and a Bye always is.
///
/// Memory is taken for one frame, which comes first, for the two vectors, and for what the replies
/// about a moment are made from. Where there is none for the frame the link is left alone; from
/// then on `OutOfMemory` comes only where the link's count of wants rose.
pub fn serve_moments<L: Link>(alloc: Global, link: &mut L) -> HelpStatus
    ensures serves { ServesMoments (L.talk link.old) (L.talk link.new) result }
    ensures cause { result ≡ HelpStatus.PeerFault
        → Rose (L.faults link.old) (L.faults link.new) }
    ensures memory { result ≡ HelpStatus.OutOfMemory
        → (link.new ≡ link.old) ⊎ Rose (L.wants link.old) (L.wants link.new) }
    ensures lasts { Lasts L.faults L.wants L.is_sure link.old link.new }
{
    talk(MomentCore::new(alloc), alloc, link)
}
