//! Where in its talk a query is: what is asked is sent, a reply is heard, a challenge is sent.
ghost use Rattle.std.specs.Prelude.{◌≡◌, ◌<◌, ◌≤◌, ◌+◌, ◌-◌, ℕ, List, None, true, false, length};
ghost use Rattle.std.specs.Prelude.{IsTrue};
ghost use Rattle.sip_ports.specs.declared.port.TalkEvent.{TalkEvent as AnyEvent};
ghost use Rattle.sip_ports.specs.Ports.{HasCause, SendsWhole};
ghost use Rattle.std.specs.declared.option.Option.{Option as AnyOption};
ghost use Rattle.sip_vector.specs.declared.update.Entry.{Entry as AnyEntry};
ghost use Rattle.sip_wire.specs.declared.kind.Place.{Place as AnyPlace};
ghost use Rattle.sip_wire.specs.declared.message.Message.{Message as AnyMessage};
ghost use Rattle.sip_wire.specs.declared.version.Version.{Version as AnyVersion};
ghost use Rattle.sip_wire.specs.Spelling.{fits, spelling};
ghost use Rattle.sip_wire.specs.Values.{InRange};
ghost use Rattle.sip_replies.specs.Asking.{Came, Shows};
ghost use Rattle.sip_replies.specs.Following.{Follows, Going, IsAt, IsBelow, due_message, is_due};
ghost use Rattle.sip_replies.specs.Following.{is_hearing, is_open, left, stage_of, verdict_of};
ghost use Rattle.sip_replies.specs.Protocols.{Begins, Ends, Phase, Reveals as MayReveal};
ghost use Rattle.sip_replies.specs.Replies.{read_one};

use crate::asking::AskStop;
use crate::check::{Check, More, Said};
use crate::request::Request;
use sip_ports::{Link, PortStop};
use sip_vector::Entry;
use sip_wire::{Message, Reason, Version, encode_reveal};

/// What comes next in the talk of a query, or what came of it.
#[derive(Clone, Copy, Debug, PartialEq, Eq)]
pub enum Stage {
    /// What is asked is to be sent.
    Asks,
    /// A reply is to come, or the rest of it.
    Hears,
    /// This challenge is to be sent.
    Reveals(u64),
    /// All replies came, and say this.
    Said(Said),
    /// The replies have this first fault.
    Rejected { round: u8, reason: Reason },
}

/// Where in its talk a query is. It knows no link: whoever has it sends what is due, and hands
/// over what came.
///
/// [`begin`](Turn::begin) comes first. Then, until there is a [`verdict`](Turn::verdict): what is
/// due is [sent](Turn::send), that is [told](Turn::sent), and the bytes that come are
/// [fed](Turn::feed) in any pieces, until no reply is [awaited](Turn::is_hearing). The check, the
/// places and the frame are those of all calls, with nothing changed in between.
/// [`ask`](crate::ask) does so over a link. A call takes time in proportion to the bytes that it is
/// given, and no memory.
#[derive(Clone, Copy, Debug, PartialEq, Eq)]
pub struct Turn {
    version: Version,
    depth: u8,
    // How many replies came whole.
    round: u8,
    stage: Stage,
}

// The stage behind the tests of the last reply.
fn judged(round: u8, said: Result<Said, Reason>) -> Stage
    ensures { result ≡ stage_of round said }
{
    match said {
        Ok(said) => Stage::Said(said),
        Err(reason) => Stage::Rejected { round, reason },
    }
}

impl Turn {
    /// Before anything was said. Where the check knows the answer without a reply, that is the
    /// verdict.
    pub fn begin<C: Check>(check: &C, version: Version) -> Turn
        requires { Begins (C.phase check.now) }
        ensures version { result.version ≡ version }
        ensures at { IsAt result (C.phase check.now) }
        ensures silent { is_hearing result.stage ≡ false }
        ensures follows { (asked : C.Asked) (request : AnyMessage)
            (old before : AnyOption (List AnyEvent)) (places : List AnyEntry)
            → (C.protocol asked).rules.version ≡ version
            → C.stands asked (C.protocol asked).rules.start check.now places
            → Follows (C.protocol asked) request (C.phase check.now).block old old before before
            (λ s. C.stands asked s check.now places) places result }
    {
        let depth = check.depth() as u8;
        if let Some(said) = check.unasked() {
            return Turn {
                version,
                depth,
                round: 0,
                stage: Stage::Said(said),
            };
        }
        Turn {
            version,
            depth,
            round: 0,
            stage: Stage::Asks,
        }
    }

    /// The version of the frames.
    pub fn version(&self) -> Version
        ensures { result ≡ self.now.version }
    {
        self.version
    }

    /// How many replies came whole.
    pub fn round(&self) -> u8
        ensures { result ≡ self.now.round }
    {
        self.round
    }

    /// A reply is to come, or the rest of it.
    pub fn is_hearing(&self) -> bool
        ensures { result ≡ is_hearing self.now.stage }
    {
        matches!(self.stage, Stage::Hears)
    }

    /// The verdict, once there is one.
    pub fn verdict(&self) -> Option<Result<Said, AskStop>>
        ensures { result ≡ verdict_of self.now.stage }
    {
        match self.stage {
            Stage::Said(said) => Some(Ok(said)),
            Stage::Rejected { round, reason } => Some(Err(AskStop::Rejected { round, reason })),
            _ => None,
        }
    }

    /// Sends what is due, and changes nothing: [`Turn::sent`] tells that it was sent.
    pub fn send<Q: Request, L: Link>(&self, request: &Q, link: &mut L) -> Result<(), PortStop>
        requires due { is_due self.now.stage ≡ true }
        requires below { IsBelow self.now.stage }
        requires fits { IsTrue (fits self.now.version (Q.message request.now)) }
        ensures talk { SendsWhole (L.talk link.old) (L.talk link.new) result
            (spelling self.now.version (due_message (Q.message request.now) self.now.stage)) }
        ensures cause { HasCause L.faults L.wants L.is_sure link.old link.new result }
    {
        match self.stage {
            Stage::Asks => request.send(self.version, link),
            Stage::Reveals(challenge) => encode_reveal(challenge, self.version, link),
            _ => unreachable!(),
        }
    }

    /// What was due was sent whole.
    pub fn sent(&mut self)
        ensures { self.new ≡ record self.old { stage = Stage.Hears } }
    {
        self.stage = Stage::Hears;
    }

    // A reply came whole, and passed: the next challenge is due, or the tests behind the last reply
    // are made.
    fn complete<C: Check>(&mut self, check: &mut C, places: &[Entry])
        requires more { self.old.round < self.old.depth }
        requires deep { length (C.phase check.old).block ≡ self.old.depth }
        requires taken { (C.phase check.old).taken ≡ self.old.round + 1 }
        requires revealed { (C.phase check.old).revealed ≡ self.old.round }
        requires stood { (asked : C.Asked) × (s : C.State)
            × C.stands asked s check.old places.now }
        ensures version { self.new.version ≡ self.old.version }
        ensures nearer { left self.new < 1 + (self.old.depth - self.old.round) }
        ensures silent { is_hearing self.new.stage ≡ false }
        ensures at { is_open self.new.stage ≡ true → IsAt self.new (C.phase check.new) }
        ensures block { is_open self.new.stage ≡ true
            → (C.phase check.new).block ≡ (C.phase check.old).block }
        ensures lent { C.lent check.new ≡ C.lent check.old }
        ensures stands { (asked : C.Asked) (s : C.State) → C.stands asked s check.old places.now
            → is_open self.new.stage ≡ true
            → (t : C.State) × C.stands asked t check.new places.now }
        ensures follows { (asked : C.Asked) (request : AnyMessage) (block : List ℕ)
            (old new before now : AnyOption (List AnyEvent))
            → (C.protocol asked).unasked ≡ None → (C.phase check.old).block ≡ block
            → (C.protocol asked).rules.version ≡ self.old.version
            → Going (C.protocol asked) request block old new before now (self.old.round + 1)
            (λ s. C.stands asked s check.old places.now)
            → Follows (C.protocol asked) request block old new before now
            (λ s. C.stands asked s check.new places.now) places.now self.new }
    {
        self.round += 1;
        if self.round < self.depth {
            self.stage = Stage::Reveals(check.reveal());
            return;
        }
        self.stage = judged(self.round, check.finish(places));
    }

    /// A frame came with this message: it is a part of the reply, or ends it, or has a fault.
    pub(crate) fn took<C: Check>(&mut self, check: &mut C, places: &mut [Entry], message: &Message)
        requires hears { self.old.stage ≡ Stage.Hears }
        requires at { IsAt self.old (C.phase check.old) }
        requires stood { (asked : C.Asked) × (s : C.State)
            × C.stands asked s check.old places.old }
        requires fits { (version : AnyVersion) × IsTrue (fits version message.now) }
        requires range { InRange message.now }
        ensures version { self.new.version ≡ self.old.version }
        ensures nearer { is_hearing self.new.stage ≡ false → left self.new < left self.old }
        ensures same { is_hearing self.new.stage ≡ true → self.new ≡ self.old }
        ensures smaller { is_hearing self.new.stage ≡ true → C.room check.new < C.room check.old }
        ensures at { is_open self.new.stage ≡ true → IsAt self.new (C.phase check.new) }
        ensures block { is_open self.new.stage ≡ true
            → (C.phase check.new).block ≡ (C.phase check.old).block }
        ensures lent { C.lent check.new ≡ C.lent check.old }
        ensures places { length places.new ≡ length places.old }
        ensures stands { (asked : C.Asked) (s : C.State) → C.stands asked s check.old places.old
            → is_open self.new.stage ≡ true
            → (t : C.State) × C.stands asked t check.new places.new }
        ensures follows { (asked : C.Asked) (request : AnyMessage) (block : List ℕ)
            (old mid new before during now : AnyOption (List AnyEvent)) (place : AnyPlace)
            (said : AnyMessage × List ℕ)
            → ((s : C.State) → C.stands asked s check.old places.old
            → place ≡ (C.protocol asked).rules.place s)
            → (C.phase check.old).block ≡ block
            → Follows (C.protocol asked) request block old mid before during
            (λ s. C.stands asked s check.old places.old) places.old self.old
            → Came self.old.version (read_one self.old.version place) mid new during now said
            → Shows self.old.version message.now said
            → Follows (C.protocol asked) request block old new before now
            (λ s. C.stands asked s check.new places.new) places.new self.new }
    {
        match check.take(message, places) {
            Ok(More::Due) => {}
            Ok(More::Complete) => self.complete(check, places),
            Err(reason) => self.refused(reason),
        }
    }

    /// The frames have this fault, or the link's end is found behind a part of the reply.
    pub(crate) fn refused(&mut self, reason: Reason)
        ensures { self.new ≡ record self.old { stage = Stage.Rejected self.old.round reason } }
    {
        self.stage = Stage::Rejected {
            round: self.round,
            reason,
        };
    }
}
