//! The helper's side of a talk, message by message.

ghost use Rattle.std.specs.Prelude.{◌≡◌, ◌<◌, ◌≤◌, Bool, ℕ, IfSome, IsOk, IsTrue, MatchOption};
ghost use Rattle.std.specs.Prelude.{OnErr, OnOk, None, Some, ◌↔◌, false, is_some, true};
ghost use Rattle.sip_field.specs.Moduli.{m61_modulus};
ghost use Rattle.sip_ports.specs.Ports.{HasCause, SendsWhole};
ghost use Rattle.sip_vector.specs.Limits.{most_depth};
ghost use Rattle.sip_vector.specs.Streams.{most_weight};
ghost use Rattle.sip_vector.specs.Vectors.{contents};
ghost use Rattle.sip_wire.specs.Spelling.{fits};
ghost use Rattle.sip_wire.specs.declared.version.Version.TheVariants.{Two};
ghost use Rattle.sip_wire.specs.declared.message.Message.TheVariants as messages;
ghost use Rattle.sip_helper.specs.Shown.{counted, opened, opened_version, shown_vector, weight_of};
ghost use Rattle.sip_wire.specs.Table.{most_queries};
ghost use Rattle.sip_helper.specs.inside.Measures.{turns_left};
ghost use Rattle.sip_helper.specs.Turns.{after_answer, depth_of, fresh, is_allowed, may_hear, owed};
ghost use Rattle.sip_helper.specs.Turns.{owes, step, whole_of};

use crate::OutOfTurn;
use crate::asked::{Answerer, QueryUnderWay};
use crate::heard::Heard;
use crate::vectors::{Vectors, Weights, grown, settled};
use sip_ports::{PortStop, Sink};
use sip_vector::{Depth, Query, Side, Update, Vector};
use sip_wire::{MOST_QUERIES, Message, Version};
use std::alloc::Global;
use std::marker::Model;

/// What a helper knows: the stream that it heard, and the query that is open.
///
/// A message that may come is heard by [`hear`](HelperCore::hear), and the reply that is owed then
/// is sent by [`answer`](HelperCore::answer). Where memory is refused, the query is answered by a
/// refusal.
#[derive(Drop)]
pub struct HelperCore {
    alloc: Global,
    version: Version,
    heard: Heard,
    weights: Weights,
    vectors: Option<Vectors>,
    queries: usize,
    asked: Option<QueryUnderWay>,
    done: bool,
    spent: bool,
}

impl Model for HelperCore {
    ghost use Rattle.std.specs.Option.{option_map};
    ghost use Rattle.sip_helper.specs.Turns.{HelperState};
    ghost use Rattle.sip_helper.specs.inside.Answering.{open_of};
    ghost use Rattle.sip_helper.specs.inside.Keeping.{IsCoherent};

    ghost Value = { HelperState };

    ghost view = { λ h. record {
      version = h.version;
      heard = h.heard;
      vectors = h.vectors;
      weights = h.weights;
      queries = h.queries;
      open_query = option_map open_of h.asked;
      done = h.done;
      spent = h.spent;
    } };

    ghost invariant = { λ h. IsCoherent h.version h.heard h.weights h.vectors h.queries h.asked };
}

impl HelperCore {
    /// A helper that has heard nothing. It takes no memory yet.
    pub fn new(alloc: Global) -> HelperCore
        ensures { result ≡ fresh }
    {
        HelperCore {
            alloc,
            version: Version::One,
            heard: Heard::Nothing,
            weights: Weights {
                first: 0,
                second: 0,
            },
            vectors: None,
            queries: 0,
            asked: None,
            done: false,
            spent: false,
        }
    }

    fn open_talk(&mut self, number: u8, depth: u8) -> Result<(), OutOfTurn>
        requires { IsTrue (fits Two (messages.Open number depth)) }
        ensures turn { IsOk result ↔ IsTrue
            (is_allowed self.old (messages.Open number depth)) }
        ensures ok { OnOk result ((refused : Bool)
            × (self.new ≡ step self.old refused (messages.Open number depth))) }
        ensures err { OnErr result (self.new ≡ self.old) }
    {
        let Heard::Nothing = self.heard else {
            return Err(OutOfTurn);
        };
        let Some(version) = Version::of(number) else {
            return Err(OutOfTurn);
        };
        let Some(depth) = Depth::new(depth) else {
            return Err(OutOfTurn);
        };
        self.version = version;
        self.heard = Heard::Part(depth);
        self.vectors = Vectors::new(self.alloc, depth).ok();
        Ok(())
    }

    fn end(&mut self) -> Result<(), OutOfTurn>
        ensures turn { IsOk result ↔ IsTrue (is_allowed self.old messages.EndStream) }
        ensures ok { OnOk result ((refused : Bool)
            × (self.new ≡ step self.old refused messages.EndStream)) }
        ensures err { OnErr result (self.new ≡ self.old) }
    {
        let Some(depth) = self.heard.part() else {
            return Err(OutOfTurn);
        };
        self.vectors = settled(self.vectors.take());
        self.heard = Heard::Whole(depth);
        Ok(())
    }

    fn ask(&mut self, query: Query) -> Result<(), OutOfTurn>
        requires { IsTrue (fits Two (messages.Query query)) }
        ensures turn { IsOk result ↔ IsTrue (is_allowed self.old (messages.Query query)) }
        ensures ok { OnOk result ((refused : Bool)
            × (self.new ≡ step self.old refused (messages.Query query))) }
        ensures err { OnErr result (self.new ≡ self.old) }
    {
        let Some(depth) = self.heard.whole() else {
            return Err(OutOfTurn);
        };
        if self.asked.is_some() || self.queries >= MOST_QUERIES || !query.is_built() {
            return Err(OutOfTurn);
        }
        if !query.fits(depth) {
            return Err(OutOfTurn);
        }
        let answerer = Answerer::start(self.alloc, &self.vectors, query);
        self.asked = Some(QueryUnderWay::new(answerer));
        self.queries += 1;
        Ok(())
    }

    fn reveal(&mut self, challenge: u64) -> Result<(), OutOfTurn>
        requires { challenge < m61_modulus }
        ensures turn { IsOk result ↔ IsTrue (is_allowed self.old (messages.Reveal challenge)) }
        ensures ok { OnOk result ((refused : Bool)
            × (self.new ≡ step self.old refused (messages.Reveal challenge))) }
        ensures err { OnErr result (self.new ≡ self.old) }
    {
        let depth = self.heard.depth();
        match &mut self.asked {
            Some(asked) => asked.reveal(depth, challenge),
            None => Err(OutOfTurn),
        }
    }

    /// Takes updates as [`hear`](HelperCore::hear) takes them of a frame, however many they are.
    ///
    /// # Errors
    ///
    /// `OutOfTurn` exactly where they may not come: none of them is added then.
    pub fn hear_updates(&mut self, updates: &[Update]) -> Result<(), OutOfTurn>
        requires live { self.old.spent ≡ false }
        ensures turn { IsOk result
            ↔ IsTrue (is_allowed self.old (messages.Updates (record { items = updates.now }))) }
        ensures heard { OnOk result ((refused : Bool) × (self.new
            ≡ step self.old refused (messages.Updates (record { items = updates.now })))) }
        ensures same { OnErr result (self.new ≡ self.old) }
    {
        let Some(depth) = self.heard.part() else {
            return Err(OutOfTurn);
        };
        let Some(weights) = self.weights.with(depth, updates) else {
            return Err(OutOfTurn);
        };
        self.vectors = grown(self.vectors.take(), updates);
        self.weights = weights;
        Ok(())
    }

    /// Takes a message, where it may come: the state is the next one then, and the reply that is
    /// owed, if one is, may be sent.
    ///
    /// A message that may not come is [`OutOfTurn`] and leaves the helper as it was. Where one
    /// update of a frame may not come, no update of it is added. Where memory is refused the
    /// message is heard all the same. Each message with a spelling in version 1 has one in version
    /// 2 too (`sip_wire::laws`).
    pub fn hear(&mut self, message: &Message) -> Result<(), OutOfTurn>
        requires fits { IsTrue (fits Two message.now) }
        requires live { self.old.spent ≡ false }
        ensures turn { IsOk result ↔ IsTrue (is_allowed self.old message.now) }
        ensures heard { OnOk result ((refused : Bool)
            × (self.new ≡ step self.old refused message.now)) }
        ensures same { OnErr result (self.new ≡ self.old) }
    {
        match message {
            Message::Open { version, depth } => self.open_talk(*version, *depth),
            Message::Updates(updates) => self.hear_updates(updates),
            Message::EndStream => self.end(),
            Message::Query(query) => self.ask(*query),
            Message::Reveal { challenge } => self.reveal(*challenge),
            Message::Bye => {
                self.done = true;
                Ok(())
            }
            _ => Err(OutOfTurn),
        }
    }

    /// Takes a message as [`hear`](HelperCore::hear) does, in a talk with another farewell: a Bye
    /// may not come there.
    pub fn hear_on(&mut self, message: &Message) -> Result<(), OutOfTurn>
        requires fits { IsTrue (fits Two message.now) }
        requires live { self.old.spent ≡ false }
        ensures turn { IsOk result ↔ IsTrue (may_hear self.old message.now) }
        ensures heard { OnOk result ((refused : Bool)
            × (self.new ≡ step self.old refused message.now)) }
        ensures same { OnErr result (self.new ≡ self.old) }
        ensures fewer { OnOk result (turns_left self.new < turns_left self.old) }
    {
        // The proof wants that the depth is bounded.
        let _ = self.levels();
        match message {
            Message::Bye => Err(OutOfTurn),
            _ => self.hear(message),
        }
    }

    /// The number of levels of the talk; 0 before its opening.
    pub(crate) fn levels(&self) -> u8
        ensures same { result ≡ depth_of self.now.heard }
        ensures most { result ≤ most_depth }
    {
        self.heard.depth()
    }

    /// The version of the frames that are heard and answered: that of the opening, and version 1
    /// before it.
    pub fn spoken(&self) -> Version
        ensures { result ≡ self.now.version }
    {
        self.version
    }

    /// The version of the opening; `None` exactly where none was heard.
    pub fn version(&self) -> Option<Version>
        ensures { result ≡ opened_version self.now }
    {
        let _depth = self.heard.opened()?;
        Some(self.version)
    }

    /// The depth of the opening; `None` exactly where none was heard.
    pub fn depth(&self) -> Option<Depth>
        ensures { result ≡ opened self.now.heard }
    {
        self.heard.opened()
    }

    /// The depth of a stream that has ended; `None` exactly where it has not.
    pub fn whole(&self) -> Option<Depth>
        ensures { result ≡ whole_of self.now.heard }
    {
        self.heard.whole()
    }

    /// The weight of a side so far, at most 2^30 - 1: the sum of the absolute deltas that were
    /// heard, also where memory was refused and no vector is kept. It is 0 before an opening.
    pub fn weight(&self, side: Side) -> u64
        ensures side { result ≡ weight_of self.now.weights side }
        ensures most { result ≤ most_weight }
        ensures none { opened self.now.heard ≡ None → result ≡ 0 }
    {
        match side {
            Side::First => self.weights.first,
            Side::Second => self.weights.second,
        }
    }

    /// The vector of a side; `None` exactly where the stream has not ended, or memory was refused
    /// while it was heard.
    pub fn vector(&self, side: Side) -> Option<&Vector>
        ensures shown { MatchOption result (shown_vector self.now side ≡ None)
            (λ v. shown_vector self.now side ≡ Some (contents v.now)) }
        ensures depth { IfSome result (λ v. whole_of self.now.heard ≡ Some v.now.depth) }
        ensures weight { IfSome result (λ v. v.now.weight ≡ weight_of self.now.weights side) }
    {
        let Some(_) = self.heard.whole() else {
            return None;
        };
        match &self.vectors {
            Some(vectors) => Some(vectors.of_side(side)),
            None => None,
        }
    }

    /// Counts a query that is answered elsewhere.
    ///
    /// # Errors
    ///
    /// `OutOfTurn` exactly where 16 were asked: nothing is changed.
    pub fn count_query(&mut self) -> Result<(), OutOfTurn>
        ensures turn { IsOk result ↔ self.old.queries < most_queries }
        ensures counted { OnOk result (self.new ≡ counted self.old) }
        ensures same { OnErr result (self.new ≡ self.old) }
    {
        if self.queries >= MOST_QUERIES {
            return Err(OutOfTurn);
        }
        self.queries += 1;
        Ok(())
    }

    /// Whether a query is open: it was asked, and neither its last reply nor a refusal was given.
    pub fn query_open(&self) -> bool
        ensures { result ≡ is_some self.now.open_query }
    {
        match &self.asked {
            Some(_) => true,
            None => false,
        }
    }

    /// Whether a reply is owed.
    pub fn owes(&self) -> bool
        ensures { result ≡ owes self.now }
    {
        match &self.asked {
            Some(asked) => !asked.given,
            None => false,
        }
    }

    /// Whether the talk is over: a Bye was heard.
    pub fn done(&self) -> bool
        ensures { result ≡ self.now.done }
    {
        self.done
    }

    /// Whether a reply was cut short. No message is heard and nothing is answered from then on.
    pub fn spent(&self) -> bool
        ensures { result ≡ self.now.spent }
    {
        self.spent
    }

    /// Sends the reply that is owed, one write a frame. It takes no memory.
    ///
    /// After an `Err` a part of the reply was sent, and not all; the helper is spent then.
    #[inline(never)]
    pub fn answer<K: Sink>(&mut self, out: &mut K) -> Result<(), PortStop>
        requires owes { IsTrue (owes self.old) }
        requires live { self.old.spent ≡ false }
        ensures talk { SendsWhole (K.talk out.old) (K.talk out.new) result (owed self.old) }
        ensures ok { OnOk result (self.new ≡ after_answer self.old) }
        ensures err { OnErr result (self.new ≡ record self.old { spent = true }) }
        ensures cause { HasCause K.faults K.wants K.is_sure out.old out.new result }
    {
        let Some(asked) = &self.asked else {
            return Ok(());
        };
        if let Err(stop) = asked.put_reply(self.version, &self.vectors, out) {
            self.spent = true;
            return Err(stop);
        }
        let depth = self.heard.depth();
        self.asked = match self.asked.take() {
            Some(asked) => asked.after_reply(depth),
            None => None,
        };
        Ok(())
    }
}
