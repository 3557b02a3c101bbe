//! The helper's end of a talk of questions.

ghost use Rattle.std.specs.Prelude.{◌≡◌, ◌≢◌, ◌<◌, ◌≤◌, ◌⊎◌, Bool, Err, IfSome, IsOk, IsSome};
ghost use Rattle.std.specs.Prelude.{IsTrue, None, OnErr, OnOk, Some, ◌↔◌, false};
ghost use Rattle.sip_ports.specs.Ports.{HasCause, Lasts, Rose, SendsWhole};
ghost use Rattle.sip_wire.specs.declared.message.Message.TheVariants as messages;
ghost use Rattle.sip_wire.specs.declared.version.Version.TheVariants.{Two};
ghost use Rattle.sip_wire.specs.Spelling.{fits};
ghost use Rattle.sip_helper.specs.Turns.{depth_of};
ghost use Rattle.sip_above.specs.Questions.{ask_of};
ghost use Rattle.sip_above.specs.declared.large.Large.{Large as AnyLarge};
ghost use Rattle.sip_above.specs.Serving.{may_follow as large_may_follow, newly_asked};
ghost use Rattle.sip_above.specs.UnderWay as larges;
ghost use Rattle.sip_above.specs.UnderWay.{CanReply};
ghost use Rattle.sip_moments.specs.Serving.{may_follow};
ghost use Rattle.sip_questions.specs.Serving.{ServesQuestions, above_depth, after_answer};
ghost use Rattle.sip_questions.specs.Serving.{fresh_questions};
ghost use Rattle.sip_questions.specs.Serving.{idle_depth, is_allowed, may_pose, owed, owes, step};
ghost use Rattle.sip_questions.specs.Serving.{weighed};
ghost use Rattle.sip_questions.specs.StoreFronts.{Recalls};
ghost use Rattle.sip_questions.specs.Stores.{HearsStore, questions_opened};
ghost use Rattle.sip_questions.specs.inside.Keeping.{IsKnown, IsReadAgain, again_of};
ghost use Rattle.sip_questions.specs.inside.Keeping.{questions_left};

use crate::StoreStatus;
use crate::sizes::Sizes;
use crate::store_hearing::hear_records;
use sip_above::{Large, LargeUnderWay};
use sip_helper::{HelpStatus, HelperCore, Helps, OutOfTurn, WANT_OF_MEMORY, put_refusal, talk};
use sip_lookup::{Lookup, honest_place, lookup_of, put_place};
use sip_moments::{LEAST_DEGREE, MomentUnderWay, is_too_high, side_of};
use sip_ports::{Link, PortStop, Sink, Source};
use sip_stream::Form;
use sip_vector::{Depth, Query, Side, Tally, Vector};
use sip_wire::{MOST_DEGREE, MOST_QUERIES, Message, Place, Version};
use std::alloc::Global;
use std::marker::Model;

/// The large entries that a message asks for.
fn large_of(message: &Message) -> Option<Large>
    ensures asks { IfSome result (λ large. message.now ≡ ask_of large) }
    ensures none { result ≡ None → (large : AnyLarge) → message.now ≢ ask_of large }
{
    match message {
        Message::Query(Query::Above { side, at_least }) => Some(Large {
            side: *side,
            at_least: *at_least,
        }),
        _ => None,
    }
}

/// What a helper of questions knows.
///
/// It hears the stream and queries as a [`HelperCore`] does, and what is asked of the same vectors
/// besides.
#[derive(Drop)]
pub struct QuestionCore {
    alloc: Global,
    core: HelperCore,
    // How many lookups were asked, and the one whose place is owed.
    lookups: u8,
    sought: Option<Lookup>,
    // How many moments were asked, and the one that is open.
    moments: u8,
    moment: Option<MomentUnderWay>,
    // What is known of the sizes of the deltas, and the question for large entries that is open.
    sizes: Sizes,
    large: Option<LargeUnderWay>,
}

impl Model for QuestionCore {
    ghost use Rattle.std.specs.Option.{option_map};
    ghost use Rattle.sip_above.specs.UnderWay as larges;
    ghost use Rattle.sip_moments.specs.UnderWay.{open_of};
    ghost use Rattle.sip_questions.specs.Serving.{QuestionHelper};
    ghost use Rattle.sip_questions.specs.inside.Keeping.{IsCoherent, again_of};

    ghost Value = { QuestionHelper };

    ghost view = { λ h. record {
      helper = h.core;
      lookups = h.lookups;
      sought = h.sought;
      moments = h.moments;
      moment = option_map open_of h.moment;
      again = again_of h.core h.sizes;
      large = option_map larges.open_of h.large;
    } };

    ghost invariant = { λ h. IsCoherent h.core h.lookups h.sought h.moments h.moment
        (again_of h.core h.sizes) h.large };
}

impl QuestionCore {
    /// A helper that has heard nothing. It takes no memory yet.
    pub fn new(alloc: Global) -> QuestionCore
        ensures { result ≡ fresh_questions }
    {
        QuestionCore {
            alloc,
            core: HelperCore::new(alloc),
            lookups: 0,
            sought: None,
            moments: 0,
            moment: None,
            sizes: Sizes::Unheard,
            large: None,
        }
    }

    /// Hears the first `count` records of a store, or all where it has fewer, behind an opening,
    /// and the end of the stream. Answers what is told of them.
    ///
    /// # Errors
    ///
    /// `BadStream` exactly where one of these records is not legal, `ReadFault` only where the
    /// store's count of faults rose. `OutOfMemory` where memory is refused for the block, by the
    /// store or for the vectors, at the opening too: so an answer that is not `Err` says that the
    /// vectors are there.
    pub fn hear_store<A: Source>(
        &mut self,
        form: Form,
        first: &mut A,
        count: u64,
    ) -> Result<Tally, StoreStatus>
        requires opened { (r : Recalls) × (refused : Bool) × (self.old
            ≡ questions_opened r refused) × (count ≡ r.count) }
        ensures hears { (r : Recalls) (refused : Bool) → self.old ≡ questions_opened r refused
            → count ≡ r.count
            → HearsStore r form (A.left first.old) (A.left first.new) self.new result }
        ensures told { IsSome (A.left first.old) → IsSome (A.left first.new) }
        ensures cause { result ≡ Err StoreStatus.ReadFault
            → Rose (A.faults first.old) (A.faults first.new) }
        ensures first { Lasts A.faults A.wants A.is_sure first.old first.new }
    {
        hear_records(self.alloc, &mut self.core, form, first, count, false)
    }

    /// The depth of a stream that has ended, where nothing is open.
    fn idle(&self) -> Option<Depth>
        ensures { result ≡ idle_depth self.now }
    {
        if self.core.query_open() || self.moment.is_some() || self.large.is_some() {
            return None;
        }
        self.core.whole()
    }

    /// The depth of the stream, where large entries are asked for and nothing is open.
    pub(crate) fn above_depth(&self, message: &Message) -> Option<Depth>
        ensures same { result ≡ above_depth self.now message.now }
        ensures idle { IfSome result (λ depth. (self.now.helper.version ≡ Two)
            × (idle_depth self.now ≡ Some depth)) }
    {
        match message {
            Message::Query(Query::Above { .. }) if self.core.spoken() == Version::Two =>
                self.idle(),
            _ => None,
        }
    }

    /// Takes what is known of the sizes of the deltas: by these large entries are answered from
    /// then on.
    pub(crate) fn weigh(&mut self, sizes: Sizes)
        requires closed { self.old.large ≡ None }
        requires read { IfSome (again_of self.old.helper sizes) (IsReadAgain self.old.helper) }
        ensures { self.new ≡ record self.old { again = again_of self.old.helper sizes } }
    {
        self.sizes = sizes;
    }

    /// The vectors of a side's entries and of their weights, where both are known.
    fn weighed(&self, side: Side) -> Option<(&Vector, &Vector)>
        ensures known { IfSome result (λ v. IsKnown self.now side v.0.now v.1.now) }
    {
        let values = self.core.vector(side)?;
        match &self.sizes {
            Sizes::Unheard => None,
            Sizes::Deltas => Some((values, values)),
            Sizes::Heard(again) => Some((values, again.vector(side)?)),
        }
    }

    /// What the replies about large entries are made from: refused for want of memory where the
    /// sizes of the deltas are not known, or are not those of the entries.
    fn open_large(&self, large: Large) -> LargeUnderWay
        requires some { 1 ≤ large.at_least }
        requires levels { 1 ≤ depth_of self.now.helper.heard }
        ensures asked { (refused : Bool) × (larges.open_of result ≡ newly_asked large refused) }
        ensures ready { CanReply (depth_of self.now.helper.heard)
            (weighed self.now.helper self.now.again large.side) result }
    {
        match self.weighed(large.side) {
            Some((values, weights)) => { LargeUnderWay::begin(self.alloc, values, weights, large) }
            None => LargeUnderWay::refused(large),
        }
    }

    /// Takes a question for large entries, where it may be asked, and the memory that its replies
    /// want.
    fn pose_large(&mut self, large: Large) -> Result<(), OutOfTurn>
        requires some { 1 ≤ large.at_least }
        ensures turn { IsOk result ↔ IsTrue (may_pose self.old) }
        ensures asked { OnOk result ((refused : Bool)
            × (self.new ≡ step self.old refused (ask_of large))) }
        ensures same { OnErr result (self.new ≡ self.old) }
    {
        let Some(_) = self.idle() else {
            return Err(OutOfTurn);
        };
        if self.core.spoken() != Version::Two {
            return Err(OutOfTurn);
        }
        self.core.count_query()?;
        self.large = Some(self.open_large(large));
        Ok(())
    }

    /// Takes a lookup, where it may be asked: its place is owed then.
    fn seek(&mut self, code: u8, item: u64) -> Result<(), OutOfTurn>
        ensures turn { IsOk result ↔ IsTrue (is_allowed self.old (messages.AskLook code item)) }
        ensures asked { OnOk result
            (self.new ≡ step self.old false (messages.AskLook code item)) }
        ensures same { OnErr result (self.new ≡ self.old) }
    {
        let Some(depth) = self.idle() else {
            return Err(OutOfTurn);
        };
        if self.lookups >= MOST_QUERIES as u8 {
            return Err(OutOfTurn);
        }
        if item >= 1 << depth.get() {
            return Err(OutOfTurn);
        }
        let Some(lookup) = lookup_of(code, item) else {
            return Err(OutOfTurn);
        };
        self.lookups += 1;
        self.sought = Some(lookup);
        Ok(())
    }

    /// Takes a moment, where it may be asked, and the memory that its replies want.
    fn pose(&mut self, number: u8, degree: u8) -> Result<(), OutOfTurn>
        ensures turn { IsOk result
            ↔ IsTrue (is_allowed self.old (messages.AskMoment number degree)) }
        ensures asked { OnOk result ((refused : Bool)
            × (self.new ≡ step self.old refused (messages.AskMoment number degree))) }
        ensures same { OnErr result (self.new ≡ self.old) }
    {
        let Some(depth) = self.idle() else {
            return Err(OutOfTurn);
        };
        if self.moments >= MOST_QUERIES as u8 || degree < LEAST_DEGREE || degree > MOST_DEGREE {
            return Err(OutOfTurn);
        }
        let Some(side) = side_of(number) else {
            return Err(OutOfTurn);
        };
        if is_too_high(self.core.weight(side), degree) {
            return Err(OutOfTurn);
        }
        let moment = MomentUnderWay::begin(self.alloc, &self.core, depth, side, degree);
        self.moment = Some(moment);
        self.moments += 1;
        Ok(())
    }

    /// Takes a challenge while a moment is open: no other message may come then, but a Bye.
    fn learn(&mut self, message: &Message) -> Result<(), OutOfTurn>
        requires closed { self.old.large ≡ None }
        requires open { self.old.moment ≢ None }
        requires fits { IsTrue (fits Two message.now) }
        ensures turn { IfSome self.old.moment (λ o. IsOk result
            ↔ IsTrue (may_follow (depth_of self.old.helper.heard) o message.now)) }
        ensures heard { OnOk result (self.new ≡ step self.old false message.now) }
        ensures stream { OnOk result (self.new.helper ≡ self.old.helper) }
        ensures fewer { OnOk result (questions_left self.new < questions_left self.old) }
        ensures same { OnErr result (self.new ≡ self.old) }
    {
        let Some(moment) = &mut self.moment else {
            return Err(OutOfTurn);
        };
        let Some(depth) = self.core.whole() else {
            return Err(OutOfTurn);
        };
        match message {
            Message::Reveal { challenge } => moment.reveal(depth.get(), *challenge),
            _ => Err(OutOfTurn),
        }
    }

    /// Takes a challenge while large entries are open: no other message may come then, but a Bye.
    fn learn_large(&mut self, message: &Message) -> Result<(), OutOfTurn>
        requires open { self.old.large ≢ None }
        requires fits { IsTrue (fits Two message.now) }
        ensures turn { IfSome self.old.large (λ o. IsOk result
            ↔ IsTrue (large_may_follow (depth_of self.old.helper.heard) o message.now)) }
        ensures heard { OnOk result (self.new ≡ step self.old false message.now) }
        ensures stream { OnOk result (self.new.helper ≡ self.old.helper) }
        ensures fewer { OnOk result (questions_left self.new < questions_left self.old) }
        ensures same { OnErr result (self.new ≡ self.old) }
    {
        let Some(large) = &mut self.large else {
            return Err(OutOfTurn);
        };
        let Some(depth) = self.core.whole() else {
            return Err(OutOfTurn);
        };
        match message {
            Message::Reveal { challenge } => large.reveal(depth.get(), *challenge),
            _ => Err(OutOfTurn),
        }
    }

    /// Sends the reply that is owed about large entries.
    fn say_level<K: Sink>(&mut self, out: &mut K) -> Result<(), PortStop>
        requires none { self.old.sought ≡ None }
        requires open { self.old.large ≢ None }
        requires owes { IsTrue (owes self.old) }
        ensures talk { SendsWhole (K.talk out.old) (K.talk out.new) result (owed self.old) }
        ensures given { OnOk result (self.new ≡ after_answer self.old) }
        ensures cause { HasCause K.faults K.wants K.is_sure out.old out.new result }
    {
        let Some(large) = &self.large else {
            return Ok(());
        };
        large.put_reply(out)?;
        let Some(depth) = self.core.whole() else {
            return Ok(());
        };
        self.large = match self.large.take() {
            Some(large) => large.after_reply(depth.get()),
            None => None,
        };
        Ok(())
    }

    /// Says the place of a lookup's answer, or refuses for want of memory.
    fn say_place<K: Sink>(&mut self, lookup: Lookup, out: &mut K) -> Result<(), PortStop>
        requires sought { self.old.sought ≡ Some lookup }
        ensures talk { SendsWhole (K.talk out.old) (K.talk out.new) result (owed self.old) }
        ensures given { OnOk result (self.new ≡ after_answer self.old) }
        ensures cause { HasCause K.faults K.wants K.is_sure out.old out.new result }
    {
        self.sought = None;
        let version = self.core.spoken();
        let Some(vector) = self.core.vector(Side::First) else {
            return put_refusal(version, WANT_OF_MEMORY, out);
        };
        put_place(version, honest_place(vector, lookup), out)
    }

    /// Sends the reply that is owed about the open moment.
    fn say_round<K: Sink>(&mut self, out: &mut K) -> Result<(), PortStop>
        requires none { self.old.sought ≡ None }
        requires closed { self.old.large ≡ None }
        requires open { self.old.moment ≢ None }
        requires owes { IsTrue (owes self.old) }
        ensures talk { SendsWhole (K.talk out.old) (K.talk out.new) result (owed self.old) }
        ensures given { OnOk result (self.new ≡ after_answer self.old) }
        ensures cause { HasCause K.faults K.wants K.is_sure out.old out.new result }
    {
        let Some(moment) = &self.moment else {
            return Ok(());
        };
        moment.put_reply(self.core.spoken(), out)?;
        let Some(depth) = self.core.whole() else {
            return Ok(());
        };
        self.moment = match self.moment.take() {
            Some(moment) => moment.after_reply(depth.get()),
            None => None,
        };
        Ok(())
    }
}

impl Helps for QuestionCore {
    ghost use Rattle.std.specs.Prelude.{not};
    ghost use Rattle.sip_questions.specs.Serving.{owes, question_rules};
    ghost use Rattle.sip_questions.specs.inside.Keeping.{questions_left};

    ghost rules = { question_rules };

    ghost turns_left = { questions_left };

    ghost is_live = { λ s. not s.helper.spent };

    ghost is_owing = { owes };

    fn version_due(&self) -> Version {
        self.core.spoken()
    }

    fn place_due(&self) -> Place {
        Place::AskedQuestion
    }

    fn take(&mut self, message: &Message) -> Result<(), OutOfTurn> {
        if let Some(large) = large_of(message) {
            return self.pose_large(large);
        }
        match message {
            Message::AskLook { code, item } => self.seek(*code, *item),
            Message::AskMoment { side, degree } => self.pose(*side, *degree),
            Message::Bye => self.core.hear(message),
            _ => {
                if self.large.is_some() {
                    return self.learn_large(message);
                }
                if self.moment.is_some() {
                    return self.learn(message);
                }
                self.core.hear_on(message)
            }
        }
    }

    fn owes_reply(&self) -> bool {
        match (&self.sought, &self.large, &self.moment) {
            (Some(_), _, _) => true,
            (None, Some(large), _) => large.is_owed(),
            (None, None, Some(moment)) => moment.is_owed(),
            (None, None, None) => self.core.owes(),
        }
    }

    fn is_over(&self) -> bool {
        self.core.done()
    }

    fn send_reply<K: Sink>(&mut self, out: &mut K) -> Result<(), PortStop> {
        if let Some(lookup) = self.sought {
            return self.say_place(lookup, out);
        }
        if self.large.is_some() {
            return self.say_level(out);
        }
        if self.moment.is_some() {
            return self.say_round(out);
        }
        self.core.answer(out)
    }
}

/// Hears a talk of questions and answers, until a Bye. Frames are in the version of the opening,
/// and in version 1 up to it.
///
/// The stream and queries are heard as by `sip_helper::serve`. Behind the stream, where nothing is
/// open, a lookup and a moment may be asked too, up to 16 of each, and large entries, as one of the
/// queries: they are refused for want of memory, since the records are not there to be weighed. To
/// a lookup the place of its answer goes out, or a refusal where memory was refused while the
/// stream was heard; nothing is open behind it, so the query about its interval is one of the 16
/// queries. To a moment the claim and the first round polynomial go out, and behind each challenge
/// the next polynomial, until the last one closes it; nothing but a challenge and a Bye may come
/// before.
///
/// Memory is taken for one frame, which comes first, for the two vectors, and for what the replies
/// to a query or about a moment are made from; a place takes none. Where there is none for the
/// frame the link is left alone; from then on `OutOfMemory` comes only where the link's count of
/// wants rose.
pub fn serve_questions<L: Link>(alloc: Global, link: &mut L) -> HelpStatus
    ensures serves { ServesQuestions (L.talk link.old) (L.talk link.new) result }
    ensures cause { result ≡ HelpStatus.PeerFault
        → Rose (L.faults link.old) (L.faults link.new) }
    ensures memory { result ≡ HelpStatus.OutOfMemory
        → (link.new ≡ link.old) ⊎ Rose (L.wants link.old) (L.wants link.new) }
    ensures lasts { Lasts L.faults L.wants L.is_sure link.old link.new }
{
    talk(QuestionCore::new(alloc), alloc, link)
}
