//! A run's stream, handed over in pieces, without a link.

ghost use Rattle.std.specs.Prelude.{◌≡◌, ◌≤◌, ◌<◌, ◌*◌, ◌++◌, [], List, true, false, length, map};
ghost use Rattle.std.specs.Prelude.{IfErr, IfOk, MatchResult, None, OnErr, OnOk, Some};
ghost use Rattle.sip_field.specs.Elements.{m61_number};
ghost use Rattle.sip_ports.specs.declared.port.TalkEvent.{TalkEvent as AnyEvent};
ghost use Rattle.sip_ports.specs.Ports.{HasCause, SendsWhole, outs};
ghost use Rattle.sip_vector.specs.declared.update.Update.{Update as AnyUpdate};
ghost use Rattle.sip_verifier.specs.Feeding.{due_at_end};
ghost use Rattle.sip_verifier.specs.Weights.{AreWeights};
ghost use Rattle.sip_questions.specs.Questions.{first_refusal, version_for};
ghost use Rattle.sip_runs.specs.Plans.{CanBegin, Plan, plan_of};
ghost use Rattle.sip_runs.specs.Runs.{Begins, Feeds, HasBegun, IsFollowed, IsGiven, IsPassed};
ghost use Rattle.sip_runs.specs.Runs.{IsToBeAsked, Takes, due_bytes, is_due, is_ended, is_taking};

use crate::asked::fitting;
use crate::measure::{BadUpdate, Measure};
use crate::seat::RunSeat;
use crate::seats::{begin_seats, first_refusal, raise_all};
use crate::start::RunStart;
use crate::step::Step;
use crate::to_ask::ToAsk;
use sip_field::{M61, draw_challenges};
use sip_ports::{PortStop, Sink};
use sip_questions::Question;
use sip_vector::{CAP, Depth, Side, Update};
use sip_verifier::{Feed, Status, Weights};
use sip_wire::{MOST_QUERIES, Message, Version, encode};
use std::alloc::Global;

/// How many challenges a run has at most: 16 questions at depth 48.
const MOST_CHALLENGES: usize = MOST_QUERIES * CAP;

/// A run while its stream goes by: the seats of its questions, and the updates that wait for a
/// frame.
///
/// Updates are [fed](Following::feed) in pieces of any lengths. What is [`due`](Following::due) is
/// sent to where the stream is kept: the opening before the first update, and a frame for each 512.
/// A caller sends what is due after `begin` and after each `feed`, and hands over again what a
/// `feed` did not take. Behind the [`end`](Following::end) of the stream the rest is due, and then
/// the questions are [to be asked](Following::into_questions).
///
/// Memory is taken by [`begin`](Following::begin) alone.
#[derive(Drop)]
pub struct Following {
    version: Version,
    measure: Measure,
    seats: Vec<RunSeat>,
    // Its rows are too large to be moved about.
    feed: Box<Feed>,
    step: Step,
}

impl Following {
    /// A run of these questions over 2^depth items, before anything is said: question k is asked at
    /// the challenges (k - 1) * depth + 1 to k * depth that `ChaCha20Rng::from_seed(seed)` gives.
    ///
    /// Takes about 12 KB for the updates that wait, and the room of a seat for each question.
    ///
    /// # Errors
    ///
    /// The first in this order: `Count` exactly where there is no question or there are more than
    /// 16; `Unfit` exactly for the first question that can't be asked at the depth in the least
    /// version that has all of them; `SeedSpent` exactly where eight words of the generator in turn
    /// give no challenge; `OutOfMemory`.
    pub fn begin(
        alloc: Global,
        depth: Depth,
        questions: &[Question],
        seed: &[u8; 32],
    ) -> Result<Following, RunStart>
        ensures begins { Begins depth questions.now seed.now result }
        ensures begun { IfOk result HasBegun }
    {
        let version = fitting(depth, questions)?;
        let count = depth.get() as usize * questions.len();
        let Ok(challenges) = draw_challenges::<MOST_CHALLENGES>(*seed, count) else {
            return Err(RunStart::SeedSpent);
        };
        Following::seated(alloc, version, depth, questions, &challenges)
    }

    /// The same at these challenges, `depth` for each question in order.
    ///
    /// # Errors
    ///
    /// Those of [`begin`](Following::begin) but `SeedSpent`.
    pub fn given(
        alloc: Global,
        depth: Depth,
        questions: &[Question],
        challenges: &[M61],
    ) -> Result<Following, RunStart>
        requires { length challenges.now ≡ depth * length questions.now }
        ensures given { IsGiven depth questions.now (map m61_number challenges.now) result }
        ensures begun { IfOk result HasBegun }
    {
        let version = fitting(depth, questions)?;
        Following::seated(alloc, version, depth, questions, challenges)
    }

    // The run of questions that fit, at these challenges.
    fn seated(
        alloc: Global,
        version: Version,
        depth: Depth,
        questions: &[Question],
        challenges: &[M61],
    ) -> Result<Following, RunStart>
        requires version { version ≡ version_for depth questions.now }
        requires can { CanBegin depth questions.now }
        requires count { length challenges.now ≡ depth * length questions.now }
        ensures given { IfOk result (IsFollowed
            (plan_of depth questions.now (map m61_number challenges.now)) [] []) }
        ensures begun { IfOk result HasBegun }
        ensures memory { IfErr result (λ start. start ≡ RunStart.OutOfMemory) }
    {
        let levels = depth.get();
        prove!(levels <= Depth::MOST);
        let Ok(seats) = begin_seats(alloc, depth, questions, challenges) else {
            return Err(RunStart::OutOfMemory);
        };
        let Ok(feed) = Box::new(alloc, Feed::new(version)) else {
            return Err(RunStart::OutOfMemory);
        };
        Ok(Following {
            version,
            measure: Measure::new(depth),
            seats,
            feed,
            step: Step::Opening,
        })
    }

    /// Bytes are to be sent.
    pub fn is_due(&self) -> bool
        ensures { result ≡ is_due self.now.step }
    {
        self.step.is_due()
    }

    /// Updates are taken.
    pub fn is_taking(&self) -> bool
        ensures { result ≡ is_taking self.now.step }
    {
        self.step.is_taking()
    }

    /// The stream ended, and all of it was sent.
    pub fn is_ended(&self) -> bool
        ensures { result ≡ is_ended self.now.step }
    {
        self.step.is_ended()
    }

    /// The weights of the stream's sides so far.
    pub fn weights(&self) -> Weights
        ensures { (p : Plan) (stream : List AnyUpdate) (events : List AnyEvent)
            → IsFollowed p stream events self.now → AreWeights stream result }
    {
        Weights {
            first: self.measure.weight(Side::First),
            second: self.measure.weight(Side::Second),
        }
    }

    // Sends what is due, which stays so.
    fn send_due<K: Sink>(&self, out: &mut K) -> Result<(), PortStop>
        requires begun { HasBegun self.now }
        ensures talk { SendsWhole (K.talk out.old) (K.talk out.new) result (due_bytes self.now) }
        ensures cause { HasCause K.faults K.wants K.is_sure out.old out.new result }
    {
        match self.step {
            Step::Opening => {
                let opening = Message::Open {
                    version: self.version.number(),
                    depth: self.measure.depth().get(),
                };
                encode(&opening, self.version, out)
            }
            Step::Full => self.feed.copy_to(out),
            Step::Ending => self.send_rest(out),
            Step::Taking | Step::Ended => Ok(()),
        }
    }

    // Sends the updates that wait, where there are any, and the end of the stream.
    fn send_rest<K: Sink>(&self, out: &mut K) -> Result<(), PortStop>
        requires few { length self.now.feed.value.waiting < 512 }
        requires version { self.now.feed.value.version ≡ self.now.version }
        ensures talk { SendsWhole (K.talk out.old) (K.talk out.new) result
            (due_at_end self.now.version self.now.feed.value.waiting) }
        ensures cause { HasCause K.faults K.wants K.is_sure out.old out.new result }
    {
        if !self.feed.waiting().is_empty() {
            self.feed.copy_to(out)?;
        }
        encode(&Message::EndStream, self.version, out)
    }

    // Adds the updates that waited to the seats, as they were sent. Nothing waits then.
    fn pass_on(&mut self)
        requires begun { HasBegun self.old }
        requires due { is_due self.old.step ≡ true }
        ensures passed { (p : Plan) (stream : List AnyUpdate) (events : List AnyEvent)
            → IsFollowed p stream events self.old → IsPassed p stream self.new }
        ensures step { self.new.step ≡ self.old.step }
    {
        raise_all(&mut self.seats, self.feed.waiting());
        self.feed.clear();
    }

    // What was due was sent.
    fn sent(&mut self)
        requires begun { HasBegun self.old }
        requires due { is_due self.old.step ≡ true }
        ensures followed { (p : Plan) (stream : List AnyUpdate) (events : List AnyEvent)
            → IsFollowed p stream events self.old
            → IsFollowed p stream (events ++ outs (due_bytes self.old)) self.new }
        ensures once { is_due self.new.step ≡ false }
    {
        self.pass_on();
        self.step = self.step.after();
    }

    /// Sends what is due, each byte once, and nothing where nothing is due. The seats stand for
    /// what was sent.
    ///
    /// # Errors
    ///
    /// Those of the sink, which a front of what is due has then reached that is shorter than it.
    /// All of it is due as before.
    pub fn due<K: Sink>(&mut self, out: &mut K) -> Result<(), PortStop>
        requires begun { HasBegun self.old }
        ensures begun { HasBegun self.new }
        ensures talk { SendsWhole (K.talk out.old) (K.talk out.new) result (due_bytes self.old) }
        ensures followed { (p : Plan) (stream : List AnyUpdate) (events : List AnyEvent)
            → IsFollowed p stream events self.old
            → OnOk result (IsFollowed p stream (events ++ outs (due_bytes self.old)) self.new) }
        ensures once { OnOk result (is_due self.new.step ≡ false) }
        ensures same { OnErr result (self.new ≡ self.old) }
        ensures cause { HasCause K.faults K.wants K.is_sure out.old out.new result }
    {
        if !self.is_due() {
            return Ok(());
        }
        self.send_due(out)?;
        self.sent();
        Ok(())
    }

    // Takes one more update.
    fn take(&mut self, update: &Update) -> Result<(), BadUpdate>
        requires begun { HasBegun self.old }
        requires taking { is_taking self.old.step ≡ true }
        ensures takes { (p : Plan) (stream : List AnyUpdate) (events : List AnyEvent)
            → IsFollowed p stream events self.old
            → Takes p stream events update.now self.old self.new result }
    {
        if let Some(why) = self.measure.fault(update) {
            return Err(BadUpdate {
                at: self.measure.count(),
                why,
            });
        }
        self.measure.add(update);
        self.feed.push(update);
        if self.feed.is_full() {
            self.step = Step::Full;
        }
        Ok(())
    }

    /// Takes updates of the stream, in pieces of any lengths, and answers how many: all of them, or
    /// as many as fill a frame, which is due then. It takes none while bytes are due, and none
    /// behind the end: those stay with the caller.
    ///
    /// # Errors
    ///
    /// The first update that is not legal behind those before it, with its number in the stream.
    /// Those before it are taken, and it is as if it had not been handed over.
    pub fn feed(&mut self, updates: &[Update]) -> Result<usize, BadUpdate>
        requires begun { HasBegun self.old }
        ensures begun { HasBegun self.new }
        ensures most { IfOk result (λ taken. taken ≤ length updates.now) }
        ensures all { is_taking self.new.step ≡ true
            → IfOk result (λ taken. taken ≡ length updates.now) }
        ensures feeds { (p : Plan) (stream : List AnyUpdate) (events : List AnyEvent)
            → IsFollowed p stream events self.old
            → Feeds p stream events updates.now self.new result }
    {
        for (index, update) in updates.iter().enumerate() {
            if !self.is_taking() {
                return Ok(index);
            }
            self.take(update)?;
        }
        Ok(updates.len())
    }

    /// The stream ends: the rest of it is due.
    pub fn end(&mut self)
        requires begun { HasBegun self.old }
        requires taking { is_taking self.old.step ≡ true }
        ensures begun { HasBegun self.new }
        ensures due { is_due self.new.step ≡ true }
        ensures followed { (p : Plan) (stream : List AnyUpdate) (events : List AnyEvent)
            → IsFollowed p stream events self.old → IsFollowed p stream events self.new }
    {
        self.step = Step::Ending;
    }

    /// The questions in their order, each with the running numbers of the stream.
    ///
    /// # Errors
    ///
    /// `TooWide` and `TooHigh` exactly for the first question that a helper may have no room to
    /// answer, by its number.
    pub fn into_questions(self) -> Result<ToAsk, Status>
        requires begun { HasBegun self }
        requires ended { is_ended self.step ≡ true }
        ensures { (p : Plan) (stream : List AnyUpdate) (events : List AnyEvent)
            → IsFollowed p stream events self
            → MatchResult result (λ to_ask. IsToBeAsked p stream to_ask
            × (first_refusal stream 1 p.questions ≡ None))
            (λ status. first_refusal stream 1 p.questions ≡ Some status) }
    {
        if let Some(status) = first_refusal(&self.seats, &self.weights()) {
            return Err(status);
        }
        Ok(ToAsk::new(self.version, self.measure.depth(), self.seats))
    }
}
