//! A question of any kind, asked without a link.

ghost use Rattle.std.specs.Prelude.{◌≡◌, ◌≤◌, ◌++◌, [], List, false, true, IfOk, IfSome, IsTrue};
ghost use Rattle.std.specs.Prelude.{OnErr, OnOk, is_none, length, take};
ghost use Rattle.sip_ports.specs.declared.port.TalkEvent.{TalkEvent as AnyEvent};
ghost use Rattle.sip_ports.specs.Ports.{HasCause, SendsWhole, ins, outs};
ghost use Rattle.sip_vector.specs.declared.update.Update.{Update as AnyUpdate};
ghost use Rattle.sip_wire.specs.Versions.{deepest};
ghost use Rattle.sip_verifier.specs.QuerySeats.{keeps};
ghost use Rattle.sip_verifier.specs.Running.{block_of, numbers_of};
ghost use Rattle.sip_verifier.specs.runs.Askers.{has_failed};
ghost use Rattle.sip_questions.specs.Promises.{CanPose};
ghost use Rattle.sip_questions.specs.Sittings.{query_like};
ghost use Rattle.sip_steps.specs.Questioned.{About, ComesTo, HasBegun, IsAskedOf, IsOf, about};
ghost use Rattle.sip_steps.specs.Questioned.{due_of, end_of, given_of, is_due_at, is_hearing_at};
ghost use Rattle.sip_steps.specs.Questioned.{is_open_at, look_given, pairs_of};

use crate::looking::Looking;
use crate::opening::Opening;
use crate::posing::Posing;
use sip_field::OutOfMemory;
use sip_lookup::{LookAnswer, Lookup};
use sip_ports::{Link, PortStop};
use sip_questions::{Question, QuestionGiven};
use sip_replies::{AskStop, Said};
use sip_vector::{Depth, Entry};
use sip_verifier::{Running, Unanswered};
use sip_wire::Version;
use std::alloc::Global;

/// A question of any kind that is under way.
///
/// What is [`due`](QuestionAsking::due) is sent, and what comes is [fed](QuestionAsking::feed),
/// until there is a [`verdict`](QuestionAsking::verdict). A caller sends what is due after `begin`
/// and after each `feed`. Memory is taken by [`begin`](QuestionAsking::begin) alone, and the time
/// is that of the bytes.
#[derive(Drop)]
pub enum QuestionAsking {
    /// A query, a moment or large entries.
    Posed(Posing),
    /// A lookup.
    Looked(Looking),
}

// The answer to what is asked by one message.
fn given_of(opening: Opening, asked: Result<Said, AskStop>) -> Result<QuestionGiven, Unanswered>
    ensures { result ≡ given_of opening asked }
{
    match (opening, asked) {
        (_, Err(stop)) => Err(Unanswered::from(stop)),
        (Opening::Query(query), Ok(Said::Number(value))) => {
            Ok(QuestionGiven::Number { query, value })
        }
        (Opening::Query(query), Ok(Said::Pairs(_))) => Ok(QuestionGiven::Pairs { query }),
        (Opening::Moment(moment), Ok(Said::Number(value))) => {
            Ok(QuestionGiven::Moment { moment, value })
        }
        // A moment is never answered by pairs.
        (Opening::Moment(moment), Ok(Said::Pairs(_))) => {
            Ok(QuestionGiven::Moment { moment, value: 0 })
        }
        // Large entries are never answered by a number.
        (Opening::Large(large), Ok(_)) => Ok(QuestionGiven::Large { large }),
    }
}

// The answer to a lookup.
fn look_given(
    lookup: Lookup,
    looked: Result<LookAnswer, Unanswered>,
) -> Result<QuestionGiven, Unanswered>
    ensures { result ≡ look_given lookup looked }
{
    match looked {
        Ok(answer) => Ok(QuestionGiven::Lookup { lookup, answer }),
        Err(why) => Err(why),
    }
}

impl QuestionAsking {
    /// Before anything was said. The running numbers are those of the query that is like the
    /// question ([`Question::query_like`]). They serve this question alone: the other end knows all
    /// but one of their challenges from then on.
    ///
    /// Takes a frame of 8,709 bytes, and 16 bytes for each entry that the answer may have: one for
    /// each item of an interval, up to 65,536, of a lookup the widest that may prove its place, and
    /// 2 * floor(n / T) where heavy hitters or large entries are asked for, which takes 64 bytes more
    /// for each.
    ///
    /// No question is refused here for what a helper may have no room to answer: before that is
    /// asked it is the caller's to test ([`QuestionSeat::refusal`](sip_questions::QuestionSeat)).
    ///
    /// # Errors
    ///
    /// `OutOfMemory` where there is none for these.
    pub fn begin(
        alloc: Global,
        version: Version,
        depth: Depth,
        question: Question,
        running: Running,
    ) -> Result<QuestionAsking, OutOfMemory>
        requires shallow { depth ≤ deepest version }
        requires can { CanPose version depth question }
        requires levels { length (block_of running) ≡ depth }
        requires keeps { IsTrue (keeps (query_like question) (numbers_of running)) }
        ensures begun { IfOk result HasBegun }
        ensures asked { IfOk result (IsAskedOf (about version depth question running) []) }
    {
        let levels = depth.get();
        prove!(levels >= 1);
        match (question, running) {
            (Question::Query(query), running) => {
                let opening = Opening::Query(query);
                let posing = Posing::begin(alloc, version, depth, opening, &running)?;
                Ok(QuestionAsking::Posed(posing))
            }
            (Question::Moment(moment), running) => {
                let opening = Opening::Moment(moment);
                let posing = Posing::begin(alloc, version, depth, opening, &running)?;
                Ok(QuestionAsking::Posed(posing))
            }
            (Question::Large(large), running) => {
                let opening = Opening::Large(large);
                let posing = Posing::begin(alloc, version, depth, opening, &running)?;
                Ok(QuestionAsking::Posed(posing))
            }
            (Question::Lookup(lookup), Running::Root(root)) => {
                let looking = Looking::begin(alloc, version, depth, lookup, root)?;
                Ok(QuestionAsking::Looked(looking))
            }
            _ => unreachable!(),
        }
    }

    /// Bytes are to be sent.
    pub fn is_due(&self) -> bool
        ensures { result ≡ is_due_at self.now }
    {
        match self {
            QuestionAsking::Posed(posing) => posing.is_due(),
            QuestionAsking::Looked(looking) => looking.is_due(),
        }
    }

    /// Bytes are to come.
    pub fn is_waiting(&self) -> bool
        ensures { result ≡ is_hearing_at self.now }
    {
        match self {
            QuestionAsking::Posed(posing) => posing.is_waiting(),
            QuestionAsking::Looked(looking) => looking.is_waiting(),
        }
    }

    /// Sends what is due, each byte once, and nothing where nothing is due.
    ///
    /// # Errors
    ///
    /// Those of the link, which a front of what is due has then reached that is shorter than it.
    /// All of it is due as before.
    pub fn due<L: Link>(&mut self, out: &mut L) -> Result<(), PortStop>
        requires begun { HasBegun self.old }
        ensures begun { HasBegun self.new }
        ensures talk { SendsWhole (L.talk out.old) (L.talk out.new) result (due_of self.old) }
        ensures asked { (q : About) (events : List AnyEvent) → IsAskedOf q events self.old
            → OnOk result (IsAskedOf q (events ++ outs (due_of self.old)) self.new) }
        ensures once { OnOk result (is_due_at self.new ≡ false) }
        ensures same { OnErr result (self.new ≡ self.old) }
        ensures cause { HasCause L.faults L.wants L.is_sure out.old out.new result }
    {
        match self {
            QuestionAsking::Posed(posing) => posing.due(out),
            QuestionAsking::Looked(looking) => looking.due(out),
        }
    }

    /// Takes bytes that came, in any pieces, and answers how many. It takes all of them while it
    /// waits, and none behind a verdict, or behind a whole reply where bytes are due: those stay
    /// with the caller.
    #[inline]
    pub fn feed(&mut self, bytes: &[u8]) -> usize
        requires begun { HasBegun self.old }
        ensures begun { HasBegun self.new }
        ensures most { result ≤ length bytes.now }
        ensures all { is_hearing_at self.new ≡ true → result ≡ length bytes.now }
        ensures none { is_hearing_at self.old ≡ false → result ≡ 0 }
        ensures asked { (q : About) (events : List AnyEvent) → IsAskedOf q events self.old
            → IsAskedOf q (events ++ ins (take result bytes.now)) self.new }
    {
        match self {
            QuestionAsking::Posed(posing) => posing.feed(bytes),
            QuestionAsking::Looked(looking) => looking.feed(bytes),
        }
    }

    /// The other end closed: where bytes were to come, the question is rejected for that.
    pub fn close(&mut self)
        requires begun { HasBegun self.old }
        ensures begun { HasBegun self.new }
        ensures closed { is_hearing_at self.new ≡ false }
        ensures asked { (q : About) (events : List AnyEvent) → IsAskedOf q events self.old
            → IsAskedOf q (events ++ end_of self.old) self.new }
    {
        match self {
            QuestionAsking::Posed(posing) => posing.close(),
            QuestionAsking::Looked(looking) => looking.close(),
        }
    }

    /// What came of the question, once all is known: the answer, or the first fault of the replies.
    /// It is what whoever asks over a link has of the talk that these bytes are, about each stream
    /// whose numbers the question is judged by.
    ///
    /// It is never a fault of a port: none was there.
    pub fn verdict(&self) -> Option<Result<QuestionGiven, Unanswered>>
        ensures comes { (q : About) (stream : List AnyUpdate) (events : List AnyEvent)
            → IsOf q stream → IsAskedOf q events self.now
            → ComesTo q stream events (pairs_of self.now) result }
        ensures open { is_none result ≡ is_open_at self.now }
        ensures judged { IfSome result (λ said. has_failed said ≡ false) }
    {
        match self {
            QuestionAsking::Posed(posing) => {
                let asked = posing.verdict()?;
                Some(given_of(posing.opening(), asked))
            }
            QuestionAsking::Looked(looking) => {
                let looked = looking.verdict()?;
                Some(look_given(looking.lookup(), looked))
            }
        }
    }

    /// The pairs that answer a query, rising; none where there is no verdict, or another one.
    pub fn pairs(&self) -> &[Entry]
        ensures { result.now ≡ pairs_of self.now }
    {
        match self {
            QuestionAsking::Posed(posing) => posing.pairs(),
            QuestionAsking::Looked(_) => &[],
        }
    }
}
