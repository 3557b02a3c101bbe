//! A question that is asked by one message, without a link, whatever its kind.

ghost use Rattle.std.specs.Prelude.{◌≡◌, ◌≤◌, ◌++◌, List, false, true, length, take, OnErr, OnOk};
ghost use Rattle.sip_ports.specs.declared.port.TalkEvent.{TalkEvent as AnyEvent};
ghost use Rattle.sip_ports.specs.Ports.{HasCause, SendsWhole, ins, outs};
ghost use Rattle.sip_replies.specs.Following.{is_due, is_hearing, verdict_of};
ghost use Rattle.sip_steps.specs.Asked.{end_heard};
ghost use Rattle.sip_steps.specs.Openings.{Subject};
ghost use Rattle.sip_steps.specs.Posed.{HasBegun, IsPosed, due_at, opening_at, pairs_at};
ghost use Rattle.sip_steps.specs.Posed.{stage_at};

use crate::asking::Asking;
use crate::opening::Opening;
use sip_heavy::HeavyAsking;
use sip_moments::MomentAsking;
use sip_ports::{Link, PortStop};
use sip_replies::{AskStop, Said};
use sip_subvec::SubAsking;
use sip_sums::SumAsking;
use sip_vector::Entry;

/// A question that is under way and is asked by one message: a query, a moment or large entries, by
/// its kind.
///
/// It is driven as [`Asking`] is: what is [`due`](Posing::due) is sent, and what comes is
/// [fed](Posing::feed), until there is a [`verdict`](Posing::verdict). Memory is taken by
/// [`begin`](Posing::begin) alone, and the time is that of the bytes.
#[derive(Drop)]
pub enum Posing {
    /// A query for the entries of an interval.
    Entries(Asking<SubAsking, Opening>),
    /// A query for a sum.
    Sum(Asking<SumAsking, Opening>),
    /// A query for heavy hitters, or large entries.
    Heavy(Asking<HeavyAsking, Opening>),
    /// A moment.
    Moment(Asking<MomentAsking, Opening>),
}

impl Posing {
    /// What is asked.
    pub fn opening(&self) -> Opening
        ensures { result ≡ opening_at self.now }
    {
        match self {
            Posing::Entries(asking) => *asking.request(),
            Posing::Sum(asking) => *asking.request(),
            Posing::Heavy(asking) => *asking.request(),
            Posing::Moment(asking) => *asking.request(),
        }
    }

    /// Bytes are to be sent.
    pub fn is_due(&self) -> bool
        ensures { result ≡ is_due (stage_at self.now) }
    {
        match self {
            Posing::Entries(asking) => asking.is_due(),
            Posing::Sum(asking) => asking.is_due(),
            Posing::Heavy(asking) => asking.is_due(),
            Posing::Moment(asking) => asking.is_due(),
        }
    }

    /// Bytes are to come.
    pub fn is_waiting(&self) -> bool
        ensures { result ≡ is_hearing (stage_at self.now) }
    {
        match self {
            Posing::Entries(asking) => asking.is_waiting(),
            Posing::Sum(asking) => asking.is_waiting(),
            Posing::Heavy(asking) => asking.is_waiting(),
            Posing::Moment(asking) => asking.is_waiting(),
        }
    }

    /// Sends what is due, each byte once, and nothing where nothing is due.
    ///
    /// # Errors
    ///
    /// Those of the link, which a front of what is due has then reached that is shorter than it.
    /// All of it is due as before.
    pub fn due<L: Link>(&mut self, out: &mut L) -> Result<(), PortStop>
        requires begun { HasBegun self.old }
        ensures begun { HasBegun self.new }
        ensures talk { SendsWhole (L.talk out.old) (L.talk out.new) result (due_at self.old) }
        ensures posed { (s : Subject) (events : List AnyEvent) → IsPosed s events self.old
            → OnOk result (IsPosed s (events ++ outs (due_at self.old)) self.new) }
        ensures once { OnOk result (is_due (stage_at self.new) ≡ false) }
        ensures same { OnErr result (self.new ≡ self.old) }
        ensures cause { HasCause L.faults L.wants L.is_sure out.old out.new result }
    {
        match self {
            Posing::Entries(asking) => asking.due(out),
            Posing::Sum(asking) => asking.due(out),
            Posing::Heavy(asking) => asking.due(out),
            Posing::Moment(asking) => asking.due(out),
        }
    }

    /// Takes bytes that came, in any pieces, and answers how many. It takes all of them while it
    /// waits, and none behind a verdict, or behind a whole reply where bytes are due: those stay
    /// with the caller.
    #[inline]
    pub fn feed(&mut self, bytes: &[u8]) -> usize
        requires begun { HasBegun self.old }
        ensures begun { HasBegun self.new }
        ensures most { result ≤ length bytes.now }
        ensures all { is_hearing (stage_at self.new) ≡ true → result ≡ length bytes.now }
        ensures none { is_hearing (stage_at self.old) ≡ false → result ≡ 0 }
        ensures posed { (s : Subject) (events : List AnyEvent) → IsPosed s events self.old
            → IsPosed s (events ++ ins (take result bytes.now)) self.new }
    {
        match self {
            Posing::Entries(asking) => asking.feed(bytes),
            Posing::Sum(asking) => asking.feed(bytes),
            Posing::Heavy(asking) => asking.feed(bytes),
            Posing::Moment(asking) => asking.feed(bytes),
        }
    }

    /// The other end closed: where bytes were to come, the question is rejected for that.
    pub fn close(&mut self)
        requires begun { HasBegun self.old }
        ensures begun { HasBegun self.new }
        ensures closed { is_hearing (stage_at self.new) ≡ false }
        ensures same { is_hearing (stage_at self.old) ≡ false
            → stage_at self.new ≡ stage_at self.old }
        ensures posed { (s : Subject) (events : List AnyEvent) → IsPosed s events self.old
            → IsPosed s (events ++ end_heard (stage_at self.old)) self.new }
    {
        match self {
            Posing::Entries(asking) => asking.close(),
            Posing::Sum(asking) => asking.close(),
            Posing::Heavy(asking) => asking.close(),
            Posing::Moment(asking) => asking.close(),
        }
    }

    /// What came of the question, once all is known: what is said, or the first fault of the
    /// replies.
    pub fn verdict(&self) -> Option<Result<Said, AskStop>>
        ensures { result ≡ verdict_of (stage_at self.now) }
    {
        match self {
            Posing::Entries(asking) => asking.verdict(),
            Posing::Sum(asking) => asking.verdict(),
            Posing::Heavy(asking) => asking.verdict(),
            Posing::Moment(asking) => asking.verdict(),
        }
    }

    /// The pairs that are said, rising; none where there is no verdict, or another one.
    pub fn pairs(&self) -> &[Entry]
        ensures { result.now ≡ pairs_at self.now }
    {
        match self {
            Posing::Entries(asking) => asking.pairs(),
            Posing::Sum(asking) => asking.pairs(),
            Posing::Heavy(asking) => asking.pairs(),
            Posing::Moment(asking) => asking.pairs(),
        }
    }
}
