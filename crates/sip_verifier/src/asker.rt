//! What asks the questions of a run, in whatever manner.

ghost use Rattle.std.specs.Prelude.{◌≡◌, ◌<◌, ℕ, List, length, Err, false};
ghost use Rattle.sip_verifier.specs.runs.Askers.{has_failed, unanswered_by};

use crate::session::SessionFault;
use sip_ports::{Link, PortStop, Sink};
use sip_replies::AskStop;
use sip_wire::Reason;

/// Why a query has no answer.
#[derive(Clone, Copy, Debug, PartialEq, Eq)]
pub enum Unanswered {
    /// Its replies have this first fault; `round` is the number of the reply, or the depth for the
    /// tests after the last one.
    Rejected { round: u8, reason: Reason },
    /// It has no verdict: a call of a port failed.
    Fault(SessionFault),
}

impl From<AskStop> for Unanswered {
    ghost from_gives = { λ stop e. e ≡ unanswered_by stop };

    fn from(stop: AskStop) -> Self {
        match stop {
            AskStop::Rejected { round, reason } => Unanswered::Rejected { round, reason },
            AskStop::PeerFault => Unanswered::Fault(SessionFault::PeerFault),
            AskStop::KeepFault => Unanswered::Fault(SessionFault::KeepFault),
            AskStop::OutOfMemory | AskStop::KeepOutOfMemory => {
                Unanswered::Fault(SessionFault::OutOfMemory)
            }
        }
    }
}

/// Whether a call of a port failed, so that there is no verdict: a rejection is one.
pub fn has_failed<G>(asked: &Result<G, Unanswered>) -> bool
    ensures { result ≡ has_failed asked.now }
{
    match asked {
        Err(Unanswered::Fault(_)) => true,
        _ => false,
    }
}

/// What asks the queries of a run one after another, over a link to where their stream is kept, and
/// judges the replies.
///
/// It has the queries and their challenges, and what it kept of the stream. How queries are asked
/// and replies are judged is its `asking`: all that a run promises is said by that.
pub trait Asker {
    ghost use Rattle.sip_ports.specs.Ports.{HasCause, Lasts, SendsWhole};
    ghost use Rattle.sip_vector.specs.declared.update.Update.{Update as AnyUpdate};
    ghost use Rattle.sip_wire.specs.declared.version.Version.{Version as AnyVersion};
    ghost use Rattle.sip_verifier.specs.AskClause.{AskClause};
    ghost use Rattle.sip_verifier.specs.runs.Askers.{Asks, IsFirst, Remaining, behind, has_failed};
    ghost use Rattle.sip_verifier.specs.runs.Manners.{Asking, Question};
    ghost use Rattle.sip_verifier.specs.Snapshots.{span};

    /// An answer that was accepted, so that its line can be written.
    type Given: Drop;

    /// What is asked.
    ghost Query: { Type 0 };

    /// What is answered.
    ghost Answer: { Type 0 };

    /// How queries are asked and judged.
    ghost asking: { Asking Query Answer };

    /// What is still to be asked.
    ghost remaining: { Self → Remaining Query };

    /// It stands for this stream.
    ghost stands: { List AnyUpdate → Self → Type 0 };

    /// What was given, with what is kept, states this answer to this query.
    ghost states: { Self → Self.Given → Query → Answer → Type 0 };

    /// How many queries were not asked yet.
    fn left(&self) -> usize
        ensures { result ≡ length (remaining self.now).left };

    /// Asks the next query, takes the replies and judges them.
    ///
    /// `keep` gets each frame's bytes as soon as they came, before they are judged; of a frame that
    /// the link's failure cut, it gets none.
    ///
    /// # Errors
    ///
    /// `Rejected` with the first fault of the replies; the next query may be asked then. The others
    /// are those of the ports, each only where that port's own count of them rose. It is over then.
    fn ask_next<L: Link, C: Sink>(
        &mut self,
        link: &mut L,
        keep: &mut C,
    ) -> Result<Self::Given, Unanswered>
        requires left { 0 < length (remaining self.old).left }
        requires live { (remaining self.old).spent ≡ false }
        ensures asks { (stream : List AnyUpdate) (ask : Query × List ℕ)
            → stands stream self.old → IsFirst (remaining self.old) ask
            → Asks (asking (remaining self.old).version (remaining self.old).depth stream) ask
            (L.talk link.old) (L.talk link.new) (λ given. states self.new given ask.0) result }
        ensures stands { (stream : List AnyUpdate) → stands stream self.old
            → stands stream self.new }
        ensures remaining { remaining self.new ≡ behind (has_failed result) (remaining self.old) }
        ensures keeps { AskClause (remaining self.old).version
            (span L.talk L.faults L.wants link.old link.new)
            (span C.talk C.faults C.wants keep.old keep.new) result }
        ensures link { Lasts L.faults L.wants L.is_sure link.old link.new }
        ensures keep { Lasts C.faults C.wants C.is_sure keep.old keep.new };

    /// Writes the line of an answer that was given by the last query.
    ///
    /// # Errors
    ///
    /// Those of the sink, which a front of the line has then reached that is shorter than it.
    fn write_line<K: Sink>(&self, given: &Self::Given, report: &mut K) -> Result<(), PortStop>
        ensures line { (version : AnyVersion) (depth : ℕ) (stream : List AnyUpdate) (query : Query)
            (answer : Answer) → states self.now given.now query answer
            → SendsWhole (K.talk report.old) (K.talk report.new) result
            ((asking version depth stream).line query answer) }
        ensures cause { HasCause K.faults K.wants K.is_sure report.old report.new result };

    /// Says that all queries were asked.
    ///
    /// # Errors
    ///
    /// Those of the link, which a front of the farewell has then reached that is shorter than it.
    fn say_farewell<L: Link>(&self, link: &mut L) -> Result<(), PortStop>
        ensures talk { (stream : List AnyUpdate) → SendsWhole (L.talk link.old) (L.talk link.new)
            result
            (asking (remaining self.now).version (remaining self.now).depth stream).farewell }
        ensures cause { HasCause L.faults L.wants L.is_sure link.old link.new result };

    /// A question that waits for a reply has no fault so far.
    ghost lawful: { (version : AnyVersion) (depth : ℕ) (stream : List AnyUpdate)
        (q : Question Query) → (asking version depth stream).IsWaiting q
        → (asking version depth stream).IsUnfinished q };
}
