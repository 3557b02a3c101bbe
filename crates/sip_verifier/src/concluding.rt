//! All queries of a run, asked and reported.

ghost use Rattle.std.specs.Prelude.{◌≡◌, ◌<◌, ◌≤◌, ℕ, List, false, length, OnOk};
ghost use Rattle.sip_ports.specs.Ports.{Lasts};
ghost use Rattle.sip_vector.specs.declared.update.Update.{Update as AnyUpdate};
ghost use Rattle.sip_wire.specs.Table.{most_queries};
ghost use Rattle.sip_verifier.specs.CheckClause.{CheckClause};
ghost use Rattle.sip_verifier.specs.Exchanges.{Exchange};
ghost use Rattle.sip_verifier.specs.Snapshots.{Counts, span};
ghost use Rattle.sip_verifier.specs.runs.Askers.{GoesBehind, IsFirst, behind};
ghost use Rattle.sip_verifier.specs.runs.Concluding.{Ended, Reports, status_of};
ghost use Rattle.sip_verifier.specs.runs.Progress.{Checks};
ghost use Rattle.sip_verifier.specs.runs.Runs.{Run, updates};
ghost use Rattle.sip_verifier.specs.Statuses.{FaultClause};

use crate::Status;
use crate::asker::{Asker, Unanswered};
use crate::ending::{on_link, on_report, status_of_fault};
use crate::report::write_rejection;
use sip_ports::{Link, Sink};

/// Asks the next query, which has this number, and writes the line of its verdict.
///
/// # Errors
///
/// `Rejected`, behind the line of the rejection; `WriteFault` of the report, behind a front of a
/// line; `WriteFault` of `keep` and `PeerFault`, behind nothing. `OutOfMemory` is one of the last
/// three, and comes only where a port wanted memory.
pub fn check_next<Q: Asker, L: Link, K: Sink, C: Sink>(
    asker: &mut Q,
    number: u8,
    peer: &mut L,
    report: &mut K,
    keep: &mut C,
) -> Result<(), Status>
    requires left { 0 < length (Q.remaining asker.old).left }
    requires live { (Q.remaining asker.old).spent ≡ false }
    ensures keeps { CheckClause (Q.remaining asker.old).version
        (span L.talk L.faults L.wants peer.old peer.new)
        (span K.talk K.faults K.wants report.old report.new)
        (span C.talk C.faults C.wants keep.old keep.new) result }
    ensures checks { (stream : List AnyUpdate) (ask : Q.Query × List ℕ)
        → Q.stands stream asker.old → IsFirst (Q.remaining asker.old) ask
        → Checks
        (Q.asking (Q.remaining asker.old).version (Q.remaining asker.old).depth stream)
        ask.0 ask.1 number (L.talk peer.old) (L.talk peer.new) (K.talk report.old)
        (K.talk report.new) result }
    ensures stands { (stream : List AnyUpdate) → Q.stands stream asker.old
        → Q.stands stream asker.new }
    ensures remaining { OnOk result
        (Q.remaining asker.new ≡ behind false (Q.remaining asker.old)) }
    ensures peer { Lasts L.faults L.wants L.is_sure peer.old peer.new }
    ensures report { Lasts K.faults K.wants K.is_sure report.old report.new }
    ensures keep { Lasts C.faults C.wants C.is_sure keep.old keep.new }
{
    match asker.ask_next(peer, keep) {
        Ok(given) => on_report(asker.write_line(&given, report)),
        Err(Unanswered::Rejected { round, reason }) => {
            on_report(write_rejection(report, number, round, reason))?;
            Err(Status::Rejected {
                query: number,
                round,
                reason,
            })
        }
        Err(Unanswered::Fault(fault)) => Err(status_of_fault(fault)),
    }
}

/// Asks all queries of a run in order over a link to where its stream is kept, writes the line of
/// each verdict to `report`, up to the first stop, and says farewell where all were accepted. The
/// time and the memory are those of the asker's calls.
///
/// `keep` gets each frame's bytes as soon as they came, before they are judged; of a frame that the
/// link's failure cut, it gets none.
///
/// # Errors
///
/// How the run ends: `Rejected`, behind the line of the rejection; `WriteFault` of the report,
/// behind a front of a line; `WriteFault` of `keep` and `PeerFault`, behind the lines before.
/// `OutOfMemory` is one of these three, and comes only where a port that it was given wanted
/// memory.
#[inline(never)]
pub fn conclude_run<Q: Asker, L: Link, K: Sink, C: Sink>(
    asker: &mut Q,
    peer: &mut L,
    report: &mut K,
    keep: &mut C,
) -> Result<(), Status>
    requires most { length (Q.remaining asker.old).left ≤ most_queries }
    requires live { (Q.remaining asker.old).spent ≡ false }
    ensures ends { (r : Run Q.Query) (x : Exchange) (before now : Counts)
        → GoesBehind Q.asking r x (Q.remaining asker.old) (L.talk peer.old) (L.talk peer.new)
        (K.talk report.old) (K.talk report.new)
        → Q.stands (updates r x) asker.old → FaultClause before now (status_of result)
        → Ended Q.asking r x before now (status_of result) }
    ensures wrote { (stream : List AnyUpdate) → Q.stands stream asker.old
        → Reports (K.talk report.old) (K.talk report.new) }
    ensures keeps { CheckClause (Q.remaining asker.old).version
        (span L.talk L.faults L.wants peer.old peer.new)
        (span K.talk K.faults K.wants report.old report.new)
        (span C.talk C.faults C.wants keep.old keep.new) result }
    ensures peer { Lasts L.faults L.wants L.is_sure peer.old peer.new }
    ensures report { Lasts K.faults K.wants K.is_sure report.old report.new }
    ensures keep { Lasts C.faults C.wants C.is_sure keep.old keep.new }
{
    let count = asker.left() as u8;
    for asked in 0..count {
        check_next(asker, asked + 1, peer, report, keep)?;
    }
    on_link(asker.say_farewell(peer))
}
