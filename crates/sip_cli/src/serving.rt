//! The command of the other side that has the stream in a file.

ghost use Rattle.std.specs.Prelude.{◌≡◌, ℕ, IsSome, List};
ghost use Rattle.sip_ports.specs.declared.port.TalkEvent.{TalkEvent as AnyTalkEvent};
ghost use Rattle.sip_ports.specs.Ports.{GoesOn, Lasts, Rose};
ghost use Rattle.sip_verifier.specs.Snapshots.{Counts, counts};
ghost use Rattle.sip_verifier.specs.Statuses.{FaultClause};
ghost use Rattle.sip_cli.specs.ServeClause.{ServeClause, status_of_store};
ghost use Rattle.sip_cli.specs.Statuses.{EndsServe};

use sip_ports::{Link, Source};
use sip_questions::{StoreStatus, serve_store};
use sip_stream::Form;
use sip_verifier::{Port, Status};
use std::alloc::Global;

// The status of the command where the talk ended so. The stream is at fault only where its count
// rose, and so is the link.
fn status_of(how: StoreStatus) -> Status
    ensures status { result ≡ status_of_store how }
    ensures fault { (before now : Counts)
        → (how ≡ StoreStatus.ReadFault → Rose before.first now.first)
        → (how ≡ StoreStatus.PeerFault → Rose before.peer now.peer)
        → FaultClause before now result }
    ensures listed { EndsServe result }
{
    match how {
        StoreStatus::Served => Status::Served,
        StoreStatus::BadStream { at, why } => Status::BadStream { at, why },
        StoreStatus::BadFrame { offset } => Status::BadFrame { offset },
        StoreStatus::ReadFault => Status::ReadFault { port: Port::First },
        StoreStatus::PeerClosed => Status::PeerClosed,
        StoreStatus::PeerFault => Status::PeerFault,
        StoreStatus::OutOfMemory => Status::OutOfMemory,
    }
}

/// Serves one talk of questions, over a stream that is read in a form, and which is read again
/// where large entries are asked for.
#[inline(never)]
pub(crate) fn serve<A: Source, B: Source, L: Link>(
    alloc: Global,
    form: Form,
    first: &mut A,
    again: &mut B,
    peer: &mut L,
) -> Status
    ensures serves { ServeClause form (A.left first.old) (A.left first.new) (B.left again.old)
        (B.left again.new) (L.talk peer.old) (L.talk peer.new) result }
    ensures told { IsSome (A.left first.old) → IsSome (A.left first.new) }
    ensures said { (said : List AnyTalkEvent) × GoesOn (L.talk peer.old) (L.talk peer.new) said }
    ensures fault { (second seconds report reports keep keeps : ℕ)
        → FaultClause (counts (A.faults first.old) second (L.faults peer.old) report keep)
        (counts (A.faults first.new) seconds (L.faults peer.new) reports keeps) result }
    ensures listed { EndsServe result }
    ensures first { Lasts A.faults A.wants A.is_sure first.old first.new }
    ensures again { Lasts B.faults B.wants B.is_sure again.old again.new }
    ensures peer { Lasts L.faults L.wants L.is_sure peer.old peer.new }
{
    status_of(serve_store(alloc, form, first, again, peer))
}
