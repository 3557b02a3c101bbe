//! The commands of the other side.

ghost use Rattle.std.specs.Prelude.{◌≡◌};
ghost use Rattle.sip_ports.specs.Ports.{Lasts, Rose};
ghost use Rattle.sip_helper.specs.Serving.{Serves};
ghost use Rattle.sip_lookup.specs.Serving.{ServesLooks};
ghost use Rattle.sip_moments.specs.Serving.{ServesMoments};
ghost use Rattle.sip_verifier.specs.Snapshots.{Counts};
ghost use Rattle.sip_verifier.specs.Statuses.{FaultClause};
ghost use Rattle.sip_cli.specs.HelpClause.{HelpClause, status_of};
ghost use Rattle.sip_cli.specs.Statuses.{EndsHelp};
ghost use Rattle.sip_cli.specs.inside.HelpEnds.{HelpEnds};

use sip_helper::{HelpStatus, serve};
use sip_lookup::serve_look;
use sip_moments::serve_moments;
use sip_ports::Link;
use sip_verifier::Status;
use std::alloc::Global;

// The status of a command whose talk ended so. The link is at fault only where its count rose.
fn status_of(how: HelpStatus) -> Status
    ensures status { result ≡ status_of how }
    ensures fault { (before now : Counts)
        → (how ≡ HelpStatus.PeerFault → Rose before.peer now.peer)
        → FaultClause before now result }
    ensures listed { EndsHelp result }
{
    match how {
        HelpStatus::Served => Status::Served,
        HelpStatus::BadFrame { offset } => Status::BadFrame { offset },
        HelpStatus::PeerClosed => Status::PeerClosed,
        HelpStatus::PeerFault => Status::PeerFault,
        HelpStatus::OutOfMemory => Status::OutOfMemory,
    }
}

/// Serves one talk of queries.
#[inline(never)]
pub(crate) fn help<L: Link>(alloc: Global, peer: &mut L) -> Status
    ensures help { HelpClause Serves (L.talk peer.old) (L.talk peer.new) result }
    ensures ends { HelpEnds (L.talk peer.old) (L.talk peer.new) (L.faults peer.old)
        (L.faults peer.new) result }
    ensures peer { Lasts L.faults L.wants L.is_sure peer.old peer.new }
{
    status_of(serve(alloc, peer))
}

/// Serves one talk of lookups.
#[inline(never)]
pub(crate) fn help_look<L: Link>(alloc: Global, peer: &mut L) -> Status
    ensures help { HelpClause ServesLooks (L.talk peer.old) (L.talk peer.new) result }
    ensures ends { HelpEnds (L.talk peer.old) (L.talk peer.new) (L.faults peer.old)
        (L.faults peer.new) result }
    ensures peer { Lasts L.faults L.wants L.is_sure peer.old peer.new }
{
    status_of(serve_look(alloc, peer))
}

/// Serves one talk of moments.
#[inline(never)]
pub(crate) fn help_moments<L: Link>(alloc: Global, peer: &mut L) -> Status
    ensures help { HelpClause ServesMoments (L.talk peer.old) (L.talk peer.new) result }
    ensures ends { HelpEnds (L.talk peer.old) (L.talk peer.new) (L.faults peer.old)
        (L.faults peer.new) result }
    ensures peer { Lasts L.faults L.wants L.is_sure peer.old peer.new }
{
    status_of(serve_moments(alloc, peer))
}
