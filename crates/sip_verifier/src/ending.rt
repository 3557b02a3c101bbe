//! How a run ends where one of its parts stopped.

ghost use Rattle.std.specs.Prelude.{◌≡◌, MatchResult};
ghost use Rattle.sip_ports.specs.declared.port.PortStop.{PortStop as AnyPortStop};
ghost use Rattle.sip_verifier.specs.inside.Ending.{status_of_fault, status_of_keep, status_of_link};
ghost use Rattle.sip_verifier.specs.inside.Ending.{status_of_report, status_of_start};
ghost use Rattle.sip_verifier.specs.runs.Concluding.{status_of};

use crate::session::{SessionFault, SessionStart};
use crate::{Port, Status};
use sip_ports::PortStop;

/// What a write to the report gave, with the status of a run that stopped there.
pub fn on_report(written: Result<(), PortStop>) -> Result<(), Status>
    ensures { MatchResult result (λ x. written ≡ Ok x)
        (λ status. (port : AnyPortStop) × (written ≡ Err port) × (status ≡ status_of_report port)) }
{
    match written {
        Ok(()) => Ok(()),
        Err(PortStop::Failed) => Err(Status::WriteFault { port: Port::Report }),
        Err(PortStop::OutOfMemory) => Err(Status::OutOfMemory),
    }
}

/// What a write to the record of the talk gave.
pub(crate) fn on_keep(written: Result<(), PortStop>) -> Result<(), Status>
    ensures { MatchResult result (λ x. written ≡ Ok x)
        (λ status. (port : AnyPortStop) × (written ≡ Err port) × (status ≡ status_of_keep port)) }
{
    match written {
        Ok(()) => Ok(()),
        Err(PortStop::Failed) => Err(Status::WriteFault { port: Port::Keep }),
        Err(PortStop::OutOfMemory) => Err(Status::OutOfMemory),
    }
}

/// What sending on the link gave, with the status of a run that stopped there.
pub fn on_link(sent: Result<(), PortStop>) -> Result<(), Status>
    ensures { MatchResult result (λ x. sent ≡ Ok x)
        (λ status. (port : AnyPortStop) × (sent ≡ Err port) × (status ≡ status_of_link port)) }
{
    match sent {
        Ok(()) => Ok(()),
        Err(PortStop::Failed) => Err(Status::PeerFault),
        Err(PortStop::OutOfMemory) => Err(Status::OutOfMemory),
    }
}

/// The status of a run whose session was not made.
pub(crate) fn status_of_start(start: SessionStart) -> Status
    ensures { result ≡ status_of_start start }
{
    match start {
        SessionStart::TooWide { query } => Status::TooWide { query },
        SessionStart::OutOfMemory => Status::OutOfMemory,
    }
}

/// The status of a run whose queries came to this.
pub fn status_of(asked: Result<(), Status>) -> Status
    ensures { result ≡ status_of asked }
{
    match asked {
        Ok(()) => Status::Accepted,
        Err(status) => status,
    }
}

/// The status of a run whose query has no verdict.
pub fn status_of_fault(fault: SessionFault) -> Status
    ensures { result ≡ status_of_fault fault }
{
    match fault {
        SessionFault::PeerFault => Status::PeerFault,
        SessionFault::KeepFault => Status::WriteFault { port: Port::Keep },
        SessionFault::OutOfMemory => Status::OutOfMemory,
    }
}
