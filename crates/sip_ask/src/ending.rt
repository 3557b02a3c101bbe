//! How an ask ends where one of its parts stopped.

ghost use Rattle.std.specs.Prelude.{◌≡◌, MatchResult, Ok, Err};
ghost use Rattle.sip_ports.specs.declared.port.PortStop.{PortStop as AnyPortStop};
ghost use Rattle.sip_ask.specs.inside.Ending.{of_link, of_report, of_run};

use crate::{AskPort, AskStatus};
use sip_ports::PortStop;
use sip_verifier::Status;

/// What sending on the link gave, with the status of an ask that stopped there.
pub(crate) fn on_link(sent: Result<(), PortStop>) -> Result<(), AskStatus>
    ensures { MatchResult result (λ x. sent ≡ Ok x)
        (λ status. (stop : AnyPortStop) × (sent ≡ Err stop) × (status ≡ of_link stop)) }
{
    match sent {
        Ok(()) => Ok(()),
        Err(PortStop::Failed) => Err(AskStatus::PeerFault),
        Err(PortStop::OutOfMemory) => Err(AskStatus::OutOfMemory),
    }
}

/// What a write to the report gave, with the status of an ask that stopped there.
pub(crate) fn on_report(written: Result<(), PortStop>) -> Result<(), AskStatus>
    ensures { MatchResult result (λ x. written ≡ Ok x)
        (λ status. (stop : AnyPortStop) × (written ≡ Err stop) × (status ≡ of_report stop)) }
{
    match written {
        Ok(()) => Ok(()),
        Err(PortStop::Failed) => Err(AskStatus::WriteFault {
            port: AskPort::Report,
        }),
        Err(PortStop::OutOfMemory) => Err(AskStatus::OutOfMemory),
    }
}

/// What a part of a run of questions came to behind its opening, as an ask ends by it.
pub(crate) fn on_run(came: Result<(), Status>) -> Result<(), AskStatus>
    ensures { result ≡ of_run came }
{
    match came {
        Ok(()) => Ok(()),
        Err(
            Status::Rejected {
                query,
                round,
                reason,
            },
        ) => Err(AskStatus::Rejected {
            query,
            round,
            reason,
        }),
        Err(Status::WriteFault { .. }) => Err(AskStatus::WriteFault {
            port: AskPort::Report,
        }),
        Err(Status::PeerFault) => Err(AskStatus::PeerFault),
        Err(_) => Err(AskStatus::OutOfMemory),
    }
}
