//! The statuses that stand for what stops the reading of a transcript, and the writing of it.

ghost use Rattle.std.specs.Prelude.{◌≡◌};
ghost use Rattle.sip_transcript.specs.Causes.{status_of_head, status_of_sink, status_of_source};

use crate::HeadFault;
use sip_ports::PortStop;
use sip_verifier::{Port, Status};

/// The status of a head that is not read.
pub(crate) fn status_of_head(fault: HeadFault) -> Status
    ensures { result ≡ status_of_head fault }
{
    match fault {
        HeadFault::Bad { offset } => Status::BadTranscript { offset },
        HeadFault::ReadFault => Status::ReadFault { port: Port::Second },
        HeadFault::OutOfMemory => Status::OutOfMemory,
    }
}

/// The status of a transcript whose source stops behind the head.
pub(crate) fn status_of_source(stop: PortStop) -> Status
    ensures { result ≡ status_of_source stop }
{
    match stop {
        PortStop::Failed => Status::ReadFault { port: Port::Second },
        PortStop::OutOfMemory => Status::OutOfMemory,
    }
}

/// The status where what is written of it stops.
pub(crate) fn status_of_sink(stop: PortStop) -> Status
    ensures { result ≡ status_of_sink stop }
{
    match stop {
        PortStop::Failed => Status::WriteFault { port: Port::Report },
        PortStop::OutOfMemory => Status::OutOfMemory,
    }
}
