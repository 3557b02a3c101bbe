//! How a helper's talk ended.

ghost use Rattle.std.specs.Prelude.{◌≡◌};
ghost use Rattle.sip_helper.specs.Statuses.{status_of_fault, status_of_stop};

use sip_ports::PortStop;
use sip_wire::WireFault;

/// How a talk ended.
#[derive(Clone, Copy, Debug, PartialEq, Eq)]
pub enum HelpStatus {
    /// A Bye was heard.
    Served,
    /// The frame that begins at this offset of the bytes that were received has no spelling or is a
    /// query of a kind that is not answered, or its message is out of turn.
    BadFrame { offset: u64 },
    /// The link ended before a Bye.
    PeerClosed,
    /// The link failed: the count of its faults rose.
    PeerFault,
    /// Memory ran out.
    OutOfMemory,
}

impl From<PortStop> for HelpStatus {
    ghost from_gives = { λ stop status. status ≡ status_of_stop stop };

    fn from(stop: PortStop) -> Self {
        match stop {
            PortStop::Failed => HelpStatus::PeerFault,
            PortStop::OutOfMemory => HelpStatus::OutOfMemory,
        }
    }
}

impl HelpStatus {
    /// The status where no message was received, by the offset of the frame.
    pub fn of_fault(fault: WireFault, offset: u64) -> HelpStatus
        ensures { result ≡ status_of_fault fault offset }
    {
        match fault {
            WireFault::Closed => HelpStatus::PeerClosed,
            WireFault::PeerFault => HelpStatus::PeerFault,
            WireFault::OutOfMemory => HelpStatus::OutOfMemory,
            WireFault::BadKind
            | WireFault::BadLength
            | WireFault::BadCount
            | WireFault::BadNumber => HelpStatus::BadFrame { offset },
        }
    }
}
