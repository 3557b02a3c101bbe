//! Why a transcript's head is not read.

ghost use Rattle.std.specs.Prelude.{◌≡◌};
ghost use Rattle.sip_transcript.specs.Causes.{fault_of};

use sip_ports::PortStop;
use thiserror::Error;

/// Why a transcript's head is not read.
#[derive(Clone, Copy, Debug, PartialEq, Eq, Error)]
pub enum HeadFault {
    /// A field has no value that it may have, or the source ends in it.
    #[error("the transcript is none from byte {offset} on")]
    Bad {
        /// Where the field begins, in bytes from the front.
        offset: u64,
    },
    /// The source failed.
    #[error("the source failed")]
    ReadFault,
    /// Memory was refused to the source.
    #[error("out of memory")]
    OutOfMemory,
}

impl From<PortStop> for HeadFault {
    ghost from_gives = { λ stop fault. fault ≡ fault_of stop };

    fn from(stop: PortStop) -> Self {
        match stop {
            PortStop::Failed => HeadFault::ReadFault,
            PortStop::OutOfMemory => HeadFault::OutOfMemory,
        }
    }
}
