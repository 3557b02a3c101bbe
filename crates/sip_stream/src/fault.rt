//! Why a stream is read no further.

ghost use Rattle.std.specs.Prelude.{◌≡◌};
ghost use Rattle.sip_stream.specs.Reading.{fault_of};

use crate::Why;
use sip_ports::PortStop;
use thiserror::Error;

/// Why a reader is spent.
#[derive(Clone, Copy, Debug, PartialEq, Eq, Error)]
pub enum StreamFault {
    /// Record `at`, numbered from 0, is not legal.
    #[error("record {at} is not legal: {why:?}")]
    Bad {
        /// The record's number.
        at: u64,
        /// Why it is not legal.
        why: Why,
    },
    /// The source failed.
    #[error("the source failed")]
    ReadFault,
    /// Memory was refused to the source.
    #[error("out of memory")]
    OutOfMemory,
}

impl From<PortStop> for StreamFault {
    ghost from_gives = { λ stop e. e ≡ fault_of stop };

    fn from(stop: PortStop) -> Self {
        match stop {
            PortStop::Failed => StreamFault::ReadFault,
            PortStop::OutOfMemory => StreamFault::OutOfMemory,
        }
    }
}
