//! Why bytes are no sketch.

ghost use Rattle.std.specs.Prelude.{◌≡◌};
ghost use Rattle.sip_sketch.specs.declared.fault.SketchFault.TheVariants.{OutOfMemory};

use std::alloc::{AllocError, AllocFailed};
use thiserror::Error;

/// Why bytes were not read as a sketch.
#[derive(Clone, Copy, Debug, PartialEq, Eq, Error)]
pub enum SketchFault {
    /// The field that begins at this byte has none of its values, or the bytes end in it; or a byte
    /// stands here behind the last field.
    #[error("bad sketch at offset {offset}")]
    Bad {
        /// How many bytes stand before it.
        offset: usize,
    },
    /// Memory was refused.
    #[error("out of memory")]
    OutOfMemory,
}

impl From<AllocError> for SketchFault {
    ghost from_gives = { λ _ fault. fault ≡ OutOfMemory };

    fn from(_: AllocError) -> SketchFault {
        SketchFault::OutOfMemory
    }
}

impl<T: Drop> From<AllocFailed<T>> for SketchFault {
    ghost from_gives = { λ _ fault. fault ≡ OutOfMemory };

    fn from(_: AllocFailed<T>) -> SketchFault {
        SketchFault::OutOfMemory
    }
}
