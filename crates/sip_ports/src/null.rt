// A sink that takes every byte and keeps none.
ghost use Rattle.std.specs.Prelude.{◌≡◌, length, None, refl};
ghost use Rattle.std.proofs.Common.{rules};

use crate::{PortStop, Sink};

/// Takes every byte, keeps none and never fails. It tells no talk, and takes no memory.
#[derive(Drop)]
pub struct NullSink;

impl NullSink {
    /// A sink that keeps nothing.
    pub fn new() -> Self {
        NullSink
    }
}

impl Sink for NullSink {
    ghost talk = { λ _. None };

    ghost faults = { λ _. 0 };

    ghost wants = { λ _. 0 };

    ghost is_sure = { λ _. Unit {0} };

    ghost faults_fit = { λ _. Prim.search rules };

    ghost wants_fit = { λ _. Prim.search rules };

    ghost sure_counts = { λ _ _. refl };

    fn write(&mut self, buf: &[u8]) -> Result<usize, PortStop>
        ensures all { result ≡ Ok (length buf.now) }
    {
        Ok(buf.len())
    }
}
