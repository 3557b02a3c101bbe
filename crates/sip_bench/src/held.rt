//! A source of bytes in memory that holds all of them, so that records are read where they lie.
ghost use Rattle.std.specs.Prelude.{◌≡◌, ◌≤◌, length, drop, None, refl};
ghost use Rattle.std.proofs.Common.{rules};

use sip_ports::{PortStop, Source};

/// Bytes in memory. It tells none of those to come, never fails and takes no memory.
#[derive(Drop)]
pub(crate) struct HeldSource<'a> {
    bytes: &'a [u8],
    at: usize,
    ghost within: { at ≤ length bytes.now },
}

impl<'a> HeldSource<'a> {
    /// A source of these bytes.
    pub(crate) fn new(bytes: &'a [u8]) -> HeldSource<'a> {
        HeldSource { bytes, at: 0 }
    }
}

impl<'a> Source for HeldSource<'a> {
    ghost left = { λ _. None };

    ghost ahead = { λ source. drop source.at source.bytes.now };

    ghost faults = { λ _. 0 };

    ghost wants = { λ _. 0 };

    ghost is_sure = { λ _. Unit {0} };

    ghost faults_fit = { λ _. Prim.search rules };

    ghost wants_fit = { λ _. Prim.search rules };

    ghost sure_counts = { λ _ _. refl };

    fn read(&mut self, buf: &mut [u8]) -> Result<usize, PortStop> {
        let count = buf.len().min(self.bytes.len() - self.at);
        buf[..count].copy_from_slice(&self.bytes[self.at..self.at + count]);
        self.at += count;
        Ok(count)
    }

    fn held(&self) -> &[u8] {
        &self.bytes[self.at..]
    }

    fn skip(&mut self, count: usize) {
        prove!(count <= self.bytes.len() - self.at);
        self.at += count;
    }
}
