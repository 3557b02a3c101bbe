//! The bytes that are due at once, which are few.

ghost use Rattle.std.specs.Prelude.{◌≡◌, ◌≤◌, ◌<◌, ◌^◌, [], length};
ghost use Rattle.sip_ports.specs.Ports.{Rose, outs};

use arrayvec::ArrayVec;
use sip_ports::{Link, PortStop, Sink};
use sip_stream::text::put;

/// How many bytes of a question are due at once at most.
pub(crate) const MOST_DUE: usize = 64;

/// How many bytes of a run are due at once at most: those of a frame of 512 updates.
pub(crate) const MOST_FRAME: usize = 8709;

/// What goes out, where there is room for it: a write of more fails.
#[derive(Drop)]
pub(crate) struct Room<const N: usize> {
    bytes: ArrayVec<u8, N>,
    faults: u64,
    ghost fits: { faults < 2 ^ 64 },
}

impl<const N: usize> Room<N> {
    ghost use Rattle.sip_c.specs.Rooms.{AreHanded, bytes_in};

    /// With nothing in it.
    pub(crate) fn new() -> Room<N>
        ensures { bytes_in result ≡ [] }
    {
        Room {
            bytes: ArrayVec::new(),
            faults: 0,
        }
    }

    /// Puts what went out in front of a buffer, and tells how many bytes that is.
    pub(crate) fn hand_out(&self, to: &mut [u8], count: &mut usize)
        requires { N ≤ length to.old }
        ensures { AreHanded (bytes_in self.now) to.old to.new count.new }
    {
        let bytes: &[u8] = &self.bytes;
        let size = bytes.len();
        prove!(size <= N);
        to[..size].copy_from_slice(bytes);
        *count = size;
    }

    // A call failed.
    fn failed(&mut self) -> PortStop
        ensures stop { result ≡ PortStop.Failed }
        ensures bytes { bytes_in self.new ≡ bytes_in self.old }
        ensures rose { Rose self.old.faults self.new.faults }
        ensures later { self.old.faults ≤ self.new.faults }
    {
        self.faults = self.faults.saturating_add(1);
        PortStop::Failed
    }
}

impl<const N: usize> Sink for Room<N> {
    ghost use Rattle.std.specs.Prelude.{Some};
    ghost use Rattle.std.proofs.Common.{rules};
    ghost use Rattle.sip_ports.specs.Ports.{outs};
    ghost use Rattle.sip_c.specs.Rooms.{bytes_in};

    ghost talk = { λ r. Some (outs (bytes_in r)) };

    ghost faults = { λ r. r.faults };

    ghost wants = { λ _. 0 };

    ghost is_sure = { λ _. ⊥ };

    ghost faults_fit = { λ r. r.fits };

    ghost wants_fit = { λ _. Prim.search rules };

    ghost sure_counts = { λ _ sure. absurd sure };

    fn write(&mut self, buf: &[u8]) -> Result<usize, PortStop> {
        if buf.len() > N - self.bytes.len() {
            return Err(self.failed());
        }
        put(&mut self.bytes, buf);
        Ok(buf.len())
    }
}

impl<const N: usize> Link for Room<N> {
    // Nothing comes in.
    fn recv(&mut self, _buf: &mut [u8]) -> Result<usize, PortStop> {
        Err(self.failed())
    }
}
