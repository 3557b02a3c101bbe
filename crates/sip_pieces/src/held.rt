//! Bytes that came over a link and were not taken yet.
ghost use Rattle.std.specs.Prelude.{◌≤◌, length};

use sip_ports::{Link, PortStop};

const MOST: usize = 16;

/// Bytes that came and were not taken yet: those from `from` up to `upto`.
#[derive(Drop)]
pub(crate) struct Held {
    buffer: [u8; MOST],
    from: usize,
    upto: usize,
    ghost order: { from ≤ upto },
    ghost within: { upto ≤ 16 },
}

impl Held {
    pub(crate) fn new() -> Held {
        Held {
            buffer: [0; MOST],
            from: 0,
            upto: 0,
        }
    }

    /// Receives so many bytes at most, where none are left. Whether the other end has closed.
    pub(crate) fn fill<L: Link>(&mut self, link: &mut L, size: usize) -> Result<bool, PortStop> {
        if self.from < self.upto {
            return Ok(false);
        }
        let most = size.min(MOST);
        let mut buffer = self.buffer;
        let came = link.recv(&mut buffer[..most])?;
        self.buffer = buffer;
        self.from = 0;
        self.upto = came.min(MOST);
        Ok(came == 0)
    }

    /// Those that are left.
    pub(crate) fn bytes(&self) -> &[u8] {
        &self.buffer[self.from..self.upto]
    }

    /// So many were taken.
    pub(crate) fn taken(&mut self, count: usize) {
        self.from = (self.from + count.min(MOST)).min(self.upto);
    }
}
