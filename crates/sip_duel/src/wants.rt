//! How often memory was refused.

ghost use Rattle.std.specs.Prelude.{◌≡◌, ◌+◌, ◌-◌, ◌^◌, ◌<◌, min};

use sip_ports::PortStop;

/// How often memory was refused to a link. The count stands still at its type's end.
#[derive(Drop)]
pub(crate) struct Wants {
    pub(crate) count: u64,
    pub(crate) ghost fits: { count < 2 ^ 64 },
}

impl Wants {
    pub(crate) fn none() -> Wants
        ensures { result.count ≡ 0 }
    {
        Wants { count: 0 }
    }

    /// Counts a refusal, and gives the answer of the call to which it was refused.
    pub(crate) fn refused(&mut self) -> PortStop
        ensures answer { result ≡ PortStop.OutOfMemory }
        ensures count { self.new.count ≡ min (self.old.count + 1) (2 ^ 64 - 1) }
    {
        self.count = self.count.saturating_add(1);
        PortStop::OutOfMemory
    }
}
