// The counts that the ports keep of why their calls stopped.
ghost use Rattle.std.specs.Prelude.{◌≡◌, ◌+◌, ◌-◌, ◌^◌, ◌<◌, min};

use crate::PortStop;

/// How often a port has stopped for one cause. The count stands still at its type's end.
#[derive(Drop)]
pub struct Count {
    /// The number of those calls, from 0 to 2^64 - 1.
    pub count: u64,
    pub ghost fits: { count < 2 ^ 64 },
}

impl Count {
    /// It has not stopped yet.
    pub fn none() -> Self
        ensures { result.count ≡ 0 }
    {
        Count { count: 0 }
    }

    /// Counts a failure, and gives the answer of the call that failed.
    pub fn failed(&mut self) -> PortStop
        ensures answer { result ≡ PortStop.Failed }
        ensures count { self.new.count ≡ min (self.old.count + 1) (2 ^ 64 - 1) }
    {
        self.rise();
        PortStop::Failed
    }

    /// Counts a refusal of memory, and gives the answer of the call to which it was refused.
    pub fn refused(&mut self) -> PortStop
        ensures answer { result ≡ PortStop.OutOfMemory }
        ensures count { self.new.count ≡ min (self.old.count + 1) (2 ^ 64 - 1) }
    {
        self.rise();
        PortStop::OutOfMemory
    }

    fn rise(&mut self)
        ensures { self.new.count ≡ min (self.old.count + 1) (2 ^ 64 - 1) }
    {
        self.count = self.count.saturating_add(1);
    }
}
