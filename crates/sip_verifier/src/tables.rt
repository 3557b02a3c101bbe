//! The memory for the tables of a run's challenges.

ghost use Rattle.std.specs.Prelude.{◌≡◌};

use crate::Seats;
use std::alloc::Global;

/// Where the seats of a run have their tables from. These can be made only when the challenges are
/// drawn, and that is in [`gather`](crate::gather), which has no allocator: it gets at no other
/// memory than that of the tables, whose size the depth and the queries give.
#[derive(Drop)]
pub struct Tables {
    alloc: Global,
}

impl Tables {
    /// Tables in the memory of this allocator.
    pub fn new(alloc: Global) -> Tables {
        Tables { alloc }
    }

    /// Has the seats keep their tables, as many as there is memory for.
    pub(crate) fn keep(&self, seats: &mut Seats)
        ensures { seats.new ≡ seats.old }
    {
        // They are for speed alone: a seat that has none makes them on the stack, for each block.
        let _ = seats.keep_tables(self.alloc);
    }
}
