//! How many bytes or records are handed over at a time.
ghost use Rattle.std.specs.Prelude.{◌≤◌};

/// Sizes in no order, by a linear congruence: Knuth's MMIX, The Art of Computer Programming,
/// volume 2, section 3.3.4.
#[derive(Drop)]
pub(crate) struct Sizes {
    state: u64,
}

impl Sizes {
    /// Those of a number.
    pub(crate) fn of(number: u64) -> Sizes {
        Sizes { state: number }
    }

    /// The size of the next piece, from 1 to 16.
    pub(crate) fn next(&mut self) -> usize
        ensures some { 1 ≤ result }
        ensures few { result ≤ 16 }
    {
        self.state = self
            .state
            .wrapping_mul(6_364_136_223_846_793_005)
            .wrapping_add(1_442_695_040_888_963_407);
        (self.state >> 33) as usize % 16 + 1
    }
}
