//! How much the sides of a stream weigh.

ghost use Rattle.std.specs.Prelude.{◌≡◌};
ghost use Rattle.sip_verifier.specs.Weights.{weight_in};

use sip_vector::Side;

/// The weight of each side of a stream: the sum of the sizes of its deltas, at most 2^30 - 1.
#[derive(Clone, Copy, Debug, PartialEq, Eq, Default)]
pub struct Weights {
    pub first: u64,
    pub second: u64,
}

impl Weights {
    /// The weight of a side.
    pub fn of(&self, side: Side) -> u64
        ensures { result ≡ weight_in self.now side }
    {
        match side {
            Side::First => self.first,
            Side::Second => self.second,
        }
    }
}
