//! How many items a vector has.

ghost use Rattle.std.specs.Prelude.{◌≡◌, ◌^◌, ◌≤◌, ◌↔◌, IsSome, IfSome};
ghost use Rattle.sip_vector.specs.Limits.{most_depth};

use std::marker::Model;

/// How many challenges a query has at most: one for each level.
pub const CAP: usize = Depth::MOST as usize;

/// The depth of a tree over 2^d items, from 1 to 48. Contracts see it as the number.
#[derive(Clone, Copy, Debug, PartialEq, Eq)]
pub struct Depth {
    levels: u8,
}

impl Model for Depth {
    ghost use Rattle.std.specs.Prelude.{ℕ, ◌≤◌};
    ghost use Rattle.sip_vector.specs.Limits.{most_depth};

    ghost Value = { ℕ };

    ghost view = { λ d. d.levels };

    ghost invariant = { λ d. (1 ≤ d.levels) × (d.levels ≤ most_depth) };

    ghost inverse = { λ n. record { levels = n } };
}

impl Depth {
    /// The greatest depth.
    pub const MOST: u8 = 48;

    /// The greatest depth at which each item has room in four bytes.
    pub const MOST_NARROW: u8 = 32;

    /// The depth `d`; `None` exactly where `d` is not 1 to 48.
    pub fn new(d: u8) -> Option<Depth>
        ensures fits { IsSome result ↔ ((1 ≤ d) × (d ≤ most_depth)) }
        ensures same { IfSome result (λ depth. depth ≡ d) }
    {
        if (1..=Depth::MOST).contains(&d) {
            Some(Depth { levels: d })
        } else {
            None
        }
    }

    /// The number of levels.
    pub fn get(self) -> u8
        ensures same { result ≡ self }
        ensures some { 1 ≤ result }
        ensures most { result ≤ most_depth }
    {
        self.levels
    }
}

/// The depth 1.
impl Default for Depth {
    ghost is_default = { λ d. d ≡ 1 };

    fn default() -> Depth {
        Depth { levels: 1 }
    }
}
