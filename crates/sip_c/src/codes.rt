//! Updates as a caller of C has them.

ghost use Rattle.std.specs.Prelude.{◌≡◌, ◌↔◌, ◌<◌, IsTrue, List, get_or, length};
ghost use Rattle.sip_c.specs.Codes.{HasSide, side_of, update_of};
ghost use Rattle.sip_c.specs.declared.codes.UpdateCode.{UpdateCode as AnyCode};

use sip_vector::{Side, Update};

/// An update as numbers.
#[repr(C)]
#[derive(Clone, Copy, Debug, PartialEq, Eq)]
pub struct UpdateCode {
    /// The number of the entry, below 2^depth.
    pub item: u64,
    /// What is added, not 0.
    pub delta: i64,
    /// The side, 0 or 1.
    pub side: u8,
}

impl UpdateCode {
    /// Whether the side is one.
    pub(crate) fn has_side(&self) -> bool
        ensures { IsTrue result ↔ HasSide self.now }
    {
        self.side <= 1
    }

    /// The side; the second, where the number is none.
    pub(crate) fn side(&self) -> Side
        ensures { result ≡ side_of self.now.side }
    {
        if self.side == 0 {
            Side::First
        } else {
            Side::Second
        }
    }

    /// The update.
    pub(crate) fn update(&self) -> Update
        ensures { result ≡ update_of self.now }
    {
        Update {
            side: self.side(),
            item: self.item,
            delta: self.delta,
        }
    }
}

/// Updates as a caller has them, in order.
pub(crate) trait Codes {
    /// They.
    ghost codes: { Self → List AnyCode };

    /// How many they are.
    fn count(&self) -> usize
        ensures { result ≡ length (codes self.now) };

    /// The one at this place.
    fn at(&self, place: usize) -> UpdateCode
        requires { place < length (codes self.now) }
        ensures { (d : AnyCode) → result ≡ get_or (codes self.now) place d };
}

/// Updates that lie one behind the other.
#[derive(Drop)]
pub(crate) struct CodeList<'a> {
    pub(crate) list: &'a [UpdateCode],
}

impl<'a> Codes for CodeList<'a> {
    ghost codes = { λ l. l.list.now };

    fn count(&self) -> usize {
        self.list.len()
    }

    fn at(&self, place: usize) -> UpdateCode {
        self.list[place]
    }
}
