//! A box that a caller of C holds by a pointer, or none.

ghost use Rattle.std.specs.Prelude.{◌≡◌, Bool, true, false, Option, Some, None, is_some, IsTrue};
ghost use Rattle.std.specs.Prelude.{IfErr, MatchOption, OnErr, OnOk};
ghost use Rattle.sip_c.specs.declared.kept.Kept.{Kept};
ghost use Rattle.sip_c.specs.Owned.{held_owns, held_coded};
ghost use Rattle.sip_c.specs.declared.refusal.Refusal.TheVariants as refusals;

use crate::kept::Kept;
use crate::parts::Parts;
use crate::refusal::Refusal;
use std::alloc::Global;
use std::marker::Model;
use std::{mem, ptr};

/// The pointer of a box, or null where there is none.
#[repr(C)]
#[derive(Drop)]
pub struct Spot {
    at: *mut u8,
    alloc: Global,
    pub ghost held: { Option Kept } by { held_coded },
}

impl Model for Spot {
    ghost also_owns = { λ s. held_owns s.alloc s.at s.held };
}

impl Spot {
    // No box.
    fn empty(alloc: Global) -> Spot
        ensures { result.held ≡ None }
    {
        let at: *mut u8 = ptr::null_mut();
        Spot { at, alloc }
    }

    // The box that these are.
    fn of_parts(parts: Parts<Kept, Global>) -> Spot
        ensures { result.held ≡ Some parts.value }
    {
        let Parts { ptr, alloc } = parts;
        Spot {
            at: ptr as *mut u8,
            alloc,
        }
    }

    // The box that there is.
    fn into_parts(self) -> Parts<Kept, Global>
        requires { IsTrue (is_some self.held) }
        ensures { self.held ≡ Some result.value }
    {
        let Spot { at, alloc } = self;
        Parts {
            ptr: at as *mut Kept,
            alloc,
        }
    }
}

/// What a caller of C has of something that the library keeps. All zeros are an empty one.
#[repr(C)]
#[derive(Drop)]
pub struct Handle {
    spot: Spot,
    full: bool,
    ghost tells: { full ≡ is_some spot.held },
}

impl Handle {
    /// Takes what it has. It is empty then.
    pub(crate) fn take(&mut self, alloc: Global) -> Option<Box<Kept>>
        ensures kept { MatchOption result (self.old.spot.held ≡ None)
            (λ kept. self.old.spot.held ≡ Some kept.value) }
        ensures none { self.new.spot.held ≡ None }
    {
        let old = mem::replace(
            self,
            Handle {
                spot: Spot::empty(alloc),
                full: false,
            },
        );
        if !old.full {
            return None;
        }
        Some(old.spot.into_parts().into_box())
    }

    /// Whether it has something.
    pub(crate) fn is_full(&self) -> bool
        ensures { result ≡ is_some self.now.spot.held }
    {
        self.full
    }

    /// Gives something to it, where it is empty and there is memory for it.
    pub(crate) fn begin(&mut self, alloc: Global, kept: Kept) -> Result<(), Refusal>
        requires { self.old.spot.held ≡ None }
        ensures given { OnOk result (self.new.spot.held ≡ Some kept) }
        ensures none { OnErr result (self.new.spot.held ≡ None) }
        ensures why { IfErr result (λ why. why ≡ refusals.NoMemory) }
    {
        let Ok(boxed) = Box::new(alloc, kept) else {
            return Err(Refusal::NoMemory);
        };
        self.put(alloc, boxed);
        Ok(())
    }

    /// Gives something to it. What it had is let go.
    pub(crate) fn put(&mut self, alloc: Global, kept: Box<Kept>)
        ensures { self.new.spot.held ≡ Some kept.value }
    {
        let _ = self.take(alloc);
        *self = Handle {
            spot: Spot::of_parts(Parts::of(kept)),
            full: true,
        };
    }
}

// What it owns is a box of its own, or nothing.
unsafe impl Send for Spot {}
