//! A lookup that is asked without a link: what it has.

ghost use Rattle.std.specs.Prelude.{◌≡◌, ◌≤◌, ◌<◌, ◌^◌, length};
ghost use Rattle.sip_wire.specs.Versions.{deepest};
ghost use Rattle.sip_lookup.specs.Lookups.{item_of};

use crate::asking::Asking;
use crate::opening::Opening;
use sip_field::M61;
use sip_lookup::Lookup;
use sip_subvec::SubAsking;
use sip_tree::Root;
use sip_vector::{CAP, Depth, Entry};
use sip_wire::{Frame, Reason, Version};

/// Room for one frame, and for the entries that prove a place.
#[derive(Drop)]
pub(crate) struct Room {
    pub(crate) frame: Frame,
    pub(crate) places: Vec<Entry>,
}

/// How far a lookup is.
#[derive(Drop)]
pub(crate) enum LookStep {
    /// The place is to be told; whether it was asked for.
    Place {
        room: Room,
        is_asked: bool,
    },
    /// The Found has this fault, or its place may not be found.
    Refused(Reason),
    /// The entries that prove the place are asked for.
    Proves {
        found: Option<u64>,
        asking: Asking<SubAsking, Opening>,
    },
}

/// A lookup that is under way.
///
/// It is driven as [`Asking`] is: what is [`due`](Looking::due) is sent, and what comes is
/// [fed](Looking::feed), until there is a [`verdict`](Looking::verdict). The query for the interval
/// that proves the place is due only once the place was told and may be found. Memory is taken by
/// [`begin`](Looking::begin) alone, and the time is that of the bytes.
#[derive(Drop)]
pub struct Looking {
    pub(crate) version: Version,
    pub(crate) depth: Depth,
    pub(crate) lookup: Lookup,
    pub(crate) root: Root<M61, CAP>,
    pub(crate) step: LookStep,
    ghost levels: { length root.seat ≡ depth },
    ghost shallow: { depth ≤ deepest version },
    ghost item: { item_of lookup < 2 ^ depth },
}

impl Looking {
    /// What is looked up.
    pub fn lookup(&self) -> Lookup
        ensures { result ≡ self.now.lookup }
    {
        self.lookup
    }
}
