//! Records that are tested all at once.

ghost use Rattle.std.specs.Prelude.{◌≡◌, ◌<◌, ◌≤◌, ◌+◌, ℕ, IsTrue};
ghost use Rattle.sip_stream.specs.Reading.{Reading};
ghost use Rattle.sip_stream.specs.Batches.{IsClean, IsFew, IsLight, TakesOne, most_counted};

use crate::reader::MOST_WEIGHT;
use crate::record_bytes::number_of;
use sip_vector::{Depth, Update};

/// The most records of a batch, so that their weight is a sum that does not wrap.
pub(crate) const MOST_COUNTED: usize = 1 << 32;

/// What records come to together whose sides are known, so that one test at the end is a test of
/// each. Where a record is not legal it shows that one is not, though not which; its weights are of
/// no use then.
#[derive(Clone, Copy)]
pub(crate) struct Batch {
    /// How many records came.
    pub(crate) count: u64,
    /// The weight of both sides, and that of the second one, modulo 2^64.
    pub(crate) total: u64,
    pub(crate) second: u64,
    /// All bits of the items.
    pub(crate) items: u64,
    /// All bits of what is 1 less than a delta's size.
    pub(crate) sizes: u64,
}

impl Batch {
    /// Counts an update.
    pub(crate) fn note(&mut self, update: &Update)
        ensures few { (n m : ℕ) → n < m → m ≤ most_counted → IsFew n self.old → IsFew m self.new }
        ensures clean { (depth n : ℕ) → n ≤ most_counted → IsFew n self.old → IsClean depth self.new
            → IsClean depth self.old }
        ensures one { (r : Reading) → IsClean r.depth self.new → IsLight self.old
            → TakesOne r self.old self.new update.now }
    {
        let size = update.delta.unsigned_abs();
        // A product, since a choice takes one instruction more.
        let second = size.wrapping_mul(u64::from(number_of(update.side)));
        self.count = self.count.wrapping_add(1);
        self.total = self.total.wrapping_add(size);
        self.second = self.second.wrapping_add(second);
        self.items |= update.item;
        self.sizes |= size.wrapping_sub(1);
    }

    /// Whether each record is legal after those before it, by a test that asks both sides together
    /// to be light as one.
    pub(crate) fn is_clean(&self, depth: Depth) -> bool
        ensures { IsTrue result → IsClean depth self.now }
    {
        self.items < 1 << depth.get() && self.sizes <= MOST_WEIGHT && self.total <= MOST_WEIGHT
    }
}
