//! One side's vector, kept by its entries that are not 0.

ghost use Rattle.std.specs.Prelude.{ℕ, ◌≡◌, ◌+◌, ◌^◌, ◌<◌, ◌≤◌, ◌↔◌, pos, ◌≤ℤ◌, nat_abs, length};
ghost use Rattle.std.specs.Prelude.{sum_by, All, slice_get, IfOk, IfSome, IsSome, OnOk, OnErr};
ghost use Rattle.std.specs.Prelude.{IsTrue, true, false};
ghost use Rattle.sip_vector.specs.Streams.{int_sum, most_weight};
ghost use Rattle.sip_vector.specs.Vectors.{contents, number_at, zero_vector, with_added, nonzero};
ghost use Rattle.sip_vector.specs.Vectors.{nonzero_within, last_of};
ghost use Rattle.sip_vector.specs.inside.Gathered.{IsListOf, IsFirstOf};

use crate::finding::{
    count_between, first_within, has_no_negative, last_between, next_in_list, value_in,
};
use crate::merging::settled;
use crate::pending::Pending;
use crate::{Depth, Entry};
use sip_field::OutOfMemory;
use std::alloc::Global;
use std::marker::Model;
use std::rc::Rc;

// As many additions may wait in any vector, which take 4 MiB. In one with a longer list as many may
// wait as the list has entries, so that a merge is paid by the additions before it.
const MOST_PENDING: usize = 1 << 19;

/// The vector that one side's updates add up to: `2^depth` numbers.
///
/// A contract sees the list of these numbers, and the weight: the sum of the absolute values of all
/// that was added. A weight is at most 2^30 - 1, so no sum over the numbers overflows.
///
/// Only the entries that are not 0 take memory, as a list that rises, and the additions that are
/// pending, in the order in which they came. Every call is right while additions are pending, and
/// quick where none is, as after `settle`. In the costs below m is the length of the list and p the
/// number of additions that are pending: none after `settle`, and else at most 2^19 or m, whichever
/// is more. An addition of more than 2^15 - 1, or of less than -(2^15 - 1), counts as one for each
/// 2^15 - 1 of it and one for what is left: the weight lets these be about 2^15 more in all. A
/// merge comes before such an addition or after it. A `settle` that was refused memory leaves what
/// is pending sorted: until the next `add`, a p that stands for one index is O(log p) and as many
/// steps as were added at that index.
#[derive(Drop)]
pub struct Vector {
    depth: Depth,
    // Whoever shares this list has it as it is for good: a merge makes a new one, and none is ever
    // written to.
    list: Rc<Vec<Entry>>,
    pending: Pending,
    total: i64,
    weight: u64,
}

impl Model for Vector {
    ghost use Rattle.std.specs.Prelude.{◌==◌, length};
    ghost use Rattle.sip_vector.specs.Vectors.{StoredVector};
    ghost use Rattle.sip_vector.specs.inside.Gathered.{gathered, IsGathered};

    ghost Value = { StoredVector };

    ghost view = { λ v. record {
      depth = v.depth;
      numbers = gathered v.depth v.list.value.items v.pending.items;
      weight = v.weight;
      is_settled = length v.pending.items == 0;
    } };

    ghost invariant = { λ v.
        IsGathered v.depth v.list.value.items v.pending.items v.total v.weight };
}

impl Vector {
    /// Nothing but zeros. It takes one small block of memory, and none for entries before the
    /// first `add`.
    pub fn new(alloc: Global, depth: Depth) -> Result<Vector, OutOfMemory>
        ensures zeros { IfOk result (λ vector. contents vector ≡ zero_vector depth) }
        ensures settled { IfOk result (λ vector. vector.is_settled ≡ true) }
    {
        Ok(Vector {
            depth,
            list: Rc::new(alloc, Vec::new(alloc))?,
            pending: Pending::new(alloc),
            total: 0,
            weight: 0,
        })
    }

    /// Adds `delta` to the entry at `index`. Want of memory leaves the vector as it was. O(log p)
    /// over many calls, for each addition that this one counts as; one call in many merges what is
    /// pending.
    pub fn add(&mut self, index: u64, delta: i64) -> Result<(), OutOfMemory>
        requires within { index < 2 ^ self.old.depth }
        requires light { self.old.weight + nat_abs delta ≤ most_weight }
        ensures ok { OnOk result (contents self.new ≡ with_added (contents self.old) index delta) }
        ensures pending { OnOk result (self.new.is_settled ≡ false) }
        ensures err { OnErr result (contents self.new ≡ contents self.old) }
    {
        if self.pending.len() >= MOST_PENDING && self.pending.len() >= self.list.len() {
            self.merge()?;
        }
        self.put(index, delta)
    }

    // Lets an addition wait.
    fn put(&mut self, index: u64, delta: i64) -> Result<(), OutOfMemory>
        requires within { index < 2 ^ self.old.depth }
        requires light { self.old.weight + nat_abs delta ≤ most_weight }
        ensures ok { OnOk result (contents self.new ≡ with_added (contents self.old) index delta) }
        ensures pending { OnOk result (self.new.is_settled ≡ false) }
        ensures err { OnErr result (self.new ≡ self.old) }
    {
        // The proof wants the bound of the depth.
        let _ = self.depth.get();
        self.pending.wait(index, delta)?;
        self.total += delta;
        self.weight += delta.unsigned_abs();
        Ok(())
    }

    /// Merges what is pending into the list of entries. The numbers stay the same, also where
    /// memory is wanted; then what was pending still is, and sorted. O(m + p log p), and memory for
    /// m + p entries. To be called at the end of a stream.
    pub fn settle(&mut self) -> Result<(), OutOfMemory>
        ensures ok { OnOk result (self.new ≡ record self.old { is_settled = true }) }
        ensures err { OnErr result (self.new ≡ self.old) }
    {
        if self.pending.is_empty() {
            return Ok(());
        }
        self.merge()?;
        self.pending = Pending::new(*self.list.allocator());
        Ok(())
    }

    // Makes a new list with what is pending, which is sorted where memory is wanted, and keeps the
    // room that it had. It is seldom called, and `add` is short without it.
    #[inline(never)]
    fn merge(&mut self) -> Result<(), OutOfMemory>
        ensures ok { OnOk result (self.new ≡ record self.old { is_settled = true }) }
        ensures err { OnErr result (self.new ≡ self.old) }
    {
        let alloc = *self.list.allocator();
        let list = settled(alloc, &self.list, &mut self.pending)?;
        self.list = Rc::new(alloc, list)?;
        self.pending.clear();
        Ok(())
    }

    /// Whether no addition is pending, as is so after a `settle` that gave `Ok` until the next
    /// `add`.
    pub fn is_settled(&self) -> bool
        ensures { result ≡ self.now.is_settled }
    {
        self.pending.is_empty()
    }

    /// The entries that are not 0, in the order of their indices; `None` exactly where additions
    /// are pending.
    pub fn entries(&self) -> Option<&[Entry]>
        ensures exact { IfSome result (λ entries. entries.now ≡ nonzero self.now.numbers) }
        ensures settled { IsSome result ↔ (self.now.is_settled ≡ true) }
    {
        self.settled_list()
    }

    /// The same as a list to keep: it stays as it is whatever becomes of the vector, and has its
    /// memory until its last owner lets it go. O(1), without memory. `OutOfMemory` only where it
    /// has 2^64 - 1 owners already.
    pub fn shared_entries(&self) -> Result<Option<Rc<Vec<Entry>>>, OutOfMemory>
        ensures exact { IfOk result (λ shared. IfSome shared (λ list. list.value.items
            ≡ nonzero self.now.numbers)) }
        ensures settled { IfOk result (λ shared. IsSome shared
            ↔ (self.now.is_settled ≡ true)) }
    {
        if self.is_settled() {
            Ok(Some(self.list.clone()?))
        } else {
            Ok(None)
        }
    }

    /// A copy of the entries that are not 0, in the order of their indices, also where additions
    /// are pending. O(m + p log p), and memory for m + p entries.
    pub fn entries_with_pending(&self, alloc: Global) -> Result<Vec<Entry>, OutOfMemory>
        ensures { IfOk result (λ list. list.items ≡ nonzero self.now.numbers) }
    {
        self.merged_list(alloc)
    }

    // The list, where nothing is pending.
    pub(crate) fn settled_list(&self) -> Option<&[Entry]>
        ensures list { IfSome result (λ list. IsListOf (contents self.now) list.now) }
        ensures settled { IsSome result ↔ (self.now.is_settled ≡ true) }
    {
        if self.is_settled() {
            Some(&self.list)
        } else {
            None
        }
    }

    // The list that `settle` would make.
    pub(crate) fn merged_list(&self, alloc: Global) -> Result<Vec<Entry>, OutOfMemory>
        ensures { IfOk result (λ list. IsListOf (contents self.now) list.items) }
    {
        let mut pending = self.pending.copy(alloc)?;
        settled(alloc, &self.list, &mut pending)
    }

    /// The depth that was given to `new`.
    pub fn depth(&self) -> Depth
        ensures same { result ≡ self.now.depth }
        ensures numbers { length self.now.numbers ≡ 2 ^ result }
    {
        self.depth
    }

    /// The entry at `index`. O(log m + p).
    pub fn get(&self, index: u64) -> i64
        requires { index < 2 ^ self.now.depth }
        ensures same { result ≡ number_at self.now.numbers index }
        ensures light { nat_abs result ≤ self.now.weight }
    {
        value_in(&self.list, index) + self.pending.sum_at(index)
    }

    /// The sum of the numbers.
    pub fn total(&self) -> i64
        ensures same { result ≡ int_sum self.now.numbers }
        ensures light { nat_abs result ≤ self.now.weight }
    {
        self.total
    }

    /// The sum of the absolute values of all that was added, at most 2^30 - 1.
    pub fn weight(&self) -> u64
        ensures same { result ≡ self.now.weight }
        ensures most { result ≤ most_weight }
        ensures light { sum_by nat_abs self.now.numbers ≤ result }
    {
        self.weight
    }

    /// Whether no number is negative. O(m) where nothing is pending, and else O(log m + p) for each
    /// index at which something was added.
    pub fn is_strict(&self) -> bool
        ensures { IsTrue result ↔ All (λ a. pos 0 ≤ℤ a) self.now.numbers }
    {
        if let Some(list) = self.settled_list() {
            return has_no_negative(list);
        }
        let items = 1u64 << self.depth().get();
        self.is_strict_to(items - 1)
    }

    // Whether no number up to `hi` is negative.
    fn is_strict_to(&self, hi: u64) -> bool
        requires { hi < 2 ^ self.now.depth }
        ensures { IsTrue result
            ↔ ((k : ℕ) → k ≤ hi → pos 0 ≤ℤ number_at self.now.numbers k) }
    {
        // The proof wants the length of the numbers and their bound.
        let _ = self.depth();
        let _ = self.weight();
        let mut at = 0;
        while let Some(entry) = self.first_nonzero(at, hi) {
            if entry.value < 0 {
                return false;
            }
            if entry.index == hi {
                return true;
            }
            at = entry.index + 1;
        }
        true
    }

    /// The first entry that is not 0 at an index from `from` to `hi`. `None` where there is none,
    /// also where `from` is above `hi`. O(log m) where nothing is pending, and else O(log m + p)
    /// for each index that is tried; without memory.
    pub fn next_entry(&self, from: u64, hi: u64) -> Option<Entry>
        requires { hi < 2 ^ self.now.depth }
        ensures { result ≡ slice_get (nonzero_within from hi self.now.numbers) 0 }
    {
        // The proof wants the length of the numbers.
        let _ = self.depth();
        if let Some(list) = self.settled_list() {
            return first_within(list, from, hi);
        }
        self.first_nonzero(from, hi)
    }

    /// How many entries from `lo` to `hi` are not 0. O(log m) where nothing is pending, and else
    /// O(log m + p) for each index that is tried; without memory.
    pub fn count_in(&self, lo: u64, hi: u64) -> u64
        requires order { lo ≤ hi }
        requires within { hi < 2 ^ self.now.depth }
        ensures { result ≡ length (nonzero_within lo hi self.now.numbers) }
    {
        if let Some(list) = self.settled_list() {
            return count_between(list, lo, hi);
        }
        self.count_by_walk(lo, hi)
    }

    // The same by a walk over the entries.
    fn count_by_walk(&self, lo: u64, hi: u64) -> u64
        requires order { lo ≤ hi }
        requires within { hi < 2 ^ self.now.depth }
        ensures { result ≡ length (nonzero_within lo hi self.now.numbers) }
    {
        // The proof wants the bound of the depth.
        let _ = self.depth().get();
        let mut count = 0;
        let mut at = lo;
        while let Some(entry) = self.next_entry(at, hi) {
            count += 1;
            if entry.index == hi {
                return count;
            }
            at = entry.index + 1;
        }
        count
    }

    /// The last entry that is not 0 at an index from `lo` to `to`. `None` exactly where there is
    /// none. O(log m) where nothing is pending, and else a walk over the entries from `lo` on, each
    /// of them by a `next_entry`; without memory.
    pub fn last_entry(&self, lo: u64, to: u64) -> Option<Entry>
        requires order { lo ≤ to }
        requires within { to < 2 ^ self.now.depth }
        ensures { result ≡ last_of (nonzero_within lo to self.now.numbers) }
    {
        if let Some(list) = self.settled_list() {
            return last_between(list, lo, to);
        }
        self.last_by_walk(lo, to)
    }

    // The same by a walk over the entries.
    fn last_by_walk(&self, lo: u64, to: u64) -> Option<Entry>
        requires order { lo ≤ to }
        requires within { to < 2 ^ self.now.depth }
        ensures { result ≡ last_of (nonzero_within lo to self.now.numbers) }
    {
        let mut last = None;
        let mut at = lo;
        while let Some(entry) = self.next_entry(at, to) {
            last = Some(entry);
            if entry.index == to {
                return last;
            }
            at = entry.index + 1;
        }
        last
    }

    // The first number that is not 0, from index to index at which something was added.
    fn first_nonzero(&self, from: u64, hi: u64) -> Option<Entry>
        requires { hi < 2 ^ self.now.depth }
        ensures { IsFirstOf self.now.numbers from hi result }
    {
        // The proof wants the invariant.
        let _ = &self.list;
        let mut at = from;
        while at <= hi {
            let index = self.next_index(at, hi);
            let value = self.get(index);
            if value != 0 {
                return Some(Entry { index, value });
            }
            if index == hi {
                return None;
            }
            at = index + 1;
        }
        None
    }

    // The lowest index from `from` on at which something was added, or `end` where that is lower.
    fn next_index(&self, from: u64, end: u64) -> u64
        requires order { from ≤ end }
        requires within { end < 2 ^ self.now.depth }
        ensures from { from ≤ result }
        ensures end { result ≤ end }
        ensures zeros { (k : ℕ) → from ≤ k → k < result
            → number_at self.now.numbers k ≡ pos 0 }
    {
        let first = next_in_list(&self.list, from, end);
        self.pending.next(from, first)
    }
}
