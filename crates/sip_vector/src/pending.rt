//! Additions to a vector that are not merged yet.

ghost use Rattle.std.specs.Prelude.{◌≡◌, ◌==◌, ◌^◌, ◌<◌, ◌≤◌, [], filter, nat_abs, length, IfOk};
ghost use Rattle.std.specs.Prelude.{OnOk, OnErr};
ghost use Rattle.std.specs.List.Sorted.{IsPermutation};
ghost use Rattle.sip_vector.specs.Answers.{is_within};
ghost use Rattle.sip_vector.specs.Limits.{most_depth};
ghost use Rattle.sip_vector.specs.Streams.{most_weight};
ghost use Rattle.sip_vector.specs.inside.Gathered.{abs_sum, sum_at, IsAdded, IsBare};
ghost use Rattle.sip_vector.specs.inside.Waits.{NeverFall};

use crate::finding::{next_of, sum_of};
use crate::waiting::{Waiting, wait};
use sip_field::OutOfMemory;
use std::alloc::Global;
use std::marker::Model;

/// Additions in the order in which they came or, once they were sorted and until one more comes, in
/// that of their indices: then one is found by halving. In the costs p is how many they are.
#[derive(Drop)]
pub(crate) struct Pending {
    additions: Vec<Waiting>,
    is_sorted: bool,
}

impl Model for Pending {
    ghost use Rattle.std.specs.Prelude.{◌≡◌, true};
    ghost use Rattle.sip_vector.specs.inside.Waits.{Additions, NeverFall};

    ghost Value = { Additions };

    ghost view = { λ p. record { items = p.additions.items } };

    ghost invariant = { λ p. p.is_sorted ≡ true → NeverFall p.additions.items };
}

impl Pending {
    /// None.
    pub(crate) fn new(alloc: Global) -> Pending
        ensures { result.items ≡ [] }
    {
        Pending {
            additions: Vec::new(alloc),
            is_sorted: false,
        }
    }

    /// The same once more.
    pub(crate) fn copy(&self, alloc: Global) -> Result<Pending, OutOfMemory>
        ensures { IfOk result (λ copy. copy.items ≡ self.now.items) }
    {
        let mut additions = Vec::new(alloc);
        additions.extend_from_slice(&self.additions)?;
        Ok(Pending {
            additions,
            is_sorted: false,
        })
    }

    /// How many they are.
    pub(crate) fn len(&self) -> usize
        ensures { result ≡ length self.now.items }
    {
        self.additions.len()
    }

    /// Whether there is none.
    pub(crate) fn is_empty(&self) -> bool
        ensures { result ≡ (length self.now.items == 0) }
    {
        self.additions.is_empty()
    }

    /// They, as they lie.
    pub(crate) fn as_slice(&self) -> &[Waiting]
        ensures { result.now ≡ self.now.items }
    {
        &self.additions
    }

    /// One more, a large one as several. Want of memory leaves those before as they were.
    pub(crate) fn wait(&mut self, index: u64, delta: i64) -> Result<(), OutOfMemory>
        requires within { index < 2 ^ most_depth }
        requires light { nat_abs delta ≤ most_weight }
        ensures ok { OnOk result (IsAdded index delta self.old.items self.new.items) }
        ensures err { OnErr result (self.new.items ≡ self.old.items) }
    {
        self.is_sorted = false;
        wait(&mut self.additions, index, delta)
    }

    /// Sorts them where they lie: O(p log p), without memory.
    pub(crate) fn sort(&mut self)
        ensures permutation { IsPermutation self.old.items self.new.items }
        ensures sorted { NeverFall self.new.items }
    {
        self.additions
            .sort_unstable_by_key(|waiting| waiting.index());
        self.is_sorted = true;
    }

    /// Lets all go, and keeps their room.
    pub(crate) fn clear(&mut self)
        ensures { self.new.items ≡ [] }
    {
        self.additions.clear();
    }

    /// What they add at an index. O(p); where they are sorted O(log p) and as many steps as they
    /// add there.
    pub(crate) fn sum_at(&self, index: u64) -> i64
        requires { abs_sum self.now.items ≤ most_weight }
        ensures { result ≡ sum_at self.now.items index }
    {
        if self.is_sorted {
            sum_of(run_at(&self.additions, index), index)
        } else {
            sum_of(&self.additions, index)
        }
    }

    /// The lowest of their indices from `from` on, or `end` where that is lower. O(p), and O(log p)
    /// where they are sorted.
    pub(crate) fn next(&self, from: u64, end: u64) -> u64
        requires { from ≤ end }
        ensures from { from ≤ result }
        ensures end { result ≤ end }
        ensures bare { IsBare self.now.items from result }
    {
        if self.is_sorted {
            next_of_sorted(&self.additions, from, end)
        } else {
            next_of(&self.additions, from, end)
        }
    }
}

// Those of sorted additions that are at an index.
fn run_at(additions: &[Waiting], index: u64) -> &[Waiting]
    ensures { NeverFall additions.now
        → result.now ≡ filter (λ e. is_within index index e.index) additions.now }
{
    let to = additions.partition_point(|waiting| waiting.index() <= index);
    let below = &additions[..to];
    let from = below.partition_point(|waiting| waiting.index() < index);
    &below[from..]
}

// The lowest index of sorted additions from `from` on, or `end` where that is lower.
fn next_of_sorted(additions: &[Waiting], from: u64, end: u64) -> u64
    requires order { from ≤ end }
    requires sorted { NeverFall additions.now }
    ensures from { from ≤ result }
    ensures end { result ≤ end }
    ensures bare { IsBare additions.now from result }
{
    let at = additions.partition_point(|waiting| waiting.index() < from);
    match additions.get(at) {
        Some(waiting) if waiting.index() < end => waiting.index(),
        _ => end,
    }
}
