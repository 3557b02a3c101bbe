//! What lists of entries add up to at an index.

ghost use Rattle.std.specs.Prelude.{◌≡◌, ℕ, ◌^◌, ◌<◌, ◌≤◌, ◌↔◌, pos, ◌≤ℤ◌, map, filter, length};
ghost use Rattle.std.specs.Prelude.{All, IsTrue};
ghost use Rattle.sip_vector.specs.Answers.{is_within};
ghost use Rattle.sip_vector.specs.Sparse.{IsSparse};
ghost use Rattle.sip_vector.specs.inside.Gathered.{as_pair, abs_sum, sum_at, IsBare, IsFirstFrom};
ghost use Rattle.sip_vector.specs.inside.Gathered.{IsFirstOf, IsListOf};
ghost use Rattle.sip_vector.specs.Vectors.{SideVector, last_of};
ghost use Rattle.sip_vector.specs.Streams.{most_weight};

use crate::Entry;
use crate::waiting::Waiting;

// The first entry of a rising list at `from` or after it. O(log m).
pub(crate) fn first_from(list: &[Entry], from: u64) -> Option<Entry>
    ensures { (n : ℕ) → IsSparse (pos 0) 0 n (map as_pair list.now)
        → IsFirstFrom n list.now from result }
{
    let at = list.partition_point(|entry| entry.index < from);
    list.get(at).copied()
}

// The value of a rising list at an index, or 0. O(log m).
pub(crate) fn value_in(list: &[Entry], index: u64) -> i64
    ensures { (n : ℕ) → IsSparse (pos 0) 0 n (map as_pair list.now)
        → result ≡ sum_at list.now index }
{
    match first_from(list, index) {
        Some(entry) if entry.index == index => entry.value,
        _ => 0,
    }
}

// The index of a rising list's first entry at `from` or after it, or `end` where that is lower.
pub(crate) fn next_in_list(list: &[Entry], from: u64, end: u64) -> u64
    requires { from ≤ end }
    ensures end { result ≤ end }
    ensures bare { (n : ℕ) → IsSparse (pos 0) 0 n (map as_pair list.now)
        → (from ≤ result) × IsBare list.now from result }
{
    match first_from(list, from) {
        Some(entry) if entry.index < end => entry.index,
        _ => end,
    }
}

// What waiting entries add at an index.
pub(crate) fn sum_of(entries: &[Waiting], index: u64) -> i64
    requires { abs_sum entries.now ≤ most_weight }
    ensures { result ≡ sum_at entries.now index }
{
    let mut sum = 0;
    for waiting in entries {
        let entry = waiting.entry();
        if entry.index != index {
            continue;
        }
        sum += entry.value;
    }
    sum
}

// The lowest index of the waiting entries from `from` on, or `end` where that is lower.
pub(crate) fn next_of(entries: &[Waiting], from: u64, end: u64) -> u64
    requires { from ≤ end }
    ensures from { from ≤ result }
    ensures end { result ≤ end }
    ensures bare { IsBare entries.now from result }
{
    let mut next = end;
    for waiting in entries {
        let index = waiting.index();
        if index < from || next <= index {
            continue;
        }
        next = index;
    }
    next
}

// The entries of a rising list from `lo` to `hi`. O(log m).
pub(crate) fn between(list: &[Entry], lo: u64, hi: u64) -> &[Entry]
    ensures { (n : ℕ) → IsSparse (pos 0) 0 n (map as_pair list.now)
        → result.now ≡ filter (λ e. is_within lo hi e.index) list.now }
{
    let to = list.partition_point(|entry| entry.index <= hi);
    let below = &list[..to];
    let from = below.partition_point(|entry| entry.index < lo);
    &below[from..]
}

// How many entries of a rising list are from `lo` to `hi`. O(log m).
pub(crate) fn count_between(list: &[Entry], lo: u64, hi: u64) -> u64
    ensures { (n : ℕ) → IsSparse (pos 0) 0 n (map as_pair list.now)
        → result ≡ length (filter (λ e. is_within lo hi e.index) list.now) }
{
    between(list, lo, hi).len() as u64
}

// The last entry of a rising list from `lo` to `hi`. O(log m).
pub(crate) fn last_between(list: &[Entry], lo: u64, hi: u64) -> Option<Entry>
    ensures { (n : ℕ) → IsSparse (pos 0) 0 n (map as_pair list.now)
        → result ≡ last_of (filter (λ e. is_within lo hi e.index) list.now) }
{
    let entries = between(list, lo, hi);
    if entries.is_empty() {
        return None;
    }
    Some(entries[entries.len() - 1])
}

// The first entry of a rising list from `from` to `hi`. O(log m).
pub(crate) fn first_within(list: &[Entry], from: u64, hi: u64) -> Option<Entry>
    ensures { (vector : SideVector) → IsListOf vector list.now → hi < 2 ^ vector.depth
        → IsFirstOf vector.numbers from hi result }
{
    match first_from(list, from) {
        Some(entry) if entry.index <= hi => Some(entry),
        _ => None,
    }
}

// Whether no value is negative. O(m).
pub(crate) fn has_no_negative(list: &[Entry]) -> bool
    ensures { (vector : SideVector) → IsListOf vector list.now
        → IsTrue result ↔ All (λ a. pos 0 ≤ℤ a) vector.numbers }
{
    list.iter().all(|entry| entry.value >= 0)
}
