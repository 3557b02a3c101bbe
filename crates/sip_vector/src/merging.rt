//! Two lists of entries become one.

ghost use Rattle.std.specs.Prelude.{◌≡◌, ℕ, ◌+◌, ◌<◌, ◌≤◌, pos, [], map, All, MatchOption, IfOk};
ghost use Rattle.std.specs.Prelude.{OnOk};
ghost use Rattle.std.specs.List.Sorted.{IsPermutation};
ghost use Rattle.sip_vector.specs.Sparse.{IsSparse};
ghost use Rattle.sip_vector.specs.inside.Gathered.{as_pair, abs_sum, with_last, IsRising, IsTaken};
ghost use Rattle.sip_vector.specs.inside.Gathered.{IsMerged};
ghost use Rattle.sip_vector.specs.Streams.{most_weight};

use crate::Entry;
use crate::pending::Pending;
use crate::waiting::Waiting;
use sip_field::OutOfMemory;
use std::alloc::Global;

// The entry with the lower index at the front of the two lists, and the lists without it.
fn take_lower<'a>(
    list: &'a [Entry],
    added: &'a [Waiting],
) -> Option<(Entry, &'a [Entry], &'a [Waiting])>
    ensures { MatchOption result ((list.now ≡ []) × (added.now ≡ []))
        (λ r. IsTaken list.now added.now r.0 r.1.now r.2.now) }
{
    match (list, added) {
        ([], []) => None,
        ([first, rest @ ..], []) => Some((*first, rest, added)),
        ([], [first, rest @ ..]) => Some((first.entry(), list, rest)),
        ([first, ..], [other, ..]) => {
            let other = other.entry();
            // Which list is next is as good as random: a branch would be guessed wrongly for every
            // other entry.
            let is_listed = first.index <= other.index;
            let entry = if is_listed { *first } else { other };
            let count = usize::from(is_listed);
            Some((entry, &list[count..], &added[1 - count..]))
        }
    }
}

// Puts an entry at the end, unless it is 0.
pub(crate) fn put(out: &mut Vec<Entry>, entry: Entry) -> Result<(), OutOfMemory>
    ensures { OnOk result (out.new.items ≡ with_last out.old.items entry) }
{
    if entry.value != 0 {
        out.push(entry)?;
    }
    Ok(())
}

// The sums at each index of two rising lists, without those that are 0.
pub(crate) fn merged(
    alloc: Global,
    list: &[Entry],
    added: &[Waiting],
) -> Result<Vec<Entry>, OutOfMemory>
    requires { abs_sum list.now + abs_sum added.now ≤ most_weight }
    ensures merged { IfOk result (λ out. (n : ℕ) → 0 < n → IsRising 0 n list.now
        → IsRising 0 n added.now → IsMerged n list.now added.now out.items) }
    ensures light { IfOk result (λ out. abs_sum out.items
        ≤ abs_sum list.now + abs_sum added.now) }
{
    let mut out = Vec::with_capacity(alloc, list.len() + added.len())?;
    let mut list = list;
    let mut added = added;
    let mut last = Entry { index: 0, value: 0 };
    while let Some((entry, list_left, added_left)) = take_lower(list, added) {
        list = list_left;
        added = added_left;
        if entry.index == last.index {
            last.value += entry.value;
        } else {
            put(&mut out, last)?;
            last = entry;
        }
    }
    put(&mut out, last)?;
    Ok(out)
}

// The list once what is pending is merged into it. Whatever comes of it, what is pending is sorted
// then, and nothing else.
pub(crate) fn settled(
    alloc: Global,
    list: &[Entry],
    pending: &mut Pending,
) -> Result<Vec<Entry>, OutOfMemory>
    requires { abs_sum list.now + abs_sum pending.old.items ≤ most_weight }
    ensures permutation { IsPermutation pending.old.items pending.new.items }
    ensures merged { IfOk result (λ out. (n : ℕ) → 0 < n
        → IsSparse (pos 0) 0 n (map as_pair list.now) → All (λ e. e.index < n) pending.old.items
        → IsMerged n list.now pending.old.items out.items) }
    ensures light { IfOk result (λ out. abs_sum out.items
        ≤ abs_sum list.now + abs_sum pending.old.items) }
{
    pending.sort();
    merged(alloc, list, pending.as_slice())
}
