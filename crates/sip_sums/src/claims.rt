//! The sums themselves, from the vectors' entries that are not 0.
ghost use Rattle.std.specs.Prelude.{ℕ, ◌≡◌, ◌^◌, ◌<◌, ◌≤◌, [], ◌∷◌, nat_abs, MatchOption, IfOk};
ghost use Rattle.sip_vector.specs.Extensions.{ones};
ghost use Rattle.sip_vector.specs.Streams.{most_weight};
ghost use Rattle.sip_vector.specs.Vectors.{nonzero};
ghost use Rattle.sip_vector.specs.inside.Gathered.{abs_sum};
ghost use Rattle.sip_wire.specs.Table.{most_claim};
ghost use Rattle.sip_sums.specs.AcceptsSum.{total};
ghost use Rattle.sip_sums.specs.Claims.{squares_sum, products_sum, range_sum, value_within};
ghost use Rattle.sip_sums.specs.Claims.{RisesFrom};

use sip_field::OutOfMemory;
use sip_vector::{Entry, Vector};
use std::alloc::Global;

/// The sum of the squares of a vector's numbers. O(m); where additions are pending they are sorted
/// and merged in a copy.
pub(crate) fn claim_of_squares(alloc: Global, vector: &Vector) -> Result<i64, OutOfMemory>
    ensures total { IfOk result (λ claim. claim ≡ total vector.now.numbers vector.now.numbers) }
    ensures fits { IfOk result (λ claim. nat_abs claim ≤ most_claim) }
{
    // The proof wants the weight, which bounds the sum.
    let _ = vector.weight();
    if let Some(entries) = vector.entries() {
        return Ok(sum_of_squares(entries));
    }
    let entries = vector.entries_with_pending(alloc)?;
    Ok(sum_of_squares(&entries))
}

/// The sum of the products of two vectors' numbers. O(m) for the entries of both, as before where
/// additions are pending.
pub(crate) fn claim_of_products(
    alloc: Global,
    first: &Vector,
    second: &Vector,
) -> Result<i64, OutOfMemory>
    requires { first.now.depth ≡ second.now.depth }
    ensures total { IfOk result (λ claim. claim ≡ total first.now.numbers second.now.numbers) }
    ensures fits { IfOk result (λ claim. nat_abs claim ≤ most_claim) }
{
    // The proof wants the weight, which bounds the sum, and the length of the numbers.
    let _ = first.weight();
    let _ = first.depth();
    let _ = second.depth();
    if let Some(entries) = first.entries() {
        return claim_with(alloc, entries, second);
    }
    let entries = first.entries_with_pending(alloc)?;
    claim_with(alloc, &entries, second)
}

// The sum of the products of the numbers that have these entries with those of a vector.
fn claim_with(alloc: Global, entries: &[Entry], second: &Vector) -> Result<i64, OutOfMemory>
    requires light { abs_sum entries.now ≤ most_weight }
    requires order { RisesFrom 0 entries.now }
    ensures total { IfOk result (λ claim. claim
        ≡ products_sum (nonzero second.now.numbers) entries.now) }
    ensures fits { IfOk result (λ claim. nat_abs claim ≤ most_claim) }
{
    // The proof wants the weight, which bounds the sum.
    let _ = second.weight();
    if let Some(others) = second.entries() {
        return Ok(sum_of_products(entries, others));
    }
    let others = second.entries_with_pending(alloc)?;
    Ok(sum_of_products(entries, &others))
}

/// The sum of a vector's numbers from `lo` to `hi`. O(m), as before where additions are pending.
pub(crate) fn claim_within(
    alloc: Global,
    vector: &Vector,
    lo: u64,
    hi: u64,
) -> Result<i64, OutOfMemory>
    ensures total { IfOk result (λ claim. claim
        ≡ total vector.now.numbers (ones vector.now.depth lo hi)) }
    ensures fits { IfOk result (λ claim. nat_abs claim ≤ most_claim) }
{
    // The proof wants the weight, which bounds the sum, and the length of the numbers.
    let _ = vector.weight();
    let _ = vector.depth();
    if let Some(entries) = vector.entries() {
        return Ok(sum_within(entries, lo, hi));
    }
    let entries = vector.entries_with_pending(alloc)?;
    Ok(sum_within(&entries, lo, hi))
}

// The sum of the squares of the values.
fn sum_of_squares(entries: &[Entry]) -> i64
    requires { abs_sum entries.now ≤ most_weight }
    ensures sum { result ≡ squares_sum entries.now }
    ensures fits { nat_abs result ≤ most_claim }
{
    let mut sum = 0;
    for entry in entries {
        sum += entry.value * entry.value;
    }
    sum
}

// The sum of the products of the values that two rising lists have at the same indices.
fn sum_of_products(first: &[Entry], second: &[Entry]) -> i64
    requires first { abs_sum first.now ≤ most_weight }
    requires second { abs_sum second.now ≤ most_weight }
    requires order { RisesFrom 0 first.now }
    requires order_too { RisesFrom 0 second.now }
    ensures sum { result ≡ products_sum second.now first.now }
    ensures fits { nat_abs result ≤ most_claim }
{
    let mut sum = 0;
    let mut first = first;
    let mut second = second;
    while let (Some((one, ones)), Some((other, others))) = (front(first), front(second)) {
        if one.index < other.index {
            first = ones;
        } else if other.index < one.index {
            second = others;
        } else {
            sum += one.value * other.value;
            first = ones;
            second = others;
        }
    }
    sum
}

// The first entry, and those behind it.
fn front(entries: &[Entry]) -> Option<(Entry, &[Entry])>
    ensures { MatchOption result (entries.now ≡ []) (λ r. entries.now ≡ r.0 ∷ r.1.now) }
{
    match entries {
        [] => None,
        [first, behind @ ..] => Some((*first, behind)),
    }
}

// The sum of the values at the indices from `lo` to `hi`.
fn sum_within(entries: &[Entry], lo: u64, hi: u64) -> i64
    requires { abs_sum entries.now ≤ most_weight }
    ensures sum { result ≡ range_sum lo hi entries.now }
    ensures fits { nat_abs result ≤ most_weight }
{
    let mut sum = 0;
    for entry in entries {
        sum += value_within(entry, lo, hi);
    }
    sum
}

// The value of an entry from `lo` to `hi`, and else 0.
fn value_within(entry: &Entry, lo: u64, hi: u64) -> i64
    ensures { result ≡ value_within lo hi entry.now }
{
    if lo <= entry.index && entry.index <= hi {
        entry.value
    } else {
        0
    }
}
