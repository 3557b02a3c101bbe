//! The moment itself, from the vector's entries that are not 0.
ghost use Rattle.std.specs.Prelude.{◌≡◌, ◌^◌, ◌≤◌, nat_abs, IfOk};
ghost use Rattle.sip_vector.specs.inside.Gathered.{abs_sum};
ghost use Rattle.sip_wire.specs.Table.{most_claim};
ghost use Rattle.sip_moments.specs.Moments.{moment};
ghost use Rattle.sip_moments.specs.Powers.{powers_of};

use sip_field::OutOfMemory;
use sip_vector::{Entry, Vector};
use std::alloc::Global;

/// The moment of a vector's numbers. O(m); where additions are pending they are sorted and merged
/// in a copy.
pub(crate) fn claim_of(alloc: Global, vector: &Vector, degree: u8) -> Result<i64, OutOfMemory>
    requires some { 1 ≤ degree }
    requires light { vector.now.weight ^ degree ≤ most_claim }
    ensures moment { IfOk result (λ claim. claim ≡ moment degree vector.now.numbers) }
    ensures fits { IfOk result (λ claim. nat_abs claim ≤ most_claim) }
{
    // The proof wants the weight, which bounds the sum.
    let _ = vector.weight();
    if let Some(entries) = vector.entries() {
        return Ok(sum_of_powers(entries, degree));
    }
    let entries = vector.entries_with_pending(alloc)?;
    Ok(sum_of_powers(&entries, degree))
}

// The sum of the powers of the values.
fn sum_of_powers(entries: &[Entry], degree: u8) -> i64
    requires some { 1 ≤ degree }
    requires light { abs_sum entries.now ^ degree ≤ most_claim }
    ensures sum { result ≡ powers_of degree entries.now }
    ensures fits { nat_abs result ≤ most_claim }
{
    let mut sum = 0;
    for entry in entries {
        sum += entry.value.pow(u32::from(degree));
    }
    sum
}
