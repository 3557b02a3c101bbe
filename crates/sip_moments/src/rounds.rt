//! The polynomial of a round, from a folded list.
//!
//! With S_j the sum of `u^(k-j)·w^j` over the pairs (u, w) of neighbours, coefficient m is C(k, m)
//! times the m-th difference of S_0, S_1, .., S_k. An entry whose neighbour is 0 counts in S_0 or
//! in S_k alone, and these two add up to the sum of the powers of the whole list, which both ends
//! know: so S_k wants no products.
ghost use Rattle.std.specs.Prelude.{◌≡◌, ℕ, List, ◌+◌, ◌-◌, ◌*◌, ◌%◌, ◌^◌, ◌<◌, ◌≤◌, length, map};
ghost use Rattle.std.specs.Prelude.{slice_index, slice_index_or, sum_by, All};
ghost use Rattle.std.specs.List.{range_with_len};
ghost use Rattle.sip_field.specs.Residue.{difference_mod};
ghost use Rattle.sip_sums.specs.Honest.{over_pairs};
ghost use Rattle.sip_sums.specs.Pairs.{pairs_of};
ghost use Rattle.sip_wire.specs.Table.{most_degree};
ghost use Rattle.sip_moments.specs.Honest.{binomial, of_first};
ghost use Rattle.sip_moments.specs.Powers.{mixed, AddsPair, AreDifferences, AreResidues};

use crate::powers::power;
use sip_field::Field;
use sip_sums::{Pair, next_pair};
use sip_vector::{Level, Spot};

/// Fills a slice with the coefficients of the round polynomial of a folded list, whose entries'
/// powers add up to `expected`.
///
/// O(m) for m entries that are not 0, without memory. At degree k it takes 3(k - 1) `times` for
/// each pair of neighbours that are not 0, at most 4 for an entry at an even place whose neighbour
/// is 0, and k + 1.
pub(crate) fn fill_polynomial<F: Field>(poly: &mut [F], degree: u8, level: &Level<F>, expected: F)
    requires some { 1 ≤ degree }
    requires degree { degree ≤ most_degree }
    requires coefficients { length poly.old ≡ degree + 1 }
    requires left { 2 ≤ length level.now }
    requires sum { F.number expected ≡ sum_by (λ x. x ^ degree) level.now % F.MODULUS }
    ensures { map F.number poly.new
        ≡ map (λ m. over_pairs (of_first F.MODULUS degree m) level.now level.now % F.MODULUS)
        (range_with_len 0 (degree + 1)) }
{
    // The proof wants the length of the list.
    let _ = level.folds_left();
    fill_sums(poly, degree, level.nonzero());
    let last = usize::from(degree);
    poly[last] = expected.minus(poly[0]);
    take_differences(poly);
    weigh(poly, degree);
}

// Fills the slice with S_0 to S_(k-1) of these spots.
fn fill_sums<F: Field>(sums: &mut [F], degree: u8, spots: &[Spot<F>])
    requires some { 1 ≤ degree }
    requires degree { degree ≤ most_degree }
    requires places { length sums.old ≡ degree + 1 }
    ensures same { length sums.new ≡ length sums.old }
    ensures sums { AreResidues F.MODULUS degree
        (λ j. sum_by (mixed degree j) (pairs_of F.number spots.now)) (map F.number sums.new) }
{
    fill_zeros(sums);
    let mut rest = spots;
    while let Some((pair, behind)) = next_pair(rest) {
        add_pair(sums, degree, pair);
        rest = behind;
    }
}

// Fills the slice with zeros.
fn fill_zeros<F: Field>(sums: &mut [F])
    ensures same { length sums.new ≡ length sums.old }
    ensures zeros { AreResidues F.MODULUS (length sums.old) (λ j. 0) (map F.number sums.new) }
{
    let zero = F::of(0);
    for place in 0..sums.len() {
        sums[place] = zero;
    }
}

// Adds what a pair counts in S_0 to S_(k-1).
fn add_pair<F: Field>(sums: &mut [F], degree: u8, pair: Pair<F>)
    requires some { 1 ≤ degree }
    requires degree { degree ≤ most_degree }
    requires places { length sums.old ≡ degree + 1 }
    ensures same { length sums.new ≡ length sums.old }
    ensures sums { AddsPair F.number F.MODULUS degree pair sums.old sums.new }
{
    if pair.right.number() == 0 {
        sums[0] = sums[0].plus(power(pair.left, degree));
    } else if pair.left.number() != 0 {
        add_both(sums, degree, pair);
    }
}

// The same where neither entry is 0.
fn add_both<F: Field>(sums: &mut [F], degree: u8, pair: Pair<F>)
    requires some { 1 ≤ degree }
    requires degree { degree ≤ most_degree }
    requires places { length sums.old ≡ degree + 1 }
    ensures same { length sums.new ≡ length sums.old }
    ensures sums { AddsPair F.number F.MODULUS degree pair sums.old sums.new }
{
    let degree = usize::from(degree);
    let left = powers_of(pair.left, degree);
    sums[0] = sums[0].plus(F::of_number(left[degree]));
    let mut right = pair.right;
    for place in 1..degree {
        let product = F::of_number(left[degree - place]).times(right);
        sums[place] = sums[place].plus(product);
        right = right.times(pair.right);
    }
}

// The first powers of `x`, to this degree, as numbers: power i at place i, from 1 on.
fn powers_of<F: Field>(x: F, degree: usize) -> [u64; 9]
    requires { degree ≤ most_degree }
    ensures below { All (λ y. y < F.MODULUS) result }
    ensures powers { (i : ℕ) → 1 ≤ i → i ≤ degree
        → slice_index result i ≡ (F.number x ^ i) % F.MODULUS }
{
    let mut powers = [x.number(); 9];
    let mut power = x;
    for place in 2..degree + 1 {
        power = power.times(x);
        powers[place] = power.number();
    }
    powers
}

// Puts the m-th difference of all numbers to the place m.
fn take_differences<F: Field>(sums: &mut [F])
    ensures same { length sums.new ≡ length sums.old }
    ensures differences { (table : ℕ → ℕ → ℕ) → AreDifferences F.MODULUS (length sums.old) table
        → AreResidues F.MODULUS (length sums.old) (table 0) (map F.number sums.old)
        → AreResidues F.MODULUS (length sums.old) (λ m. table m m) (map F.number sums.new) }
{
    for row in 1..sums.len() {
        take_row(sums, row);
    }
}

// Each number from this place on becomes its difference to the one before it.
fn take_row<F: Field>(sums: &mut [F], row: usize)
    requires some { 1 ≤ row }
    requires within { row < length sums.old }
    ensures same { length sums.new ≡ length sums.old }
    ensures kept { (j : ℕ) → j < row
        → slice_index_or (map F.number sums.new) j 0 ≡ slice_index_or (map F.number sums.old) j 0 }
    ensures differences { (j : ℕ) → row ≤ j → j < length sums.old
        → slice_index_or (map F.number sums.new) j 0 ≡ difference_mod F.MODULUS
        (slice_index_or (map F.number sums.old) j 0)
        (slice_index_or (map F.number sums.old) (j - 1) 0) }
{
    let mut before = sums[row - 1];
    for place in row..sums.len() {
        let here = sums[place];
        sums[place] = here.minus(before);
        before = here;
    }
}

// Each number is taken as often as there are sets of so many among the degree. Of the sets of one
// more there are (degree - place) / (place + 1) times as many.
fn weigh<F: Field>(sums: &mut [F], degree: u8)
    requires degree { degree ≤ most_degree }
    requires places { length sums.old ≡ degree + 1 }
    ensures same { length sums.new ≡ length sums.old }
    ensures weighed { AreResidues F.MODULUS (degree + 1)
        (λ m. binomial degree m * slice_index_or (map F.number sums.old) m 0)
        (map F.number sums.new) }
{
    let mut sets: u64 = 1;
    for place in 0..degree + 1 {
        let at = usize::from(place);
        sums[at] = F::of(sets).times(sums[at]);
        sets = sets * u64::from(degree - place) / (u64::from(place) + 1);
    }
}
