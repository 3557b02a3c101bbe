//! Round polynomials of folded lists, as sums over the pairs of neighbours that are not both 0.
ghost use Rattle.std.specs.Prelude.{ℕ, List, ◌≡◌, ◌+◌, ◌*◌, ◌^◌, ◌<◌, ◌≤◌, [], length, map};
ghost use Rattle.std.specs.Prelude.{MatchOption};
ghost use Rattle.sip_vector.specs.Levels.{index_and_residue};
ghost use Rattle.sip_sums.specs.Checking.{zero_polynomial};
ghost use Rattle.sip_sums.specs.Pairs.{alone, neighbours_of, pairs_of, pair_at, pair_in};
ghost use Rattle.sip_sums.specs.Pairs.{polynomial_over, summed, with_product, IsNext, Rises};
ghost use Rattle.sip_sums.specs.Polynomials.{coefficients_of};

use crate::Poly;
use sip_field::Field;
use sip_mle::IntervalFold;
use sip_vector::{Level, Spot};

/// A pair of neighbours of a list.
#[derive(Clone, Copy)]
pub struct Pair<F> {
    /// The index of the pair in the folded list.
    pub index: u64,
    /// The entry at `2 * index`.
    pub left: F,
    /// The entry after it.
    pub right: F,
}

/// The round polynomial of a list with itself. O(m) for m entries that are not 0, three `times` a
/// pair.
pub(crate) fn polynomial_of_squares<F: Field>(level: &Level<F>) -> Poly<F>
    requires { 2 ≤ length level.now }
    ensures { coefficients_of F.number result ≡ polynomial_over F.MODULUS level.now level.now }
{
    // The proof wants the length of the list.
    let _ = level.folds_left();
    squares(level.nonzero())
}

/// The round polynomial of two lists. O(m) for m entries of both that are not 0, four `times` for a
/// pair in both.
pub(crate) fn polynomial_of_products<F: Field>(first: &Level<F>, second: &Level<F>) -> Poly<F>
    requires some { 2 ≤ length first.now }
    requires same { length second.now ≡ length first.now }
    ensures { coefficients_of F.number result ≡ polynomial_over F.MODULUS first.now second.now }
{
    // The proof wants the length of the lists.
    let _ = first.folds_left();
    products(first.nonzero(), second.nonzero())
}

/// The round polynomial of a list and an interval. O(m) for m entries of the list that are not 0,
/// four `times` for the pairs at the interval's ends.
pub(crate) fn polynomial_within<F: Field>(level: &Level<F>, interval: &IntervalFold<F>) -> Poly<F>
    requires some { 2 ≤ length level.now }
    requires same { length interval.now ≡ length level.now }
    ensures { coefficients_of F.number result ≡ polynomial_over F.MODULUS level.now interval.now }
{
    // The proof wants the length of the lists.
    let _ = level.folds_left();
    within(level.nonzero(), interval)
}

// The sum over the pairs of these spots of their lines' squares.
fn squares<F: Field>(spots: &[Spot<F>]) -> Poly<F>
    ensures { coefficients_of F.number result ≡ summed F.MODULUS (λ s. s) zero_polynomial
        (pairs_of F.number spots.now) }
{
    let mut sums = Poly::zero();
    let mut rest = spots;
    while let Some((pair, behind)) = next_pair(rest) {
        sums = with_square(sums, pair);
        rest = behind;
    }
    sums
}

// The sum of the products of the lines of those pairs that both lists have.
fn products<F: Field>(first: &[Spot<F>], second: &[Spot<F>]) -> Poly<F>
    ensures { (n : ℕ) → Rises 0 n (pairs_of F.number first.now)
        → Rises 0 n (pairs_of F.number second.now)
        → coefficients_of F.number result ≡ summed F.MODULUS
        (λ s. pair_at (pairs_of F.number second.now) s.index) zero_polynomial
        (pairs_of F.number first.now) }
{
    let mut sums = Poly::zero();
    let mut first = first;
    let mut second = second;
    while let (Some((one, ones)), Some((other, others))) = (next_pair(first), next_pair(second)) {
        if one.index < other.index {
            first = ones;
        } else if other.index < one.index {
            second = others;
        } else {
            sums = with_product(sums, one, other);
            first = ones;
            second = others;
        }
    }
    sums
}

// The sum of the products of the lines of these pairs with those of an interval.
fn within<F: Field>(spots: &[Spot<F>], interval: &IntervalFold<F>) -> Poly<F>
    requires { (n : ℕ) × (n ≤ 2 ^ 63) × (length interval.now ≡ 2 * n)
        × Rises 0 n (pairs_of F.number spots.now) }
    ensures { coefficients_of F.number result ≡ summed F.MODULUS
        (λ s. pair_in interval.now s.index) zero_polynomial (pairs_of F.number spots.now) }
{
    let mut sums = Poly::zero();
    let mut rest = spots;
    while let Some((pair, behind)) = next_pair(rest) {
        sums = with_weighed(sums, pair, pair_of(interval, pair.index));
        rest = behind;
    }
    sums
}

// The pair of an interval at this index.
fn pair_of<F: Field>(interval: &IntervalFold<F>, index: u64) -> Pair<F>
    requires below { 2 * index + 1 < length interval.now }
    requires fits { 2 * index + 1 < 2 ^ 64 }
    ensures { neighbours_of F.number result ≡ pair_in interval.now index }
{
    Pair {
        index,
        left: interval.at(2 * index),
        right: interval.at(2 * index + 1),
    }
}

/// The first pair of neighbours among the spots of a list, whose indices rise, and the spots behind
/// it; `None` where there are none. The entry of a pair that has no spot is 0. O(1).
pub fn next_pair<F: Field>(spots: &[Spot<F>]) -> Option<(Pair<F>, &[Spot<F>])>
    ensures { MatchOption result (pairs_of F.number spots.now ≡ [])
        (λ r. IsNext F.number spots.now r.0 r.1.now) }
{
    match spots {
        [] => None,
        [first, second, behind @ ..] if first.index / 2 == second.index / 2 => {
            let pair = Pair {
                index: first.index / 2,
                left: first.value,
                right: second.value,
            };
            Some((pair, behind))
        }
        [first, behind @ ..] => Some((alone(*first), behind)),
    }
}

// The pair of a spot whose neighbour is 0.
fn alone<F: Field>(spot: Spot<F>) -> Pair<F>
    ensures { neighbours_of F.number result ≡ alone (index_and_residue F.number spot) }
{
    let zero = F::of(0);
    let (left, right) = if spot.index % 2 == 0 {
        (spot.value, zero)
    } else {
        (zero, spot.value)
    };
    Pair {
        index: spot.index / 2,
        left,
        right,
    }
}

// Adds the product of the line through a pair with that of an interval's pair, which is 1
// throughout but at the interval's ends.
fn with_weighed<F: Field>(sums: Poly<F>, pair: Pair<F>, weights: Pair<F>) -> Poly<F>
    ensures { coefficients_of F.number result ≡ with_product F.MODULUS
        (coefficients_of F.number sums) (neighbours_of F.number pair)
        (neighbours_of F.number weights) }
{
    if weights.left.number() == 1 && weights.right.number() == 1 {
        with_line(sums, pair, weights)
    } else {
        with_product(sums, pair, weights)
    }
}

// The same where the interval's line is 1.
#[tactic(auto, using(sip_field::proofs::Residues::residues))]
fn with_line<F: Field>(sums: Poly<F>, pair: Pair<F>, weights: Pair<F>) -> Poly<F>
    requires left { F.number weights.left ≡ 1 }
    requires right { F.number weights.right ≡ 1 }
    ensures { coefficients_of F.number result ≡ with_product F.MODULUS
        (coefficients_of F.number sums) (neighbours_of F.number pair)
        (neighbours_of F.number weights) }
{
    Poly {
        c0: sums.c0.plus(pair.left),
        c1: sums.c1.plus(pair.right.minus(pair.left)),
        c2: sums.c2,
    }
}

// Adds the product of the lines through two pairs.
#[tactic(auto, using(sip_field::proofs::Residues::residues))]
fn with_product<F: Field>(sums: Poly<F>, one: Pair<F>, other: Pair<F>) -> Poly<F>
    ensures { coefficients_of F.number result ≡ with_product F.MODULUS
        (coefficients_of F.number sums) (neighbours_of F.number one)
        (neighbours_of F.number other) }
{
    let slope = one.right.minus(one.left);
    let other_slope = other.right.minus(other.left);
    let cross = one.left.times(other_slope).plus(other.left.times(slope));
    Poly {
        c0: sums.c0.plus(one.left.times(other.left)),
        c1: sums.c1.plus(cross),
        c2: sums.c2.plus(slope.times(other_slope)),
    }
}

// Adds the square of the line through a pair.
#[tactic(auto, using(sip_field::proofs::Residues::residues))]
fn with_square<F: Field>(sums: Poly<F>, pair: Pair<F>) -> Poly<F>
    ensures { coefficients_of F.number result ≡ with_product F.MODULUS
        (coefficients_of F.number sums) (neighbours_of F.number pair)
        (neighbours_of F.number pair) }
{
    let slope = pair.right.minus(pair.left);
    let cross = pair.left.times(slope);
    Poly {
        c0: sums.c0.plus(pair.left.times(pair.left)),
        c1: sums.c1.plus(cross.plus(cross)),
        c2: sums.c2.plus(slope.times(slope)),
    }
}
