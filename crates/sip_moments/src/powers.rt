//! Powers of field values, and what a check and a prover make of them.
ghost use Rattle.std.specs.Prelude.{◌≡◌, ◌%◌, ◌^◌, ◌<◌, length, map};
ghost use Rattle.sip_counts.specs.Rounds.{sum_of_ends};

use sip_field::Field;

/// `x` to this power, by squares of its halves: at most two `times` for each bit of the degree. It
/// calls itself down to the square alone, since a call more takes as long as a product.
pub(crate) fn power<F: Field>(x: F, degree: u8) -> F
    ensures { F.number result ≡ (F.number x ^ degree) % F.MODULUS }
{
    if degree == 0 {
        F::of(1)
    } else if degree == 1 {
        x
    } else if degree == 2 {
        x.times(x)
    } else {
        let half = power(x, degree / 2);
        let square = half.times(half);
        if degree % 2 == 0 {
            square
        } else {
            square.times(x)
        }
    }
}

/// The sum of a polynomial's values at 0 and at 1, from its coefficients. No `times`.
pub(crate) fn sum_of_ends<F: Field>(poly: &[F]) -> F
    requires { 0 < length poly.now }
    ensures { F.number result ≡ sum_of_ends F.MODULUS (map F.number poly.now) }
{
    let mut sum = poly[0];
    for coefficient in poly {
        sum = sum.plus(*coefficient);
    }
    sum
}
