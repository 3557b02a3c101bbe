//! Values of polynomials.
ghost use Rattle.std.specs.Prelude.{◌≡◌, ◌%◌, map};
ghost use Rattle.sip_field.specs.Polynomial.{polynomial};

use crate::arithmetic::Field;

/// The value at `x` of the polynomial with these coefficients, the constant one first. It is 0
/// where there is none.
///
/// Horner's rule: a product and a sum for each coefficient.
pub fn horner<F: Field>(coefficients: &[F], x: F) -> F
    ensures { F.number result ≡ polynomial (F.number x)
        (map F.number coefficients.now) % F.MODULUS }
{
    let mut value = F::of(0);
    for &coefficient in coefficients.iter().rev() {
        value = value.times(x).plus(coefficient);
    }
    value
}
