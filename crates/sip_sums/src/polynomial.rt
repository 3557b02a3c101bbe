//! Round polynomials.
ghost use Rattle.std.specs.Prelude.{◌≡◌};
ghost use Rattle.sip_sums.specs.AcceptsSum.{sum_of_ends, value_at};
ghost use Rattle.sip_sums.specs.Checking.{zero_polynomial};
ghost use Rattle.sip_sums.specs.Polynomials.{coefficients_of};

use sip_field::Field;

/// A round polynomial, `c0 + c1·x + c2·x²`.
#[derive(Clone, Copy, Debug, PartialEq, Eq)]
pub struct Poly<F> {
    /// Its value at 0.
    pub c0: F,
    /// The coefficient of `x`.
    pub c1: F,
    /// The coefficient of `x²`.
    pub c2: F,
}

impl<F: Field> Poly<F> {
    // The polynomial that is 0 everywhere.
    pub(crate) fn zero() -> Poly<F>
        ensures { coefficients_of F.number result ≡ zero_polynomial }
    {
        let zero = F::of(0);
        Poly {
            c0: zero,
            c1: zero,
            c2: zero,
        }
    }

    /// Its value at `x`, by Horner's rule. 2 `times`.
    #[tactic(auto, using(crate::proofs::RoundPolynomials::value_is))]
    pub fn value_at(self, x: F) -> F
        ensures { F.number result
            ≡ value_at F.MODULUS (coefficients_of F.number self) (F.number x) }
    {
        let slope = self.c1.plus(self.c2.times(x));
        self.c0.plus(slope.times(x))
    }

    /// The sum of its values at 0 and at 1. No `times`.
    #[tactic(auto, using(crate::proofs::RoundPolynomials::ends_are))]
    pub fn sum_of_ends(self) -> F
        ensures { F.number result ≡ sum_of_ends F.MODULUS (coefficients_of F.number self) }
    {
        self.c0.plus(self.c0).plus(self.c1).plus(self.c2)
    }
}
