//! The field of 31 elements.
ghost use Rattle.std.specs.Prelude.{◌≡◌, ◌+◌, ◌-◌, ◌/◌, ◌%◌, ◌<◌, ◌≤◌};
ghost use Rattle.sip_field.specs.Moduli.{f31_modulus};
ghost use Rattle.sip_field.specs.Residue.{residue, sum_mod, difference_mod, product_mod};

use crate::arithmetic::{Field, PrimeField};

const P: u64 = 31;

/// A residue modulo 31, kept as a number from 0 to 30: a field so small that a test can try all
/// challenges.
#[derive(Clone, Copy, PartialEq, Eq, Debug)]
pub struct F31 {
    value: u64,
    ghost below: { value < f31_modulus },
}

/// The residue 0.
impl Default for F31 {
    ghost use Rattle.sip_field.specs.Elements.{f31_number};

    ghost is_default = { λ x. f31_number x ≡ 0 };

    fn default() -> F31 {
        F31 { value: 0 }
    }
}

impl Field for F31 {
    const MODULUS: u64 = P;

    const HALF: u64 = (P - 1) / 2;

    ghost use Rattle.std.proofs.Common.{refl, lit≤, eqb-true, eq-eqb};
    ghost use Rattle.sip_field.specs.LawProofs.ResidueRing.{residue_ring};
    ghost use Rattle.sip_field.specs.Elements.{f31_element, f31_number, f31_distinguishes};

    ghost MODULUS = { f31_modulus };

    ghost HALF = { (f31_modulus - 1) / 2 };

    ghost number = { f31_number };

    ghost element = { f31_element };

    fn of(x: u64) -> F31 {
        F31 { value: x % P }
    }

    fn of_number(x: u64) -> F31 {
        F31 { value: x }
    }

    fn of_signed(x: i64) -> F31 {
        F31 {
            value: x.rem_euclid(P as i64) as u64,
        }
    }

    fn loose_signed(x: i64) -> u64 {
        x.rem_euclid(P as i64) as u64
    }

    fn number(self) -> u64 {
        self.value
    }

    fn plus(self, other: F31) -> F31 {
        F31::of(self.value + other.value)
    }

    fn minus(self, other: F31) -> F31 {
        F31::of(self.value + (P - other.value))
    }

    fn times(self, other: F31) -> F31 {
        F31::of(self.value * other.value)
    }

    fn times_eighth(self, eightfold: u64) -> F31 {
        F31::of(self.value * (eightfold / 8 % P))
    }

    fn loose_times(x: u64, y: u64) -> u64 {
        (x % P) * y
    }

    fn loose_eighth(x: u64, eightfold: u64) -> u64 {
        (x % P) * (eightfold / 8 % P)
    }

    ghost odd = { refl };

    ghost at_least = { lit≤ tt };

    ghost at_most = { lit≤ tt };

    ghost half = { refl };

    ghost below = { λ x. x.below };

    ghost number_element = { λ n. refl };

    ghost distinguishes = { f31_distinguishes };

    ghost equal_is_same = { λ x y. (eqb-true _ _, eq-eqb _ _) };

    ghost ring = { residue_ring f31_modulus f31_number f31_element (lit≤ tt) (λ x. x.below)
        f31_distinguishes (λ n. refl) };
}

impl PrimeField for F31 {
    ghost use Rattle.sip_field.specs.LawProofs.Primes.{f31_prime, zero_product};
    ghost use Rattle.sip_field.specs.Elements.{f31_number};

    ghost prime = { f31_prime };

    ghost zero_product = { zero_product f31_modulus f31_number f31_prime (λ x. x.below) };
}
