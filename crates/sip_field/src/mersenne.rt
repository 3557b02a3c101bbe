//! The field of 2^61 - 1 elements.
ghost use Rattle.std.specs.Prelude.{◌≡◌, ◌+◌, ◌-◌, ◌*◌, ◌/◌, ◌%◌, ◌<◌, ◌≤◌};
ghost use Rattle.sip_field.specs.Moduli.{m61_modulus};
ghost use Rattle.sip_field.specs.Residue.{residue, sum_mod, difference_mod, product_mod};

use crate::arithmetic::{Field, PrimeField};

const P: u64 = (1 << 61) - 1;

/// A residue modulo 2^61 - 1, kept as a number from 0 to 2^61 - 2.
#[derive(Clone, Copy, PartialEq, Eq, Debug)]
pub struct M61 {
    value: u64,
    ghost below: { value < m61_modulus },
}

// The residue of a number below twice the modulus.
fn reduced_once(x: u64) -> M61
    requires { x < 2 * m61_modulus }
    ensures { result.value ≡ x % m61_modulus }
{
    if x >= P {
        M61 { value: x - P }
    } else {
        M61 { value: x }
    }
}

/// The residue 0.
impl Default for M61 {
    ghost use Rattle.sip_field.specs.Elements.{m61_number};

    ghost is_default = { λ x. m61_number x ≡ 0 };

    fn default() -> M61 {
        M61 { value: 0 }
    }
}

// 2^61 is 1 modulo 2^61 - 1. So the bits of a number above its lowest 61 count as much as those,
// and are added to them.
impl Field for M61 {
    const MODULUS: u64 = P;

    const HALF: u64 = (P - 1) / 2;

    ghost use Rattle.std.proofs.Common.{refl, lit≤, eqb-true, eq-eqb};
    ghost use Rattle.sip_field.specs.LawProofs.ResidueRing.{residue_ring};
    ghost use Rattle.sip_field.specs.Elements.{m61_element, m61_number, m61_distinguishes};

    ghost MODULUS = { m61_modulus };

    ghost HALF = { (m61_modulus - 1) / 2 };

    ghost number = { m61_number };

    ghost element = { m61_element };

    fn of(x: u64) -> M61 {
        reduced_once((x & P) + (x >> 61))
    }

    fn of_number(x: u64) -> M61 {
        M61 { value: x }
    }

    fn of_signed(x: i64) -> M61 {
        M61::of(M61::loose_signed(x))
    }

    // Raised by 2^63 the number has no sign, and so no branch by it is taken. 2^63 is 4 modulo
    // 2^61 - 1.
    fn loose_signed(x: i64) -> u64 {
        let raised = (1u64 << 63).wrapping_add_signed(x);
        (raised & P) + (raised >> 61) + (P - 4)
    }

    fn number(self) -> u64 {
        self.value
    }

    fn plus(self, other: M61) -> M61 {
        reduced_once(self.value + other.value)
    }

    fn minus(self, other: M61) -> M61 {
        reduced_once(self.value + (P - other.value))
    }

    fn times(self, other: M61) -> M61 {
        self.times_eighth(8 * other.value)
    }

    fn times_eighth(self, eightfold: u64) -> M61 {
        reduced_once(M61::loose_eighth(self.value, eightfold))
    }

    fn loose_times(x: u64, y: u64) -> u64 {
        M61::loose_eighth(x, 8 * y)
    }

    // Eight times the product has the bits above its lowest 61 in a word of their own: no bits of
    // two words are to be put together.
    fn loose_eighth(x: u64, eightfold: u64) -> u64 {
        let product = u128::from(x) * u128::from(eightfold);
        let high = (product >> 64) as u64;
        let low = (product % (1 << 64)) as u64;
        high + low / 8
    }

    ghost odd = { refl };

    ghost at_least = { lit≤ tt };

    ghost at_most = { lit≤ tt };

    ghost half = { refl };

    ghost below = { λ x. x.below };

    ghost number_element = { λ n. refl };

    ghost distinguishes = { m61_distinguishes };

    ghost equal_is_same = { λ x y. (eqb-true _ _, eq-eqb _ _) };

    ghost ring = { residue_ring m61_modulus m61_number m61_element (lit≤ tt) (λ x. x.below)
        m61_distinguishes (λ n. refl) };
}

impl PrimeField for M61 {
    ghost use Rattle.sip_field.specs.LawProofs.Primes.{m61_prime, zero_product};
    ghost use Rattle.sip_field.specs.Elements.{m61_number};

    ghost prime = { m61_prime };

    ghost zero_product = { zero_product m61_modulus m61_number m61_prime (λ x. x.below) };
}
