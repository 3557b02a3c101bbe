//! Laws of the definitions. These functions do nothing: each contract is a fact that holds.
ghost use Rattle.std.specs.Prelude.{◌≡◌, ℕ, ◌-◌, ◌%◌, ◌^◌, [], ◌∷◌, negsuc};
ghost use Rattle.sip_field.specs.Draw.{DrawsInBlocks, LeavesTheRest};
ghost use Rattle.sip_field.specs.Moduli.{f31_modulus, m61_modulus};
ghost use Rattle.sip_field.specs.Polynomial.{polynomial};
ghost use Rattle.sip_field.specs.Prime.{IsPrime};
ghost use Rattle.sip_field.specs.Residue.{DifferencesAreResidues, ResiduesAreRemainders, residue};

use crate::arithmetic::PrimeField;

/// Residues of signed numbers are remainders, and the residue of a difference is that of the signed
/// number.
pub fn residues_are_remainders()
    ensures signed { ResiduesAreRemainders }
    ensures differences { DifferencesAreResidues }
{}

/// 2^61 - 1 and 31 are prime.
pub fn moduli_are_prime()
    ensures m61 { IsPrime m61_modulus }
    ensures f31 { IsPrime f31_modulus }
{}

/// The modulus of a prime field is prime.
pub fn modulus_is_prime<F: PrimeField>()
    ensures { IsPrime F.MODULUS }
{}

/// Drawing several challenges is drawing some of them and then the others, from the words that are
/// left.
pub fn draws_in_blocks()
    ensures { DrawsInBlocks }
{}

/// Where no draw was spent, the words that are left are those behind all draws.
pub fn draws_leave_the_rest()
    ensures { LeavesTheRest }
{}

/// Two values that were worked out by hand: the residue of -2^63 modulo 2^61 - 1, and that of 34 -
/// 58·2 + 25·2².
pub fn values_by_hand()
    ensures least { residue m61_modulus (negsuc (2 ^ 63 - 1)) ≡ m61_modulus - 4 }
    ensures polynomial { polynomial 2 (34 ∷ (m61_modulus - 58) ∷ 25 ∷ []) % m61_modulus ≡ 18 }
{}
