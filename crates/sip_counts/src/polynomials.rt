//! Laws of polynomials over a prime modulus. These functions do nothing: each contract is a fact
//! that holds.

ghost use Rattle.std.specs.Prelude.{◌≡◌, ◌≢◌, ℕ, ◌+◌, ◌≤◌, ◌%◌, ◌==◌, List, length, slice_index};
ghost use Rattle.sip_field.specs.Polynomial.{polynomial};
ghost use Rattle.sip_field.specs.Prime.{IsPrime};
ghost use Rattle.sip_counts.specs.Counts.{count_below};

/// Over a prime modulus a polynomial of degree at most k with a coefficient that is not 0 has at
/// most k roots.
pub fn few_roots()
    ensures { (p k i : ℕ) (cs : List ℕ) → IsPrime p → length cs ≤ k + 1 → slice_index cs i % p ≢ 0
        → count_below p (λ x. polynomial x cs % p == 0) ≤ k }
{}

/// Over a prime modulus two polynomials of degree at most k that differ in a coefficient agree at
/// no more than k points.
pub fn few_points_of_agreement()
    ensures { (p k i : ℕ) (cs ds : List ℕ) → IsPrime p → length cs ≤ k + 1 → length ds ≤ k + 1
        → slice_index cs i % p ≢ slice_index ds i % p
        → count_below p (λ x. polynomial x cs % p == polynomial x ds % p) ≤ k }
{}
