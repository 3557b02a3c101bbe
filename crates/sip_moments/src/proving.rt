//! Laws of the prover's side. These functions do nothing: each contract is a fact that holds.

ghost use Rattle.std.specs.Prelude.{◌≡◌, ℕ, ◌+◌, ◌^◌, ◌<◌, ◌≤◌, ℤ, List, [], ◌∷◌, ◌++◌, length};
ghost use Rattle.std.specs.Prelude.{nat_abs, sum_by, All};
ghost use Rattle.sip_moments.specs.Honest.{begun, its_polynomial, learnt, proving};
ghost use Rattle.sip_moments.specs.Honest.{round_polynomial};
ghost use Rattle.sip_moments.specs.Moments.{moment};

/// The sums over the pairs of a list that was folded by the challenges so far are those over the
/// cube: so a prover that folds its list gives the true polynomial of each round.
pub fn polynomials_over_the_cube()
    ensures { (p k : ℕ) (numbers : List ℤ) (revealed : List ℕ) (n : ℕ)
        → 1 < p → All (λ r. r < p) revealed
        → length numbers ≡ 2 ^ (length revealed + n + 1)
        → its_polynomial p (proving p k numbers revealed)
        ≡ round_polynomial p k numbers revealed n }
{}

/// A prover begins at the residues of the numbers, and one more challenge folds them once more.
pub fn provers_go_on()
    ensures begun { (p k : ℕ) (numbers : List ℤ)
        → proving p k numbers [] ≡ begun p k numbers }
    ensures learnt { (p k : ℕ) (numbers : List ℤ) (revealed : List ℕ) (r : ℕ)
        → proving p k numbers (revealed ++ r ∷ [])
        ≡ learnt p (proving p k numbers revealed) r }
{}

/// A moment is no larger than the same power of the numbers' weight.
pub fn moments_are_bounded_by_weight()
    ensures { (k weight : ℕ) (numbers : List ℤ) → 1 ≤ k → sum_by nat_abs numbers ≤ weight
        → nat_abs (moment k numbers) ≤ weight ^ k }
{}
