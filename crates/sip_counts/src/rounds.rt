//! The law of the sum-check, at any degree. This function does nothing: its contract is a fact that
//! holds.

ghost use Rattle.std.specs.Prelude.{◌≢◌, ℕ, ◌*◌, ◌-◌, ◌^◌, ◌≤◌, List, []};
ghost use Rattle.sip_field.specs.Prime.{IsPrime};
ghost use Rattle.sip_counts.specs.Counts.{counted};
ghost use Rattle.sip_counts.specs.Rounds.{AreRounds, adds_up};
ghost use Rattle.sip_counts.specs.Strategies.{replies};

/// Over a prime modulus, let the true round polynomials of a sum have degree k at most. An expected
/// value that is not the sum is led to the sum's value at the challenges by no more than
/// k·d·p^(d - 1) of the p^d vectors, whatever polynomials are stated, each of which may depend on
/// the challenges before it.
pub fn few_challenges_for_wrong_claims()
    ensures { (p k d : ℕ) (stated truth : List ℕ → List ℕ) (sums : List ℕ → ℕ) (expected : ℕ)
        → IsPrime p → AreRounds p k d truth sums → expected ≢ sums []
        → counted p (λ r. adds_up p k (sums r) expected (replies stated r) r) d
        ≤ k * d * p ^ (d - 1) }
{}
