//! Laws of the count of challenge vectors. These functions do nothing: each contract is a fact that
//! holds.

ghost use Rattle.std.specs.Prelude.{◌≡◌, ℕ, ◌+◌, ◌*◌, ◌-◌, ◌<◌, ◌≤◌, ◌^◌, if◌then◌else◌, Bool};
ghost use Rattle.std.specs.Prelude.{true, not, List, [], ◌∷◌, ◌++◌, length, All};
ghost use Rattle.sip_counts.specs.Counts.{sum_below, count_below, counted, counted_from};

/// The count at a prefix: 1 or 0 where no challenge is left, and else the sum of the counts at the
/// prefixes that are longer by one challenge. It is the count of the continuations that pass.
pub fn count_by_prefixes()
    ensures none_left { (p : ℕ) (test : List ℕ → Bool) (prefix : List ℕ)
        → counted_from p test 0 prefix ≡ (if test prefix then 1 else 0) }
    ensures some_left { (p : ℕ) (test : List ℕ → Bool) (more : ℕ) (prefix : List ℕ)
        → counted_from p test (more + 1) prefix
        ≡ sum_below p (λ x. counted_from p test more (prefix ++ x ∷ [])) }
    ensures all_left { (p : ℕ) (test : List ℕ → Bool) (d : ℕ)
        → counted p test d ≡ counted_from p test d [] }
    ensures continuations { (p : ℕ) (test : List ℕ → Bool) (more : ℕ) (prefix : List ℕ)
        → counted_from p test more prefix ≡ counted p (λ v. test (prefix ++ v)) more }
{}

/// A test that more vectors pass has no smaller count, and no more than p^d vectors pass.
pub fn count_grows_with_its_test()
    ensures grows { (p d : ℕ) (s t : List ℕ → Bool)
        → ((v : List ℕ) → length v ≡ d → All (λ x. x < p) v → s v ≡ true → t v ≡ true)
        → counted p s d ≤ counted p t d }
    ensures at_most { (p d : ℕ) (test : List ℕ → Bool) → counted p test d ≤ p ^ d }
{}

/// The escape law. Where `bad` holds at the empty prefix, and from each shorter prefix at which it
/// holds it fails for at most c of the p continuations by one challenge, it fails at no more than
/// c·d·p^(d - 1) of the vectors.
pub fn few_vectors_escape()
    ensures { (p c d : ℕ) (bad : List ℕ → Bool) → bad [] ≡ true
        → ((v : List ℕ) → length v < d → All (λ x. x < p) v → bad v ≡ true
        → count_below p (λ x. not (bad (v ++ x ∷ []))) ≤ c)
        → counted p (λ v. not (bad v)) d ≤ c * d * p ^ (d - 1) }
{}
