//! Laws of strategies, and of the count over a whole session. These functions do nothing: each
//! contract is a fact that holds.

ghost use Rattle.std.specs.Prelude.{◌≡◌, ◌≢◌, ℕ, ◌*◌, ◌-◌, ◌^◌, ◌<◌, ◌≤◌, Bool, true, false};
ghost use Rattle.std.specs.Prelude.{Option, Some, None, List, [], ◌∷◌, length, map, All};
ghost use Rattle.sip_counts.specs.Joint.{CountedQuestion, IsBounded, bounds, misled};
ghost use Rattle.sip_counts.specs.Strategies.{Strategy, IsOfBytes, strategy_of, replies};
ghost use Rattle.sip_counts.specs.Strategies.{takes_wrong};

/// Each talk is some strategy's, so a promise about every strategy that replies as a helper did
/// speaks of each talk.
pub fn each_talk_is_a_strategys()
    ensures { (block : List ℕ) (taken : List (List ℕ)) → length taken ≡ length block
        → All (λ reply. All (λ b. b < 256) reply) taken
        → (strategy : Strategy) × IsOfBytes strategy × (replies strategy block ≡ map Some taken) }
{}

/// A finite map gives a key's first value, and nothing where the key is missing. With values of
/// bytes it is a strategy of bytes, so what holds for each of those holds for it.
pub fn finite_maps_are_strategies()
    ensures found { (key value : List ℕ) (entries : List (List ℕ × List ℕ))
        → strategy_of ((key, value) ∷ entries) key ≡ Some value }
    ensures passed { (key other value : List ℕ) (entries : List (List ℕ × List ℕ)) → key ≢ other
        → strategy_of ((other, value) ∷ entries) key ≡ strategy_of entries key }
    ensures missing { (key : List ℕ) → strategy_of [] key ≡ None }
    ensures bytes { (entries : List (List ℕ × List ℕ)) → All (λ e. All (λ b. b < 256) e.1) entries
        → IsOfBytes (strategy_of entries) }
{}

/// The first reply depends on no challenge, and the others are those of what the strategy does once
/// the first challenge is revealed.
pub fn replies_one_by_one()
    ensures none { (strategy : Strategy) → replies strategy [] ≡ [] }
    ensures more { (strategy : Strategy) (x : ℕ) (r : List ℕ)
        → replies strategy (x ∷ r) ≡ strategy [] ∷ replies (λ v. strategy (x ∷ v)) r }
{}

/// Where replies that are not right were accepted, the challenges are counted for every strategy
/// that replies so.
pub fn accepted_wrong_replies_are_counted()
    ensures { (accepts : List ℕ → List (List ℕ) → Bool) (is_right : List (List ℕ) → Bool)
        (strategy : Strategy) (block : List ℕ) (taken : List (List ℕ))
        → replies strategy block ≡ map Some taken → accepts block taken ≡ true
        → is_right taken ≡ false → takes_wrong accepts is_right strategy block ≡ true }
{}

/// The joint count. Where no strategy has a wrong answer to a query alone accepted at more vectors
/// than the query's bound says, no joint strategy has one to any of the queries accepted at more of
/// the joint vectors than the sum of the bounds, times p^(N - 1), N being the number of all
/// challenges.
pub fn few_joint_vectors()
    ensures { (p d : ℕ) (strategy : Strategy) (queries : List CountedQuestion)
        → 0 < d → IsOfBytes strategy
        → All (IsBounded p d) queries
        → misled p d strategy queries ≤ bounds queries * p ^ (length queries * d - 1) }
{}
