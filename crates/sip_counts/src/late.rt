//! Laws of seats that are used in any order. These functions do nothing: each contract is a fact
//! that holds.

ghost use Rattle.std.specs.Prelude.{◌≡◌, ℕ, ◌*◌, ◌-◌, ◌^◌, ◌<◌, ◌≤◌, ◌||◌, true, false, List, []};
ghost use Rattle.std.specs.Prelude.{◌∷◌, ◌++◌, length, take, drop, All, Any};
ghost use Rattle.sip_counts.specs.Joint.{after, is_misled};
ghost use Rattle.sip_counts.specs.Late.{CountedQuestion, AreWithin, HasTakenWrong, IsBounded};
ghost use Rattle.sip_counts.specs.Late.{LedTo, Plan, Use, fooled_late, is_fooled, plan_bounds};
ghost use Rattle.sip_counts.specs.Late.{seat_of, seats_at, some_fooled, unasked};
ghost use Rattle.sip_counts.specs.Strategies.{Strategy, IsOfBytes, takes_wrong};

/// The count that does not mind the order. Each seat's question, and the replies to it, may be any
/// function of the challenges of all other seats. Where no strategy has a wrong answer to any
/// question that a plan comes to, alone, accepted at more vectors than the plan's bound says, some
/// seat has one accepted at no more of the joint vectors than the sum of the bounds, times
/// p^(N - 1), N being the number of all challenges.
pub fn few_vectors_fool_some_seat()
    ensures { (p d : ℕ) (plans : List Plan) → 0 < d → AreWithin p d plans
        → fooled_late p d plans ≤ plan_bounds plans * p ^ (length plans * d - 1) }
{}

/// A joint vector is counted exactly where one of its seats has a wrong answer accepted, whatever
/// becomes of the others.
pub fn one_fooled_seat_is_enough()
    ensures counted { (d : ℕ) (plans : List Plan) (v : List ℕ)
        → Any (λ s. is_fooled s ≡ true) (seats_at d plans [] v) → some_fooled d plans [] v ≡ true }
    ensures only { (d : ℕ) (plans : List Plan) (v : List ℕ) → some_fooled d plans [] v ≡ true
        → Any (λ s. is_fooled s ≡ true) (seats_at d plans [] v) }
{}

/// What happened is counted. Where a wrong answer was accepted on a seat, the joint vector is among
/// those that are counted, for all plans of which that seat's led to what was done with it. Nothing
/// is asked of the plans of other seats, used or not.
pub fn what_happened_is_counted()
    ensures { (d : ℕ) (plans : List Plan) (v : List ℕ) (u : Use)
        → Any (λ s. LedTo u s × HasTakenWrong u s.block) (seats_at d plans [] v)
        → some_fooled d plans [] v ≡ true }
{}

/// Whatever was done with a seat, a plan of bytes led to it, so a promise about all plans that led
/// to it speaks of each use.
pub fn each_use_is_a_plans()
    ensures { (u : Use) (block : List ℕ) → length u.taken ≤ length block
        → All (λ reply. All (λ b. b < 256) reply) u.taken
        → (plan : Plan)
        × ((earlier later : List ℕ) → IsOfBytes (plan.strategy earlier later))
        × ((earlier later : List ℕ) → LedTo u (seat_of plan earlier block later)) }
{}

/// A seat that is not used fools nobody: what it serves is bounded by 0.
pub fn unused_seats_fool_nobody()
    ensures never { (strategy : Strategy) (block : List ℕ)
        → takes_wrong unasked.accepts unasked.is_right strategy block ≡ false }
    ensures bound { (p d : ℕ) → IsBounded p d unasked }
{}

/// Queries in turn, one by one: the first has a wrong answer accepted at the first block, by what
/// the joint strategy is there, or one of the others has, behind it.
pub fn queries_in_turn_one_by_one()
    ensures none { (d : ℕ) (strategy : Strategy) (earlier v : List ℕ)
        → is_misled d strategy [] earlier v ≡ false }
    ensures more { (d : ℕ) (strategy : Strategy) (q : CountedQuestion)
        (queries : List CountedQuestion)
        (earlier v : List ℕ) → is_misled d strategy (q ∷ queries) earlier v
        ≡ (takes_wrong q.accepts q.is_right (after earlier strategy) (take d v)
        || is_misled d strategy queries (earlier ++ take d v) (drop d v)) }
{}
