//! Shares of a total as thresholds. This function does nothing: its contract is a fact that holds.
#![tactic(auto)]

ghost use Rattle.std.specs.Prelude.{◌≡◌, ℕ, ◌+◌, ◌-◌, ◌*◌, ◌/◌, ◌≤◌, ◌≤ℤ◌, if◌then◌else◌, int_le};
ghost use Rattle.std.specs.Prelude.{filter, ℤ, pos, nat_abs, List, All};
ghost use Rattle.sip_vector.specs.Answers.{entries, is_shared};
ghost use Rattle.sip_vector.specs.Streams.{int_sum};
ghost use Rattle.sip_heavy.specs.Honest.{heavy_of};

/// Of numbers of which none is negative, those that have a share of their sum are those of at least
/// that share of it, rounded up. Where the sum is 0 there are none, as there are none of at least
/// 1.
pub fn shares_are_thresholds()
    ensures { (num den : ℕ) (numbers : List ℤ) → 1 ≤ den → All (λ a. pos 0 ≤ℤ a) numbers
        → filter (is_shared num den (int_sum numbers)) (entries numbers)
        ≡ heavy_of (if int_le (pos 1) (int_sum numbers)
        then (num * nat_abs (int_sum numbers) + den - 1) / den else 1) numbers }
{}
