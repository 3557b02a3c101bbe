//! When a sketch that grows is stored.

ghost use Rattle.std.specs.Prelude.{◌≡◌, ◌<◌, ◌≤◌, ◌+◌, ℕ, IfSome};
ghost use Rattle.sip_sketch.specs.inside.Pacing.{IsPace, Paces};

use crate::MOST_UPDATES;

/// After how many records a sketch is stored, and how many come before it is stored next; `None` is
/// at the end alone.
#[derive(Clone, Copy, Debug, PartialEq, Eq)]
pub(crate) struct Pace {
    every: Option<u64>,
    until: Option<u64>,
}

impl Pace {
    /// Before the first record.
    pub(crate) fn new(every: Option<u64>) -> Pace
        requires { IfSome every (λ count. 0 < count) }
        ensures pace { IsPace result 0 }
        ensures every { result.every ≡ every }
    {
        Pace {
            every,
            until: every,
        }
    }

    /// How many records may come as the next block.
    pub(crate) fn most(&self) -> usize
        requires { IfSome self.now.until (λ count. 0 < count) }
        ensures some { 0 < result }
        ensures few { result ≤ MOST_UPDATES }
        ensures within { IfSome self.now.until (λ count. result ≤ count) }
    {
        match self.until {
            None => MOST_UPDATES,
            Some(count) => count.min(MOST_UPDATES as u64) as usize,
        }
    }

    /// Passes over so many records, and answers whether the sketch is due to be stored.
    pub(crate) fn pass(&mut self, count: usize) -> bool
        requires { IfSome self.old.until (λ until. count ≤ until) }
        ensures paces { (before : ℕ) → IsPace self.old before
            → Paces self.old self.new before (before + count) result }
    {
        let Some(until) = self.until else {
            return false;
        };
        let more = until - count as u64;
        if more > 0 {
            self.until = Some(more);
            return false;
        }
        self.until = self.every;
        true
    }
}
