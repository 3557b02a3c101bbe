//! The word that asks for large entries.

ghost use Rattle.std.specs.Prelude.{◌≡◌, ◌≢◌, ℕ, ◌++◌, decimal, MatchOption};
ghost use Rattle.sip_above.specs.declared.large.Large.{Large as AnyLarge};
ghost use Rattle.sip_words.specs.Shapes.{IsThreshold, large_word};

use crate::query::number_behind;
use sip_above::Large;
use sip_vector::Side;

// The threshold behind this front of a word.
fn threshold_behind(front: &str, word: &str) -> Option<u64>
    ensures { MatchOption result
        ((t : ℕ) → IsThreshold t → word.now ≢ front.now ++ decimal t)
        (λ t. IsThreshold t × (word.now ≡ front.now ++ decimal t)) }
{
    let at_least = number_behind(front, word)?;
    if 1 <= at_least && at_least < 1 << 63 {
        Some(at_least)
    } else {
        None
    }
}

/// The large entries that a word asks for: `above:SIDE:T`, with SIDE 0 or 1 and T from 1 to
/// 2^63 - 1.
pub fn read_large(word: &str) -> Option<Large>
    ensures { MatchOption result
        ((l : AnyLarge) → IsThreshold l.at_least → word.now ≢ large_word l)
        (λ l. IsThreshold l.at_least × (word.now ≡ large_word l)) }
{
    if let Some(at_least) = threshold_behind("above:0:", word) {
        let side = Side::First;
        return Some(Large { side, at_least });
    }
    let at_least = threshold_behind("above:1:", word)?;
    let side = Side::Second;
    Some(Large { side, at_least })
}
