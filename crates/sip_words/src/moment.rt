//! The word that asks a moment.

ghost use Rattle.std.specs.Prelude.{◌≡◌, ◌≢◌, ℕ, ◌++◌, decimal, MatchOption};
ghost use Rattle.sip_moments.specs.Manner.{moment_word};
ghost use Rattle.sip_moments.specs.Moments.{IsDegree};
ghost use Rattle.sip_moments.specs.declared.moment.Moment.{Moment as AnyMoment};

use crate::query::number_behind;
use sip_moments::Moment;
use sip_vector::Side;

/// The least degree of a moment that can be asked.
const LEAST_DEGREE: u64 = sip_moments::LEAST_DEGREE as u64;

/// The greatest one.
const MOST_DEGREE: u64 = sip_wire::MOST_DEGREE as u64;

// The degree behind this front of a word.
fn degree_behind(front: &str, word: &str) -> Option<u8>
    ensures { MatchOption result
        ((k : ℕ) → IsDegree k → word.now ≢ front.now ++ decimal k)
        (λ k. IsDegree k × (word.now ≡ front.now ++ decimal k)) }
{
    let degree = number_behind(front, word)?;
    if LEAST_DEGREE <= degree && degree <= MOST_DEGREE {
        Some(degree as u8)
    } else {
        None
    }
}

/// The moment that a word asks: `moment:SIDE:K`, with SIDE 0 or 1 and K from 3 to 8.
pub fn read_moment(word: &str) -> Option<Moment>
    ensures { MatchOption result
        ((m : AnyMoment) → IsDegree m.degree → word.now ≢ moment_word m)
        (λ m. IsDegree m.degree × (word.now ≡ moment_word m)) }
{
    if let Some(degree) = degree_behind("moment:0:", word) {
        let side = Side::First;
        return Some(Moment { side, degree });
    }
    let degree = degree_behind("moment:1:", word)?;
    let side = Side::Second;
    Some(Moment { side, degree })
}
