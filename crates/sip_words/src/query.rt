//! The word that asks a query.

ghost use Rattle.std.specs.Prelude.{◌≡◌, ◌≢◌, ℕ, ◌<◌, ◌^◌, ◌++◌, decimal, MatchOption};
ghost use Rattle.sip_vector.specs.declared.query.Query.{Query as AnyQuery};
ghost use Rattle.sip_vector.specs.declared.query.Query.TheVariants as queries;
ghost use Rattle.sip_vector.specs.declared.update.Side.{Side as AnySide};
ghost use Rattle.sip_verifier.specs.Reports.{query_word};
ghost use Rattle.sip_words.specs.Shapes.{Asks};
ghost use Rattle.sip_words.specs.inside.QueryParts.{IsRead, bounds};

use crate::decimal::read_decimal;
use sip_vector::{Depth, Query, Side};

// The two numbers of `LO:HI`.
fn read_bounds(text: &str) -> Option<(u64, u64)>
    ensures { MatchOption result
        ((lo hi : ℕ) → lo < 2 ^ 64 → hi < 2 ^ 64 → text.now ≢ bounds lo hi)
        (λ x. text.now ≡ bounds x.0 x.1) }
{
    let (lo, hi) = text.split_once(':')?;
    Some((read_decimal(lo)?, read_decimal(hi)?))
}

// The two numbers behind this front of a word.
fn bounds_behind(front: &str, word: &str) -> Option<(u64, u64)>
    ensures { MatchOption result
        ((lo hi : ℕ) → lo < 2 ^ 64 → hi < 2 ^ 64 → word.now ≢ front.now ++ bounds lo hi)
        (λ x. word.now ≡ front.now ++ bounds x.0 x.1) }
{
    read_bounds(word.strip_prefix(front)?)
}

/// The number behind this front of a word.
pub(crate) fn number_behind(front: &str, word: &str) -> Option<u64>
    ensures { MatchOption result
        ((n : ℕ) → n < 2 ^ 64 → word.now ≢ front.now ++ decimal n)
        (λ n. word.now ≡ front.now ++ decimal n) }
{
    read_decimal(word.strip_prefix(front)?)
}

// The numerator and the denominator behind this front of a word.
fn ratio_behind(front: &str, word: &str) -> Option<(u32, u32)>
    ensures { MatchOption result
        ((num den : ℕ) → num < 2 ^ 32 → den < 2 ^ 32 → word.now ≢ front.now ++ bounds num den)
        (λ x. word.now ≡ front.now ++ bounds x.0 x.1) }
{
    let (num, den) = bounds_behind(front, word)?;
    if num < 1 << 32 && den < 1 << 32 {
        Some((num as u32, den as u32))
    } else {
        None
    }
}

// The query for heavy hitters that a word spells, whether its threshold is one or not.
fn spelled_heavy(word: &str) -> Option<Query>
    ensures { MatchOption result
        ((side : AnySide) (t : ℕ) → t < 2 ^ 64 → word.now ≢ query_word (queries.Heavy side t))
        (λ query. IsRead query × (word.now ≡ query_word query)) }
{
    if let Some(at_least) = number_behind("heavy:0:", word) {
        let side = Side::First;
        return Some(Query::Heavy { side, at_least });
    }
    let at_least = number_behind("heavy:1:", word)?;
    let side = Side::Second;
    Some(Query::Heavy { side, at_least })
}

// The query for a share that a word spells, whether it is above 0 and 1 at the most or not.
fn spelled_share(word: &str) -> Option<Query>
    ensures { MatchOption result
        ((side : AnySide) (num den : ℕ) → num < 2 ^ 32 → den < 2 ^ 32
        → word.now ≢ query_word (queries.Share side num den))
        (λ query. IsRead query × (word.now ≡ query_word query)) }
{
    if let Some((num, den)) = ratio_behind("share:0:", word) {
        let side = Side::First;
        return Some(Query::Share { side, num, den });
    }
    let (num, den) = ratio_behind("share:1:", word)?;
    let side = Side::Second;
    Some(Query::Share { side, num, den })
}

// The query that a word spells, whether it fits a depth or not.
fn spelled(word: &str) -> Option<Query>
    ensures { MatchOption result
        ((query : AnyQuery) → IsRead query → word.now ≢ query_word query)
        (λ query. IsRead query × (word.now ≡ query_word query)) }
{
    if let Some((lo, hi)) = bounds_behind("sub:", word) {
        return Some(Query::Sub { lo, hi });
    }
    if let Some((lo, hi)) = bounds_behind("range:0:", word) {
        let side = Side::First;
        return Some(Query::Range { side, lo, hi });
    }
    if let Some((lo, hi)) = bounds_behind("range:1:", word) {
        let side = Side::Second;
        return Some(Query::Range { side, lo, hi });
    }
    if let Some(query) = spelled_heavy(word) {
        return Some(query);
    }
    if let Some(query) = spelled_share(word) {
        return Some(query);
    }
    match word {
        "f2:0" => Some(Query::F2 { side: Side::First }),
        "f2:1" => Some(Query::F2 { side: Side::Second }),
        "inner" => Some(Query::Inner),
        _ => None,
    }
}

/// The query that a word asks, where its kind is built and it fits the depth: `sub:LO:HI`,
/// `range:SIDE:LO:HI`, `f2:SIDE`, `inner`, `heavy:SIDE:T` or `share:SIDE:NUM:DEN`, with LO up to
/// HI, HI below 2^depth, SIDE 0 or 1, T from 1 to 2^63 - 1, and NUM from 1 to DEN, which is up to
/// 1,000,000.
pub fn read_query(word: &str, depth: Depth) -> Option<Query>
    ensures { MatchOption result
        ((query : AnyQuery) → Asks depth query word.now → ⊥)
        (λ query. Asks depth query word.now) }
{
    let query = spelled(word)?;
    (query.is_built() && query.fits(depth)).then_some(query)
}
