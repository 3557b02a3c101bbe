//! The word that asks a lookup.

ghost use Rattle.std.specs.Prelude.{◌≡◌, ◌≢◌, ◌<◌, ◌^◌, MatchOption};
ghost use Rattle.sip_lookup.specs.Lookups.{item_of};
ghost use Rattle.sip_lookup.specs.Reports.{look_word};
ghost use Rattle.sip_lookup.specs.declared.lookup.Lookup.{Lookup as AnyLookup};
ghost use Rattle.sip_words.specs.Shapes.{AsksLook};

use crate::query::number_behind;
use sip_lookup::Lookup;
use sip_vector::Depth;

// The lookup that a word spells, whether its item is one of the stream or not.
fn spelled(word: &str) -> Option<Lookup>
    ensures { MatchOption result
        ((lookup : AnyLookup) → item_of lookup < 2 ^ 64 → word.now ≢ look_word lookup)
        (λ lookup. (item_of lookup < 2 ^ 64) × (word.now ≡ look_word lookup)) }
{
    if let Some(item) = number_behind("index:", word) {
        return Some(Lookup::Index(item));
    }
    if let Some(item) = number_behind("pred:", word) {
        return Some(Lookup::Pred(item));
    }
    let item = number_behind("succ:", word)?;
    Some(Lookup::Succ(item))
}

/// The lookup that a word asks: `index:I`, `pred:I` or `succ:I`, with I below 2^depth.
pub fn read_lookup(word: &str, depth: Depth) -> Option<Lookup>
    ensures { MatchOption result
        ((lookup : AnyLookup) → AsksLook depth lookup word.now → ⊥)
        (λ lookup. AsksLook depth lookup word.now) }
{
    let lookup = spelled(word)?;
    if lookup.item() < 1 << depth.get() {
        Some(lookup)
    } else {
        None
    }
}
