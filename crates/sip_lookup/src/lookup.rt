//! What is asked of the vector of side 0.

ghost use Rattle.std.specs.Prelude.{◌≡◌, ◌<◌, ◌≤◌, ◌^◌, IsTrue};
ghost use Rattle.sip_lookup.specs.Frames.{code_of};
ghost use Rattle.sip_lookup.specs.Lookups.{are_alone, is_possible, item_of, range_of};
ghost use Rattle.sip_lookup.specs.Lookups.{stated_answer};
ghost use Rattle.sip_lookup.specs.Sittings.{looked_of};
ghost use Rattle.sip_subvec.specs.AcceptsSub.{stated_value};

use crate::answer::LookAnswer;
use sip_vector::{Depth, Entry};

/// One lookup: at an item, or of the entry that is not 0 and nearest to it. Items are below
/// `2^depth`.
#[derive(Clone, Copy, Debug, PartialEq, Eq)]
pub enum Lookup {
    /// The value at this item.
    Index(u64),
    /// The nearest entry at this item or below it.
    Pred(u64),
    /// The nearest entry at this item or above it.
    Succ(u64),
}

/// The value at item 0.
impl Default for Lookup {
    ghost use Rattle.sip_lookup.specs.declared.lookup.Lookup.TheVariants as lookups;

    ghost is_default = { λ l. l ≡ lookups.Index 0 };

    fn default() -> Lookup {
        Lookup::Index(0)
    }
}

impl Lookup {
    /// The item that it is at.
    pub fn item(self) -> u64
        ensures { result ≡ item_of self }
    {
        match self {
            Lookup::Index(item) | Lookup::Pred(item) | Lookup::Succ(item) => item,
        }
    }

    /// Its code in an Ask.
    pub fn code(self) -> u8
        ensures { result ≡ code_of self }
    {
        match self {
            Lookup::Index(_) => 1,
            Lookup::Pred(_) => 2,
            Lookup::Succ(_) => 3,
        }
    }

    /// Whether a helper may find this place, or that there is none.
    pub fn is_possible(self, depth: Depth, found: Option<u64>) -> bool
        ensures { result ≡ is_possible depth self found }
    {
        match (self, found) {
            (Lookup::Index(_), None) => false,
            (Lookup::Index(item), Some(place)) => place == item,
            (Lookup::Pred(_) | Lookup::Succ(_), None) => true,
            (Lookup::Pred(item), Some(place)) => place <= item,
            (Lookup::Succ(item), Some(place)) => item <= place && place < 1 << depth.get(),
        }
    }

    /// The ends, both included, of the interval whose entries prove that this was found.
    pub fn interval(self, depth: Depth, found: Option<u64>) -> (u64, u64)
        requires item { item_of self < 2 ^ depth }
        requires possible { IsTrue (is_possible depth self found) }
        ensures same { result ≡ range_of depth self found }
        ensures order { result.0 ≤ result.1 }
        ensures within { result.1 < 2 ^ depth }
    {
        match (self, found) {
            (Lookup::Index(item), _) => (item, item),
            (Lookup::Pred(item), None) => (0, item),
            (Lookup::Pred(item), Some(place)) => (place, item),
            (Lookup::Succ(item), None) => (item, (1 << depth.get()) - 1),
            (Lookup::Succ(item), Some(place)) => (item, place),
        }
    }

    /// Whether the entries of the interval are the one at the place that was found, alone, or none
    /// where none was. The value at an item needs no such test.
    pub fn is_alone(self, found: Option<u64>, entries: &[Entry]) -> bool
        ensures { result ≡ are_alone self found entries.now }
    {
        match (self, found, entries) {
            (Lookup::Index(_), _, _) => true,
            (_, None, []) => true,
            (_, Some(place), [entry]) => entry.index == place,
            _ => false,
        }
    }

    /// The answer that the entries of the interval state.
    pub fn answer(self, entries: &[Entry]) -> LookAnswer
        ensures { looked_of result ≡ stated_answer self entries.now }
    {
        match self {
            Lookup::Index(item) => LookAnswer::Value(value_at(entries, item)),
            Lookup::Pred(_) | Lookup::Succ(_) => LookAnswer::Nearest(entries.first().copied()),
        }
    }
}

/// The value that entries state at an item: 0 where they state none.
fn value_at(entries: &[Entry], item: u64) -> i64
    ensures { result ≡ stated_value entries.now item }
{
    for at in 0..entries.len() {
        let entry = entries[at];
        if entry.index == item {
            return entry.value;
        }
    }
    0
}
