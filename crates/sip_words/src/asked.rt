//! What the words behind a depth ask.

ghost use Rattle.std.specs.Prelude.{◌≡◌, ℕ, ◌+◌, ◌≤◌, ◌<◌, IfErr, IfOk, OnOk, length};
ghost use Rattle.sip_words.specs.inside.Progress.{AreAsked, StopsInAsked};
ghost use Rattle.sip_wire.specs.Table.{most_queries};

use crate::lookup::read_lookup;
use crate::moment::read_moment;
use crate::query::read_query;
use crate::{Usage, Words};
use arrayvec::ArrayVec;
use sip_lookup::Lookup;
use sip_moments::Moment;
use sip_vector::{Depth, Query};
use sip_wire::MOST_QUERIES;

/// What one word behind a depth may ask.
pub(crate) trait AskedWord: Default + Drop {
    ghost use Rattle.std.specs.Prelude.{ℕ, List, MatchOption};

    /// A word asks it at a depth.
    ghost is_word: { ℕ → Self → List ℕ → Type 0 };

    /// What a word asks at a depth, if it asks such.
    fn read(word: &str, depth: Depth) -> Option<Self>
        ensures { MatchOption result
            ((asked : Self) → is_word depth asked word.now → ⊥)
            (λ asked. is_word depth asked word.now) };
}

/// A query whose kind is built and which fits the depth.
impl AskedWord for Query {
    ghost use Rattle.sip_words.specs.Shapes.{Asks};

    ghost is_word = { Asks };

    fn read(word: &str, depth: Depth) -> Option<Query> {
        read_query(word, depth)
    }
}

/// A lookup at an item of the stream.
impl AskedWord for Lookup {
    ghost use Rattle.sip_words.specs.Shapes.{AsksLook};

    ghost is_word = { AsksLook };

    fn read(word: &str, depth: Depth) -> Option<Lookup> {
        read_lookup(word, depth)
    }
}

/// A moment of a degree that can be checked, at whatever depth.
impl AskedWord for Moment {
    ghost use Rattle.sip_words.specs.Shapes.{AsksMoment};

    ghost is_word = { AsksMoment };

    fn read(word: &str, _: Depth) -> Option<Moment> {
        read_moment(word)
    }
}

/// What the words ask from the word of this number on, of which there is so much at most.
///
/// # Errors
///
/// The number of the first that asks nothing, or of the one that is one too many.
pub(crate) fn read_asked<Q: AskedWord>(
    words: &Words,
    depth: Depth,
    first: usize,
    most: usize,
) -> Result<ArrayVec<Q, MOST_QUERIES>, Usage>
    requires shaped { first ≤ length words.now }
    requires few { first ≤ 7 }
    requires some { 0 < most }
    requires room { most ≤ most_queries }
    ensures asked { IfOk result (λ asked. AreAsked Q.is_word words.now depth first asked.items
        (length words.now)) }
    ensures count { OnOk result ((first < length words.now)
        × (length words.now ≤ first + most)) }
    ensures refused { IfErr result (λ usage. StopsInAsked Q.is_word words.now depth first most
        usage.word) }
{
    let mut asked = ArrayVec::new();
    for number in first..first + most {
        let Some(word) = words.get(number) else {
            return if number == first {
                Err(Usage {
                    word: number as u32,
                })
            } else {
                Ok(asked)
            };
        };
        let Some(read) = Q::read(word, depth) else {
            return Err(Usage {
                word: number as u32,
            });
        };
        asked.push(read);
    }
    if words.get(first + most).is_some() {
        return Err(Usage {
            word: (first + most) as u32,
        });
    }
    Ok(asked)
}
