//! What a command that keeps a sketch asks for.

ghost use Rattle.std.specs.Prelude.{◌≡◌, ◌+◌, ◌<◌, ◌≤◌, IfErr, IfOk, [], length};
ghost use Rattle.sip_words.specs.Words.{word};
ghost use Rattle.sip_keeping.specs.Words.{IsRefusedAt, Spells, verb_word};
ghost use Rattle.sip_keeping.specs.inside.SoFar.{AreNamesTo};

use crate::one_word::{count_at, form_at, has_name, part_at};
use crate::seats::{MOST_SEATS, read_seats};
use crate::verb::{SketchVerb, sketch_verb};
use arrayvec::ArrayVec;
use sip_sketch::SeatKind;
use sip_stream::Form;
use sip_vector::Depth;
use sip_words::{Usage, Words, read_depth};

/// What the program is to do to a sketch.
#[derive(Drop)]
pub enum SketchCommand {
    /// To begin a sketch with one part in, which has a seat of each of these kinds:
    /// `begin SKETCH SEED DEPTH PART/PARTS SEATS..`.
    Begin {
        depth: Depth,
        part: u32,
        parts: u32,
        kinds: ArrayVec<SeatKind, MOST_SEATS>,
    },
    /// To add the records of a stream, whose first has the number `at` by the sketch's count, or
    /// else follows all that the sketch has, and to store the sketch after each `every` of them:
    /// `watch SKETCH STREAM AT EVERY`.
    Watch {
        form: Form,
        at: Option<u64>,
        every: Option<u64>,
    },
    /// To store the sum of so many parts: `merge SKETCH PART..`.
    Merge {
        parts: u32,
    },
    /// To list the seats of a sketch: `seats SKETCH`.
    Seats,
}

/// The parts of a sum are so many at most.
const MOST_PARTS: usize = 1024;

// The rest of `begin`.
fn read_begin(words: &Words) -> Result<SketchCommand, Usage>
    requires some { 0 < length words.now }
    requires first { word words.now 0 ≡ verb_word SketchVerb.Begin }
    ensures command { IfOk result (λ command. Spells command words.now) }
    ensures refused { IfErr result (λ usage. IsRefusedAt words.now usage.word) }
{
    if !has_name(words, 1) {
        return Err(Usage { word: 1 });
    }
    if !has_name(words, 2) {
        return Err(Usage { word: 2 });
    }
    let Some(depth) = read_depth(words, 3) else {
        return Err(Usage { word: 3 });
    };
    let Some((part, parts)) = part_at(words, 4) else {
        return Err(Usage { word: 4 });
    };
    let kinds = read_seats(words, 5)?;
    Ok(SketchCommand::Begin {
        depth,
        part,
        parts,
        kinds,
    })
}

// The rest of `watch`.
fn read_watch(words: &Words) -> Result<SketchCommand, Usage>
    requires some { 0 < length words.now }
    requires first { word words.now 0 ≡ verb_word SketchVerb.Watch }
    ensures command { IfOk result (λ command. Spells command words.now) }
    ensures refused { IfErr result (λ usage. IsRefusedAt words.now usage.word) }
{
    if !has_name(words, 1) {
        return Err(Usage { word: 1 });
    }
    let Some(form) = form_at(words, 2) else {
        return Err(Usage { word: 2 });
    };
    let Some(at) = count_at(words, 3, "+", 0) else {
        return Err(Usage { word: 3 });
    };
    let Some(every) = count_at(words, 4, "-", 1) else {
        return Err(Usage { word: 4 });
    };
    if words.get(5).is_some() {
        return Err(Usage { word: 5 });
    }
    Ok(SketchCommand::Watch { form, at, every })
}

// How many words from this number on are names, which all of them have to be.
fn count_names(words: &Words, first: usize) -> Result<u32, Usage>
    requires some { first ≤ length words.now }
    requires few { first ≤ 2 }
    ensures names { IfOk result (λ count. AreNamesTo words.now first (first + count)
        × (first + count ≡ length words.now) × (1 ≤ count) × (count ≤ MOST_PARTS)) }
    ensures refused { IfErr result (λ usage. AreNamesTo words.now first usage.word
        × (usage.word ≤ first + MOST_PARTS)
        × (usage.word < length words.now → usage.word < first + MOST_PARTS
        → word words.now usage.word ≡ [])
        × (length words.now ≤ usage.word → usage.word ≡ first)) }
{
    for number in first..first + MOST_PARTS {
        let Some(name) = words.get(number) else {
            return if number == first {
                Err(Usage {
                    word: number as u32,
                })
            } else {
                Ok((number - first) as u32)
            };
        };
        if name.is_empty() {
            return Err(Usage {
                word: number as u32,
            });
        }
    }
    if words.get(first + MOST_PARTS).is_some() {
        return Err(Usage {
            word: (first + MOST_PARTS) as u32,
        });
    }
    Ok(MOST_PARTS as u32)
}

// The rest of `merge`.
fn read_merge(words: &Words) -> Result<SketchCommand, Usage>
    requires some { 0 < length words.now }
    requires first { word words.now 0 ≡ verb_word SketchVerb.Merge }
    ensures command { IfOk result (λ command. Spells command words.now) }
    ensures refused { IfErr result (λ usage. IsRefusedAt words.now usage.word) }
{
    if !has_name(words, 1) {
        return Err(Usage { word: 1 });
    }
    let parts = count_names(words, 2)?;
    Ok(SketchCommand::Merge { parts })
}

// The rest of `seats`.
fn read_seats_of(words: &Words) -> Result<SketchCommand, Usage>
    requires some { 0 < length words.now }
    requires first { word words.now 0 ≡ verb_word SketchVerb.Seats }
    ensures command { IfOk result (λ command. Spells command words.now) }
    ensures refused { IfErr result (λ usage. IsRefusedAt words.now usage.word) }
{
    if !has_name(words, 1) {
        return Err(Usage { word: 1 });
    }
    if words.get(2).is_some() {
        return Err(Usage { word: 2 });
    }
    Ok(SketchCommand::Seats)
}

/// The command that words are, of those that keep a sketch.
///
/// # Errors
///
/// The number, from 0, of the first word such that the words up to it begin no such command; where
/// all words begin one that is not whole, the number of words.
pub fn read_sketch_words(words: &Words) -> Result<SketchCommand, Usage>
    ensures command { IfOk result (λ command. Spells command words.now) }
    ensures refused { IfErr result (λ usage. IsRefusedAt words.now usage.word) }
{
    let Some(verb) = sketch_verb(words) else {
        return Err(Usage { word: 0 });
    };
    match verb {
        SketchVerb::Begin => read_begin(words),
        SketchVerb::Watch => read_watch(words),
        SketchVerb::Merge => read_merge(words),
        SketchVerb::Seats => read_seats_of(words),
    }
}
