//! The first word of a command that keeps a sketch.

ghost use Rattle.std.specs.Prelude.{◌≡◌, ◌≢◌, ◌<◌, MatchOption, length};
ghost use Rattle.sip_words.specs.Words.{word};
ghost use Rattle.sip_keeping.specs.declared.verb.SketchVerb.{SketchVerb as AnyVerb};
ghost use Rattle.sip_keeping.specs.Words.{verb_word};

use sip_words::Words;

/// What a command that keeps a sketch is about.
#[derive(Clone, Copy, Debug, PartialEq, Eq)]
pub enum SketchVerb {
    /// To begin a sketch.
    Begin,
    /// To add the records of a stream to it.
    Watch,
    /// To store the sum of several parts.
    Merge,
    /// To list its seats.
    Seats,
}

impl SketchVerb {
    // The verb that a word is.
    fn of(word: &str) -> Option<SketchVerb>
        ensures { MatchOption result
            ((verb : AnyVerb) → word.now ≢ verb_word verb)
            (λ verb. word.now ≡ verb_word verb) }
    {
        match word {
            "begin" => Some(SketchVerb::Begin),
            "watch" => Some(SketchVerb::Watch),
            "merge" => Some(SketchVerb::Merge),
            "seats" => Some(SketchVerb::Seats),
            _ => None,
        }
    }
}

/// The verb that word 0 is; `None` where the words are for another command, or none.
pub fn sketch_verb(words: &Words) -> Option<SketchVerb>
    ensures { MatchOption result
        ((verb : AnyVerb) → 0 < length words.now
        → word words.now 0 ≢ verb_word verb)
        (λ verb. (0 < length words.now)
        × (word words.now 0 ≡ verb_word verb)) }
{
    SketchVerb::of(words.get(0)?)
}
