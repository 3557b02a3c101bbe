//! The first word of a command, and what words follow it.

ghost use Rattle.std.specs.Prelude.{◌≡◌, ◌≢◌, MatchOption};
ghost use Rattle.sip_words.specs.declared.verb.Verb.{Verb as AnyVerb};
ghost use Rattle.sip_words.specs.Verbs.{verb_word, shapes};

use crate::shape::Shape;
use sip_stream::MadeSource;

/// What a command is about.
#[derive(Clone, Copy, Debug, PartialEq, Eq)]
pub enum Verb {
    /// To verify answers about a stream.
    Verify,
    /// To help another side to verify.
    Help,
    /// To check a stored run again.
    Audit,
    /// To list a transcript.
    Show,
    /// To write a transcript in version 2.
    Convert,
    /// To write a made stream.
    Gen,
    /// To write a stream as lines of text.
    Lines,
    /// To write a stream as wide records.
    Widen,
    /// To verify answers of a helper in the program.
    Play,
    /// To look up entries of a stream.
    Lookup,
    /// To help another side to look up.
    HelpLook,
    /// To verify moments of a stream.
    Moments,
    /// To help another side to verify moments.
    HelpMoments,
    /// To verify answers of several helpers in the program.
    Panel,
    /// To answer questions about a stream that a file holds.
    Serve,
}

const VERIFY: [Shape; 6] = [
    Shape::Stream,
    Shape::Name,
    Shape::Name,
    Shape::Name,
    Shape::Name,
    Shape::Depth,
];

const HELP: [Shape; 2] = [Shape::Name, Shape::Name];

const AUDIT: [Shape; 2] = [Shape::Stored, Shape::Name];

const SHOW: [Shape; 1] = [Shape::Name];

const CONVERT: [Shape; 1] = [Shape::Name];

const GEN: [Shape; 3] = [
    Shape::Number { most: u64::MAX },
    Shape::Number {
        most: MadeSource::MOST,
    },
    Shape::Depth,
];

const LINES: [Shape; 2] = [Shape::Stream, Shape::Depth];

const WIDEN: [Shape; 2] = [Shape::Stream, Shape::Depth];

const PLAY: [Shape; 5] = [
    Shape::Stream,
    Shape::Name,
    Shape::Helper,
    Shape::Name,
    Shape::Depth,
];

const LOOKUP: [Shape; 5] = [
    Shape::Stream,
    Shape::Name,
    Shape::Name,
    Shape::Name,
    Shape::Depth,
];

const HELP_LOOK: [Shape; 2] = [Shape::Name, Shape::Name];

const MOMENTS: [Shape; 5] = [
    Shape::Stream,
    Shape::Name,
    Shape::Name,
    Shape::Name,
    Shape::Depth,
];

const HELP_MOMENTS: [Shape; 2] = [Shape::Name, Shape::Name];

const PANEL: [Shape; 4] = [Shape::Stream, Shape::Name, Shape::Helpers, Shape::Depth];

const SERVE: [Shape; 3] = [Shape::Stored, Shape::Name, Shape::Name];

impl Verb {
    /// The verb that a word is; `None` where it is none.
    pub fn of(word: &str) -> Option<Verb>
        ensures { MatchOption result
            ((verb : AnyVerb) → word.now ≢ verb_word verb)
            (λ verb. word.now ≡ verb_word verb) }
    {
        match word {
            "verify" => Some(Verb::Verify),
            "help" => Some(Verb::Help),
            "audit" => Some(Verb::Audit),
            "show" => Some(Verb::Show),
            "convert" => Some(Verb::Convert),
            "gen" => Some(Verb::Gen),
            "lines" => Some(Verb::Lines),
            "widen" => Some(Verb::Widen),
            "play" => Some(Verb::Play),
            "lookup" => Some(Verb::Lookup),
            "helplook" => Some(Verb::HelpLook),
            "moments" => Some(Verb::Moments),
            "helpmom" => Some(Verb::HelpMoments),
            "panel" => Some(Verb::Panel),
            "serve" => Some(Verb::Serve),
            _ => None,
        }
    }

    /// The shapes of the words behind the verb, and before the queries.
    pub(crate) fn shapes(self) -> &'static [Shape]
        ensures { result.now ≡ shapes self }
    {
        match self {
            Verb::Verify => &VERIFY,
            Verb::Help => &HELP,
            Verb::Audit => &AUDIT,
            Verb::Show => &SHOW,
            Verb::Convert => &CONVERT,
            Verb::Gen => &GEN,
            Verb::Lines => &LINES,
            Verb::Widen => &WIDEN,
            Verb::Play => &PLAY,
            Verb::Lookup => &LOOKUP,
            Verb::HelpLook => &HELP_LOOK,
            Verb::Moments => &MOMENTS,
            Verb::HelpMoments => &HELP_MOMENTS,
            Verb::Panel => &PANEL,
            Verb::Serve => &SERVE,
        }
    }
}
