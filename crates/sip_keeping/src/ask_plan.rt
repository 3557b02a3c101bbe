//! What the link of the command is opened on that asks a sketch.

ghost use Rattle.std.specs.Prelude.{List};
ghost use Rattle.sip_questions.specs.declared.question.Question.{Question as AnyQuestion};
ghost use Rattle.sip_keeping.specs.AskPlan.{AskIsNamed, OpensAsk};
ghost use Rattle.sip_keeping.specs.AskWords.{SpellsAsk};

use sip_words::{Opening, Words};

/// What the two ends of the link are opened on.
#[derive(Clone, Copy, Debug, PartialEq, Eq)]
pub struct AskPlan {
    /// What the helper sends.
    pub from: Opening,
    /// What is sent to it.
    pub to: Opening,
}

/// What the link is opened on of words that ask a sketch, which name it ([`Opening::name`]): FROM
/// may be standard input. The desk is over the file of number 0 ([`crate::file_opening`]).
pub fn ask_ports(words: &Words) -> AskPlan
    requires { (asked : List AnyQuestion) × SpellsAsk asked words.now }
    ensures opens { OpensAsk words.now result }
    ensures named { AskIsNamed words.now result }
{
    AskPlan {
        from: Opening::named(Opening::Standard, words, 2),
        to: Opening::Path { word: 3, skip: 0 },
    }
}
