//! The words of the command that asks a sketch.

ghost use Rattle.std.specs.Prelude.{◌≡◌, ◌≢◌, ◌↔◌, ◌<◌, ◌≤◌, IsTrue, IfErr, IfOk, MatchOption, []};
ghost use Rattle.std.specs.Prelude.{drop, length};
ghost use Rattle.sip_wire.specs.Table.{most_queries};
ghost use Rattle.sip_words.specs.Words.{word};
ghost use Rattle.sip_questions.specs.declared.question.Question.{Question as AnyQuestion};
ghost use Rattle.sip_keeping.specs.AskWords.{AreQuestions, IsAskRefusedAt, IsQuestionWord};
ghost use Rattle.sip_keeping.specs.AskWords.{SpellsAsk, ask_word};
ghost use Rattle.sip_keeping.specs.inside.AskSoFar.{StopsInQuestions};
ghost use Rattle.sip_keeping.specs.inside.SoFar.{AreNamesTo};

use crate::one_word::has_name;
use arrayvec::ArrayVec;
use sip_questions::Question;
use sip_vector::Depth;
use sip_wire::MOST_QUERIES;
use sip_words::{Usage, Words, read_large, read_lookup, read_moment, read_query};

/// What is asked of a sketch.
pub type Questions = ArrayVec<Question, MOST_QUERIES>;

/// The number of the first question.
const QUESTIONS: usize = 4;

// Whether a word is the command's first.
fn is_ask(word: &str) -> bool
    ensures { IsTrue result ↔ (word.now ≡ ask_word) }
{
    word == "ask"
}

/// Whether word 0 is `ask`; the words behind it may be no command.
pub fn asks_sketch(words: &Words) -> bool
    ensures { IsTrue result ↔ ((0 < length words.now) × (word words.now 0 ≡ ask_word)) }
{
    match words.get(0) {
        Some(first) => is_ask(first),
        None => false,
    }
}

// The question that a word asks at some depth.
fn read_question(word: &str) -> Option<Question>
    ensures { MatchOption result
        ((question : AnyQuestion) → IsQuestionWord question word.now → ⊥)
        (λ question. IsQuestionWord question word.now) }
{
    let deepest = Depth::new(Depth::MOST)?;
    if let Some(query) = read_query(word, deepest) {
        return Some(Question::Query(query));
    }
    if let Some(lookup) = read_lookup(word, deepest) {
        return Some(Question::Lookup(lookup));
    }
    if let Some(large) = read_large(word) {
        return Some(Question::Large(large));
    }
    Some(Question::Moment(read_moment(word)?))
}

// What the words from this number on ask.
//
// It answers the number of the first that asks nothing, or of the one that is one too many.
fn read_questions(words: &Words, first: usize) -> Result<Questions, Usage>
    requires some { first ≤ length words.now }
    requires few { first ≤ 4 }
    ensures questions { IfOk result (λ asked. AreQuestions (drop first words.now) asked.items
        × (1 ≤ length asked.items) × (length asked.items ≤ most_queries)) }
    ensures refused { IfErr result (λ usage. StopsInQuestions words.now first usage.word) }
{
    let mut asked = Questions::new();
    for number in first..first + MOST_QUERIES {
        let Some(word) = words.get(number) else {
            return if number == first {
                Err(Usage {
                    word: number as u32,
                })
            } else {
                Ok(asked)
            };
        };
        let Some(question) = read_question(word) else {
            return Err(Usage {
                word: number as u32,
            });
        };
        asked.push(question);
    }
    if words.get(first + MOST_QUERIES).is_some() {
        return Err(Usage {
            word: (first + MOST_QUERIES) as u32,
        });
    }
    Ok(asked)
}

// The number of the first of words 1 to 3 that is no name.
fn nameless(words: &Words) -> Option<u32>
    requires { 0 < length words.now }
    ensures { MatchOption result (AreNamesTo words.now 1 4)
        (λ number. (1 ≤ number) × (number < 4) × AreNamesTo words.now 1 number
        × (number < length words.now → word words.now number ≢ [] → ⊥)) }
{
    for number in 1..QUESTIONS {
        if !has_name(words, number) {
            return Some(number as u32);
        }
    }
    None
}

/// What words ask of a sketch: `ask SKETCH FROM TO QUESTION..`.
///
/// # Errors
///
/// The number, from 0, of the first word such that the words up to it begin no such command; where
/// all words begin one that is not whole, the number of words.
pub fn read_ask_words(words: &Words) -> Result<Questions, Usage>
    ensures asked { IfOk result (λ asked. SpellsAsk asked.items words.now) }
    ensures refused { IfErr result (λ usage. IsAskRefusedAt words.now usage.word) }
{
    if !asks_sketch(words) {
        return Err(Usage { word: 0 });
    }
    if let Some(word) = nameless(words) {
        return Err(Usage { word });
    }
    read_questions(words, QUESTIONS)
}
