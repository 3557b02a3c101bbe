//! The word that names a stream.

ghost use Rattle.std.specs.Prelude.{◌≡◌, ◌≢◌, ◌↔◌, IsTrue, ℕ, ◌≤◌, ◌<◌, ◌^◌, MatchOption, decimal};
ghost use Rattle.std.specs.Prelude.{length, ◌++◌, ◌∷◌};
ghost use Rattle.sip_stream.specs.declared.form.Form.{Form as AnyForm};
ghost use Rattle.sip_stream.specs.Made.{most_made};
ghost use Rattle.sip_words.specs.declared.stream.Stream.{Stream as AnyStream};
ghost use Rattle.sip_words.specs.Shapes.{IsStoredWord, IsStreamWord, file_in, form_of};
ghost use Rattle.sip_words.specs.Words.{word};

use crate::Words;
use crate::decimal::read_decimal;
use sip_stream::{Form, MadeSource};
use sip_vector::Depth;

/// What a STREAM word names.
#[derive(Clone, Copy, Debug, PartialEq, Eq)]
pub enum Stream {
    /// The records that a generator makes: `made:NUMBER:COUNT`.
    Made {
        /// The number that it is made from.
        number: u64,
        /// How many records, at most `MadeSource::MOST`.
        count: u64,
    },
    /// A file of lines: `text:PATH`.
    Text,
    /// A file of records whose items have eight bytes: `wide:PATH`.
    Wide,
    /// A file of records whose items have four: `PATH`.
    File,
}

impl Stream {
    /// Whether it is a file of records whose items have four bytes.
    pub fn is_file(self) -> bool
        ensures { IsTrue result ↔ (self ≡ Stream.File) }
    {
        match self {
            Stream::File => true,
            Stream::Made { .. } | Stream::Text | Stream::Wide => false,
        }
    }

    /// How the stream is written, where a file holds it.
    pub(crate) fn file_form(self) -> Option<Form>
        ensures { MatchOption result
            ((form : AnyForm) → self ≢ file_in form)
            (λ form. self ≡ file_in form) }
    {
        match self {
            Stream::Made { .. } => None,
            Stream::Text => Some(Form::Text),
            Stream::Wide => Some(Form::Wide),
            Stream::File => Some(Form::Binary),
        }
    }

    /// How the stream is written, at a depth.
    pub(crate) fn form(self, depth: Depth) -> Form
        ensures { result ≡ form_of depth self }
    {
        match self {
            Stream::Made { .. } => Form::made(depth),
            Stream::Text => Form::Text,
            Stream::Wide => Form::Wide,
            Stream::File => Form::Binary,
        }
    }
}

// What follows `made:`.
fn read_made(rest: &str) -> Option<Stream>
    ensures { MatchOption result
        ((number count : ℕ) → number < 2 ^ 64 → count ≤ most_made
        → rest.now ≢ decimal number ++ 58 ∷ decimal count)
        (λ s. (number : ℕ) × (count : ℕ) × (number < 2 ^ 64) × (count ≤ most_made)
        × (rest.now ≡ decimal number ++ 58 ∷ decimal count) × (s ≡ Stream.Made number count)) }
{
    let (number, count) = rest.split_once(':')?;
    let number = read_decimal(number)?;
    let count = read_decimal(count)?;
    MadeSource::allows(count).then_some(Stream::Made { number, count })
}

/// The stream that word 1 names, which is where a command has its stream; `None` where it names
/// none, or the words are fewer.
pub fn stream_of(words: &Words) -> Option<Stream>
    ensures { MatchOption result
        (1 < length words.now → (stream : AnyStream) → IsStreamWord stream (word words.now 1) → ⊥)
        (λ stream. (1 < length words.now) × IsStreamWord stream (word words.now 1)) }
{
    read_stream(words.get(1)?)
}

/// The form of the stream that word 1 names as one that a file holds.
pub(crate) fn stored_of(words: &Words) -> Option<Form>
    ensures { MatchOption result
        (1 < length words.now → (form : AnyForm) → IsStoredWord form (word words.now 1) → ⊥)
        (λ form. (1 < length words.now) × IsStoredWord form (word words.now 1)) }
{
    read_stored(words.get(1)?)
}

/// The form of the stream that a word names as one that a file holds.
pub fn read_stored(word: &str) -> Option<Form>
    ensures { MatchOption result
        ((form : AnyForm) → IsStoredWord form word.now → ⊥)
        (λ form. IsStoredWord form word.now) }
{
    read_stream(word)?.file_form()
}

/// The stream that a word names.
pub(crate) fn read_stream(word: &str) -> Option<Stream>
    ensures { MatchOption result
        ((stream : AnyStream) → IsStreamWord stream word.now → ⊥)
        (λ stream. IsStreamWord stream word.now) }
{
    if let Some(rest) = word.strip_prefix("made:") {
        return read_made(rest);
    }
    if let Some(path) = word.strip_prefix("text:") {
        return (!path.is_empty()).then_some(Stream::Text);
    }
    if let Some(path) = word.strip_prefix("wide:") {
        return (!path.is_empty()).then_some(Stream::Wide);
    }
    (!word.is_empty()).then_some(Stream::File)
}
