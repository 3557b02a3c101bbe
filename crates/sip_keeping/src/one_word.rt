//! What one word of a command that keeps a sketch says.

ghost use Rattle.std.specs.Prelude.{◌≡◌, ◌≢◌, ◌↔◌, ℕ, ◌<◌, IsTrue, MatchOption};
ghost use Rattle.std.specs.Prelude.{Option as AnyOption, [], length};
ghost use Rattle.sip_stream.specs.declared.form.Form.{Form as AnyForm};
ghost use Rattle.sip_words.specs.Words.{word};
ghost use Rattle.sip_words.specs.Shapes.{IsStoredWord};
ghost use Rattle.sip_keeping.specs.Words.{IsCount, IsPart};

use sip_stream::Form;
use sip_words::{Words, read_decimal, read_stored};

/// The greatest number of a record that is begun at, and of records that are stored at once.
const MOST_COUNT: u64 = 1 << 31;

/// Whether the word of this number is there and is not empty.
pub(crate) fn has_name(words: &Words, number: usize) -> bool
    ensures { IsTrue result ↔ ((number < length words.now) × (word words.now number ≢ [])) }
{
    match words.get(number) {
        Some(name) => !name.is_empty(),
        None => false,
    }
}

/// The form of the stored stream that the word of this number names.
pub(crate) fn form_at(words: &Words, number: usize) -> Option<Form>
    ensures { MatchOption result
        (number < length words.now → (form : AnyForm) → IsStoredWord form (word words.now number)
        → ⊥)
        (λ form. (number < length words.now) × IsStoredWord form (word words.now number)) }
{
    read_stored(words.get(number)?)
}

// The part and the number of parts that a word is.
fn read_part(text: &str) -> Option<(u32, u32)>
    ensures { MatchOption result
        ((part parts : ℕ) → IsPart part parts text.now → ⊥)
        (λ part. IsPart part.0 part.1 text.now) }
{
    let (part, parts) = text.split_once('/')?;
    let part = read_decimal(part)?;
    let parts = read_decimal(parts)?;
    if 1 <= part && part <= parts && parts < 1 << 32 {
        Some((part as u32, parts as u32))
    } else {
        None
    }
}

/// The part and the number of parts that the word of this number is.
pub(crate) fn part_at(words: &Words, number: usize) -> Option<(u32, u32)>
    ensures { MatchOption result
        (number < length words.now → (part parts : ℕ) → IsPart part parts (word words.now number)
        → ⊥)
        (λ part. (number < length words.now) × IsPart part.0 part.1 (word words.now number)) }
{
    read_part(words.get(number)?)
}

// Whether a word is this sign.
fn is_sign(text: &str, sign: &str) -> bool
    ensures { IsTrue result ↔ (text.now ≡ sign.now) }
{
    text == sign
}

// The count that a word is, or `None` in it where the word is this sign.
fn read_count(text: &str, sign: &str, least: u64) -> Option<Option<u64>>
    ensures { MatchOption result
        ((n : AnyOption ℕ) → IsCount sign.now least n text.now → ⊥)
        (λ n. IsCount sign.now least n text.now) }
{
    if is_sign(text, sign) {
        return Some(None);
    }
    let count = read_decimal(text)?;
    if least <= count && count <= MOST_COUNT {
        Some(Some(count))
    } else {
        None
    }
}

/// The count that the word of this number is, or `None` in it where the word is this sign.
pub(crate) fn count_at(words: &Words, number: usize, sign: &str, least: u64) -> Option<Option<u64>>
    ensures { MatchOption result
        (number < length words.now → (n : AnyOption ℕ)
        → IsCount sign.now least n (word words.now number) → ⊥)
        (λ n. (number < length words.now) × IsCount sign.now least n (word words.now number)) }
{
    read_count(words.get(number)?, sign, least)
}
