//! What one word of a command may be.

ghost use Rattle.std.specs.Prelude.{◌≡◌, ◌↔◌, ℕ, ◌≤◌, ◌<◌, ◌^◌, IsTrue, decimal};
ghost use Rattle.sip_words.specs.Shapes.{IsOf};

use crate::decimal::read_decimal;
use crate::helper_name::{HelperName, read_helpers};
use crate::stream::{read_stored, read_stream};
use sip_vector::Depth;

/// What one word of a command may be.
#[derive(Clone, Copy, Debug, PartialEq, Eq, Default)]
pub(crate) enum Shape {
    /// The name of a file: any word but the empty one.
    #[default]
    Name,
    /// A stream.
    Stream,
    /// A stream that a file holds.
    Stored,
    /// The name of a helper in the program.
    Helper,
    /// The names of several, with commas between them.
    Helpers,
    /// A number up to `most`.
    Number { most: u64 },
    /// A depth.
    Depth,
}

// Whether a word is a number from `least` to `most`.
fn is_within(word: &str, least: u64, most: u64) -> bool
    ensures { IsTrue result ↔ ((n : ℕ) × (least ≤ n) × (n ≤ most) × (n < 2 ^ 64)
        × (word.now ≡ decimal n)) }
{
    match read_decimal(word) {
        Some(number) => lies_within(number, least, most),
        None => false,
    }
}

// Whether a number is from `least` to `most`.
fn lies_within(number: u64, least: u64, most: u64) -> bool
    ensures { IsTrue result ↔ ((least ≤ number) × (number ≤ most)) }
{
    (least..=most).contains(&number)
}

impl Shape {
    /// Whether a word has this shape.
    pub(crate) fn is_of(self, word: &str) -> bool
        ensures { IsTrue result ↔ IsOf self word.now }
    {
        match self {
            Shape::Name => !word.is_empty(),
            Shape::Stream => read_stream(word).is_some(),
            Shape::Stored => read_stored(word).is_some(),
            Shape::Helper => HelperName::of(word).is_some(),
            Shape::Helpers => read_helpers(word).is_some(),
            Shape::Number { most } => is_within(word, 0, most),
            Shape::Depth => is_within(word, 1, Depth::MOST as u64),
        }
    }
}
