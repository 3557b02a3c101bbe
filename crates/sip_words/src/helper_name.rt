//! The helpers that `play` and `panel` know by name.

ghost use Rattle.std.specs.Prelude.{◌≡◌, ◌≢◌, List, MatchOption};
ghost use Rattle.sip_words.specs.declared.helper_name.HelperName.{HelperName as AnyName};
ghost use Rattle.sip_words.specs.Shapes.{AreHelpers, helper_word};

use arrayvec::ArrayVec;
use sip_wire::MOST_QUERIES;

/// A helper in the program itself.
#[derive(Clone, Copy, Debug, PartialEq, Eq, Default)]
pub enum HelperName {
    /// The honest one.
    #[default]
    Honest,
    /// One that counts item 0 of side 0 once more, and is honest about that stream.
    Skewed,
    /// One that says nothing.
    Mute,
}

impl HelperName {
    /// The helper that a word names.
    pub(crate) fn of(word: &str) -> Option<HelperName>
        ensures { MatchOption result
            ((name : AnyName) → word.now ≢ helper_word name)
            (λ name. word.now ≡ helper_word name) }
    {
        match word {
            "honest" => Some(HelperName::Honest),
            "skewed" => Some(HelperName::Skewed),
            "mute" => Some(HelperName::Mute),
            _ => None,
        }
    }
}

/// The helpers that a word names, in their order, with a comma between two of them. There are 1 to
/// 16.
pub(crate) fn read_helpers(word: &str) -> Option<ArrayVec<HelperName, MOST_QUERIES>>
    ensures { MatchOption result
        ((names : List AnyName) → AreHelpers names word.now → ⊥)
        (λ names. AreHelpers names.items word.now) }
{
    let mut names = ArrayVec::new();
    for name in word.split(',') {
        let name = HelperName::of(name)?;
        if names.is_full() {
            return None;
        }
        names.push(name);
    }
    Some(names)
}
