//! The words of a command.

ghost use Rattle.std.specs.Prelude.{◌≡◌, ◌≢◌, ◌↔◌, IsTrue, ℕ, List, [], ◌∷◌, map, string_bytes};
ghost use Rattle.std.specs.Prelude.{MatchOption};
ghost use Rattle.std.specs.List.{slice_get};
ghost use Rattle.sip_words.specs.Behind.{IsBehind, progress_word};
ghost use Rattle.std.specs.Option.{option_copied};

use std::marker::Model;

/// The words after the program's name. Contracts see the list of their texts.
#[derive(Drop)]
pub struct Words {
    list: Vec<String>,
}

impl Model for Words {
    ghost use Rattle.std.specs.Prelude.{ℕ, List, map, string_bytes};

    ghost Value = { List (List ℕ) };

    ghost view = { λ w. map (λ s. string_bytes s) w.list.items };
}

// Whether a word is `--progress`.
fn is_progress(word: &str) -> bool
    ensures { IsTrue result ↔ (word.now ≡ progress_word) }
{
    word == "--progress"
}

impl Words {
    /// These words.
    pub fn of(list: Vec<String>) -> Words
        ensures { result ≡ map (λ s. string_bytes s) list.items }
    {
        Words { list }
    }

    /// The word of this number, from 0; `None` where the words are fewer.
    pub fn get(&self, word: usize) -> Option<&str>
        ensures { option_copied result ≡ slice_get self.now word }
    {
        Some(self.list.get(word)?.as_str())
    }

    /// The words of a command, which are those behind `--progress` where that stands first, and
    /// whether it does.
    pub fn behind_progress(self) -> (Words, bool)
        ensures { IsBehind self result.0 result.1 }
    {
        if self.leads_with_progress() {
            let Words { mut list } = self;
            let _ = list.remove(0);
            (Words { list }, true)
        } else {
            (self, false)
        }
    }

    // Whether `--progress` stands first.
    fn leads_with_progress(&self) -> bool
        ensures { IsTrue result ↔ ((rest : List (List ℕ)) × (self.now ≡ progress_word ∷ rest)) }
    {
        match self.get(0) {
            Some(word) => is_progress(word),
            None => false,
        }
    }

    /// The word that stands alone; `None` where there is none, or more than one.
    pub fn only(&self) -> Option<&str>
        ensures { MatchOption result
            ((word : List ℕ) → self.now ≢ word ∷ [])
            (λ word. self.now ≡ word.now ∷ []) }
    {
        if self.get(1).is_some() {
            return None;
        }
        self.get(0)
    }

    /// The two words that stand alone; `None` where there are fewer, or more.
    pub fn pair(&self) -> Option<(&str, &str)>
        ensures { MatchOption result
            ((first second : List ℕ) → self.now ≢ first ∷ second ∷ [])
            (λ pair. self.now ≡ pair.0.now ∷ pair.1.now ∷ []) }
    {
        if self.get(2).is_some() {
            return None;
        }
        Some((self.get(0)?, self.get(1)?))
    }
}

/// The words are no command; `word` is the number of the first word such that the words up to it
/// begin none, from 0. Where all words begin a command that is not whole, it is the number of
/// words.
#[derive(Clone, Copy, Debug, PartialEq, Eq)]
pub struct Usage {
    /// The number of the word, from 0.
    pub word: u32,
}
