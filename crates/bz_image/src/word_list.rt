//! The words of an image.
ghost use Rattle.std.specs.Prelude.{◌≡◌};

use std::marker::Model;

/// A list of words, seen as the words.
#[derive(Drop)]
pub struct WordList {
    words: Vec<u64>,
}

impl Model for WordList {
    ghost use Rattle.std.specs.Prelude.{ℕ, List};

    ghost Value = { List ℕ };

    ghost view = { λ l. l.words.items };
}

impl WordList {
    /// The words of a vector.
    pub(crate) fn of(words: Vec<u64>) -> WordList
        ensures { result ≡ words.items }
    {
        WordList { words }
    }

    /// The words, in the order of their addresses.
    pub fn words(&self) -> &[u64]
        ensures { result.now ≡ self.now }
    {
        &self.words
    }
}
