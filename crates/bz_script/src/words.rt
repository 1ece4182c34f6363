//! Lines and words.
ghost use Rattle.std.specs.Prelude.{◌≡◌, ◌==◌, IfOk};
ghost use Rattle.std.specs.List.{slice_split};
ghost use Rattle.bz_script.specs.Words.{word as word_of, is_word as word_is, texts_of};

use std::alloc::{AllocError, Global};

/// The parts of the bytes between separators: one more than there are separators.
pub fn parts<'a>(alloc: Global, bytes: &'a [u8], separator: u8) -> Result<Vec<&'a [u8]>, AllocError>
    ensures { IfOk result (λ parts. texts_of parts.items ≡ slice_split (λ b. b == separator) bytes.now) }
{
    bytes.split(|b| *b == separator).collect(alloc)
}

/// The word at a place, or no bytes where there is none.
pub fn word<'a>(words: &[&'a [u8]], place: usize) -> &'a [u8]
    ensures { result.now ≡ word_of (texts_of words.now) place }
{
    if place < words.len() {
        words[place]
    } else {
        &[]
    }
}

/// Whether the word at a place is this one.
pub fn is_word(words: &[&[u8]], place: usize, text: &[u8]) -> bool
    ensures { result ≡ word_is (texts_of words.now) place text.now }
{
    word(words, place) == text
}
