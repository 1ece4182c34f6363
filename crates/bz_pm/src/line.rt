//! The words of one line.

ghost use Rattle.std.specs.Prelude.{◌≡◌, ℕ, ◌+◌, ◌*◌, ◌^◌, ◌<◌, ◌≤◌, length, slice_index};
ghost use Rattle.bz_pm.specs.After.{line_words};

pub(crate) const LINE_WORDS: usize = 8;

// The eight words of a line.
pub(crate) fn words_of(words: &[u64], line: usize) -> [u64; 8]
    requires { line * 8 + 8 ≤ length words.now }
    ensures words { result ≡ line_words line words.now }
    ensures fit { (k : ℕ) → slice_index result k < 2 ^ 64 }
{
    let start = line * LINE_WORDS;
    let end = start + LINE_WORDS;
    let mut line_words = [0u64; LINE_WORDS];
    line_words.copy_from_slice(&words[start..end]);
    line_words
}
