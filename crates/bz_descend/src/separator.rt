//! The key of an inner node's record.

ghost use Rattle.std.specs.Prelude.{◌≡◌, ◌<◌, ◌≤◌, ◌^◌, true, false, List, ℕ, take, Some};
ghost use Rattle.bz_key.specs.Packing.{packed_len, unpacked_key};
ghost use Rattle.bz_key.specs.declared.limits.TheConstants.{KEY_BYTES};
ghost use Rattle.bz_tree.specs.Order.{is_before as before};

use crate::front::words_for;
use bz_key::Key;
use bz_layout::FENCE_WORDS;
use std::cmp::Ordering;

// Whether one key is before another.
#[tactic(auto, unfolding(bz_tree::specs::Order::is_before))]
fn precedes(a: &Key, b: &Key) -> bool
    ensures { result ≡ before a.now b.now }
{
    match a.cmp(b) {
        Ordering::Less => true,
        Ordering::Equal => false,
        Ordering::Greater => false,
    }
}

/// Whether a key is before the one of this length that the words are the packing of.
pub(crate) fn is_before(key: &Key, len: u32, words: &[u64; FENCE_WORDS as usize]) -> bool
    requires { len ≤ KEY_BYTES }
    ensures { (separator : List ℕ) → unpacked_key len (take (packed_len len) words.now) ≡ Some separator → result ≡ before key.now separator }
{
    let count = words_for(len) as usize;
    match Key::from_words(len as usize, &words[..count]) {
        Some(separator) => precedes(key, &separator),
        None => false,
    }
}
