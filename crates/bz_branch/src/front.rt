//! What the front of a node says: its level, and its low fence.

ghost use Rattle.std.specs.Prelude.{◌≡◌, ◌+◌, ◌<◌, ◌≤◌, ◌^◌, ℕ, List, Option, None, length};
ghost use Rattle.bz_key.specs.Packing.{packed_len, unpacked_key};
ghost use Rattle.bz_node.specs.Reading.{part};
ghost use Rattle.bz_slotted.specs.ReadingLaws.{node_of};
ghost use Rattle.bz_slotted.specs.Rules.{node_fault};

use bz_key::Key;
use bz_layout::{BYTES_IN_WORD, HEADER_AT, LOW_FENCE_AT};
use bz_node::NodeImage;
use bz_renew::is_whole;
use bz_word::Header;

// The key of so many bytes that stands at a place, if there is one.
fn key_at(words: &[u64], at: u32, len: u32) -> Option<Key>
    requires within { at + packed_len len ≤ length words.now }
    requires small { len < 2 ^ 8 }
    ensures { result ≡ unpacked_key len (part words.now at (packed_len len)) }
{
    let start = at as usize;
    let end = start + len.div_ceil(BYTES_IN_WORD) as usize;
    Key::from_words(len as usize, &words[start..end])
}

/// The low fence of a node that breaks no rule, which no key of it is before: none where its keys have no beginning.
pub fn low_fence(image: &NodeImage) -> Option<Key>
    ensures { (nodes : ℕ) (raw : ℕ → ℕ) (level : ℕ) (low high : Option (List ℕ)) → node_fault nodes raw (node_of image.now.0) level low high ≡ None → result ≡ low }
{
    is_whole(image);
    let words = &image.0;
    match Header::unpack(words[HEADER_AT as usize]) {
        Some(header) => key_at(words, LOW_FENCE_AT, header.low),
        None => None,
    }
}

/// The level of a node that breaks no rule, 0 for a leaf.
pub fn level_of(image: &NodeImage) -> u32
    ensures { (nodes : ℕ) (raw : ℕ → ℕ) (level : ℕ) (low high : Option (List ℕ)) → node_fault nodes raw (node_of image.now.0) level low high ≡ None → result ≡ level }
{
    is_whole(image);
    match Header::unpack(image.0[HEADER_AT as usize]) {
        Some(header) => header.level,
        None => 0,
    }
}
