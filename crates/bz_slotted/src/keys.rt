//! The rules of keys and child pointers, one record at a time and two at a time.
ghost use Rattle.std.specs.Prelude.{◌≡◌, ◌+◌, ◌≤◌, ◌<◌, ◌^◌, length, true};
ghost use Rattle.bz_layout.specs.declared.sizes.TheConstants.{NODE_WORDS as WORDS, SHARED_WORDS as SHARED};
ghost use Rattle.bz_node.specs.Layout.{bound_of};
ghost use Rattle.std.specs.Prelude.{ℕ};
ghost use Rattle.bz_slotted.specs.Page.{page, visible, extent_of as extent_in};
ghost use Rattle.bz_slotted.specs.ReadingLaws.{node_of};
ghost use Rattle.bz_slotted.specs.Reads.{HasKey, KeysAreRead, PointersAreRead};
ghost use Rattle.bz_slotted.specs.Records.{key_in};
ghost use Rattle.bz_slotted.specs.Rules.{order_test, leaf_key_test, inner_key_test, distinct_test, child_test};
ghost use Rattle.bz_word.specs.Metas.{IsMeta};

use crate::metas::{extent_of, is_visible, meta_of, words_for};
use crate::order::{is_above, is_at_least, is_before, is_below, is_same};
use crate::place::Place;
use bz_key::Key;
use bz_word::Meta;

// The key of a record, if it has one.
fn key_of(words: &[u64], meta: Meta) -> Option<Key>
    requires whole { length words.now ≡ WORDS }
    requires lawful { IsMeta meta }
    requires key { HasKey (page (node_of words.now)) meta }
    ensures { bound_of result ≡ key_in (node_of words.now) (extent_in meta) }
{
    let extent = extent_of(meta);
    if extent.key == 0 {
        return None;
    }
    let start = extent.offset as usize;
    let end = start + words_for(extent.key) as usize;
    Key::from_words(extent.key as usize, &words[start..end])
}

/// Whether two records rise, where both are visible.
pub(crate) fn in_order(words: &[u64], i: u32, j: u32) -> bool
    requires whole { length words.now ≡ WORDS }
    requires room { (page (node_of words.now)).count ≤ SHARED }
    requires keys { KeysAreRead (page (node_of words.now)) }
    requires first { i < (page (node_of words.now)).count }
    requires second { j < (page (node_of words.now)).count }
    ensures { result ≡ order_test (page (node_of words.now)) i j }
{
    let a = meta_of(words, i);
    let b = meta_of(words, j);
    if !is_visible(a) {
        return true;
    }
    if !is_visible(b) {
        return true;
    }
    is_before(&key_of(words, a), &key_of(words, b))
}

/// Whether two records have different keys, where both are visible.
pub(crate) fn differ(words: &[u64], i: u32, j: u32) -> bool
    requires whole { length words.now ≡ WORDS }
    requires room { (page (node_of words.now)).count ≤ SHARED }
    requires keys { KeysAreRead (page (node_of words.now)) }
    requires first { i < (page (node_of words.now)).count }
    requires second { j < (page (node_of words.now)).count }
    ensures { result ≡ distinct_test (page (node_of words.now)) i j }
{
    let a = meta_of(words, i);
    let b = meta_of(words, j);
    if !is_visible(a) {
        return true;
    }
    if !is_visible(b) {
        return true;
    }
    !is_same(&key_of(words, a), &key_of(words, b))
}

/// Whether the key of a leaf's record is in range, where it is visible.
pub(crate) fn is_leaf_key(words: &[u64], place: &Place, j: u32) -> bool
    requires whole { length words.now ≡ WORDS }
    requires room { (page (node_of words.now)).count ≤ SHARED }
    requires keys { KeysAreRead (page (node_of words.now)) }
    requires used { j < (page (node_of words.now)).count }
    ensures { result ≡ leaf_key_test (page (node_of words.now)) place.now.low place.now.high j }
{
    let meta = meta_of(words, j);
    if !is_visible(meta) {
        return true;
    }
    let key = key_of(words, meta);
    if !is_at_least(&key, &place.low) {
        return false;
    }
    is_below(&key, &place.high)
}

/// Whether the key of an inner node's record is in range and above the low fence, where it is not the first.
pub(crate) fn is_inner_key(words: &[u64], place: &Place, j: u32) -> bool
    requires whole { length words.now ≡ WORDS }
    requires room { (page (node_of words.now)).count ≤ SHARED }
    requires keys { KeysAreRead (page (node_of words.now)) }
    requires shows { (i : ℕ) → i < (page (node_of words.now)).count → visible ((page (node_of words.now)).meta i) ≡ true }
    requires used { j < (page (node_of words.now)).count }
    ensures { result ≡ inner_key_test (page (node_of words.now)) place.now.low place.now.high j }
{
    if j == 0 {
        return true;
    }
    let key = key_of(words, meta_of(words, j));
    if !is_above(&key, &place.low) {
        return false;
    }
    is_below(&key, &place.high)
}

/// Whether the pointer of an inner node's record is one of so many slots.
pub(crate) fn is_child(words: &[u64], nodes: u32, i: u32) -> bool
    requires whole { length words.now ≡ WORDS }
    requires room { (page (node_of words.now)).count ≤ SHARED }
    requires pointers { PointersAreRead (page (node_of words.now)) }
    requires used { i < (page (node_of words.now)).count }
    ensures { result ≡ child_test nodes (page (node_of words.now)) i }
{
    let extent = extent_of(meta_of(words, i));
    let pointer = words[(extent.offset + words_for(extent.key)) as usize];
    if pointer == 0 {
        return false;
    }
    pointer <= u64::from(nodes)
}
