//! Pairs in the order of their keys.
ghost use Rattle.std.specs.Prelude.{◌≡◌, ◌≢◌, ◌↔◌, ◌≤◌, ◌<◌, ◌∷◌, ℕ, List, [], length, slice_index_or, All, IsTrue};
ghost use Rattle.std.specs.List.Sorted.{IsPermutation};
ghost use Rattle.bz_node.specs.Records.{IsBefore, AreRising, keys_of};
ghost use Rattle.bz_node.specs.Reading.{IsReadableLeaf, AreInKeyOrder, pairs_in};

use crate::reading::{count_of, meta_of, pair_of};
use bz_key::{Key, PAGE_PAIRS, PageBuf, Payload};
use bz_layout::NODE_WORDS;
use bz_word::Meta;
use std::cmp::Ordering;

/// Whether a key is before another.
pub(crate) fn is_before(a: &Key, b: &Key) -> bool
    ensures { IsTrue result ↔ IsBefore a.now b.now }
{
    match a.cmp(b) {
        Ordering::Less => true,
        _ => false,
    }
}

// The place that a new key has among pairs whose keys rise.
fn place_for(pairs: &[(Key, Payload)], key: &Key) -> usize
    requires rising { AreRising (keys_of pairs.now) }
    requires new { All (λ k. k ≢ key.now) (keys_of pairs.now) }
    ensures within { result ≤ length pairs.now }
    ensures before { (k : ℕ) → k < result → IsBefore (slice_index_or (keys_of pairs.now) k []) key.now }
    ensures after { (k : ℕ) → result ≤ k → k < length pairs.now → IsBefore key.now (slice_index_or (keys_of pairs.now) k []) }
{
    let mut place = pairs.len();
    while place > 0 && is_before(key, &pairs[place - 1].0) {
        place -= 1;
    }
    place
}

// Puts a pair with a new key at its place.
fn insert_in_order(out: &mut PageBuf, key: Key, payload: Payload)
    requires room { length out.old < PAGE_PAIRS }
    requires rising { AreRising (keys_of out.old) }
    requires new { All (λ k. k ≢ key) (keys_of out.old) }
    ensures rising { AreRising (keys_of out.new) }
    ensures same { IsPermutation ((key, payload) ∷ out.old) out.new }
{
    let place = place_for(out.pairs(), &key);
    out.insert(place, key, payload);
}

/// Fills `out` with the visible records of a leaf, in the order of their keys.
pub(crate) fn collect_records(words: &[u64], out: &mut PageBuf)
    requires whole { length words.now ≡ NODE_WORDS }
    requires readable { IsReadableLeaf words.now }
    ensures { AreInKeyOrder (pairs_in words.now) out.new }
{
    out.clear();
    for i in 0..count_of(words) {
        if let Meta::Visible(extent) = meta_of(words, i) {
            let (key, payload) = pair_of(words, extent);
            insert_in_order(out, key, payload);
        }
    }
}
