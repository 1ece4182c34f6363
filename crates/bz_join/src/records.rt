//! The records of a leaf in the order of their keys.

ghost use Rattle.std.specs.Prelude.{◌≡◌, ◌≢◌, ◌↔◌, ◌≤◌, ◌<◌, ◌∷◌, ℕ, [], length, slice_index_or, All, IsTrue};
ghost use Rattle.std.specs.List.Sorted.{IsPermutation};
ghost use Rattle.bz_node.specs.Records.{IsBefore, AreRising, keys_of};
ghost use Rattle.bz_node.specs.Reading.{IsReadableLeaf, AreInKeyOrder, pairs_in};

use crate::record_list::RecordList;
use crate::words::{count_of, meta_of, pair_of};
use bz_key::{Key, PAGE_PAIRS, Payload};
use bz_layout::NODE_WORDS;
use bz_word::Meta;
use std::cmp::Ordering;

// Whether a key is before another.
fn is_before(a: &Key, b: &Key) -> bool
    ensures { IsTrue result ↔ IsBefore a.now b.now }
{
    match a.cmp(b) {
        Ordering::Less => true,
        _ => false,
    }
}

// The place that a new key has among pairs whose keys rise.
fn place_for(pairs: &[(Key, Payload)], key: &Key) -> usize
    requires rising { AreRising (keys_of pairs.now) }
    requires new { All (λ k. k ≢ key.now) (keys_of pairs.now) }
    ensures within { result ≤ length pairs.now }
    ensures before { (k : ℕ) → k < result → IsBefore (slice_index_or (keys_of pairs.now) k []) key.now }
    ensures after { (k : ℕ) → result ≤ k → k < length pairs.now → IsBefore key.now (slice_index_or (keys_of pairs.now) k []) }
{
    let mut place = pairs.len();
    while place > 0 && is_before(key, &pairs[place - 1].0) {
        place -= 1;
    }
    place
}

// Puts a pair with a new key at its place.
fn insert_in_order(out: &mut RecordList, key: Key, payload: Payload)
    requires room { length out.old < PAGE_PAIRS }
    requires rising { AreRising (keys_of out.old) }
    requires new { All (λ k. k ≢ key) (keys_of out.old) }
    ensures rising { AreRising (keys_of out.new) }
    ensures same { IsPermutation ((key, payload) ∷ out.old) out.new }
{
    let place = place_for(out.pairs(), &key);
    out.insert(place, key, payload);
}

/// The visible records of a leaf, in the order of their keys.
pub(crate) fn records_of(words: &[u64]) -> RecordList
    requires whole { length words.now ≡ NODE_WORDS }
    requires readable { IsReadableLeaf words.now }
    ensures { AreInKeyOrder (pairs_in words.now) result }
{
    let mut out = RecordList::new();
    for i in 0..count_of(words) {
        if let Meta::Visible(extent) = meta_of(words, i) {
            let (key, payload) = pair_of(words, extent);
            insert_in_order(&mut out, key, payload);
        }
    }
    out
}
