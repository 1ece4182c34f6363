//! The rules of all records: each by itself, and each two.
ghost use Rattle.std.specs.Prelude.{◌≡◌, ◌+◌, ◌≤◌, ◌<◌, ◌^◌, ℕ, length, true};
ghost use Rattle.bz_layout.specs.declared.sizes.TheConstants.{NODE_WORDS as WORDS, HEADER_AT as HEADER, SHARED_WORDS as SHARED};
ghost use Rattle.bz_slotted.specs.Page.{page, visible, held, extent_of as extent_in};
ghost use Rattle.bz_slotted.specs.ReadingLaws.{node_of};
ghost use Rattle.bz_slotted.specs.Reads.{KeysAreRead, PointersAreRead, BeginsAbove};
ghost use Rattle.bz_slotted.specs.Records.{weight as words_held};
ghost use Rattle.bz_slotted.specs.Rules.{leaf_record_test, inner_record_test, apart_test, order_test, leaf_key_test, inner_key_test, distinct_test, child_test};
ghost use Rattle.bz_slotted.specs.Tests.{every, every_two};
ghost use Rattle.bz_slotted.specs.Whole.{IsFilled};

use crate::filling::{header_of, status_of};
use crate::keys::{differ, in_order, is_child, is_inner_key, is_leaf_key};
use crate::metas::{extent_of, is_held, is_visible, meta_of, weight};
use crate::place::Place;
use crate::records::{are_apart, is_inner_record, is_leaf_record};
use bz_layout::NODE_WORDS;

// How many records there are.
fn count_of(words: &[u64]) -> u32
    requires whole { length words.now ≡ WORDS }
    requires filled { IsFilled (page (node_of words.now)) }
    ensures { result ≡ (page (node_of words.now)).count }
{
    status_of(words).count
}

/// Whether each record of a leaf breaks no rule by itself.
pub(crate) fn all_leaf_records(raw: &[u64], words: &[u64]) -> bool
    requires whole { length words.now ≡ WORDS }
    requires raw { length raw.now ≡ WORDS }
    requires filled { IsFilled (page (node_of words.now)) }
    ensures { result ≡ every (page (node_of words.now)).count (leaf_record_test (node_of raw.now) (page (node_of words.now))) }
{
    let count = count_of(words);
    for j in 0..count {
        if !is_leaf_record(raw, words, j) {
            return false;
        }
    }
    true
}

/// Whether each record of an inner node breaks no rule by itself.
pub(crate) fn all_inner_records(raw: &[u64], words: &[u64]) -> bool
    requires whole { length words.now ≡ WORDS }
    requires raw { length raw.now ≡ WORDS }
    requires filled { IsFilled (page (node_of words.now)) }
    ensures { result ≡ every (page (node_of words.now)).count (inner_record_test (node_of raw.now) (page (node_of words.now))) }
{
    let count = count_of(words);
    for j in 0..count {
        if !is_inner_record(raw, words, j) {
            return false;
        }
    }
    true
}

// Whether a record shares no word with those before it.
fn is_apart_below(words: &[u64], j: u32) -> bool
    requires whole { length words.now ≡ WORDS }
    requires filled { IsFilled (page (node_of words.now)) }
    requires used { j < (page (node_of words.now)).count }
    ensures { result ≡ every j (λ i. apart_test (page (node_of words.now)) i j) }
{
    for i in 0..j {
        if !are_apart(words, i, j) {
            return false;
        }
    }
    true
}

// Whether a record, if it holds words, ends by a place.
fn ends_by(words: &[u64], j: u32, end: u32) -> bool
    requires whole { length words.now ≡ WORDS }
    requires shared { j < SHARED }
    ensures { result ≡ true → held ((page (node_of words.now)).meta j) ≡ true → (extent_in ((page (node_of words.now)).meta j)).offset + words_held ((page (node_of words.now)).meta j) ≤ end }
{
    let meta = meta_of(words, j);
    if !is_held(meta) {
        return true;
    }
    extent_of(meta).offset + weight(meta) <= end
}

// The lower of a place and the first word that a record holds.
fn lowest_with(words: &[u64], j: u32, lowest: u32) -> u32
    requires whole { length words.now ≡ WORDS }
    requires shared { j < SHARED }
    ensures below { result ≤ lowest }
    ensures own { held ((page (node_of words.now)).meta j) ≡ true → result ≤ (extent_in ((page (node_of words.now)).meta j)).offset }
{
    let meta = meta_of(words, j);
    if !is_held(meta) {
        return lowest;
    }
    lowest.min(extent_of(meta).offset)
}

// Whether a record shares no word with those before it, which begin at this place or above. Most records end there.
fn is_apart(words: &[u64], j: u32, lowest: u32) -> bool
    requires whole { length words.now ≡ WORDS }
    requires filled { IsFilled (page (node_of words.now)) }
    requires used { j < (page (node_of words.now)).count }
    requires above { BeginsAbove (page (node_of words.now)) j lowest }
    ensures { result ≡ every j (λ i. apart_test (page (node_of words.now)) i j) }
{
    if ends_by(words, j, lowest) {
        return true;
    }
    is_apart_below(words, j)
}

/// Whether no two records share a word.
pub(crate) fn all_apart(words: &[u64]) -> bool
    requires whole { length words.now ≡ WORDS }
    requires filled { IsFilled (page (node_of words.now)) }
    ensures { result ≡ every_two (page (node_of words.now)).count (apart_test (page (node_of words.now))) }
{
    let count = count_of(words);
    let mut lowest = NODE_WORDS;
    for j in 0..count {
        if !is_apart(words, j, lowest) {
            return false;
        }
        lowest = lowest_with(words, j, lowest);
    }
    true
}

// Whether a record rises above those before it, where these rise: it is enough to look at the last visible one.
fn is_after_below(words: &[u64], j: u32) -> bool
    requires whole { length words.now ≡ WORDS }
    requires filled { IsFilled (page (node_of words.now)) }
    requires keys { KeysAreRead (page (node_of words.now)) }
    requires used { j < (page (node_of words.now)).count }
    requires rise { every_two j (order_test (page (node_of words.now))) ≡ true }
    ensures { result ≡ every j (λ i. order_test (page (node_of words.now)) i j) }
{
    let mut i = j;
    while i > 0 {
        i -= 1;
        if is_visible(meta_of(words, i)) {
            return in_order(words, i, j);
        }
    }
    true
}

/// Whether the sorted records rise.
pub(crate) fn all_rise(words: &[u64]) -> bool
    requires whole { length words.now ≡ WORDS }
    requires header { node_of words.now HEADER < 2 ^ 32 }
    requires filled { IsFilled (page (node_of words.now)) }
    requires keys { KeysAreRead (page (node_of words.now)) }
    ensures { result ≡ every_two (page (node_of words.now)).sorted (order_test (page (node_of words.now))) }
{
    let sorted = header_of(words).sorted;
    for j in 0..sorted {
        if !is_after_below(words, j) {
            return false;
        }
    }
    true
}

// Whether a record has another key than those before it.
fn is_other_below(words: &[u64], j: u32) -> bool
    requires whole { length words.now ≡ WORDS }
    requires filled { IsFilled (page (node_of words.now)) }
    requires keys { KeysAreRead (page (node_of words.now)) }
    requires used { j < (page (node_of words.now)).count }
    ensures { result ≡ every j (λ i. distinct_test (page (node_of words.now)) i j) }
{
    for i in 0..j {
        if !differ(words, i, j) {
            return false;
        }
    }
    true
}

/// Whether no two visible records have one key, where the sorted ones rise.
pub(crate) fn all_differ(words: &[u64]) -> bool
    requires whole { length words.now ≡ WORDS }
    requires header { node_of words.now HEADER < 2 ^ 32 }
    requires filled { IsFilled (page (node_of words.now)) }
    requires keys { KeysAreRead (page (node_of words.now)) }
    requires rise { every_two (page (node_of words.now)).sorted (order_test (page (node_of words.now))) ≡ true }
    ensures { result ≡ every_two (page (node_of words.now)).count (distinct_test (page (node_of words.now))) }
{
    let count = count_of(words);
    for j in header_of(words).sorted..count {
        if !is_other_below(words, j) {
            return false;
        }
    }
    true
}

/// Whether the keys of a leaf are in range.
pub(crate) fn all_leaf_keys(words: &[u64], place: &Place) -> bool
    requires whole { length words.now ≡ WORDS }
    requires filled { IsFilled (page (node_of words.now)) }
    requires keys { KeysAreRead (page (node_of words.now)) }
    ensures { result ≡ every (page (node_of words.now)).count (leaf_key_test (page (node_of words.now)) place.now.low place.now.high) }
{
    let count = count_of(words);
    for j in 0..count {
        if !is_leaf_key(words, place, j) {
            return false;
        }
    }
    true
}

/// Whether the keys of an inner node are in range.
pub(crate) fn all_inner_keys(words: &[u64], place: &Place) -> bool
    requires whole { length words.now ≡ WORDS }
    requires filled { IsFilled (page (node_of words.now)) }
    requires keys { KeysAreRead (page (node_of words.now)) }
    requires shows { (i : ℕ) → i < (page (node_of words.now)).count → visible ((page (node_of words.now)).meta i) ≡ true }
    ensures { result ≡ every (page (node_of words.now)).count (inner_key_test (page (node_of words.now)) place.now.low place.now.high) }
{
    let count = count_of(words);
    for j in 0..count {
        if !is_inner_key(words, place, j) {
            return false;
        }
    }
    true
}

/// Whether each pointer is one of so many slots.
pub(crate) fn all_children(words: &[u64], nodes: u32) -> bool
    requires whole { length words.now ≡ WORDS }
    requires filled { IsFilled (page (node_of words.now)) }
    requires pointers { PointersAreRead (page (node_of words.now)) }
    ensures { result ≡ every (page (node_of words.now)).count (child_test nodes (page (node_of words.now))) }
{
    let count = count_of(words);
    for j in 0..count {
        if !is_child(words, nodes, j) {
            return false;
        }
    }
    true
}
