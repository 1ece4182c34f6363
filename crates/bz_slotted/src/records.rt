//! The rules of records, one at a time and two at a time.
ghost use Rattle.std.specs.Prelude.{◌≡◌, ◌+◌, ◌≤◌, ◌<◌, ◌^◌, length, true};
ghost use Rattle.bz_key.specs.declared.limits.TheConstants.{KEY_BYTES as KEY, PAYLOAD_BYTES as PAYLOAD};
ghost use Rattle.bz_layout.specs.declared.sizes.TheConstants.{NODE_WORDS as WORDS, SHARED_WORDS as SHARED, STATUS_AT as STATUS};
ghost use Rattle.bz_node.specs.Reading.{extent_words as words_in, payload_len};
ghost use Rattle.bz_slotted.specs.Page.{page, extent_of as extent_in};
ghost use Rattle.bz_slotted.specs.ReadingLaws.{node_of};
ghost use Rattle.bz_slotted.specs.Records.{weight as words_held};
ghost use Rattle.bz_slotted.specs.Rules.{leaf_lengths_test, inner_lengths_test, inside_test, apart_test, plain_key_test, plain_payload_test, leaf_record_test, inner_record_test};
ghost use Rattle.bz_word.specs.Metas.{IsMeta};

use crate::filling::status_of;
use crate::metas::{extent_of, is_held, is_used, is_visible, meta_of, weight, words_for};
use bz_key::{KEY_BYTES, Key, PAYLOAD_BYTES, Payload};
use bz_layout::NODE_WORDS;
use bz_word::{Extent, Meta};

/// The bytes that the length of a child pointer counts.
const POINTER_BYTES: u32 = 7;

// Whether the lengths are those of a leaf's record.
fn has_leaf_lengths(meta: Meta) -> bool
    requires { IsMeta meta }
    ensures { result ≡ leaf_lengths_test meta }
{
    let extent = extent_of(meta);
    if extent.key == 0 {
        return false;
    }
    if extent.key > KEY_BYTES as u32 {
        return false;
    }
    extent.total - extent.key <= PAYLOAD_BYTES as u32
}

// Whether the lengths are those of record j of an inner node.
fn has_inner_lengths(j: u32, meta: Meta) -> bool
    requires { IsMeta meta }
    ensures { result ≡ inner_lengths_test j meta }
{
    let extent = extent_of(meta);
    if extent.total != extent.key + POINTER_BYTES {
        return false;
    }
    if j == 0 {
        return extent.key == 0;
    }
    if extent.key == 0 {
        return false;
    }
    extent.key <= KEY_BYTES as u32
}

// Whether a record that holds words lies in the block.
fn is_inside(words: &[u64], meta: Meta) -> bool
    requires whole { length words.now ≡ WORDS }
    requires status { node_of words.now STATUS < 2 ^ 61 }
    requires meta { IsMeta meta }
    ensures { result ≡ inside_test (page (node_of words.now)) meta }
{
    if !is_held(meta) {
        return true;
    }
    let extent = extent_of(meta);
    if extent.offset + status_of(words).block < NODE_WORDS {
        return false;
    }
    extent.offset + weight(meta) <= NODE_WORDS
}

/// Whether two records that hold words share none.
pub(crate) fn are_apart(words: &[u64], i: u32, j: u32) -> bool
    requires whole { length words.now ≡ WORDS }
    requires first { i < SHARED }
    requires second { j < SHARED }
    ensures { result ≡ apart_test (page (node_of words.now)) i j }
{
    let a = meta_of(words, i);
    let b = meta_of(words, j);
    if !is_held(a) {
        return true;
    }
    if !is_held(b) {
        return true;
    }
    if extent_of(a).offset + weight(a) <= extent_of(b).offset {
        return true;
    }
    extent_of(b).offset + weight(b) <= extent_of(a).offset
}

// Whether a key's words stand resolved as they are, and are a plain packing.
fn is_plain_key(raw: &[u64], words: &[u64], extent: Extent) -> bool
    requires whole { length words.now ≡ WORDS }
    requires raw { length raw.now ≡ WORDS }
    requires inside { extent.offset + words_in extent ≤ WORDS }
    requires short { extent.key ≤ KEY }
    ensures { result ≡ plain_key_test (node_of raw.now) (node_of words.now) extent }
{
    let start = extent.offset as usize;
    let end = start + words_for(extent.key) as usize;
    if raw[start..end] != words[start..end] {
        return false;
    }
    Key::from_words(extent.key as usize, &words[start..end]).is_some()
}

// Whether a payload's words stand resolved as they are, and are a plain packing.
fn is_plain_payload(raw: &[u64], words: &[u64], extent: Extent) -> bool
    requires whole { length words.now ≡ WORDS }
    requires raw { length raw.now ≡ WORDS }
    requires inside { extent.offset + words_in extent ≤ WORDS }
    requires key { extent.key ≤ extent.total }
    requires short { payload_len extent ≤ PAYLOAD }
    requires fits { extent.total < 2 ^ 16 }
    ensures { result ≡ plain_payload_test (node_of raw.now) (node_of words.now) extent }
{
    let bytes = extent.total - extent.key;
    let start = (extent.offset + words_for(extent.key)) as usize;
    let end = start + words_for(bytes) as usize;
    if raw[start..end] != words[start..end] {
        return false;
    }
    Payload::from_words(bytes as usize, &words[start..end]).is_some()
}

/// Whether record j of a leaf breaks no rule by itself.
pub(crate) fn is_leaf_record(raw: &[u64], words: &[u64], j: u32) -> bool
    requires whole { length words.now ≡ WORDS }
    requires raw { length raw.now ≡ WORDS }
    requires status { node_of words.now STATUS < 2 ^ 61 }
    requires shared { j < SHARED }
    ensures { result ≡ leaf_record_test (node_of raw.now) (page (node_of words.now)) j }
{
    let meta = meta_of(words, j);
    if !is_used(meta) {
        return false;
    }
    if !has_leaf_lengths(meta) {
        return false;
    }
    if !is_inside(words, meta) {
        return false;
    }
    if !is_visible(meta) {
        return true;
    }
    if !is_plain_key(raw, words, extent_of(meta)) {
        return false;
    }
    is_plain_payload(raw, words, extent_of(meta))
}

/// Whether record j of an inner node breaks no rule by itself.
pub(crate) fn is_inner_record(raw: &[u64], words: &[u64], j: u32) -> bool
    requires whole { length words.now ≡ WORDS }
    requires raw { length raw.now ≡ WORDS }
    requires status { node_of words.now STATUS < 2 ^ 61 }
    requires shared { j < SHARED }
    ensures { result ≡ inner_record_test (node_of raw.now) (page (node_of words.now)) j }
{
    let meta = meta_of(words, j);
    if !is_visible(meta) {
        return false;
    }
    if !has_inner_lengths(j, meta) {
        return false;
    }
    if !is_inside(words, meta) {
        return false;
    }
    if j == 0 {
        return true;
    }
    is_plain_key(raw, words, extent_of(meta))
}
