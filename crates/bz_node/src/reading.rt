//! Reading the words of a node.
ghost use Rattle.std.specs.Prelude.{◌≡◌, ◌≤◌, ◌<◌, ◌^◌, length, slice_index};
ghost use Rattle.bz_key.specs.Packing.{packed_len};
ghost use Rattle.bz_word.specs.Headers.{IsHeaderWord};
ghost use Rattle.bz_word.specs.Metas.{IsExtent, IsMeta};
ghost use Rattle.bz_layout.specs.declared.sizes.TheConstants.{HEADER_AT as HEADER};
ghost use Rattle.bz_node.specs.Reading.{IsReadable, count_in, meta_in, words_shown, live_in, low_in, high_len, high_in, child_in, pair_in, HasChild, HasHighFence, HasPair, IsReadableInner};

use crate::child::Child;
use bz_key::{Key, Payload};
use bz_layout::{
    BYTES_IN_WORD, HEADER_AT, HIGH_FENCE_AT, META_AT, NODE_WORDS, SHARED_WORDS, STATUS_AT,
};
use bz_word::{Extent, Header, Meta, Status};

/// How many metadata words are in use.
pub(crate) fn count_of(words: &[u64]) -> u32
    requires whole { length words.now ≡ NODE_WORDS }
    requires readable { IsReadable words.now }
    ensures count { result ≡ count_in words.now }
    ensures room { result ≤ SHARED_WORDS }
{
    match Status::unpack(words[STATUS_AT as usize]) {
        Some(status) => status.count,
        None => unreachable!(),
    }
}

/// What the metadata word at a place says.
pub(crate) fn meta_of(words: &[u64], i: u32) -> Meta
    requires whole { length words.now ≡ NODE_WORDS }
    requires readable { IsReadable words.now }
    requires used { i < count_in words.now }
    ensures says { result ≡ meta_in words.now i }
    ensures lawful { IsMeta result }
{
    match Meta::unpack(words[(META_AT + i) as usize]) {
        Some(meta) => meta,
        None => unreachable!(),
    }
}

// How many words so many bytes take.
fn words_for(bytes: u32) -> u32
    requires { bytes < 2 ^ 16 }
    ensures words { result ≡ packed_len bytes }
    ensures small { result < 2 ^ 16 }
{
    bytes.div_ceil(BYTES_IN_WORD)
}

// The words that a record takes with its metadata word, where it is visible.
fn extent_words(meta: Meta) -> u32
    requires { IsMeta meta }
    ensures words { result ≡ words_shown meta }
    ensures small { result < 2 ^ 17 }
{
    match meta {
        Meta::Visible(extent) => {
            1 + words_for(extent.key) + words_for(extent.total - extent.key)
        }
        _ => 0,
    }
}

/// The words that the visible records of a leaf take, with their metadata words.
pub(crate) fn live_words_of(words: &[u64]) -> u32
    requires whole { length words.now ≡ NODE_WORDS }
    requires readable { IsReadable words.now }
    ensures { result ≡ live_in words.now }
{
    let mut live = 0;
    for i in 0..count_of(words) {
        live += extent_words(meta_of(words, i));
    }
    live
}

// The key of a record, if it has one.
fn low_of(words: &[u64], extent: Extent) -> Option<Key>
    requires whole { length words.now ≡ NODE_WORDS }
    requires extent { IsExtent extent }
    requires child { HasChild words.now extent }
    ensures { result ≡ low_in words.now extent }
{
    if extent.key == 0 {
        return None;
    }
    let start = extent.offset as usize;
    let end = start + words_for(extent.key) as usize;
    Key::from_words(extent.key as usize, &words[start..end])
}

// How many bytes the high fence has.
fn high_len_of(words: &[u64]) -> u32
    requires whole { length words.now ≡ NODE_WORDS }
    requires header { IsHeaderWord (slice_index words.now HEADER) }
    ensures { result ≡ high_len words.now }
{
    match Header::unpack(words[HEADER_AT as usize]) {
        Some(header) => header.high,
        None => unreachable!(),
    }
}

/// The high fence of a node, if it has one.
pub(crate) fn high_of(words: &[u64]) -> Option<Key>
    requires whole { length words.now ≡ NODE_WORDS }
    requires fence { HasHighFence words.now }
    ensures { result ≡ high_in words.now }
{
    let len = high_len_of(words);
    if len == 0 {
        return None;
    }
    let start = HIGH_FENCE_AT as usize;
    let end = start + words_for(len) as usize;
    Key::from_words(len as usize, &words[start..end])
}

/// The child of the record at a place of an inner node.
pub(crate) fn child_of(words: &[u64], i: u32) -> Child
    requires whole { length words.now ≡ NODE_WORDS }
    requires readable { IsReadableInner words.now }
    requires used { i < count_in words.now }
    ensures { result ≡ child_in words.now i }
{
    match meta_of(words, i) {
        Meta::Visible(extent) => {
            let at = extent.offset + words_for(extent.key);
            Child {
                low: low_of(words, extent),
                slot: (words[at as usize] - 1) as u16,
            }
        }
        _ => unreachable!(),
    }
}

/// The key and the payload of a leaf's record.
pub(crate) fn pair_of(words: &[u64], extent: Extent) -> (Key, Payload)
    requires whole { length words.now ≡ NODE_WORDS }
    requires extent { IsExtent extent }
    requires pair { HasPair words.now extent }
    ensures { result ≡ pair_in words.now extent }
{
    let start = extent.offset as usize;
    let bytes = extent.total - extent.key;
    let middle = start + words_for(extent.key) as usize;
    let end = middle + words_for(bytes) as usize;
    let key = Key::from_words(extent.key as usize, &words[start..middle]);
    let payload = Payload::from_words(bytes as usize, &words[middle..end]);
    match (key, payload) {
        (Some(key), Some(payload)) => (key, payload),
        _ => unreachable!(),
    }
}
