//! What the words of a leaf that can be read say of its records, one by one.

ghost use Rattle.std.specs.Prelude.{◌≡◌, ◌≤◌, ◌<◌, ◌^◌, length};
ghost use Rattle.bz_key.specs.Packing.{packed_len};
ghost use Rattle.bz_node.specs.Reading.{IsReadable, HasPair, count_in, meta_in, pair_in};
ghost use Rattle.bz_word.specs.Metas.{IsExtent, IsMeta};

use bz_key::{Key, Payload};
use bz_layout::{BYTES_IN_WORD, META_AT, NODE_WORDS, SHARED_WORDS, STATUS_AT};
use bz_word::{Extent, Meta, Status};

/// How many metadata words are in use.
pub(crate) fn count_of(words: &[u64]) -> u32
    requires whole { length words.now ≡ NODE_WORDS }
    requires readable { IsReadable words.now }
    ensures count { result ≡ count_in words.now }
    ensures room { result ≤ SHARED_WORDS }
{
    match Status::unpack(words[STATUS_AT as usize]) {
        Some(status) => status.count,
        None => unreachable!(),
    }
}

/// What the metadata word at a place says.
pub(crate) fn meta_of(words: &[u64], i: u32) -> Meta
    requires whole { length words.now ≡ NODE_WORDS }
    requires readable { IsReadable words.now }
    requires used { i < count_in words.now }
    ensures says { result ≡ meta_in words.now i }
    ensures lawful { IsMeta result }
{
    match Meta::unpack(words[(META_AT + i) as usize]) {
        Some(meta) => meta,
        None => unreachable!(),
    }
}

// How many words so many bytes take.
fn words_for(bytes: u32) -> u32
    requires { bytes < 2 ^ 16 }
    ensures words { result ≡ packed_len bytes }
    ensures small { result < 2 ^ 16 }
{
    bytes.div_ceil(BYTES_IN_WORD)
}

/// The key and the payload of a leaf's record.
pub(crate) fn pair_of(words: &[u64], extent: Extent) -> (Key, Payload)
    requires whole { length words.now ≡ NODE_WORDS }
    requires extent { IsExtent extent }
    requires pair { HasPair words.now extent }
    ensures { result ≡ pair_in words.now extent }
{
    let start = extent.offset as usize;
    let bytes = extent.total - extent.key;
    let middle = start + words_for(extent.key) as usize;
    let end = middle + words_for(bytes) as usize;
    let key = Key::from_words(extent.key as usize, &words[start..middle]);
    let payload = Payload::from_words(bytes as usize, &words[middle..end]);
    match (key, payload) {
        (Some(key), Some(payload)) => (key, payload),
        _ => unreachable!(),
    }
}
