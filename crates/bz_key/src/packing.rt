//! Packing: seven bytes to a word, the first one highest.
ghost use Rattle.std.specs.Prelude.{◌≡◌, ◌≤◌, ◌<◌, ◌*◌, ◌-◌, ◌/◌, ◌%◌, ◌^◌, length, slice_index_or, bytes_eq};
ghost use Rattle.bz_key.specs.Packing.{packed_len, packed_word, packed, unpacked, unpacked_payload};

use crate::limits::LONGEST;
use crate::short_bytes::ShortBytes;

const BYTES_IN_WORD: usize = 7;

/// How many words so many bytes take.
pub(crate) fn word_count(len: usize) -> usize
    requires { len ≤ LONGEST }
    ensures { result ≡ packed_len len }
{
    len.div_ceil(BYTES_IN_WORD)
}

// A byte, or 0 past the end.
fn byte_or_zero(bytes: &[u8], place: usize) -> u64
    ensures value { result ≡ slice_index_or bytes.now place 0 }
    ensures small { result < 256 }
{
    if place < bytes.len() {
        bytes[place] as u64
    } else {
        0
    }
}

/// The word of the packing at an index.
#[tactic(auto, unfolding(crate::specs::Packing::packed_word))]
pub(crate) fn word_of(bytes: &[u8], i: usize) -> u64
    requires within { i < packed_len (length bytes.now) }
    requires fits { length bytes.now ≤ LONGEST }
    ensures { result ≡ packed_word bytes.now (7 * i) }
{
    let place = BYTES_IN_WORD * i;
    (byte_or_zero(bytes, place) << 48)
        + (byte_or_zero(bytes, place + 1) << 40)
        + (byte_or_zero(bytes, place + 2) << 32)
        + (byte_or_zero(bytes, place + 3) << 24)
        + (byte_or_zero(bytes, place + 4) << 16)
        + (byte_or_zero(bytes, place + 5) << 8)
        + byte_or_zero(bytes, place + 6)
}

// Whether the words are the packing of the bytes.
fn is_packing(bytes: &[u8], words: &[u64]) -> bool
    requires { length bytes.now ≤ LONGEST }
    ensures { result ≡ bytes_eq (packed bytes.now) words.now }
{
    if words.len() != word_count(bytes.len()) {
        return false;
    }
    for i in 0..words.len() {
        if words[i] != word_of(bytes, i) {
            return false;
        }
    }
    true
}

// So many bytes, read from the words that they take.
fn unpack(len: usize, words: &[u64]) -> ShortBytes
    requires fits { len ≤ LONGEST }
    requires counted { length words.now ≡ packed_len len }
    ensures { result ≡ unpacked len words.now }
{
    let mut array = [0u8; LONGEST];
    for place in 0..len {
        array[place] = byte_of(words[place / BYTES_IN_WORD], place % BYTES_IN_WORD);
    }
    ShortBytes::of(&array[..len])
}

// The byte of a word at a place of it, the highest first.
fn byte_of(word: u64, place: usize) -> u8
    requires { place < BYTES_IN_WORD }
    ensures { result ≡ word / 2 ^ (8 * (6 - place)) % 256 }
{
    ((word >> (8 * (BYTES_IN_WORD - 1 - place))) % 0x100) as u8
}

/// The bytes of this length whose packing the words are, if there are such bytes.
#[tactic(auto, unfolding(crate::specs::Packing::unpacked_payload))]
pub(crate) fn packed_in(len: usize, words: &[u64]) -> Option<ShortBytes>
    ensures { result ≡ unpacked_payload len words.now }
{
    if len > LONGEST {
        return None;
    }
    if words.len() != word_count(len) {
        return None;
    }
    let bytes = unpack(len, words);
    if is_packing(bytes.as_slice(), words) {
        Some(bytes)
    } else {
        None
    }
}
