//! The rules of a node's words before its metadata: level and fences.
ghost use Rattle.std.specs.Prelude.{◌≡◌, ◌+◌, ◌≤◌, ◌<◌, ◌^◌, length, true};
ghost use Rattle.bz_layout.specs.declared.sizes.TheConstants.{NODE_WORDS as WORDS, HEADER_AT as HEADER, FENCE_WORDS as FENCE};
ghost use Rattle.bz_slotted.specs.Page.{page};
ghost use Rattle.bz_slotted.specs.ReadingLaws.{node_of};
ghost use Rattle.bz_slotted.specs.Rules.{level_test, fence_test, fences_test};
ghost use Rattle.bz_slotted.specs.Tests.{every};
ghost use Rattle.std.specs.Prelude.{◌==◌};

use crate::metas::words_for;
use crate::place::Place;
use bz_key::{KEY_BYTES, Key};
use bz_layout::{FENCE_WORDS, HEADER_AT, HIGH_FENCE_AT, LOW_FENCE_AT, MAX_LEVELS};
use bz_word::Header;

/// Whether the header unpacks and has this level, which a tree may have.
pub(crate) fn is_at_level(words: &[u64], level: u32) -> bool
    requires { length words.now ≡ WORDS }
    ensures { result ≡ level_test (page (node_of words.now)) level }
{
    match Header::unpack(words[HEADER_AT as usize]) {
        Some(header) => header.level == level && level < MAX_LEVELS,
        None => false,
    }
}

// Whether the words of an absent fence are 0.
fn is_blank(words: &[u64], at: usize) -> bool
    requires { at + FENCE ≤ length words.now }
    ensures { result ≡ every FENCE (λ i. node_of words.now (at + i) == 0) }
{
    for i in 0..FENCE_WORDS as usize {
        if words[at + i] != 0 {
            return false;
        }
    }
    true
}

// Whether the fence of so many bytes at a place is this bound.
fn is_fence(words: &[u64], at: usize, len: u32, bound: &Option<Key>) -> bool
    requires { at + FENCE ≤ length words.now }
    ensures { result ≡ fence_test (node_of words.now) at len bound.now }
{
    match bound {
        None => len == 0 && is_blank(words, at),
        Some(key) => {
            if len as usize > KEY_BYTES {
                return false;
            }
            let end = at + words_for(len) as usize;
            match Key::from_words(len as usize, &words[at..end]) {
                Some(read) => read == *key,
                None => false,
            }
        }
    }
}

/// Whether both fences are the bounds.
pub(crate) fn has_fences(words: &[u64], place: &Place) -> bool
    requires whole { length words.now ≡ WORDS }
    requires header { node_of words.now HEADER < 2 ^ 32 }
    ensures { result ≡ fences_test (page (node_of words.now)) place.now.low place.now.high }
{
    match Header::unpack(words[HEADER_AT as usize]) {
        Some(header) => {
            is_fence(words, LOW_FENCE_AT as usize, header.low, &place.low)
                && is_fence(words, HIGH_FENCE_AT as usize, header.high, &place.high)
        }
        None => unreachable!(),
    }
}
