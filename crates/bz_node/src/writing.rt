//! Packed keys and payloads, written into words.
ghost use Rattle.std.specs.Prelude.{◌≡◌, ◌≤◌, length, replicate};
ghost use Rattle.bz_key.specs.Packing.{packed};
ghost use Rattle.bz_node.specs.Layout.{bound_of, fence_words};
ghost use Rattle.bz_node.specs.Records.{IsBound};

use bz_key::{KEY_BYTES, Key, Payload};
use bz_layout::{FENCE_WORDS, PAYLOAD_WORDS};

/// Fills `out` with the words of a key.
pub(crate) fn put_key(key: &Key, out: &mut [u64])
    requires { length out.old ≡ length (packed key.now) }
    ensures { out.new ≡ packed key.now }
{
    for (i, word) in out.iter_mut().enumerate() {
        *word = key.word(i);
    }
}

/// Fills `out` with the words of a payload.
pub(crate) fn put_payload(payload: &Payload, out: &mut [u64])
    requires { length out.old ≡ length (packed payload.now) }
    ensures { out.new ≡ packed payload.now }
{
    for (i, word) in out.iter_mut().enumerate() {
        *word = payload.word(i);
    }
}

/// How many bytes a bound has: none where it is absent.
pub(crate) fn bound_bytes(bound: &Option<Key>) -> u32
    ensures count { result ≡ length (bound_of bound.now) }
    ensures bound { IsBound bound.now }
    ensures fits { result ≤ KEY_BYTES }
{
    match bound {
        Some(key) => key.bytes().len() as u32,
        None => 0,
    }
}

/// How many words a bound takes.
pub(crate) fn bound_words(bound: &Option<Key>) -> usize
    ensures count { result ≡ length (packed (bound_of bound.now)) }
    ensures fits { result ≤ FENCE_WORDS }
{
    match bound {
        Some(key) => key_words(key),
        None => 0,
    }
}

/// How many words a key takes.
pub(crate) fn key_words(key: &Key) -> usize
    ensures count { result ≡ length (packed key.now) }
    ensures fits { result ≤ FENCE_WORDS }
{
    let _bytes = key.bytes();
    key.words()
}

/// How many words a payload takes.
pub(crate) fn payload_words(payload: &Payload) -> usize
    ensures count { result ≡ length (packed payload.now) }
    ensures fits { result ≤ PAYLOAD_WORDS }
{
    let _bytes = payload.bytes();
    payload.words()
}

/// Fills `out` with the words of a bound.
pub(crate) fn put_bound(bound: &Option<Key>, out: &mut [u64])
    requires { length out.old ≡ length (packed (bound_of bound.now)) }
    ensures { out.new ≡ packed (bound_of bound.now) }
{
    match bound {
        Some(key) => put_key(key, out),
        None => {}
    }
}

/// Fills `out`, whose words are 0, with a fence.
pub(crate) fn put_fence(fence: &Option<Key>, out: &mut [u64])
    requires { out.old ≡ replicate FENCE_WORDS 0 }
    ensures { out.new ≡ fence_words fence.now }
{
    let words = bound_words(fence);
    put_bound(fence, &mut out[..words]);
}
