//! Reading the one spelling of keys and payloads.
ghost use Rattle.std.specs.Prelude.{◌≡◌, ◌≤◌, ◌<◌, ◌∷◌, [], length, take, bytes_eq, MatchOption};
ghost use Rattle.bz_key.specs.Spelling.{hex_value, spelled, decoded, key_of_word, payload_of_word};
ghost use Rattle.bz_key.specs.Steps.{Takes};

use crate::key::Key;
use crate::limits::{LONGEST, SPELLED_BYTES};
use crate::payload::Payload;
use crate::short_bytes::ShortBytes;
use crate::spelling::spell;

// The number of a hexadecimal digit, or some number for another byte.
fn value_of(digit: u8) -> u8
    ensures { result ≡ hex_value digit }
{
    if digit < b':' {
        digit.saturating_sub(b'0')
    } else {
        digit - 55
    }
}

// The first byte that the word is read as, and how much of the word it takes.
fn first_byte(word: &[u8]) -> Option<(u8, usize)>
    ensures { MatchOption result (decoded word.now ≡ []) (λ first. Takes word.now first.0 first.1) }
{
    if word.is_empty() {
        return None;
    }
    if word[0] != b'%' {
        return Some((word[0], 1));
    }
    if word.len() < 3 {
        return None;
    }
    let byte = (value_of(word[1]) as u16 * 16 + value_of(word[2]) as u16) % 0x100;
    Some((byte as u8, 3))
}

// Puts the bytes that the word is read as at the front of `out`, and answers how many.
fn decode(word: &[u8], out: &mut [u8]) -> usize
    requires { length word.now ≤ length out.old }
    ensures bytes { take result out.new ≡ decoded word.now }
    ensures fits { result ≤ length out.new }
{
    let mut count = 0;
    let mut at = 0;
    while let Some((byte, taken)) = first_byte(&word[at..]) {
        out[count] = byte;
        count += 1;
        at += taken;
    }
    count
}

// The bytes that the word spells, if it is their spelling.
fn short_bytes_of(word: &[u8]) -> Option<ShortBytes>
    ensures { result ≡ payload_of_word word.now }
{
    if word.len() > SPELLED_BYTES {
        return None;
    }
    let mut decoded = [0u8; SPELLED_BYTES];
    let count = decode(word, &mut decoded);
    if count > LONGEST {
        return None;
    }
    let bytes = ShortBytes::of(&decoded[..count]);
    if is_spelling(bytes.as_slice(), word) {
        Some(bytes)
    } else {
        None
    }
}

// Whether the word is the spelling of the bytes.
fn is_spelling(bytes: &[u8], word: &[u8]) -> bool
    requires { length bytes.now ≤ LONGEST }
    ensures { result ≡ bytes_eq (spelled bytes.now) word.now }
{
    let mut spelling = [0u8; SPELLED_BYTES];
    let len = spell(bytes, &mut spelling);
    &spelling[..len] == word
}

/// The key that the word spells, if there is one.
pub fn read_key(word: &[u8]) -> Option<Key>
    ensures { result ≡ key_of_word word.now }
{
    let bytes = short_bytes_of(word)?;
    if bytes.as_slice().is_empty() {
        return None;
    }
    Some(Key::of_short(bytes))
}

/// The payload that the word spells, if there is one.
pub fn read_payload(word: &[u8]) -> Option<Payload>
    ensures { result ≡ payload_of_word word.now }
{
    let bytes = short_bytes_of(word)?;
    Some(Payload::of_short(bytes))
}
