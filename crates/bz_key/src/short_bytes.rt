//! A short string of bytes in a fixed array: what a key and a payload are made of.
//!
//! The places of the array past the count hold 0, so equal strings are equal structs.
ghost use Rattle.std.specs.Prelude.{◌≡◌, ◌≤◌, ◌<◌, ◌^◌, length, slice_index};
ghost use Rattle.bz_key.specs.Bytes.{AreBytes};
ghost use Rattle.bz_key.specs.Packing.{packed};

use crate::limits::LONGEST;
use crate::packing::{word_count, word_of};
use std::marker::Model;

/// At most `LONGEST` bytes, seen as their list.
#[derive(Clone, Copy, Debug)]
pub(crate) struct ShortBytes {
    array: [u8; LONGEST],
    count: u8,
}

impl Model for ShortBytes {
    ghost use Rattle.std.specs.Prelude.{List, ℕ, take, length};
    ghost use Rattle.bz_key.specs.Padded.{padded, IsPadded, padded_again, length_again};

    ghost Value = { List ℕ };

    ghost view = { λ s. take s.count s.array };

    ghost invariant = { λ s. IsPadded s.array s.count };

    ghost inverse = { λ bytes. record { array = padded bytes; count = length bytes } };

    ghost inverse_ok = { λ s h i. record { array = padded_again s.array s.count h i; count = length_again s.array s.count h i } };
}

impl ShortBytes {
    pub(crate) fn of(bytes: &[u8]) -> ShortBytes
        requires { length bytes.now ≤ LONGEST }
        ensures { result ≡ bytes.now }
    {
        let mut array = [0u8; LONGEST];
        array[..bytes.len()].copy_from_slice(bytes);
        ShortBytes {
            array,
            count: bytes.len() as u8,
        }
    }

    pub(crate) fn as_slice(&self) -> &[u8]
        ensures same { result.now ≡ self.now }
        ensures fits { length self.now ≤ LONGEST }
        ensures bytes { AreBytes self.now }
    {
        &self.array[..self.count as usize]
    }

    pub(crate) fn words(&self) -> usize
        ensures { result ≡ length (packed self.now) }
    {
        word_count(self.as_slice().len())
    }

    pub(crate) fn word(&self, i: usize) -> u64
        requires { i < length (packed self.now) }
        ensures word { result ≡ slice_index (packed self.now) i }
        ensures small { result < 2 ^ 56 }
    {
        word_of(self.as_slice(), i)
    }
}
