//! A key: 1 to `KEY_BYTES` bytes, ordered by its bytes.
ghost use Rattle.std.specs.Prelude.{◌≡◌, ◌≤◌, ◌<◌, ◌^◌, length, slice_index, IfOk, IsErrOf, ◌↔◌};
ghost use Rattle.bz_key.specs.Bytes.{IsKey};
ghost use Rattle.bz_key.specs.Packing.{packed, unpacked_key};

use crate::error::KeyError;
use crate::limits::KEY_BYTES;
use crate::packing::packed_in;
use crate::short_bytes::ShortBytes;
use std::cmp::Ordering;
use std::marker::Model;

/// A key, seen as its bytes.
#[derive(Clone, Copy, Debug)]
pub struct Key {
    bytes: ShortBytes,
}

impl Model for Key {
    ghost use Rattle.std.specs.Prelude.{List, ℕ};
    ghost use Rattle.bz_key.specs.Bytes.{IsKey};

    ghost Value = { List ℕ };

    ghost view = { λ k. k.bytes };

    ghost invariant = { λ k. IsKey k.bytes };

    ghost inverse = { λ bytes. record { bytes = bytes } };
}

impl Key {
    /// The key of these bytes.
    pub fn of(bytes: &[u8]) -> Result<Key, KeyError>
        ensures fits { 0 < length bytes.now → length bytes.now ≤ KEY_BYTES → result ≡ Ok bytes.now }
        ensures ok { IfOk result (λ key. key ≡ bytes.now) }
        ensures empty { IsErrOf result KeyError.Empty ↔ (length bytes.now ≡ 0) }
        ensures too_long { IsErrOf result KeyError.TooLong ↔ (KEY_BYTES < length bytes.now) }
    {
        if bytes.is_empty() {
            return Err(KeyError::Empty);
        }
        if bytes.len() > KEY_BYTES {
            return Err(KeyError::TooLong);
        }
        Ok(Key {
            bytes: ShortBytes::of(bytes),
        })
    }

    /// The bytes.
    pub fn bytes(&self) -> &[u8]
        ensures same { result.now ≡ self.now }
        ensures is_key { IsKey self.now }
    {
        self.bytes.as_slice()
    }

    /// How many words the packing of the key takes.
    pub fn words(&self) -> usize
        ensures { result ≡ length (packed self.now) }
    {
        self.bytes.words()
    }

    /// One word of the packing. All its bits above 55 are 0.
    pub fn word(&self, i: usize) -> u64
        requires { i < length (packed self.now) }
        ensures word { result ≡ slice_index (packed self.now) i }
        ensures small { result < 2 ^ 56 }
    {
        self.bytes.word(i)
    }

    /// The key of this length whose packing the words are, if there is one.
    #[tactic(auto, unfolding(crate::specs::Packing::unpacked_key, crate::specs::Packing::unpacked_payload))]
    pub fn from_words(len: usize, words: &[u64]) -> Option<Key>
        ensures { result ≡ unpacked_key len words.now }
    {
        if len == 0 {
            return None;
        }
        if len > KEY_BYTES {
            return None;
        }
        let bytes = packed_in(len, words)?;
        Some(Key::of_short(bytes))
    }

    pub(crate) fn of_short(bytes: ShortBytes) -> Key
        requires { IsKey bytes }
        ensures { result ≡ bytes }
    {
        Key { bytes }
    }
}

impl PartialEq for Key {
    ghost use Rattle.std.specs.Prelude.{bytes_eq};
    ghost use Rattle.std.proofs.Common.{rules};
    ghost use Rattle.std.specs.Cmp.Rules.{comparing};

    ghost eq = { bytes_eq };

    ghost laws = { Prim.search (comparing, rules) };

    fn eq(&self, other: &Key) -> bool {
        self.bytes() == other.bytes()
    }
}

impl Eq for Key {
    ghost use Rattle.std.proofs.Common.{rules};
    ghost use Rattle.std.specs.Cmp.Rules.{comparing};

    ghost laws = { Prim.search (comparing, rules) };
}

impl Ord for Key {
    ghost use Rattle.std.proofs.Common.{rules};
    ghost use Rattle.std.specs.Cmp.Lexicographic.{slice_cmp};
    ghost use Rattle.std.specs.Ordering.{nat_cmp};
    ghost use Rattle.std.specs.Cmp.Rules.{comparing};

    ghost cmp = { slice_cmp nat_cmp };

    ghost total = { Prim.search (comparing, rules) };

    ghost matches_partial_cmp = { Prim.search (comparing, rules) };

    ghost matches_eq = { Prim.search (comparing, rules) };

    fn cmp(&self, other: &Key) -> Ordering {
        self.bytes().cmp(other.bytes())
    }
}

impl PartialOrd for Key {
    ghost use Rattle.std.proofs.Common.{rules};
    ghost use Rattle.std.specs.Cmp.Lexicographic.{slice_cmp};
    ghost use Rattle.std.specs.Ordering.{nat_cmp, as_partial_cmp};
    ghost use Rattle.std.specs.Cmp.{partial_order_from_own_ties};
    ghost use Rattle.std.specs.Cmp.Rules.{comparing};

    ghost partial_cmp = { as_partial_cmp (slice_cmp nat_cmp) };

    ghost laws = { partial_order_from_own_ties (Prim.search (comparing, rules)) (Prim.search (comparing, rules)) };

    fn partial_cmp(&self, other: &Key) -> Option<Ordering> {
        Some(self.cmp(other))
    }
}
