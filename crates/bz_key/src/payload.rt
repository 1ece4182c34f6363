//! A payload: 0 to `PAYLOAD_BYTES` bytes.
ghost use Rattle.std.specs.Prelude.{◌≡◌, ◌≤◌, ◌<◌, ◌^◌, length, slice_index, IfOk, IsErrOf, ◌↔◌};
ghost use Rattle.bz_key.specs.Bytes.{IsPayload};
ghost use Rattle.bz_key.specs.Packing.{packed, unpacked_payload};

use crate::error::PayloadError;
use crate::limits::PAYLOAD_BYTES;
use crate::packing::packed_in;
use crate::short_bytes::ShortBytes;
use std::marker::Model;

/// A payload, seen as its bytes.
#[derive(Clone, Copy, Debug)]
pub struct Payload {
    bytes: ShortBytes,
}

impl Model for Payload {
    ghost use Rattle.std.specs.Prelude.{List, ℕ};
    ghost use Rattle.bz_key.specs.Bytes.{IsPayload};

    ghost Value = { List ℕ };

    ghost view = { λ p. p.bytes };

    ghost invariant = { λ p. IsPayload p.bytes };

    ghost inverse = { λ bytes. record { bytes = bytes } };
}

impl Payload {
    /// The payload of these bytes.
    pub fn of(bytes: &[u8]) -> Result<Payload, PayloadError>
        ensures fits { length bytes.now ≤ PAYLOAD_BYTES → result ≡ Ok bytes.now }
        ensures ok { IfOk result (λ payload. payload ≡ bytes.now) }
        ensures too_long { IsErrOf result PayloadError.TooLong ↔ (PAYLOAD_BYTES < length bytes.now) }
    {
        if bytes.len() > PAYLOAD_BYTES {
            return Err(PayloadError::TooLong);
        }
        Ok(Payload {
            bytes: ShortBytes::of(bytes),
        })
    }

    /// The bytes.
    pub fn bytes(&self) -> &[u8]
        ensures same { result.now ≡ self.now }
        ensures is_payload { IsPayload self.now }
    {
        self.bytes.as_slice()
    }

    /// How many words the packing of the payload takes.
    pub fn words(&self) -> usize
        ensures { result ≡ length (packed self.now) }
    {
        self.bytes.words()
    }

    /// One word of the packing. All its bits above 55 are 0.
    pub fn word(&self, i: usize) -> u64
        requires { i < length (packed self.now) }
        ensures word { result ≡ slice_index (packed self.now) i }
        ensures small { result < 2 ^ 56 }
    {
        self.bytes.word(i)
    }

    /// The payload of this length whose packing the words are, if there is one.
    pub fn from_words(len: usize, words: &[u64]) -> Option<Payload>
        ensures { result ≡ unpacked_payload len words.now }
    {
        let bytes = packed_in(len, words)?;
        Some(Payload::of_short(bytes))
    }

    pub(crate) fn of_short(bytes: ShortBytes) -> Payload
        ensures { result ≡ bytes }
    {
        Payload { bytes }
    }
}

impl PartialEq for Payload {
    ghost use Rattle.std.specs.Prelude.{bytes_eq};
    ghost use Rattle.std.proofs.Common.{rules};
    ghost use Rattle.std.specs.Cmp.Rules.{comparing};

    ghost eq = { bytes_eq };

    ghost laws = { Prim.search (comparing, rules) };

    fn eq(&self, other: &Payload) -> bool {
        self.bytes() == other.bytes()
    }
}

impl Eq for Payload {
    ghost use Rattle.std.proofs.Common.{rules};
    ghost use Rattle.std.specs.Cmp.Rules.{comparing};

    ghost laws = { Prim.search (comparing, rules) };
}
