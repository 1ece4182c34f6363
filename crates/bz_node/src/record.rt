//! What a leaf's pairs and an inner node's children have in common.
ghost use Rattle.std.specs.Prelude.{◌≡◌, length};
ghost use Rattle.bz_node.specs.Layout.{IsEntry};
ghost use Rattle.bz_node.specs.Records.{pair_entry, child_entry, IsPair, IsChild};

use crate::child::Child;
use crate::writing::{
    bound_bytes, bound_words, key_words, payload_words, put_bound, put_key, put_payload,
};
use bz_key::{Key, Payload};

/// The bytes that the length of a child pointer counts.
const POINTER_BYTES: u32 = 7;

/// How long a record is: its key, and its key and payload, in bytes, and its words in the block.
#[derive(Clone, Copy)]
pub(crate) struct Sizes {
    pub key: u32,
    pub total: u32,
    pub words: u32,
}

/// A record as a node holds it.
pub(crate) trait Record {
    ghost use Rattle.bz_node.specs.Layout.{Entry};

    ghost entry: { Self → Entry };

    ghost valid: { Self → Type 0 };

    /// The sizes of the record.
    fn sizes(&self) -> Sizes
        ensures key { result.key ≡ (entry self.now).key }
        ensures total { result.total ≡ (entry self.now).total }
        ensures words { result.words ≡ length (entry self.now).words }
        ensures entry { IsEntry (entry self.now) }
        ensures valid { valid self.now };

    /// Fills `out` with the words of the record.
    fn put(&self, out: &mut [u64])
        requires { length out.old ≡ length (entry self.now).words }
        ensures { out.new ≡ (entry self.now).words };
}

impl Record for (Key, Payload) {
    ghost entry = { pair_entry };

    ghost valid = { IsPair };

    fn sizes(&self) -> Sizes {
        let key = self.0.bytes().len();
        let payload = self.1.bytes().len();
        Sizes {
            key: key as u32,
            total: (key + payload) as u32,
            words: (key_words(&self.0) + payload_words(&self.1)) as u32,
        }
    }

    fn put(&self, out: &mut [u64]) {
        let (key, payload) = out.split_at_mut(self.0.words());
        put_key(&self.0, key);
        put_payload(&self.1, payload);
    }
}

impl Record for Child {
    ghost entry = { child_entry };

    ghost valid = { IsChild };

    fn sizes(&self) -> Sizes {
        let key = bound_bytes(&self.low);
        Sizes {
            key,
            total: key + POINTER_BYTES,
            words: bound_words(&self.low) as u32 + 1,
        }
    }

    fn put(&self, out: &mut [u64]) {
        let words = bound_words(&self.low);
        put_bound(&self.low, &mut out[..words]);
        out[words] = self.slot as u64 + 1;
    }
}
