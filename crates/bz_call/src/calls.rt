//! Calls.
use bz_key::{Key, Payload};

/// A call on the map. What it answers, and what it makes of the map, is `apply` of the specifications.
#[derive(Clone, Copy)]
pub enum Call {
    /// Puts the payload at the key, where the key is absent.
    Insert(Key, Payload),

    /// Takes the key out.
    Delete(Key),

    /// Puts the payload at the key, where the key is present.
    Update(Key, Payload),

    /// Puts the payload at the key.
    Upsert(Key, Payload),

    /// Asks for the payload of the key.
    Get(Key),

    /// Asks for the pairs from the key on, up to the end of the key's leaf.
    Page(Key),
}
