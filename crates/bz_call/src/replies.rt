//! Replies.
use bz_key::{Key, Payload};

/// What ran out.
#[derive(Clone, Copy)]
pub enum Spent {
    /// Node slots.
    Nodes,

    /// Descriptors of swaps.
    Swaps,

    /// Levels of the tree, of which there are at most 12.
    Height,
}

/// The answer to a call.
#[derive(Clone, Copy)]
pub enum Reply {
    /// The key was absent and now has the payload.
    Inserted,

    /// The key is there already. Nothing has changed.
    Exists,

    /// The key is gone; this was its payload.
    Deleted(Payload),

    /// The key has the new payload; this was the old one.
    Updated(Payload),

    /// The key is absent. Nothing has changed.
    Missing,

    /// The key's payload.
    Value(Payload),

    /// The number, from 0, of a page of the journal, and the key at which the next page begins.
    Page { page: u32, next: Option<Key> },

    /// There was no room. Nothing has changed.
    Full(Spent),
}
