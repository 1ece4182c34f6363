//! What a task asks for, what it is told of it, and how it ends.

use crate::path::Path;
use crate::view::{KeyView, LeafView};
use bz_call::Spent;
use bz_swap::EntryList;

/// What came of the last act.
#[derive(Clone, Copy, Debug, PartialEq, Eq)]
pub enum Seen {
    /// Nothing was asked for yet.
    Start,
    /// The value of the address, or in a recovery time its word as it stands.
    Read(u64),
    Stored,
    Flushed,
    /// Whether the swap took effect.
    Swapped(bool),
    /// All descriptors are taken, and no swap has begun.
    NoSwap,
}

/// What a task asks for next. Addresses and lines count from the first word of the memory.
#[derive(Drop)]
pub enum Todo {
    /// Read the value of an address, whatever swaps stand in its way.
    Read(u32),
    /// Load a word as it stands: recovery alone.
    Load(u32),
    /// Store a value into a word that is the worker's own.
    Store(u32, u64),
    /// Flush a line of eight words.
    Flush(u32),
    Swap(EntryList),
    /// Nothing more: the task has ended, and says how by `ended`.
    Finish,
}

/// How a task ends.
#[derive(Clone, Copy)]
pub enum Outcome {
    /// The way to the key's leaf.
    Path(Path),
    /// The key's leaf.
    View(LeafView),
    /// What the key's leaf says of the key.
    Key(KeyView),
    /// The swap that was to be made has taken effect.
    Done,
    /// A swap failed, or a validating load found another value: begin again with the lookup.
    Restart,
    /// The leaf is frozen, or lacks the words.
    NeedsRoom,
    /// Slots, descriptors or levels ran out.
    Full(Spent),
    /// Every word is plain and durable, and every descriptor free.
    Recovered,
}
