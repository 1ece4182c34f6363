//! What a memory act was.

use bz_swap_machine::Done;

/// A memory act of one worker. Addresses count words and lines count eight words each, from the memory's start;
/// words are as they stand in the memory, with their control bits.
#[derive(Clone, Copy)]
pub enum Act {
    /// The word that was found.
    Load {
        a: u32,
        v: u64,
    },
    Store {
        a: u32,
        v: u64,
    },
    /// The word that was found; the new one stands there now exactly where that was the old one.
    Cas {
        a: u32,
        old: u64,
        new: u64,
        found: u64,
    },
    /// The line is to be durable after the worker's next fence, as it is in the caches now.
    Ask {
        line: u32,
    },
    Fence,
}

/// An act, and what it ends.
#[derive(Clone, Copy)]
pub struct Acted {
    pub act: Act,
    pub done: Done,
}
