//! What a sweep asks for, and what it is told.

/// What is asked for next. Addresses and lines count from the first word of the memory.
#[derive(Clone, Copy)]
pub enum Ask {
    /// Load a word as it stands.
    Load(u32),
    /// Store a value.
    Store(u32, u64),
    /// Flush a line of eight words.
    Flush(u32),
    /// Nothing more: every word is plain and durable, and every descriptor free.
    Finish,
}

/// What came of it.
#[derive(Clone, Copy)]
pub enum Answer {
    /// Nothing was asked for yet.
    Start,
    /// The word as it stands.
    Read(u64),
    Stored,
    Flushed,
}
