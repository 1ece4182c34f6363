//! The phases of a sweep.

/// Where the sweep is.
#[derive(Clone, Copy, Drop)]
pub(crate) struct Spot {
    /// The first word that was changed and is not flushed, all of them in one line; `at` where there is none.
    pub(crate) unflushed: u32,
    /// The word that is resolved.
    pub(crate) at: u32,
}

/// What is known of a pointer: its descriptor, and whether the swap has succeeded.
#[derive(Clone, Copy, Drop)]
pub(crate) struct Pointer {
    pub(crate) swap: u16,
    pub(crate) succeeded: bool,
}

/// What is asked for next.
#[derive(Clone, Copy, Drop)]
pub(crate) enum SweepPhase {
    /// Nothing was asked for yet.
    Fresh,
    /// The word.
    Word(Spot),
    /// The status of the descriptor to which the word points.
    Status(Spot, u16),
    /// The target of an entry of this descriptor.
    Target(Spot, Pointer, u32),
    /// The word of a descriptor that is the word's value.
    Value(Spot, u32),
    /// The store of the word's value.
    Resolve(Spot, u64),
    /// The flush of the line that ends with the word.
    Flush(Spot),
    /// The status of a descriptor, when all words are resolved.
    SwapStatus(u32),
    /// The store that makes it free.
    Free(u32),
    /// The flush after it.
    FlushFree(u32),
    /// Nothing more.
    Done,
}
