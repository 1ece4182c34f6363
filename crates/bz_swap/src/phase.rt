//! Phases of a swap memory.

/// Which operations may start.
#[derive(Clone, Copy, Debug, PartialEq, Eq)]
pub enum Phase {
    /// Nothing was started since an opening on words that need no recovery: either kind of operation may start.
    Opened,
    /// The workers from 1 on read, swap, and store and flush private words.
    Running,
    /// Worker 0 loads, stores and flushes words as they are.
    Recovering,
}
