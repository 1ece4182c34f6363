//! What an act ends.

/// What a worker's operation answers with this act; `Busy` where it goes on.
#[derive(Clone, Copy, Debug, PartialEq, Eq)]
pub enum Done {
    Busy,
    /// The value that was read, or the word that was loaded.
    Read(u64),
    /// Whether the swap took effect.
    Swapped(bool),
    Stored,
    Flushed,
}
