//! The phases of an insert.

/// What an insert asks for next.
#[derive(Clone, Copy, Drop)]
pub(crate) enum InsertPhase {
    /// Nothing was asked for yet.
    Fresh,
    /// The swap that reserves the record's place.
    Reserve,
    /// The store of one of the record's words.
    Store(u32),
    /// The flush of one of the lines in which they lie, counted from the first one.
    Flush(u32),
    /// The swap that makes the record visible.
    Publish,
    /// That swap took effect.
    Done,
    /// The leaf's status was another one.
    Restart,
    /// The leaf is frozen, or lacks the words.
    NeedsRoom,
    /// No descriptor was left.
    Full,
}
