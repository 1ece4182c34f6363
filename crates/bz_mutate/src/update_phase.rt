//! The phases of an update.

use bz_record::FoundRecord;

/// What an update asks for next. From the first swap on it knows the record that is to be replaced.
#[derive(Clone, Copy, Drop)]
pub(crate) enum UpdatePhase {
    /// Nothing was asked for yet.
    Fresh,
    /// The swap that gives the leaf's block the new record's words.
    Grow(FoundRecord),
    /// The store of one of these words.
    Store(FoundRecord, u32),
    /// The flush of one of the lines in which they lie, counted from the first one.
    Flush(FoundRecord, u32),
    /// The swap that puts the new record in the place of the old one.
    Replace(FoundRecord),
    /// That swap took effect.
    Done,
    /// The leaf's status was another one.
    Restart,
    /// The leaf is frozen, or lacks the words.
    NeedsRoom,
    /// No descriptor was left.
    Full,
}
