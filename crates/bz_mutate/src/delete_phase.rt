//! The phases of a delete.

use bz_record::FoundRecord;

/// What a delete asks for next.
#[derive(Clone, Copy, Drop)]
pub(crate) enum DeletePhase {
    /// Nothing was asked for yet.
    Fresh,
    /// The swap that takes out this record.
    Remove(FoundRecord),
    /// That swap took effect.
    Done,
    /// The leaf's status was another one.
    Restart,
    /// The leaf is frozen.
    NeedsRoom,
    /// No descriptor was left.
    Full,
}
