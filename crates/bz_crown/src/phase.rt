//! The phases of a split of an inner root.

use bz_writer::WritePhase;

/// What a split of an inner root asks for next.
#[derive(Clone, Copy, Drop)]
pub(crate) enum CrownPhase {
    /// Nothing was asked for yet.
    Fresh,
    /// The load of the root's word at this place.
    Word(u32),
    /// The load of the root's own status, once more.
    Again,
    /// The tree has as many levels as there may be.
    TooHigh,
    /// The writing, from the load of the root status on, once more, or its end: at the load of the root's own status before it, too.
    Writing(WritePhase),
}
