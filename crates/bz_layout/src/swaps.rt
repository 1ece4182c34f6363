//! How many swaps an operation asks for, at most. Those that make a change ask for exactly so many where they make it.

/// The swaps of an insert: the reservation and the publication.
pub const INSERT_SWAPS: u32 = 2;

/// The swaps of an update: the reservation and the replacement.
pub const UPDATE_SWAPS: u32 = 2;

/// The swap of a delete.
pub const DELETE_SWAPS: u32 = 1;

/// The swap of a freeze.
pub const FREEZE_SWAPS: u32 = 1;

/// The swap of a consolidation, or of a split.
pub const RENEWAL_SWAPS: u32 = 1;

/// The swaps of a merge: the freezes of the leaf and of its neighbour, and that which turns the link.
pub const MERGE_SWAPS: u32 = 3;
