//! The greatest lengths and counts. Each number stands here alone.

/// The greatest length of a key, in bytes.
pub const KEY_BYTES: usize = LONGEST;

/// The greatest length of a payload, in bytes.
pub const PAYLOAD_BYTES: usize = LONGEST;

/// The most pairs that a page holds.
pub const PAGE_PAIRS: usize = 119;

/// The places of the array that a key or a payload is kept in.
pub(crate) const LONGEST: usize = 56;

/// The most bytes that the spelling of a key or a payload takes.
pub const SPELLED_BYTES: usize = 3 * LONGEST;
