//! The ranges of the numbers of a configuration.

/// Node slots of a memory.
pub const MIN_NODES: u32 = 1;

/// Slot numbers stay below 2^14, so that a pointer, which is a slot plus 1, fits 16 bits.
pub const MAX_NODES: u32 = 16_384;

/// Descriptors of a memory, one for each swap since power on.
pub const MIN_SWAPS: u32 = 1;

/// A descriptor's number fits the 16 bits that a pointer or a tag has for it.
pub const MAX_SWAPS: u32 = 65_536;

/// Cells of a queue's ring.
pub const MIN_CAPACITY: u32 = 1;

/// A cell's number fits 12 bits.
pub const MAX_CAPACITY: u32 = 4_096;

/// Workers of a world.
pub const MIN_WORKERS: u32 = 1;

/// A worker's number, which starts at 1, fits the 7 bits that a tag has for it.
pub const MAX_WORKERS: u32 = 64;

/// Marks of a journal.
pub const MIN_MARKS: u32 = 1_024;

/// A worker draws fewer tags than there are marks, so their numbers fit the 36 bits of a tag.
pub const MAX_MARKS: u32 = 33_554_432;

/// Calls that may begin.
pub const MIN_CALLS: u32 = 1;

/// Calls that may begin.
pub const MAX_CALLS: u32 = 65_536;

/// Page calls that may begin.
pub const MIN_PAGES: u32 = 0;

/// Page calls that may begin.
pub const MAX_PAGES: u32 = 4_096;
