//! When nodes are split and merged, how great a record is, and the numbers of the promises.
//!
//! The words of a record count its metadata word, unless block words are named. The live words of a
//! leaf are the words of its visible records, the words of an inner node those of its records.

/// The most words of a payload, at 7 bytes a word.
pub const PAYLOAD_WORDS: u32 = 8;

/// The most words of a leaf's record.
pub const LEAF_RECORD_WORDS: u32 = 17;

/// The words of the block that a record of a leaf has at most.
pub const RECORD_WORDS: u32 = 16;

/// The lines in which these lie at most.
pub const RECORD_LINES: u32 = 3;

/// The most words of an inner node's record, which is a separator and a child pointer.
pub const INNER_RECORD_WORDS: u32 = 10;

/// The fewest words of a record: in a leaf a key of one word without payload, in an inner node a
/// child pointer without a key.
pub const LEAST_RECORD_WORDS: u32 = 2;

/// The most pairs of a leaf.
pub const MAX_PAIRS: u32 = 119;

/// A frozen leaf with more live words is split. Two leaves are merged where they have at most as
/// many together.
pub const SPLIT_ABOVE: u32 = 144;

/// A leaf with fewer live words is merged with a neighbour, where the two fit.
pub const MERGE_BELOW: u32 = 64;

/// An inner node of at most as many words takes one more separator of any length.
pub const INNER_LIMIT: u32 = 228;

/// The most levels of a tree.
pub const MAX_LEVELS: u32 = 12;

/// Slots that a consolidation takes.
pub const CONSOLIDATION_SLOTS: u32 = 1;

/// Slots that a merge takes: the leaf and the parent.
pub const MERGE_SLOTS: u32 = 2;

/// Slots that a split takes: the two halves, and the parent or the new root.
pub const SPLIT_SLOTS: u32 = 3;

/// Free slots that suffice for a call that runs alone.
pub const SLOTS_PER_CALL: u32 = 64;

/// Free descriptors that suffice for a call that runs alone.
pub const SWAPS_PER_CALL: u32 = 64;

/// Marks that suffice for a call that runs alone.
pub const MARKS_PER_CALL: u32 = 131_072;

/// A recovery makes fewer acts than this for each word of the memory.
pub const RECOVERY_ACTS_PER_WORD: u32 = 4;

/// Marks that a power on takes besides its acts.
pub const MARKS_PER_POWER_ON: u32 = 8;

/// Words that a look-up in a leaf reads for each record that it compares.
pub const FIND_READS_PER_RECORD: u32 = 9;

/// Words that a look-up in a leaf reads besides.
pub const FIND_READS_BESIDES: u32 = 12;

/// Words that a descent reads for each record of an inner node that it compares.
pub const DESCEND_READS_PER_RECORD: u32 = 9;

/// Words that a descent reads besides in each inner node.
pub const DESCEND_READS_BESIDES: u32 = 4;

/// Words that a descent reads before the first node.
pub const DESCEND_READS_AT_ROOT: u32 = 3;
