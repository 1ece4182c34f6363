//! Sizes and places, in words: the map of the memory, and the parts of its regions.

/// The words of a line, the unit of a flush.
pub const LINE_WORDS: u32 = 8;

/// The bytes that a word of a key, of a payload or of a child pointer holds.
pub const BYTES_IN_WORD: u32 = 7;

/// The words of the superblock, which begins at address 0.
pub const SUPERBLOCK_WORDS: u32 = 16;

/// Word 0 of the superblock.
pub const FORMAT_AT: u32 = 0;

/// The word of the superblock with the root pointer.
pub const ROOT_AT: u32 = 1;

/// The word of the superblock with the root status, which guards the root pointer.
pub const ROOT_STATUS_AT: u32 = 2;

/// The word of the superblock with the number of node slots.
pub const NODES_AT: u32 = 3;

/// The word of the superblock with the number of descriptors.
pub const SWAPS_AT: u32 = 4;

/// The words of the superblock that are used; the others are 0.
pub const SUPERBLOCK_USED: u32 = 5;

/// What the word at `FORMAT_AT` holds.
pub const FORMAT: u64 = 2;

/// The root pointer of fresh memory: slot 0, plus 1 as each pointer.
pub const FIRST_ROOT: u64 = 1;

/// The words of a descriptor.
pub const SWAP_WORDS: u32 = 16;

/// The word of a descriptor with its status.
pub const SWAP_STATUS_AT: u32 = 0;

/// The word of a descriptor with the number of its entries.
pub const SWAP_COUNT_AT: u32 = 1;

/// The first word of a descriptor's entries.
pub const ENTRIES_AT: u32 = 2;

/// The words of an entry: target, expected value, new value.
pub const ENTRY_WORDS: u32 = 3;

/// The most entries of a descriptor.
pub const MAX_ENTRIES: u32 = 4;

/// The words of a node.
pub const NODE_WORDS: u32 = 256;

/// The lines of a node.
pub const NODE_LINES: u32 = 32;

/// The word of a node with its status.
pub const STATUS_AT: u32 = 0;

/// The word of a node with its header.
pub const HEADER_AT: u32 = 1;

/// The first word of a node's low fence.
pub const LOW_FENCE_AT: u32 = 2;

/// The first word of a node's high fence.
pub const HIGH_FENCE_AT: u32 = 10;

/// The words of a fence, which hold a key of the greatest length at 7 bytes a word.
pub const FENCE_WORDS: u32 = 8;

/// The first metadata word of a node.
pub const META_AT: u32 = 18;

/// The words that the metadata and the block of a node share.
pub const SHARED_WORDS: u32 = 238;
