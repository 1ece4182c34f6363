//! An image that was read, and its head.
use crate::word_list::WordList;

/// What the head of an image says of the memory.
#[derive(Clone, Copy, PartialEq, Eq)]
pub struct Head {
    /// How many node slots the memory has.
    pub nodes: u32,

    /// How many descriptors the memory has.
    pub swaps: u32,
}

/// The words of a memory, with the numbers that its layout follows from.
#[derive(Drop)]
pub struct Image {
    /// How many node slots the memory has.
    pub nodes: u32,

    /// How many descriptors the memory has.
    pub swaps: u32,

    /// The word of each address.
    pub words: WordList,
}
