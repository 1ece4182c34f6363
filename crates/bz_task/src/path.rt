//! The way from the root to a leaf.

use bz_layout::MAX_LEVELS;

/// A node on the way, and the link that led to it.
#[derive(Clone, Copy, PartialEq, Eq)]
pub struct Link {
    /// The node's slot.
    pub slot: u16,
    /// The address of the pointer to it: the root pointer, or a child pointer of the node above.
    pub link: u32,
    /// The address of the status that guards the pointer: the root status, or the status of the node above.
    pub guard: u32,
    /// What the guard was when it was read, before the pointer.
    pub status: u64,
}

/// The links from the root's to a leaf's.
#[derive(Clone, Copy, PartialEq, Eq)]
pub struct Path {
    /// The links, of which the first `depth` are meant.
    pub links: [Link; MAX_LEVELS as usize],
    /// How many links there are, 1 to `MAX_LEVELS`.
    pub depth: u32,
}
