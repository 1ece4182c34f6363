//! The phases of a descent.

use bz_search::Probe as Part;
use bz_word::Extent;

/// A record of an inner node, in the middle of a part of its records, and what those around the part say.
#[derive(Clone, Copy, Drop)]
pub(crate) struct Sight {
    /// The node's slot.
    pub(crate) slot: u16,
    /// Its status, which was not frozen.
    pub(crate) status: u64,
    /// How many records it has.
    pub(crate) count: u32,
    /// The part of its records after the first in which the child of the key is looked for.
    pub(crate) part: Part,
    /// Where the pointer of the record before the part stands; 0 where that is the first record.
    pub(crate) pointer: u32,
}

/// A record of an inner node, and where the pointer to its child stands.
#[derive(Clone, Copy, Drop)]
pub(crate) struct Probe {
    /// The node's slot.
    pub(crate) slot: u16,
    /// Its status, which was not frozen.
    pub(crate) status: u64,
    /// How many records it has.
    pub(crate) count: u32,
    /// The record after the one whose child the key belongs to; 0 where that is the first record.
    pub(crate) index: u32,
    /// Where the child's pointer stands; 0 at the first record.
    pub(crate) pointer: u32,
}

/// What a descent asks for next. The node that it names is the last one of the path.
#[derive(Clone, Copy, Drop)]
pub(crate) enum Way {
    /// Nothing was asked for yet.
    Fresh,
    /// The root status.
    Guard,
    /// The root pointer, after this root status.
    Root(u64),
    /// The header of this slot.
    Header(u16),
    /// The status of this slot, which is an inner node.
    Status(u16),
    /// The metadata word of a record.
    Meta(Sight),
    /// Of the key of a record, which lies there, the word at an index.
    Word(Sight, Extent, u32),
    /// The metadata word of the first record, whose child the key belongs to.
    First(Probe),
    /// The pointer of a record, whose child the key belongs to.
    Pointer(Probe),
    /// It has found the way.
    Found,
    /// A guard was frozen.
    Changed,
}
