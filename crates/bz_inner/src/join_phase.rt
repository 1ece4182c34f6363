//! The phases of a merge of two inner nodes under the root.

use bz_writer::WritePhase;

/// What such a merge asks for next.
#[derive(Clone, Copy, Drop)]
pub(crate) enum JoinPhase {
    /// Nothing was asked for yet.
    Fresh,
    /// The load of the root pointer, where the path shows nothing to merge.
    Pointer,
    /// The load of the root's word at this place.
    Above(u32),
    /// The load of the root's own status, once more: it tells the neighbour.
    AboveAgain,
    /// The load of the node's word at this place.
    Own(u32),
    /// The load of the node's status, once more.
    OwnAgain,
    /// The load of the neighbour's status.
    Status,
    /// The load of the neighbour's word at this place.
    Beside(u32),
    /// The load of the neighbour's status, once more: it tells whether there is room.
    BesideAgain,
    /// The path, or the words, show nothing to merge.
    NoRoom,
    /// The writing, from the load of the root pointer on, or its end: where a status was another one, too.
    Writing(WritePhase),
}
