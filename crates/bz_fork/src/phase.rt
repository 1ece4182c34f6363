//! The phases of a split of an inner node below a parent.

use bz_writer::WritePhase;

/// What a split of an inner node below a parent asks for next.
#[derive(Clone, Copy, Drop)]
pub(crate) enum ForkPhase {
    /// Nothing was asked for yet.
    Fresh,
    /// The load of the node's status, once more, where its words are not read: the parent has no room for any child more.
    Unread,
    /// The load of the parent's status there, once more.
    Tight,
    /// The load of the node's word at this place.
    Word(u32),
    /// The load of the node's status, once more.
    Again,
    /// The load of the parent's status, before its words.
    Room,
    /// The load of the parent's word at this place.
    Above(u32),
    /// The load of the parent's status, once more.
    Check,
    /// The parent has no room for the separator.
    NoRoom,
    /// The writing, from the load of the guard of the link to the parent on, once more, or its end: at a load of a guard before it, too.
    Writing(WritePhase),
}
