//! The phases of a split below a parent.

/// How many times a split reads a parent anew of which no word is free, at most, because others have taken slots meanwhile; more often
/// where words are free, in as many loads, but for those of a last reading that are too few. They are no fewer acts than it takes
/// another split from its slots to its swap.
pub const MOST_WAITS: u32 = 5;

/// What a split below a parent asks for next.
#[derive(Clone, Copy, Drop)]
pub(crate) enum BelowPhase {
    /// Nothing was asked for yet.
    Fresh,
    /// The load of the parent's status, before its words.
    Room,
    /// The load of the parent's word at this place.
    Word(u32),
    /// The load of the parent's status, once more.
    Again,
    /// The load of the guard of the link to the parent.
    Guard,
    /// The store of one of the words of its three nodes, counted through.
    Store(u32),
    /// The flush of one of their lines, counted through.
    Flush(u32),
    /// The load of the guard of the link to the parent, once the nodes are durable: the swap names what it finds.
    Named,
    /// The swap of the link to the parent, its guard and the parent's status.
    Swap,
    /// The swap took effect.
    Done,
    /// The parent's status was another one, or the guard of the link to it a frozen node's; or the swap was refused.
    Restart,
    /// The parent has no room for the separator.
    NoRoom,
    /// Fewer than three slots were left.
    NoSlot,
    /// No descriptor was left.
    NoSwap,
}
