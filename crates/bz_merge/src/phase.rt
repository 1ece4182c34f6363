//! The phases of a merge.

/// What a merge asks for next.
#[derive(Clone, Copy, Drop)]
pub(crate) enum MergePhase {
    /// Nothing was asked for yet.
    Fresh,
    /// The load of the parent's word at this place.
    Word(u32),
    /// The load of the parent's status, once more: it tells the neighbour that is tried.
    Again,
    /// The load of the neighbour's word at this place.
    Beside(u32),
    /// The load of the parent's status, after the neighbour was read.
    Parent,
    /// The load of the neighbour's status, once more: it tells whether the two fit.
    Still,
    /// The swap that freezes the viewed leaf.
    Freeze,
    /// The swap that freezes the neighbour.
    FreezeBeside,
    /// The load of the guard of the link to the parent, once more.
    Guard,
    /// The store of one of the words of its two nodes, counted through.
    Store(u32),
    /// The flush of one of their lines, counted through.
    Flush(u32),
    /// The swap of the link to the parent, its guard and the parent's status.
    Swap,
    /// That swap took effect.
    Done,
    /// A status or a link was another one, at a load or at a swap.
    Restart,
    /// No neighbour has room for the leaf.
    NoNeighbour,
    /// Fewer than two slots were left.
    NoSlot,
    /// No descriptor was left.
    NoSwap,
}
