//! The phases of a lowering of the root.

/// What a lowering asks for next.
#[derive(Clone, Copy, Drop)]
pub(crate) enum LowerPhase {
    /// Nothing was asked for yet.
    Fresh,
    /// The load of the root's own status, once more.
    Status,
    /// The swap.
    Swap,
    /// The swap took effect.
    Done,
    /// The root's own status was another one or a frozen node's, or a word that the swap named was another one.
    Restart,
    /// The root was a leaf, or had not one child.
    NotLone,
    /// No descriptor was left.
    NoSwap,
}
