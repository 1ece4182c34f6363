//! The phases of a freeze.

/// What a freeze asks for next.
#[derive(Clone, Copy, Drop)]
pub(crate) enum FreezePhase {
    /// Nothing was asked for yet.
    Fresh,
    /// The swap.
    Swap,
    /// The swap took effect.
    Done,
    /// The leaf's status was another one.
    Restart,
    /// No descriptor was left.
    Full,
}
