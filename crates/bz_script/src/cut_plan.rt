//! A cut of the power that a script asks for.

/// A cut of the power in a run, or in a recovery.
#[derive(Clone, Copy, PartialEq, Eq)]
pub struct CutPlan {
    /// The fence before which the power is cut, counted from 1.
    pub flush: u32,

    /// Where it is not 0, words that are not durable yet are evicted by the draws from it.
    pub seed: u64,
}
