//! The status of a swap.

/// How a swap ends.
#[derive(Clone, Copy, Debug, PartialEq, Eq)]
pub enum Verdict {
    Succeeded,
    Failed,
}

/// What the status word of a descriptor says.
#[derive(Clone, Copy, Debug, PartialEq, Eq)]
pub enum SwapStatus {
    /// No swap has it.
    Free,
    Undecided,
    /// Decided, with the dirty bit: the verdict may not be durable yet.
    Deciding(Verdict),
    /// Decided, and durable.
    Decided(Verdict),
}
