//! A law of what the journal of a world tells of the leaves of its tree. It does nothing: its contract is the law.

ghost use Rattle.bz_world.specs.UndisturbedLeaves.{SolitaryCallsCountLeaves};

/// During a call beside which no other is open the leaves grow by one for each leaf of its key that had too many live words, and fall by
/// one for each that had too few.
pub fn solitary_calls_count_leaves()
    ensures { SolitaryCallsCountLeaves }
{}
