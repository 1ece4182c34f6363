//! Laws of the acts of a memory: each function does nothing, and its contract is the law.

ghost use Rattle.bz_pm.specs.Changes.{ComparedComparesOnly, CutCutsOnly};

/// A compare-and-swap changes the cached word of its address alone, where that is the expected one.
pub fn compare()
    ensures { ComparedComparesOnly }
{}

/// A power cut changes the cached words alone, into the durable ones.
pub fn cut()
    ensures { CutCutsOnly }
{}
