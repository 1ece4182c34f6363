//! What the swap of a lowering leads to. The function does nothing: its contract is the law.

ghost use Rattle.bz_inner.specs.Lowerings.{LoweringsAreGood};

/// Where the root's own status is the one that was read, the swap is lawful for everybody and changes no content.
pub fn lowerings_are_good()
    ensures { LoweringsAreGood }
{}
