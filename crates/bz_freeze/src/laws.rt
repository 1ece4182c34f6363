//! What the swap of a freeze leads to. The function does nothing: its contract is the law.

ghost use Rattle.bz_freeze.specs.Laws.{FreezesAreGood};

/// Where the status is the one that was read, the swap is lawful for everybody and changes no content.
pub fn freezes_are_good()
    ensures { FreezesAreGood }
{}
