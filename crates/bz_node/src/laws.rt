//! Laws of node images. Each function does nothing: its contract is the law.

ghost use Rattle.bz_node.specs.Laws.{LeavesAreRead};

/// A leaf made whole is readable, and reads as what it was made of.
pub fn leaves_are_read()
    ensures { LeavesAreRead }
{}
