//! Laws of the halves of a leaf. Each function does nothing: its contract is the law.

ghost use Rattle.bz_halves.specs.Laws.{LeavesPartInHalves, HalvesAreLeaves, RootsStandOverTwo};
ghost use Rattle.bz_halves.specs.Parents.{ChildrenMayBeParted, ParentsOfHalvesAreWhole, ReadChildrenMayBeParted};

/// The records of a leaf that is split part in two halves, each of which has room for any record.
pub fn leaves_part_in_halves()
    ensures { LeavesPartInHalves }
{}

/// The halves are leaves, and say of each key what the leaf says.
pub fn halves_are_leaves()
    ensures { HalvesAreLeaves }
{}

/// A new root over two leaves breaks no rule, and takes one more separator.
pub fn roots_stand_over_two()
    ensures { RootsStandOverTwo }
{}

/// The children of a parent of which one is parted in two make a node again, between the same fences.
pub fn children_may_be_parted()
    ensures { ChildrenMayBeParted }
{}

/// Where there is room, that node breaks no rule, and has one child more, the two halves in place of the one.
pub fn parents_of_halves_are_whole()
    ensures { ParentsOfHalvesAreWhole }
{}

/// The children that are read of an inner node that breaks no rule make a node, of which any one may be parted by a key between its
/// bounds.
pub fn read_children_may_be_parted()
    ensures { ReadChildrenMayBeParted }
{}
