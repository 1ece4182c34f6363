//! Laws of the halves of an inner node. Each function does nothing: its contract is the law.

ghost use Rattle.bz_parted.specs.Laws.{ChildrenPartInHalves, HalvesAreInner, RootsStandAtLevels, ReadNodesHaveChildren};

/// The children of an inner node that is split part in two halves, each of which takes one more separator.
pub fn children_part_in_halves()
    ensures { ChildrenPartInHalves }
{}

/// The halves are inner nodes, and have between them the children of the node that is split.
pub fn halves_are_inner()
    ensures { HalvesAreInner }
{}

/// A new root over two nodes breaks no rule, and takes one more separator.
pub fn roots_stand_at_levels()
    ensures { RootsStandAtLevels }
{}

/// The children that are read of an inner node that breaks no rule make a node, and take the words that its status says.
pub fn read_nodes_have_children()
    ensures { ReadNodesHaveChildren }
{}
