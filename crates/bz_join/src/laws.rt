//! Laws of leaves and children that are made one. Each function does nothing: its contract is the law.

ghost use Rattle.bz_join.specs.Leaves.{NeighboursJoin};
ghost use Rattle.bz_join.specs.Parents.{ChildrenJoin};

/// The records of two neighbouring leaves that have room in one make a leaf, which says what the two say.
pub fn neighbours_join()
    ensures { NeighboursJoin }
{}

/// An inner node of which two neighbouring children are made one makes a node again, at the same place, with one child fewer.
pub fn children_join()
    ensures { ChildrenJoin }
{}
