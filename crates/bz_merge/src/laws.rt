//! What the swap of a merge leads to, and what is known of nodes that were read word by word. Each function does nothing: its
//! contract is the law.

ghost use Rattle.std.specs.Prelude.{◌≤◌};
ghost use Rattle.bz_layout.specs.declared.thresholds.TheConstants.{MERGE_SLOTS};
ghost use Rattle.bz_merge.specs.Duties.{needs_of};
ghost use Rattle.bz_merge.specs.declared.merge.Merge.{Merge};
ghost use Rattle.bz_merge.specs.Merges.{MergesAreGood};
ghost use Rattle.bz_merge.specs.Siblings.{ParentsReadWere, ChildrenStand, LeavesReadWere};

/// The swap by which a new parent takes its place, with one leaf in the place of two frozen neighbours, and the old parent is frozen,
/// is lawful for everybody and changes no content.
pub fn merges_are_good()
    ensures { MergesAreGood }
{}

/// The words of a parent that were read one by one are those of one moment, where its status is found again; and its children stand
/// in the tree as they tell.
pub fn parents_read_were()
    ensures read { ParentsReadWere }
    ensures stand { ChildrenStand }
{}

/// The words of a leaf that were read one by one are those of one moment, where its status is found again.
pub fn leaves_read_were()
    ensures { LeavesReadWere }
{}

/// A merge takes no more than two slots.
pub fn merges_take_two_slots()
    ensures { (t : Merge) → needs_of t ≤ MERGE_SLOTS }
{}
