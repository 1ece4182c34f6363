//! Laws of lawful steps. Each function does nothing: its contract is the law.

ghost use Rattle.bz_task.specs.Laws.{NodesStay, FrontsStay, RangesStay, HeadersSayTheLevel, SameRecordsShowTheSame, SwapsShowInSlots, SeenLeavesAreWhole, LeavesAreInTrees, ThawedLeavesStay, NothingIsGained};

/// While its status has the value that was read, a reached node is as it was.
pub fn nodes_stay()
    ensures { NodesStay }
{}

/// Header and fences of a reached node stay.
pub fn fronts_stay()
    ensures { FrontsStay }
{}

/// The level and the range of a node are the same whenever it is in the tree.
pub fn ranges_stay()
    ensures { RangesStay }
{}

/// A node of the tree has a lawful header, with the level at which it stands.
pub fn headers_say_the_level()
    ensures { HeadersSayTheLevel }
{}

/// Where the records are the same, so are the places that readers read.
pub fn same_records_show_the_same()
    ensures { SameRecordsShowTheSame }
{}

/// A word of a slot before and after a swap.
pub fn swaps_show_in_slots()
    ensures { SwapsShowInSlots }
{}

/// Words that are those of a leaf to its readers are a leaf by themselves, and say what it says.
pub fn seen_leaves_are_whole()
    ensures { SeenLeavesAreWhole }
{}

/// What stands where, of a leaf of the tree.
pub fn leaves_are_in_trees()
    ensures { LeavesAreInTrees }
{}

/// A leaf that was not frozen is in the tree and as it was, while its status has the value that was read.
pub fn thawed_leaves_stay()
    ensures { ThawedLeavesStay }
{}

/// Where no slot is taken, all that were taken have been stored into.
pub fn nothing_is_gained()
    ensures { NothingIsGained }
{}
