//! Laws of merges. Each function does nothing: its contract is the law.

ghost use Rattle.bz_joined.specs.DueMerges.{UndisturbedViewsTellTheLiveWords, UndisturbedMergesAreDue};
ghost use Rattle.bz_joined.specs.Neighbours.{NeighboursStand, MergesKnowTheirLeaf, KnownLeavesStay, UndisturbedTasksTryTheirNeighbours, UndisturbedMergesDoNotLackRoom, MergesLackSlotsRightly};
ghost use Rattle.bz_joined.specs.SmallLeaves.{DeletesTellOfMerges, MergeableLeavesStandBelow, UndisturbedRootLeavesAreTheTree, UndisturbedDeletesTellOfMerges};

pub use bz_rounds::laws::alone::{
    brief_look_ups_go_on, effects_never_fall, gets_are_brief, look_ups_are_brief,
    own_swaps_are_counted, paths_read_few, trees_stand, undisturbed_restarts_are_refusals,
    undisturbed_tasks_go_on, ways_are_brief,
};
pub use bz_rounds::laws::tally::{
    deletes_take_one_record, deletes_tell_few, leaves_come_and_go, merges_count_at_last,
};
use bz_rounds::laws::{alone, tally};
pub use bz_rounds::laws::{
    stages_stand, undisturbed_ascents_are_below_the_stage, undisturbed_ascents_are_due,
    undisturbed_key_views_tell_the_stage, undisturbed_leaves_are_due, undisturbed_swaps_leave,
    undisturbed_views_tell_the_leaf, undisturbed_views_tell_the_stage,
};

/// In a quiet time a leaf that may be merged may be merged throughout.
pub fn neighbours_stand()
    ensures { NeighboursStand }
{}

/// A merge that goes on knows the leaf that it was made for.
pub fn merges_know_their_leaf()
    ensures { MergesKnowTheirLeaf }
{}

/// And it goes on knowing it.
pub fn known_leaves_stay()
    ensures { KnownLeavesStay }
{}

/// So whichever task ends for want of a neighbour leaves a leaf that may not be merged.
pub fn undisturbed_tasks_try_their_neighbours()
    ensures { UndisturbedTasksTryTheirNeighbours }
{}

/// So a merge of a leaf that may be merged does not end for want of a neighbour while its worker is alone.
pub fn undisturbed_merges_do_not_lack_room()
    ensures { UndisturbedMergesDoNotLackRoom }
{}

/// A merge of a frozen leaf that ends for want of slots had found a neighbour with room.
pub fn merges_lack_slots_rightly()
    ensures { MergesLackSlotsRightly }
{}

/// A leaf that was viewed has the live words of the view.
pub fn undisturbed_views_tell_the_live_words()
    ensures { UndisturbedViewsTellTheLiveWords }
{}

/// So where a leaf may be merged, its merge is due.
pub fn undisturbed_merges_are_due()
    ensures { UndisturbedMergesAreDue }
{}

/// A delete that leaves a leaf which may be merged tells that it leaves little.
pub fn deletes_tell_of_merges()
    ensures { DeletesTellOfMerges }
{}

/// A leaf that may be merged is not the root.
pub fn mergeable_leaves_stand_below()
    ensures { MergeableLeavesStandBelow }
{}

/// A leaf to which one link leads is the whole tree.
pub fn undisturbed_root_leaves_are_the_tree()
    ensures { UndisturbedRootLeavesAreTheTree }
{}

/// So a delete that leaves a leaf which may be merged tells that it leaves little, in a leaf below another node.
pub fn undisturbed_deletes_tell_of_merges()
    ensures { UndisturbedDeletesTellOfMerges }
{}
