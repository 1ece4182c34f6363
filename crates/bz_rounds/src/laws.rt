//! Laws of rounds. Each function does nothing: its contract is the law.

ghost use Rattle.bz_rounds.specs.Due.{UndisturbedLeavesAreDue, UndisturbedAscentsAreDue};
ghost use Rattle.bz_rounds.specs.Left.{UndisturbedSwapsLeave};
ghost use Rattle.bz_rounds.specs.Levels.{UndisturbedAscentsAreBelowTheStage};
ghost use Rattle.bz_rounds.specs.Stands.{StagesStand, UndisturbedViewsTellTheLeaf};
ghost use Rattle.bz_rounds.specs.Viewed.{UndisturbedKeyViewsTellTheStage, UndisturbedViewsTellTheStage};

pub use bz_tally::laws as tally;
pub use bz_undisturbed::laws as alone;

/// What a look-up of the key saw of the status of its leaf tells whether the stage is 0.
pub fn undisturbed_key_views_tell_the_stage()
    ensures { UndisturbedKeyViewsTellTheStage }
{}

/// So does what was seen where the leaf was read whole.
pub fn undisturbed_views_tell_the_stage()
    ensures { UndisturbedViewsTellTheStage }
{}

/// So a frozen leaf that was viewed may be made anew.
pub fn undisturbed_leaves_are_due()
    ensures { UndisturbedLeavesAreDue }
{}

/// And a node that was found full on the way up may be split.
pub fn undisturbed_ascents_are_due()
    ensures { UndisturbedAscentsAreDue }
{}

/// While nobody's swap takes effect the stage of a key stands.
pub fn stages_stand()
    ensures { StagesStand }
{}

/// And it is frozen and crowded now where it was when it was read whole.
pub fn undisturbed_views_tell_the_leaf()
    ensures { UndisturbedViewsTellTheLeaf }
{}

/// So the stage of a key whose leaf has to be split is above that level.
pub fn undisturbed_ascents_are_below_the_stage()
    ensures { UndisturbedAscentsAreBelowTheStage }
{}

/// What the swap of whichever of these tasks leaves of the stage, by its kind.
pub fn undisturbed_swaps_leave()
    ensures { UndisturbedSwapsLeave }
{}
