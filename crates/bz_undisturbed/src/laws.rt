//! Laws of a worker that is alone. Each function does nothing: its contract is the law.

ghost use Rattle.bz_undisturbed.specs.Brief.{LookUpsAreBrief, WaysAreBrief, BriefLookUpsGoOn, GetsAreBrief};
ghost use Rattle.bz_undisturbed.specs.Counts.{OwnSwapsAreCounted};
ghost use Rattle.bz_undisturbed.specs.Quiet.{EffectsNeverFall};
ghost use Rattle.bz_undisturbed.specs.Reads.{PathsReadFew};
ghost use Rattle.bz_undisturbed.specs.Restarts.{UndisturbedRestartsAreRefusals};
ghost use Rattle.bz_undisturbed.specs.Tasks.{UndisturbedTasksGoOn};
ghost use Rattle.bz_undisturbed.specs.Trees.{TreesStand};

/// No effect is ever undone.
pub fn effects_never_fall()
    ensures { EffectsNeverFall }
{}

/// In such a time the tree stands, and each key has the leaf that it had.
pub fn trees_stand()
    ensures { TreesStand }
{}

/// And its reads are at most those of the way to that leaf.
pub fn paths_read_few()
    ensures { PathsReadFew }
{}

/// Whichever task it is, it goes on where its worker is alone.
pub fn undisturbed_tasks_go_on()
    ensures { UndisturbedTasksGoOn }
{}

/// So a task that ends to begin again, while its worker is alone, was refused a swap whose expected values stand.
pub fn undisturbed_restarts_are_refusals()
    ensures { UndisturbedRestartsAreRefusals }
{}

/// A task's own swaps are among the effects since its look-up began, so that it tells how many were others'.
pub fn own_swaps_are_counted()
    ensures { OwnSwapsAreCounted }
{}

/// A look-up that is made while no other call is open meets no effect, and its worker's acts are at most twice the reads that it asks for.
pub fn look_ups_are_brief()
    ensures { LookUpsAreBrief }
{}

/// They stay so where the way was found.
pub fn ways_are_brief()
    ensures { WaysAreBrief }
{}

/// It is not begun again.
pub fn brief_look_ups_go_on()
    ensures { BriefLookUpsGoOn }
{}

/// So a get's acts are at most twice the reads that its image allows.
pub fn gets_are_brief()
    ensures { GetsAreBrief }
{}
