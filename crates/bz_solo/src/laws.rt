//! Laws of the number. Each function does nothing: its contract is the law.

ghost use Rattle.bz_costs.specs.Resources.{Resource};
ghost use Rattle.bz_solo.specs.Renewals.{RenewalsArePaid, AscentsArePaid};
ghost use Rattle.bz_solo.specs.Rounds.{LessIsSpared, EndsAreAfforded, EndsArePaid, WaysArePaid, ChangesArePaid, LeavesAreRead, ReadLeavesArePaid, TasksMayBegin, RoundsBegin, DisturbedRoundsArePaid, EndsLeaveARound};
ghost use Rattle.bz_solo.specs.Steps.{AnyCallIsPaid, AnyRoundIsPaid, FirstRoundsArePaid, IdleMemoriesAllowNothing, QuietStepsArePaid, ForeignEffectsArePaid, EffectMarksArePaid, LessIsPaid, OwnEffectsArePaid, HearingsArePaid, StartsArePaid};

pub use bz_costs::laws::{asked_swaps_are_counted, solo_calls_are_affordable};
pub use bz_joined::laws::{
    brief_look_ups_go_on, deletes_take_one_record, deletes_tell_few, deletes_tell_of_merges,
    effects_never_fall, gets_are_brief, known_leaves_stay, leaves_come_and_go, look_ups_are_brief,
    mergeable_leaves_stand_below, merges_count_at_last, merges_know_their_leaf,
    merges_lack_slots_rightly, neighbours_stand, own_swaps_are_counted, paths_read_few,
    stages_stand, trees_stand, undisturbed_ascents_are_below_the_stage,
    undisturbed_ascents_are_due, undisturbed_deletes_tell_of_merges,
    undisturbed_key_views_tell_the_stage, undisturbed_leaves_are_due, undisturbed_merges_are_due,
    undisturbed_merges_do_not_lack_room, undisturbed_restarts_are_refusals,
    undisturbed_root_leaves_are_the_tree, undisturbed_tasks_go_on,
    undisturbed_tasks_try_their_neighbours, undisturbed_views_tell_the_leaf,
    undisturbed_views_tell_the_live_words, undisturbed_views_tell_the_stage, ways_are_brief,
};

/// Whatever a call has come to, it ends within the marks that the configuration tells.
pub fn any_call_is_paid()
    ensures { AnyCallIsPaid }
{}

/// So does one that is about to look its key up.
pub fn any_round_is_paid()
    ensures { AnyRoundIsPaid }
{}

/// So does one that begins while nobody does anything, within what is promised for each call.
pub fn first_rounds_are_paid()
    ensures { (r : Resource) → FirstRoundsArePaid r }
{}

/// Then the swap memory allows nothing more.
pub fn idle_memories_allow_nothing()
    ensures { IdleMemoriesAllowNothing }
{}

/// A step without an effect is paid for.
pub fn quiet_steps_are_paid()
    ensures { (r : Resource) → QuietStepsArePaid r }
{}

/// So is one at which another worker's swap takes effect.
pub fn foreign_effects_are_paid()
    ensures { (r : Resource) → ForeignEffectsArePaid r }
{}

/// So is the mark of an effect.
pub fn effect_marks_are_paid()
    ensures { (r : Resource) → EffectMarksArePaid r }
{}

/// What pays for more pays for less.
pub fn less_is_paid()
    ensures { (r : Resource) → LessIsPaid r }
{}

/// A step at which the worker's own swap takes effect is paid for, and what comes after that.
pub fn own_effects_are_paid()
    ensures { (r : Resource) → OwnEffectsArePaid r }
{}

/// What a task is told pays for the slots that are gone then, and for the start of its next act.
pub fn hearings_are_paid()
    ensures { (r : Resource) → HearingsArePaid r }
{}

/// That start is paid for.
pub fn starts_are_paid()
    ensures { (r : Resource) → StartsArePaid r }
{}

/// What spares more spares less.
pub fn less_is_spared()
    ensures { (r : Resource) → LessIsSpared r }
{}

/// What a task has not started yet is there, what it may still take besides, and a mark for the end of its call.
pub fn ends_are_afforded()
    ensures { (r : Resource) → EndsAreAfforded r }
{}

/// The end of a look-up leaves what may come after it.
pub fn ends_are_paid()
    ensures { (r : Resource) → EndsArePaid r }
{}

/// A way that was found leaves what may come after it.
pub fn ways_are_paid()
    ensures { (r : Resource) → WaysArePaid r }
{}

/// A change is paid for once its key was looked up.
pub fn changes_are_paid()
    ensures { (r : Resource) → ChangesArePaid r }
{}

/// So is the reading of a leaf without room.
pub fn leaves_are_read()
    ensures { (r : Resource) → LeavesAreRead r }
{}

/// What comes after that is paid for.
pub fn read_leaves_are_paid()
    ensures { (r : Resource) → ReadLeavesArePaid r }
{}

/// A task that is spared may begin.
pub fn tasks_may_begin()
    ensures { (r : Resource) → TasksMayBegin r }
{}

/// A round that is paid for may begin.
pub fn rounds_begin()
    ensures { (r : Resource) → RoundsBegin r }
{}

/// A round is paid for where the one before was disturbed.
pub fn disturbed_rounds_are_paid()
    ensures { (r : Resource) → DisturbedRoundsArePaid r }
{}

/// And after the end of a task that left the leaf better than it was, or after which something is still to be tried.
pub fn ends_leave_a_round()
    ensures { (r : Resource) → EndsLeaveARound r }
{}

/// What is done to a leaf without room is paid for.
pub fn renewals_are_paid()
    ensures { (r : Resource) → RenewalsArePaid r }
{}

/// So is what is done to the full nodes above it.
pub fn ascents_are_paid()
    ensures { (r : Resource) → AscentsArePaid r }
{}
