//! The laws on which the world's acts stand, from the crates below. Each function does nothing.
ghost use Rattle.std.specs.Prelude.{◌≤◌};
ghost use Rattle.bz_layout.specs.declared.thresholds.TheConstants.{MAX_LEVELS};
ghost use Rattle.bz_world.specs.Inside.Laws.{HasEnd, UndisturbedLaws, BegunLaws, SolitaryLaws, PaidLaws, RoundLaws, StepLaws, StrikeLaws, StartLaws, EndLaws, AnswerLaws};

use bz_refinement::laws as story;
use bz_rivals::laws as rivals;
use bz_sight::laws as sight;
use bz_solo::laws as solo;
use bz_sound::{memory_laws as calls, power_laws as sound};
use bz_stage::laws as stage;
use bz_swap::laws as swap;
use bz_task::Path;

/// Those of the descriptors that are taken.
pub(crate) fn begun_laws()
    ensures { BegunLaws }
{
    swap::begun_stay_taken();
    rivals::zero_swaps_nothing();
    rivals::notes_are_of_begun();
}

/// Those of a solitary get.
pub(crate) fn solitary_laws()
    ensures { SolitaryLaws }
{
    sound::none_is_open_beside_a_solitary_call();
    solo::look_ups_are_brief();
    solo::ways_are_brief();
    solo::brief_look_ups_go_on();
    solo::gets_are_brief();
    solo::effects_never_fall();
    story::scenes_are_seen();
}

/// Those by which the call of a worker that steps alone is paid for.
pub(crate) fn paid_laws()
    ensures { PaidLaws }
{
    solo::solo_calls_are_affordable();
    solo::any_call_is_paid();
    solo::any_round_is_paid();
    solo::first_rounds_are_paid();
    solo::quiet_steps_are_paid();
    solo::foreign_effects_are_paid();
    solo::effect_marks_are_paid();
    solo::less_is_paid();
    solo::own_effects_are_paid();
    solo::hearings_are_paid();
    solo::starts_are_paid();
    solo::idle_memories_allow_nothing();
    solo::asked_swaps_are_counted();
    rivals::rivals_fall();
    swap::solo_steps_are_allowed();
    swap::solo_steps_are_allowed_by_kind();
}

/// Those of what comes after a task.
pub(crate) fn round_laws()
    ensures { RoundLaws }
{
    solo::less_is_spared();
    solo::ends_are_afforded();
    solo::ends_are_paid();
    solo::ways_are_paid();
    solo::changes_are_paid();
    solo::leaves_are_read();
    solo::read_leaves_are_paid();
    solo::tasks_may_begin();
    solo::rounds_begin();
    solo::disturbed_rounds_are_paid();
    solo::ends_leave_a_round();
    solo::renewals_are_paid();
    solo::ascents_are_paid();
    solo::asked_swaps_are_counted();
    solo::undisturbed_views_tell_the_leaf();
    solo::undisturbed_views_tell_the_stage();
    solo::undisturbed_key_views_tell_the_stage();
    solo::undisturbed_leaves_are_due();
    solo::undisturbed_ascents_are_due();
    solo::undisturbed_ascents_are_below_the_stage();
    stage::lacking_leaves_say();
    solo::stages_stand();
    solo::undisturbed_views_tell_the_live_words();
    solo::paths_read_few();
    story::scenes_are_seen();
    solo::trees_stand();
    solo::neighbours_stand();
    solo::undisturbed_merges_are_due();
    solo::merges_know_their_leaf();
    solo::undisturbed_root_leaves_are_the_tree();
}

/// Those of a worker that is alone.
pub(crate) fn undisturbed_laws()
    ensures { UndisturbedLaws }
{
    solo::own_swaps_are_counted();
    solo::undisturbed_tasks_go_on();
    solo::undisturbed_restarts_are_refusals();
    rivals::own_swaps_win();
    rivals::expected_stand();
    story::scenes_are_seen();
    sound::loads_are_settled();
    solo::known_leaves_stay();
    solo::undisturbed_merges_do_not_lack_room();
    paid_laws();
    round_laws();
}

/// Those of an act without effect.
pub(crate) fn step_laws()
    ensures { StepLaws }
{
    solitary_laws();
    undisturbed_laws();
    sight::acts_pass();
    sight::quiet_steps_pass();
    sight::steps_leave_caches();
    sight::storing_steps_store();
    sight::flushing_steps_flush();
    sight::own_words_are_hidden();
    story::scenes_are_seen();
    bz_task::laws::ranges_stay();
    story::lives_go_on();
    story::quiet_marks_are_lawful();
    story::stores_are_told();
    story::flushes_are_told();
    sound::quiet_acts_follow();
    sound::fences_follow();
    sound::same_content_decodes();
    swap::taken_statuses_stay();
    begun_laws();
    calls::effects_stay_open();
}

/// And those of an effect.
pub(crate) fn strike_laws()
    ensures { StrikeLaws }
{
    solitary_laws();
    paid_laws();
    solo::leaves_come_and_go();
    solo::deletes_take_one_record();
    solo::stages_stand();
    solo::known_leaves_stay();
    solo::merges_count_at_last();
    solo::trees_stand();
    solo::deletes_tell_of_merges();
    solo::mergeable_leaves_stand_below();
    bz_content::laws::well_formed_images_have_no_fault();
    bz_task::laws::fronts_stay();
    bz_page::laws::views_say_what_images_say();
    sight::effects_take_place();
    sight::acts_pass();
    story::scenes_are_seen();
    story::lives_go_on();
    story::quiet_marks_are_lawful();
    story::effects_are_told();
    sound::same_content_decodes();
    sound::fences_follow();
    sound::changes_follow();
    sound::effects_follow_acts();
    calls::open_calls_are_kept();
    sound::open_calls_are_last();
    calls::effects_stay_open();
}

/// And those of a start.
pub(crate) fn start_laws()
    ensures { StartLaws }
{
    solitary_laws();
    undisturbed_laws();
    sight::own_words_are_hidden();
    sight::tasks_may_start();
    sight::starts_are_seen();
    story::scenes_are_seen();
    begun_laws();
}

/// And those of the Begin and the End of a call.
pub(crate) fn end_laws()
    ensures { EndLaws }
{
    solitary_laws();
    story::scenes_are_seen();
    story::lives_go_on();
    story::quiet_marks_are_lawful();
    calls::open_calls_are_kept();
    sound::open_calls_are_last();
    sound::open_calls_leave_room();
    sound::ends_follow();
    sound::page_ends_follow();
    sound::begins_follow();
    calls::effects_stay_open();
}

/// And those of an answer.
pub(crate) fn answer_laws()
    ensures { AnswerLaws }
{
    solitary_laws();
    sound::answers_come_from_the_image();
    sound::pages_come_from_the_image();
    sound::spent_answers_full();
    bz_record::laws::views_show_leaves();
    bz_page::laws::views_say_what_images_say();
}

/// A path ends with a link.
pub(crate) fn paths_end(path: &Path)
    requires some { 1 ≤ path.now.depth }
    requires few { path.now.depth ≤ MAX_LEVELS }
    ensures { HasEnd path.now }
{
    let _last = bz_renew::last_link(path);
}
