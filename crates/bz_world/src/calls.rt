//! What a served call asks for, and how far it has come.
ghost use Rattle.std.specs.Prelude.{◌≡◌, ◌↔◌, true, IsTrue, IsSome, IfSome, Some};
ghost use Rattle.bz_call.specs.Map.{key_of as key_in};
ghost use Rattle.bz_sound.specs.Memory.Replies.{IsWrite};
ghost use Rattle.bz_task.specs.declared.todo.Todo.TheVariants.{Finish};
ghost use Rattle.bz_world.specs.Inside.Merging.{is_below as leads_below};
ghost use Rattle.bz_world.specs.Inside.Going.{call_in, end_in, asks_in, path_in as way_in, had_in as payload_in, effect_in as moment_in, page_in, froze_in, unmerged_in, freezes_in, merges_in, few_in, DeletesIn, CanGoUpIn, MayGoUpIn, StandsBelowIn, GoesUpIn, with_task, with_change, with_unmerged, with_froze, still_in, joins_in, next_in, with_rest};

use crate::serving::OpenCall;
use bz_any_task::AnyTask;
use bz_call::Call;
use bz_key::{Key, Payload};
use bz_layout::Config;
use bz_solo::Rest;
use bz_task::{Outcome, Path, Task};

/// The key of a call.
pub(crate) fn key_of(call: &Call) -> Key
    ensures { result ≡ key_in call.now }
{
    match call {
        Call::Insert(key, _)
        | Call::Delete(key)
        | Call::Update(key, _)
        | Call::Upsert(key, _)
        | Call::Get(key)
        | Call::Page(key) => *key,
    }
}

/// Whether a call may change the map.
pub(crate) fn is_write(call: &Call) -> bool
    ensures { IsTrue result ↔ IsWrite call.now }
{
    match call {
        Call::Insert(_, _) | Call::Delete(_) | Call::Update(_, _) | Call::Upsert(_, _) => true,
        Call::Get(_) | Call::Page(_) => false,
    }
}

/// The call that is served.
pub(crate) fn called(slot: &Option<OpenCall>) -> Call
    requires { IsSome slot.now }
    ensures { call_in slot.now ≡ Some result }
{
    match slot {
        Some(serving) => serving.call,
        None => unreachable!(),
    }
}

/// How its task has ended, if it has.
pub(crate) fn ended_in(slot: &Option<OpenCall>) -> Option<Outcome>
    ensures end { result ≡ end_in slot.now }
    ensures finish { asks_in slot.now ≡ Some Finish → IsSome result }
{
    match slot {
        Some(serving) => serving.task.ended(),
        None => None,
    }
}

/// The way to its leaf, if it was found.
pub(crate) fn path_in(slot: &Option<OpenCall>) -> Option<Path>
    ensures { result ≡ way_in slot.now }
{
    match slot {
        Some(serving) => serving.path,
        None => None,
    }
}

/// That way, which was found.
pub(crate) fn found_path(slot: &Option<OpenCall>) -> Path
    requires { IsSome (way_in slot.now) }
    ensures { way_in slot.now ≡ Some result }
{
    match path_in(slot) {
        Some(path) => path,
        None => unreachable!(),
    }
}

/// What its key had when its change was begun.
pub(crate) fn had_in(slot: &Option<OpenCall>) -> Option<Payload>
    ensures { result ≡ payload_in slot.now }
{
    match slot {
        Some(serving) => serving.had,
        None => None,
    }
}

/// The split of the node above, where its split lacked the room there.
pub(crate) fn above(slot: &Option<OpenCall>, config: &Config) -> Option<AnyTask>
    requires { CanGoUpIn slot.now config.now }
    ensures up { IfSome result (GoesUpIn slot.now) }
    ensures due { MayGoUpIn slot.now → IsSome result }
    ensures stands { StandsBelowIn slot.now }
{
    match slot {
        Some(serving) => serving.task.above(config),
        None => None,
    }
}

/// The moment before its effect, if it has had one.
pub(crate) fn effect_in(slot: &Option<OpenCall>) -> Option<u32>
    ensures { result ≡ moment_in slot.now }
{
    match slot {
        Some(serving) => serving.effect,
        None => None,
    }
}

/// Whether it is a page that is asked for.
pub(crate) fn asks_page(slot: &Option<OpenCall>) -> bool
    ensures { result ≡ page_in slot.now }
{
    match slot {
        Some(serving) => matches!(serving.call, Call::Page(_)),
        None => false,
    }
}

/// Whether its leaf is to be copied alone.
pub(crate) fn is_unmerged(slot: &Option<OpenCall>) -> bool
    ensures { result ≡ unmerged_in slot.now }
{
    match slot {
        Some(serving) => serving.alone,
        None => false,
    }
}

/// Whether its own freeze of its leaf was the last to end.
pub(crate) fn has_frozen(slot: &Option<OpenCall>) -> bool
    ensures { result ≡ froze_in slot.now }
{
    match slot {
        Some(serving) => serving.froze,
        None => false,
    }
}

/// Whether its task freezes its leaf.
#[tactic(auto, unfolding(bz_any_task::specs::Kinds::kind_of))]
pub(crate) fn is_freezing(slot: &Option<OpenCall>) -> bool
    ensures { result ≡ freezes_in slot.now }
{
    match slot {
        Some(serving) => matches!(serving.task, AnyTask::Freezing(_)),
        None => false,
    }
}

/// Whether its task merges its leaf.
#[tactic(auto, unfolding(bz_any_task::specs::Kinds::kind_of))]
pub(crate) fn is_merging(slot: &Option<OpenCall>) -> bool
    ensures { result ≡ merges_in slot.now }
{
    match slot {
        Some(serving) => matches!(serving.task, AnyTask::Merging(_)),
        None => false,
    }
}

/// Whether its task is a delete that leaves so little in its leaf, below a parent, that this may be merged.
pub(crate) fn leaves_few(slot: &Option<OpenCall>) -> bool
    ensures deletes { result ≡ true → DeletesIn slot.now }
    ensures tells { result ≡ few_in slot.now }
{
    match slot {
        Some(serving) => is_below(&serving.path) && serving.task.leaves_few(),
        None => false,
    }
}

// Whether a path leads to a leaf below a parent.
fn is_below(path: &Option<Path>) -> bool
    ensures { result ≡ leads_below path.now }
{
    match path {
        Some(path) => path.depth > 1,
        None => false,
    }
}

/// Says whether its leaf is to be copied alone.
pub(crate) fn set_unmerged(slot: &mut Option<OpenCall>, alone: bool)
    ensures { slot.new ≡ with_unmerged slot.old alone }
{
    if let Some(serving) = slot {
        serving.alone = alone;
    }
}

/// Says whether its own freeze of its leaf was the last to end.
pub(crate) fn set_froze(slot: &mut Option<OpenCall>, froze: bool)
    ensures { slot.new ≡ with_froze slot.old froze }
{
    if let Some(serving) = slot {
        serving.froze = froze;
    }
}

/// Gives it a lookup.
pub(crate) fn set_task(slot: &mut Option<OpenCall>, task: AnyTask, path: Option<Path>)
    ensures { slot.new ≡ with_task slot.old task path }
{
    if let Some(serving) = slot {
        serving.task = task;
        serving.path = path;
    }
}

/// Gives it the task that makes its change, where its key had this payload, or none.
pub(crate) fn set_change(slot: &mut Option<OpenCall>, task: AnyTask, had: Option<Payload>)
    ensures { slot.new ≡ with_change slot.old task had }
{
    if let Some(serving) = slot {
        serving.task = task;
        serving.had = had;
    }
}

/// What is still to be tried for it once it has had its effect.
pub(crate) fn rest_in(slot: &Option<OpenCall>) -> Rest
    requires { IsSome slot.now }
    ensures { still_in slot.now ≡ Some result }
{
    match slot {
        Some(serving) => serving.rest,
        None => unreachable!(),
    }
}

/// Whether its task merges its leaf, or the inner node above it.
#[tactic(auto, unfolding(bz_any_task::specs::Kinds::kind_of))]
pub(crate) fn is_joining(slot: &Option<OpenCall>) -> bool
    ensures { result ≡ joins_in slot.now }
{
    match slot {
        Some(serving) => matches!(serving.task, AnyTask::Merging(_) | AnyTask::MergingInner(_)),
        None => false,
    }
}

/// What is still to be tried for it after its task, by the kind of that.
#[tactic(auto, unfolding(bz_any_task::specs::Kinds::kind_of))]
pub(crate) fn rest_after(slot: &Option<OpenCall>) -> Rest
    requires { IsSome slot.now }
    ensures { next_in slot.now ≡ Some result }
{
    match slot {
        Some(serving) => match &serving.task {
            AnyTask::Merging(_) => Rest::Inner,
            AnyTask::MergingInner(_) => Rest::Root,
            _ => Rest::Leaf,
        },
        None => unreachable!(),
    }
}

/// Says what is still to be tried for it once it has had its effect.
pub(crate) fn set_rest(slot: &mut Option<OpenCall>, rest: Rest)
    ensures { slot.new ≡ with_rest slot.old rest }
{
    if let Some(serving) = slot {
        serving.rest = rest;
    }
}
