//! The changes of records: what a leaf has decides whether a call makes one.
ghost use Rattle.std.specs.Prelude.{◌≡◌, ◌≢◌, ◌<◌, true, false, None, Some, length, get_or};
ghost use Rattle.bz_call.specs.declared.calls.Call.TheVariants as called;
ghost use Rattle.bz_task.specs.Outcomes.{payload_of};
ghost use Rattle.bz_task.specs.declared.todo.Outcome.TheVariants.{NeedsRoom};
ghost use Rattle.bz_task.specs.declared.todo.Todo.TheVariants.{Finish};
ghost use Rattle.bz_world.specs.Inside.Going.{MustAnswerKey, MustReadCrowded, MustChange, MustInsert, MustUpdate, MustDelete, WentOn, call_in, end_in};
ghost use Rattle.bz_world.specs.Inside.Solitary.{IsNotSolitaryIn};
ghost use Rattle.bz_world.specs.Inside.Telling.{MustStartOf};

use crate::answers::Applied;
use crate::calls::{ended_in, found_path, set_change};
use crate::end::end;
use crate::going::go_on;
use crate::laws::{answer_laws, paths_end, round_laws, start_laws, undisturbed_laws};
use crate::lookups::read_leaf;
use crate::parts::Parts;
use crate::serving::OpenCall;
use crate::tell::tell;
use bz_any_task::AnyTask;
use bz_call::Reply;
use bz_key::{Key, Payload};
use bz_task::{KeyView, Outcome, Seen, Todo};

// Whether a task ended because its leaf is frozen or lacks the words.
fn needs_room(slot: &Option<OpenCall>) -> bool
    ensures needs { result ≡ true → end_in slot.now ≡ Some NeedsRoom }
    ensures goes { result ≡ false → end_in slot.now ≢ Some NeedsRoom }
{
    match ended_in(slot) {
        Some(Outcome::NeedsRoom) => true,
        _ => false,
    }
}

// Reads the leaf of a change whole, which has no room for it.
fn read_whole(parts: &mut Parts, w: u8) -> Applied
    requires way { MustReadCrowded parts.old w }
    requires room { length parts.old.journal.past < parts.old.config.marks }
    ensures { WentOn parts.old w result parts.new }
{
    let path = found_path(&parts.workers[w as usize]);
    read_leaf(parts, w, path)
}

// Goes on with a change that was told to begin. Where its leaf is frozen or lacks the room, the leaf is read whole, to be made anew.
fn go_on_changing(parts: &mut Parts, w: u8, todo: Todo) -> Applied
    requires asks { MustStartOf parts.old w todo }
    requires ends { todo ≡ Finish → end_in (get_or parts.old.workers.items w None) ≡ Some NeedsRoom }
    requires other { IsNotSolitaryIn parts.old.journal.past w (get_or parts.old.workers.items w None) }
    requires room { length parts.old.journal.past < parts.old.config.marks }
    ensures { WentOn parts.old w result parts.new }
{
    round_laws();
    if needs_room(&parts.workers[w as usize]) {
        read_whole(parts, w)
    } else {
        go_on(parts, w, todo)
    }
}

// Begins a change, by this task.
fn begin_change(parts: &mut Parts, w: u8, had: Option<Payload>, task: AnyTask) -> Applied
    requires change { MustChange parts.old w had task }
    requires room { length parts.old.journal.past < parts.old.config.marks }
    ensures { WentOn parts.old w result parts.new }
{
    undisturbed_laws();
    set_change(&mut parts.workers[w as usize], task, had);
    let todo = tell(parts, w, Seen::Start);
    go_on_changing(parts, w, todo)
}

// Inserts a key that its leaf lacks.
fn insert(parts: &mut Parts, w: u8, view: &KeyView, key: Key, payload: Payload) -> Applied
    requires must { MustInsert parts.old w view.now key payload }
    requires absent { view.now.found ≡ None }
    requires room { length parts.old.journal.past < parts.old.config.marks }
    ensures { WentOn parts.old w result parts.new }
{
    start_laws();
    let path = found_path(&parts.workers[w as usize]);
    let task = AnyTask::insert(&parts.config, path, *view, key, payload);
    task.laws();
    begin_change(parts, w, None, task)
}

// Updates a key that its leaf has.
fn update(
    parts: &mut Parts,
    w: u8,
    view: &KeyView,
    key: Key,
    payload: Payload,
    had: Payload,
) -> Applied
    requires must { MustUpdate parts.old w view.now key payload }
    requires present { payload_of view.now.found ≡ Some had }
    requires room { length parts.old.journal.past < parts.old.config.marks }
    ensures { WentOn parts.old w result parts.new }
{
    start_laws();
    let path = found_path(&parts.workers[w as usize]);
    let task = AnyTask::update(&parts.config, path, *view, key, payload);
    task.laws();
    begin_change(parts, w, Some(had), task)
}

// Deletes a key that its leaf has.
fn delete(parts: &mut Parts, w: u8, view: &KeyView, key: Key, had: Payload) -> Applied
    requires must { MustDelete parts.old w view.now key }
    requires present { payload_of view.now.found ≡ Some had }
    requires room { length parts.old.journal.past < parts.old.config.marks }
    ensures { WentOn parts.old w result parts.new }
{
    start_laws();
    let path = found_path(&parts.workers[w as usize]);
    paths_end(&path);
    let task = AnyTask::delete(&parts.config, path, *view, key);
    task.laws();
    begin_change(parts, w, Some(had), task)
}

/// Answers an insert where its key is there, and makes it where it is not.
pub(crate) fn answer_insert(
    parts: &mut Parts,
    w: u8,
    view: &KeyView,
    key: Key,
    payload: Payload,
) -> Applied
    requires view { MustAnswerKey parts.old w view.now }
    requires call { call_in (get_or parts.old.workers.items w None) ≡ Some (called.Insert key payload) }
    requires room { length parts.old.journal.past < parts.old.config.marks }
    ensures { WentOn parts.old w result parts.new }
{
    answer_laws();
    match view.found {
        Some(_) => end(parts, w, Reply::Exists, view.at),
        None => insert(parts, w, view, key, payload),
    }
}

/// Answers a delete where its key is not there, and makes it where it is.
pub(crate) fn answer_delete(parts: &mut Parts, w: u8, view: &KeyView, key: Key) -> Applied
    requires view { MustAnswerKey parts.old w view.now }
    requires call { call_in (get_or parts.old.workers.items w None) ≡ Some (called.Delete key) }
    requires room { length parts.old.journal.past < parts.old.config.marks }
    ensures { WentOn parts.old w result parts.new }
{
    answer_laws();
    match view.found {
        Some(found) => delete(parts, w, view, key, found.payload),
        None => end(parts, w, Reply::Missing, view.at),
    }
}

/// Answers an update where its key is not there, and makes it where it is.
pub(crate) fn answer_update(
    parts: &mut Parts,
    w: u8,
    view: &KeyView,
    key: Key,
    payload: Payload,
) -> Applied
    requires view { MustAnswerKey parts.old w view.now }
    requires call { call_in (get_or parts.old.workers.items w None) ≡ Some (called.Update key payload) }
    requires room { length parts.old.journal.past < parts.old.config.marks }
    ensures { WentOn parts.old w result parts.new }
{
    answer_laws();
    match view.found {
        Some(found) => update(parts, w, view, key, payload, found.payload),
        None => end(parts, w, Reply::Missing, view.at),
    }
}

/// Makes an upsert: an update where its key is there, and an insert where it is not.
pub(crate) fn answer_upsert(
    parts: &mut Parts,
    w: u8,
    view: &KeyView,
    key: Key,
    payload: Payload,
) -> Applied
    requires view { MustAnswerKey parts.old w view.now }
    requires call { call_in (get_or parts.old.workers.items w None) ≡ Some (called.Upsert key payload) }
    requires room { length parts.old.journal.past < parts.old.config.marks }
    ensures { WentOn parts.old w result parts.new }
{
    match view.found {
        Some(found) => update(parts, w, view, key, payload, found.payload),
        None => insert(parts, w, view, key, payload),
    }
}
