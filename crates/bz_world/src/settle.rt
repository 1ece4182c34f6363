//! What comes of the end of a task: the next task of its call, or its reply.
ghost use Rattle.std.specs.Prelude.{◌≡◌, ◌<◌, false, None, Some, length, get_or};
ghost use Rattle.bz_call.specs.declared.calls.Call.TheVariants as called;
ghost use Rattle.bz_task.specs.declared.todo.Outcome.TheVariants.{Full, NeedsRoom};
ghost use Rattle.bz_task.specs.declared.todo.Todo.TheVariants.{Finish};
ghost use Rattle.bz_world.specs.Inside.Going.{MustAnswer, MustAnswerKey, MustFind, HasEnded, IsFullRightly, HasNotLackedSwaps, HasNotLackedRoom, MustLookUpAs, LooksUpIn, WentOn, call_in, froze_in};
ghost use Rattle.bz_world.specs.Inside.Paid.{crowded};
ghost use Rattle.bz_solo.specs.Errands.{after};
ghost use Rattle.bz_world.specs.Inside.Telling.{MustStart, MustStartFound};

use crate::answers::Applied;
use crate::calls::{
    above, asks_page, called, effect_in, has_frozen, is_freezing, is_merging, key_of, set_froze,
    set_task, set_unmerged,
};
use crate::changes::{answer_delete, answer_insert, answer_update, answer_upsert};
use crate::effected::settle_effective;
use crate::end::{end, end_page};
use crate::going::{end_full, go_on, look_up, outcome_of};
use crate::laws::{answer_laws, paths_end, round_laws, start_laws};
use crate::lookups::{read_frozen, read_leaf};
use crate::parts::Parts;
use crate::restructuring::{restructure, split_above};
use crate::room::lacks_room;
use crate::tell::tell;
use bz_any_task::AnyTask;
use bz_call::{Call, Reply, Spent};
use bz_key::Key;
use bz_page::collect;
use bz_task::{KeyView, LeafView, Outcome, Path, Seen, Todo};

// Answers a get by what its leaf has.
fn answer_get(parts: &mut Parts, w: u8, view: &KeyView, key: &Key) -> Applied
    requires view { MustAnswerKey parts.old w view.now }
    requires call { call_in (get_or parts.old.workers.items w None) ≡ Some (called.Get key.now) }
    requires room { length parts.old.journal.past < parts.old.config.marks }
    ensures { WentOn parts.old w result parts.new }
{
    answer_laws();
    let _key = key;
    let reply = match view.found {
        Some(found) => Reply::Value(found.payload),
        None => Reply::Missing,
    };
    end(parts, w, reply, view.at)
}

// Answers a page by what its leaf has from the key on.
fn answer_page(parts: &mut Parts, w: u8, view: &LeafView, from: &Key) -> Applied
    requires view { MustAnswer parts.old w view.now }
    requires call { call_in (get_or parts.old.workers.items w None) ≡ Some (called.Page from.now) }
    requires room { length parts.old.journal.past < parts.old.config.marks }
    ensures { WentOn parts.old w result parts.new }
{
    answer_laws();
    let next = collect(view, from, &mut parts.page);
    end_page(parts, w, next, view.at)
}

// Answers a call by what its leaf has of its key, or gives it the task that makes its change.
fn answer(parts: &mut Parts, w: u8, view: &KeyView) -> Applied
    requires view { MustAnswerKey parts.old w view.now }
    requires room { length parts.old.journal.past < parts.old.config.marks }
    ensures { WentOn parts.old w result parts.new }
{
    match called(&parts.workers[w as usize]) {
        Call::Get(key) => answer_get(parts, w, view, &key),
        Call::Insert(key, payload) => answer_insert(parts, w, view, key, payload),
        Call::Delete(key) => answer_delete(parts, w, view, key),
        Call::Update(key, payload) => answer_update(parts, w, view, key, payload),
        Call::Upsert(key, payload) => answer_upsert(parts, w, view, key, payload),
        // a page reads its leaf whole
        Call::Page(_) => unreachable!(),
    }
}

// The look-up of a key has ended as it began: what it found answers the call.
fn settle_found(parts: &mut Parts, w: u8) -> Applied
    requires ends { MustStartFound parts.old w Finish }
    requires room { length parts.old.journal.past < parts.old.config.marks }
    ensures { WentOn parts.old w result parts.new }
{
    round_laws();
    match outcome_of(parts, w) {
        Outcome::Key(view) => answer(parts, w, &view),
        _ => look_up(parts, w),
    }
}

// Goes on with a look-up of a key that was told to begin.
fn go_on_finding(parts: &mut Parts, w: u8, todo: Todo) -> Applied
    requires asks { MustStartFound parts.old w todo }
    requires room { length parts.old.journal.past < parts.old.config.marks }
    ensures { WentOn parts.old w result parts.new }
{
    match todo {
        Todo::Finish => settle_found(parts, w),
        todo => go_on(parts, w, todo),
    }
}

// Looks the call's key up there.
fn find_key(parts: &mut Parts, w: u8, path: Path) -> Applied
    requires path { MustFind parts.old w path }
    requires thawed { froze_in (get_or parts.old.workers.items w None) ≡ false }
    requires look { LooksUpIn (get_or parts.old.workers.items w None) }
    requires room { length parts.old.journal.past < parts.old.config.marks }
    ensures { WentOn parts.old w result parts.new }
{
    start_laws();
    let call = called(&parts.workers[w as usize]);
    let task = AnyTask::find(&parts.config, path, key_of(&call));
    task.laws();
    task.looks();
    set_task(&mut parts.workers[w as usize], task, Some(path));
    let todo = tell(parts, w, Seen::Start);
    go_on_finding(parts, w, todo)
}

// Looks into its leaf for what the call asks: at the whole leaf for a page, and where the call has frozen its leaf; at the call's key for
// any other.
fn look_into(parts: &mut Parts, w: u8, path: Path) -> Applied
    requires path { MustFind parts.old w path }
    requires room { length parts.old.journal.past < parts.old.config.marks }
    ensures { WentOn parts.old w result parts.new }
{
    round_laws();
    if has_frozen(&parts.workers[w as usize]) {
        return read_frozen(parts, w, path);
    }
    if asks_page(&parts.workers[w as usize]) {
        return read_leaf(parts, w, path);
    }
    find_key(parts, w, path)
}

// Answers a page by its whole leaf. Any other call has read it whole because it has no room there: it is made anew, if so still.
fn answer_whole(parts: &mut Parts, w: u8, view: &LeafView) -> Applied
    requires view { MustAnswer parts.old w view.now }
    requires room { length parts.old.journal.past < parts.old.config.marks }
    ensures { WentOn parts.old w result parts.new }
{
    start_laws();
    match called(&parts.workers[w as usize]) {
        Call::Page(from) => answer_page(parts, w, view, &from),
        // a get looks its key up
        Call::Get(_) => unreachable!(),
        call => {
            if lacks_room(&call, view) {
                restructure(parts, w, view)
            } else {
                look_up_frozen(parts, w)
            }
        }
    }
}

// The task of a call without effect has ended for want of this. Where it is slots, fewer are left than it takes, and its call ends; so
// it does where the tree is too high.
fn settle_full(parts: &mut Parts, w: u8, spent: Spent) -> Applied
    requires ends { HasEnded parts.old w (Full spent) }
    requires room { length parts.old.journal.past < parts.old.config.marks }
    ensures { WentOn parts.old w result parts.new }
{
    bz_solo::laws::merges_lack_slots_rightly();
    start_laws();
    match spent {
        Spent::Nodes => end_full(parts, w, spent),
        Spent::Height => end_full(parts, w, spent),
        Spent::Swaps => unreachable!(),
    }
}

// Looks the call's key up again. Where its leaf was to be merged, no neighbour had room for it, and it is copied then.
fn look_up_unmerged(parts: &mut Parts, w: u8) -> Applied
    requires { MustLookUpAs parts.old w crowded }
    ensures { WentOn parts.old w result parts.new }
{
    let alone = is_merging(&parts.workers[w as usize]);
    set_unmerged(&mut parts.workers[w as usize], alone);
    look_up(parts, w)
}

// Looks the call's key up again. Where it has just frozen its leaf itself, which has no room for it then, it reads that whole.
fn look_up_frozen(parts: &mut Parts, w: u8) -> Applied
    requires { MustLookUpAs parts.old w after }
    ensures { WentOn parts.old w result parts.new }
{
    let froze = is_freezing(&parts.workers[w as usize]);
    set_froze(&mut parts.workers[w as usize], froze);
    look_up(parts, w)
}

// The task of a call without effect has ended for want of room: a split, because the node above has none, which is then to be split
// first; a merge, because no neighbour has any; or a change, because its leaf has none. After these the key is looked up again.
fn settle_crowded(parts: &mut Parts, w: u8) -> Applied
    requires ends { HasEnded parts.old w NeedsRoom }
    requires room { length parts.old.journal.past < parts.old.config.marks }
    ensures { WentOn parts.old w result parts.new }
{
    start_laws();
    match above(&parts.workers[w as usize], &parts.config) {
        Some(task) => split_above(parts, w, task),
        None => look_up_unmerged(parts, w),
    }
}

// The task of a call without effect has ended so.
fn settle_quiet(parts: &mut Parts, w: u8, outcome: Outcome) -> Applied
    requires ends { HasEnded parts.old w outcome }
    requires room { length parts.old.journal.past < parts.old.config.marks }
    ensures { WentOn parts.old w result parts.new }
{
    round_laws();
    match outcome {
        Outcome::Path(path) => look_into(parts, w, path),
        Outcome::Key(view) => answer(parts, w, &view),
        Outcome::View(view) => answer_whole(parts, w, &view),
        Outcome::Full(spent) => settle_full(parts, w, spent),
        Outcome::NeedsRoom => settle_crowded(parts, w),
        Outcome::Done => look_up_frozen(parts, w),
        _ => look_up(parts, w),
    }
}

/// The task of a worker's call has ended.
pub(crate) fn settle(parts: &mut Parts, w: u8) -> Applied
    requires ends { MustStart parts.old w Finish }
    requires full { IsFullRightly parts.old w }
    requires swaps { HasNotLackedSwaps parts.old w }
    requires crowded { HasNotLackedRoom parts.old w }
    requires room { length parts.old.journal.past < parts.old.config.marks }
    ensures { WentOn parts.old w result parts.new }
{
    round_laws();
    let outcome = outcome_of(parts, w);
    match effect_in(&parts.workers[w as usize]) {
        Some(at) => settle_effective(parts, w, at, outcome),
        None => settle_quiet(parts, w, outcome),
    }
}
