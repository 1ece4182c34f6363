//! How a call goes on when its task has ended, or asks for something.
ghost use Rattle.std.specs.Prelude.{◌≡◌, ◌≢◌, ◌<◌, ◌≤◌, ◌+◌, false, None, Some, get_or, length};
ghost use Rattle.bz_task.specs.declared.todo.Todo.TheVariants.{Finish};
ghost use Rattle.bz_call.specs.Pages.{names_page};
ghost use Rattle.bz_world.specs.Inside.Going.{MustLookUp, HasToEnd, LacksSwap, IsShort, WentOn, end_in, needs_in};
ghost use Rattle.bz_world.specs.Inside.Solitary.{IsNotSolitaryIn};
ghost use Rattle.bz_world.specs.Inside.Serving.{effect_reply as reply_in};
ghost use Rattle.bz_world.specs.Inside.Telling.{MustBegin, MustStart};

use crate::answers::Applied;
use crate::calls::{called, effect_in, ended_in, had_in, key_of, set_task};
use crate::end::end;
use crate::laws::{start_laws, undisturbed_laws};
use crate::parts::Parts;
use crate::start::start;
use crate::tell::tell;
use bz_any_task::AnyTask;
use bz_call::{Call, Reply, Spent};
use bz_key::Payload;
use bz_layout::ROOT_STATUS_AT;
use bz_task::{Outcome, Seen, Todo};

/// Begins the lookup of the call's key, again.
pub(crate) fn look_up(parts: &mut Parts, w: u8) -> Applied
    requires { MustLookUp parts.old w }
    ensures went { WentOn parts.old w result parts.new }
    ensures slots { parts.new.slots ≡ parts.old.slots }
{
    start_laws();
    let call = called(&parts.workers[w as usize]);
    let task = AnyTask::seek(&parts.config, key_of(&call));
    task.laws();
    set_task(&mut parts.workers[w as usize], task, None);
    start(parts, w, Todo::Read(ROOT_STATUS_AT));
    Applied::Stepped
}

/// The reply to a call that made its change, where its key had this payload, or none.
pub(crate) fn effect_reply(call: &Call, had: Option<Payload>) -> Reply
    ensures reply { result ≡ reply_in call.now had }
    ensures plain { names_page result ≡ false }
{
    match (call, had) {
        (Call::Delete(_), Some(had)) => Reply::Deleted(had),
        (Call::Update(_, _) | Call::Upsert(_, _), Some(had)) => Reply::Updated(had),
        (Call::Insert(_, _) | Call::Get(_) | Call::Page(_), _)
        | (Call::Delete(_) | Call::Update(_, _) | Call::Upsert(_, _), None) => Reply::Inserted,
    }
}

/// Ends a call that had its effect, by the reply that tells it.
pub(crate) fn end_effective(parts: &mut Parts, w: u8, at: u32) -> Applied
    requires had { HasToEnd parts.old w at }
    requires room { length parts.old.journal.past < parts.old.config.marks }
    ensures went { WentOn parts.old w result parts.new }
    ensures slots { parts.new.slots ≡ parts.old.slots }
{
    let call = called(&parts.workers[w as usize]);
    let had = had_in(&parts.workers[w as usize]);
    end(parts, w, effect_reply(&call, had), at)
}

/// Ends a call without effect, which makes a change, for want of what was spent.
pub(crate) fn end_full(parts: &mut Parts, w: u8, spent: Spent) -> Applied
    requires short { IsShort parts.old w spent }
    requires other { IsNotSolitaryIn parts.old.journal.past w (get_or parts.old.workers.items w None) }
    requires room { length parts.old.journal.past < parts.old.config.marks }
    ensures went { WentOn parts.old w result parts.new }
    ensures slots { parts.new.slots ≡ parts.old.slots }
{
    let now = parts.journal.length();
    end(parts, w, Reply::Full(spent), now)
}

// Ends a call for want of a descriptor.
fn end_swapless(parts: &mut Parts, w: u8) -> Applied
    requires lacks { LacksSwap parts.old w }
    requires other { IsNotSolitaryIn parts.old.journal.past w (get_or parts.old.workers.items w None) }
    requires room { length parts.old.journal.past < parts.old.config.marks }
    ensures went { WentOn parts.old w result parts.new }
    ensures slots { parts.new.slots ≡ parts.old.slots }
{
    match effect_in(&parts.workers[w as usize]) {
        Some(at) => end_effective(parts, w, at),
        None => end_full(parts, w, Spent::Swaps),
    }
}

/// How the task of a worker's call has ended.
pub(crate) fn outcome_of(parts: &Parts, w: u8) -> Outcome
    requires { MustStart parts.now w Finish }
    ensures { end_in (get_or parts.now.workers.items w None) ≡ Some result }
{
    match ended_in(&parts.workers[w as usize]) {
        Some(outcome) => outcome,
        None => unreachable!(),
    }
}

/// Starts what a task asks for, which has not ended.
pub(crate) fn go_on(parts: &mut Parts, w: u8, todo: Todo) -> Applied
    requires asks { MustStart parts.old w todo }
    requires more { todo ≢ Finish }
    requires room { length parts.old.journal.past < parts.old.config.marks }
    ensures went { WentOn parts.old w result parts.new }
    // no more slots are gone than its task was still to take
    ensures few { length parts.old.slots.free ≤ length parts.new.slots.free + needs_in (get_or parts.old.workers.items w None) }
{
    if start(parts, w, todo) {
        Applied::Stepped
    } else {
        undisturbed_laws();
        let _ = tell(parts, w, Seen::NoSwap);
        end_swapless(parts, w)
    }
}

/// Has the new task of a call begin.
pub(crate) fn begin_task(parts: &mut Parts, w: u8) -> Applied
    requires begins { MustBegin parts.old w }
    requires room { length parts.old.journal.past < parts.old.config.marks }
    ensures { WentOn parts.old w result parts.new }
{
    let todo = tell(parts, w, Seen::Start);
    go_on(parts, w, todo)
}
