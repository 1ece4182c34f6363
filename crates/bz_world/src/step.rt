//! Steps of workers, and evictions.
ghost use Rattle.std.specs.Prelude.{◌≡◌, ◌≢◌, ◌<◌, ◌≤◌, ◌+◌, None, MatchOption, get_or, length};
ghost use Rattle.bz_layout.specs.Addresses.{words_of};
ghost use Rattle.bz_sound.specs.Calls.{open_call};
ghost use Rattle.bz_task.specs.declared.todo.Todo.TheVariants.{Finish};
ghost use Rattle.bz_world.specs.Inside.Acted.{IsEvicted};
ghost use Rattle.bz_world.specs.Inside.Beginning.{world_view};
ghost use Rattle.bz_world.specs.Inside.Going.{IsFullRightly, HasNotLackedSwaps, HasNotLackedRoom, WentOn, needs_in};
ghost use Rattle.bz_world.specs.Inside.Kept.{IsAwake, IsKept};
ghost use Rattle.bz_world.specs.WorldView.{idle_refusal, Steps, Evicts, IsApplied};
ghost use Rattle.bz_world.specs.Inside.Telling.{MustStart};
ghost use Rattle.bz_world.specs.declared.answers.Event.TheVariants as event;
ghost use Rattle.bz_swap.specs.declared.phase.Phase.TheVariants.{Recovering};

use crate::act::act;
use crate::answers::Applied;
use crate::going::go_on;
use crate::laws::step_laws;
use crate::mark_effect::mark_effect;
use crate::parts::Parts;
use crate::recovery::{evict_recovering, step_recovering};
use crate::settle::settle;
use crate::tell::tell;
use bz_mark::{Mark, Power};
use bz_task::Todo;

// A task asks for something, or has ended.
fn follow(parts: &mut Parts, w: u8, todo: Todo) -> Applied
    requires asks { MustStart parts.old w todo }
    requires full { IsFullRightly parts.old w }
    requires swaps { HasNotLackedSwaps parts.old w }
    requires crowded { HasNotLackedRoom parts.old w }
    requires room { length parts.old.journal.past < parts.old.config.marks }
    ensures went { WentOn parts.old w result parts.new }
    // where the task has not ended, no more slots are gone than it was still to take
    ensures few { todo ≢ Finish → length parts.old.slots.free ≤ length parts.new.slots.free + needs_in (get_or parts.old.workers.items w None) }
{
    match todo {
        Todo::Finish => settle(parts, w),
        todo => go_on(parts, w, todo),
    }
}

// Makes the next act of a worker's open call, and goes on with it.
fn step_open(parts: &mut Parts, w: u8) -> Applied
    requires kept { IsAwake parts.old }
    requires open { open_call w parts.old.journal.past ≢ None }
    requires room { length parts.old.journal.past + 3 ≤ parts.old.config.marks }
    ensures kept { IsAwake parts.new }
    ensures steps { Steps (world_view parts.old) w result (world_view parts.new) }
{
    match act(parts, w) {
        Some(seen) => {
            let todo = tell(parts, w, seen);
            follow(parts, w, todo)
        }
        None => Applied::Stepped,
    }
}

// Goes on with the open call of a worker, if it has one, with the power on.
fn step_powered(parts: &mut Parts, w: u8) -> Applied
    requires kept { IsAwake parts.old }
    requires within { w ≤ parts.old.config.workers }
    requires room { length parts.old.journal.past + 3 ≤ parts.old.config.marks }
    ensures kept { IsAwake parts.new }
    ensures applied { MatchOption (idle_refusal (world_view parts.old) w) (Steps (world_view parts.old) w result (world_view parts.new)) (λ refusal. (result ≡ refusal) × (world_view parts.new ≡ world_view parts.old)) }
{
    if parts.workers[w as usize].is_none() {
        return Applied::Idle;
    }
    step_open(parts, w)
}

/// Goes on with the open call of a worker by one act.
pub(crate) fn step(parts: &mut Parts, w: u8) -> Applied
    requires { IsKept parts.old }
    ensures kept { IsKept parts.new }
    ensures applied { IsApplied (world_view parts.old) (event.Step w) result (world_view parts.new) }
{
    if u32::from(w) > parts.config.workers {
        return Applied::NoWorker;
    }
    if parts.journal.room() < 3 {
        return Applied::Limit;
    }
    match parts.power {
        Power::Off => Applied::Off,
        Power::Recovering => step_recovering(parts, w),
        Power::On => step_powered(parts, w),
    }
}

// Makes a word durable.
pub(crate) fn make_eviction(parts: &mut Parts, a: u32) -> Option<u16>
    requires within { a < length parts.old.access.cached }
    requires room { length parts.old.journal.past < parts.old.journal.limits.marks }
    ensures { IsEvicted parts.old a result parts.new }
{
    let effect = parts.access.evict(a);
    parts.journal.push(Mark::Evict { a });
    effect
}

// Makes a word durable, and notes the effect that comes of it.
fn evict_word(parts: &mut Parts, a: u32)
    requires kept { IsAwake parts.old }
    requires within { a < words_of parts.old.config }
    requires room { length parts.old.journal.past + 3 ≤ parts.old.config.marks }
    ensures kept { IsAwake parts.new }
    ensures evicts { Evicts (world_view parts.old) a Applied.Evicted (world_view parts.new) }
{
    step_laws();
    if let Some(swap) = make_eviction(parts, a) {
        mark_effect(parts, swap);
    }
}

/// Makes a cached word durable.
pub(crate) fn evict(parts: &mut Parts, a: u32) -> Applied
    requires { IsKept parts.old }
    ensures kept { IsKept parts.new }
    ensures applied { IsApplied (world_view parts.old) (event.Evict a) result (world_view parts.new) }
{
    if a >= parts.config.words() {
        return Applied::NoWord;
    }
    if parts.journal.room() < 3 {
        return Applied::Limit;
    }
    match parts.power {
        Power::Off => Applied::Off,
        Power::Recovering => {
            evict_recovering(parts, a);
            Applied::Evicted
        }
        Power::On => {
            evict_word(parts, a);
            Applied::Evicted
        }
    }
}
