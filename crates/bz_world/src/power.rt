//! Power cuts, and power on.
ghost use Rattle.std.specs.Prelude.{◌≡◌, ◌≤◌, ◌<◌, ◌+◌, ℕ, IsTrue, ◌↔◌, None, get_or, length, map};
ghost use Rattle.bz_mark.specs.declared.power.Power.TheVariants as power;
ghost use Rattle.bz_swap.specs.SwapMemory.{Working};
ghost use Rattle.bz_world.specs.Inside.Beginning.{world_view};
ghost use Rattle.bz_world.specs.Inside.Kept.{IsOff, IsStarted, IsKept};
ghost use Rattle.bz_world.specs.Inside.Powering.{IsCut};
ghost use Rattle.bz_world.specs.WorldView.{IsApplied, after_on};
ghost use Rattle.bz_world.specs.declared.answers.Event.TheVariants as event;

use crate::answers::Applied;
use crate::parts::Parts;
use crate::recovery::start_act;
use crate::serving::OpenCall;
use arrayvec::ArrayVec;
use bz_mark::{Mark, Power};
use bz_recover::Recover;
use bz_swap::Access;
use bz_task::Seen;

// Whether the power is off.
fn is_off(state: Power) -> bool
    ensures { IsTrue result ↔ (state ≡ power.Off) }
{
    match state {
        Power::Off => true,
        Power::Recovering | Power::On => false,
    }
}

// Drops the calls of all workers.
fn drop_calls(workers: &mut Vec<Option<OpenCall>>)
    ensures size { length workers.new.items ≡ length workers.old.items }
    ensures none { (w : ℕ) → get_or workers.new.items w None ≡ None }
{
    let mut w = 0;
    while w < workers.len() {
        workers[w] = None;
        w += 1;
    }
}

// Of each worker, from worker 0 on, whether its next act is a fence.
fn flags_of(access: &Access, workers: u32) -> ArrayVec<bool, 65>
    requires few { workers ≤ 64 }
    requires crew { length access.now.workers ≡ workers + 1 }
    ensures { result.items ≡ map (λ (v : Working). v.flush_next) access.now.workers }
{
    let mut flags = ArrayVec::new();
    for w in 0..workers + 1 {
        flags.push(access.flush_next(w as u8));
    }
    flags
}

// Leaves what is durable, and ends every call.
fn make_cut(parts: &mut Parts)
    requires few { parts.old.config.workers ≤ 64 }
    requires crew { length parts.old.access.workers ≡ parts.old.config.workers + 1 }
    requires room { length parts.old.journal.past < parts.old.journal.limits.marks }
    ensures { IsCut parts.old parts.new }
{
    drop_calls(&mut parts.workers);
    parts.left_out = flags_of(&parts.access, parts.config.workers);
    parts.access.cut();
    parts.journal.push(Mark::Cut);
    parts.power = Power::Off;
}

/// Cuts the power.
pub(crate) fn cut(parts: &mut Parts) -> Applied
    requires { IsKept parts.old }
    ensures kept { IsKept parts.new }
    ensures applied { IsApplied (world_view parts.old) event.Cut result (world_view parts.new) }
{
    if parts.journal.room() < 3 {
        return Applied::Limit;
    }
    if is_off(parts.power) {
        return Applied::Off;
    }
    make_cut(parts);
    Applied::Cut
}

// Begins the recovery.
fn turn_on(parts: &mut Parts)
    requires off { IsOff parts.old }
    requires power { parts.old.power ≡ power.Off }
    requires room { length parts.old.journal.past + 3 ≤ parts.old.config.marks }
    ensures started { IsStarted parts.new }
    ensures power { parts.new.power ≡ power.Recovering }
    ensures after { world_view parts.new ≡ after_on (world_view parts.old) }
{
    parts.recovery = Recover::new(&parts.config);
    parts.journal.push(Mark::On);
    parts.power = Power::Recovering;
    let todo = parts.recovery.next(Seen::Start, &mut parts.slots);
    start_act(parts, todo);
}

/// Brings the power on.
pub(crate) fn power_on(parts: &mut Parts) -> Applied
    requires { IsKept parts.old }
    ensures kept { IsKept parts.new }
    ensures applied { IsApplied (world_view parts.old) event.On result (world_view parts.new) }
{
    if parts.journal.room() < 3 {
        return Applied::Limit;
    }
    if is_off(parts.power) {
        turn_on(parts);
        return Applied::On;
    }
    Applied::Powered
}
