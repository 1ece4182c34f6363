//! Begins of calls.
ghost use Rattle.std.specs.Prelude.{◌≡◌, ◌≤◌};
ghost use Rattle.bz_world.specs.Inside.Beginning.{pages_asked as pages_of_call, world_view, MayBegin, IsPoweredRefusal, IsRefusal, HasBegun};
ghost use Rattle.bz_world.specs.Inside.Kept.{IsAwake, IsKept};
ghost use Rattle.bz_world.specs.WorldView.{begin_answer, after_begin};

use crate::answers::{Begun, LimitKind};
use crate::calls::key_of;
use crate::laws::{end_laws, start_laws};
use crate::parts::Parts;
use crate::room::asks_little;
use crate::serving::OpenCall;
use bz_any_task::AnyTask;
use bz_call::Call;
use bz_layout::ROOT_STATUS_AT;
use bz_mark::{Mark, Power};
use bz_solo::Rest;

// How many pages a call asks for.
fn pages_asked(call: &Call) -> u32
    ensures { result ≡ pages_of_call call.now }
{
    match call {
        Call::Page(_) => 1,
        Call::Insert(_, _)
        | Call::Delete(_)
        | Call::Update(_, _)
        | Call::Upsert(_, _)
        | Call::Get(_) => 0,
    }
}

// The refusal of a begin with the power on, if one applies.
fn powered_refusal(parts: &Parts, w: u8, call: &Call) -> Option<Begun>
    requires kept { IsAwake parts.now }
    requires within { w ≤ parts.now.config.workers }
    ensures { IsPoweredRefusal parts.now w call.now result }
{
    if parts.workers[w as usize].is_some() {
        return Some(Begun::Busy);
    }
    if parts.begun >= parts.config.calls {
        return Some(Begun::Limit(LimitKind::Calls));
    }
    if parts.pages_begun + pages_asked(call) > parts.config.pages {
        return Some(Begun::Limit(LimitKind::Pages));
    }
    None
}

// The refusal of a begin, if one applies.
fn refusal(parts: &Parts, w: u8, call: &Call) -> Option<Begun>
    requires { IsKept parts.now }
    ensures { IsRefusal parts.now w call.now result }
{
    if w == 0 || u32::from(w) > parts.config.workers {
        return Some(Begun::NoWorker);
    }
    if parts.journal.room() < 3 {
        return Some(Begun::Limit(LimitKind::Marks));
    }
    match parts.power {
        Power::Off => Some(Begun::Off),
        Power::Recovering => Some(Begun::Recovering),
        Power::On => powered_refusal(parts, w, call),
    }
}

// Begins a call that is not refused, with the lookup of its key.
fn open_call(parts: &mut Parts, w: u8, call: Call) -> u32
    requires kept { IsAwake parts.old }
    requires may { MayBegin parts.old w call }
    ensures { HasBegun parts.old w call result parts.new }
{
    end_laws();
    start_laws();
    asks_little(&call);
    let n = parts.numbers[w as usize] + 1;
    let task = AnyTask::seek(&parts.config, key_of(&call));
    task.laws();
    task.looks();
    parts.numbers[w as usize] = n;
    parts.taken_then = parts.access.taken();
    parts.left_then = parts.slots.left();
    parts.begun += 1;
    parts.pages_begun += pages_asked(&call);
    parts.workers[w as usize] = Some(OpenCall {
        call,
        task,
        path: None,
        had: None,
        effect: None,
        alone: false,
        froze: false,
        rest: Rest::Leaf,
    });
    parts.journal.push(Mark::Begin { w, n, call });
    parts.access.start_read(w, ROOT_STATUS_AT);
    n
}

/// Begins a call of a worker.
pub(crate) fn begin(parts: &mut Parts, w: u8, call: Call) -> Begun
    requires { IsKept parts.old }
    ensures kept { IsKept parts.new }
    ensures answer { result ≡ begin_answer (world_view parts.old) w call }
    ensures after { world_view parts.new ≡ after_begin (world_view parts.old) w call result }
{
    match refusal(parts, w, &call) {
        Some(refusal) => refusal,
        None => Begun::Begun(open_call(parts, w, call)),
    }
}
