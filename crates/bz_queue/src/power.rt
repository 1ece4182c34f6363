//! Power cuts, and power on.
ghost use Rattle.std.specs.Prelude.{◌≡◌, ◌≤◌, ◌<◌, ◌+◌, ℕ, IsTrue, ◌↔◌, None, get_or, length};
ghost use Rattle.bz_mark.specs.declared.power.Power.TheVariants as power;
ghost use Rattle.bz_queue.specs.Inside.Kept.{IsKept, IsOff, IsStarted, view_of};
ghost use Rattle.bz_queue.specs.Inside.Powering.{IsCut};
ghost use Rattle.bz_queue.specs.QueueView.{IsApplied, after_on};
ghost use Rattle.bz_queue.specs.declared.answers.QEvent.TheVariants as event;

use crate::answers::QApplied;
use crate::parts::Parts;
use crate::recovery::{area_of, start_act};
use crate::serving::OpenCall;
use bz_mark::{Mark, Power};
use bz_ring::QMark;
use bz_sweep::{Answer, Sweep};

// Whether the power is off.
fn is_off(state: Power) -> bool
    ensures { IsTrue result ↔ (state ≡ power.Off) }
{
    match state {
        Power::Off => true,
        Power::Recovering | Power::On => false,
    }
}

// Drops the calls of all workers.
fn drop_calls(workers: &mut Vec<Option<OpenCall>>)
    ensures size { length workers.new.items ≡ length workers.old.items }
    ensures none { (w : ℕ) → get_or workers.new.items w None ≡ None }
{
    let mut w = 0;
    while w < workers.len() {
        workers[w] = None;
        w += 1;
    }
}

// Leaves what is durable, and ends every call.
fn make_cut(parts: &mut Parts)
    requires room { length parts.old.journal.past < parts.old.journal.most }
    ensures { IsCut parts.old parts.new }
{
    drop_calls(&mut parts.workers);
    parts.access.cut();
    parts.journal.push(QMark::Memory(Mark::Cut));
    parts.power = Power::Off;
}

/// Cuts the power.
pub(crate) fn cut(parts: &mut Parts) -> QApplied
    requires { IsKept parts.old }
    ensures kept { IsKept parts.new }
    ensures applied { IsApplied (view_of parts.old) event.Cut result (view_of parts.new) }
{
    if parts.journal.room() < 3 {
        return QApplied::Limit;
    }
    if is_off(parts.power) {
        return QApplied::Off;
    }
    make_cut(parts);
    QApplied::Cut
}

// Begins the recovery.
fn turn_on(parts: &mut Parts)
    requires off { IsOff parts.old }
    requires power { parts.old.power ≡ power.Off }
    requires room { length parts.old.journal.past + 3 ≤ parts.old.journal.most }
    ensures started { IsStarted parts.new }
    ensures power { parts.new.power ≡ power.Recovering }
    ensures after { view_of parts.new ≡ after_on (view_of parts.old) }
{
    parts.sweep = Sweep::new(&area_of(&parts.numbers.ring));
    parts.journal.push(QMark::Memory(Mark::On));
    parts.power = Power::Recovering;
    let ask = parts.sweep.next(Answer::Start);
    start_act(parts, ask);
}

/// Brings the power on: worker 0 begins to recover the memory.
pub(crate) fn power_on(parts: &mut Parts) -> QApplied
    requires { IsKept parts.old }
    ensures kept { IsKept parts.new }
    ensures applied { IsApplied (view_of parts.old) event.On result (view_of parts.new) }
{
    if parts.journal.room() < 3 {
        return QApplied::Limit;
    }
    if is_off(parts.power) {
        turn_on(parts);
        return QApplied::On;
    }
    QApplied::Powered
}
