//! Steps of workers, and evictions.
ghost use Rattle.std.specs.Prelude.{◌≡◌, ◌≢◌, ◌≤◌, ◌+◌, length, None, MatchOption};
ghost use Rattle.bz_ring.specs.Calls.{open_call};
ghost use Rattle.bz_queue.specs.Inside.Kept.{IsAwake, IsKept, view_of};
ghost use Rattle.bz_queue.specs.QueueView.{IsApplied, Steps, idle_refusal};
ghost use Rattle.bz_queue.specs.declared.answers.QEvent.TheVariants as event;

use crate::act::{act, evict_word};
use crate::answers::QApplied;
use crate::going::go_on;
use crate::parts::Parts;
use crate::recovery::{evict_recovering, step_recovering};
use bz_mark::Power;
use bz_swap::Done;

// Makes the next act of a worker's open call, and goes on with it.
fn step_open(parts: &mut Parts, w: u8) -> QApplied
    requires kept { IsAwake parts.old }
    requires open { open_call w parts.old.journal.past ≢ None }
    requires room { length parts.old.journal.past + 3 ≤ parts.old.journal.most }
    ensures kept { IsAwake parts.new }
    ensures steps { Steps (view_of parts.old) w result (view_of parts.new) }
{
    let done = act(parts, w);
    match done {
        Done::Busy => QApplied::Stepped,
        done => go_on(parts, w, done),
    }
}

// Goes on with the open call of a worker, if it has one, with the power on.
fn step_powered(parts: &mut Parts, w: u8) -> QApplied
    requires kept { IsAwake parts.old }
    requires within { w ≤ parts.old.numbers.workers }
    requires room { length parts.old.journal.past + 3 ≤ parts.old.journal.most }
    ensures kept { IsAwake parts.new }
    ensures applied { MatchOption (idle_refusal (view_of parts.old) w) (Steps (view_of parts.old) w result (view_of parts.new)) (λ refusal. (result ≡ refusal) × (view_of parts.new ≡ view_of parts.old)) }
{
    if parts.workers[w as usize].is_none() {
        return QApplied::Idle;
    }
    step_open(parts, w)
}

/// Goes on with the open call of a worker by one act, or with the recovery.
pub(crate) fn step(parts: &mut Parts, w: u8) -> QApplied
    requires { IsKept parts.old }
    ensures kept { IsKept parts.new }
    ensures applied { IsApplied (view_of parts.old) (event.Step w) result (view_of parts.new) }
{
    if u32::from(w) > parts.numbers.workers {
        return QApplied::NoWorker;
    }
    if parts.journal.room() < 3 {
        return QApplied::Limit;
    }
    match parts.power {
        Power::Off => QApplied::Off,
        Power::Recovering => step_recovering(parts, w),
        Power::On => step_powered(parts, w),
    }
}

/// Makes a cached word durable.
pub(crate) fn evict(parts: &mut Parts, a: u32) -> QApplied
    requires { IsKept parts.old }
    ensures kept { IsKept parts.new }
    ensures applied { IsApplied (view_of parts.old) (event.Evict a) result (view_of parts.new) }
{
    if a >= parts.numbers.ring.words() {
        return QApplied::NoWord;
    }
    if parts.journal.room() < 3 {
        return QApplied::Limit;
    }
    match parts.power {
        Power::Off => QApplied::Off,
        Power::Recovering => {
            evict_recovering(parts, a);
            QApplied::Evicted
        }
        Power::On => {
            evict_word(parts, a);
            QApplied::Evicted
        }
    }
}
