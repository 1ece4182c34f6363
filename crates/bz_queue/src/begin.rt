//! Begins of calls.
ghost use Rattle.std.specs.Prelude.{◌≡◌, ◌<◌, ◌≤◌};
ghost use Rattle.bz_queue.specs.Inside.Begun.{IsPoweredRefusal, IsRefusal, MayBegin, HasBegun};
ghost use Rattle.bz_queue.specs.Inside.Kept.{IsAwake, IsKept, view_of};
ghost use Rattle.bz_queue.specs.QueueView.{IsCall, begin_answer, after_begin};

use crate::answers::{QBegun, QLimit};
use crate::parts::Parts;
use crate::serving::{OpenCall, Place};
use bz_change::counter_at;
use bz_mark::Power;
use bz_ring::{QCall, QMark};

// The refusal of a begin with the power on, if one applies.
fn powered_refusal(parts: &Parts, w: u8) -> Option<QBegun>
    requires kept { IsAwake parts.now }
    requires some { 0 < w }
    requires within { w ≤ parts.now.numbers.workers }
    ensures { IsPoweredRefusal parts.now w result }
{
    if parts.workers[w as usize].is_some() {
        return Some(QBegun::Busy);
    }
    if parts.begun >= parts.numbers.calls {
        return Some(QBegun::Limit(QLimit::Calls));
    }
    None
}

// The refusal of a begin, if one applies.
fn refusal(parts: &Parts, w: u8) -> Option<QBegun>
    requires { IsKept parts.now }
    ensures { IsRefusal parts.now w result }
{
    if w == 0 || u32::from(w) > parts.numbers.workers {
        return Some(QBegun::NoWorker);
    }
    if parts.journal.room() < 3 {
        return Some(QBegun::Limit(QLimit::Marks));
    }
    match parts.power {
        Power::Off => Some(QBegun::Off),
        Power::Recovering => Some(QBegun::Recovering),
        Power::On => powered_refusal(parts, w),
    }
}

// Begins a call that is not refused, with a read of its counter.
fn open_call(parts: &mut Parts, w: u8, call: QCall) -> u32
    requires kept { IsAwake parts.old }
    requires may { MayBegin parts.old w call }
    ensures { HasBegun parts.old w call result parts.new }
{
    let n = parts.last[w as usize] + 1;
    parts.last[w as usize] = n;
    parts.begun += 1;
    parts.workers[w as usize] = Some(OpenCall {
        call,
        place: Place::Counter,
        effect: None,
    });
    parts.journal.push(QMark::Begin { w, n, call });
    parts.access.start_read(w, counter_at(call));
    n
}

/// Begins a call of a worker.
pub(crate) fn begin(parts: &mut Parts, w: u8, call: QCall) -> QBegun
    requires kept { IsKept parts.old }
    requires call { IsCall call }
    ensures kept { IsKept parts.new }
    ensures answer { result ≡ begin_answer (view_of parts.old) w }
    ensures after { view_of parts.new ≡ after_begin (view_of parts.old) w call (view_of parts.new).left result }
{
    match refusal(parts, w) {
        Some(refusal) => refusal,
        None => QBegun::Begun(open_call(parts, w, call)),
    }
}
