//! How many items the list has.
ghost use Rattle.std.specs.Prelude.{◌≡◌, ◌<◌, ◌≤◌, ◌+◌, ℕ, List, length, Some};
ghost use Rattle.bz_ring.specs.Calls.{items_after};
ghost use Rattle.bz_ring.specs.Journal.{at_moment, mark_at};
ghost use Rattle.bz_ring.specs.Lists.{apply};
ghost use Rattle.bz_ring.specs.declared.calls.QCall.{QCall as Asked};
ghost use Rattle.bz_ring.specs.declared.marks.QMark.TheVariants.{Begin};
ghost use Rattle.bz_qtext.specs.Reading.{IsReadTo};
ghost use Rattle.bz_qtext.specs.Report.{ended_calls, items_at_on};

use bz_mark::Mark;
use bz_queue::{QCall, QMark, QueueWorld};

// How many items a list has after a call, of so many.
fn count_after(capacity: u32, count: u32, call: QCall) -> u32
    requires { count ≤ capacity }
    ensures few { result ≤ capacity }
    ensures count { (items : List ℕ) → length items ≡ count → length (apply capacity items call).items ≡ result }
{
    match call {
        QCall::Put(_) => { if count < capacity { count + 1 } else { count } }
        QCall::Take => { if count > 0 { count - 1 } else { 0 } }
    }
}

// After the effect of the call that began at a moment.
fn count_effect(queue: &QueueWorld, capacity: u32, begun: u32, count: u32) -> u32
    requires begun { begun < length queue.now.log.past }
    requires few { count ≤ capacity }
    ensures few { result ≤ capacity }
    ensures count { (w n : ℕ) (call : Asked) (items : List ℕ) → mark_at begun queue.now.log.past ≡ Some (Begin w n call) → length items ≡ count → length (apply capacity items call).items ≡ result }
{
    match queue.mark(begun) {
        QMark::Begin { w: _, n: _, call } => count_after(capacity, count, call),
        _ => count,
    }
}

/// Looks at one mark: where it is an effect, counts the items after it.
pub(crate) fn follow_effect(
    queue: &QueueWorld,
    moment: u32,
    mark: &QMark,
    begins: &[Option<u32>; 256],
    capacity: u32,
    count: u32,
) -> u32
    requires within { moment < length queue.now.log.past }
    requires seen { mark_at moment queue.now.log.past ≡ Some mark.now }
    requires table { IsReadTo queue.now.log.past moment begins.now (ended_calls (at_moment moment queue.now.log.past)) }
    requires few { count ≤ capacity }
    ensures few { result ≤ capacity }
    ensures count { (first : List ℕ) → length (items_after capacity first (at_moment moment queue.now.log.past)) ≡ count → length (items_after capacity first (at_moment (moment + 1) queue.now.log.past)) ≡ result }
{
    match *mark {
        QMark::Effect { w, n: _ } => match begins[w as usize] {
            Some(begun) => count_effect(queue, capacity, begun, count),
            None => count,
        },
        _ => count,
    }
}

/// Looks at one mark: keeps how many items there were when the power came on, if it did since the last cut.
pub(crate) fn tell_power(
    queue: &QueueWorld,
    moment: u32,
    mark: &QMark,
    count: u32,
    on: &mut Option<u32>,
)
    requires within { moment < length queue.now.log.past }
    requires seen { mark_at moment queue.now.log.past ≡ Some mark.now }
    ensures { (capacity : ℕ) (first : List ℕ) → length (items_after capacity first (at_moment moment queue.now.log.past)) ≡ count
        → on.old ≡ items_at_on capacity first (at_moment moment queue.now.log.past) → on.new ≡ items_at_on capacity first (at_moment (moment + 1) queue.now.log.past) }
{
    match *mark {
        QMark::Memory(memory) => match memory {
            Mark::On => {
                *on = Some(count);
            }
            Mark::Cut => {
                *on = None;
            }
            _ => {}
        },
        _ => {}
    }
}
