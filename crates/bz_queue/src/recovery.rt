//! The recovery: a sweep by worker 0, with evictions between its acts.
ghost use Rattle.std.specs.Prelude.{◌≡◌, ◌≢◌, ◌≤◌, ◌<◌, ◌+◌, ℕ, Some, MatchOption, length};
ghost use Rattle.bz_mark.specs.declared.power.Power.TheVariants as power;
ghost use Rattle.bz_ring.specs.Content.{size_of};
ghost use Rattle.bz_ring.specs.Fresh.{IsRing};
ghost use Rattle.bz_swap.specs.Starts.{started};
ghost use Rattle.bz_swap.specs.SwapMemory.{Loading, worker_of};
ghost use Rattle.bz_swap_recovery.specs.Laws.{answer_of as answer_in};
ghost use Rattle.bz_swap_recovery.specs.Recovering.{Asked};
ghost use Rattle.bz_sweep.specs.Areas.{IsArea};
ghost use Rattle.bz_sweep.specs.Duties.{asks_of};
ghost use Rattle.bz_sweep.specs.declared.ask.Ask.TheVariants.{Load, Finish};
ghost use Rattle.bz_queue.specs.Inside.Kept.{IsKept, IsStarted, IsSwept, view_of};
ghost use Rattle.bz_queue.specs.Inside.Kept.{area_of as area_in_queue};
ghost use Rattle.bz_queue.specs.Inside.Powering.{IsRawAct, HasAsked, HasGoneOn, MustWake, Wakes};
ghost use Rattle.bz_queue.specs.QueueView.{step_by, StepsBy, Evicts, Recovers};

use crate::act::make_eviction;
use crate::answers::QApplied;
use crate::parts::Parts;
use bz_layout::LINE_WORDS;
use bz_mark::{Mark, Power};
use bz_ring::{QMark, Ring};
use bz_swap::{Done, Progress};
use bz_swap_marks::mark_of;
use bz_sweep::{Answer, Area, Ask};

/// What a sweep goes over: the cells and the zeros behind them stand after the descriptors.
pub(crate) fn area_of(ring: &Ring) -> Area
    requires { IsRing ring.now }
    ensures area { result ≡ area_in_queue ring.now }
    ensures is { IsArea result }
{
    let lines = (ring.capacity + (LINE_WORDS - 1)) / LINE_WORDS;
    Area {
        swaps: ring.swaps,
        words: lines * LINE_WORDS,
    }
}

/// Starts what the sweep asks for, which is not the end.
pub(crate) fn start_act(parts: &mut Parts, ask: Ask)
    requires asked { IsSwept parts.old Asked }
    requires asks { asks_of parts.old.sweep ≡ Some ask }
    requires more { ask ≢ Finish }
    ensures started { IsStarted parts.new }
    ensures rest { parts.new ≡ record parts.old { access = parts.new.access } }
    ensures first { ask ≡ Load 0 → parts.new.access ≡ started parts.old.access 0 (Loading 0) }
    ensures others { (v : ℕ) → v ≢ 0 → worker_of parts.new.access v ≡ worker_of parts.old.access v }
{
    match ask {
        Ask::Load(a) => parts.access.start_load(0, a),
        Ask::Store(a, v) => parts.access.start_store(0, a, v),
        Ask::Flush(line) => parts.access.start_flush(0, line),
        Ask::Finish => unreachable!(),
    }
}

// Makes the next act of worker 0.
fn make_raw_act(parts: &mut Parts) -> Progress
    requires started { IsStarted parts.old }
    requires room { length parts.old.journal.past + 3 ≤ parts.old.journal.most }
    ensures { IsRawAct parts.old result.act result.done result.effect parts.new }
{
    let progress = parts.access.step(0);
    parts.journal.push(QMark::Memory(mark_of(0, progress.act)));
    progress
}

// What the sweep is told of its act.
fn answer_of(done: Done) -> Answer
    ensures { result ≡ answer_in done }
{
    match done {
        Done::Read(v) => Answer::Read(v),
        Done::Stored => Answer::Stored,
        Done::Flushed => Answer::Flushed,
        _ => Answer::Start,
    }
}

// The sweep has ended: the memory is given back to the workers.
fn wake(parts: &mut Parts)
    requires wakes { MustWake parts.old }
    requires room { length parts.old.journal.past < parts.old.journal.most }
    ensures { Wakes parts.old parts.new }
{
    parts.access.renew();
    parts.journal.push(QMark::Memory(Mark::Ready));
    parts.power = Power::On;
}

// Makes the next act of worker 0, and tells the sweep. Answers what it asks for then; none where a flush goes on, whose line was
// asked for.
fn ask_next(parts: &mut Parts) -> Option<Ask>
    requires started { IsStarted parts.old }
    requires power { parts.old.power ≡ power.Recovering }
    requires room { length parts.old.journal.past + 3 ≤ parts.old.journal.most }
    ensures { MatchOption result (HasGoneOn parts.old parts.new) (λ ask. HasAsked parts.old ask parts.new) }
{
    let progress = make_raw_act(parts);
    match progress.done {
        Done::Busy => None,
        _ => Some(parts.sweep.next(answer_of(progress.done))),
    }
}

// Goes on with the recovery by one act.
fn recover(parts: &mut Parts) -> QApplied
    requires started { IsStarted parts.old }
    requires power { parts.old.power ≡ power.Recovering }
    requires room { length parts.old.journal.past + 3 ≤ parts.old.journal.most }
    ensures kept { IsKept parts.new }
    ensures recovers { Recovers (view_of parts.old) result (view_of parts.new) }
{
    let Some(ask) = ask_next(parts) else {
        return QApplied::Stepped;
    };
    match ask {
        Ask::Finish => {
            wake(parts);
            QApplied::Ready
        }
        ask => {
            start_act(parts, ask);
            QApplied::Stepped
        }
    }
}

/// Goes on with the recovery where the step is one of worker 0.
pub(crate) fn step_recovering(parts: &mut Parts, w: u8) -> QApplied
    requires started { IsStarted parts.old }
    requires power { parts.old.power ≡ power.Recovering }
    requires room { length parts.old.journal.past + 3 ≤ parts.old.journal.most }
    ensures kept { IsKept parts.new }
    ensures applied { MatchOption (step_by power.Recovering (view_of parts.old) w) (StepsBy power.Recovering (view_of parts.old) w result (view_of parts.new)) (λ refusal. (result ≡ refusal) × (view_of parts.new ≡ view_of parts.old)) }
{
    if w > 0 {
        return QApplied::Recovering;
    }
    recover(parts)
}

/// Makes a word durable.
pub(crate) fn evict_recovering(parts: &mut Parts, a: u32)
    requires started { IsStarted parts.old }
    requires power { parts.old.power ≡ power.Recovering }
    requires within { a < size_of parts.old.numbers.ring }
    requires room { length parts.old.journal.past + 3 ≤ parts.old.journal.most }
    ensures kept { IsKept parts.new }
    ensures evicts { Evicts (view_of parts.old) a QApplied.Evicted (view_of parts.new) }
{
    let _ = make_eviction(parts, a);
}
