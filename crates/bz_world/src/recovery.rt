//! The recovery: acts of worker 0, and evictions between them.
ghost use Rattle.std.specs.Prelude.{◌≡◌, ◌≢◌, ◌≤◌, ◌<◌, ◌+◌, ℕ, Some, MatchOption, length};
ghost use Rattle.bz_layout.specs.Addresses.{words_of};
ghost use Rattle.bz_recover.specs.Duties.{asks_of};
ghost use Rattle.bz_mark.specs.declared.power.Power.TheVariants as power;
ghost use Rattle.bz_refinement.specs.Recovering.{Asked};
ghost use Rattle.bz_refinement.specs.RecoveryLaws.{seen_of as seen_in};
ghost use Rattle.bz_swap.specs.Starts.{started};
ghost use Rattle.bz_swap.specs.SwapMemory.{Loading, worker_of};
ghost use Rattle.bz_task.specs.declared.todo.Todo.TheVariants.{Load, Finish};
ghost use Rattle.bz_world.specs.Inside.Beginning.{world_view};
ghost use Rattle.bz_world.specs.Inside.Kept.{IsAwake, IsRecovering, IsStarted, IsKept};
ghost use Rattle.bz_world.specs.Inside.Powering.{IsRawAct, HasAsked, HasGoneOn, MustWake, Wakes};
ghost use Rattle.bz_world.specs.WorldView.{step_by, StepsBy, Recovers, Evicts};

use crate::answers::Applied;
use crate::laws::begun_laws;
use crate::parts::Parts;
use crate::step::make_eviction;
use bz_mark::{Mark, Power};
use bz_swap::{Done, Progress};
use bz_swap_marks::mark_of;
use bz_task::{Seen, Todo};

/// Starts what the recovery asks for, which is not the end.
pub(crate) fn start_act(parts: &mut Parts, todo: Todo)
    requires asked { IsRecovering parts.old Asked }
    requires asks { asks_of parts.old.recovery ≡ Some todo }
    requires more { todo ≢ Finish }
    ensures started { IsStarted parts.new }
    ensures rest { parts.new ≡ record parts.old { access = parts.new.access } }
    ensures first { todo ≡ Load 0 → parts.new.access ≡ started parts.old.access 0 (Loading 0) }
    ensures others { (v : ℕ) → v ≢ 0 → worker_of parts.new.access v ≡ worker_of parts.old.access v }
{
    bz_recover::laws::recoveries_know();
    match todo {
        Todo::Load(a) => parts.access.start_load(0, a),
        Todo::Store(a, v) => parts.access.start_store(0, a, v),
        Todo::Flush(line) => parts.access.start_flush(0, line),
        Todo::Read(_) | Todo::Swap(_) | Todo::Finish => unreachable!(),
    }
}

// Makes the next act of worker 0.
fn make_raw_act(parts: &mut Parts) -> Progress
    requires started { IsStarted parts.old }
    requires room { length parts.old.journal.past + 3 ≤ parts.old.config.marks }
    ensures { IsRawAct parts.old result.act result.done result.effect parts.new }
{
    let progress = parts.access.step(0);
    parts.journal.push(mark_of(0, progress.act));
    progress
}

// What the recovery is told of its act.
fn seen_of(done: Done) -> Seen
    ensures { result ≡ seen_in done }
{
    match done {
        Done::Read(v) => Seen::Read(v),
        Done::Stored => Seen::Stored,
        Done::Flushed => Seen::Flushed,
        _ => Seen::Start,
    }
}

// The recovery has ended: the memory is given back to the workers.
fn wake(parts: &mut Parts)
    requires wakes { MustWake parts.old }
    requires room { length parts.old.journal.past < parts.old.config.marks }
    ensures { Wakes parts.old parts.new }
{
    begun_laws();
    // (free slots rise, and are slots of the memory)
    let _ = parts.slots.left();
    parts.access.renew();
    parts.journal.push(Mark::Ready);
    parts.power = Power::On;
}

// Makes the next act of worker 0, and tells the recovery. Answers what it asks for then; none where a flush goes on, whose line
// was asked for.
fn ask_next(parts: &mut Parts) -> Option<Todo>
    requires started { IsStarted parts.old }
    requires power { parts.old.power ≡ power.Recovering }
    requires room { length parts.old.journal.past + 3 ≤ parts.old.config.marks }
    ensures { MatchOption result (HasGoneOn parts.old parts.new) (λ todo. HasAsked parts.old todo parts.new) }
{
    let progress = make_raw_act(parts);
    match progress.done {
        Done::Busy => None,
        _ => Some(
            parts
                .recovery
                .next(seen_of(progress.done), &mut parts.slots),
        ),
    }
}

// Goes on with the recovery by one act.
fn recover(parts: &mut Parts) -> Applied
    requires started { IsStarted parts.old }
    requires power { parts.old.power ≡ power.Recovering }
    requires room { length parts.old.journal.past + 3 ≤ parts.old.config.marks }
    ensures kept { IsKept parts.new }
    ensures recovers { Recovers (world_view parts.old) result (world_view parts.new) }
{
    let Some(todo) = ask_next(parts) else {
        return Applied::Stepped;
    };
    match todo {
        Todo::Finish => {
            wake(parts);
            Applied::Ready
        }
        todo => {
            start_act(parts, todo);
            Applied::Stepped
        }
    }
}

/// Goes on with the recovery where the step is one of worker 0.
pub(crate) fn step_recovering(parts: &mut Parts, w: u8) -> Applied
    requires started { IsStarted parts.old }
    requires power { parts.old.power ≡ power.Recovering }
    requires room { length parts.old.journal.past + 3 ≤ parts.old.config.marks }
    ensures kept { IsKept parts.new }
    ensures applied { MatchOption (step_by power.Recovering (world_view parts.old) w) (StepsBy power.Recovering (world_view parts.old) w result (world_view parts.new)) (λ refusal. (result ≡ refusal) × (world_view parts.new ≡ world_view parts.old)) }
{
    if w > 0 {
        return Applied::Recovering;
    }
    recover(parts)
}

/// Makes a word durable.
pub(crate) fn evict_recovering(parts: &mut Parts, a: u32)
    requires started { IsStarted parts.old }
    requires power { parts.old.power ≡ power.Recovering }
    requires within { a < words_of parts.old.config }
    requires room { length parts.old.journal.past + 3 ≤ parts.old.config.marks }
    ensures kept { IsKept parts.new }
    ensures evicts { Evicts (world_view parts.old) a Applied.Evicted (world_view parts.new) }
{
    let _ = make_eviction(parts, a);
}
