//! One memory act of a worker, its mark, and its effect.
ghost use Rattle.std.specs.Prelude.{◌≡◌, ◌≢◌, ◌<◌, ◌+◌, ◌^◌, length, None, Some};
ghost use Rattle.bz_task.specs.declared.todo.Seen.{Seen};
ghost use Rattle.bz_task.specs.declared.todo.Seen.TheVariants.{NoSwap, Start};
ghost use Rattle.bz_swap.specs.Held.{Holds};
ghost use Rattle.bz_swap.specs.SwapMemory.{Idle, doing_of};
ghost use Rattle.bz_swap.specs.declared.phase.Phase.TheVariants.{Recovering};
ghost use Rattle.bz_sound.specs.Calls.{open_call};
ghost use Rattle.bz_world.specs.Inside.Acted.{IsActed, MustTell, HasActed, seen_by};
ghost use Rattle.bz_world.specs.Inside.Kept.{IsAwake};

use crate::laws::step_laws;
use crate::mark_effect::mark_effect;
use crate::parts::Parts;
use bz_swap::{Done, Progress};
use bz_swap_marks::mark_of;
use bz_task::Seen;

// Makes the next act of a worker.
fn make_act(parts: &mut Parts, w: u8) -> Progress
    requires worker { w < length parts.old.access.workers }
    requires busy { doing_of parts.old.access w ≢ Idle }
    requires phase { parts.old.access.phase ≢ Recovering }
    requires steps { parts.old.access.steps < 2 ^ 36 }
    requires room { length parts.old.journal.past < parts.old.journal.limits.marks }
    ensures { IsActed parts.old w result.act result.done result.effect parts.new }
{
    let progress = parts.access.step(w);
    parts.journal.push(mark_of(w, progress.act));
    progress
}

// What the task of its call is to be told of it, if it ended what the task asked for.
fn seen_of(done: Done) -> Option<Seen>
    ensures { result ≡ seen_by done }
{
    match done {
        Done::Busy => None,
        Done::Read(value) => Some(Seen::Read(value)),
        Done::Swapped(won) => Some(Seen::Swapped(won)),
        Done::Stored => Some(Seen::Stored),
        Done::Flushed => Some(Seen::Flushed),
    }
}

/// Makes the next act of a worker's open call, and notes its effect. Answers what the call's task is to be told, if the act ended what
/// it asked for.
pub(crate) fn act(parts: &mut Parts, w: u8) -> Option<Seen>
    requires kept { IsAwake parts.old }
    requires open { open_call w parts.old.journal.past ≢ None }
    requires room { length parts.old.journal.past + 1 < parts.old.config.marks }
    ensures on { result ≡ None → IsAwake parts.new }
    ensures told { (seen : Seen) → result ≡ Some seen → MustTell parts.new w seen }
    // a descriptor was there
    ensures swaps { result ≢ Some NoSwap }
    // a task is not told to begin by an act
    ensures begun { result ≢ Some Start }
    ensures made { HasActed parts.old w parts.new }
    // it takes no descriptor
    ensures taken { parts.new.access.taken ≡ parts.old.access.taken }
{
    step_laws();
    let progress = make_act(parts, w);
    if let Some(swap) = progress.effect {
        mark_effect(parts, swap);
        return None;
    }
    seen_of(progress.done)
}
