//! Telling a worker's task what came of what it asked for.
ghost use Rattle.std.specs.Prelude.{◌≡◌, ◌≢◌, ◌<◌, None, get_or, length};
ghost use Rattle.bz_task.specs.declared.todo.Seen.TheVariants.{NoSwap, Start};
ghost use Rattle.bz_world.specs.Inside.Acted.{MustTell};
ghost use Rattle.bz_world.specs.Inside.Going.{IsFullRightly, HasNotLackedSwaps, HasNotLackedRoom};
ghost use Rattle.bz_world.specs.Inside.Telling.{CanHear, HasToldIn, MustStart, MustTellOf, MustStartOf};

use crate::laws::{solitary_laws, undisturbed_laws};
use crate::parts::Parts;
use crate::serving::OpenCall;
use bz_layout::Slots;
use bz_task::{Seen, Todo};

// Tells the task of a call, if one is served.
fn hear_task(slot: &mut Option<OpenCall>, seen: Seen, slots: &mut Slots, moment: u32) -> Todo
    requires { CanHear slot.old seen moment slots.old }
    ensures { HasToldIn slot.old seen moment slots.old result slot.new slots.new }
{
    match slot {
        None => Todo::Finish,
        Some(serving) => {
            let todo = serving.task.hear(seen, slots, moment);
            serving.task.laws();
            serving.task.looks();
            todo
        }
    }
}

/// Tells a worker's task what came of what it asked for. Answers what it asks for next.
pub(crate) fn tell(parts: &mut Parts, w: u8, seen: Seen) -> Todo
    requires { MustTell parts.old w seen }
    ensures asks { MustStart parts.new w result }
    ensures told { HasToldIn (get_or parts.old.workers.items w None) seen (length parts.old.journal.past) parts.old.slots result (get_or parts.new.workers.items w None) parts.new.slots }
    // it has ended for want of slots only where fewer are left than it takes
    ensures full { IsFullRightly parts.new w }
    // and for want of a descriptor only where it is told so
    ensures swaps { seen ≢ NoSwap → HasNotLackedSwaps parts.new w }
    // and a change for want of room only as it begins
    ensures crowded { seen ≢ Start → HasNotLackedRoom parts.new w }
    // the way to the leaf of its call is known as before
    ensures knows { MustTellOf parts.old w seen → MustStartOf parts.new w result }
    ensures rest { parts.new ≡ record parts.old { slots = parts.new.slots; workers = parts.new.workers } }
{
    solitary_laws();
    undisturbed_laws();
    let moment = parts.journal.length();
    hear_task(
        &mut parts.workers[w as usize],
        seen,
        &mut parts.slots,
        moment,
    )
}
