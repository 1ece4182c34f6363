//! Starts of what tasks ask for. A start makes no act.
ghost use Rattle.std.specs.Prelude.{◌≡◌, ◌≢◌, ◌⊎◌, ◌+◌, ℕ, true, false};
ghost use Rattle.bz_swap.specs.SwapMemory.{worker_of};
ghost use Rattle.bz_task.specs.declared.todo.Todo.TheVariants.{Swap, Finish};
ghost use Rattle.bz_world.specs.Inside.Kept.{IsAwake};
ghost use Rattle.bz_world.specs.Inside.Telling.{MustStart, LacksDescriptor};

use crate::laws::start_laws;
use crate::parts::Parts;
use bz_swap::{EntryList, NoSwap};
use bz_task::Todo;

// Starts a swap. Answers whether there was a descriptor for it.
fn start_swap(parts: &mut Parts, w: u8, entries: EntryList) -> bool
    requires asks { MustStart parts.old w (Swap entries) }
    ensures started { result ≡ true → IsAwake parts.new }
    ensures lacks { result ≡ false → LacksDescriptor parts.old (Swap entries) }
    ensures same { result ≡ false → parts.new ≡ parts.old }
    ensures rest { parts.new ≡ record parts.old { access = parts.new.access; owners = parts.new.owners } }
    ensures taken { (parts.new.access.taken ≡ parts.old.access.taken) ⊎ (parts.new.access.taken ≡ parts.old.access.taken + 1) }
    ensures others { (v : ℕ) → v ≢ w → worker_of parts.new.access v ≡ worker_of parts.old.access v }
{
    start_laws();
    let _count = entries.count();
    match parts.access.start_swap(w, entries) {
        Ok(swap) => {
            parts.owners[swap as usize] = w;
            true
        }
        Err(NoSwap) => false,
    }
}

/// Starts what a worker's task asks for, which is no end. Answers whether there was a descriptor for it.
pub(crate) fn start(parts: &mut Parts, w: u8, todo: Todo) -> bool
    requires asks { MustStart parts.old w todo }
    requires more { todo ≢ Finish }
    ensures started { result ≡ true → IsAwake parts.new }
    ensures lacks { result ≡ false → LacksDescriptor parts.old todo }
    ensures same { result ≡ false → parts.new ≡ parts.old }
    ensures rest { parts.new ≡ record parts.old { access = parts.new.access; owners = parts.new.owners } }
    ensures taken { (parts.new.access.taken ≡ parts.old.access.taken) ⊎ (parts.new.access.taken ≡ parts.old.access.taken + 1) }
    ensures others { (v : ℕ) → v ≢ w → worker_of parts.new.access v ≡ worker_of parts.old.access v }
{
    start_laws();
    match todo {
        Todo::Read(a) => {
            parts.access.start_read(w, a);
            true
        }
        Todo::Store(a, v) => {
            parts.access.start_store(w, a, v);
            true
        }
        Todo::Flush(line) => {
            parts.access.start_flush(w, line);
            true
        }
        Todo::Swap(entries) => start_swap(parts, w, entries),
        Todo::Load(_) | Todo::Finish => true,
    }
}
