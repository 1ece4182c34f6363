//! Acts of a read, and of private words.

ghost use Rattle.std.specs.Prelude.{◌≡◌, ◌*◌, ◌<◌, ◌^◌, ℕ, length};
ghost use Rattle.bz_swap_machine.specs.Machine.{Memory};
ghost use Rattle.bz_swap_machine.specs.Steps.{answers, read_act};
ghost use Rattle.bz_swap_machine.specs.Workers.{local_of};
ghost use Rattle.bz_swap_machine.specs.declared.place.Place.TheVariants.{ReadWord, AskRead, FenceRead, ClearRead, StoreWord, AskLine, FenceLine};
ghost use Rattle.bz_swap_cells.specs.Store.{IsStore, MayAsk};
ghost use Rattle.bz_swap_acts.specs.Parts.{IsStep};
ghost use Rattle.bz_swap_acts.specs.Ready.{LiesOutside};

use crate::acted::Acted;
use crate::values::clear_value;
use crate::words::{ask_word, fence, load_word, store_value};
use bz_layout::LINE_WORDS;
use bz_swap_cells::Cells;
use bz_swap_machine::{Done, Operation, Place, Worker};
use bz_word::WordKind;

// The operation is over.
fn answer(worker: &mut Worker, done: Done) -> Done
    ensures local { (m : Memory) → local_of worker.new ≡ (answers m (local_of worker.old) done).local }
    ensures done { result ≡ done }
{
    worker.operation = Operation::Nothing;
    worker.place = Place::Idle;
    done
}

// What follows the load of the word that is read.
fn after_read(worker: &mut Worker, address: u32, found: WordKind) -> Done
    ensures local { (m : Memory) → local_of worker.new ≡ (read_act m (local_of worker.old) address found).local }
    ensures done { (m : Memory) → result ≡ (read_act m (local_of worker.old) address found).done }
{
    match found {
        WordKind::Value(value) => answer(worker, Done::Read(value)),
        WordKind::Dirty(value) => {
            worker.place = Place::AskRead { address, value };
            Done::Busy
        }
        WordKind::Swap(swap) | WordKind::Tag { swap, .. } => {
            worker.help(swap, None);
            Done::Busy
        }
    }
}

/// Loads the word that is read.
pub(crate) fn read_word(cells: &Cells, worker: &mut Worker, a: u32) -> Acted
    requires typed { IsStore cells.now }
    requires lies { LiesOutside cells.now a }
    ensures { (w : ℕ) → IsStep cells.now worker.old w (ReadWord a) result cells.now worker.new }
{
    let found = load_word(cells, a);
    Acted {
        act: found.act,
        done: after_read(worker, a, found.kind),
    }
}

/// Asks for the line of the word that is read.
pub(crate) fn ask_read(
    cells: &mut Cells,
    worker: &mut Worker,
    w: u8,
    address: u32,
    value: u64,
) -> Acted
    requires typed { IsStore cells.old }
    requires asker { MayAsk cells.old w }
    requires lies { LiesOutside cells.old address }
    ensures { IsStep cells.old worker.old w (AskRead address value) result cells.new worker.new }
{
    worker.place = Place::FenceRead { address, value };
    Acted {
        act: ask_word(cells, w, address),
        done: Done::Busy,
    }
}

/// Makes the fence after it.
pub(crate) fn fence_read(
    cells: &mut Cells,
    worker: &mut Worker,
    w: u8,
    address: u32,
    value: u64,
) -> Acted
    requires typed { IsStore cells.old }
    requires number { w < length cells.old.next_tags }
    ensures { IsStep cells.old worker.old w (FenceRead address value) result cells.new worker.new }
{
    worker.place = Place::ClearRead { address, value };
    Acted {
        act: fence(cells, w),
        done: Done::Busy,
    }
}

/// Clears the dirty bit of the word that is read.
pub(crate) fn clear_read(cells: &mut Cells, worker: &mut Worker, address: u32, value: u64) -> Acted
    requires typed { IsStore cells.old }
    requires lies { LiesOutside cells.old address }
    requires value { value < 2 ^ 61 }
    ensures { (w : ℕ) → IsStep cells.old worker.old w (ClearRead address value) result cells.new worker.new }
{
    worker.place = Place::ReadWord(address);
    Acted {
        act: clear_value(cells, address, value),
        done: Done::Busy,
    }
}

/// Stores a private word.
pub(crate) fn store_word(cells: &mut Cells, worker: &mut Worker, address: u32, value: u64) -> Acted
    requires typed { IsStore cells.old }
    requires lies { LiesOutside cells.old address }
    requires value { value < 2 ^ 61 }
    ensures { (w : ℕ) → IsStep cells.old worker.old w (StoreWord address value) result cells.new worker.new }
{
    Acted {
        act: store_value(cells, address, value),
        done: answer(worker, Done::Stored),
    }
}

/// Asks for a line of private words.
pub(crate) fn ask_line(cells: &mut Cells, worker: &mut Worker, w: u8, line: u32) -> Acted
    requires typed { IsStore cells.old }
    requires asker { MayAsk cells.old w }
    requires lies { LiesOutside cells.old (line * 8) }
    ensures { IsStep cells.old worker.old w (AskLine line) result cells.new worker.new }
{
    worker.place = Place::FenceLine(line);
    Acted {
        act: ask_word(cells, w, line * LINE_WORDS),
        done: Done::Busy,
    }
}

/// Makes the fence after it.
pub(crate) fn fence_line(cells: &mut Cells, worker: &mut Worker, w: u8, line: u32) -> Acted
    requires typed { IsStore cells.old }
    requires number { w < length cells.old.next_tags }
    ensures { IsStep cells.old worker.old w (FenceLine line) result cells.new worker.new }
{
    Acted {
        act: fence(cells, w),
        done: answer(worker, Done::Flushed),
    }
}
