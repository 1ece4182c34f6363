//! Acts on the descriptor of the own swap, and the loads of another's.

ghost use Rattle.std.specs.Prelude.{◌≡◌, if◌then◌else◌, ◌==◌, ◌+◌, ◌*◌, ◌<◌, ◌≤◌, ℕ, length};
ghost use Rattle.bz_swap_machine.specs.declared.place.Place.TheVariants.{Learn, Prepare as prepares};
ghost use Rattle.bz_swap_machine.specs.declared.place.PrepareStep.TheVariants.{WriteWord, WriteStatus, AskHead, AskTail, FenceDescriptor};
ghost use Rattle.bz_swap_cells.specs.Store.{IsStore, MayAsk};
ghost use Rattle.bz_swap_acts.specs.Parts.{IsStep};
ghost use Rattle.bz_swap_acts.specs.Ready.{IsPrepareReady, MayLearn};

use crate::acted::Acted;
use crate::descriptor::{ask_head, ask_tail, load_field, store_field, store_status};
use crate::words::fence;
use bz_swap_cells::Cells;
use bz_swap_machine::{Done, HelpStep, Place, PrepareStep, SwapStatus, Worker};

// What follows the store of word `k`, where there are so many entries.
fn after_word(count: u64, k: u8) -> PrepareStep
    requires { k ≤ 12 }
    ensures { result ≡ (if k == 3 * count then WriteStatus else WriteWord (k + 1)) }
{
    if k % 3 == 0 && (k / 3) as u64 == count {
        PrepareStep::WriteStatus
    } else {
        PrepareStep::WriteWord(k + 1)
    }
}

// Stores word `k` of the descriptor.
fn write_word(cells: &mut Cells, worker: &mut Worker, k: u8) -> Acted
    requires typed { IsStore cells.old }
    requires descriptor { worker.old.current < cells.old.swaps }
    requires number { k ≤ 12 }
    ensures { (w : ℕ) → IsStep cells.old worker.old w (prepares (WriteWord k)) result cells.new worker.new }
{
    let act = store_field(cells, worker.current, k, worker.list.words[k as usize]);
    worker.place = Place::Prepare(after_word(worker.list.words[0], k));
    Acted {
        act,
        done: Done::Busy,
    }
}

// Stores the status.
fn write_status(cells: &mut Cells, worker: &mut Worker) -> Acted
    requires typed { IsStore cells.old }
    requires descriptor { worker.old.current < cells.old.swaps }
    ensures { (w : ℕ) → IsStep cells.old worker.old w (prepares WriteStatus) result cells.new worker.new }
{
    let act = store_status(cells, worker.current, SwapStatus::Undecided);
    worker.place = Place::Prepare(PrepareStep::AskHead);
    Acted {
        act,
        done: Done::Busy,
    }
}

// Asks for the descriptor's first line.
fn ask_first(cells: &mut Cells, worker: &mut Worker, w: u8) -> Acted
    requires typed { IsStore cells.old }
    requires asker { MayAsk cells.old w }
    requires descriptor { worker.old.current < cells.old.swaps }
    ensures { IsStep cells.old worker.old w (prepares AskHead) result cells.new worker.new }
{
    let act = ask_head(cells, w, worker.current);
    worker.place = Place::Prepare(PrepareStep::AskTail);
    Acted {
        act,
        done: Done::Busy,
    }
}

// Asks for its second line.
fn ask_second(cells: &mut Cells, worker: &mut Worker, w: u8) -> Acted
    requires typed { IsStore cells.old }
    requires asker { MayAsk cells.old w }
    requires descriptor { worker.old.current < cells.old.swaps }
    ensures { IsStep cells.old worker.old w (prepares AskTail) result cells.new worker.new }
{
    let act = ask_tail(cells, w, worker.current);
    worker.place = Place::Prepare(PrepareStep::FenceDescriptor);
    Acted {
        act,
        done: Done::Busy,
    }
}

// Makes the fence after both; then the swap is published.
fn fence_both(cells: &mut Cells, worker: &mut Worker, w: u8) -> Acted
    requires typed { IsStore cells.old }
    requires number { w < length cells.old.next_tags }
    ensures { IsStep cells.old worker.old w (prepares FenceDescriptor) result cells.new worker.new }
{
    let act = fence(cells, w);
    worker.place = Place::Help(HelpStep::InstallTag(0));
    Acted {
        act,
        done: Done::Busy,
    }
}

/// An act on the descriptor of the own swap.
pub(crate) fn prepare(cells: &mut Cells, worker: &mut Worker, w: u8, step: PrepareStep) -> Acted
    requires typed { IsStore cells.old }
    requires descriptor { worker.old.current < cells.old.swaps }
    requires ready { IsPrepareReady cells.old w step }
    ensures { IsStep cells.old worker.old w (prepares step) result cells.new worker.new }
{
    match step {
        PrepareStep::WriteWord(k) => write_word(cells, worker, k),
        PrepareStep::WriteStatus => write_status(cells, worker),
        PrepareStep::AskHead => ask_first(cells, worker, w),
        PrepareStep::AskTail => ask_second(cells, worker, w),
        PrepareStep::FenceDescriptor => fence_both(cells, worker, w),
    }
}

/// Loads a word of the current swap's descriptor into the worker's list.
pub(crate) fn learn(cells: &Cells, worker: &mut Worker, k: u8) -> Acted
    requires typed { IsStore cells.now }
    requires descriptor { worker.old.current < cells.now.swaps }
    requires may { MayLearn cells.now worker.old k }
    ensures { (w : ℕ) → IsStep cells.now worker.old w (Learn k) result cells.now worker.new }
{
    let (word, act) = load_field(cells, worker.current, k);
    worker.learn(k, word);
    Acted {
        act,
        done: Done::Busy,
    }
}
