//! The act at a worker's place.

ghost use Rattle.std.specs.Prelude.{◌≡◌, length};
ghost use Rattle.bz_swap_machine.specs.Fences.{is_fence};
ghost use Rattle.bz_swap_machine.specs.Workers.{local_of};
ghost use Rattle.bz_swap_cells.specs.Store.{Beside, IsStore, SameShape, typed, store_state};
ghost use Rattle.bz_swap_acts.specs.Made.{made, beside_in};
ghost use Rattle.bz_swap_acts.specs.Parts.{IsStep};
ghost use Rattle.bz_swap_acts.specs.Ready.{IsReady, IsReadyAt};
ghost use Rattle.bz_swap_acts.specs.Rule.{IsActOf, IsToldAt, IsWithin, is_fence_act};
ghost use Rattle.bz_swap_acts.specs.Writes.{WritesAt};

use crate::acted::Acted;
use crate::help::help;
use crate::prepare::{learn, prepare};
use crate::reading::{
    ask_line, ask_read, clear_read, fence_line, fence_read, read_word, store_word,
};
use bz_swap_cells::Cells;
use bz_swap_machine::{Place, Worker};

// Makes the act at a place.
fn act_at(cells: &mut Cells, worker: &mut Worker, w: u8, place: Place) -> Acted
    requires typed { IsStore cells.old }
    requires ready { IsReadyAt cells.old worker.old w place }
    ensures { IsStep cells.old worker.old w place result cells.new worker.new }
{
    match place {
        Place::Prepare(step) => prepare(cells, worker, w, step),
        Place::Learn(k) => learn(cells, worker, k),
        Place::Help(step) => help(cells, worker, w, step),
        Place::ReadWord(a) => read_word(cells, worker, a),
        Place::AskRead { address, value } => ask_read(cells, worker, w, address, value),
        Place::FenceRead { address, value } => fence_read(cells, worker, w, address, value),
        Place::ClearRead { address, value } => clear_read(cells, worker, address, value),
        Place::StoreWord { address, value } => store_word(cells, worker, address, value),
        Place::AskLine(line) => ask_line(cells, worker, w, line),
        Place::FenceLine(line) => fence_line(cells, worker, w, line),
        Place::Idle | Place::LoadWord(_) => unreachable!(),
    }
}

/// Makes the act at the worker's place, and takes the worker to its next place. `w` is the worker's number.
pub fn act(cells: &mut Cells, worker: &mut Worker, w: u8) -> Acted
    requires typed { IsStore cells.old }
    requires ready { IsReady cells.old worker.old w }
    ensures local { (b : Beside) → local_of worker.new ≡ (made cells.old b worker.old w).local }
    ensures done { (b : Beside) → result.done ≡ (made cells.old b worker.old w).done }
    ensures memory { (b : Beside) → typed cells.new (beside_in (made cells.old b worker.old w).memory) ≡ (made cells.old b worker.old w).memory }
    ensures words { IsActOf (store_state cells.old) w result.act (store_state cells.new) }
    ensures within { IsWithin (length cells.old.cached) result.act }
    ensures flush { is_fence_act result.act ≡ is_fence worker.old.place }
    ensures told { IsToldAt worker.old.place result.act }
    ensures writes { WritesAt cells.old.swaps worker.old worker.old.place result.act }
    ensures typed { IsStore cells.new }
    ensures shape { SameShape cells.old cells.new }
{
    act_at(cells, worker, w, worker.place)
}
