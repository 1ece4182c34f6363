//! Acts on the status of the current swap.

ghost use Rattle.std.specs.Prelude.{◌≡◌, ◌<◌, ℕ};
ghost use Rattle.bz_swap_machine.specs.Machine.{Entries, Memory};
ghost use Rattle.bz_swap_machine.specs.HelpActs.{after_decide as after_decide_by};
ghost use Rattle.bz_swap_machine.specs.declared.place.HelpStep.TheVariants.{Look, Decide as decides, AskStatus, ClearStatus};
ghost use Rattle.bz_swap_cells.specs.Store.{IsStore, MayAsk};
ghost use Rattle.bz_swap_acts.specs.Parts.{IsHelp};

use crate::descriptor::{ask_head, cas_status, load_status};
use crate::help::Helped;
use bz_swap_cells::Cells;
use bz_swap_machine::{HelpStep, Next, SwapStatus, Verdict, by_status};

/// Loads the status.
pub(crate) fn look(cells: &Cells, swap: u16) -> Helped
    requires typed { IsStore cells.now }
    requires descriptor { swap < cells.now.swaps }
    ensures { (x : Entries) (w : ℕ) → IsHelp x cells.now w swap Look result cells.now }
{
    let found = load_status(cells, swap);
    Helped {
        act: found.act,
        next: Next::Step(by_status(found.status)),
    }
}

// What follows the attempt to decide.
fn after_decide(verdict: Verdict, found: SwapStatus) -> Next
    ensures { (m : Memory) (s : ℕ) → result ≡ (after_decide_by m s verdict found).next }
{
    match found {
        SwapStatus::Undecided => Next::Step(HelpStep::AskStatus(verdict)),
        other => Next::Step(by_status(other)),
    }
}

/// Decides the swap, where it is undecided.
pub(crate) fn decide(cells: &mut Cells, swap: u16, verdict: Verdict) -> Helped
    requires typed { IsStore cells.old }
    requires descriptor { swap < cells.old.swaps }
    ensures { (x : Entries) (w : ℕ) → IsHelp x cells.old w swap (decides verdict) result cells.new }
{
    let found = cas_status(
        cells,
        swap,
        SwapStatus::Undecided,
        SwapStatus::Deciding(verdict),
    );
    Helped {
        act: found.act,
        next: after_decide(verdict, found.status),
    }
}

/// Asks for the verdict.
pub(crate) fn ask_status(cells: &mut Cells, swap: u16, w: u8, verdict: Verdict) -> Helped
    requires typed { IsStore cells.old }
    requires asker { MayAsk cells.old w }
    requires descriptor { swap < cells.old.swaps }
    ensures { (x : Entries) → IsHelp x cells.old w swap (AskStatus verdict) result cells.new }
{
    Helped {
        act: ask_head(cells, w, swap),
        next: Next::Step(HelpStep::FenceStatus(verdict)),
    }
}

/// Clears the dirty bit of the verdict.
pub(crate) fn clear_status(cells: &mut Cells, swap: u16, verdict: Verdict) -> Helped
    requires typed { IsStore cells.old }
    requires descriptor { swap < cells.old.swaps }
    ensures { (x : Entries) (w : ℕ) → IsHelp x cells.old w swap (ClearStatus verdict) result cells.new }
{
    let found = cas_status(
        cells,
        swap,
        SwapStatus::Deciding(verdict),
        SwapStatus::Decided(verdict),
    );
    Helped {
        act: found.act,
        next: Next::Step(HelpStep::PutFinal { entry: 0, verdict }),
    }
}
