//! An act on the current swap, and what follows it.

ghost use Rattle.std.specs.Prelude.{◌≡◌, ◌<◌, slice_index};
ghost use Rattle.bz_swap_machine.specs.Machine.{entries_in};
ghost use Rattle.bz_swap_machine.specs.declared.place.Place.TheVariants.{Help};
ghost use Rattle.bz_swap_cells.specs.Store.{IsStore};
ghost use Rattle.bz_swap_acts.specs.Parts.{IsHelp, IsStep};
ghost use Rattle.bz_swap_acts.specs.Ready.{IsStepReady};

use crate::acted::{Act, Acted};
use crate::tags::{OldTag, install_pointer, install_tag, look_under_tag, remove_tag, sweep_tag};
use crate::values::{
    ask_dirty, ask_final, ask_target, clear_dirty, clear_final, fence_then, put_final,
};
use crate::verdicts::{ask_status, clear_status, decide, look};
use bz_swap_cells::Cells;
use bz_swap_machine::{DescriptorWords, HelpStep, Next, Verdict, Worker};

/// An act on the current swap, and what follows.
#[derive(Clone, Copy)]
pub(crate) struct Helped {
    pub(crate) act: Act,
    pub(crate) next: Next,
}

// The act at a step.
fn help_at(cells: &mut Cells, list: &DescriptorWords, swap: u16, w: u8, step: HelpStep) -> Helped
    requires typed { IsStore cells.old }
    requires descriptor { swap < cells.old.swaps }
    requires ready { IsStepReady cells.old w (entries_in (slice_index list.now.words)) step }
    ensures { IsHelp (entries_in (slice_index list.now.words)) cells.old w swap step result cells.new }
{
    match step {
        HelpStep::Look => look(cells, swap),
        HelpStep::InstallTag(entry) => install_tag(cells, list, swap, entry, w),
        HelpStep::LookUnderTag { entry, worker, seq } => {
            look_under_tag(cells, OldTag::new(swap, entry, worker, seq))
        }
        HelpStep::InstallPointer { entry, worker, seq } => {
            install_pointer(cells, list, OldTag::new(swap, entry, worker, seq))
        }
        HelpStep::RemoveTag { entry, worker, seq } => {
            remove_tag(cells, list, OldTag::new(swap, entry, worker, seq))
        }
        HelpStep::AskDirty { entry, value } => ask_dirty(cells, list, w, entry, value),
        HelpStep::FenceDirty { entry, value } => {
            fence_then(cells, w, HelpStep::ClearDirty { entry, value })
        }
        HelpStep::ClearDirty { entry, value } => clear_dirty(cells, list, entry, value),
        HelpStep::AskTarget(entry) => ask_target(cells, list, w, entry),
        HelpStep::FenceTargets => fence_then(cells, w, HelpStep::Decide(Verdict::Succeeded)),
        HelpStep::Decide(verdict) => decide(cells, swap, verdict),
        HelpStep::AskStatus(verdict) => ask_status(cells, swap, w, verdict),
        HelpStep::FenceStatus(verdict) => fence_then(cells, w, HelpStep::ClearStatus(verdict)),
        HelpStep::ClearStatus(verdict) => clear_status(cells, swap, verdict),
        HelpStep::PutFinal { entry, verdict } => put_final(cells, list, swap, entry, verdict),
        HelpStep::AskFinal { entry, verdict } => ask_final(cells, list, w, entry, verdict),
        HelpStep::FenceFinal { entry, verdict } => {
            fence_then(cells, w, HelpStep::ClearFinal { entry, verdict })
        }
        HelpStep::ClearFinal { entry, verdict } => clear_final(cells, list, entry, verdict),
        HelpStep::SweepTag {
            entry,
            verdict,
            worker,
            seq,
        } => sweep_tag(cells, list, verdict, OldTag::new(swap, entry, worker, seq)),
    }
}

/// Makes the act at a step, and takes the worker on.
pub(crate) fn help(cells: &mut Cells, worker: &mut Worker, w: u8, step: HelpStep) -> Acted
    requires typed { IsStore cells.old }
    requires descriptor { worker.old.current < cells.old.swaps }
    requires ready { IsStepReady cells.old w (entries_in (slice_index worker.old.list.words)) step }
    ensures { IsStep cells.old worker.old w (Help step) result cells.new worker.new }
{
    let helped = help_at(cells, &worker.list, worker.current, w, step);
    let done = worker.follow(helped.next);
    Acted {
        act: helped.act,
        done,
    }
}
