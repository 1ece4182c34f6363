//! The start of a swap. A start makes no act.

use crate::access::Access;
use crate::allowance::SWAP_STEPS;
use crate::entry_list::EntryList;
use crate::phase::Phase;
use crate::progress::NoSwap;
use bz_swap_machine::{Operation, Place, PrepareStep};

impl Access {
    ghost use Rattle.std.specs.Prelude.{◌≡◌, ◌<◌, MatchResult};
    ghost use Rattle.bz_swap.specs.Held.{Holds};
    ghost use Rattle.bz_swap.specs.Starts.{MaySwap, swapping};

    /// Starts a swap, whose number is answered. The error is that all descriptors were taken since the last renewal.
    pub fn start_swap(&mut self, w: u8, entries: EntryList) -> Result<u16, NoSwap>
        requires { MaySwap self.old w entries }
        ensures begun { MatchResult result
            (λ swap. (swap ≡ self.old.taken) × (self.old.taken < self.old.swaps) × (self.new ≡ swapping self.old w entries))
            (λ none. (self.old.taken ≡ self.old.swaps) × (self.new ≡ self.old)) }
        ensures held { Holds self.new }
    {
        let Some(swap) = self.cells.take() else {
            return Err(NoSwap);
        };
        let mut worker = self.workers[w as usize];
        worker.operation = Operation::Swapping(swap);
        worker.place = Place::Prepare(PrepareStep::WriteWord(0));
        worker.current = swap;
        worker.back = None;
        worker.list = entries.words();
        self.workers[w as usize] = worker;
        self.phase = Phase::Running;
        self.allowance = self.allowance.started(w, SWAP_STEPS);
        Ok(swap)
    }
}
