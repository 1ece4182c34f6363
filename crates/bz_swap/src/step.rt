//! Steps of workers.

ghost use Rattle.std.specs.Prelude.{◌≡◌, if◌then◌else◌, ◌&&◌, not, Some, None};

use crate::access::Access;
use crate::phase::Phase;
use crate::progress::Progress;
use crate::raw::{place_after, raw_act};
use bz_swap_acts::act;

// The swap that took effect between two looks at its status, if it did.
pub(crate) fn told_effect(swap: u16, had_effect: bool, has_effect: bool) -> Option<u16>
    ensures { result ≡ (if has_effect && not had_effect then Some swap else None) }
{
    if has_effect && !had_effect {
        Some(swap)
    } else {
        None
    }
}

impl Access {
    ghost use Rattle.std.specs.Prelude.{◌≡◌, ◌≢◌, ◌<◌, ◌^◌, length};
    ghost use Rattle.bz_swap.specs.Held.{Holds};
    ghost use Rattle.bz_swap.specs.Steps.{IsStep, IsRawStep, StepsIn};
    ghost use Rattle.bz_swap.specs.SwapMemory.{Idle, doing_of};
    ghost use Rattle.bz_swap.specs.declared.phase.Phase.TheVariants.{Recovering};

    // A step outside a recovery time.
    fn act_step(&mut self, w: u8) -> Progress
        requires worker { w < length self.old.workers }
        requires busy { doing_of self.old w ≢ Idle }
        requires steps { self.old.steps < 2 ^ 36 }
        requires phase { self.old.phase ≢ Recovering }
        ensures step { IsStep self.old w result.act result.done result.effect self.new }
        ensures held { Holds self.new }
    {
        let mut worker = self.workers[w as usize];
        let swap = worker.current;
        let had_effect = self.cells.has_effect(swap);
        let acted = act(&mut self.cells, &mut worker, w);
        let has_effect = self.cells.has_effect(swap);
        self.workers[w as usize] = worker;
        self.steps += 1;
        self.allowance = self.allowance.stepped(w, worker.place);
        Progress {
            act: acted.act,
            done: acted.done,
            effect: told_effect(swap, had_effect, has_effect),
        }
    }

    // A step in a recovery time.
    fn raw_step(&mut self, w: u8) -> Progress
        requires worker { w < length self.old.workers }
        requires busy { doing_of self.old w ≢ Idle }
        requires phase { self.old.phase ≡ Recovering }
        requires steps { self.old.steps < 2 ^ 36 }
        ensures { IsRawStep self.old w result.act result.done result.effect self.new }
    {
        let mut worker = self.workers[w as usize];
        let acted = raw_act(&mut self.cells, w, worker.place);
        worker.place = place_after(worker.place);
        self.workers[w as usize] = worker;
        self.steps += 1;
        self.allowance = self.allowance.stepped(w, worker.place);
        Progress {
            act: acted.act,
            done: acted.done,
            effect: None,
        }
    }

    /// Makes one memory act of the worker, and tells it.
    pub fn step(&mut self, w: u8) -> Progress
        requires worker { w < length self.old.workers }
        requires busy { doing_of self.old w ≢ Idle }
        requires steps { self.old.steps < 2 ^ 36 }
        ensures step { StepsIn self.old.phase self.old w result.act result.done result.effect self.new }
        ensures held { Holds self.new }
    {
        match self.phase {
            Phase::Recovering => self.raw_step(w),
            _ => self.act_step(w),
        }
    }
}
