//! Power cuts.

use crate::access::{Access, idle_worker};
use crate::phase::Phase;

impl Access {
    ghost use Rattle.std.specs.Prelude.{◌≡◌, ◌<◌, length};
    ghost use Rattle.bz_swap.specs.Evictions.{IsEviction};
    ghost use Rattle.bz_swap.specs.Held.{Holds};
    ghost use Rattle.bz_swap.specs.Power.{after_cut};

    /// Cuts the power: the durable words are all that is left, every worker is idle, and a recovery time begins.
    pub fn cut(&mut self)
        ensures { self.new ≡ after_cut self.old }
    {
        self.cells.cut();
        self.workers.fill(idle_worker());
        self.phase = Phase::Recovering;
        self.steps = 0;
        self.allowance.all = 0;
    }
}
