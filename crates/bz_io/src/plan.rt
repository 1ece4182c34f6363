//! Calls that fail on purpose.
ghost use Rattle.std.specs.Prelude.{◌≡◌, ◌≤◌, ◌↔◌, IsTrue, IfOk, Contains};
ghost use Rattle.bz_io.specs.Faults.{next_count};

use bz_oom::Memory;
use std::alloc::Global;
use std::marker::Model;

/// The numbers, from 1, of the calls that are to fail, and two counts: the calls made, and those
/// that failed.
#[derive(Drop)]
pub struct FaultPlan {
    fails: Vec<u64>,
    made: u64,
    faults: u64,
}

impl Model for FaultPlan {
    ghost use Rattle.bz_io.specs.InMemory.{Plan};

    ghost Value = { Plan };

    ghost view = { λ p. record { fails = p.fails.items; made = p.made; faults = p.faults } };
}

impl FaultPlan {
    /// A plan before the first call.
    pub fn of(alloc: Global, fails: &[u64]) -> Result<FaultPlan, Memory>
        ensures { IfOk result (λ p. p ≡ record { fails = fails.now; made = 0; faults = 0 }) }
    {
        let fails = Vec::from_slice(alloc, fails)?;
        Ok(FaultPlan {
            fails,
            made: 0,
            faults: 0,
        })
    }

    /// Counts a call, and answers whether it is to fail.
    pub fn next_fails(&mut self) -> bool
        ensures planned { IsTrue result ↔ Contains self.old.fails (next_count self.old.made) }
        ensures counted { self.new ≡ record self.old { made = next_count self.old.made } }
    {
        self.made = self.made.saturating_add(1);
        self.fails.contains(&self.made)
    }

    /// Counts a failed call.
    pub fn count_fault(&mut self)
        ensures counted { self.new ≡ record self.old { faults = next_count self.old.faults } }
        ensures later { self.old.faults ≤ self.new.faults }
    {
        self.faults = self.faults.saturating_add(1);
    }
}
