//! The swap memory and its operations.

ghost use Rattle.std.specs.Prelude.{IsTrue, ◌↔◌, ◌≡◌, ◌<◌, false, length, slice_index};
ghost use Rattle.bz_swap.specs.Solo.{left_to};
ghost use Rattle.bz_swap.specs.Inside.Parts.{idle_worker};
ghost use Rattle.bz_swap.specs.SwapMemory.{Idle, worker_of, doing_of};

use crate::allowance::Allowance;
use crate::phase::Phase;
use bz_swap_cells::Cells;
use bz_swap_machine::{DescriptorWords, Operation, Place, Worker};
use std::marker::Model;

/// A memory that workers read, and change by compare-and-swaps of one to four words. Each `step` of a worker makes one
/// memory act. Worker 0 recovers the words after a power cut.
#[derive(Drop)]
pub struct Access {
    pub(crate) cells: Cells,
    pub(crate) workers: Vec<Worker>,
    pub(crate) phase: Phase,
    pub(crate) steps: u64,
    pub(crate) allowance: Allowance,
}

impl Model for Access {
    ghost use Rattle.bz_swap.specs.SwapMemory.{SwapMemory};
    ghost use Rattle.bz_swap.specs.Inside.Parts.{seen};
    ghost use Rattle.bz_swap.specs.Inside.Kept.{IsKept};

    ghost Value = { SwapMemory };

    ghost view = { λ a. seen (record { store = a.cells; workers = a.workers.items; phase = a.phase; steps = a.steps; allowance = a.allowance }) };

    ghost invariant = { λ a. IsKept (record { store = a.cells; workers = a.workers.items; phase = a.phase; steps = a.steps; allowance = a.allowance }) };
}

// A worker that was never asked for anything.
pub(crate) fn idle_worker() -> Worker
    ensures { result ≡ idle_worker }
{
    Worker {
        operation: Operation::Nothing,
        place: Place::Idle,
        current: 0,
        back: None,
        list: DescriptorWords { words: [0; 13] },
    }
}

impl Access {
    /// How many descriptors were taken since the last renewal.
    pub fn taken(&self) -> u32
        ensures { result ≡ self.now.taken }
    {
        self.cells.taken()
    }

    /// How many steps were made since the last power cut, or since the opening.
    pub fn steps(&self) -> u64
        ensures { result ≡ self.now.steps }
    {
        self.steps
    }

    /// How many more steps the worker makes at most, while no other worker steps: over any list of its starts, each of which
    /// adds what it allows.
    pub fn left(&self, w: u8) -> u32
        ensures { result ≡ left_to self.now w }
    {
        self.allowance.left_to(w)
    }

    /// Which operations may start.
    pub fn phase(&self) -> Phase
        ensures { result ≡ self.now.phase }
    {
        self.phase
    }

    /// The cached word at an address.
    pub fn cached(&self, a: u32) -> u64
        requires { a < length self.now.cached }
        ensures { result ≡ slice_index self.now.cached a }
    {
        self.cells.load(a)
    }

    /// The durable word at an address.
    pub fn durable(&self, a: u32) -> u64
        requires { a < length self.now.cached }
        ensures { result ≡ slice_index self.now.durable a }
    {
        self.cells.durable(a)
    }

    /// Whether the worker does nothing.
    pub fn idle(&self, w: u8) -> bool
        requires { w < length self.now.workers }
        ensures { IsTrue result ↔ (doing_of self.now w ≡ Idle) }
    {
        matches!(self.workers[w as usize].place, Place::Idle)
    }

    /// Whether the worker's next step is a fence.
    pub fn flush_next(&self, w: u8) -> bool
        requires { w < length self.now.workers }
        ensures told { result ≡ (worker_of self.now w).flush_next }
        ensures idle { doing_of self.now w ≡ Idle → result ≡ false }
    {
        self.workers[w as usize].place.is_fence()
    }
}
