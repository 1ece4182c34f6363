//! How many steps a worker may make that steps alone.

ghost use Rattle.std.specs.Prelude.{◌≡◌, ◌+◌, ◌-◌, ◌≤◌, ◌^◌};
ghost use Rattle.bz_swap.specs.Solo.{steps_left};
ghost use Rattle.bz_swap.specs.Inside.Allowances.{after_start, after_step};

use bz_swap_machine::Place;

/// What a read, a load or a store allows its worker.
pub(crate) const WORD_STEPS: u32 = 1;

/// What a flush allows its worker.
pub(crate) const FLUSH_STEPS: u32 = 2;

/// What a swap allows its worker.
pub(crate) const SWAP_STEPS: u32 = 128;

/// What each worker that does something allows one that begins to step alone.
pub(crate) const WORKER_STEPS: u32 = 1024;

/// The worker that started or stepped last, what is left of the steps that it may make alone, and what all workers allow.
#[derive(Clone, Copy)]
pub(crate) struct Allowance {
    pub(crate) runner: u8,
    pub(crate) left: u32,
    pub(crate) all: u32,
}

impl Allowance {
    // Nothing is allowed, as nobody does anything.
    pub(crate) const NONE: Allowance = Allowance {
        runner: 0,
        left: 0,
        all: 0,
    };

    // What is left to a worker.
    pub(crate) fn left_to(self, w: u8) -> u32
        ensures { result ≡ steps_left self.runner self.left self.all w }
    {
        if self.runner == w && self.left < self.all {
            self.left
        } else {
            self.all
        }
    }

    // After a start of a worker that did nothing.
    pub(crate) fn started(self, w: u8, more: u32) -> Allowance
        requires all { self.all ≤ 2 ^ 17 }
        requires more { more ≤ 2 ^ 7 }
        ensures { result ≡ after_start self w more }
    {
        Allowance {
            runner: w,
            left: self.left_to(w) + more,
            all: self.all + WORKER_STEPS,
        }
    }

    // After a step that led a worker to this place.
    pub(crate) fn stepped(self, w: u8, place: Place) -> Allowance
        ensures { result ≡ after_step self w place }
    {
        let all = match place {
            Place::Idle => self.all.saturating_sub(WORKER_STEPS),
            _ => self.all,
        };
        Allowance {
            runner: w,
            left: self.left_to(w).saturating_sub(1),
            all,
        }
    }
}
