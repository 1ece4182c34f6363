//! Openings and renewals.

ghost use Rattle.std.specs.Prelude.{◌≡◌, ◌<◌, ◌≤◌, ◌^◌, ◌≢◌, ◌↔◌, ℕ, IsTrue, [], get_or, length};
ghost use Rattle.bz_layout.specs.Addresses.{swap_address};
ghost use Rattle.bz_swap_cells.specs.Store.{IsOutside};
ghost use Rattle.bz_swap.specs.Power.{AreRecovered};
ghost use Rattle.bz_swap.specs.declared.phase.Phase.TheVariants.{Opened, Running};

use crate::access::{Access, idle_worker};
use crate::allowance::Allowance;
use crate::phase::Phase;
use bz_layout::{SUPERBLOCK_WORDS, SWAP_WORDS};
use bz_oom::Memory;
use bz_swap_cells::Cells;
use std::alloc::Global;

// Whether a word at this address needs no recovery: a plain word has no bit from 61 on, and of a descriptor only the
// status is asked.
fn is_recovered(swaps: u32, a: usize, word: u64) -> bool
    requires { swaps ≤ 2 ^ 16 }
    ensures { IsTrue result ↔ ((IsOutside swaps a → word < 2 ^ 61) × ((s : ℕ) → s < swaps → a ≡ swap_address s → word ≡ 0)) }
{
    let first = SUPERBLOCK_WORDS as usize;
    let end = (SUPERBLOCK_WORDS + SWAP_WORDS * swaps) as usize;
    if a < first || end <= a {
        word < 1 << 61
    } else if (a - first) % SWAP_WORDS as usize == 0 {
        word == 0
    } else {
        true
    }
}

fn are_recovered(swaps: u32, words: &[u64]) -> bool
    requires numbered { swaps ≤ 2 ^ 16 }
    requires room { swap_address swaps ≤ length words.now }
    ensures { IsTrue result ↔ AreRecovered swaps words.now }
{
    let mut a = 0;
    while a < words.len() {
        if !is_recovered(swaps, a, words[a]) {
            return false;
        }
        a += 1;
    }
    true
}

// The phase after an opening on these words.
fn first_phase(swaps: u32, words: &[u64]) -> Phase
    requires numbered { swaps ≤ 2 ^ 16 }
    requires room { swap_address swaps ≤ length words.now }
    ensures opened { (result ≡ Opened) ↔ AreRecovered swaps words.now }
    ensures otherwise { result ≢ Running }
{
    if are_recovered(swaps, words) {
        Phase::Opened
    } else {
        Phase::Recovering
    }
}

impl Access {
    ghost use Rattle.std.specs.Prelude.{◌≡◌, ◌<◌, ◌≤◌, ◌%◌, ◌^◌, length, IfOk};
    ghost use Rattle.bz_layout.specs.Addresses.{swap_address};
    ghost use Rattle.bz_layout.specs.declared.limits.TheConstants.{MIN_WORKERS, MAX_WORKERS};
    ghost use Rattle.bz_swap.specs.Held.{Holds};
    ghost use Rattle.bz_swap.specs.Power.{IsOpened, MayRenew, renewed};

    /// A memory whose cached and durable words are these, for workers from 0 to `workers`. The error is want of memory.
    pub fn open(alloc: Global, start: &[u64], swaps: u32, workers: u32) -> Result<Access, Memory>
        requires lines { length start.now % 8 ≡ 0 }
        requires size { length start.now < 2 ^ 32 }
        requires some { 1 ≤ swaps }
        requires numbered { swaps ≤ 2 ^ 16 }
        requires room { swap_address swaps ≤ length start.now }
        requires workers { (MIN_WORKERS ≤ workers) × (workers ≤ MAX_WORKERS) }
        ensures opened { IfOk result (λ m. IsOpened m start.now swaps workers) }
        ensures held { IfOk result Holds }
    {
        let phase = first_phase(swaps, start);
        let cells = Cells::open(alloc, start, swaps, workers as u8)?;
        let workers = vec![in alloc; idle_worker(); workers as usize + 1]?;
        Ok(Access {
            cells,
            workers,
            phase,
            steps: 0,
            allowance: Allowance::NONE,
        })
    }

    /// Gives all descriptors back. The words stay as they are.
    pub fn renew(&mut self)
        requires { MayRenew self.old }
        ensures renewed { self.new ≡ renewed self.old }
        ensures asks { (w : ℕ) → get_or self.old.past.asks w [] ≡ [] }
        ensures held { Holds self.new }
    {
        self.cells.renew();
        self.workers.fill(idle_worker());
        self.phase = Phase::Running;
        self.allowance.all = 0;
    }
}
