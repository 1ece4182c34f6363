//! The phases of a writer.

ghost use Rattle.std.specs.Prelude.{◌≡◌, ◌<◌, ◌≤◌, ◌*◌};
ghost use Rattle.bz_layout.specs.declared.sizes.TheConstants.{NODE_LINES};
ghost use Rattle.bz_layout.specs.declared.thresholds.TheConstants.{SPLIT_SLOTS};
ghost use Rattle.bz_writer.specs.Phases.{IsWithin, store_after, flush_after, swap_after, write_end, write_next};

use bz_call::Spent;
use bz_layout::{LINE_WORDS, NODE_WORDS};
use bz_task::{Outcome, Seen};

const NODE_LINES: u32 = NODE_WORDS / LINE_WORDS;

/// What a writer asks for next.
#[derive(Clone, Copy, Drop)]
pub enum WritePhase {
    /// Nothing was asked for yet.
    Fresh,
    /// The load of the guard, once more.
    Guard,
    /// The store of one of the words of its nodes, counted through.
    Store(u32),
    /// The flush of one of their lines, counted through.
    Flush(u32),
    /// The swap.
    Swap,
    /// The swap took effect.
    Done,
    /// The guard was another one, or a word that the swap named.
    Restart,
    /// Too few slots were left.
    NoSlot,
    /// No descriptor was left.
    NoSwap,
}

impl WritePhase {
    /// How it has ended, if it has.
    pub fn ended(&self) -> Option<Outcome>
        ensures { result ≡ write_end self.now }
    {
        match *self {
            WritePhase::Done => Some(Outcome::Done),
            WritePhase::Restart => Some(Outcome::Restart),
            WritePhase::NoSlot => Some(Outcome::Full(Spent::Nodes)),
            WritePhase::NoSwap => Some(Outcome::Full(Spent::Swaps)),
            _ => None,
        }
    }

    /// The phase after what came of a store, a flush or the swap, of so many nodes.
    pub fn after(&self, count: u32, seen: Seen) -> WritePhase
        requires few { count ≤ SPLIT_SLOTS }
        requires within { IsWithin count self.now }
        ensures { result ≡ write_next count self.now seen }
    {
        match *self {
            WritePhase::Store(j) => after_store(count, j),
            WritePhase::Flush(j) => after_flush(count, j),
            _ => after_swap(seen),
        }
    }
}

// The phase after the store of a word: that of the next one, or the first flush.
fn after_store(count: u32, j: u32) -> WritePhase
    requires few { count ≤ SPLIT_SLOTS }
    requires within { j < NODE_WORDS * count }
    ensures { result ≡ store_after count j }
{
    if j + 1 < NODE_WORDS * count {
        WritePhase::Store(j + 1)
    } else {
        WritePhase::Flush(0)
    }
}

// The phase after the flush of a line: that of the next one, or the swap.
fn after_flush(count: u32, j: u32) -> WritePhase
    requires few { count ≤ SPLIT_SLOTS }
    requires within { j < NODE_LINES * count }
    ensures { result ≡ flush_after count j }
{
    if j + 1 < NODE_LINES * count {
        WritePhase::Flush(j + 1)
    } else {
        WritePhase::Swap
    }
}

// The phase after the swap.
fn after_swap(seen: Seen) -> WritePhase
    ensures { result ≡ swap_after seen }
{
    match seen {
        Seen::Swapped(true) => WritePhase::Done,
        Seen::NoSwap => WritePhase::NoSwap,
        _ => WritePhase::Restart,
    }
}
