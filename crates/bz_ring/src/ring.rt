//! The numbers of a queue's memory, and its words at first.
ghost use Rattle.std.specs.Prelude.{◌≡◌, IfOk};
ghost use Rattle.bz_ring.specs.Fresh.{fresh_words, IsRing};

use bz_layout::{LINE_WORDS, SUPERBLOCK_WORDS, SWAP_WORDS};
use bz_oom::Memory;
use std::alloc::Global;

/// How many cells and descriptors a memory has.
#[derive(Clone, Copy)]
pub struct Ring {
    /// Cells, 1 to 4,096: as many items as the queue may hold.
    pub capacity: u32,
    /// Descriptors, 1 to 65,536.
    pub swaps: u32,
}

/// The word with how many items were taken.
pub const HEAD_AT: u32 = 1;

/// The word with how many items were put.
pub const TAIL_AT: u32 = 2;

/// What the first word of a queue's memory holds.
pub const QUEUE_FORMAT: u64 = 3;

impl Ring {
    ghost use Rattle.std.specs.Prelude.{◌≡◌};
    ghost use Rattle.bz_ring.specs.Content.{cell_of, size_of};
    ghost use Rattle.bz_ring.specs.Fresh.{IsRing};

    /// The words of the memory: whole lines.
    pub fn words(&self) -> u32
        requires { IsRing self.now }
        ensures { result ≡ size_of self.now }
    {
        SUPERBLOCK_WORDS
            + SWAP_WORDS * self.swaps
            + (self.capacity + (LINE_WORDS - 1)) / LINE_WORDS * LINE_WORDS
    }

    /// The address of the cell that a counter's value names.
    pub fn cell_at(&self, counter: u64) -> u32
        requires { IsRing self.now }
        ensures { result ≡ cell_of self.now counter }
    {
        let place = (counter % u64::from(self.capacity)) as u32;
        SUPERBLOCK_WORDS + SWAP_WORDS * self.swaps + place
    }
}

/// The words of a queue's memory that no call has changed: the list is empty.
pub fn fresh(alloc: Global, ring: &Ring) -> Result<Vec<u64>, Memory>
    requires { IsRing ring.now }
    ensures { IfOk result (λ words. words.items ≡ fresh_words ring.now) }
{
    let count = ring.words() as usize;
    let superblock = [
        QUEUE_FORMAT,
        0,
        0,
        u64::from(ring.capacity),
        u64::from(ring.swaps),
    ];
    let mut words = Vec::with_capacity(alloc, count)?;
    words.extend_from_slice(&superblock)?;
    words.resize(count, 0)?;
    Ok(words)
}
