//! What of a memory a sweep knows.

ghost use Rattle.std.specs.Prelude.{◌≡◌};
ghost use Rattle.bz_layout.specs.Config.{IsConfig};
ghost use Rattle.bz_sweep.specs.Areas.{area_of, past_swaps, size_of, IsArea};

use bz_layout::{Config, NODE_WORDS, SUPERBLOCK_WORDS, SWAP_WORDS};

/// A memory with descriptors, whatever stands behind them.
#[derive(Clone, Copy)]
pub struct Area {
    /// Descriptors, 1 to 65,536, which follow the superblock.
    pub swaps: u32,
    /// The words behind the descriptors: whole lines.
    pub words: u32,
}

impl Area {
    /// The area of a memory of these sizes: node slots stand behind its descriptors.
    pub fn of(config: &Config) -> Area
        requires { IsConfig config.now }
        ensures area { result ≡ area_of config.now }
        ensures is { IsArea result }
    {
        Area {
            swaps: config.swaps,
            words: NODE_WORDS * config.nodes,
        }
    }

    /// The words of the memory.
    pub fn size(&self) -> u32
        requires { IsArea self.now }
        ensures { result ≡ size_of self.now }
    {
        self.behind() + self.words
    }

    // The first word behind the descriptors.
    pub(crate) fn behind(&self) -> u32
        requires { IsArea self.now }
        ensures { result ≡ past_swaps self.now 0 }
    {
        SUPERBLOCK_WORDS + SWAP_WORDS * self.swaps
    }
}
