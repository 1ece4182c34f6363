ghost use Rattle.std.specs.Prelude.{◌≡◌, IfOk};
ghost use Rattle.bz_layout.specs.Config.{IsConfig};
ghost use Rattle.bz_layout.specs.Fresh.{fresh_words};

use crate::config::Config;
use crate::sizes::{FIRST_ROOT, FORMAT};
use bz_oom::Memory;
use std::alloc::Global;

/// The words of a memory that no call has changed: slot 0 is the root, an empty leaf.
pub fn fresh(alloc: Global, config: &Config) -> Result<Vec<u64>, Memory>
    requires { IsConfig config.now }
    ensures { IfOk result (λ words. words.items ≡ fresh_words config.now) }
{
    let count = config.words() as usize;
    let superblock = [
        FORMAT,
        FIRST_ROOT,
        0,
        u64::from(config.nodes),
        u64::from(config.swaps),
    ];
    let mut words = Vec::with_capacity(alloc, count)?;
    words.extend_from_slice(&superblock)?;
    words.resize(count, 0)?;
    Ok(words)
}
