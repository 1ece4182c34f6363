//! The script of a workload.
ghost use Rattle.std.specs.Prelude.{◌≡◌, ◌≤◌, IfOk};
ghost use Rattle.bz_script.specs.Script.{job_of};
ghost use Rattle.bz_gen.specs.Workload.{workload_of};

use crate::calls::item_of;
use crate::draws::draw_call;
use bz_layout::{MAX_NODES, MAX_SWAPS, MAX_WORKERS, MIN_WORKERS};
use bz_oom::Memory;
use bz_script::{Item, ItemList, Plan, Script};
use std::alloc::Global;

/// The most calls of a workload.
pub const MOST_CALLS: u32 = 20_000;

/// The script of a seed: so many calls of so many workers, and one run of them by the draws of the seed.
///
/// All its memory is taken before the first draw.
pub fn generate(alloc: Global, seed: u64, calls: u32, workers: u32) -> Result<Script, Memory>
    requires calls { (1 ≤ calls) × (calls ≤ MOST_CALLS) }
    requires workers { (MIN_WORKERS ≤ workers) × (workers ≤ MAX_WORKERS) }
    ensures { IfOk result (λ script. job_of script ≡ workload_of seed calls workers) }
{
    let mut items = ItemList::open(alloc, calls as usize + 1)?;
    let mut x = seed;
    for done in 0..calls {
        let draws = draw_call(&mut x);
        items.push(item_of(calls, workers, done + 1, draws));
    }
    items.push(Item::Run(Plan::Turns(seed)));
    Ok(Script {
        nodes: MAX_NODES,
        swaps: MAX_SWAPS,
        items,
    })
}
