//! Runs by a plan of turns, which ask for no handle.
ghost use Rattle.std.specs.Prelude.{◌≡◌, false, None};
ghost use Rattle.bz_layout.specs.declared.limits.TheConstants.{MAX_WORKERS};
ghost use Rattle.bz_sched.specs.Enough.{AreClosed, HasEnough, HasSupply, AreServed, AreSupplied};
ghost use Rattle.bz_sched.specs.Runs.{IsCutPlan};
ghost use Rattle.bz_script.specs.Order.{takes_no_cut};
ghost use Rattle.bz_script.specs.declared.item.Item.TheVariants.{Run};
ghost use Rattle.bz_script.specs.declared.item.Plan.TheVariants.{Alone};
ghost use Rattle.bz_top.specs.Items.{IsReadyFor, HasDone};
ghost use Rattle.bz_top.specs.declared.items.ItemsEnd.TheVariants.{Finished};

use crate::items::{ItemsEnd, end_of};
use bz_sched::{CutPlan, Queue, World, run};
use bz_script::Plan;

/// Runs by a plan of turns, with the cut that is armed, if one is.
pub(crate) fn run_turns(
    world: World,
    queue: &mut Queue,
    armed: Option<CutPlan>,
    plan: &Plan,
) -> (World, ItemsEnd)
    requires plan { takes_no_cut plan.now ≡ false }
    requires workers { world.config.workers ≡ MAX_WORKERS }
    requires armed { IsCutPlan armed }
    requires item { IsReadyFor armed world (Run plan.now) }
    ensures ends { HasDone armed world queue.old (Run plan.now) result.1 None result.0 queue.new }
    ensures enough { armed ≡ None → plan.now ≡ Alone → AreClosed world.log.past → HasEnough world queue.old.calls → (result.1 ≡ Finished) × AreServed world queue.old result.0 queue.new × (HasSupply world queue.old.calls → AreSupplied world queue.old result.0 queue.new) }
{
    let mut world = world;
    let end = run(&mut world, queue, plan, armed);
    (world, end_of(end))
}

/// Whether a plan is that of threads.
pub(crate) fn is_on_threads(plan: &Plan) -> bool
    ensures { result ≡ takes_no_cut plan.now }
{
    match plan {
        Plan::Threads => true,
        Plan::Alone => false,
        Plan::List(_) => false,
        Plan::Turns(_) => false,
    }
}
