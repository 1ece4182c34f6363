//! Runs.
ghost use Rattle.std.specs.Prelude.{◌≡◌, ◌≢◌, ◌≤◌, None, Some};
ghost use Rattle.bz_qscript.specs.ItemLaws.{IsPlan};
ghost use Rattle.bz_ring.specs.Content.{size_of};
ghost use Rattle.bz_mark.specs.declared.power.Power.TheVariants.{Off, On};
ghost use Rattle.bz_queue.specs.QueueView.{power_in};
ghost use Rattle.bz_qsched.specs.Cutting.{IsCutRun};
ghost use Rattle.bz_qsched.specs.Fuses.{with_fuse};
ghost use Rattle.bz_qsched.specs.Plans.{RunsBy, RunsByInPart};
ghost use Rattle.bz_qsched.specs.Runs.{HasAllWorkers, IsReady, EndsBy, IsCutPlan, HasRun};

use crate::alone::run_alone;
use crate::cut::cut_off;
use crate::list::run_list;
use crate::turn::{Stop, Turned};
use crate::waiting::Waiting;
use bz_qscript::QPlan;
use bz_queue::{QLimit, QueueWorld};
use bz_script::CutPlan;

/// How a run, or power on, ended.
#[derive(Clone, Copy, PartialEq, Eq)]
pub enum RunEnd {
    /// The plan is done, or the recovery has ended.
    Finished,

    /// The power was cut where a cut was armed.
    Cut,

    /// A limit of the journal was met, and one more was needed.
    Limit(QLimit),
}

// Takes the turns of a plan.
fn run_plan(
    world: &mut QueueWorld,
    queue: &mut Waiting,
    fuse: &mut Option<u32>,
    plan: &QPlan,
) -> Turned
    requires plan { IsPlan plan.now }
    requires ready { IsReady world.old }
    ensures { EndsBy (RunsBy plan.now) (λ why. RunsByInPart why plan.now) world.old (with_fuse queue.old fuse.old) result world.new (with_fuse queue.new fuse.new) }
{
    match plan {
        QPlan::Alone => run_alone(world, queue, fuse),
        QPlan::List(turns) => run_list(world, queue, fuse, turns.turns()),
    }
}

// Runs with no cut armed.
fn run_unarmed(world: &mut QueueWorld, queue: &mut Waiting, plan: &QPlan) -> RunEnd
    requires plan { IsPlan plan.now }
    requires ready { IsReady world.old }
    ensures { HasRun None plan.now world.old queue.old result world.new queue.new }
{
    let mut fuse = None;
    match run_plan(world, queue, &mut fuse, plan) {
        Turned::Finished => RunEnd::Finished,
        Turned::Stopped(Stop::Limit(which)) => RunEnd::Limit(which),
        Turned::Stopped(Stop::Due(_)) => unreachable!(),
    }
}

// Cuts the power, and drops the calls that wait.
fn cut_run(world: &mut QueueWorld, queue: &mut Waiting, seed: u64, words: u32) -> RunEnd
    requires powered { power_in world.old ≢ Off }
    requires words { words ≡ size_of world.old.numbers.ring }
    ensures { IsCutRun seed world.old queue.old result world.new queue.new }
{
    let end = cut_off(world, seed, words);
    if let RunEnd::Cut = end {
        queue.clear();
    }
    end
}

// Runs with a cut armed.
fn run_armed(
    world: &mut QueueWorld,
    queue: &mut Waiting,
    plan: &QPlan,
    cut: CutPlan,
    words: u32,
) -> RunEnd
    requires plan { IsPlan plan.now }
    requires ready { IsReady world.old }
    requires cut { 1 ≤ cut.flush }
    requires words { words ≡ size_of world.old.numbers.ring }
    ensures { HasRun (Some cut) plan.now world.old queue.old result world.new queue.new }
{
    let mut fuse = Some(cut.flush - 1);
    match run_plan(world, queue, &mut fuse, plan) {
        Turned::Finished => RunEnd::Finished,
        Turned::Stopped(Stop::Limit(which)) => RunEnd::Limit(which),
        Turned::Stopped(Stop::Due(_)) => cut_run(world, queue, cut.seed, words),
    }
}

/// Runs the calls that wait, and those that are open, by a plan. Where a cut is armed, the power is cut before that fence of the
/// run is made, and the calls that wait are dropped; a run that ends before it makes no cut.
pub fn run(
    world: &mut QueueWorld,
    queue: &mut Waiting,
    plan: &QPlan,
    cut: Option<CutPlan>,
    words: u32,
) -> RunEnd
    requires powered { power_in world.old ≡ On }
    requires workers { HasAllWorkers world.old.numbers }
    requires plan { IsPlan plan.now }
    requires cut { IsCutPlan cut }
    requires words { words ≡ size_of world.old.numbers.ring }
    ensures { HasRun cut plan.now world.old queue.old result world.new queue.new }
{
    match cut {
        None => run_unarmed(world, queue, plan),
        Some(cut) => run_armed(world, queue, plan, cut, words),
    }
}
