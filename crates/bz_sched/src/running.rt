//! Runs.
ghost use Rattle.std.specs.Prelude.{◌≡◌, ◌≢◌, ◌≤◌, ℕ, None, Some};
ghost use Rattle.bz_layout.specs.Addresses.{words_of};
ghost use Rattle.bz_script.specs.RunLaws.{IsPlan};
ghost use Rattle.bz_script.specs.declared.item.Plan.TheVariants.{Alone};
ghost use Rattle.bz_mark.specs.declared.power.Power.TheVariants.{Off, On};
ghost use Rattle.bz_world.specs.Numbers.{AreNumbersKept};
ghost use Rattle.bz_world.specs.WorldView.{power_in};
ghost use Rattle.bz_sched.specs.Cutting.{IsCutRun};
ghost use Rattle.bz_sched.specs.Enough.{Bounds, IsBetweenCalls, ServesAll};
ghost use Rattle.bz_sched.specs.Fuses.{with_fuse};
ghost use Rattle.bz_sched.specs.Plans.{RunsBy, RunsByInPart};
ghost use Rattle.bz_sched.specs.Runs.{HasAllWorkers, IsReady, EndsBy, IsOfTurns, IsCutPlan, HasRun};
ghost use Rattle.bz_sched.specs.declared.turn.Turned.TheVariants.{Finished};

use crate::alone::run_alone;
use crate::cut::cut_off;
use crate::draws::run_turns;
use crate::list::run_list;
use crate::queue::Queue;
use crate::turn::{Stop, Turned};
use bz_script::{CutPlan, Plan};
use bz_world::{LimitKind, World};

/// How a run, or power on, ended.
#[derive(Clone, Copy, PartialEq, Eq)]
pub enum RunEnd {
    /// The plan is done, or the recovery has ended.
    Finished,

    /// The power was cut where a cut was armed.
    Cut,

    /// A limit of the journal was met, and one more was needed.
    Limit(LimitKind),
}

// Takes the turns of a plan.
fn run_plan(world: &mut World, queue: &mut Queue, fuse: &mut Option<u32>, plan: &Plan) -> Turned
    requires plan { IsPlan plan.now × IsOfTurns plan.now }
    requires ready { IsReady world.old }
    ensures ends { EndsBy (RunsBy (words_of world.old.config) plan.now) (λ why. RunsByInPart why (words_of world.old.config) plan.now) world.old (with_fuse queue.old fuse.old) result world.new (with_fuse queue.new fuse.new) }
    ensures enough { plan.now ≡ Alone → (most : Bounds) → IsBetweenCalls most world.old queue.old.calls fuse.old → (result ≡ Finished) × IsBetweenCalls most world.new queue.new.calls fuse.new }
{
    match plan {
        Plan::Alone => run_alone(world, queue, fuse),
        Plan::List(turns) => run_list(world, queue, fuse, turns.turns()),
        Plan::Turns(seed) => run_turns(world, queue, fuse, *seed),
        Plan::Threads => unreachable!(),
    }
}

// Runs with no cut armed.
fn run_unarmed(world: &mut World, queue: &mut Queue, plan: &Plan) -> RunEnd
    requires plan { IsPlan plan.now × IsOfTurns plan.now }
    requires ready { IsReady world.old }
    ensures ends { HasRun None plan.now world.old queue.old result world.new queue.new }
    ensures enough { ServesAll None plan.now world.old queue.old result world.new queue.new }
{
    let mut fuse = None;
    match run_plan(world, queue, &mut fuse, plan) {
        Turned::Finished => RunEnd::Finished,
        Turned::Stopped(Stop::Limit(which)) => RunEnd::Limit(which),
        Turned::Stopped(Stop::Due(_)) => unreachable!(),
    }
}

// Cuts the power, and drops the calls that wait.
fn cut_run(world: &mut World, queue: &mut Queue, seed: u64) -> RunEnd
    requires powered { power_in world.old ≢ Off }
    ensures { IsCutRun seed world.old queue.old result world.new queue.new }
{
    let end = cut_off(world, seed);
    if let RunEnd::Cut = end {
        queue.clear();
    }
    end
}

// Runs with a cut armed.
fn run_armed(world: &mut World, queue: &mut Queue, plan: &Plan, cut: CutPlan) -> RunEnd
    requires plan { IsPlan plan.now × IsOfTurns plan.now }
    requires ready { IsReady world.old }
    requires cut { 1 ≤ cut.flush }
    ensures { HasRun (Some cut) plan.now world.old queue.old result world.new queue.new }
{
    let mut fuse = Some(cut.flush - 1);
    match run_plan(world, queue, &mut fuse, plan) {
        Turned::Finished => RunEnd::Finished,
        Turned::Stopped(Stop::Limit(which)) => RunEnd::Limit(which),
        Turned::Stopped(Stop::Due(_)) => cut_run(world, queue, cut.seed),
    }
}

// Runs with the cut that is armed, if one is.
fn run_by(world: &mut World, queue: &mut Queue, plan: &Plan, cut: Option<CutPlan>) -> RunEnd
    requires plan { IsPlan plan.now × IsOfTurns plan.now }
    requires ready { IsReady world.old }
    requires cut { IsCutPlan cut }
    ensures ends { HasRun cut plan.now world.old queue.old result world.new queue.new }
    ensures enough { ServesAll cut plan.now world.old queue.old result world.new queue.new }
{
    match cut {
        None => run_unarmed(world, queue, plan),
        Some(cut) => run_armed(world, queue, plan, cut),
    }
}

/// Runs the calls that wait, and those that are open, by a plan. Where a cut is armed, the power is cut before that fence of the
/// run is made, and the calls that wait are dropped; a run that ends before it makes no cut. A run of one worker after the other
/// meets no limit, with no cut armed, where no call is open and the journal has room for all that wait: `MARKS_PER_CALL` marks each.
pub fn run(world: &mut World, queue: &mut Queue, plan: &Plan, cut: Option<CutPlan>) -> RunEnd
    requires powered { power_in world.old ≡ On }
    requires workers { HasAllWorkers world.old.config }
    requires plan { IsPlan plan.now × IsOfTurns plan.now }
    requires cut { IsCutPlan cut }
    ensures ends { HasRun cut plan.now world.old queue.old result world.new queue.new }
    ensures enough { ServesAll cut plan.now world.old queue.old result world.new queue.new }
    // the leaves come and go as they may, and what a call took beside which no other was open is what its reply tells
    ensures numbers { AreNumbersKept world.new.config world.new.at_start world.new.log }
{
    let end = run_by(world, queue, plan, cut);
    world.journal();
    end
}
