//! Power on.
ghost use Rattle.std.specs.Prelude.{◌≡◌, ◌≢◌, ◌<◌, ◌≤◌, true, false, None, Some};
ghost use Rattle.bz_mark.specs.declared.power.Power.TheVariants.{Off, Recovering};
ghost use Rattle.bz_queue.specs.QueueView.{power_in};
ghost use Rattle.bz_ring.specs.Content.{size_of};
ghost use Rattle.bz_qsched.specs.Cutting.{HasNoPlace};
ghost use Rattle.bz_qsched.specs.Powering.{IsOff, IsOn, IsStarted, StartStopped, RecoveryAnswers, HasRecovered};
ghost use Rattle.bz_qsched.specs.Runs.{IsCutPlan, HasPower, marks_left};

use crate::cut::cut_off;
use crate::fuse::{burn, lets};
use crate::running::RunEnd;
use crate::turn::{Stop, Turned};
use bz_queue::{QApplied, QEvent, QLimit, QueueWorld};
use bz_script::CutPlan;

// Cuts the power where it is on, and tells whether a place was left in the journal for that.
fn turn_off(world: &mut QueueWorld) -> bool
    requires { power_in world.old ≢ Recovering }
    ensures off { result ≡ true → IsOff world.old world.new }
    ensures refused { result ≡ false → HasNoPlace world.old world.new }
{
    match world.apply(QEvent::Cut) {
        QApplied::Cut | QApplied::Off => true,
        QApplied::Limit => false,
        _ => unreachable!(),
    }
}

// Turns the power on where it is off, and tells whether a place was left in the journal for that.
fn turn_on(world: &mut QueueWorld) -> bool
    requires { power_in world.old ≡ Off }
    ensures on { result ≡ true → IsOn world.old world.new }
    ensures refused { result ≡ false → HasNoPlace world.old world.new }
{
    match world.apply(QEvent::On) {
        QApplied::On => true,
        QApplied::Limit => false,
        _ => unreachable!(),
    }
}

// Takes a step of the recovery. Answers how the recovery has ended, if it has.
fn recover_once(world: &mut QueueWorld, fuse: &mut Option<u32>) -> Option<Turned>
    requires { power_in world.old ≡ Recovering }
    ensures answers { RecoveryAnswers world.old fuse.old result world.new fuse.new }
    ensures left { result ≡ None → marks_left world.new < marks_left world.old }
{
    let fence = world.flush_next(0);
    if !lets(*fuse, fence) {
        return Some(Turned::Stopped(Stop::Due(0)));
    }
    match world.apply(QEvent::Step(0)) {
        QApplied::Stepped => {
            burn(fuse, fence);
            None
        }
        QApplied::Ready => {
            burn(fuse, fence);
            Some(Turned::Finished)
        }
        QApplied::Limit => Some(Turned::Stopped(Stop::Limit(QLimit::Marks))),
        _ => unreachable!(),
    }
}

// Takes the steps of the recovery, to its end.
fn recover(world: &mut QueueWorld, fuse: &mut Option<u32>) -> Turned
    requires { power_in world.old ≡ Recovering }
    ensures { HasRecovered world.old fuse.old result world.new fuse.new }
{
    loop {
        if let Some(end) = recover_once(world, fuse) {
            return end;
        }
    }
}

// Turns the power on, after a cut where it is on, and tells whether places were left in the journal for that.
fn start_recovery(world: &mut QueueWorld) -> bool
    requires { power_in world.old ≢ Recovering }
    ensures started { result ≡ true → IsStarted world.old world.new }
    ensures stopped { result ≡ false → StartStopped world.old world.new }
{
    if !turn_off(world) {
        return false;
    }
    turn_on(world)
}

// Turns the power on with no cut armed.
fn power_unarmed(world: &mut QueueWorld) -> RunEnd
    requires { power_in world.old ≢ Recovering }
    ensures { HasPower None world.old result world.new }
{
    if !start_recovery(world) {
        return RunEnd::Limit(QLimit::Marks);
    }
    let mut fuse = None;
    match recover(world, &mut fuse) {
        Turned::Finished => RunEnd::Finished,
        Turned::Stopped(Stop::Limit(which)) => RunEnd::Limit(which),
        Turned::Stopped(Stop::Due(_)) => unreachable!(),
    }
}

// Turns the power on with a cut armed.
fn power_armed(world: &mut QueueWorld, cut: CutPlan, words: u32) -> RunEnd
    requires steady { power_in world.old ≢ Recovering }
    requires cut { 1 ≤ cut.flush }
    requires words { words ≡ size_of world.old.numbers.ring }
    ensures { HasPower (Some cut) world.old result world.new }
{
    if !start_recovery(world) {
        return RunEnd::Limit(QLimit::Marks);
    }
    let mut fuse = Some(cut.flush - 1);
    match recover(world, &mut fuse) {
        Turned::Finished => RunEnd::Finished,
        Turned::Stopped(Stop::Limit(which)) => RunEnd::Limit(which),
        Turned::Stopped(Stop::Due(_)) => cut_off(world, cut.seed, words),
    }
}

/// Turns the power on and lets worker 0 recover to the end. Where the power is on it is cut before, without evictions, and the
/// calls that wait stay. Where a cut is armed, the power is cut again before that fence of the recovery is made: the caller
/// then drops the calls that wait. A recovery that ends before it makes no cut.
pub fn power(world: &mut QueueWorld, cut: Option<CutPlan>, words: u32) -> RunEnd
    requires steady { power_in world.old ≢ Recovering }
    requires cut { IsCutPlan cut }
    requires words { words ≡ size_of world.old.numbers.ring }
    ensures { HasPower cut world.old result world.new }
{
    match cut {
        None => power_unarmed(world),
        Some(cut) => power_armed(world, cut, words),
    }
}
