//! Power on.
ghost use Rattle.std.specs.Prelude.{IsTrue, ◌↔◌, ◌≡◌, ◌≢◌, ◌<◌, ◌≤◌, true, false, None, Some};
ghost use Rattle.bz_mark.specs.declared.power.Power.TheVariants.{Off, Recovering};
ghost use Rattle.bz_world.specs.Numbers.{AreNumbersKept};
ghost use Rattle.bz_world.specs.WorldView.{power_in, recovery_acts};
ghost use Rattle.bz_sched.specs.Cutting.{HasNoPlace};
ghost use Rattle.bz_sched.specs.Enough.{IsFew, ComesOn};
ghost use Rattle.bz_sched.specs.Powering.{IsOff, IsOn, IsStarted, StartStopped, EndsRecovery, HasRecovered};
ghost use Rattle.bz_sched.specs.Runs.{IsCutPlan, HasPower, marks_left};
ghost use Rattle.bz_sched.specs.declared.turn.Turned.TheVariants.{Finished};

use crate::cut::cut_off;
use crate::fuse::{burn, lets};
use crate::running::RunEnd;
use crate::turn::{Stop, Turned};
use bz_mark::Power;
use bz_script::CutPlan;
use bz_world::{Applied, Event, LimitKind, World};

// Cuts the power where it is on, and tells whether a place was left in the journal for that.
fn turn_off(world: &mut World) -> bool
    requires { power_in world.old ≢ Recovering }
    ensures off { result ≡ true → IsOff world.old world.new }
    ensures refused { result ≡ false → HasNoPlace world.old world.new }
{
    match world.power() {
        Power::Off => true,
        Power::On => match world.apply(Event::Cut) {
            Applied::Cut => true,
            Applied::Limit => false,
            _ => unreachable!(),
        },
        Power::Recovering => unreachable!(),
    }
}

// Turns the power on where it is off, and tells whether a place was left in the journal for that.
fn turn_on(world: &mut World) -> bool
    requires { power_in world.old ≡ Off }
    ensures on { result ≡ true → IsOn world.old world.new }
    ensures refused { result ≡ false → HasNoPlace world.old world.new }
{
    match world.apply(Event::On) {
        Applied::On => true,
        Applied::Limit => false,
        _ => unreachable!(),
    }
}

// Takes a step of the recovery.
fn recover_once(world: &mut World, fuse: &mut Option<u32>) -> Turned
    requires { power_in world.old ≡ Recovering }
    ensures ends { EndsRecovery world.old fuse.old result world.new fuse.new }
    ensures left { result ≡ Finished → marks_left world.new < marks_left world.old }
{
    let fence = world.flush_next(0);
    if !lets(*fuse, fence) {
        return Turned::Stopped(Stop::Due(0));
    }
    match world.apply(Event::Step(0)) {
        Applied::Stepped | Applied::Ready => {
            burn(fuse, fence);
            Turned::Finished
        }
        Applied::Limit => Turned::Stopped(Stop::Limit(LimitKind::Marks)),
        _ => unreachable!(),
    }
}

fn is_recovering(world: &World) -> bool
    ensures { IsTrue result ↔ (power_in world.now ≡ Recovering) }
{
    matches!(world.power(), Power::Recovering)
}

// Takes the steps of the recovery, to its end.
fn recover(world: &mut World, fuse: &mut Option<u32>) -> Turned
    requires { power_in world.old ≡ Recovering }
    ensures ends { HasRecovered world.old fuse.old result world.new fuse.new }
    ensures few { recovery_acts world.old ≡ 0 → IsFew world.old result world.new }
{
    while is_recovering(world) {
        world.journal();
        match recover_once(world, fuse) {
            Turned::Finished => {}
            Turned::Stopped(why) => return Turned::Stopped(why),
        }
    }
    Turned::Finished
}

// Turns the power on, after a cut where it is on, and tells whether places were left in the journal for that.
fn start_recovery(world: &mut World) -> bool
    requires { power_in world.old ≢ Recovering }
    ensures started { result ≡ true → IsStarted world.old world.new }
    ensures stopped { result ≡ false → StartStopped world.old world.new }
{
    if !turn_off(world) {
        return false;
    }
    turn_on(world)
}

// Turns the power on with no cut armed.
fn power_unarmed(world: &mut World) -> RunEnd
    requires { power_in world.old ≢ Recovering }
    ensures ends { HasPower None world.old result world.new }
    ensures enough { ComesOn None world.old result world.new }
{
    // (none of the slots that the tree reaches is free)
    let _ = world.left();
    if !start_recovery(world) {
        return RunEnd::Limit(LimitKind::Marks);
    }
    let mut fuse = None;
    match recover(world, &mut fuse) {
        Turned::Finished => RunEnd::Finished,
        Turned::Stopped(Stop::Limit(which)) => RunEnd::Limit(which),
        Turned::Stopped(Stop::Due(_)) => unreachable!(),
    }
}

// Turns the power on with a cut armed.
fn power_armed(world: &mut World, cut: CutPlan) -> RunEnd
    requires steady { power_in world.old ≢ Recovering }
    requires cut { 1 ≤ cut.flush }
    ensures { HasPower (Some cut) world.old result world.new }
{
    if !start_recovery(world) {
        return RunEnd::Limit(LimitKind::Marks);
    }
    let mut fuse = Some(cut.flush - 1);
    match recover(world, &mut fuse) {
        Turned::Finished => RunEnd::Finished,
        Turned::Stopped(Stop::Limit(which)) => RunEnd::Limit(which),
        Turned::Stopped(Stop::Due(_)) => cut_off(world, cut.seed),
    }
}

// Turns the power on with the cut that is armed, if one is.
fn power_by(world: &mut World, cut: Option<CutPlan>) -> RunEnd
    requires steady { power_in world.old ≢ Recovering }
    requires cut { IsCutPlan cut }
    ensures ends { HasPower cut world.old result world.new }
    ensures enough { ComesOn cut world.old result world.new }
{
    match cut {
        None => power_unarmed(world),
        Some(cut) => power_armed(world, cut),
    }
}

/// Turns the power on and lets worker 0 recover to the end. Where the power is on it is cut before, without evictions, and the
/// calls that wait stay. Where a cut is armed, the power is cut again before that fence of the recovery is made: the caller
/// then drops the calls that wait. A recovery that ends before it makes no cut. With no cut armed the power comes on where the
/// journal has room for the acts of a recovery and `MARKS_PER_POWER_ON` marks more.
pub fn power(world: &mut World, cut: Option<CutPlan>) -> RunEnd
    requires steady { power_in world.old ≢ Recovering }
    requires cut { IsCutPlan cut }
    ensures ends { HasPower cut world.old result world.new }
    ensures enough { ComesOn cut world.old result world.new }
    // the leaves come and go as they may, and what a call took beside which no other was open is what its reply tells
    ensures numbers { AreNumbersKept world.new.config world.new.at_start world.new.log }
{
    let end = power_by(world, cut);
    world.journal();
    end
}
