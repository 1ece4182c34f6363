//! The calls that are open, ended one worker after the other.
ghost use Rattle.std.specs.Prelude.{◌≡◌};
ghost use Rattle.bz_mark.specs.declared.power.Power.TheVariants.{On};
ghost use Rattle.bz_world.specs.WorldView.{power_in};
ghost use Rattle.bz_sched.specs.OpenCalls.{EndsCall, EndsCalls, EndsCallInPart, EndsCallsInPart};
ghost use Rattle.bz_sched.specs.Queued.{Queued};
ghost use Rattle.bz_sched.specs.Runs.{HasAllWorkers, IsOneOfAll, IsReady, EndsOpenBy, HasEndedCalls};

use crate::busy::has_open;
use bz_world::{Applied, LimitKind, World};

// Ends the call of a worker that is open, if one is: the worker steps alone.
fn end_call(world: &mut World, w: u8) -> Option<LimitKind>
    requires worker { IsOneOfAll w }
    requires ready { IsReady world.old }
    ensures { EndsOpenBy (EndsCall w) (λ why. EndsCallInPart why w) world.old result world.new }
{
    if !has_open(world, w) {
        return None;
    }
    match world.solo(w) {
        Applied::Ended(_) => None,
        Applied::Limit => Some(LimitKind::Marks),
        _ => unreachable!(),
    }
}

// The same for all workers.
fn end_calls(world: &mut World) -> Option<LimitKind>
    requires ready { IsReady world.old }
    ensures { EndsOpenBy EndsCalls EndsCallsInPart world.old result world.new }
{
    for w in 1..65u8 {
        match end_call(world, w) {
            None => {}
            Some(which) => return Some(which),
        }
    }
    None
}

/// Ends the calls that are open, one worker after the other, and begins none, whatever calls wait. Tells the limit that was met, if
/// one was.
pub fn end_open_calls(world: &mut World) -> Option<LimitKind>
    requires powered { power_in world.old ≡ On }
    requires workers { HasAllWorkers world.old.config }
    ensures { (queued : Queued) → HasEndedCalls world.old queued result world.new queued }
{
    match end_calls(world) {
        None => {
            world.journal();
            world.config();
            None
        }
        Some(which) => Some(which),
    }
}
