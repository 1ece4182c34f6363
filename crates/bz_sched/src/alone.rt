//! Runs of one worker after the other.
ghost use Rattle.std.specs.Prelude.{◌≡◌, ℕ};
ghost use Rattle.bz_sched.specs.Enough.{Bounds, IsBetweenCalls};
ghost use Rattle.bz_sched.specs.Fuses.{with_fuse};
ghost use Rattle.bz_sched.specs.Runs.{IsOneOfAll, IsReady, EndsBy};
ghost use Rattle.bz_sched.specs.Turns.{EndsOne, EndsAlone};
ghost use Rattle.bz_sched.specs.TurnsInPart.{EndsOneInPart, EndsAloneInPart};
ghost use Rattle.bz_sched.specs.declared.turn.Turned.TheVariants.{Finished};

use crate::busy::has_work;
use crate::queue::Queue;
use crate::turn::{Turned, take_turn};
use bz_world::World;

// Takes turns of a worker until it has nothing to do.
fn end_worker(world: &mut World, queue: &mut Queue, fuse: &mut Option<u32>, w: u8) -> Turned
    requires worker { IsOneOfAll w }
    requires ready { IsReady world.old }
    ensures ends { EndsBy (EndsOne w) (λ why. EndsOneInPart why w) world.old (with_fuse queue.old fuse.old) result world.new (with_fuse queue.new fuse.new) }
    ensures enough { (most : Bounds) → IsBetweenCalls most world.old queue.old.calls fuse.old → (result ≡ Finished) × IsBetweenCalls most world.new queue.new.calls fuse.new }
{
    while has_work(world, queue, w) {
        match take_turn(world, queue, fuse, w) {
            Turned::Finished => {}
            Turned::Stopped(why) => return Turned::Stopped(why),
        }
    }
    Turned::Finished
}

/// Takes the turns of all workers, worker by worker.
pub(crate) fn run_alone(world: &mut World, queue: &mut Queue, fuse: &mut Option<u32>) -> Turned
    requires ready { IsReady world.old }
    ensures ends { EndsBy EndsAlone EndsAloneInPart world.old (with_fuse queue.old fuse.old) result world.new (with_fuse queue.new fuse.new) }
    ensures enough { (most : Bounds) → IsBetweenCalls most world.old queue.old.calls fuse.old → (result ≡ Finished) × IsBetweenCalls most world.new queue.new.calls fuse.new }
{
    for w in 1..65u8 {
        match end_worker(world, queue, fuse, w) {
            Turned::Finished => {}
            Turned::Stopped(why) => return Turned::Stopped(why),
        }
    }
    Turned::Finished
}
