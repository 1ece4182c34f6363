//! Runs of one worker after the other.
ghost use Rattle.bz_qsched.specs.Fuses.{with_fuse};
ghost use Rattle.bz_qsched.specs.Runs.{IsOneOfAll, IsReady, EndsBy};
ghost use Rattle.bz_qsched.specs.Turns.{EndsOne, EndsAlone};
ghost use Rattle.bz_qsched.specs.TurnsInPart.{EndsOneInPart, EndsAloneInPart};

use crate::busy::has_work;
use crate::turn::{Turned, take_turn};
use crate::waiting::Waiting;
use bz_queue::QueueWorld;

// Takes turns of a worker until it has nothing to do.
fn end_worker(world: &mut QueueWorld, queue: &mut Waiting, fuse: &mut Option<u32>, w: u8) -> Turned
    requires worker { IsOneOfAll w }
    requires ready { IsReady world.old }
    ensures ends { EndsBy (EndsOne w) (λ why. EndsOneInPart why w) world.old (with_fuse queue.old fuse.old) result world.new (with_fuse queue.new fuse.new) }
{
    while has_work(world, queue, w) {
        match take_turn(world, queue, fuse, w) {
            Turned::Finished => {}
            Turned::Stopped(why) => return Turned::Stopped(why),
        }
    }
    Turned::Finished
}

/// Takes the turns of all workers, worker by worker.
pub(crate) fn run_alone(
    world: &mut QueueWorld,
    queue: &mut Waiting,
    fuse: &mut Option<u32>,
) -> Turned
    requires ready { IsReady world.old }
    ensures ends { EndsBy EndsAlone EndsAloneInPart world.old (with_fuse queue.old fuse.old) result world.new (with_fuse queue.new fuse.new) }
{
    for w in 1..65u8 {
        match end_worker(world, queue, fuse, w) {
            Turned::Finished => {}
            Turned::Stopped(why) => return Turned::Stopped(why),
        }
    }
    Turned::Finished
}
