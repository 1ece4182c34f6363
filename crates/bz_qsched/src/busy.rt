//! Who has something to do: the world tells whose call is open, and the queue whose call waits.
ghost use Rattle.std.specs.Prelude.{◌≡◌, is_some};
ghost use Rattle.bz_ring.specs.Calls.{open_call};
ghost use Rattle.bz_qsched.specs.Points.{is_busy};
ghost use Rattle.bz_qsched.specs.Runs.{point_of};

use crate::waiting::Waiting;
use bz_queue::QueueWorld;

/// Whether a call of a worker is open.
pub(crate) fn has_open(world: &QueueWorld, w: u8) -> bool
    ensures { result ≡ is_some (open_call w world.now.log.past) }
{
    match world.open_call(w) {
        Some(_) => true,
        None => false,
    }
}

/// Whether a call of a worker is open, or one waits for it.
pub(crate) fn has_work(world: &QueueWorld, queue: &Waiting, w: u8) -> bool
    ensures { result ≡ is_busy w (point_of world.now queue.now) }
{
    has_open(world, w) || queue.waiting(w)
}
