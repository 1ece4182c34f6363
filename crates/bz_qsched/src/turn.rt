//! One turn of a worker.
ghost use Rattle.std.specs.Prelude.{◌≡◌, ◌≢◌, ◌<◌, ◌≤◌, ℕ, [], is_some, true, false, Option};
ghost use Rattle.bz_ring.specs.Calls.{open_call};
ghost use Rattle.bz_qsched.specs.Fuses.{with_fuse};
ghost use Rattle.bz_qsched.specs.Points.{is_busy, GetsReady, TakesStep, IsTurn};
ghost use Rattle.bz_qsched.specs.Queued.{Queued, calls_of};
ghost use Rattle.bz_qsched.specs.Runs.{point_of, marks_left, IsOneOfAll, IsReady, EndsBy};
ghost use Rattle.bz_qsched.specs.TurnsInPart.{StopsStep, StopsBy, StopsTurn};
ghost use Rattle.bz_qsched.specs.declared.turn.Turned.TheVariants.{Finished};

use crate::busy::has_open;
use crate::fuse::{burn, lets};
use crate::waiting::Waiting;
use bz_queue::{QApplied, QBegun, QEvent, QLimit, QueueWorld};

/// Why the turns of a run stopped before its plan was done.
#[derive(Clone, Copy, PartialEq, Eq)]
pub(crate) enum Stop {
    /// The next act of this worker is the fence at which the power is cut.
    Due(u8),

    /// A limit of the journal was met, and one more was needed.
    Limit(QLimit),
}

/// How the turns of a run, or a part of them, ended.
#[derive(Clone, Copy, PartialEq, Eq)]
pub(crate) enum Turned {
    Finished,
    Stopped(Stop),
}

// Begins the first call that waits for a worker.
fn begin_next(world: &mut QueueWorld, queue: &mut Waiting, w: u8) -> Turned
    requires worker { IsOneOfAll w }
    requires ready { IsReady world.old }
    requires closed { is_some (open_call w world.old.log.past) ≡ false }
    requires some { calls_of w queue.old.calls ≢ [] }
    ensures ends { (fuse : Option ℕ) → EndsBy (GetsReady w) (λ why. StopsBy why w) world.old (with_fuse queue.old fuse) result world.new (with_fuse queue.new fuse) }
    ensures open { result ≡ Finished → is_some (open_call w world.new.log.past) ≡ true }
    ensures left { marks_left world.new ≤ marks_left world.old }
{
    match queue.first(w) {
        Some(call) => match world.begin(w, call) {
            QBegun::Begun(_) => {
                queue.leave_out(w);
                Turned::Finished
            }
            QBegun::Limit(which) => Turned::Stopped(Stop::Limit(which)),
            QBegun::NoWorker | QBegun::Busy | QBegun::Off | QBegun::Recovering => unreachable!(),
        },
        None => unreachable!(),
    }
}

// Has a call of a worker open: begins the first that waits, if none is.
fn get_ready(world: &mut QueueWorld, queue: &mut Waiting, w: u8) -> Turned
    requires worker { IsOneOfAll w }
    requires ready { IsReady world.old }
    requires busy { is_busy w (point_of world.old queue.old) ≡ true }
    ensures ends { (fuse : Option ℕ) → EndsBy (GetsReady w) (λ why. StopsBy why w) world.old (with_fuse queue.old fuse) result world.new (with_fuse queue.new fuse) }
    ensures open { result ≡ Finished → is_some (open_call w world.new.log.past) ≡ true }
    ensures left { marks_left world.new ≤ marks_left world.old }
{
    if has_open(world, w) {
        return Turned::Finished;
    }
    begin_next(world, queue, w)
}

// Takes the next step of a worker's open call.
fn step(world: &mut QueueWorld, fuse: &mut Option<u32>, w: u8) -> Turned
    requires worker { IsOneOfAll w }
    requires ready { IsReady world.old }
    requires open { is_some (open_call w world.old.log.past) ≡ true }
    ensures ends { (queue : Queued) → EndsBy (TakesStep w) (λ why. StopsStep why w) world.old (with_fuse queue fuse.old) result world.new (with_fuse queue fuse.new) }
    ensures left { result ≡ Finished → marks_left world.new < marks_left world.old }
{
    let fence = world.flush_next(w);
    if !lets(*fuse, fence) {
        return Turned::Stopped(Stop::Due(w));
    }
    match world.apply(QEvent::Step(w)) {
        QApplied::Stepped | QApplied::Ended(_) => {
            burn(fuse, fence);
            Turned::Finished
        }
        QApplied::Limit => Turned::Stopped(Stop::Limit(QLimit::Marks)),
        _ => unreachable!(),
    }
}

/// Takes a turn of a worker that has something to do.
pub(crate) fn take_turn(
    world: &mut QueueWorld,
    queue: &mut Waiting,
    fuse: &mut Option<u32>,
    w: u8,
) -> Turned
    requires worker { IsOneOfAll w }
    requires ready { IsReady world.old }
    requires busy { is_busy w (point_of world.old queue.old) ≡ true }
    ensures ends { EndsBy (IsTurn w) (λ why. StopsTurn why w) world.old (with_fuse queue.old fuse.old) result world.new (with_fuse queue.new fuse.new) }
    ensures left { result ≡ Finished → marks_left world.new < marks_left world.old }
{
    match get_ready(world, queue, w) {
        Turned::Finished => step(world, fuse, w),
        Turned::Stopped(why) => Turned::Stopped(why),
    }
}
