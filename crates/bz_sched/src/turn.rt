//! One turn of a worker.
ghost use Rattle.std.specs.Prelude.{◌≡◌, ◌≢◌, ◌<◌, ◌≤◌, ℕ, List, [], is_some, true, false, Option, None};
ghost use Rattle.bz_call.specs.declared.calls.Call.{Call};
ghost use Rattle.bz_sched.specs.Enough.{Bounds, HasRoomFor, AwaitsCalls, IsInCall, GoesOnAlone};
ghost use Rattle.bz_sound.specs.Calls.{open_call};
ghost use Rattle.bz_sched.specs.Fuses.{with_fuse};
ghost use Rattle.bz_sched.specs.Points.{is_busy, GetsReady, TakesStep, IsTurn};
ghost use Rattle.bz_sched.specs.Queued.{Queued, calls_of};
ghost use Rattle.bz_sched.specs.Runs.{point_of, marks_left, IsOneOfAll, IsReady, EndsBy};
ghost use Rattle.bz_sched.specs.TurnsInPart.{StopsStep, StopsBy, StopsTurn};
ghost use Rattle.bz_sched.specs.declared.turn.Turned.TheVariants.{Finished};

use crate::busy::has_open;
use crate::fuse::{burn, lets};
use crate::queue::Queue;
use bz_world::{Applied, Begun, Event, LimitKind, World};

/// Why the turns of a run stopped before its plan was done.
#[derive(Clone, Copy, PartialEq, Eq)]
pub(crate) enum Stop {
    /// The next act of this worker is the fence at which the power is cut.
    Due(u8),

    /// A limit of the journal was met, and one more was needed.
    Limit(LimitKind),
}

/// How the turns of a run, or a part of them, ended.
#[derive(Clone, Copy, PartialEq, Eq)]
pub(crate) enum Turned {
    Finished,
    Stopped(Stop),
}

// Begins the first call that waits for a worker.
fn begin_next(world: &mut World, queue: &mut Queue, w: u8) -> Turned
    requires worker { IsOneOfAll w }
    requires ready { IsReady world.old }
    requires closed { is_some (open_call w world.old.log.past) ≡ false }
    requires some { calls_of w queue.old.calls ≢ [] }
    ensures ends { (fuse : Option ℕ) → EndsBy (GetsReady w) (λ why. StopsBy why w) world.old (with_fuse queue.old fuse) result world.new (with_fuse queue.new fuse) }
    ensures open { result ≡ Finished → is_some (open_call w world.new.log.past) ≡ true }
    ensures left { marks_left world.new ≤ marks_left world.old }
    ensures enough { (most : Bounds) → HasRoomFor most world.old queue.old.calls → AwaitsCalls most world.old queue.old.calls → (result ≡ Finished) × HasRoomFor most world.new queue.new.calls × IsInCall most w world.new queue.new.calls }
{
    match queue.first(w) {
        Some(call) => match world.begin(w, call) {
            Begun::Begun(_) => {
                queue.leave_out(w);
                Turned::Finished
            }
            Begun::Limit(which) => Turned::Stopped(Stop::Limit(which)),
            Begun::NoWorker | Begun::Busy | Begun::Off | Begun::Recovering => unreachable!(),
        },
        None => unreachable!(),
    }
}

// Has a call of a worker open: begins the first that waits, if none is.
fn get_ready(world: &mut World, queue: &mut Queue, w: u8) -> Turned
    requires worker { IsOneOfAll w }
    requires ready { IsReady world.old }
    requires busy { is_busy w (point_of world.old queue.old) ≡ true }
    ensures ends { (fuse : Option ℕ) → EndsBy (GetsReady w) (λ why. StopsBy why w) world.old (with_fuse queue.old fuse) result world.new (with_fuse queue.new fuse) }
    ensures open { result ≡ Finished → is_some (open_call w world.new.log.past) ≡ true }
    ensures left { marks_left world.new ≤ marks_left world.old }
    ensures enough { (most : Bounds) (fuse : Option ℕ) → GoesOnAlone most w world.old queue.old.calls fuse → (result ≡ Finished) × HasRoomFor most world.new queue.new.calls × IsInCall most w world.new queue.new.calls }
{
    if has_open(world, w) {
        return Turned::Finished;
    }
    begin_next(world, queue, w)
}

// Takes the next step of a worker's open call.
fn step(world: &mut World, fuse: &mut Option<u32>, w: u8) -> Turned
    requires worker { IsOneOfAll w }
    requires ready { IsReady world.old }
    requires open { is_some (open_call w world.old.log.past) ≡ true }
    ensures ends { (queue : Queued) → EndsBy (TakesStep w) (λ why. StopsStep why w) world.old (with_fuse queue fuse.old) result world.new (with_fuse queue fuse.new) }
    ensures left { result ≡ Finished → marks_left world.new < marks_left world.old }
    ensures enough { (most : Bounds) (calls : List (ℕ × Call)) → fuse.old ≡ None → HasRoomFor most world.old calls → IsInCall most w world.old calls → (result ≡ Finished) × GoesOnAlone most w world.new calls fuse.new }
{
    let fence = world.flush_next(w);
    if !lets(*fuse, fence) {
        return Turned::Stopped(Stop::Due(w));
    }
    match world.apply(Event::Step(w)) {
        Applied::Stepped | Applied::Ended(_) => {
            burn(fuse, fence);
            Turned::Finished
        }
        Applied::Limit => Turned::Stopped(Stop::Limit(LimitKind::Marks)),
        _ => unreachable!(),
    }
}

/// Takes a turn of a worker that has something to do.
pub(crate) fn take_turn(
    world: &mut World,
    queue: &mut Queue,
    fuse: &mut Option<u32>,
    w: u8,
) -> Turned
    requires worker { IsOneOfAll w }
    requires ready { IsReady world.old }
    requires busy { is_busy w (point_of world.old queue.old) ≡ true }
    ensures ends { EndsBy (IsTurn w) (λ why. StopsTurn why w) world.old (with_fuse queue.old fuse.old) result world.new (with_fuse queue.new fuse.new) }
    ensures left { result ≡ Finished → marks_left world.new < marks_left world.old }
    ensures enough { (most : Bounds) → GoesOnAlone most w world.old queue.old.calls fuse.old → (result ≡ Finished) × GoesOnAlone most w world.new queue.new.calls fuse.new }
{
    match get_ready(world, queue, w) {
        Turned::Finished => step(world, fuse, w),
        Turned::Stopped(why) => Turned::Stopped(why),
    }
}
