//! A run on threads.
ghost use Rattle.std.specs.Prelude.{◌≡◌, ◌<◌, ◌≤◌, ℕ};
ghost use Rattle.bz_index.specs.Passes.{origin_in, seen_by, IsFree};
ghost use Rattle.bz_layout.specs.declared.limits.TheConstants.{MAX_WORKERS as MOST};
ghost use Rattle.bz_sched.specs.Runs.{HasAllWorkers};
ghost use Rattle.bz_mark.specs.declared.power.Power.TheVariants.{On};
ghost use Rattle.bz_threads.specs.Ends.{HasRunThreads};
ghost use Rattle.bz_threads.specs.Inside.Batches.{IsFirstOf};
ghost use Rattle.bz_threads.specs.Inside.Runs.{HasRunOn, end_of as named};
ghost use Rattle.bz_index.specs.FromWorld.WorldView.{power_in};

use crate::batches::{give_back, join_batches, open_batches, work_all};
use bz_index::{Gate, Index, IndexPass, LimitKind, World};
use bz_layout::MAX_WORKERS;
use bz_oom::Memory;
use bz_sched::{Queue, end_open_calls};
use std::alloc::Global;
use std::sync::Wait;
use std::thread::Threads;

/// How a run on threads ended.
#[derive(Clone, Copy, PartialEq, Eq)]
pub enum ThreadsEnd {
    /// Each call was replied to.
    Finished,

    /// A limit of the journal was met, and one more was needed: that of the lowest worker that met one.
    Limit(LimitKind),

    /// Want of memory, before any thread began.
    Memory,
}

fn end_of(lowest: Option<(u8, LimitKind)>) -> ThreadsEnd
    ensures { result ≡ named lowest }
{
    match lowest {
        Some((_, which)) => ThreadsEnd::Limit(which),
        None => ThreadsEnd::Finished,
    }
}

// Runs the calls that wait, on an index.
fn run_on<G: Gate + Sync, R: Threads + Wait + Sync>(
    rt: &R,
    alloc: Global,
    index: &Index,
    first: &mut IndexPass,
    queue: &mut Queue,
    gate: &G,
) -> ThreadsEnd
    requires first { IsFirstOf index.now first.old }
    requires free { (w : ℕ) → 0 < w → IsFree first.old w }
    requires workers { HasAllWorkers (origin_in index.now).config }
    ensures first { IsFirstOf index.now first.new }
    ensures free { (w : ℕ) → 0 < w → w ≤ MOST → IsFree first.new w }
    ensures room { queue.new.room ≡ queue.old.room }
    ensures end { HasRunOn index.now queue.old.calls (seen_by first.old) first.new result }
{
    let mut batches = match Vec::with_capacity(alloc, MAX_WORKERS as usize) {
        Ok(batches) => batches,
        Err(_) => return ThreadsEnd::Memory,
    };
    match open_batches(alloc, index, first, queue, &mut batches) {
        Ok(()) => {
            work_all(rt, index, &mut batches, gate);
            end_of(join_batches(index, first, &mut batches))
        }
        Err(Memory) => {
            give_back(index, first, &mut batches);
            ThreadsEnd::Memory
        }
    }
}

/// Ends the calls that are open, one worker after the other, and then runs those that wait, each worker's by a thread of its
/// own. All memory is taken before a thread begins. Where no thread can be made the work is done one worker after the other.
/// The gate is told between two acts of a call, and once more with 0 when a worker's calls have all been replied to.
pub fn run_threads<G: Gate + Sync, R: Threads + Wait + Sync>(
    rt: &R,
    alloc: Global,
    world: World,
    queue: &mut Queue,
    gate: &G,
) -> (World, ThreadsEnd)
    requires powered { power_in world ≡ On }
    requires workers { HasAllWorkers world.config }
    ensures { HasRunThreads world queue.old result.1 result.0 queue.new }
{
    let mut world = world;
    match end_open_calls(&mut world) {
        Some(which) => (world, ThreadsEnd::Limit(which)),
        None => match Index::open(alloc, world) {
            Ok((index, mut first)) => {
                let end = run_on(rt, alloc, &index, &mut first, queue, gate);
                queue.clear();
                let world = index.close(first);
                world.journal();
                world.config();
                (world, end)
            }
            Err((world, Memory)) => (world, ThreadsEnd::Memory),
        },
    }
}
