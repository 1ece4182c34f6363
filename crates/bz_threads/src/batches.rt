//! The batches of all workers with calls that wait: opened before a thread begins, done by threads, and joined.
ghost use Rattle.std.specs.Prelude.{◌≡◌, ◌≢◌, ◌<◌, ◌≤◌, ◌⊎◌, ◌↔◌, [], ℕ, List, All, IfOk, IfErr, length, slice_index_or, vec_capacity, None};
ghost use Rattle.bz_call.specs.declared.calls.Call.{Call};
ghost use Rattle.bz_index.specs.Passes.{origin_in, worker_of, seen_by, IsFree, IsPassOf};
ghost use Rattle.bz_index.specs.declared.shared.IndexEntry.{IndexEntry};
ghost use Rattle.bz_layout.specs.declared.limits.TheConstants.{MAX_WORKERS as MOST};
ghost use Rattle.bz_sched.specs.Queued.{calls_of};
ghost use Rattle.bz_sched.specs.Runs.{HasAllWorkers};
ghost use Rattle.bz_threads.specs.Inside.Batches.{paired, IsFirstOf, IsWorkers, IsOpened, HasWorked, HasBatch, CoversWorkers, IsJoined, lower_of, lowered};
ghost use Rattle.bz_threads.specs.declared.batch.Batch.{Batch};

use crate::batch::Batch;
use bz_call::Call;
use bz_index::{Answer, Gate, Index, IndexPass, LimitKind};
use bz_key::PageBuf;
use bz_layout::MAX_WORKERS;
use bz_oom::Memory;
use bz_sched::Queue;
use std::alloc::Global;
use std::sync::Wait;
use std::thread;
use std::thread::Threads;

// Takes the calls that wait for a worker out of the queue.
fn take_calls(alloc: Global, queue: &mut Queue, worker: u8) -> Result<Vec<Call, Global>, Memory>
    ensures room { queue.new.room ≡ queue.old.room }
    ensures others { (w : ℕ) → w ≢ worker → calls_of w queue.new.calls ≡ calls_of w queue.old.calls }
    ensures calls { IfOk result (λ calls. paired worker calls.items ≡ calls_of worker queue.old.calls) }
{
    let mut calls = Vec::new(alloc);
    while let Some(call) = queue.take(worker) {
        calls.push(call)?;
    }
    Ok(calls)
}

// The batch of a worker. Where there is no memory no pass has it.
fn open_batch(
    alloc: Global,
    index: &Index,
    first: &mut IndexPass,
    queue: &mut Queue,
    worker: u8,
) -> Result<Batch, Memory>
    requires first { IsFirstOf index.now first.old }
    requires worker { (0 < worker) × (worker ≤ MOST) × (worker ≤ (origin_in index.now).config.workers) × IsFree first.old worker }
    ensures first { IsFirstOf index.now first.new × (seen_by first.new ≡ seen_by first.old) }
    ensures free { (w : ℕ) → w ≢ worker → IsFree first.old w → IsFree first.new w }
    ensures none { IfErr result (λ _. IsFree first.new worker) }
    ensures room { queue.new.room ≡ queue.old.room }
    ensures others { (w : ℕ) → w ≢ worker → calls_of w queue.new.calls ≡ calls_of w queue.old.calls }
    ensures batch { IfOk result (λ batch. IsOpened index.now queue.old.calls (seen_by first.old) batch × (worker_of batch.pass ≡ worker)) }
{
    let calls = take_calls(alloc, queue, worker)?;
    let page = PageBuf::open(alloc)?;
    let pass = index.split(first, worker);
    Ok(Batch {
        pass,
        calls,
        page,
        stopped: None,
    })
}

/// The batches of all workers with calls that wait, which are taken out of the queue.
pub(crate) fn open_batches(
    alloc: Global,
    index: &Index,
    first: &mut IndexPass,
    queue: &mut Queue,
    batches: &mut Vec<Batch, Global>,
) -> Result<(), Memory>
    requires first { IsFirstOf index.now first.old }
    requires free { (w : ℕ) → 0 < w → IsFree first.old w }
    requires workers { HasAllWorkers (origin_in index.now).config }
    requires none { batches.old.items ≡ [] }
    requires room { MOST ≤ vec_capacity batches.old }
    ensures first { IsFirstOf index.now first.new × (seen_by first.new ≡ seen_by first.old) }
    ensures batches { All (IsOpened index.now queue.old.calls (seen_by first.old)) batches.new.items }
    ensures covers { CoversWorkers batches.new.items first.new }
    ensures idle { IfOk result (λ _. (w : ℕ) → 0 < w → w ≤ MOST → HasBatch w batches.new.items ⊎ (IsFree first.new w × (calls_of w queue.old.calls ≡ []))) }
    ensures room { queue.new.room ≡ queue.old.room }
{
    for worker in 1..MAX_WORKERS as u8 + 1 {
        if !queue.waiting(worker) {
            continue;
        }
        let batch = open_batch(alloc, index, first, queue, worker)?;
        batches.push_reserved(batch);
    }
    Ok(())
}

/// Does each batch in a thread of its own, or one after the other where no thread can be made. It takes no memory.
pub(crate) fn work_all<G: Gate + Sync, R: Threads + Wait + Sync>(
    rt: &R,
    index: &Index,
    batches: &mut [Batch],
    gate: &G,
)
    requires { All (λ j. IsPassOf index.now j.pass × (0 < worker_of j.pass)) batches.old }
    ensures { (i : ℕ) (d : Batch) → i < length batches.old → HasWorked index.now (slice_index_or batches.old i d) (slice_index_or batches.new i d) }
{
    let many = batches.len();
    if many == 0 {
        return;
    }
    thread::for_each_mut(
        rt,
        batches,
        many,
        &|_, batch: &mut Batch|
            requires { IsPassOf index.now batch.now.pass × (0 < worker_of batch.now.pass) }
            ensures { HasWorked index.entry.now batch.entry.now batch.exit.now }
        { batch.work(rt, index, gate) },
    );
}

// The limit of the lower worker.
fn lower(lowest: Option<(u8, LimitKind)>, worker: u8, which: LimitKind) -> Option<(u8, LimitKind)>
    ensures { result ≡ lower_of lowest worker which }
{
    match lowest {
        None => Some((worker, which)),
        Some((other, limit)) => {
            if other < worker {
                Some((other, limit))
            } else {
                Some((worker, which))
            }
        }
    }
}

// The lowest worker that met a limit, and that limit, once one more is asked.
fn lowest_of(
    lowest: Option<(u8, LimitKind)>,
    worker: u8,
    stopped: Option<Answer>,
) -> Option<(u8, LimitKind)>
    ensures { result ≡ lowered lowest worker stopped }
{
    match stopped {
        Some(Answer::Limit(which)) => lower(lowest, worker, which),
        Some(Answer::Reply(_)) => lowest,
        Some(Answer::Off) => lowest,
        Some(Answer::Recovering) => lowest,
        None => lowest,
    }
}

/// Joins the passes of batches that are done. The lowest worker that met a limit, and that limit.
pub(crate) fn join_batches(
    index: &Index,
    first: &mut IndexPass,
    batches: &mut Vec<Batch, Global>,
) -> Option<(u8, LimitKind)>
    requires first { IsFirstOf index.now first.old }
    requires batches { All (λ j. IsWorkers index.now j.pass) batches.old.items }
    ensures { (waiting : List (ℕ × Call)) (seen : List IndexEntry) → IsJoined index.now waiting seen first.old batches.old.items None → IsJoined index.now waiting seen first.new [] result }
{
    let mut lowest = None;
    while let Some(batch) = batches.pop() {
        let Batch {
            pass,
            calls: _calls,
            page: _page,
            stopped,
        } = batch;
        let worker = pass.worker();
        index.join(first, pass);
        lowest = lowest_of(lowest, worker, stopped);
    }
    lowest
}

/// Joins the passes of batches of which nothing was done.
pub(crate) fn give_back(index: &Index, first: &mut IndexPass, batches: &mut Vec<Batch, Global>)
    requires first { IsFirstOf index.now first.old }
    requires batches { All (λ j. IsWorkers index.now j.pass × (seen_by j.pass ≡ seen_by first.old)) batches.old.items }
    requires covers { CoversWorkers batches.old.items first.old }
    ensures first { IsFirstOf index.now first.new × (seen_by first.new ≡ seen_by first.old) }
    ensures free { (w : ℕ) → 0 < w → w ≤ MOST → IsFree first.new w }
{
    while let Some(batch) = batches.pop() {
        let Batch {
            pass,
            calls: _calls,
            page: _page,
            stopped: _stopped,
        } = batch;
        index.join(first, pass);
    }
}
