//! Openings.
ghost use Rattle.std.specs.Prelude.{◌≡◌, ◌≤◌, ◌↔◌, IsTrue, IfOk, IfErr, MatchOption, replicate, None};
ghost use Rattle.bz_queue.specs.Inside.Kept.{IsKept, view_of};
ghost use Rattle.bz_queue.specs.QueueView.{AreNumbers, IsOpenFault, IsRangeFault, new_view};

use crate::answers::QOpenError;
use crate::parts::Parts;
use crate::recovery::area_of;
use crate::serving::OpenCall;
use bz_layout::{
    MAX_CALLS, MAX_CAPACITY, MAX_MARKS, MAX_SWAPS, MAX_WORKERS, MIN_CALLS, MIN_CAPACITY, MIN_MARKS,
    MIN_SWAPS, MIN_WORKERS,
};
use bz_mark::Power;
use bz_oom::Memory;
use bz_ring::{QJournal, Ring, fresh};
use bz_swap::Access;
use bz_sweep::Sweep;
use std::alloc::Global;

// A place for each worker, from worker 0 on, of which there are at most 64 beside it.
const PLACES: usize = 65;

/// The numbers that a queue is made with: its ring, its workers, and its limits.
#[derive(Clone, Copy)]
pub(crate) struct Numbers {
    pub ring: Ring,
    pub workers: u32,
    pub marks: u32,
    pub calls: u32,
}

fn is_between(number: u32, low: u32, high: u32) -> bool
    ensures { IsTrue result ↔ ((low ≤ number) × (number ≤ high)) }
{
    low <= number && number <= high
}

// The first number out of its range, if one is.
fn fault(numbers: &Numbers) -> Option<QOpenError>
    ensures { MatchOption result (AreNumbers numbers.now) (IsRangeFault numbers.now) }
{
    if !is_between(numbers.ring.capacity, MIN_CAPACITY, MAX_CAPACITY) {
        return Some(QOpenError::Capacity);
    }
    if !is_between(numbers.ring.swaps, MIN_SWAPS, MAX_SWAPS) {
        return Some(QOpenError::Swaps);
    }
    if !is_between(numbers.workers, MIN_WORKERS, MAX_WORKERS) {
        return Some(QOpenError::Workers);
    }
    if !is_between(numbers.marks, MIN_MARKS, MAX_MARKS) {
        return Some(QOpenError::Marks);
    }
    if !is_between(numbers.calls, MIN_CALLS, MAX_CALLS) {
        return Some(QOpenError::Calls);
    }
    None
}

// A table with nothing in its places.
fn none_table(alloc: Global, places: usize) -> Result<Vec<Option<OpenCall>>, Memory>
    ensures { IfOk result (λ table. table.items ≡ replicate places None) }
{
    let mut table: Vec<Option<OpenCall>> = Vec::with_capacity(alloc, places)?;
    for _ in 0..places {
        table.push(None)?;
    }
    Ok(table)
}

// The tables of a queue in which nothing has happened.
#[derive(Drop)]
struct Tables {
    workers: Vec<Option<OpenCall>>,
    owners: Vec<u8>,
    last: Vec<u32>,
}

// Those of a queue with so many descriptors.
fn open_tables(alloc: Global, swaps: u32) -> Result<Tables, Memory>
    ensures workers { IfOk result (λ tables. tables.workers.items ≡ replicate 65 None) }
    ensures owners { IfOk result (λ tables. tables.owners.items ≡ replicate swaps 0) }
    ensures last { IfOk result (λ tables. tables.last.items ≡ replicate 65 0) }
{
    let last = vec![in alloc; 0u32; PLACES]?;
    let owners = vec![in alloc; 0u8; swaps as usize]?;
    let workers = none_table(alloc, PLACES)?;
    Ok(Tables {
        workers,
        owners,
        last,
    })
}

// The parts of a queue over fresh memory.
fn fresh_parts(alloc: Global, numbers: &Numbers) -> Result<Parts, Memory>
    requires { AreNumbers numbers.now }
    ensures kept { IfOk result IsKept }
    ensures view { IfOk result (λ parts. view_of parts ≡ new_view numbers.now) }
{
    let start = fresh(alloc, &numbers.ring)?;
    let access = Access::open(alloc, &start, numbers.ring.swaps, numbers.workers)?;
    let journal = QJournal::open(alloc, &start, numbers.marks)?;
    let Tables {
        workers,
        owners,
        last,
    } = open_tables(alloc, numbers.ring.swaps)?;
    Ok(Parts {
        numbers: *numbers,
        access,
        journal,
        workers,
        owners,
        last,
        begun: 0,
        power: Power::On,
        sweep: Sweep::new(&area_of(&numbers.ring)),
    })
}

/// The parts of a queue in which nothing has happened.
pub(crate) fn open_parts(alloc: Global, numbers: &Numbers) -> Result<Parts, QOpenError>
    ensures kept { IfOk result IsKept }
    ensures view { IfOk result (λ parts. view_of parts ≡ new_view numbers.now) }
    ensures err { IfErr result (IsOpenFault numbers.now) }
{
    if let Some(error) = fault(numbers) {
        return Err(error);
    }
    match fresh_parts(alloc, numbers) {
        Ok(parts) => Ok(parts),
        Err(Memory) => Err(QOpenError::Memory),
    }
}
