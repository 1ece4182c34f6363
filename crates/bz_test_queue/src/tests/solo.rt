//! A call of a worker that steps alone, beside sixty-three that have stopped in the middle of theirs.

use super::bench::{begin, ends, holds, queue_of, steps};
use super::list::replayed;
use bz_layout::MAX_WORKERS;
use bz_queue::{QCall, QueueWorld};
use std::alloc::Global;
use std::process::Abort;

// As many marks as a call may take that a worker ends alone: so many for each worker, and for two more.
const MARKS_PER_WORKER: u32 = 1024;

const MOST: u32 = MARKS_PER_WORKER * (MAX_WORKERS + 2);

// All workers but the last one begin: each second one puts, and the others put or take.
fn begin_all(rt: &impl Abort, queue: &mut QueueWorld, puts_only: bool) {
    for w in 1..64u8 {
        let call = if puts_only || w % 2 == 0 {
            QCall::Put(u64::from(w))
        } else {
            QCall::Take
        };
        begin(rt, queue, w, call);
    }
}

// They make so many steps each, in turn.
fn step_all(queue: &mut QueueWorld, count: u32) {
    for _ in 0..count {
        for w in 1..64u8 {
            steps(queue, w, 1);
        }
    }
}

// They stop after so many acts, and the last one puts.
fn ends_beside(rt: &impl Abort, alloc: Global, count: u32, puts_only: bool) {
    let mut queue = queue_of(rt, alloc, 3, 1024, MAX_WORKERS);
    begin_all(rt, &mut queue, puts_only);
    step_all(&mut queue, count);
    begin(rt, &mut queue, 64, QCall::Put(8));
    let marks = ends(rt, &mut queue, 64);
    holds(rt, marks <= MOST);
    let _left = replayed(rt, alloc, &queue, 3);
}

#[test]
fn puts_that_stop_hold_nobody_up(rt: HostRuntime) {
    for count in 1..101u32 {
        ends_beside(&rt, rt.alloc(), count, true);
    }
}

#[test]
fn puts_and_takes_that_stop_hold_nobody_up(rt: HostRuntime) {
    for count in 1..101u32 {
        ends_beside(&rt, rt.alloc(), count, false);
    }
}
