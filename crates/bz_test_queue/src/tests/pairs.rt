//! A put against a take on one cell, along each split.

use super::bench::{begin, ends, holds, puts, queue_of, steps};
use super::list::replayed;
use bz_queue::{QCall, QueueWorld};
use std::alloc::Global;
use std::process::Abort;

// The cell has an item at first for each second split.
fn filled(rt: &impl Abort, alloc: Global, split: u32) -> QueueWorld {
    let mut queue = queue_of(rt, alloc, 1, 64, 2);
    if split % 2 == 0 {
        puts(rt, &mut queue, 9);
    }
    queue
}

// Worker 1 puts so many acts far, worker 2 takes, and then worker 1 goes on.
fn put_against_take(rt: &impl Abort, alloc: Global, split: u32) {
    let mut queue = filled(rt, alloc, split);
    begin(rt, &mut queue, 1, QCall::Put(8));
    begin(rt, &mut queue, 2, QCall::Take);
    steps(&mut queue, 1, split);
    let _marks = ends(rt, &mut queue, 2);
    steps(&mut queue, 1, 200);
    holds(rt, queue.open_call(1).is_none());
    let _left = replayed(rt, alloc, &queue, 1);
}

// Worker 2 takes so many acts far, worker 1 puts, and then worker 2 goes on.
fn take_against_put(rt: &impl Abort, alloc: Global, split: u32) {
    let mut queue = filled(rt, alloc, split);
    begin(rt, &mut queue, 1, QCall::Put(8));
    begin(rt, &mut queue, 2, QCall::Take);
    steps(&mut queue, 2, split);
    let _marks = ends(rt, &mut queue, 1);
    steps(&mut queue, 2, 200);
    holds(rt, queue.open_call(2).is_none());
    let _left = replayed(rt, alloc, &queue, 1);
}

#[test]
fn a_put_against_a_take_on_one_cell(rt: HostRuntime) {
    for split in 1..61u32 {
        put_against_take(&rt, rt.alloc(), split);
        take_against_put(&rt, rt.alloc(), split);
    }
}
