//! Calls of one worker, one after the other; numbers out of their ranges, and refusals.

use super::bench::{begin, ends, holds, is_empty, is_full, is_spent, made, puts, queue_of, takes};
use super::list::replayed;
use bz_queue::{QApplied, QBegun, QCall, QEvent, QLimit, QOpenError, QReply, QueueWorld};
use std::alloc::Global;
use std::process::Abort;

// The marks of a put alone after its Begin: two reads, a swap of two words, its Effect and its End.
const CHANGE_MARKS: u32 = 36;

// Those of a call that changes nothing: three reads and its End.
const NONE_MARKS: u32 = 4;

// The marks of a whole call.
fn marks_of(rt: &impl Abort, queue: &mut QueueWorld, call: QCall) -> u32 {
    begin(rt, queue, 1, call);
    ends(rt, queue, 1)
}

#[test]
fn three_puts_and_three_takes(rt: HostRuntime) {
    let mut queue = queue_of(&rt, rt.alloc(), 2, 64, 1);
    puts(&rt, &mut queue, 5);
    puts(&rt, &mut queue, 6);
    is_full(&rt, &mut queue);
    takes(&rt, &mut queue, 5);
    takes(&rt, &mut queue, 6);
    is_empty(&rt, &mut queue);
    holds(&rt, replayed(&rt, rt.alloc(), &queue, 2) == 0);
}

#[test]
fn a_ring_of_one_cell(rt: HostRuntime) {
    let mut queue = queue_of(&rt, rt.alloc(), 1, 64, 1);
    for item in 0..9u64 {
        is_empty(&rt, &mut queue);
        puts(&rt, &mut queue, item);
        is_full(&rt, &mut queue);
        takes(&rt, &mut queue, item);
    }
    holds(&rt, replayed(&rt, rt.alloc(), &queue, 1) == 0);
}

#[test]
fn acts_of_calls_alone(rt: HostRuntime) {
    let mut queue = queue_of(&rt, rt.alloc(), 1, 64, 1);
    holds(&rt, marks_of(&rt, &mut queue, QCall::Take) == NONE_MARKS);
    holds(
        &rt,
        marks_of(&rt, &mut queue, QCall::Put(3)) == CHANGE_MARKS,
    );
    holds(&rt, marks_of(&rt, &mut queue, QCall::Put(4)) == NONE_MARKS);
    holds(&rt, marks_of(&rt, &mut queue, QCall::Take) == CHANGE_MARKS);
}

#[test]
fn one_descriptor_serves_one_change(rt: HostRuntime) {
    let mut queue = queue_of(&rt, rt.alloc(), 2, 1, 1);
    is_empty(&rt, &mut queue);
    puts(&rt, &mut queue, 5);
    is_spent(&rt, &mut queue, QCall::Put(6));
    is_spent(&rt, &mut queue, QCall::Take);
}

#[test]
fn the_greatest_item_and_the_greatest_ring(rt: HostRuntime) {
    let great = (1 << 60) - 1;
    let mut queue = queue_of(&rt, rt.alloc(), 4096, 16_384, 1);
    for _ in 0..4096u32 {
        puts(&rt, &mut queue, great);
    }
    is_full(&rt, &mut queue);
    for _ in 0..4096u32 {
        takes(&rt, &mut queue, great);
    }
    is_empty(&rt, &mut queue);
}

// What an opening with these numbers is refused for.
fn fault(
    alloc: Global,
    capacity: u32,
    swaps: u32,
    workers: u32,
    marks: u32,
    calls: u32,
) -> Option<QOpenError> {
    match QueueWorld::open(alloc, capacity, swaps, workers, marks, calls) {
        Ok(_) => None,
        Err(error) => Some(error),
    }
}

#[test]
fn the_first_number_out_of_its_range(rt: HostRuntime) {
    holds(
        &rt,
        fault(rt.alloc(), 0, 0, 0, 0, 0) == Some(QOpenError::Capacity),
    );
    holds(
        &rt,
        fault(rt.alloc(), 4097, 1, 1, 1024, 1) == Some(QOpenError::Capacity),
    );
    holds(
        &rt,
        fault(rt.alloc(), 1, 65_537, 0, 0, 0) == Some(QOpenError::Swaps),
    );
    holds(
        &rt,
        fault(rt.alloc(), 1, 1, 65, 0, 0) == Some(QOpenError::Workers),
    );
    holds(
        &rt,
        fault(rt.alloc(), 1, 1, 1, 1023, 0) == Some(QOpenError::Marks),
    );
    holds(
        &rt,
        fault(rt.alloc(), 1, 1, 1, 1024, 65_537) == Some(QOpenError::Calls),
    );
}

// A take of a worker begins, or is refused.
fn take_begins(queue: &mut QueueWorld, w: u8) -> QBegun {
    queue.begin(w, QCall::Take)
}

// The answers to begins of two workers, of one call at most.
fn begins_are_refused(rt: &impl Abort, queue: &mut QueueWorld) {
    holds(rt, take_begins(queue, 0) == QBegun::NoWorker);
    holds(rt, take_begins(queue, 3) == QBegun::NoWorker);
    holds(rt, take_begins(queue, 1) == QBegun::Begun(1));
    holds(rt, take_begins(queue, 1) == QBegun::Busy);
    holds(rt, take_begins(queue, 2) == QBegun::Limit(QLimit::Calls));
}

// The answer to a step, and to an eviction.
fn step_of(queue: &mut QueueWorld, w: u8) -> QApplied {
    queue.apply(QEvent::Step(w))
}

fn eviction_of(queue: &mut QueueWorld, a: u32) -> QApplied {
    queue.apply(QEvent::Evict(a))
}

#[test]
fn refusals(rt: HostRuntime) {
    let mut queue = QueueWorld::open(rt.alloc(), 1, 1, 2, 1024, 1).expect(&rt, "a queue");
    holds(&rt, step_of(&mut queue, 1) == QApplied::Idle);
    holds(&rt, step_of(&mut queue, 3) == QApplied::NoWorker);
    begins_are_refused(&rt, &mut queue);
    holds(&rt, eviction_of(&mut queue, 40) == QApplied::NoWord);
    for _ in 0..1021u32 {
        holds(&rt, eviction_of(&mut queue, 39) == QApplied::Evicted);
    }
    holds(&rt, eviction_of(&mut queue, 39) == QApplied::Limit);
    holds(&rt, step_of(&mut queue, 1) == QApplied::Limit);
    holds(
        &rt,
        take_begins(&mut queue, 2) == QBegun::Limit(QLimit::Marks),
    );
    let reply = made(&rt, &mut queue_of(&rt, rt.alloc(), 1, 1, 2), 2, QCall::Take);
    holds(&rt, matches!(reply, QReply::Empty));
}
