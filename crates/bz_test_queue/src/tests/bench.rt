//! A queue with much room in its journal, single steps and whole calls.
ghost use Rattle.std.specs.Prelude.{◌↔◌, IsTrue};
ghost use Rattle.bz_queue.specs.QueueView.{IsCall};

use bz_queue::{QApplied, QBegun, QCall, QEvent, QMark, QReply, QueueWorld};
use std::alloc::Global;
use std::process::Abort;

/// It is so.
pub(super) fn holds(rt: &impl Abort, told: bool) {
    assert!(rt; told);
}

/// A queue of so many cells, descriptors and workers.
pub(super) fn queue_of(
    rt: &impl Abort,
    alloc: Global,
    capacity: u32,
    swaps: u32,
    workers: u32,
) -> QueueWorld {
    QueueWorld::open(alloc, capacity, swaps, workers, 2_000_000, 60_000).expect(rt, "a queue")
}

/// One with so much room in its journal.
pub(super) fn small_queue(
    rt: &impl Abort,
    alloc: Global,
    capacity: u32,
    swaps: u32,
    workers: u32,
    marks: u32,
) -> QueueWorld {
    QueueWorld::open(alloc, capacity, swaps, workers, marks, 60_000).expect(rt, "a queue")
}

// Whether a call may be made: the item of a put is below 2^60.
fn is_call(call: QCall) -> bool
    ensures { IsTrue result ↔ IsCall call }
{
    match call {
        QCall::Put(item) => item < 1 << 60,
        QCall::Take => true,
    }
}

/// A worker's call begins.
pub(super) fn begin(rt: &impl Abort, queue: &mut QueueWorld, w: u8, call: QCall) {
    assert!(rt; is_call(call));
    let begun = queue.begin(w, call);
    holds(rt, matches!(begun, QBegun::Begun(_)));
}

/// A step of a worker: whether its call goes on.
pub(super) fn goes_on(rt: &impl Abort, queue: &mut QueueWorld, w: u8) -> bool {
    match queue.apply(QEvent::Step(w)) {
        QApplied::Stepped => true,
        QApplied::Ended(_) => false,
        _ => {
            holds(rt, false);
            false
        }
    }
}

/// So many steps of a worker, of which those after the end of its call are refused.
pub(super) fn steps(queue: &mut QueueWorld, w: u8, count: u32) {
    for _ in 0..count {
        let _answer = queue.apply(QEvent::Step(w));
    }
}

/// Steps of a worker until its call has ended, and how many marks they made.
pub(super) fn ends(rt: &impl Abort, queue: &mut QueueWorld, w: u8) -> u32 {
    let before = queue.length();
    for _ in 0..70_000u32 {
        if !goes_on(rt, queue, w) {
            return queue.length().saturating_sub(before);
        }
    }
    holds(rt, false);
    0
}

/// The reply of the newest mark.
pub(super) fn newest_reply(rt: &impl Abort, queue: &QueueWorld) -> QReply {
    let length = queue.length();
    assert!(rt; length > 0);
    match queue.mark(length - 1) {
        QMark::End { reply, .. } => reply,
        _ => {
            holds(rt, false);
            QReply::Spent
        }
    }
}

/// A whole call of a worker alone: its reply.
pub(super) fn made(rt: &impl Abort, queue: &mut QueueWorld, w: u8, call: QCall) -> QReply {
    begin(rt, queue, w, call);
    let _marks = ends(rt, queue, w);
    newest_reply(rt, queue)
}

/// A put of a worker alone is answered `put`.
pub(super) fn puts(rt: &impl Abort, queue: &mut QueueWorld, item: u64) {
    let reply = made(rt, queue, 1, QCall::Put(item));
    holds(rt, matches!(reply, QReply::Put));
}

/// A take of a worker alone takes this item.
pub(super) fn takes(rt: &impl Abort, queue: &mut QueueWorld, item: u64) {
    let reply = made(rt, queue, 1, QCall::Take);
    holds(rt, matches!(reply, QReply::Taken(it) if it == item));
}

/// A put finds no room.
pub(super) fn is_full(rt: &impl Abort, queue: &mut QueueWorld) {
    let reply = made(rt, queue, 1, QCall::Put(1));
    holds(rt, matches!(reply, QReply::Full));
}

/// A take finds no item.
pub(super) fn is_empty(rt: &impl Abort, queue: &mut QueueWorld) {
    let reply = made(rt, queue, 1, QCall::Take);
    holds(rt, matches!(reply, QReply::Empty));
}

/// A call finds no descriptor.
pub(super) fn is_spent(rt: &impl Abort, queue: &mut QueueWorld, call: QCall) {
    let reply = made(rt, queue, 1, call);
    holds(rt, matches!(reply, QReply::Spent));
}
