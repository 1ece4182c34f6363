//! The power is cut in the middle of a call, and the memory recovers: the list is what it was, with the call's change or without.
ghost use Rattle.std.specs.Prelude.{◌≤◌};

use super::bench::{begin, holds, is_empty, made, puts, small_queue, steps, takes};
use super::list::replayed;
use super::random::{Draws, some_call};
use bz_layout::{LINE_WORDS, SUPERBLOCK_WORDS, SWAP_WORDS};
use bz_queue::{QApplied, QBegun, QCall, QEvent, QReply, QueueWorld};
use std::alloc::Global;
use std::process::Abort;

// Descriptors of each queue here: a recovery gives them back.
const SWAPS: u32 = 4;

// A recovery makes fewer acts than four for each word; the cells here lie in one line.
const MOST_ACTS: u32 = 4 * (SUPERBLOCK_WORDS + SWAP_WORDS * SWAPS + LINE_WORDS);

// The acts of a put or a take alone are fewer.
const CALL_ACTS: u32 = 40;

// Some calls and some recoveries leave fewer marks, and a run fewer than these.
const FEW_MARKS: u32 = 4_000;

const MANY_MARKS: u32 = 40_000;

// How many events a run has.
const EVENTS: u32 = 6_000;

// The power fails and comes on again.
fn cut(rt: &impl Abort, queue: &mut QueueWorld) {
    holds(rt, queue.apply(QEvent::Cut) == QApplied::Cut);
    holds(rt, queue.apply(QEvent::Cut) == QApplied::Off);
    holds(rt, queue.begin(1, QCall::Take) == QBegun::Off);
    holds(rt, queue.apply(QEvent::On) == QApplied::On);
    holds(rt, queue.apply(QEvent::On) == QApplied::Powered);
    holds(rt, queue.apply(QEvent::Step(1)) == QApplied::Recovering);
}

// A step of the recovery: whether it goes on.
fn recovers_on(rt: &impl Abort, queue: &mut QueueWorld) -> bool {
    match queue.apply(QEvent::Step(0)) {
        QApplied::Stepped => true,
        QApplied::Ready => false,
        _ => {
            holds(rt, false);
            false
        }
    }
}

// Steps of the recovery to its end.
fn recovers(rt: &impl Abort, queue: &mut QueueWorld) {
    for _ in 0..MOST_ACTS {
        if !recovers_on(rt, queue) {
            return;
        }
    }
    holds(rt, false);
}

// So many steps of the recovery, if it does not end before: whether it goes on still.
fn recovers_so_far(rt: &impl Abort, queue: &mut QueueWorld, count: u32) -> bool {
    for _ in 0..count {
        if !recovers_on(rt, queue) {
            return false;
        }
    }
    true
}

// Worker 1 puts so many acts far, and then the power is cut.
fn cut_put(rt: &impl Abort, alloc: Global, acts: u32) -> QueueWorld {
    let mut queue = small_queue(rt, alloc, 2, SWAPS, 2, FEW_MARKS);
    begin(rt, &mut queue, 1, QCall::Put(5));
    steps(&mut queue, 1, acts);
    cut(rt, &mut queue);
    queue
}

// Whether the list has the item.
fn has_item(rt: &impl Abort, alloc: Global, queue: &mut QueueWorld) -> bool {
    let items = replayed(rt, alloc, queue, 2);
    let reply = made(rt, queue, 2, QCall::Take);
    match reply {
        QReply::Taken(5) => holds(rt, items == 1),
        QReply::Empty => holds(rt, items == 0),
        _ => holds(rt, false),
    }
    holds(rt, replayed(rt, alloc, queue, 2) == 0);
    items == 1
}

// Whether a put that was cut off after so many acts is kept.
fn put_is_kept(rt: &impl Abort, alloc: Global, acts: u32) -> bool {
    let mut queue = cut_put(rt, alloc, acts);
    recovers(rt, &mut queue);
    has_item(rt, alloc, &mut queue)
}

#[test]
fn a_put_cut_off_after_each_act(rt: HostRuntime) {
    let mut kept = false;
    for acts in 0..CALL_ACTS {
        let now = put_is_kept(&rt, rt.alloc(), acts);
        holds(&rt, now || !kept);
        kept = now;
    }
    holds(&rt, kept);
}

// Whether a take that was cut off after so many acts is kept.
fn take_is_kept(rt: &impl Abort, alloc: Global, acts: u32) -> bool {
    let mut queue = small_queue(rt, alloc, 2, SWAPS, 2, FEW_MARKS);
    puts(rt, &mut queue, 5);
    puts(rt, &mut queue, 6);
    begin(rt, &mut queue, 2, QCall::Take);
    steps(&mut queue, 2, acts);
    cut(rt, &mut queue);
    recovers(rt, &mut queue);
    let kept = replayed(rt, alloc, &queue, 2) == 1;
    if !kept {
        takes(rt, &mut queue, 5);
    }
    takes(rt, &mut queue, 6);
    is_empty(rt, &mut queue);
    holds(rt, replayed(rt, alloc, &queue, 2) == 0);
    kept
}

#[test]
fn a_take_cut_off_after_each_act(rt: HostRuntime) {
    let mut kept = false;
    for acts in 0..CALL_ACTS {
        let now = take_is_kept(&rt, rt.alloc(), acts);
        holds(&rt, now || !kept);
        kept = now;
    }
    holds(&rt, kept);
}

// The recovery after a put that was cut off is cut off too, after so many acts, and then the put is kept as it would have been: whether the recovery had not ended.
fn cuts_recovery(rt: &impl Abort, alloc: Global, acts: u32, count: u32, whole: bool) -> bool {
    let mut queue = cut_put(rt, alloc, acts);
    let goes_on = recovers_so_far(rt, &mut queue, count);
    cut(rt, &mut queue);
    recovers(rt, &mut queue);
    holds(rt, has_item(rt, alloc, &mut queue) == whole);
    goes_on
}

#[test]
fn a_recovery_cut_off_after_each_act(rt: HostRuntime) {
    for acts in 5..CALL_ACTS {
        let whole = put_is_kept(&rt, rt.alloc(), acts);
        for count in 0..MOST_ACTS {
            if !cuts_recovery(&rt, rt.alloc(), acts, count, whole) {
                break;
            }
        }
    }
}

// A word becomes durable, whatever the power is.
fn evict(queue: &mut QueueWorld, draws: &mut Draws) {
    let a = draws.below(64);
    let _answer = queue.apply(QEvent::Evict(u32::from(a)));
}

// One event: an eviction, a step, a begin, or rarely a power cut.
fn act(rt: &impl Abort, queue: &mut QueueWorld, draws: &mut Draws) {
    if draws.below(8) == 0 {
        evict(queue, draws);
        return;
    }
    if draws.below(200) == 0 {
        cut(rt, queue);
        return;
    }
    let w = 1 + draws.below(3);
    match queue.apply(QEvent::Step(w)) {
        QApplied::Idle => some_call(rt, queue, draws, w),
        QApplied::Recovering => {
            let _goes_on = recovers_on(rt, queue);
        }
        _ => {}
    }
}

// The run of a seed, beside a plain list; then all items are taken.
fn run(rt: &impl Abort, alloc: Global, seed: u64) {
    let mut queue = small_queue(rt, alloc, 2, SWAPS, 3, MANY_MARKS);
    let mut draws = Draws { state: seed };
    for _ in 0..EVENTS {
        act(rt, &mut queue, &mut draws);
    }
    cut(rt, &mut queue);
    recovers(rt, &mut queue);
    let items = replayed(rt, alloc, &queue, 2);
    for _ in 0..items {
        let reply = made(rt, &mut queue, 1, QCall::Take);
        holds(rt, matches!(reply, QReply::Taken(_)));
    }
    is_empty(rt, &mut queue);
    holds(rt, replayed(rt, alloc, &queue, 2) == 0);
}

#[test]
fn random_runs_with_power_cuts(rt: HostRuntime) {
    for seed in 1..21u64 {
        run(&rt, rt.alloc(), seed);
    }
}
