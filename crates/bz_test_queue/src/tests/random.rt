//! Random runs of some workers over a small ring, with evictions.
ghost use Rattle.std.specs.Prelude.{◌<◌, ◌≤◌};

use super::bench::{begin, holds, queue_of};
use super::list::replayed;
use bz_queue::{QApplied, QCall, QEvent, QueueWorld};
use std::alloc::Global;
use std::process::Abort;

// How many events a run has.
const EVENTS: u32 = 6_000;

/// The draws of a seed.
#[derive(Clone, Copy)]
pub(super) struct Draws {
    pub(super) state: u64,
}

impl Draws {
    // A number below this limit.
    pub(super) fn below(&mut self, limit: u8) -> u8
        requires { 0 < limit }
        ensures { result < limit }
    {
        let product = self.state.wrapping_mul(6_364_136_223_846_793_005);
        self.state = product.wrapping_add(1_442_695_040_888_963_407);
        ((self.state >> 32) % u64::from(limit)) as u8
    }
}

// How many workers the run of a seed has.
fn crew_of(seed: u64) -> u8
    ensures { result ≤ 8 }
{
    if seed % 2 == 0 { 3 } else { 8 }
}

/// A call of a worker begins.
pub(super) fn some_call(rt: &impl Abort, queue: &mut QueueWorld, draws: &mut Draws, w: u8) {
    if draws.below(2) == 0 {
        let item = draws.below(100);
        begin(rt, queue, w, QCall::Put(u64::from(item)));
    } else {
        begin(rt, queue, w, QCall::Take);
    }
}

// A step of some worker, or the begin of its call; one event of eight is an eviction.
fn act(rt: &impl Abort, queue: &mut QueueWorld, draws: &mut Draws, crew: u8)
    requires { crew ≤ 8 }
{
    if draws.below(8) == 0 {
        let a = draws.below(64);
        let answer = queue.apply(QEvent::Evict(u32::from(a)));
        holds(rt, matches!(answer, QApplied::Evicted));
        return;
    }
    let w = 1 + draws.below(crew.max(1));
    if queue.apply(QEvent::Step(w)) == QApplied::Idle {
        some_call(rt, queue, draws, w);
    }
}

// The run of a seed, beside a plain list.
fn run(rt: &impl Abort, alloc: Global, seed: u64) {
    let capacity = (seed % 3) as u32 + 1;
    let crew = crew_of(seed);
    let mut queue = queue_of(rt, alloc, capacity, 4096, u32::from(crew));
    let mut draws = Draws { state: seed };
    for _ in 0..EVENTS {
        act(rt, &mut queue, &mut draws, crew);
    }
    let _left = replayed(rt, alloc, &queue, capacity);
}

#[test]
fn random_runs_are_those_of_a_list(rt: HostRuntime) {
    for seed in 1..51u64 {
        run(&rt, rt.alloc(), seed);
    }
}
