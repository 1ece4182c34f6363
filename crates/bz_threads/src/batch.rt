//! The work of a thread: the calls of one worker.
ghost use Rattle.std.specs.Prelude.{◌≡◌, ◌<◌};
ghost use Rattle.bz_bus.specs.Entries.{Extends};
ghost use Rattle.bz_index.specs.Passes.{origin_in, worker_of, seen_by, IsPassOf};
ghost use Rattle.bz_threads.specs.Made.{MakesOne, MakesAll};

use bz_call::Call;
use bz_index::{Answer, Gate, Index, IndexPass};
use bz_key::PageBuf;
use std::alloc::Global;
use std::sync::Wait;

/// A worker's pass, the calls that it is to make, and where the pairs of its pages go.
#[derive(Drop)]
pub(crate) struct Batch {
    pub(crate) pass: IndexPass,
    pub(crate) calls: Vec<Call, Global>,
    pub(crate) page: PageBuf,
    // The answer that was no reply, if there was one: the calls behind it were not made.
    pub(crate) stopped: Option<Answer>,
}

// Makes one call; the answer, if it is no reply.
fn make<G: Gate, R: Wait>(
    rt: &R,
    index: &Index,
    pass: &mut IndexPass,
    call: Call,
    page: &mut PageBuf,
    gate: &G,
) -> Option<Answer>
    requires { IsPassOf index.now pass.old × (0 < worker_of pass.old) }
    ensures pass { IsPassOf index.now pass.new × (worker_of pass.new ≡ worker_of pass.old) }
    ensures extends { Extends (seen_by pass.old) (seen_by pass.new) }
    ensures made { MakesOne (origin_in index.now) (worker_of pass.old) call (seen_by pass.old) (seen_by pass.new) result }
{
    match index.call(rt, pass, call, page, gate) {
        Answer::Reply(_) => None,
        answer => Some(answer),
    }
}

// Makes the calls one after the other; the first answer that is no reply.
fn make_all<G: Gate, R: Wait>(
    rt: &R,
    index: &Index,
    pass: &mut IndexPass,
    calls: &[Call],
    page: &mut PageBuf,
    gate: &G,
) -> Option<Answer>
    requires { IsPassOf index.now pass.old × (0 < worker_of pass.old) }
    ensures pass { IsPassOf index.now pass.new × (worker_of pass.new ≡ worker_of pass.old) }
    ensures extends { Extends (seen_by pass.old) (seen_by pass.new) }
    ensures made { MakesAll (origin_in index.now) (worker_of pass.old) calls.now (seen_by pass.old) (seen_by pass.new) result }
{
    for call in calls {
        match make(rt, index, pass, *call, page, gate) {
            None => {}
            Some(answer) => return Some(answer),
        }
    }
    None
}

impl Batch {
    ghost use Rattle.bz_threads.specs.Inside.Batches.{HasWorked};

    /// Makes the calls. Where each was replied to the gate is told once more.
    pub(crate) fn work<G: Gate, R: Wait>(&mut self, rt: &R, index: &Index, gate: &G)
        requires { IsPassOf index.now self.old.pass × (0 < worker_of self.old.pass) }
        ensures { HasWorked index.now self.old self.new }
    {
        let stopped = make_all(rt, index, &mut self.pass, &self.calls, &mut self.page, gate);
        if stopped.is_none() {
            gate.between(rt, self.pass.worker(), 0);
        }
        self.stopped = stopped;
    }
}
