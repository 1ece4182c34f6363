//! Calls that wait.
ghost use Rattle.std.specs.Prelude.{◌≡◌, ◌≢◌, ◌≤◌, ◌<◌, ◌+◌, ◌++◌, ◌∷◌, [], IfOk, IfSome, length, false};
ghost use Rattle.bz_qsched.specs.Queued.{calls_of, without_first, is_busy_by, IsFirst};
ghost use Rattle.bz_qsched.specs.QueueKept.{IsFound};
ghost use Rattle.bz_queue.specs.QueueView.{IsCall};

use bz_oom::Memory;
use bz_ring::QCall;
use std::alloc::Global;
use std::marker::Model;

/// The calls that wait for their workers, in the order in which they came. Those of the workers 1 to 64 are begun by runs. It
/// takes no memory after its opening.
#[derive(Drop)]
pub struct Waiting {
    calls: Vec<(u8, QCall)>,

    // of each number of a worker the place from which its next call is looked for
    next: [usize; 256],

    // of each number of a worker how many calls wait
    counts: [usize; 256],
    most: usize,
}

impl Model for Waiting {
    ghost use Rattle.std.specs.Prelude.{◌-◌, length, vec_capacity};
    ghost use Rattle.bz_qsched.specs.Queued.{Queued};
    ghost use Rattle.bz_qsched.specs.QueueKept.{waiting_from, IsKept, AreCalls};

    ghost Value = { Queued };

    ghost view = { λ q. record { calls = waiting_from 0 q.next q.calls.items; room = q.most - length q.calls.items } };

    ghost invariant = { λ q. IsKept q.calls.items q.next q.counts q.most (vec_capacity q.calls) × AreCalls q.calls.items };
}

impl Waiting {
    /// No calls, and room for this many calls.
    pub fn open(alloc: Global, calls: usize) -> Result<Waiting, Memory>
        ensures empty { IfOk result (λ queue. queue.calls ≡ []) }
        ensures room { IfOk result (λ queue. queue.room ≡ calls) }
    {
        let next = [0usize; 256];
        let counts = [0usize; 256];
        Ok(Waiting {
            calls: Vec::with_capacity(alloc, calls)?,
            next,
            counts,
            most: calls,
        })
    }

    /// Puts a call of a worker at the end.
    pub fn push(&mut self, w: u8, call: QCall)
        requires room { 0 < self.old.room }
        requires call { IsCall call }
        ensures calls { self.new.calls ≡ self.old.calls ++ (w, call) ∷ [] }
        ensures room { self.new.room + 1 ≡ self.old.room }
    {
        match self.calls.extend_from_slice(&[(w, call)]) {
            Ok(()) => self.counts[w as usize] += 1,
            Err(_) => unreachable!(),
        }
    }

    /// Whether a call waits for a worker.
    pub fn waiting(&self, w: u8) -> bool
        ensures { result ≡ is_busy_by false (calls_of w self.now.calls) }
    {
        self.counts[w as usize] > 0
    }

    /// The first call that waits for a worker.
    pub(crate) fn first(&self, w: u8) -> Option<QCall>
        ensures first { IsFirst w (calls_of w self.now.calls) result }
        ensures call { IfSome result IsCall }
    {
        match find_call(&self.calls, self.next[w as usize], w) {
            Some(at) => {
                let (_, call) = self.calls[at];
                Some(call)
            }
            None => None,
        }
    }

    /// Leaves out the first call that waits for a worker.
    pub(crate) fn leave_out(&mut self, w: u8)
        requires { calls_of w self.old.calls ≢ [] }
        ensures calls { self.new.calls ≡ without_first w self.old.calls }
        ensures room { self.new.room ≡ self.old.room }
    {
        match find_call(&self.calls, self.next[w as usize], w) {
            Some(at) => {
                self.next[w as usize] = at + 1;
                self.counts[w as usize] -= 1;
            }
            None => unreachable!(),
        }
    }

    /// Takes out the first call that waits for a worker, if one does.
    pub fn take(&mut self, w: u8) -> Option<QCall>
        ensures first { IsFirst w (calls_of w self.old.calls) result }
        ensures calls { self.new.calls ≡ without_first w self.old.calls }
        ensures room { self.new.room ≡ self.old.room }
    {
        match self.first(w) {
            Some(call) => {
                self.leave_out(w);
                Some(call)
            }
            None => None,
        }
    }

    /// Drops all calls that wait.
    pub fn clear(&mut self)
        ensures calls { self.new.calls ≡ [] }
        ensures room { self.old.room ≤ self.new.room }
    {
        self.calls.clear();
        self.next.fill(0);
        self.counts.fill(0);
    }
}

/// The place of the first call of a worker from a place on.
fn find_call(calls: &[(u8, QCall)], from: usize, w: u8) -> Option<usize>
    requires { from ≤ length calls.now }
    ensures { IsFound calls.now from w result }
{
    for at in from..calls.len() {
        let (owner, _) = calls[at];
        if owner == w {
            return Some(at);
        }
    }
    None
}
