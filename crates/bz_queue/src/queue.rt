//! Queues.

use crate::answers::{QApplied, QBegun, QEvent, QOpenError};
use crate::begin::begin;
use crate::open::{Numbers, open_parts};
use crate::parts::Parts;
use crate::power::{cut, power_on};
use crate::step::{evict, step};
use bz_ring::{QCall, QMark, Ring};
use std::alloc::Global;
use std::marker::Model;

/// A memory with a ring, the workers that use it, and the journal of what happened. It takes no memory after its opening.
#[derive(Drop)]
pub struct QueueWorld {
    parts: Parts,
}

impl Model for QueueWorld {
    ghost use Rattle.bz_queue.specs.Inside.Kept.{IsKept, view_of};
    ghost use Rattle.bz_queue.specs.QueueView.{QueueView};

    ghost Value = { QueueView };

    ghost view = { λ q. view_of q.parts };

    ghost invariant = { λ q. IsKept q.parts };
}

impl QueueWorld {
    ghost use Rattle.std.specs.Prelude.{◌≡◌, ◌≢◌, ◌<◌, ◌≤◌, ◌↔◌, IsTrue, IfOk, IfErr, Some, length, slice_index};
    ghost use Rattle.bz_mark.specs.WordsAfter.{words_after_marks};
    ghost use Rattle.bz_ring.specs.Content.{size_of};
    ghost use Rattle.bz_ring.specs.Journal.{mark_at, memory_of};
    ghost use Rattle.bz_ring.specs.Solitary.{IsSparing};
    ghost use Rattle.bz_ring.specs.Sound.{IsSound};
    ghost use Rattle.bz_queue.specs.QueueView.{AreNumbers, IsCall, IsOpenFault, IsApplied, new_view, begin_answer, after_begin, flush_of, open_number};

    /// A queue over fresh memory, which is empty. Its numbers are those of cells, descriptors, workers, marks and calls.
    pub fn open(
        alloc: Global,
        capacity: u32,
        swaps: u32,
        workers: u32,
        marks: u32,
        calls: u32,
    ) -> Result<QueueWorld, QOpenError>
        ensures ok { IfOk result (λ q. q ≡ new_view (record { ring = record { capacity = capacity; swaps = swaps }; workers = workers; marks = marks; calls = calls })) }
        ensures err { IfErr result (IsOpenFault (record { ring = record { capacity = capacity; swaps = swaps }; workers = workers; marks = marks; calls = calls })) }
    {
        let numbers = Numbers {
            ring: Ring { capacity, swaps },
            workers,
            marks,
            calls,
        };
        let parts = open_parts(alloc, &numbers)?;
        Ok(QueueWorld { parts })
    }

    /// Begins a call of a worker. A put needs a number below 2^60.
    pub fn begin(&mut self, w: u8, call: QCall) -> QBegun
        requires { IsCall call }
        ensures answer { result ≡ begin_answer self.old w }
        ensures after { self.new ≡ after_begin self.old w call self.new.left result }
    {
        begin(&mut self.parts, w, call)
    }

    /// Makes an event happen.
    pub fn apply(&mut self, event: QEvent) -> QApplied
        ensures { IsApplied self.old event result self.new }
    {
        match event {
            QEvent::Step(w) => step(&mut self.parts, w),
            QEvent::Evict(a) => evict(&mut self.parts, a),
            QEvent::Cut => cut(&mut self.parts),
            QEvent::On => power_on(&mut self.parts),
        }
    }

    /// How many marks the journal has, which is sound. A call beside which no other was open took one descriptor if it had an effect, and otherwise none.
    pub fn length(&self) -> u32
        ensures length { result ≡ length self.now.log.past }
        ensures sound { IsSound self.now.numbers.ring self.now.log.start self.now.log.past }
        ensures sparing { IsSparing self.now.numbers.ring self.now.log.past }
    {
        self.parts.journal.length()
    }

    /// The mark with this number, counted from 0.
    pub fn mark(&self, i: u32) -> QMark
        requires { i < length self.now.log.past }
        ensures { mark_at i self.now.log.past ≡ Some result }
    {
        self.parts.journal.mark(i)
    }

    /// Whether the next act of a worker is a fence.
    pub fn flush_next(&self, w: u8) -> bool
        requires { w ≤ self.now.numbers.workers }
        ensures { result ≡ flush_of self.now w }
    {
        self.parts.access.flush_next(w)
    }

    /// Whether a power cut would change the word at an address.
    pub fn differs(&self, a: u32) -> bool
        requires { a < size_of self.now.numbers.ring }
        ensures { IsTrue result ↔ (slice_index (words_after_marks self.now.log.start (memory_of self.now.log.past)).cached a ≢ slice_index (words_after_marks self.now.log.start (memory_of self.now.log.past)).durable a) }
    {
        self.parts.access.cached(a) != self.parts.access.durable(a)
    }

    /// The number of a worker's open call, if one is open.
    pub fn open_call(&self, w: u8) -> Option<u32>
        ensures { result ≡ open_number self.now w }
    {
        if w as usize >= self.parts.workers.len() {
            return None;
        }
        match self.parts.workers[w as usize] {
            Some(_) => Some(self.parts.last[w as usize]),
            None => None,
        }
    }

    /// The durable word at an address: what a power cut would leave.
    pub fn durable(&self, a: u32) -> u64
        requires { a < size_of self.now.numbers.ring }
        ensures { result ≡ slice_index (words_after_marks self.now.log.start (memory_of self.now.log.past)).durable a }
    {
        self.parts.access.durable(a)
    }
}
