//! A source and a sink in memory that fail on purpose.
ghost use Rattle.std.specs.Prelude.{◌≡◌, ◌<◌, ◌-◌, ◌++◌, ◌↔◌, ◌⊎◌, [], Some, min, take, drop, length, IsErr, IfOk, OnErr, Contains};
ghost use Rattle.std.specs.Io.{ReadsAtMost, WritesAtMost};
ghost use Rattle.std.specs.Io.KnownBytes.{ReadConsumes, WriteAppends};
ghost use Rattle.bz_io.specs.Faults.{HasCause, next_count};
ghost use Rattle.bz_io.specs.InMemory.{after_success, after_fault};

use crate::ends::{Sink, Source};
use crate::error::Failed;
use crate::mem::MemSource;
use crate::plan::FaultPlan;
use crate::store::Store;
use bz_oom::Memory;
use std::alloc::Global;
use std::marker::Model;

/// A source in memory that gives small pieces and fails at the calls that it was told.
#[derive(Drop)]
pub struct FailSource {
    source: MemSource,
    piece: usize,
    plan: FaultPlan,
}

impl Model for FailSource {
    ghost use Rattle.std.specs.Prelude.{◌<◌};
    ghost use Rattle.bz_io.specs.InMemory.{FailingSource};

    ghost Value = { FailingSource };

    ghost view = { λ s. record { left = s.source; piece = s.piece; plan = s.plan } };

    ghost invariant = { λ s. 0 < s.piece };
}

impl FailSource {
    /// A source of these bytes, at most `piece` of them a call. `fails` has the numbers, from 1, of
    /// the calls that fail, in any order.
    pub fn of(
        alloc: Global,
        bytes: &[u8],
        piece: usize,
        fails: &[u64],
    ) -> Result<FailSource, Memory>
        requires { 0 < piece }
        ensures { IfOk result (λ s. s ≡ record { left = bytes.now; piece = piece; plan = record { fails = fails.now; made = 0; faults = 0 } }) }
    {
        let source = MemSource::of(alloc, bytes)?;
        let plan = FaultPlan::of(alloc, fails)?;
        Ok(FailSource {
            source,
            piece,
            plan,
        })
    }
}

impl Source for FailSource {
    ghost left = { λ s. Some s.left };

    ghost faults = { λ s. s.plan.faults };

    fn read(&mut self, into: &mut [u8]) -> Result<usize, Failed>
        ensures bound { ReadsAtMost result into.new }
        ensures bytes { ReadConsumes (Some self.old.left) (Some self.new.left) result into.new }
        ensures cause { HasCause self.old.plan.faults self.new.plan.faults result }
        ensures planned { IsErr result ↔ Contains self.old.plan.fails (next_count self.old.plan.made) }
        ensures count { IfOk result (λ count. count ≡ min self.old.piece (min (length into.old) (length self.old.left))) }
        ensures given { IfOk result (λ count. self.new ≡ record self.old { left = drop count self.old.left; plan = after_success self.old.plan }) }
        ensures failed { OnErr result (self.new ≡ record self.old { plan = after_fault self.old.plan }) }
    {
        if self.plan.next_fails() {
            self.plan.count_fault();
            return Err(Failed);
        }
        Ok(self.source.give(into, self.piece))
    }
}

/// A sink in memory that takes small pieces and fails at the calls that it was told, or for want
/// of room.
#[derive(Drop)]
pub struct FailSink {
    store: Store,
    piece: usize,
    plan: FaultPlan,
}

impl Model for FailSink {
    ghost use Rattle.std.specs.Prelude.{◌<◌};
    ghost use Rattle.bz_io.specs.InMemory.{FailingSink};

    ghost Value = { FailingSink };

    ghost view = { λ s. record { held = s.store.held; room = s.store.room; piece = s.piece; plan = s.plan } };

    ghost invariant = { λ s. 0 < s.piece };
}

impl FailSink {
    /// An empty sink with room for so many bytes, which takes at most `piece` bytes a call. `fails`
    /// has the numbers, from 1, of the calls that fail, in any order. It takes no memory after this.
    pub fn open(alloc: Global, room: usize, piece: usize, fails: &[u64]) -> Result<FailSink, Memory>
        requires { 0 < piece }
        ensures { IfOk result (λ s. s ≡ record { held = []; room = room; piece = piece; plan = record { fails = fails.now; made = 0; faults = 0 } }) }
    {
        let store = Store::open(alloc, room)?;
        let plan = FaultPlan::of(alloc, fails)?;
        Ok(FailSink { store, piece, plan })
    }

    /// All bytes that it took, in order.
    pub fn bytes(&self) -> &[u8]
        ensures { result.now ≡ self.now.held }
    {
        self.store.bytes()
    }
}

impl Sink for FailSink {
    ghost held = { λ s. Some s.held };

    ghost faults = { λ s. s.plan.faults };

    fn write(&mut self, from: &[u8]) -> Result<usize, Failed>
        ensures bound { WritesAtMost result from.now }
        ensures some { IfOk result (λ count. 0 < length from.now → 0 < count) }
        ensures bytes { WriteAppends (Some self.old.held) (Some self.new.held) result from.now }
        ensures cause { HasCause self.old.plan.faults self.new.plan.faults result }
        ensures planned { IsErr result ↔ (Contains self.old.plan.fails (next_count self.old.plan.made) ⊎ (length self.old.held ≡ self.old.room)) }
        ensures count { IfOk result (λ count. count ≡ min self.old.piece (min (length from.now) (self.old.room - length self.old.held))) }
        ensures taken { IfOk result (λ count. self.new ≡ record self.old { held = self.old.held ++ take count from.now; plan = after_success self.old.plan }) }
        ensures failed { OnErr result (self.new ≡ record self.old { plan = after_fault self.old.plan }) }
    {
        if self.plan.next_fails() || self.store.is_full() {
            self.plan.count_fault();
            return Err(Failed);
        }
        Ok(self.store.take(from, self.piece))
    }
}
