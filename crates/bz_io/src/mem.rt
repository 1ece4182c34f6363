//! A source and a sink in memory.
ghost use Rattle.std.specs.Prelude.{◌≡◌, ◌<◌, ◌-◌, ◌++◌, ◌↔◌, [], Some, min, take, drop, length, IsOk, IsErr, IfOk, OnErr};
ghost use Rattle.std.specs.Io.{ReadsAtMost, WritesAtMost};
ghost use Rattle.std.specs.Io.KnownBytes.{ReadConsumes, WriteAppends};
ghost use Rattle.bz_io.specs.Faults.{HasCause, next_count};

use crate::ends::{Sink, Source};
use crate::error::Failed;
use crate::store::Store;
use bz_oom::Memory;
use std::alloc::Global;
use std::marker::Model;

/// A source in memory, seen as the bytes that it has left. No read of it fails.
#[derive(Drop)]
pub struct MemSource {
    bytes: Vec<u8>,
    given: usize,
}

impl Model for MemSource {
    ghost use Rattle.std.specs.Prelude.{ℕ, List, ◌≤◌, length, drop};

    ghost Value = { List ℕ };

    ghost view = { λ s. drop s.given s.bytes.items };

    ghost invariant = { λ s. s.given ≤ length s.bytes.items };
}

impl MemSource {
    /// A source of these bytes, which it copies.
    pub fn of(alloc: Global, bytes: &[u8]) -> Result<MemSource, Memory>
        ensures { IfOk result (λ s. s ≡ bytes.now) }
    {
        let bytes = Vec::from_slice(alloc, bytes)?;
        Ok(MemSource { bytes, given: 0 })
    }

    /// Gives at most `most` bytes, and as many as are left and go into `into`.
    pub(crate) fn give(&mut self, into: &mut [u8], most: usize) -> usize
        ensures count { result ≡ min most (min (length into.old) (length self.old)) }
        ensures given { take result into.new ≡ take result self.old }
        ensures left { self.new ≡ drop result self.old }
    {
        let count = most.min(into.len()).min(self.bytes.len() - self.given);
        let end = self.given + count;
        into[..count].copy_from_slice(&self.bytes[self.given..end]);
        self.given = end;
        count
    }
}

impl Source for MemSource {
    ghost left = { λ s. Some s };

    ghost faults = { λ _. 0 };

    fn read(&mut self, into: &mut [u8]) -> Result<usize, Failed>
        ensures bound { ReadsAtMost result into.new }
        ensures bytes { ReadConsumes (Some self.old) (Some self.new) result into.new }
        ensures cause { HasCause 0 0 result }
        ensures never_fails { IsOk result }
        ensures count { IfOk result (λ count. count ≡ min (length into.old) (length self.old)) }
    {
        let room = into.len();
        Ok(self.give(into, room))
    }
}

/// A sink in memory, seen as the bytes that it holds, its room in bytes and its count of faults.
#[derive(Drop)]
pub struct MemSink {
    store: Store,
    faults: u64,
}

impl Model for MemSink {
    ghost use Rattle.bz_io.specs.InMemory.{Sunk};

    ghost Value = { Sunk };

    ghost view = { λ s. record { held = s.store.held; room = s.store.room; faults = s.faults } };
}

impl MemSink {
    /// An empty sink with room for so many bytes. It takes no memory after this.
    pub fn open(alloc: Global, room: usize) -> Result<MemSink, Memory>
        ensures { IfOk result (λ s. s ≡ record { held = []; room = room; faults = 0 }) }
    {
        let store = Store::open(alloc, room)?;
        Ok(MemSink { store, faults: 0 })
    }

    /// All bytes that it took, in order.
    pub fn bytes(&self) -> &[u8]
        ensures { result.now ≡ self.now.held }
    {
        self.store.bytes()
    }
}

impl Sink for MemSink {
    ghost held = { λ s. Some s.held };

    ghost faults = { λ s. s.faults };

    fn write(&mut self, from: &[u8]) -> Result<usize, Failed>
        ensures bound { WritesAtMost result from.now }
        ensures some { IfOk result (λ count. 0 < length from.now → 0 < count) }
        ensures bytes { WriteAppends (Some self.old.held) (Some self.new.held) result from.now }
        ensures cause { HasCause self.old.faults self.new.faults result }
        ensures full { IsErr result ↔ (length self.old.held ≡ self.old.room) }
        ensures count { IfOk result (λ count. count ≡ min (length from.now) (self.old.room - length self.old.held)) }
        ensures taken { IfOk result (λ count. self.new ≡ record self.old { held = self.old.held ++ take count from.now }) }
        ensures failed { OnErr result (self.new ≡ record self.old { faults = next_count self.old.faults }) }
    {
        if self.store.is_full() {
            self.faults = self.faults.saturating_add(1);
            return Err(Failed);
        }
        Ok(self.store.take(from, from.len()))
    }
}
