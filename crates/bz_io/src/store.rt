//! Bytes in room that was taken at the opening.
ghost use Rattle.std.specs.Prelude.{◌≡◌, ◌<◌, ◌≤◌, ◌-◌, ◌++◌, ◌↔◌, [], min, take, length, IsTrue, IfOk};

use bz_oom::Memory;
use std::alloc::Global;
use std::marker::Model;

/// Bytes that were taken, and the number of bytes there is room for.
#[derive(Drop)]
pub struct Store {
    bytes: Vec<u8>,
    room: usize,
}

impl Model for Store {
    ghost use Rattle.std.specs.Prelude.{◌≤◌, length, vec_capacity};
    ghost use Rattle.bz_io.specs.InMemory.{Stored};

    ghost Value = { Stored };

    ghost view = { λ s. record { held = s.bytes.items; room = s.room } };

    ghost invariant = { λ s. (length s.bytes.items ≤ s.room) × (s.room ≤ vec_capacity s.bytes) };
}

impl Store {
    /// An empty store.
    pub fn open(alloc: Global, room: usize) -> Result<Store, Memory>
        ensures { IfOk result (λ s. s ≡ record { held = []; room = room }) }
    {
        let bytes = Vec::with_capacity(alloc, room)?;
        Ok(Store { bytes, room })
    }

    pub fn bytes(&self) -> &[u8]
        ensures { result.now ≡ self.now.held }
    {
        &self.bytes
    }

    pub fn is_full(&self) -> bool
        ensures full { IsTrue result ↔ (length self.now.held ≡ self.now.room) }
        ensures within { length self.now.held ≤ self.now.room }
    {
        self.bytes.len() == self.room
    }

    /// Takes the front of `from`: at most `most` bytes, and as many as there is room for.
    pub fn take(&mut self, from: &[u8], most: usize) -> usize
        ensures count { result ≡ min most (min (length from.now) (self.old.room - length self.old.held)) }
        ensures held { self.new ≡ record self.old { held = self.old.held ++ take result from.now } }
    {
        let count = most.min(from.len()).min(self.room - self.bytes.len());
        match self.bytes.extend_from_slice(&from[..count]) {
            Ok(()) => count,
            Err(_) => unreachable!(),
        }
    }
}
