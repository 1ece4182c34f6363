//! A list of notes, each by one pass.
ghost use Rattle.std.specs.Prelude.{◌≡◌, ◌<◌, ◌^◌, vec_len};

use bz_bus::{Action, Chronicle};
use std::alloc::{AllocError, Global};

#[derive(Clone, Copy)]
pub struct Note {
    pub by: u32,
    pub count: u32,
}

#[derive(Drop)]
pub struct Log {
    pub name: u32,
    pub notes: Vec<Note, Global>,
    ghost few: { vec_len notes < 2 ^ 32 },
}

impl Log {
    pub fn open(alloc: Global, name: u32, room: usize) -> Result<Log, AllocError> {
        Ok(Log {
            name,
            notes: Vec::with_capacity(alloc, room)?,
        })
    }
}

impl Chronicle for Log {
    type Entry = Note;

    type Fixed = u32;

    ghost use Rattle.std.specs.Prelude.{reverse};

    ghost fixed = { λ log. log.name };

    ghost entries = { λ log. reverse log.notes.items };

    ghost owner = { λ note. note.by };

    fn length(&self) -> u32 {
        self.notes.len() as u32
    }
}

/// Adds a note, if there is room.
#[derive(Drop)]
pub struct Append {
    pub note: Note,
}

impl Action<Log> for Append {
    ghost use Rattle.std.specs.Prelude.{◌⊎◌, ◌∷◌};

    ghost asks = { λ append name found. Unit {0} };

    ghost does = { λ append name found left after. (after ≡ append) × ((left ≡ append.note ∷ found) ⊎ (left ≡ found)) };

    fn run(&mut self, log: &mut Log) {
        if log.notes.len() < 1 << 30 {
            let _ = log.notes.push(self.note);
        }
    }
}
