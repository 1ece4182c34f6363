//! Journals of queues.
ghost use Rattle.std.specs.Prelude.{◌≡◌, ◌<◌, ◌+◌, [], IfOk, length, Some};

use crate::flat::{FlatMark, flat_mark, whole_mark};
use crate::marks::QMark;
use bz_oom::Memory;
use std::alloc::Global;
use std::marker::Model;

/// A queue's journal, seen as its log. It takes no memory after its opening.
#[derive(Drop)]
pub struct QJournal {
    start: Vec<u64>,
    marks: Vec<FlatMark>,
    most: u32,
}

impl Model for QJournal {
    ghost use Rattle.bz_ring.specs.Journal.{QLog};
    ghost use Rattle.bz_ring.specs.Kept.{past_of, IsKept};

    ghost Value = { QLog };

    ghost view = { λ j. record { start = j.start.items; past = past_of j.marks.items; most = j.most } };

    ghost invariant = { IsKept };
}

impl QJournal {
    ghost use Rattle.bz_ring.specs.Journal.{QLog, with_mark, mark_at, IsMark};

    /// A journal with no mark, which goes on from these words. There is room for `marks` marks.
    pub fn open(alloc: Global, start: &[u64], marks: u32) -> Result<QJournal, Memory>
        ensures { IfOk result (λ j. j ≡ record { start = start.now; past = []; most = marks }) }
    {
        Ok(QJournal {
            start: Vec::from_slice(alloc, start)?,
            marks: Vec::with_capacity(alloc, marks as usize)?,
            most: marks,
        })
    }

    /// Adds a mark.
    pub fn push(&mut self, mark: QMark)
        requires room { length self.old.past < self.old.most }
        requires is { IsMark mark }
        ensures { self.new ≡ with_mark self.old mark }
    {
        let flat = flat_mark(mark);
        self.marks.push_reserved(flat);
    }

    /// How many marks there are.
    pub fn length(&self) -> u32
        ensures { result ≡ length self.now.past }
    {
        self.marks.len() as u32
    }

    /// How many more marks there is room for.
    pub fn room(&self) -> u32
        ensures { result + length self.now.past ≡ self.now.most }
    {
        self.most - self.marks.len() as u32
    }

    /// The mark with this number, counted from 0.
    pub fn mark(&self, i: u32) -> QMark
        requires { i < length self.now.past }
        ensures { mark_at i self.now.past ≡ Some result }
    {
        let flat = self.marks[i as usize];
        whole_mark(flat)
    }

    /// The words from which the journal goes on.
    pub fn start(&self) -> &[u64]
        ensures { result.now ≡ self.now.start }
    {
        &self.start
    }
}
