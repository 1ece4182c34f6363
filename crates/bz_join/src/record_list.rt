//! A list of records with a room of its own, which takes no memory from elsewhere.

ghost use Rattle.std.specs.Prelude.{◌≡◌, ◌<◌, ◌≤◌, [], length};
ghost use Rattle.std.specs.List.{insert};

use bz_key::{Key, PAGE_PAIRS, Payload};
use std::marker::Model;

/// At most as many records as a leaf has, seen as their list.
#[derive(Drop)]
pub(crate) struct RecordList {
    pairs: [(Key, Payload); PAGE_PAIRS],
    count: usize,
}

impl Model for RecordList {
    ghost use Rattle.std.specs.Prelude.{List, ℕ, ◌≤◌, take};
    ghost use Rattle.bz_key.specs.declared.limits.TheConstants.{PAGE_PAIRS};

    ghost Value = { List (List ℕ × List ℕ) };

    ghost view = { λ r. take r.count r.pairs };

    ghost invariant = { λ r. r.count ≤ PAGE_PAIRS };
}

impl RecordList {
    /// No records.
    pub(crate) fn new() -> RecordList
        ensures { result ≡ [] }
    {
        match (Key::of(&[0]), Payload::of(&[])) {
            (Ok(key), Ok(payload)) => RecordList {
                pairs: [(key, payload); PAGE_PAIRS],
                count: 0,
            },
            _ => unreachable!(),
        }
    }

    /// The records, in their order.
    pub(crate) fn pairs(&self) -> &[(Key, Payload)]
        ensures same { result.now ≡ self.now }
        ensures fits { length self.now ≤ PAGE_PAIRS }
    {
        &self.pairs[..self.count]
    }

    /// Puts a record at a place, before the record that was there.
    pub(crate) fn insert(&mut self, place: usize, key: Key, payload: Payload)
        requires room { length self.old < PAGE_PAIRS }
        requires within { place ≤ length self.old }
        ensures { self.new ≡ insert self.old place (key, payload) }
    {
        let mut free = self.count;
        while free > place {
            self.pairs[free] = self.pairs[free - 1];
            free -= 1;
        }
        self.pairs[place] = (key, payload);
        self.count += 1;
    }
}
