//! The swaps of a leaf's status and one of its metadata words.

ghost use Rattle.std.specs.Prelude.{◌≡◌, ◌<◌};
ghost use Rattle.bz_layout.specs.Config.{IsConfig};
ghost use Rattle.bz_record.specs.Swaps.{entries_of};

use bz_layout::{Config, META_AT, SHARED_WORDS, STATUS_AT};
use bz_task::EntryList;
use bz_word::Entry;

/// A swap of a leaf's status and of one of its metadata words: their places, and what is expected and what is new in each.
#[derive(Clone, Copy, Debug, PartialEq, Eq)]
pub struct RecordSwap {
    /// The leaf's slot.
    pub slot: u16,
    /// Which metadata word, from 0.
    pub place: u32,
    pub status: u64,
    pub new_status: u64,
    pub meta: u64,
    pub new_meta: u64,
}

impl RecordSwap {
    /// The entries of the swap.
    pub fn entries(&self, config: &Config) -> EntryList
        requires config { IsConfig config.now }
        requires slot { self.now.slot < config.now.nodes }
        requires place { self.now.place < SHARED_WORDS }
        ensures { result ≡ entries_of config.now self.now }
    {
        let node = config.node_at(self.slot as u32);
        let status = Entry {
            target: node + STATUS_AT,
            expected: self.status,
            new: self.new_status,
        };
        let meta = Entry {
            target: node + META_AT + self.place,
            expected: self.meta,
            new: self.new_meta,
        };
        EntryList::one(status).with(meta)
    }
}
