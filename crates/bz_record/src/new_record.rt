//! A record that is to be put into a leaf.

ghost use Rattle.std.specs.Prelude.{◌≡◌, ◌+◌, ◌<◌, ◌≤◌, ◌^◌, ◌∷◌, [], true, false, slice_index};
ghost use Rattle.bz_layout.specs.Config.{IsConfig};
ghost use Rattle.bz_layout.specs.declared.sizes.TheConstants.{META_AT, NODE_WORDS};
ghost use Rattle.bz_layout.specs.declared.thresholds.TheConstants.{RECORD_WORDS, RECORD_LINES};
ghost use Rattle.bz_word.specs.Statuses.{status, IsStatus};
ghost use Rattle.bz_record.specs.Records.{words_in, size_of, offset_of, place_of, address_of, HasRoom, LacksRoom, Fits};
ghost use Rattle.bz_record.specs.Writing.{first_line, last_line};
ghost use Rattle.bz_record.specs.Replacing.{growth, status_grown};
ghost use Rattle.bz_record.specs.Swaps.{reservation, publication, status_reserved, status_published};

use crate::record_swap::RecordSwap;
use bz_key::{Key, Payload};
use bz_layout::{Config, LINE_WORDS, NODE_WORDS, SHARED_WORDS, STATUS_AT};
use bz_task::EntryList;
use bz_word::{Entry, Extent, Meta, Status};

/// A record that is to be put into a leaf, directly before the leaf's block.
#[derive(Clone, Copy)]
pub struct NewRecord {
    /// The leaf's slot.
    pub slot: u16,
    /// The leaf's status when it was viewed.
    pub status: u64,
    pub key: Key,
    pub payload: Payload,
}

impl NewRecord {
    /// How many words are stored for it.
    pub fn size(&self) -> u32
        ensures size { result ≡ size_of self.now }
        ensures some { 0 < result }
        ensures few { result ≤ RECORD_WORDS }
    {
        bz_key::laws::packing_is_small();
        let _key = self.key.bytes();
        let _payload = self.payload.bytes();
        (self.key.words() + self.payload.words()) as u32
    }

    /// One of these words.
    pub fn word(&self, i: u32) -> u64
        requires { i < size_of self.now }
        ensures { result ≡ slice_index (words_in self.now) i }
    {
        let i = i as usize;
        let key_words = self.key.words();
        if i < key_words {
            self.key.word(i)
        } else {
            self.payload.word(i - key_words)
        }
    }

    /// Whether the leaf was not frozen, and has a free metadata word and the free words.
    pub fn has_room(&self) -> bool
        requires { self.now.status < 2 ^ 61 }
        ensures room { result ≡ true → HasRoom self.now.status (size_of self.now) }
        ensures none { result ≡ false → LacksRoom self.now.status (size_of self.now) }
    {
        let status = status_of(self.status);
        !status.frozen && status.count + 1 + status.block + self.size() <= SHARED_WORDS
    }

    /// The address of one of its words.
    pub fn address(&self, config: &Config, i: u32) -> u32
        requires config { IsConfig config.now }
        requires slot { self.now.slot < config.now.nodes }
        requires fits { Fits self.now }
        requires within { i < size_of self.now }
        ensures { result ≡ address_of config.now self.now i }
    {
        config.node_at(self.slot as u32) + (self.offset() + i)
    }

    /// The first line in which its words lie.
    pub fn first_line(&self, config: &Config) -> u32
        requires config { IsConfig config.now }
        requires slot { self.now.slot < config.now.nodes }
        requires fits { Fits self.now }
        ensures line { result ≡ first_line config.now self.now }
        ensures small { result < 2 ^ 29 }
    {
        let _size = self.size();
        self.address(config, 0) / LINE_WORDS
    }

    /// The last one, fewer than `RECORD_LINES` further.
    pub fn last_line(&self, config: &Config) -> u32
        requires config { IsConfig config.now }
        requires slot { self.now.slot < config.now.nodes }
        requires fits { Fits self.now }
        ensures line { result ≡ last_line config.now self.now }
        ensures near { result < first_line config.now self.now + RECORD_LINES }
    {
        self.address(config, self.size() - 1) / LINE_WORDS
    }

    /// The swap that reserves its place.
    pub fn reservation(&self) -> RecordSwap
        requires { Fits self.now }
        ensures { result ≡ reservation self.now }
    {
        RecordSwap {
            slot: self.slot,
            place: status_of(self.status).count,
            status: self.status,
            new_status: self.reserved_status(),
            meta: 0,
            new_meta: Meta::Reserved(self.extent()).pack(),
        }
    }

    /// The swap that makes it visible, after that.
    pub fn publication(&self) -> RecordSwap
        requires { Fits self.now }
        ensures { result ≡ publication self.now }
    {
        RecordSwap {
            slot: self.slot,
            place: status_of(self.status).count,
            status: self.reserved_status(),
            new_status: self.published_status(),
            meta: Meta::Reserved(self.extent()).pack(),
            new_meta: Meta::Visible(self.extent()).pack(),
        }
    }

    /// The swap of the status alone that gives the leaf's block its words, and takes no metadata word: the first swap of an
    /// update.
    pub fn growth(&self, config: &Config) -> EntryList
        requires config { IsConfig config.now }
        requires slot { self.now.slot < config.now.nodes }
        requires fits { Fits self.now }
        ensures { result ≡ growth config.now self.now ∷ [] }
    {
        EntryList::one(self.growth_entry(config))
    }

    // Its one entry.
    pub(crate) fn growth_entry(&self, config: &Config) -> Entry
        requires config { IsConfig config.now }
        requires slot { self.now.slot < config.now.nodes }
        requires fits { Fits self.now }
        ensures { result ≡ growth config.now self.now }
    {
        Entry {
            target: config.node_at(self.slot as u32) + STATUS_AT,
            expected: self.status,
            new: self.grown_status(),
        }
    }

    // Where its first word lies in the leaf.
    fn offset(&self) -> u32
        requires { Fits self.now }
        ensures place { result ≡ offset_of self.now }
        ensures from { META_AT < result }
        ensures to { result < NODE_WORDS }
    {
        NODE_WORDS - status_of(self.status).block - self.size()
    }

    // Where it lies.
    pub(crate) fn extent(&self) -> Extent
        requires { Fits self.now }
        ensures { result ≡ place_of self.now }
    {
        let key = self.key.bytes().len() as u32;
        Extent {
            offset: self.offset(),
            key,
            total: key + self.payload.bytes().len() as u32,
        }
    }

    // The status once its place is reserved.
    fn reserved_status(&self) -> u64
        requires { Fits self.now }
        ensures { result ≡ status_reserved self.now }
    {
        let old = status_of(self.status);
        let size = self.size();
        let new = Status {
            count: old.count + 1,
            block: old.block + size,
            dead: old.dead + size,
            stamp: old.stamp.wrapping_add(1),
            ..old
        };
        new.pack()
    }

    // The status once the block has its words, which are dead.
    pub(crate) fn grown_status(&self) -> u64
        requires { Fits self.now }
        ensures { result ≡ status_grown self.now }
    {
        let old = status_of(self.status);
        let size = self.size();
        let new = Status {
            block: old.block + size,
            dead: old.dead + size,
            stamp: old.stamp.wrapping_add(1),
            ..old
        };
        new.pack()
    }

    // The status once it is visible.
    fn published_status(&self) -> u64
        requires { Fits self.now }
        ensures { result ≡ status_published self.now }
    {
        bz_word::laws::statuses();
        let old = status_of(self.reserved_status());
        let new = Status {
            dead: old.dead - self.size(),
            stamp: old.stamp.wrapping_add(1),
            ..old
        };
        new.pack()
    }
}

// The status of a plain word.
pub(crate) fn status_of(word: u64) -> Status
    requires { word < 2 ^ 61 }
    ensures status { result ≡ status word }
    ensures lawful { IsStatus result }
{
    bz_word::laws::statuses();
    match Status::unpack(word) {
        Some(status) => status,
        None => Status {
            frozen: false,
            count: 0,
            block: 0,
            dead: 0,
            stamp: 0,
        },
    }
}
