//! A record of a leaf, found by its key.

ghost use Rattle.std.specs.Prelude.{◌≡◌, ◌+◌, ◌<◌, ◌≤◌, ◌^◌, true};
ghost use Rattle.bz_key.specs.Packing.{packed_len};
ghost use Rattle.bz_slotted.specs.Page.{meta_of, visible, extent_of as extent_in};
ghost use Rattle.bz_word.specs.Metas.{IsExtent};
ghost use Rattle.bz_word.specs.Statuses.{status};
ghost use Rattle.bz_slotted.specs.FromNode.Reading.{extent_words};
ghost use Rattle.bz_record.specs.Records.{Fits};
ghost use Rattle.bz_record.specs.Replacing.{removal, replacement, status_grown};
ghost use Rattle.bz_record.specs.Swaps.{counted_status};
ghost use Rattle.bz_record.specs.Finding.{record_of};

use crate::new_record::{NewRecord, status_of};
use crate::record_swap::RecordSwap;
use bz_layout::{BYTES_IN_WORD, SHARED_WORDS};
use bz_task::Found;
use bz_word::{Extent, Meta, Status};

/// A visible record of a leaf: which metadata word is its, and where it lies.
#[derive(Clone, Copy)]
pub struct FoundRecord {
    pub place: u32,
    pub extent: Extent,
}

impl FoundRecord {
    /// The record that a look-up of a key found.
    pub fn of(found: &Found) -> FoundRecord
        requires { visible (meta_of found.now.meta) ≡ true }
        ensures { result ≡ record_of found.now }
    {
        match Meta::unpack(found.meta) {
            Some(meta) => FoundRecord {
                place: found.index,
                extent: extent_of(meta),
            },
            None => unreachable!(),
        }
    }

    /// The swap that takes it out of the leaf of a slot with this status.
    pub fn removal(&self, slot: u16, word: u64) -> RecordSwap
        requires plain { word < 2 ^ 61 }
        requires extent { IsExtent self.now.extent }
        requires some { 0 < self.now.extent.key }
        requires small { extent_words self.now.extent ≤ SHARED_WORDS }
        requires dead { (status word).dead ≤ SHARED_WORDS }
        ensures { result ≡ removal slot word self.now.place self.now.extent }
    {
        let old = status_of(word);
        let new = Status {
            dead: old.dead + self.words(),
            stamp: old.stamp.wrapping_add(1),
            ..old
        };
        let lengths = Meta::Deleted {
            key: self.extent.key,
            total: self.extent.total,
        };
        RecordSwap {
            slot,
            place: self.place,
            status: word,
            new_status: new.pack(),
            meta: Meta::Visible(self.extent).pack(),
            new_meta: lengths.pack(),
        }
    }

    /// The swap that puts a new record in its place, once the leaf's block has that record's words: the second swap of an
    /// update.
    pub fn replacement(&self, new: &NewRecord) -> RecordSwap
        requires fits { Fits new.now }
        requires extent { IsExtent self.now.extent }
        requires some { 0 < self.now.extent.key }
        requires small { extent_words self.now.extent ≤ SHARED_WORDS }
        ensures { result ≡ replacement new.now self.now.place self.now.extent }
    {
        RecordSwap {
            slot: new.slot,
            place: self.place,
            status: new.grown_status(),
            new_status: self.replaced_status(new),
            meta: Meta::Visible(self.extent).pack(),
            new_meta: Meta::Visible(new.extent()).pack(),
        }
    }

    // The status once the words of the new record are live, and those of this one dead.
    fn replaced_status(&self, new: &NewRecord) -> u64
        requires fits { Fits new.now }
        requires extent { IsExtent self.now.extent }
        requires small { extent_words self.now.extent ≤ SHARED_WORDS }
        ensures { result ≡ counted_status (status_grown new.now) ((status new.now.status).dead + extent_words self.now.extent) }
    {
        bz_word::laws::statuses();
        let old = status_of(new.grown_status());
        let replaced = Status {
            dead: old.dead - new.size() + self.words(),
            stamp: old.stamp.wrapping_add(1),
            ..old
        };
        replaced.pack()
    }

    // How many words of the block it takes.
    fn words(&self) -> u32
        requires { IsExtent self.now.extent }
        ensures { result ≡ extent_words self.now.extent }
    {
        let key = self.extent.key;
        word_count(key) + word_count(self.extent.total - key)
    }
}

// How many words so many bytes take.
fn word_count(bytes: u32) -> u32
    requires { bytes < 2 ^ 16 }
    ensures words { result ≡ packed_len bytes }
    ensures small { result < 2 ^ 16 }
{
    bytes.div_ceil(BYTES_IN_WORD)
}

// Where a record lies, and its lengths.
#[tactic(auto, unfolding(bz_slotted::specs::Page::extent_of))]
fn extent_of(meta: Meta) -> Extent
    ensures { result ≡ extent_in meta }
{
    match meta {
        Meta::Unused => Extent {
            offset: 0,
            key: 0,
            total: 0,
        },
        Meta::Reserved(extent) => extent,
        Meta::Visible(extent) => extent,
        Meta::Deleted { key, total } => Extent {
            offset: 0,
            key,
            total,
        },
    }
}
