//! The search for a key in the words of a leaf: first the records after the sorted ones, the last first, then the sorted ones by
//! halving.

ghost use Rattle.std.specs.Prelude.{◌≡◌, ◌≢◌, ◌≤◌, ◌<◌, length, take, Some, None};
ghost use Rattle.bz_key.specs.Packing.{packed_len, unpacked_key};
ghost use Rattle.bz_layout.specs.declared.sizes.TheConstants.{NODE_WORDS, FENCE_WORDS, SHARED_WORDS as SHARED};
ghost use Rattle.bz_node.specs.Reading.{payload_len};
ghost use Rattle.bz_find.specs.Words.{lies};
ghost use Rattle.bz_find.specs.Steps.{step_at, step_below, begun, place_of, passed, compared_with, finished, matched, ordered, key_word, payload_word, heard};
ghost use Rattle.bz_find.specs.Bounds.{IsStep, IsSized, IsSpot, IsLeafRecord};

use crate::front::{extent_of, is_leaf_record, words_for};
use bz_key::{Key, Payload};
use bz_layout::{FENCE_WORDS, META_AT};
use bz_search::{Probe, halved};
use bz_task::Found;
use std::cmp::Ordering;

/// A record that is looked at.
#[derive(Clone, Copy, Drop)]
pub(crate) enum Spot {
    /// One of those after the sorted ones, by its index.
    Tail(u32),
    /// One of the sorted ones.
    Sorted(Probe),
}

/// Which word a search wants next.
#[derive(Clone, Copy, Drop)]
pub(crate) enum Step {
    /// The metadata word of a record.
    Meta(Spot),
    /// Of the key of a record with this metadata word the word at an index.
    Word(Spot, u64, u32),
    /// Of the payload of the record at this index and with this metadata word the word at an index.
    Payload(u32, u64, u32),
    /// None: it has ended.
    Done,
}

/// A search for a key among the records of a leaf.
#[derive(Drop)]
pub(crate) struct Search {
    pub(crate) key: Key,
    /// How many records the leaf has, and how many of them, from the first on, are sorted.
    pub(crate) count: u32,
    pub(crate) sorted: u32,
    pub(crate) step: Step,
    /// How many metadata words among those of the sorted records it has met that name no visible record.
    pub(crate) dead: u32,
    // the words of a key or a payload that were read so far
    pub(crate) words: [u64; FENCE_WORDS as usize],
    /// The key's record, once it is found.
    pub(crate) found: Option<Found>,
}

// The step at a probe.
fn at_probe(probe: Option<Probe>) -> Step
    ensures { result ≡ step_at probe }
{
    match probe {
        Some(probe) => Step::Meta(Spot::Sorted(probe)),
        None => Step::Done,
    }
}

// The step after a record behind the sorted ones, of which there are so many.
fn below(sorted: u32, index: u32) -> Step
    requires { sorted ≤ SHARED }
    ensures { result ≡ step_below sorted index }
{
    if sorted < index {
        Step::Meta(Spot::Tail(index - 1))
    } else {
        at_probe(halved(0, sorted))
    }
}

// Of a key or a payload all words have room. Does nothing.
fn is_whole(words: &[u64; FENCE_WORDS as usize])
    ensures { length words.now ≡ FENCE_WORDS }
{}

// How a key compares with the one of this length that the words are; words that are none are taken for a later one.
fn compare(key: &Key, word: u64, words: &[u64; FENCE_WORDS as usize]) -> Ordering
    requires record { IsLeafRecord word }
    ensures { result ≡ compared_with key.now (unpacked_key (lies word).key (take (packed_len (lies word).key) words.now)) }
{
    let len = extent_of(word).key;
    let count = words_for(len) as usize;
    match Key::from_words(len as usize, &words[..count]) {
        Some(read) => key.cmp(&read),
        None => Ordering::Less,
    }
}

impl Search {
    /// A search in a leaf of so many records, of which so many are sorted.
    pub(crate) fn new(key: Key, count: u32, sorted: u32) -> Search
        requires count { count ≤ SHARED }
        requires sorted { sorted ≤ count }
        ensures { result ≡ begun key count sorted }
    {
        Search {
            key,
            count,
            sorted,
            step: below(sorted, count),
            dead: 0,
            words: [0; FENCE_WORDS as usize],
            found: None,
        }
    }

    /// The place in the leaf of the word that is wanted next.
    pub(crate) fn place(&self) -> u32
        requires { IsStep self.now }
        ensures place { result ≡ place_of self.now.step }
        ensures within { result < NODE_WORDS }
    {
        match self.step {
            Step::Meta(Spot::Tail(index)) => META_AT + index,
            Step::Meta(Spot::Sorted(probe)) => META_AT + probe.index,
            Step::Word(_, word, i) => extent_of(word).offset + i,
            Step::Payload(_, word, i) => {
                let extent = extent_of(word);
                extent.offset + words_for(extent.key) + i
            }
            Step::Done => 0,
        }
    }

    /// Takes the word that was wanted.
    pub(crate) fn hear(&mut self, word: u64)
        requires { IsStep self.old }
        ensures { self.new ≡ heard self.old word }
    {
        match self.step {
            Step::Meta(spot) => {
                if is_leaf_record(word) {
                    self.step = Step::Word(spot, word, 0);
                } else {
                    self.pass(spot);
                }
            }
            Step::Word(spot, meta, i) => {
                self.words[i as usize] = word;
                self.hear_key(spot, meta, i);
            }
            Step::Payload(index, meta, i) => {
                self.words[i as usize] = word;
                self.hear_payload(index, meta, i);
            }
            Step::Done => {}
        }
    }

    // A word of a record's key has been read.
    fn hear_key(&mut self, spot: Spot, meta: u64, i: u32)
        requires record { IsLeafRecord meta }
        requires sized { IsSized self.old }
        requires spot { IsSpot self.old spot }
        requires within { i < packed_len (lies meta).key }
        ensures { self.new ≡ key_word self.old spot meta i }
    {
        if i + 1 < words_for(extent_of(meta).key) {
            self.step = Step::Word(spot, meta, i + 1);
        } else {
            let order = compare(&self.key, meta, &self.words);
            self.order(spot, meta, order);
        }
    }

    // A word of the payload has been read.
    fn hear_payload(&mut self, index: u32, meta: u64, i: u32)
        requires record { IsLeafRecord meta }
        requires within { i < packed_len (payload_len (lies meta)) }
        ensures { self.new ≡ payload_word self.old index meta i }
    {
        let extent = extent_of(meta);
        if i + 1 < words_for(extent.total - extent.key) {
            self.step = Step::Payload(index, meta, i + 1);
        } else {
            self.finish(index, meta);
        }
    }

    // The record is none that readers see.
    fn pass(&mut self, spot: Spot)
        requires sized { IsSized self.old }
        requires spot { IsSpot self.old spot }
        ensures { self.new ≡ passed self.old spot }
    {
        match spot {
            Spot::Tail(index) => self.step = below(self.sorted, index),
            Spot::Sorted(probe) => {
                self.step = at_probe(probe.down());
                self.dead += 1;
            }
        }
    }

    // The key has been compared with that of a record.
    fn order(&mut self, spot: Spot, meta: u64, order: Ordering)
        requires record { IsLeafRecord meta }
        requires sized { IsSized self.old }
        requires spot { IsSpot self.old spot }
        ensures { self.new ≡ ordered self.old spot meta order }
    {
        match (spot, order) {
            (Spot::Tail(index), Ordering::Equal) => self.read_payload(index, meta),
            (Spot::Tail(index), _) => self.step = below(self.sorted, index),
            (Spot::Sorted(probe), Ordering::Less) => self.step = at_probe(probe.lower()),
            (Spot::Sorted(probe), Ordering::Equal) => self.read_payload(probe.index, meta),
            (Spot::Sorted(probe), Ordering::Greater) => self.step = at_probe(probe.upper()),
        }
    }

    // The record is the key's, and its payload is wanted next.
    fn read_payload(&mut self, index: u32, meta: u64)
        requires { IsLeafRecord meta }
        ensures { self.new ≡ matched self.old index meta }
    {
        let extent = extent_of(meta);
        if words_for(extent.total - extent.key) > 0 {
            self.step = Step::Payload(index, meta, 0);
        } else {
            self.finish(index, meta);
        }
    }

    // The record is the key's, and its payload has been read.
    fn finish(&mut self, index: u32, meta: u64)
        requires { IsLeafRecord meta }
        ensures { self.new ≡ finished self.old index meta }
    {
        let extent = extent_of(meta);
        let len = extent.total - extent.key;
        let count = words_for(len) as usize;
        self.step = Step::Done;
        self.found = match Payload::from_words(len as usize, &self.words[..count]) {
            Some(payload) => Some(Found {
                index,
                meta,
                payload,
            }),
            None => None,
        };
    }
}
