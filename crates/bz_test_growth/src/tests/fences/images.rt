//! Memories of eight node slots and sixteen descriptors, made word by word.

use crate::tests::five_nodes::put_tree;
use bz_layout::{NODE_WORDS, SUPERBLOCK_WORDS, SWAP_WORDS};
use std::alloc::Global;
use std::test::Fail;

/// The node slots.
pub(super) const NODES: u32 = 8;

/// The descriptors.
pub(super) const SWAPS: u32 = 16;

// Words before the first node: the superblock and the descriptors.
const BEFORE: u32 = SUPERBLOCK_WORDS + SWAPS * SWAP_WORDS;

const WORDS: u32 = BEFORE + NODES * NODE_WORDS;

const VISIBLE: u64 = 1 << 60;

const FROZEN: u64 = 1 << 60;

// The key `k32` as a word.
const K32: u64 = 0x006B_3332_0000_0000;

// Writes a word at an address of the memory.
fn put(words: &mut Vec<u64>, at: u32, word: u64) {
    if let Some(place) = words.get_mut(at as usize) {
        *place = word;
    }
}

// Writes a word of a slot.
fn put_in(words: &mut Vec<u64>, slot: u8, place: u8, word: u64) {
    put(
        words,
        BEFORE + slot as u32 * NODE_WORDS + place as u32,
        word,
    );
}

// The words of a memory whose root is slot 0.
fn memory(alloc: Global) -> Result<Vec<u64>, Fail> {
    let mut words = vec![in alloc; 0u64; WORDS as usize]?;
    for (at, word) in [(0, 2), (1, 1), (3, NODES), (4, SWAPS)] {
        put(&mut words, at, word as u64);
    }
    Ok(words)
}

// The word of the key `k` and two digits.
fn key_word(number: u8) -> u64 {
    let (tens, ones) = (b'0' + number / 10 % 10, b'0' + number % 10);
    0x006B_0000_0000_0000 + ((tens as u64) << 40) + ((ones as u64) << 32)
}

// Puts the record of a key and the payload `v` into a leaf, as its so-many-th one.
fn put_record(words: &mut Vec<u64>, slot: u8, place: u8, number: u8) {
    let offset = 254u8.saturating_sub(place.saturating_mul(2));
    let meta = VISIBLE + ((offset as u64) << 32) + 0x0003_0004;
    put_in(words, slot, place.saturating_add(18), meta);
    put_in(words, slot, offset, key_word(number));
    put_in(words, slot, offset.saturating_add(1), 0x0076 << 48);
}

// Puts a leaf without fences into a slot, with the keys of these numbers.
fn put_leaf(words: &mut Vec<u64>, slot: u8, first: u8, count: u8) {
    for place in 0..count {
        put_record(words, slot, place, first.saturating_add(place));
    }
    let (records, block) = (count as u64, count as u64 * 2);
    put_in(words, slot, 0, (records << 52) + (block << 42));
    put_in(words, slot, 1, records << 24);
}

/// A root leaf with `k01` to `k79`.
pub(super) fn full_root(alloc: Global) -> Result<Vec<u64>, Fail> {
    let mut words = memory(alloc)?;
    put_leaf(&mut words, 0, 1, 79);
    Ok(words)
}

/// A root over a leaf with `k10` to `k31` and one with `k32` to `k51`.
pub(super) fn two_leaves(alloc: Global) -> Result<Vec<u64>, Fail> {
    let mut words = memory(alloc)?;
    put_leaf(&mut words, 1, 10, 22);
    put_leaf(&mut words, 2, 32, 20);
    for (slot, place, word) in [
        // what the left leaf ends with, and the right one begins with
        (1, 1, (22 << 24) + (3 << 16)),
        (1, 10, K32),
        (2, 1, (20 << 24) + (3 << 8)),
        (2, 2, K32),
        // the root, at level 1: two records of three words in all
        (0, 0, (2 << 52) + (3 << 42)),
        (0, 1, (2 << 24) + 1),
        (0, 18, VISIBLE + (255 << 32) + 0x0000_0007),
        (0, 19, VISIBLE + (253 << 32) + 0x0003_000A),
        (0, 253, K32),
        (0, 254, 3),
        (0, 255, 2),
    ] {
        put_in(&mut words, slot, place, word);
    }
    Ok(words)
}

/// A frozen root leaf with `a` and its payload `1`.
pub(super) fn frozen_root(alloc: Global) -> Result<Vec<u64>, Fail> {
    let mut words = memory(alloc)?;
    for (place, word) in [
        (0, FROZEN + (1 << 52) + (2 << 42)),
        (1, 1 << 24),
        (18, VISIBLE + (254 << 32) + 0x0001_0002),
        (254, 0x0061 << 48),
        (255, 0x0031 << 48),
    ] {
        put_in(&mut words, 0, place, word);
    }
    Ok(words)
}

/// A root over two inner nodes with one leaf each: `a` and `b`, and `m`.
pub(super) fn three_levels(alloc: Global) -> Result<Vec<u64>, Fail> {
    let mut words = memory(alloc)?;
    put_tree(&mut words, BEFORE);
    Ok(words)
}
