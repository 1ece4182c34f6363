//! An opening, and the two swaps of an insert: the first reserves a record, the second publishes it.

use super::world::World;
use crate::tests::bench::{same, same_at};
use bz_swap::{NoSwap, Phase};
use bz_swap_machine::Done;
use bz_word::Entry;
use std::alloc::Global;
use std::process::Abort;

// The words of a memory of two descriptors.
const WORDS: usize = 1_064;

const STATUS: u32 = 1_040;

const META: u32 = 1_058;

const DIRTY: u64 = 1 << 63;

const RESERVED: [Entry; 2] = [
    Entry {
        target: STATUS,
        expected: 0,
        new: 0x0010_0802_0000_0001,
    },
    Entry {
        target: META,
        expected: 0,
        new: 0x0000_00FE_0001_0002,
    },
];

const PUBLISHED: [Entry; 2] = [
    Entry {
        target: STATUS,
        expected: 0x0010_0802_0000_0001,
        new: 0x0010_0800_0000_0002,
    },
    Entry {
        target: META,
        expected: 0x0000_00FE_0001_0002,
        new: 0x1000_00FE_0001_0002,
    },
];

// What is at an address when a memory is opened, and the phase that it opens in.
const OPENINGS: [(u32, u64, Phase); 8] = [
    (0, 0, Phase::Opened),
    (1_040, 0x0010_0802_0000_0001, Phase::Opened),
    (1_040, 1 << 63, Phase::Recovering),
    (1_040, 1 << 62, Phase::Recovering),
    (1_040, (1 << 61) + (1 << 18), Phase::Recovering),
    (16, 1, Phase::Recovering),
    (32, 2, Phase::Recovering),
    (33, 2, Phase::Opened),
];

// The durable words of both descriptors, and the two targets, after the insert.
const LEFT: [(u32, u64); 20] = [
    (16, DIRTY + 2),
    (17, 2),
    (18, 1_040),
    (19, 0),
    (20, 0x0010_0802_0000_0001),
    (21, 1_058),
    (22, 0),
    (23, 0x0000_00FE_0001_0002),
    (24, 0),
    (32, DIRTY + 2),
    (33, 2),
    (34, 1_040),
    (35, 0x0010_0802_0000_0001),
    (36, 0x0010_0800_0000_0002),
    (37, 1_058),
    (38, 0x0000_00FE_0001_0002),
    (39, 0x1000_00FE_0001_0002),
    (40, 0),
    (STATUS, DIRTY + 0x0010_0800_0000_0002),
    (META, DIRTY + 0x1000_00FE_0001_0002),
];

// A memory of zeros but for one word.
fn world_with(rt: &impl Abort, alloc: Global, at: u32, word: u64) -> World {
    let mut words = vec![in alloc; 0u64; WORDS].expect(rt, "the words");
    let place = at as usize % WORDS;
    words[place] = word;
    World::open(alloc, &words, 2, 2).expect(rt, "a memory")
}

// A memory with such a word opens so.
fn opens(rt: &impl Abort, alloc: Global, (at, word, phase): (u32, u64, Phase)) {
    let world = world_with(rt, alloc, at, word);
    same_at(rt, world.phase(), phase, at);
}

#[test]
fn words_of_an_unfinished_swap_need_a_recovery(rt: HostRuntime) {
    for opening in OPENINGS {
        opens(&rt, rt.alloc(), opening);
    }
}

// Steps until the worker's operation is answered: the answer, the number of steps, and the swaps whose effect was told.
fn run(world: &mut World, w: u8) -> Option<(Done, u32, [Option<u16>; 2])> {
    let mut told = [None, None];
    for n in 1..=100 {
        let progress = world.step(w)?;
        if let Some(swap) = progress.effect {
            told = [Some(swap), told[0]];
        }
        if progress.done != Done::Busy {
            return Some((progress.done, n, told));
        }
    }
    None
}

// The swap of these entries takes a descriptor, and effect once.
fn swaps(rt: &impl Abort, world: &mut World, swap: u16, entries: &[Entry; 2]) {
    same(rt, world.begin(1, entries), Some(Ok(swap)));
    let answer = (Done::Swapped(true), 32, [Some(swap), None]);
    same(rt, run(world, 1), Some(answer));
    for entry in entries {
        // only the cached word loses the dirty bit
        let word = DIRTY.wrapping_add(entry.new);
        same(rt, world.durable(entry.target), word);
    }
}

// The memory itself has each of these words.
fn has(rt: &impl Abort, world: &World, words: &[(u32, u64)]) {
    for (a, word) in words {
        same_at(rt, world.durable(*a), *word, a);
    }
}

#[test]
fn an_insert_is_two_swaps(rt: HostRuntime) {
    let mut world = world_with(&rt, rt.alloc(), 0, 1);
    swaps(&rt, &mut world, 0, &RESERVED);
    swaps(&rt, &mut world, 1, &PUBLISHED);
    same(&rt, world.begin(1, &PUBLISHED), Some(Err(NoSwap)));
    has(&rt, &world, &LEFT);
}
