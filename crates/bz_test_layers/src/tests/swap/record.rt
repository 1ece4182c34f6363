//! A record that is stored privately and flushed, and then published by a swap, with a power cut after each act.

use super::driver::evict_some;
use super::random::Random;
use super::recover::recover;
use super::watched::{Change, Fate, Watched};
use bz_oom::Memory;
use std::alloc::Global;
use std::test::Fail;

// The places of a record's two words, and of the two words that a swap changes to publish it: its name and a count.
#[derive(Clone, Copy, Debug)]
struct Layout {
    words: [usize; 2],
    published: [usize; 2],
}

const RECORD: [u64; 2] = [0x1111, 0x2222];

const NAME: u64 = 7;

const COUNT: u64 = 1;

// The acts of a whole publication: two private stores, an ask and a fence for each of them, and the acts of a swap of two words.
const ACTS: u32 = STORES_AND_FLUSHES + 32;

const STORES_AND_FLUSHES: u32 = 6;

// Makes the n-th act of worker 1.
fn act(watched: &mut Watched, layout: Layout, n: u32) {
    let [first, second] = layout.words;
    match n {
        0 => {
            watched.store(1, first, RECORD[0]);
        }
        1 => {
            watched.store(1, second, RECORD[1]);
        }
        2 => {
            watched.flush(1, first);
        }
        4 => {
            watched.flush(1, second);
        }
        3 | 5 => {
            watched.world.step(1);
        }
        _ => {
            watched.step(1);
        }
    }
}

// Makes so many acts, with evictions between them.
fn act_and_evict(watched: &mut Watched, random: &mut Random, layout: Layout, count: u32) {
    let [name, number] = layout.published;
    for n in 0..count {
        if n == STORES_AND_FLUSHES {
            let changes = [Change::of(name, 0, NAME), Change::of(number, 0, COUNT)];
            watched.begin(1, &changes);
        }
        act(watched, layout, n);
        for _ in 0..random.below(4) {
            evict_some(watched, random);
        }
        watched.compare();
    }
}

// Whether the record is published and whole, or not published.
fn is_whole(watched: &Watched, layout: Layout, published: bool) -> bool {
    let name = watched.value(layout.published[0]);
    let number = watched.value(layout.published[1]);
    let words = [
        watched.value(layout.words[0]),
        watched.value(layout.words[1]),
    ];
    if published {
        name == NAME && number == COUNT && words == RECORD
    } else {
        name == 0 && number == 0
    }
}

// Whether a cut after so many acts, and a recovery, leave the record published and whole or not published.
fn goes_well(alloc: Global, layout: Layout, count: u32, seed: u64) -> Result<bool, Memory> {
    let mut watched = Watched::open(alloc, 2, 1)?;
    let mut random = Random::from_seed(seed);
    act_and_evict(&mut watched, &mut random, layout, count);
    let published = matches!(watched.fate(0), Fate::Effective | Fate::Answered(true));
    let ended = count < ACTS || published;
    watched.cut();
    let cut = is_whole(&watched, layout, published);
    let recovered = recover(&mut watched, &mut random) && is_whole(&watched, layout, published);
    Ok(ended && cut && recovered && watched.fault().is_none())
}

#[test]
fn a_published_record_is_whole(rt: HostRuntime) -> Result<(), Fail> {
    for (words, published) in [([1, 2], [0, 3]), ([3, 6], [0, 7]), ([0, 7], [1, 2])] {
        let layout = Layout { words, published };
        for count in 0..=ACTS {
            for seed in 0..200 {
                let well = goes_well(rt.alloc(), layout, count, seed)?;
                assert!(rt; well, "{layout:?} {count} {seed}");
            }
        }
    }
    Ok(())
}
