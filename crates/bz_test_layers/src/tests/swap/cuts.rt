//! A power cut after each step of a swap.

use super::resolve::resolve;
use super::world::World;
use crate::tests::bench::{holds, same};
use bz_oom::Memory;
use bz_swap::Phase;
use bz_word::Entry;
use std::alloc::Global;
use std::process::Abort;

pub(super) const FIRST: Entry = Entry {
    target: 50,
    expected: 0,
    new: 11,
};

pub(super) const SECOND: Entry = Entry {
    target: 1_050,
    expected: 0,
    new: 12,
};

const THIRD: Entry = Entry {
    target: 51,
    expected: 0,
    new: 13,
};

const FOURTH: Entry = Entry {
    target: 60,
    expected: 0,
    new: 14,
};

pub(super) fn zeros(alloc: Global) -> Result<World, Memory> {
    let words = vec![in alloc; 0u64; 1_056]?;
    World::open(alloc, &words, 2, 2)
}

// Evicts each of these words, and says how many effects were told.
fn evict_all(world: &mut World, evicted: &[u32]) -> u32 {
    let mut told: u32 = 0;
    for a in evicted.iter() {
        if world.evict(*a).is_some() {
            told = told.saturating_add(1);
        }
    }
    told
}

// Makes so many steps of worker 1, each of them with evictions after it, and says how many effects were told.
pub(super) fn steps(world: &mut World, count: u32, evicted: &[u32]) -> u32 {
    let mut told: u32 = 0;
    for _ in 0..count {
        let effect = world.step(1).and_then(|progress| progress.effect);
        if effect.is_some() {
            told = told.saturating_add(1);
        }
        told = told.saturating_add(evict_all(world, evicted));
    }
    told
}

// Whether each target stands for its new value where an effect was told, once, and for its old one where none was told.
fn is_whole(world: &World, entries: &[Entry], told: u32) -> bool {
    entries.iter().all(|entry| {
        let value = resolve(world, entry.target);
        match told {
            0 => value == entry.expected,
            1 => value == entry.new,
            _ => false,
        }
    })
}

const TWO: [Entry; 2] = [FIRST, SECOND];

const FOUR: [Entry; 4] = [FIRST, THIRD, FOURTH, SECOND];

// What is evicted after each step of a swap of two words, and of one of four.
const OF_TWO: [&[u32]; 6] = [
    &[],
    &[16],
    &[17, 18, 19, 20, 21, 22, 23],
    &[50],
    &[1_050],
    &[16, 17, 18, 19, 20, 21, 22, 23, 50, 1_050],
];

const OF_FOUR: [&[u32]; 5] = [
    &[],
    &[16],
    &[24, 25, 26, 27, 28, 29],
    &[51, 60],
    &[16, 24, 26, 28, 50, 51, 60, 1_050],
];

// A power cut after so many steps leaves the swap whole or not at all.
fn cut_after(rt: &impl Abort, alloc: Global, entries: &[Entry], count: u32, evicted: &[u32]) {
    let mut world = zeros(alloc).expect(rt, "a memory");
    same(rt, world.begin(1, entries), Some(Ok(0)));
    let told = steps(&mut world, count, evicted);
    holds(rt, is_whole(&world, entries, told));
    world.cut();
    holds(rt, is_whole(&world, entries, told));
    same(rt, world.phase(), Phase::Recovering);
}

// A power cut after each step.
fn cut_after_each(rt: &impl Abort, alloc: Global, entries: &[Entry], evicted: &[u32]) {
    for count in 0..=54 {
        cut_after(rt, alloc, entries, count, evicted);
    }
}

#[test]
fn a_cut_leaves_a_swap_whole_or_not_at_all(rt: HostRuntime) {
    for evicted in OF_TWO {
        cut_after_each(&rt, rt.alloc(), &TWO, evicted);
    }
    for evicted in OF_FOUR {
        cut_after_each(&rt, rt.alloc(), &FOUR, evicted);
    }
}
