//! Random runs of eight workers over six places, with evictions and power cuts, each beside the plain memory.

use super::random::Random;
use super::recover::recover;
use super::watched::{Change, Tally, Watched};
use crate::tests::bench::holds;
use bz_oom::Memory;
use bz_swap_machine::Done;
use std::alloc::Global;
use std::process::Abort;

const PLACES: usize = 6;

const WORKERS: u32 = 8;

const SWAPS: u16 = 48;

// A worker, of which the last ones act seldom.
fn some_worker(random: &mut Random) -> u8 {
    let limit = 1 + random.below(WORKERS);
    1 + random.below(limit) as u8
}

// A change of a place, whose expected value mostly stands.
fn some_change(watched: &Watched, random: &mut Random, place: u32) -> Change {
    let place = place as usize;
    let wrong = u64::from(random.below(8) / 7);
    let expected = watched.value(place).wrapping_add(wrong) % 4;
    Change::of(place, expected, u64::from(random.below(4)))
}

// Begins a swap of one to four places, which follow one another but for one that may be left out.
fn begin_swap(watched: &mut Watched, random: &mut Random, w: u8) {
    let count = 1 + random.below(4);
    let first = random.below(6 - count);
    let left_out = random.below(8);
    let mut changes = [Change::of(0, 0, 0); 4];
    for (i, change) in changes.iter_mut().enumerate() {
        let place = first + i as u32;
        let after = if place < left_out { 0 } else { 1 };
        *change = some_change(watched, random, place + after);
    }
    watched.begin(w, &changes[..count as usize]);
}

// A step of a worker, or the beginning of a read or swap.
fn act(watched: &mut Watched, random: &mut Random) {
    let w = some_worker(random);
    if !watched.world.idle(w) {
        watched.step(w);
    } else if random.below(3) == 0 {
        watched.begin_read(w, random.below(6) as usize);
    } else {
        begin_swap(watched, random, w);
    }
}

/// Evicts some word.
pub(crate) fn evict_some(watched: &mut Watched, random: &mut Random) {
    let words = watched.world.words().max(1);
    let a = random.below(words);
    watched.evict(a);
}

// So many random events.
fn work(watched: &mut Watched, random: &mut Random, events: u32) {
    for _ in 0..events {
        if random.below(10) == 0 {
            evict_some(watched, random);
        } else {
            act(watched, random);
        }
        watched.compare();
    }
}

// Steps at random until each worker has answered; false where one of them does not.
fn finish(watched: &mut Watched, random: &mut Random) -> bool {
    for _ in 0..20_000 {
        if (1..=8u8).all(|w| watched.world.idle(w)) {
            return true;
        }
        let w = some_worker(random);
        watched.step(w);
    }
    false
}

// Whether each place has its plain value in the caches.
fn is_clean(watched: &Watched) -> bool {
    for place in 0..PLACES {
        if watched.world.cached(watched.address(place)) != watched.value(place) {
            return false;
        }
    }
    true
}

// One life: work, then at times an end of all operations, and a power cut with a recovery.
fn live(watched: &mut Watched, random: &mut Random) -> bool {
    let events = 50 + random.below(1_500);
    work(watched, random, events);
    let ended = random.below(3) != 0 || finish(watched, random) && is_clean(watched);
    watched.cut();
    ended && recover(watched, random)
}

// Four lives with the same descriptors; none where something goes wrong.
fn run(alloc: Global, seed: u64) -> Result<Option<Tally>, Memory> {
    let mut random = Random::from_seed(seed);
    let mut watched = Watched::open(alloc, SWAPS, 8)?;
    for _ in 0..4 {
        if !live(&mut watched, &mut random) {
            return Ok(None);
        }
    }
    Ok(if watched.fault().is_none() {
        Some(watched.tally())
    } else {
        None
    })
}

// What was answered in so many runs.
fn runs(rt: &impl Abort, alloc: Global, count: u64) -> Tally {
    let mut tally = Tally::NONE;
    for seed in 0..count {
        let of_run = run(alloc, seed).expect(rt, "a memory");
        tally.add(of_run.expect(rt, "a run"));
    }
    tally
}

#[test]
fn random_runs_agree_with_a_plain_memory(rt: HostRuntime) {
    let tally = runs(&rt, rt.alloc(), 10_000);
    // much happens in these runs
    holds(&rt, tally.reads > 100_000);
    holds(&rt, tally.won > 100_000);
    holds(&rt, tally.lost > 100_000);
}
