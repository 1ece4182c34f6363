//! How many steps a worker needs alone, beside many others that have stopped.

use super::random::Random;
use super::resolve::resolve;
use super::world::World;
use crate::tests::bench::holds;
use bz_oom::Memory;
use bz_swap_machine::Done;
use bz_word::Entry;
use std::alloc::Global;
use std::process::Abort;

const DESCRIPTORS: usize = 512;

// How many words come after the descriptors.
const PLACES: u32 = 192;

// What one worker does alone: a read or a swap of worker 64, or the operation that a worker has begun.
#[derive(Clone, Copy, Debug)]
enum Alone {
    Read(u32),
    Swap(u32),
    Own(u8),
}

// How many steps each worker of a chain has made: a number that goes up from link to link, and falls again.
#[derive(Clone, Copy, Debug)]
struct Stops {
    least: u32,
    rise: u32,
    span: u32,
}

impl Stops {
    fn at(self, link: u32) -> u32 {
        let above = link.saturating_mul(self.rise) % self.span.max(1);
        self.least.saturating_add(above)
    }
}

fn zeros(alloc: Global) -> Result<World, Memory> {
    let words = vec![in alloc; 0u64; 16 + 16 * DESCRIPTORS + PLACES as usize]?;
    World::open(alloc, &words, DESCRIPTORS as u32, 64)
}

fn address(world: &World, place: u32) -> u32 {
    world.first().saturating_add(place % PLACES)
}

// The entry that takes a place from the value that it stands for to the next one.
fn entry(world: &World, place: u32) -> Entry {
    let target = address(world, place);
    let expected = resolve(world, target) % 8;
    Entry {
        target,
        expected,
        new: expected + 1,
    }
}

// Begins a swap of four places, of which the first three follow one another; false where it may not come.
fn begin(world: &mut World, w: u8, place: u32, last: u32) -> bool {
    let place = place % PLACES;
    let entries = [
        entry(world, place),
        entry(world, place + 1),
        entry(world, place + 2),
        entry(world, last),
    ];
    matches!(world.begin(w, &entries), Some(Ok(_)))
}

// Makes so many steps of a worker, or fewer where it answers; how many it made.
fn steps(world: &mut World, w: u8, count: u32) -> u32 {
    for n in 0..count {
        match world.step(w) {
            Some(progress) if progress.done == Done::Busy => {}
            Some(_) => return n + 1,
            None => return n,
        }
    }
    count
}

// A chain: each of 63 swaps shares its last place with the first one of the next.
fn chain(world: &mut World, stops: Stops, last_first: bool) {
    for n in 0..63u8 {
        let link = if last_first { 62 - n } else { n };
        let place = 3 * link as u32;
        begin(world, link + 1, place, place + 3);
        steps(world, link + 1, stops.at(link as u32));
    }
}

// The entry that leaves a place as it is, and the one that changes it.
fn kept(world: &World, place: u32) -> Entry {
    Entry {
        target: address(world, place),
        expected: 0,
        new: 0,
    }
}

fn raised(world: &World, place: u32) -> Entry {
    Entry {
        new: 1,
        ..kept(world, place)
    }
}

// A link of a chain whose last place has a tag of a swap that has ended: worker 64 stops in that swap, the link's worker
// comes to it with two of its own pointers put, and falls asleep before it puts a tag; the swap ends, and it wakes.
fn stray_link(world: &mut World, link: u8) {
    let w = link.min(62) + 1;
    let place = 2 * link as u32;
    let last = 128 + link as u32;
    let ended = [kept(world, place + 2), kept(world, last)];
    world.begin(64, &ended);
    steps(world, 64, 14);
    let own = [
        kept(world, place),
        raised(world, place + 1),
        kept(world, place + 2),
        raised(world, last),
    ];
    world.begin(w, &own);
    steps(world, w, 33);
    steps(world, 64, 100);
    steps(world, w, 1);
}

// 63 workers that begin swaps of some of the first places and stop somewhere.
fn scatter(world: &mut World, random: &mut Random, places: u32) {
    for _ in 0..400 {
        let w = 1 + random.below(63) as u8;
        if world.idle(w) {
            let place = random.below(places.max(1)) % PLACES;
            let last = place + 3 + random.below(9);
            begin(world, w, place, last);
        }
        let count = random.below(68);
        steps(world, w, count);
    }
}

// How many steps a worker makes alone until it answers, and how many it may make: no more than are left to it, nor than is
// allowed.
fn count_alone(world: &mut World, alone: Alone) -> (u32, u32) {
    let busy = (1..=64u8).filter(|w| !world.idle(*w)).count() as u32;
    let (w, own) = match alone {
        Alone::Read(place) => {
            let a = address(world, place);
            world.begin_read(64, a);
            (64, 2)
        }
        Alone::Swap(place) => {
            begin(world, 64, place, place.saturating_add(3));
            (64, 128)
        }
        Alone::Own(w) => (w, 0),
    };
    let allowed = busy.saturating_mul(1_024).saturating_add(own);
    let limit = world.left(w).min(allowed);
    (steps(world, w, limit.saturating_add(1)), limit)
}

// What one worker may do beside a chain.
fn some_alone(n: u32) -> Alone {
    match n % 6 {
        0 => Alone::Read(0),
        1 => Alone::Swap(0),
        2 => Alone::Own(1),
        3 => Alone::Read(90),
        4 => Alone::Swap(60),
        _ => Alone::Own(30),
    }
}

// The greatest count beside chains with these stops; none where it is too great.
fn beside_chains(alloc: Global, stops: Stops) -> Result<Option<u32>, Memory> {
    let mut greatest = 0;
    for n in 0..12 {
        let mut world = zeros(alloc)?;
        chain(&mut world, stops, n < 6);
        let (steps, limit) = count_alone(&mut world, some_alone(n));
        if steps > limit {
            return Ok(None);
        }
        greatest = steps.max(greatest);
    }
    Ok(Some(greatest))
}

// The count beside a chain with 63 tags of swaps that have ended; none where it is too great.
fn beside_stray_tags(alloc: Global, alone: Alone) -> Result<Option<u32>, Memory> {
    let mut world = zeros(alloc)?;
    for link in 0..63 {
        stray_link(&mut world, link);
    }
    let (steps, limit) = count_alone(&mut world, alone);
    Ok(if steps <= limit { Some(steps) } else { None })
}

// The greatest count beside workers scattered over so many places; none where it is too great.
fn beside_scattered(alloc: Global, seed: u64, places: u32) -> Result<Option<u32>, Memory> {
    let mut world = zeros(alloc)?;
    let mut random = Random::from_seed(seed);
    scatter(&mut world, &mut random, places);
    let w = 1 + random.below(63) as u8;
    let alone = match random.below(3) {
        0 => Alone::Read(random.below(12)),
        1 => Alone::Swap(random.below(12)),
        _ if !world.idle(w) => Alone::Own(w),
        _ => Alone::Read(0),
    };
    let (steps, limit) = count_alone(&mut world, alone);
    Ok(if steps <= limit { Some(steps) } else { None })
}

// The greatest count beside chains whose links have stopped after each number of steps.
fn beside_each_chain(rt: &impl Abort, alloc: Global) -> u32 {
    let mut greatest = 0;
    for least in 0..=55 {
        for (rise, span) in [(0, 1), (1, 2), (1, 12), (5, 31), (17, 46)] {
            let stops = Stops { least, rise, span };
            let count = beside_chains(alloc, stops).expect(rt, "a memory");
            greatest = count.expect(rt, "a bound").max(greatest);
        }
    }
    greatest
}

// And beside each chain with such tags.
fn beside_each_stray(rt: &impl Abort, alloc: Global) -> u32 {
    let mut greatest = 0;
    for n in 0..6 {
        let count = beside_stray_tags(alloc, some_alone(n)).expect(rt, "a memory");
        greatest = count.expect(rt, "a bound").max(greatest);
    }
    greatest
}

// And beside workers scattered by each seed.
fn beside_each_scattered(rt: &impl Abort, alloc: Global) -> u32 {
    let mut greatest = 0;
    for seed in 0..2_000 {
        let places = 1 + seed as u32 % 40;
        let count = beside_scattered(alloc, seed, places).expect(rt, "a memory");
        greatest = count.expect(rt, "a bound").max(greatest);
    }
    greatest
}

#[test]
fn a_worker_alone_answers_within_its_bound(rt: HostRuntime) {
    let chains = beside_each_chain(&rt, rt.alloc());
    let strays = beside_each_stray(&rt, rt.alloc());
    let scattered = beside_each_scattered(&rt, rt.alloc());
    // some of these states are hard ones
    holds(&rt, chains.max(strays).max(scattered) > 30_000);
}
