//! Random runs of eight workers over six keys, with evictions, beside the plain reader: over one node, and over so many that
//! full leaves are copied.

ghost use Rattle.std.specs.Prelude.{◌<◌};

use super::bench::{Answer, answer_of, begin, holds, mark, numbered, payload, same};
use super::decode::decode;
use super::map::KEYS;
use super::reader::Reader;
use bz_call::Call;
use bz_key::Payload;
use bz_layout::Config;
use bz_mark::Mark;
use bz_oom::Memory;
use bz_world::{Applied, Event, World};
use std::alloc::Global;
use std::process::Abort;
use std::test::Fail;

const SEEDS: u64 = 20;

const EVENTS: u32 = 24_000;

/// The generator of scripts.
#[derive(Clone, Copy)]
pub(super) struct Random {
    pub(super) state: u64,
}

impl Random {
    /// The next number.
    pub(super) fn draw(&mut self) -> u32 {
        let product = self.state.wrapping_mul(6_364_136_223_846_793_005);
        self.state = product.wrapping_add(1_442_695_040_888_963_407);
        (self.state >> 32) as u32
    }

    /// A number below this limit.
    pub(super) fn below(&mut self, limit: u8) -> u8
        requires { 0 < limit }
        ensures { result < limit }
    {
        (self.draw() % u32::from(limit)) as u8
    }
}

// A payload of up to 56 bytes, mostly a short one.
fn some_payload(rt: &impl Abort, random: &mut Random) -> Payload {
    let bytes = [b'a' + random.below(26); 56];
    let most = [1, 2, 8, 57][random.below(4) as usize];
    let length = random.below(most);
    payload(rt, bytes.get(..length as usize).unwrap_or(&[]))
}

fn some_call(rt: &impl Abort, random: &mut Random) -> Call {
    let k = numbered(rt, random.below(KEYS));
    let new = some_payload(rt, random);
    match random.below(8) {
        0 | 1 => Call::Insert(k, new),
        2 => Call::Delete(k),
        3 => Call::Update(k, new),
        4 | 5 => Call::Upsert(k, new),
        6 => Call::Get(k),
        _ => Call::Page(k),
    }
}

/// A step of some worker, of which the last ones act seldom; or a begin; or an eviction.
pub(super) fn act(rt: &impl Abort, world: &mut World, random: &mut Random) {
    if random.below(10) == 0 {
        let a = random.draw() % world.config().words().max(1);
        world.apply(Event::Evict(a));
        return;
    }
    let limit = 1 + random.below(8);
    let w = 1 + random.below(limit);
    if world.apply(Event::Step(w)) == Applied::Idle {
        let call = some_call(rt, random);
        begin(world, w, call);
    }
}

// Counts the Ends of each kind of reply.
fn tally(world: &World, counts: &mut [u32; 8]) {
    for i in 0..world.journal().length() {
        let Some(Mark::End { reply, .. }) = mark(world, i) else {
            continue;
        };
        let kind = match answer_of(&reply) {
            Answer::Inserted => 0,
            Answer::Exists => 1,
            Answer::Deleted(_) => 2,
            Answer::Updated(_) => 3,
            Answer::Missing => 4,
            Answer::Value(_) => 5,
            Answer::Page(..) => 6,
            Answer::FullNodes | Answer::FullSwaps | Answer::FullHeight => 7,
        };
        counts[kind] = counts[kind].saturating_add(1);
    }
}

// The reader explains the marks that it has not read yet, and its map is the memory's own.
fn explains(rt: &impl Abort, reader: &mut Reader, world: &World) -> Result<(), Memory> {
    holds(rt, reader.read_on(world)?);
    same(rt, decode(world), Some(reader.map()));
    Ok(())
}

// A schedule of this seed, which the reader explains after every tenth event.
fn follows(rt: &impl Abort, alloc: Global, world: &mut World, seed: u64) -> Result<(), Memory> {
    let mut reader = Reader::open(alloc)?;
    let mut random = Random { state: seed };
    for event in 0..EVENTS {
        act(rt, world, &mut random);
        if event % 10 == 0 {
            explains(rt, &mut reader, world)?;
        }
    }
    Ok(())
}

// The world of a seed: of every second one the nodes suffice, so that full leaves are copied, and the descriptors nearly do.
fn world_of(rt: &impl Abort, alloc: Global, seed: u64) -> World {
    let (nodes, swaps) = if seed % 2 == 0 { (1, 96) } else { (60, 500) };
    let config = Config {
        nodes,
        swaps,
        workers: 8,
        marks: 1 << 15,
        calls: 300,
        pages: 60,
    };
    World::open(alloc, &config).expect(rt, "a world")
}

// One run, and its replies.
fn run(rt: &impl Abort, alloc: Global, seed: u64, counts: &mut [u32; 8]) -> Result<(), Memory> {
    let mut world = world_of(rt, alloc, seed);
    follows(rt, alloc, &mut world, seed)?;
    tally(&world, counts);
    Ok(())
}

#[test]
fn random_runs_are_explained_by_a_map(rt: HostRuntime) -> Result<(), Fail> {
    same(&rt, Random { state: 0 }.draw(), 335_903_614);
    same(&rt, Random { state: 1 }.draw(), 1_817_669_548);
    let mut counts = [0; 8];
    for seed in 0..SEEDS {
        run(&rt, rt.alloc(), seed, &mut counts)?;
    }
    // each kind of reply comes often
    holds(&rt, counts.iter().all(|count| *count >= 10));
    Ok(())
}
