//! Calls of eight workers over trees whose nodes are split and merged, stopped anywhere: each that is open is then ended by its worker alone,
//! one after the other.

use super::bench::{begin, holds, mark, marks, payload};
use super::decode::{child_of, decode_root, resolve, root};
use super::inner::{inserts, long};
use super::levels::Effects;
use super::neighbours::evict_written;
use super::random::Random;
use bz_call::{Call, Reply};
use bz_layout::{Config, MARKS_PER_CALL};
use bz_mark::Mark;
use bz_word::Status;
use bz_world::{Applied, Event, World};
use std::alloc::Global;
use std::process::Abort;

// How a run goes: its room, so many keys at first, rising by a step, and of eight calls so many deletes.
#[derive(Clone, Copy)]
struct Plan {
    nodes: u32,
    swaps: u32,
    keys: u32,
    step: u32,
    deletes: u8,
}

// A world of eight workers with the first keys. Its journal is shorter than what a call may take, so that one that goes on meets the limit.
fn grown(rt: &impl Abort, alloc: Global, plan: Plan) -> World {
    let config = Config {
        nodes: plan.nodes,
        swaps: plan.swaps,
        workers: 8,
        marks: 1 << 19,
        calls: 4_096,
        pages: 64,
    };
    let mut world = World::open(alloc, &config).expect(rt, "a world");
    for number in 1..=plan.keys {
        inserts(rt, &mut world, 1, number.saturating_mul(plan.step));
    }
    world
}

// A call with a key that is no greater than the first ones: of eight so many are deletes, one is a get, and the others are inserts.
fn some_call(rt: &impl Abort, random: &mut Random, plan: Plan) -> Call {
    let keys = plan.keys.saturating_mul(plan.step).max(1);
    let key = long(rt, random.draw() % keys);
    let kind = random.below(8);
    if kind < plan.deletes {
        Call::Delete(key)
    } else if kind == plan.deletes {
        Call::Get(key)
    } else {
        Call::Insert(key, payload(rt, b"w"))
    }
}

// A step of one of eight workers, or a begin; and now and then what it has written is evicted.
fn act(rt: &impl Abort, world: &mut World, random: &mut Random, plan: Plan) {
    let w = 1 + random.below(8);
    if world.apply(Event::Step(w)) == Applied::Idle {
        let call = some_call(rt, random, plan);
        begin(world, w, call);
    } else if random.below(8) == 0 {
        evict_written(world);
    }
}

// A worker's open call ends while it steps alone, within as many marks as the numbers of the world allow.
fn ends_alone(rt: &impl Abort, world: &mut World, w: u8) {
    let before = marks(world);
    holds(rt, matches!(world.solo(w), Applied::Ended(_)));
    let made = marks(world).saturating_sub(before);
    holds(rt, made <= most_alone(world));
    holds(rt, world.open_call(w).is_none());
}

// How many marks the numbers of a world allow to a call that is ended alone.
fn most_alone(world: &World) -> u32 {
    MARKS_PER_CALL.saturating_mul(world.config().workers.saturating_add(2))
}

// So do all that are open, from a random worker on. How many there were.
fn all_end(rt: &impl Abort, world: &mut World, random: &mut Random) -> u32 {
    let first = random.below(8);
    let mut ended = 0u32;
    for i in 0..8u8 {
        let w = 1 + (first + i) % 8;
        if world.open_call(w).is_some() {
            ends_alone(rt, world, w);
            ended = ended.saturating_add(1);
        }
    }
    ended
}

// How many replies of a journal tell that nothing is left.
fn count_full(world: &World) -> u32 {
    let mut count = 0u32;
    for i in 0..world.journal().length() {
        if let Some(
            Mark::End {
                reply: Reply::Full(_),
                ..
            },
        ) = mark(world, i)
        {
            count = count.saturating_add(1);
        }
    }
    count
}

// How many leaves a tree of one level or two has.
fn count_leaves(world: &World) -> Option<u32> {
    let (level, width) = decode_root(world)?;
    if level < 2 {
        return Some(width);
    }
    let mut count = 0u32;
    for i in 0..width {
        let parent = child_of(world, root(world), i)?;
        let status = Status::unpack(resolve(world, parent))?;
        count = count.saturating_add(status.count);
    }
    Some(count)
}

// What came of a run: how many calls were ended alone, how many of all found nothing left, and how many leaves there were and are.
#[derive(Clone, Copy, Debug)]
struct Outcome {
    ended: u32,
    full: u32,
    leaves: [u32; 2],
}

// A schedule, which is stopped.
fn acts(rt: &impl Abort, world: &mut World, random: &mut Random, plan: Plan) {
    for _ in 0..200 + random.draw() % 800 {
        act(rt, world, random, plan);
    }
}

// Twenty schedules in one world. After each of them the memory has the keys that the effects tell. How many calls were ended alone.
fn ends(rt: &impl Abort, world: &mut World, plan: Plan) -> u32 {
    let mut random = Random {
        state: u64::from(plan.nodes),
    };
    let mut effects = Effects::unread();
    let mut ended = 0u32;
    for _ in 0..20 {
        acts(rt, world, &mut random, plan);
        ended = ended.saturating_add(all_end(rt, world, &mut random));
        effects.agree(rt, world);
    }
    ended
}

// How many leaves a tree has.
fn leaves(rt: &impl Abort, world: &World) -> u32 {
    count_leaves(world).expect(rt, "a tree")
}

// A run, and what came of it.
fn run(rt: &impl Abort, alloc: Global, plan: Plan) -> Outcome {
    let mut world = grown(rt, alloc, plan);
    let before = leaves(rt, &world);
    let ended = ends(rt, &mut world, plan);
    Outcome {
        ended,
        full: count_full(&world),
        leaves: [before, leaves(rt, &world)],
    }
}

#[test]
fn calls_over_trees_that_grow_or_shrink_end_alone(rt: HostRuntime) {
    // the root has twenty-four leaves, and is split; or leaves are merged after deletes
    for (keys, step, deletes) in [(299, 3, 1), (120, 1, 6)] {
        let plan = Plan {
            nodes: 800,
            swaps: 3_000,
            keys,
            step,
            deletes,
        };
        let outcome = run(&rt, rt.alloc(), plan);
        let [before, after] = outcome.leaves;
        holds(&rt, outcome.ended > 100 && outcome.full == 0);
        holds(
            &rt,
            if deletes == 6 {
                after < before
            } else {
                after > before
            },
        );
    }
}

#[test]
fn calls_that_find_nothing_left_end_alone(rt: HostRuntime) {
    // no slots are left, or no descriptors
    for (nodes, swaps) in [(26, 3_000), (800, 300)] {
        let plan = Plan {
            nodes,
            swaps,
            keys: 100,
            step: 4,
            deletes: 1,
        };
        let outcome = run(&rt, rt.alloc(), plan);
        holds(&rt, outcome.ended > 100 && outcome.full > 0);
    }
}
