//! Trees that get lower: inner nodes under the root merged, and the root lowered, after deletes.

use super::bench::{
    Answer, applies, begin, finish, has_pairs, holds, payload, recover, same, same_at, steps, whole,
};
use super::decode::{child_of, decode_root, resolve, root};
use super::five_nodes::put_tree;
use super::inner::{MOST, insert, inserts, long};
use super::random::Random;
use bz_call::Call;
use bz_key::Key;
use bz_layout::Config;
use bz_word::Status;
use bz_world::{Applied, Event, World};
use std::alloc::Global;
use std::process::Abort;

// How many keys make a tree of three levels.
const KEYS: u32 = 560;

// More events than all their deletes take, by workers that take turns.
const EVENTS: u32 = 4_000_000;

fn config(nodes: u32, swaps: u32, workers: u32) -> Config {
    Config {
        nodes,
        swaps,
        workers,
        marks: 1 << 21,
        calls: 2_048,
        pages: 4,
    }
}

// A world over the tree of five nodes, once it is ready.
fn five_nodes(rt: &impl Abort, alloc: Global) -> World {
    let config = config(16, 64, 1);
    assert!(rt; config.check().is_ok());
    let mut words = bz_layout::fresh(alloc, &config).expect(rt, "the words");
    put_tree(&mut words, 65 * 16);
    assert!(rt; words.len() == config.words() as usize);
    let mut world = World::boot(alloc, &config, &words).expect(rt, "a world");
    applies(rt, &mut world, Event::On, Applied::On);
    holds(rt, recover(&mut world, 1 << 16));
    world
}

// How many nodes the tree has, which is of three levels at most.
fn count_nodes(world: &World) -> Option<u32> {
    let (level, count) = decode_root(world)?;
    let mut nodes = 1u32;
    if level > 0 {
        for i in 0..count {
            let child = child_of(world, root(world), i)?;
            let below = Status::unpack(resolve(world, child))?.count;
            let below = if level > 1 { below } else { 0 };
            nodes = nodes.saturating_add(1).saturating_add(below);
        }
    }
    Some(nodes)
}

#[test]
fn a_delete_takes_a_level_away(rt: HostRuntime) {
    let mut world = five_nodes(&rt, rt.alloc());
    same(&rt, decode_root(&world), Some((2, 2)));
    same(&rt, count_nodes(&world), Some(5));
    let (taken, left) = (world.taken(), world.left());
    let key = Key::of(b"a").expect(&rt, "a key");
    holds(&rt, begin(&mut world, 1, Call::Delete(key)));
    let (acts, answer) = steps(&mut world, 1, MOST);
    same(&rt, answer, Some(Answer::Deleted(payload(&rt, b"v"))));
    same(&rt, decode_root(&world), Some((1, 2)));
    same(&rt, count_nodes(&world), Some(3));
    has_pairs(&rt, &world, 2);
    // the swaps of the delete, of the merge and of the lowering; the merged node, and the root that was lowered
    same(&rt, world.taken().saturating_sub(taken), 3);
    same(&rt, left.saturating_sub(world.left()), 2);
    holds(&rt, acts < 2_000);
}

// A world with that many keys.
fn wide(rt: &impl Abort, alloc: Global, workers: u32) -> World {
    let mut world = World::open(alloc, &config(2_400, 8_000, workers)).expect(rt, "a world");
    for number in 1..KEYS + 1 {
        inserts(rt, &mut world, 1, number);
    }
    holds(rt, decode_root(&world).is_some_and(|root| root.0 == 2));
    world
}

// One worker deletes them, each so far behind the one before. They leave one node.
fn empties(rt: &impl Abort, alloc: Global, start: u32, step: u32) {
    let mut world = wide(rt, alloc, 1);
    for turn in 0..KEYS {
        let number = 1 + start.saturating_add(turn.saturating_mul(step)) % KEYS;
        let answer = whole(&mut world, 1, Call::Delete(long(rt, number)));
        same_at(rt, answer, Some(Answer::Deleted(payload(rt, b"v"))), turn);
    }
    same(rt, count_nodes(&world), Some(1));
    has_pairs(rt, &world, 0);
}

#[test]
fn deletes_rising_leave_one_node(rt: HostRuntime) {
    empties(&rt, rt.alloc(), 0, 1);
}

#[test]
fn deletes_falling_leave_one_node(rt: HostRuntime) {
    empties(&rt, rt.alloc(), KEYS - 1, KEYS - 1);
}

#[test]
fn deletes_shuffled_leave_one_node(rt: HostRuntime) {
    empties(&rt, rt.alloc(), 0, 37);
}

// An event of a worker: the delete of the next key begins, if none of its own is open and one is left; else it makes a step. How many
// have ended by it.
fn event(rt: &impl Abort, world: &mut World, w: u8, begun: &mut u32) -> u32 {
    match world.apply(Event::Step(w)) {
        Applied::Ended(_) => 1,
        Applied::Idle if *begun < KEYS => {
            let number = 1 + begun.saturating_mul(37) % KEYS;
            holds(rt, begin(world, w, Call::Delete(long(rt, number))));
            *begun = begun.saturating_add(1);
            0
        }
        _ => 0,
    }
}

// Eight workers delete them, in turns that are drawn. How many nodes are left.
fn eight_empty(rt: &impl Abort, alloc: Global, seed: u64) -> Option<u32> {
    let mut world = wide(rt, alloc, 8);
    let mut random = Random { state: seed };
    let (mut begun, mut ended) = (0, 0u32);
    for _ in 0..EVENTS {
        let w = random.below(8) + 1;
        ended = ended.saturating_add(event(rt, &mut world, w, &mut begun));
        if ended == KEYS {
            break;
        }
    }
    same_at(rt, ended, KEYS, seed);
    has_pairs(rt, &world, 0);
    count_nodes(&world)
}

// A merge that loses its race is dropped, so more than one node may be left.
#[test]
fn deletes_at_once_leave_few_nodes(rt: HostRuntime) {
    for seed in 1..3 {
        let nodes = eight_empty(&rt, rt.alloc(), seed);
        holds(&rt, nodes.is_some_and(|nodes| nodes < 40));
    }
}

// How many keys leave the second node below the root with a full last leaf, and no room for one child more.
const FULL: u32 = 455;

// The insert that splits that node is stopped after so many acts, while another worker deletes all keys; then it makes the rest.
fn beside_a_split(rt: &impl Abort, alloc: Global, acts: u32) {
    let mut world = World::open(alloc, &config(2_400, 8_000, 2)).expect(rt, "a world");
    for number in 1..FULL + 1 {
        inserts(rt, &mut world, 1, number);
    }
    holds(rt, begin(&mut world, 2, insert(rt, FULL + 1)));
    let ended = steps(&mut world, 2, acts).1;
    for number in 1..FULL + 1 {
        let answer = whole(&mut world, 1, Call::Delete(long(rt, number)));
        same_at(rt, answer, Some(Answer::Deleted(payload(rt, b"v"))), number);
    }
    let ended = finish(&mut world, 2, ended, MOST);
    same_at(rt, ended, Some(Answer::Inserted), acts);
    has_pairs(rt, &world, 1);
}

#[test]
fn a_stopped_split_holds_no_delete_up(rt: HostRuntime) {
    for turn in 0..8 {
        beside_a_split(&rt, rt.alloc(), 600 * turn);
    }
}
