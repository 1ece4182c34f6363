//! Inner nodes that are split, and trees of three levels.

use super::below::digit;
use super::bench::{Answer, begin, finish, holds, key, payload, same, same_at, steps};
use super::decode::decode_root;
use super::pages::read_page;
use bz_call::Call;
use bz_key::Key;
use bz_layout::Config;
use bz_world::World;
use std::alloc::Global;
use std::process::Abort;

/// More acts than any of these calls makes.
pub(super) const MOST: u32 = 10_000;

// How many keys make a tree of three levels, in whatever order: an inner node has at most 24 children, and a leaf 23 records.
const MANY: u32 = 560;

/// A world of these workers with room for so many keys.
pub(super) fn open(rt: &impl Abort, alloc: Global, workers: u32) -> World {
    let config = Config {
        nodes: 400,
        swaps: 1_600,
        workers,
        marks: 1 << 19,
        calls: 1_024,
        pages: 64,
    };
    World::open(alloc, &config).expect(rt, "a world")
}

/// A key of fifty-six bytes, of which the last three are digits.
pub(super) fn long(rt: &impl Abort, number: u32) -> Key {
    let mut bytes = [b'k'; 56];
    bytes[53] = digit(number / 100);
    bytes[54] = digit(number / 10);
    bytes[55] = digit(number);
    key(rt, &bytes)
}

/// The insert of the key with this number.
pub(super) fn insert(rt: &impl Abort, number: u32) -> Call {
    Call::Insert(long(rt, number), payload(rt, b"v"))
}

/// Inserts the key with this number, which is new.
pub(super) fn inserts(rt: &impl Abort, world: &mut World, w: u8, number: u32) {
    holds(rt, begin(world, w, insert(rt, number)));
    let answer = steps(world, w, MOST).1;
    same_at(rt, answer, Some(Answer::Inserted), number);
}

/// How many pairs the pages have from a key on, each of which begins where the one before ends.
pub(super) fn count_pairs(rt: &impl Abort, world: &mut World, first: u32) -> usize {
    let mut count = 0usize;
    let mut from = Some(long(rt, first));
    for _ in 0..64 {
        let Some(first) = from else {
            break;
        };
        let (more, next) = read_page(rt, world, first);
        count = count.saturating_add(more);
        from = next;
    }
    holds(rt, from.is_none());
    count
}

// The tree has three levels, and all of the keys from 1 on.
fn is_tall(rt: &impl Abort, world: &mut World) {
    holds(rt, decode_root(world).is_some_and(|root| root.0 == 2));
    same(rt, count_pairs(rt, world, 1), MANY as usize);
}

#[test]
fn long_keys_rising(rt: HostRuntime) {
    let mut world = open(&rt, rt.alloc(), 1);
    for number in 1..MANY + 1 {
        inserts(&rt, &mut world, 1, number);
    }
    is_tall(&rt, &mut world);
}

#[test]
fn long_keys_falling(rt: HostRuntime) {
    let mut world = open(&rt, rt.alloc(), 1);
    for number in 0..MANY {
        inserts(&rt, &mut world, 1, MANY - number);
    }
    is_tall(&rt, &mut world);
}

#[test]
fn long_keys_shuffled(rt: HostRuntime) {
    let mut world = open(&rt, rt.alloc(), 1);
    for number in 0..MANY {
        inserts(&rt, &mut world, 1, 1 + number * 37 % MANY);
    }
    is_tall(&rt, &mut world);
}

// A world of two workers with rising keys up to this one.
fn risen(rt: &impl Abort, alloc: Global, last: u32) -> World {
    let mut world = open(rt, alloc, 2);
    for number in 1..last {
        inserts(rt, &mut world, 1, number);
    }
    inserts(rt, &mut world, 1, last);
    world
}

// The insert of a key. Worker 1 stops after so many acts of it; worker 2 makes an insert of its own; and then worker 1 makes the rest.
fn stops(rt: &impl Abort, world: &mut World, number: u32, acts: u32, other: u32) {
    holds(rt, begin(world, 1, insert(rt, number)));
    let (_, ended) = steps(world, 1, acts);
    inserts(rt, world, 2, other);
    let ended = finish(world, 1, ended, MOST);
    same(rt, ended, Some(Answer::Inserted));
}

// All keys are there from the first one on.
fn has_all(rt: &impl Abort, world: &mut World, other: u32, count: u32) {
    let first = other.min(1);
    same(rt, count_pairs(rt, world, first), count as usize);
}

// Rising keys up to this one; the insert of the next splits an inner node. The root is told before and after.
fn beside(
    rt: &impl Abort,
    alloc: Global,
    last: u32,
    acts: u32,
    other: u32,
) -> [Option<(u32, u32)>; 2] {
    let mut world = risen(rt, alloc, last);
    let before = decode_root(&world);
    stops(rt, &mut world, last.saturating_add(1), acts, other);
    has_all(rt, &mut world, other, last.saturating_add(2));
    [before, decode_root(&world)]
}

// Twenty-four leaves below one root, of which the last is full: the root is split into thirteen and eleven, and a root stands over them.
#[test]
fn a_stopped_split_of_an_inner_root(rt: HostRuntime) {
    for turn in 0..16 {
        for other in [0, 500] {
            let roots = beside(&rt, rt.alloc(), 299, 250 * turn, other);
            same(&rt, roots, [Some((1, 24)), Some((2, 2))]);
        }
    }
}

// Two nodes below the root, of which the last has twenty-four leaves: it is split, and the root has three.
#[test]
fn a_stopped_split_of_an_inner_node(rt: HostRuntime) {
    for turn in 0..16 {
        for other in [0, 500] {
            let roots = beside(&rt, rt.alloc(), 455, 330 * turn, other);
            same(&rt, roots, [Some((2, 2)), Some((2, 3))]);
        }
    }
}
