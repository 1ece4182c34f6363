//! Two neighbours below the root, both full, that are split at once.

use super::bench::{Answer, begin, holds, mark, marks, same, same_at, steps};
use super::decode::{child_of, decode_root, resolve, root};
use super::inner::{MOST, count_pairs, insert, inserts, open};
use bz_mark::Mark;
use bz_word::Status;
use bz_world::{Event, World};
use std::alloc::Global;
use std::process::Abort;

// Two nodes below the root with twenty-four leaves each. The first one's last leaf but one is full, and so is the second one's last leaf.
// Even numbers rising make leaves of twelve records, thirteen below the first node and twenty-four below the second; odd numbers
// split the first eleven of them, and fill the twelfth.
fn two_full(rt: &impl Abort, alloc: Global) -> World {
    let mut world = open(rt, alloc, 2);
    for number in 1..456 {
        inserts(rt, &mut world, 1, 2 * number);
    }
    for number in 1..144 {
        inserts(rt, &mut world, 1, 2 * number + 1);
    }
    world
}

// How many children the first two nodes below the root have.
fn widths(world: &World) -> Option<[u32; 2]> {
    let node = root(world);
    let first = Status::unpack(resolve(world, child_of(world, node, 0)?))?;
    let second = Status::unpack(resolve(world, child_of(world, node, 1)?))?;
    Some([first.count, second.count])
}

/// What the last act has written becomes durable by itself.
pub(super) fn evict_written(world: &mut World) {
    let last = marks(world).saturating_sub(1);
    if let Some(Mark::Store { a, .. } | Mark::Cas { a, .. }) = mark(world, last) {
        world.apply(Event::Evict(a));
    }
}

// A step of a worker whose call has not ended, with an eviction after it where this is asked for.
fn go_on(world: &mut World, w: u8, evicts: bool, ended: &mut Option<Answer>) {
    if ended.is_none() {
        *ended = steps(world, w, 1).1;
        if evicts {
            evict_written(world);
        }
    }
}

// Worker 1, whose insert splits the first node, has made so many acts when worker 2 begins, whose insert splits the second one; then
// they take turns.
fn take_turns(rt: &impl Abort, world: &mut World, acts: u32, evicts: bool) {
    let mut first = None;
    let mut second = None;
    holds(rt, begin(world, 1, insert(rt, 289)));
    for _ in 0..acts {
        go_on(world, 1, evicts, &mut first);
    }
    holds(rt, begin(world, 2, insert(rt, 912)));
    for _ in 0..MOST {
        go_on(world, 1, evicts, &mut first);
        go_on(world, 2, evicts, &mut second);
    }
    let ends = [first, second];
    same_at(rt, ends, [Some(Answer::Inserted); 2], acts);
}

// Both nodes are split then.
fn split_at_once(rt: &impl Abort, alloc: Global, acts: u32, evicts: bool) {
    let mut world = two_full(rt, alloc);
    same(rt, widths(&world), Some([24, 24]));
    take_turns(rt, &mut world, acts, evicts);
    same_at(rt, decode_root(&world), Some((2, 4)), acts);
    same_at(rt, count_pairs(rt, &mut world, 2), 600, acts);
}

#[test]
fn two_neighbours_are_split_at_once(rt: HostRuntime) {
    for turn in 0..4 {
        split_at_once(&rt, rt.alloc(), 1_000 * turn, turn % 2 == 1);
    }
}
