//! Power cuts after every number of acts of calls that have a leaf copied or split.

use super::bench::{
    Answer, begin, evict_all, holds, numbered, open, payload, recover, restart, same, steps, whole,
};
use super::decode::decode_keys;
use bz_call::Call;
use bz_world::World;
use std::alloc::Global;
use std::process::Abort;

// More acts than any of these calls makes, or a recovery after it.
const MOST: u32 = 8_000;

// What a call has made of its leaf, which has no room for its record.
#[derive(Clone, Copy)]
enum Kind {
    Copy,
    RootSplit,
    Split,
}

// How many keys are there before it, from 1 on.
fn keys_of(kind: Kind) -> u8 {
    match kind {
        Kind::Copy => 1,
        Kind::RootSplit => 23,
        Kind::Split => 35,
    }
}

// The call.
fn call_of(rt: &impl Abort, kind: Kind) -> Call {
    let long = payload(rt, &[b'v'; 56]);
    match kind {
        Kind::Copy => Call::Update(numbered(rt, 1), long),
        Kind::RootSplit => Call::Insert(numbered(rt, 24), long),
        Kind::Split => Call::Insert(numbered(rt, 36), long),
    }
}

// Inserts the keys with the numbers from 1 to this one, in records of ten words.
fn inserts(rt: &impl Abort, world: &mut World, last: u8) {
    let long = payload(rt, &[b'v'; 56]);
    for number in 0..last {
        let call = Call::Insert(numbered(rt, number.saturating_add(1)), long);
        same(rt, whole(world, 1, call), Some(Answer::Inserted));
    }
}

// Updates the first key, until its leaf has no room.
fn updates(rt: &impl Abort, world: &mut World) {
    let long = payload(rt, &[b'v'; 56]);
    for _ in 0..25 {
        let call = Call::Update(numbered(rt, 1), long);
        same(rt, whole(world, 1, call), Some(Answer::Updated(long)));
    }
}

// A world in which the call has its leaf made anew.
fn ready(rt: &impl Abort, alloc: Global, kind: Kind) -> World {
    let mut world = open(alloc, 8, 96, 1).expect(rt, "a world");
    inserts(rt, &mut world, keys_of(kind));
    if let Kind::Copy = kind {
        updates(rt, &mut world);
    }
    world
}

// The durable words have the keys from 1 to the last one, and one more at most: as many as are counted.
fn holds_keys(rt: &impl Abort, world: &World, last: u8) {
    let seen = decode_keys(world).expect(rt, "a tree");
    let mut count = 0u32;
    for (number, found) in seen.iter().enumerate() {
        if *found {
            count = count.saturating_add(1);
        } else {
            holds(rt, number == 0 || number > last as usize);
        }
    }
    same(rt, u64::from(count), world.pairs());
    holds(rt, count <= u32::from(last) + 1);
}

// The call is cut after so many acts. Whether it had ended.
fn cut(rt: &impl Abort, world: &mut World, kind: Kind, acts: u32, evicts: bool) -> bool {
    holds(rt, begin(world, 1, call_of(rt, kind)));
    let (_, answer) = steps(world, 1, acts);
    if evicts {
        evict_all(world);
    }
    restart(rt, world);
    answer.is_some()
}

// The keys are there, before the recovery and after it.
fn cut_after(rt: &impl Abort, alloc: Global, kind: Kind, acts: u32, evicts: bool) -> bool {
    let mut world = ready(rt, alloc, kind);
    let ended = cut(rt, &mut world, kind, acts, evicts);
    holds_keys(rt, &world, keys_of(kind));
    holds(rt, recover(&mut world, MOST));
    holds_keys(rt, &world, keys_of(kind));
    ended
}

// After every number of acts, up to its last one: how many these are.
fn cut_at_will(rt: &impl Abort, alloc: Global, kind: Kind, evicts: bool) -> u32 {
    for acts in 0..MOST {
        if cut_after(rt, alloc, kind, acts, evicts) {
            return acts;
        }
    }
    MOST
}

// With and without evictions before the cut. A call makes at least so many acts.
fn is_whole_or_nothing(rt: &impl Abort, alloc: Global, kind: Kind, least: u32) {
    for evicts in [false, true] {
        let acts = cut_at_will(rt, alloc, kind, evicts);
        holds(rt, acts >= least && acts < MOST);
    }
}

#[test]
fn a_copy_that_is_cut(rt: HostRuntime) {
    is_whole_or_nothing(&rt, rt.alloc(), Kind::Copy, 200);
}

#[test]
fn a_root_split_that_is_cut(rt: HostRuntime) {
    is_whole_or_nothing(&rt, rt.alloc(), Kind::RootSplit, 500);
}

#[test]
fn a_split_below_a_parent_that_is_cut(rt: HostRuntime) {
    is_whole_or_nothing(&rt, rt.alloc(), Kind::Split, 500);
}
