//! A world over an image, its steps up to a fence, whole calls, evictions, and what is found in it.

use super::images::{NODES, SWAPS};
use crate::tests::bench::{key, same};
use bz_call::{Call, Reply};
use bz_key::{Key, Payload};
use bz_layout::Config;
use bz_world::{Applied, Begun, Event, World};
use std::alloc::Global;
use std::process::Abort;

// More marks than a call and the three recoveries about it make, and more steps than any of them.
const MARKS: u32 = 16_384;

// A call, a get, and two pages.
const CALLS: u32 = 4;

const PAGES: u32 = 2;

/// What is found in a memory: how many pairs the pages have, and what a get of a key answers.
#[derive(Clone, Copy, PartialEq, Eq)]
pub(super) struct Found {
    pub(super) pairs: usize,
    pub(super) value: Option<Payload>,
}

/// A world over the words of an image.
pub(super) fn booted(rt: &impl Abort, alloc: Global, image: &[u64]) -> World {
    let config = Config {
        nodes: NODES,
        swaps: SWAPS,
        workers: 1,
        marks: MARKS,
        calls: CALLS,
        pages: PAGES,
    };
    assert!(rt; config.check().is_ok());
    assert!(rt; image.len() == config.words() as usize);
    World::boot(alloc, &config, image).expect(rt, "a world")
}

// Whether the next act of a worker is a fence.
fn flush_next(world: &World, w: u8) -> bool {
    u32::from(w) <= world.config().workers && world.flush_next(w)
}

/// Steps of a worker, up to the fence with this number, which is not made: none. Where it has fewer fences, what the last step was
/// answered.
pub(super) fn steps(world: &mut World, w: u8, fence: u8) -> Option<Applied> {
    let mut made = 0u8;
    for _ in 0..MARKS {
        if flush_next(world, w) {
            made = made.saturating_add(1);
            if made == fence {
                return None;
            }
        }
        let applied = world.apply(Event::Step(w));
        if applied != Applied::Stepped {
            return Some(applied);
        }
    }
    Some(Applied::Stepped)
}

/// Begins a call of worker 1.
pub(super) fn begin(rt: &impl Abort, world: &mut World, call: &Call) {
    assert!(rt; matches!(world.begin(1, *call), Begun::Begun(_)));
}

/// Begins a call of worker 1, and makes its steps up to the fence with this number: none. Where it has fewer fences, its reply.
pub(super) fn call(rt: &impl Abort, world: &mut World, call: &Call, fence: u8) -> Option<Reply> {
    begin(rt, world, call);
    match steps(world, 1, fence)? {
        Applied::Ended(n) => world.reply(1, n),
        _ => None,
    }
}

/// So many steps of worker 1, or fewer where its call has ended: its reply.
pub(super) fn acts(world: &mut World, most: u16) -> Option<Reply> {
    for _ in 0..most {
        if let Applied::Ended(n) = world.apply(Event::Step(1)) {
            return world.reply(1, n);
        }
    }
    None
}

// Whether a power cut would change the word at an address.
fn differs(world: &World, a: u32) -> bool {
    a < world.config().words() && world.differs(a)
}

/// The words that a power cut would change become durable, each where the next draw of the generator is high.
pub(super) fn evict(world: &mut World, seed: u64) {
    let mut state = seed;
    for a in 0..world.config().words() {
        if differs(world, a) {
            let product = state.wrapping_mul(6_364_136_223_846_793_005);
            state = product.wrapping_add(1_442_695_040_888_963_407);
            if state >> 63 == 1 {
                world.apply(Event::Evict(a));
            }
        }
    }
}

/// The power is cut, where it is on, and comes on again; the recovery goes up to the fence with this number, or to its end.
pub(super) fn recover(rt: &impl Abort, world: &mut World, fence: u8) {
    world.apply(Event::Cut);
    same(rt, world.apply(Event::On), Applied::On);
    let ended = steps(world, 0, fence);
    assert!(rt; matches!(ended, None | Some(Applied::Ready)));
}

// How many pairs the page from a key on has, and the key at which the next one begins.
fn page(rt: &impl Abort, world: &mut World, from: Key) -> (usize, Option<Key>) {
    match call(rt, world, &Call::Page(from), 0) {
        Some(Reply::Page { page, next }) => {
            let journal = world.journal();
            assert!(rt; page < journal.page_count());
            (journal.page(page).len(), next)
        }
        _ => (0, None),
    }
}

// How many pairs the pages have, of which there are one or two.
fn pairs(rt: &impl Abort, world: &mut World) -> usize {
    let (first, next) = page(rt, world, key(rt, b"a"));
    match next {
        Some(from) => {
            let (second, end) = page(rt, world, from);
            assert!(rt; end.is_none());
            first.saturating_add(second)
        }
        None => first,
    }
}

// The value that a reply to a get tells, or none where the key is missing.
fn value_of(rt: &impl Abort, reply: &Reply) -> Option<Payload> {
    match reply {
        Reply::Value(value) => Some(*value),
        Reply::Missing => None,
        _ => panic!(rt; "no reply to a get"),
    }
}

// And that a get of a key is answered.
fn value(rt: &impl Abort, world: &mut World, of: Key) -> Option<Payload> {
    match call(rt, world, &Call::Get(of), 0) {
        Some(reply) => value_of(rt, &reply),
        None => panic!(rt; "a get without an answer"),
    }
}

/// What is found in a world, whose pairs are as many as it counts.
pub(super) fn find(rt: &impl Abort, world: &mut World, of: Key) -> Found {
    let value = value(rt, world, of);
    let pairs = pairs(rt, world);
    same(rt, world.pairs(), pairs as u64);
    Found { pairs, value }
}
