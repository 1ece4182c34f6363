//! A page beside two changes of its leaf.

use super::bench::{
    Answer, begin, holds, in_world, mark, numbered, open, payload, same, steps, whole,
};
use super::reader::Reader;
use bz_call::Call;
use bz_key::{Key, Payload};
use bz_mark::Mark;
use bz_world::World;
use std::alloc::Global;
use std::process::Abort;

// The status word of the root leaf of a memory of 64 swaps.
const STATUS: u32 = 1_040;

// How often worker 2 has loaded the leaf's status.
fn status_loads(world: &World) -> u32 {
    let mut loads = 0u32;
    for i in 0..world.journal().length() {
        if let Some(
            Mark::Load {
                w: 2,
                a: STATUS,
                ..
            },
        ) = mark(world, i)
        {
            loads = loads.saturating_add(1);
        }
    }
    loads
}

// The pairs of the first page.
fn first_page<'a>(rt: &impl Abort, world: &'a World) -> &'a [(Key, Payload)] {
    let journal = world.journal();
    assert!(rt; journal.page_count() == 1);
    journal.page(0)
}

// Makes a call of worker 1 whole, which is answered so.
fn makes(rt: &impl Abort, world: &mut World, call: Call, answer: Answer) {
    same(rt, whole(world, 1, call), Some(answer));
}

// The first page has these pairs, and the reader explains it.
fn shows(rt: &impl Abort, alloc: Global, world: &World, pairs: &[(Key, Payload)]) {
    same(rt, first_page(rt, world), pairs);
    let mut reader = Reader::open(alloc).expect(rt, "a reader");
    holds(rt, reader.read_on(world).expect(rt, "room for the maps"));
}

// One key comes, and so many acts of a page from it on. Whether the page has ended.
fn stop(rt: &impl Abort, world: &mut World, acts: u32) -> bool {
    let (k, old) = (numbered(rt, 0), payload(rt, b"oo"));
    makes(rt, world, Call::Insert(k, old), Answer::Inserted);
    holds(rt, begin(world, 2, Call::Page(k)));
    let (_, ended) = steps(world, 2, acts);
    ended.is_some()
}

// The rest of a page that had loaded the status so often: where its second load found another one, it began again.
fn goes_on(rt: &impl Abort, world: &mut World, loads: u32) {
    steps(world, 2, 1_000);
    same(rt, status_loads(world), if loads == 1 { 4 } else { 2 });
}

// An insert and an update by worker 1.
fn changes(rt: &impl Abort, world: &mut World, old: Payload, new: Payload) {
    let (k, l) = (numbered(rt, 0), numbered(rt, 1));
    makes(rt, world, Call::Insert(l, old), Answer::Inserted);
    makes(rt, world, Call::Update(k, new), Answer::Updated(old));
}

// What the page shows, if it had ended before the changes or ends after them.
fn shown(rt: &impl Abort, alloc: Global, world: &World, ended: bool, old: Payload, new: Payload) {
    let (k, l) = (numbered(rt, 0), numbered(rt, 1));
    if ended {
        shows(rt, alloc, world, &[(k, old)]);
    } else {
        shows(rt, alloc, world, &[(k, new), (l, old)]);
    }
}

// A page of which so many acts come before an insert and an update: whether these came between its two loads of the
// status.
fn is_torn(rt: &impl Abort, alloc: Global, world: &mut World, acts: u32) -> bool {
    let (old, new) = (payload(rt, b"oo"), payload(rt, b"nn"));
    let ended = stop(rt, world, acts);
    let loads = status_loads(world);
    changes(rt, world, old, new);
    if !ended {
        goes_on(rt, world, loads);
    }
    shown(rt, alloc, world, ended, old, new);
    !ended && loads == 1
}

// The same in a fresh world.
fn beside(rt: &impl Abort, alloc: Global, acts: u32) -> bool {
    in_world(
        rt,
        alloc,
        16,
        64,
        2,
        |world| is_torn(rt, alloc, world, acts),
    )
}

#[test]
fn a_page_is_of_one_moment(rt: HostRuntime) {
    let mut torn = 0u32;
    for acts in 0..30 {
        if beside(&rt, rt.alloc(), acts) {
            torn = torn.saturating_add(1);
        }
    }
    // from the first load of the status to the second
    holds(&rt, torn >= 10);
}
