//! A gate that lets a whole call of one thread happen between two acts of another's: the acts of a call are made in turns of
//! their own, and the bus is free between them.

use super::bench::{same, same_at};
use super::reader::{NONE, Tally, read};
use super::stages::{Hold, Until};
use super::threads::{Case, Kind, Part, Told, run};
use bz_layout::Config;
use bz_mark::Mark;
use bz_world::World;
use std::alloc::Global;
use std::process::Abort;
use std::sync::Wait;
use std::thread::Threads;

const TWO: Config = Config {
    nodes: 4,
    swaps: 64,
    workers: 2,
    marks: 1 << 12,
    calls: 2,
    pages: 0,
};

// The workers of the Begins and Ends of a journal, in their order.
fn ends_of(world: &World) -> [Option<(u8, bool)>; 4] {
    let journal = world.journal();
    let mut ends = [None; 4];
    let mut many = 0;
    for i in 0..journal.length() {
        let end = match journal.mark(i) {
            Mark::Begin { w, .. } => (w, false),
            Mark::End { w, .. } => (w, true),
            _ => continue,
        };
        if let Some(place) = ends.get_mut(many) {
            *place = Some(end);
        }
        many = many.saturating_add(1);
    }
    ends
}

// Each worker makes one insert: that of worker 1 comes once that of worker 2 is held.
const ONE: [Part; 1] = [Part {
    kind: Kind::Own,
    many: 1,
    after: Until::Held(1),
}];

const OTHERS: [Part; 1] = [Part {
    kind: Kind::Own,
    many: 1,
    after: Until::Now,
}];

// The calls begin and end so.
const ENDS: [Option<(u8, bool)>; 4] = [
    Some((2, false)),
    Some((1, false)),
    Some((1, true)),
    Some((2, true)),
];

// Both inserts are told, and began and ended so.
fn are_crossed(rt: &impl Abort, alloc: Global, world: &World, told: &[Told], acts: u32) {
    let tally = Tally {
        inserted: 2,
        ..NONE
    };
    same(rt, read(rt, alloc, world, told), tally);
    same_at(rt, ends_of(world), ENDS, acts);
}

// The insert of worker 2 is held after so many acts, until that of worker 1 was answered.
fn holds_after<R: Abort + Threads + Wait + Sync>(rt: &R, alloc: Global, acts: u32) {
    let hold = Some(Hold {
        worker: 2,
        acts,
        until: Until::Answered(1),
    });
    let case = Case {
        config: TWO,
        workers: &[1, 2],
        one: &ONE,
        others: &OTHERS,
        deeds: &[],
        hold,
    };
    let (world, told) = run(rt, alloc, &case);
    are_crossed(rt, alloc, &world, &told, acts);
}

#[test]
fn a_whole_call_happens_between_two_acts_of_another(rt: HostRuntime) {
    for acts in [1, 2, 5, 6, 7, 24, 41, 58, 72] {
        holds_after(&rt, rt.alloc(), acts);
    }
}
