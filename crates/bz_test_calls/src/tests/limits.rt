//! What a world refuses.

use super::bench::{applies_all, begin, in_world_of, key, marks, payload, same, same_at, steps};
use bz_call::Call;
use bz_layout::{Config, ConfigError};
use bz_world::{Applied, Begun, Event, LimitKind, OpenError, World};
use std::process::Abort;

const SMALL: Config = Config {
    nodes: 1,
    swaps: 8,
    workers: 4,
    marks: 1_024,
    calls: 4,
    pages: 1,
};

const NO_NODES: Config = Config {
    nodes: 0,
    swaps: 8,
    workers: 4,
    marks: 1_024,
    calls: 4,
    pages: 1,
};

// A begin of a worker is answered so: of a page, or of a get.
fn begins(rt: &impl Abort, world: &mut World, w: u8, page: bool, begun: Begun) {
    let k = key(rt, b"a");
    let call = if page { Call::Page(k) } else { Call::Get(k) };
    same_at(rt, world.begin(w, call), begun, w);
}

#[test]
fn a_world_of_no_nodes_is_not_opened(rt: HostRuntime) {
    match World::open(rt.alloc(), &NO_NODES) {
        Ok(_) => panic!(rt; "no nodes"),
        Err(error) => same(&rt, error, OpenError::Config(ConfigError::Nodes)),
    }
}

// Events that a world without a call refuses, and an eviction of its last word.
const EVENTS: [(Event, Applied); 5] = [
    (Event::Step(5), Applied::NoWorker),
    (Event::Step(2), Applied::Idle),
    (Event::Step(0), Applied::Idle),
    (Event::Evict(400), Applied::NoWord),
    (Event::Evict(399), Applied::Evicted),
];

// Begins that it refuses, among others; and then each other worker may begin a call.
const BEGINS: [(u8, bool, Begun); 8] = [
    (0, false, Begun::NoWorker),
    (5, false, Begun::NoWorker),
    (2, true, Begun::Begun(1)),
    (2, false, Begun::Busy),
    (1, true, Begun::Limit(LimitKind::Pages)),
    (1, false, Begun::Begun(1)),
    (3, false, Begun::Begun(1)),
    (4, false, Begun::Begun(1)),
];

// Begins are answered so.
fn begins_all(rt: &impl Abort, world: &mut World) {
    for (w, page, begun) in BEGINS {
        begins(rt, world, w, page, begun);
    }
}

#[test]
fn a_world_names_what_it_refuses(rt: HostRuntime) {
    in_world_of(&rt, rt.alloc(), &SMALL, |world| {
        applies_all(&rt, world, &EVENTS);
        begins_all(&rt, world);
    });
}

// Four inserts of worker 1, one after the other.
fn inserts(rt: &impl Abort, world: &mut World) {
    for _ in 0..4 {
        let call = Call::Insert(key(rt, b"a"), payload(rt, b"1"));
        begin(world, 1, call);
        steps(world, 1, 100);
    }
}

// Evictions until the journal has no room for them.
fn fills(world: &mut World) {
    for _ in 0..1_024 {
        world.apply(Event::Evict(0));
    }
}

// What a world answers whose journal has no more room.
const FULL: [(Event, Applied); 4] = [
    (Event::Step(1), Applied::Limit),
    (Event::Step(5), Applied::NoWorker),
    (Event::Evict(0), Applied::Limit),
    (Event::Evict(400), Applied::NoWord),
];

// Its calls are used up, and then its journal.
fn is_filled(rt: &impl Abort, world: &mut World) {
    inserts(rt, world);
    begins(rt, world, 2, false, Begun::Limit(LimitKind::Calls));
    fills(world);
    // an act, an effect and an end have no more room
    same(rt, marks(world), 1_022);
}

#[test]
fn a_journal_that_is_full_ends_the_world(rt: HostRuntime) {
    in_world_of(&rt, rt.alloc(), &SMALL, |world| {
        is_filled(&rt, world);
        applies_all(&rt, world, &FULL);
        begins(&rt, world, 2, false, Begun::Limit(LimitKind::Marks));
    });
}
