//! What the calls cost beyond their lookup, which only loads.

use super::bench::{Answer, begin, holds, in_world, key, mark, payload, same, steps};
use bz_call::Call;
use bz_key::{Key, Payload};
use bz_mark::Mark;
use bz_world::World;
use std::process::Abort;

// Acts by their kinds.
#[derive(Clone, Copy, Debug, PartialEq, Eq)]
struct Costs {
    stores: u32,
    swaps: u32,
    asks: u32,
    fences: u32,
}

const NONE: Costs = Costs {
    stores: 0,
    swaps: 0,
    asks: 0,
    fences: 0,
};

// The acts from a mark on.
fn costs_from(world: &World, from: u32) -> Costs {
    let mut costs = NONE;
    for i in from..world.journal().length() {
        let kind = match mark(world, i) {
            Some(Mark::Store { .. }) => &mut costs.stores,
            Some(Mark::Cas { .. }) => &mut costs.swaps,
            Some(Mark::Ask { .. }) => &mut costs.asks,
            Some(Mark::Fence { .. }) => &mut costs.fences,
            _ => continue,
        };
        *kind = kind.saturating_add(1);
    }
    costs
}

// Whether the next act of worker 1 is a fence, as the world foretells it.
fn fences_next(rt: &impl Abort, world: &World) -> bool {
    assert!(rt; world.config().workers >= 1);
    world.flush_next(1)
}

fn is_at_most(costs: &Costs, most: &Costs) -> bool {
    costs.stores <= most.stores
        && costs.swaps <= most.swaps
        && costs.asks <= most.asks
        && costs.fences <= most.fences
}

// Makes a whole call of worker 1, which costs at most this; each of its fences was foretold.
fn costs_at_most(rt: &impl Abort, world: &mut World, call: Call, answer: Answer, most: Costs) {
    let from = world.journal().length();
    holds(rt, begin(world, 1, call));
    let mut foretold = 0u32;
    for _ in 0..1_000 {
        if fences_next(rt, world) {
            foretold = foretold.saturating_add(1);
        }
        if let (_, Some(ended)) = steps(world, 1, 1) {
            same(rt, ended, answer);
            break;
        }
    }
    let costs = costs_from(world, from);
    same(rt, costs.fences, foretold);
    holds(rt, is_at_most(&costs, &most));
}

// Whole calls of worker 1, one after the other, cost at most so much.
fn cost_at_most(rt: &impl Abort, world: &mut World, asked: &[(Call, Answer, Costs)]) {
    for (call, answer, most) in asked {
        costs_at_most(rt, world, *call, *answer, *most);
    }
}

const INSERT: Costs = Costs {
    stores: 18,
    swaps: 20,
    asks: 15,
    fences: 11,
};

const UPDATE: Costs = Costs {
    stores: 15,
    swaps: 16,
    asks: 13,
    fences: 10,
};

const DELETE: Costs = Costs {
    stores: 8,
    swaps: 10,
    asks: 7,
    fences: 5,
};

// Two keys come, of which one is updated.
fn comes(rt: &impl Abort, world: &mut World, (a, b): (Key, Key), (one, two): (Payload, Payload)) {
    let asked = [
        (Call::Insert(a, one), Answer::Inserted, INSERT),
        (Call::Update(a, two), Answer::Updated(one), UPDATE),
        (Call::Upsert(a, one), Answer::Updated(two), UPDATE),
        (Call::Upsert(b, one), Answer::Inserted, INSERT),
    ];
    cost_at_most(rt, world, &asked);
}

// Calls that change nothing.
fn stays(rt: &impl Abort, world: &mut World, a: Key, (one, two): (Payload, Payload)) {
    let asked = [
        (Call::Get(a), Answer::Value(one), NONE),
        (Call::Insert(a, two), Answer::Exists, NONE),
        (Call::Page(a), Answer::Page(0, false), NONE),
    ];
    cost_at_most(rt, world, &asked);
}

// A key goes, and is missing.
fn goes(rt: &impl Abort, world: &mut World, b: Key, one: Payload) {
    let asked = [
        (Call::Delete(b), Answer::Deleted(one), DELETE),
        (Call::Delete(b), Answer::Missing, NONE),
        (Call::Update(b, one), Answer::Missing, NONE),
        (Call::Get(b), Answer::Missing, NONE),
    ];
    cost_at_most(rt, world, &asked);
}

// Keys come, stay and go.
fn come_and_go(rt: &impl Abort, world: &mut World) {
    let (a, b) = (key(rt, b"a"), key(rt, b"b"));
    let (one, two) = (payload(rt, b"1"), payload(rt, b"2"));
    comes(rt, world, (a, b), (one, two));
    stays(rt, world, a, (one, two));
    goes(rt, world, b, one);
}

#[test]
fn changes_cost_no_more_than_two_swaps_and_their_record(rt: HostRuntime) {
    in_world(&rt, rt.alloc(), 16, 64, 1, |world| come_and_go(&rt, world));
}
