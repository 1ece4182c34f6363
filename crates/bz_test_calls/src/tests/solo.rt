//! Calls that are ended by a worker alone, in worlds of 64 workers of which others have stopped in the middle of an insert.

use super::bench::{
    Answer, answered, answers, begin, has_pairs, holds, in_world_of, marks, numbered, payload,
    steps,
};
use super::reader::Reader;
use bz_call::Call;
use bz_key::{Key, Payload};
use bz_layout::{Config, MARKS_PER_CALL};
use bz_world::{Applied, World};
use std::alloc::Global;
use std::process::Abort;

// A memory of 64 workers with little room: its journal is shorter than what a call may take, so that one that goes on meets the limit.
const SIXTY_FOUR: Config = Config {
    nodes: 4,
    swaps: 256,
    workers: 64,
    marks: 1 << 14,
    calls: 256,
    pages: 1,
};

// Five records in its leaf, of which one is updated so often that a short record has no room beside them.
fn crowd(rt: &impl Abort, world: &mut World) {
    let long = payload(rt, &[b'x'; 28]);
    for number in 0..4 {
        let insert = Call::Insert(numbered(rt, number), long);
        answers(rt, world, insert, Answer::Inserted);
    }
    let short = Call::Insert(numbered(rt, 5), payload(rt, b"1"));
    answers(rt, world, short, Answer::Inserted);
    for _ in 0..42 {
        let update = Call::Update(numbered(rt, 0), long);
        answers(rt, world, update, Answer::Updated(long));
    }
}

// A worker's open call ends while it steps alone, within as many marks as the numbers of the world allow.
fn ends_alone(rt: &impl Abort, world: &mut World, w: u8) {
    let before = marks(world);
    holds(rt, matches!(world.solo(w), Applied::Ended(_)));
    let made = marks(world).saturating_sub(before);
    holds(rt, made <= most_alone(world));
    holds(rt, world.open_call(w).is_none());
}

// How many marks the numbers of a world allow to a call that is ended alone.
fn most_alone(world: &World) -> u32 {
    MARKS_PER_CALL.saturating_mul(world.config().workers.saturating_add(2))
}

// A plain map explains each reply.
fn explained(rt: &impl Abort, alloc: Global, world: &World) {
    let mut reader = Reader::open(alloc).expect(rt, "a reader");
    holds(rt, reader.read_on(world).expect(rt, "room for the maps"));
}

// A worker's open call ends alone, and a plain map explains its reply.
fn is_ended(rt: &impl Abort, alloc: Global, world: &mut World, w: u8) {
    ends_alone(rt, world, w);
    explained(rt, alloc, world);
}

// Worker 1 makes so many acts of its insert, or all of them, and then worker 2 begins to get the key. Whether the insert
// has ended.
fn begun(rt: &impl Abort, world: &mut World, k: Key, new: Payload, acts: u32) -> bool {
    holds(rt, begin(world, 1, Call::Insert(k, new)));
    let (_, ended) = steps(world, 1, acts);
    holds(rt, begin(world, 2, Call::Get(k)));
    ended.is_some()
}

// Worker 2 ends its get beside that alone, and then the insert is ended alone too. Whether the get found the key.
fn get_beside(rt: &impl Abort, alloc: Global, world: &mut World, acts: u32) -> bool {
    let (k, new) = (numbered(rt, 4), payload(rt, b"1"));
    let ended = begun(rt, world, k, new, acts);
    is_ended(rt, alloc, world, 2);
    let got = answered(world, 2, 1);
    let found = got == Some(Answer::Value(new));
    holds(rt, found || !ended && got == Some(Answer::Missing));
    if !ended {
        is_ended(rt, alloc, world, 1);
    }
    found
}

// Whether a get beside so many acts of an insert, into a full leaf or an empty one, found the key.
fn finds_beside(rt: &impl Abort, alloc: Global, full: bool, acts: u32) -> bool {
    in_world_of(rt, alloc, &SIXTY_FOUR, |world| {
        if full {
            crowd(rt, world);
        }
        get_beside(rt, alloc, world, acts)
    })
}

// How many of so many gets found the key, one after each number of acts of the insert, in steps of so many.
fn found_beside(rt: &impl Abort, alloc: Global, full: bool, stops: u32, step: u32) -> u32 {
    let mut found = 0u32;
    for k in 0..stops {
        let acts = step.saturating_mul(k.saturating_add(1));
        if finds_beside(rt, alloc, full, acts) {
            found = found.saturating_add(1);
        }
    }
    found
}

// The insert into an empty leaf takes seventy-three acts. Into a full one, which is copied for it, it takes some nine hundred and ninety.
#[test]
fn a_get_beside_a_stopped_insert_ends_alone(rt: HostRuntime) {
    for (full, stops, step) in [(false, 200, 1), (true, 40, 40)] {
        let found = found_beside(&rt, rt.alloc(), full, stops, step);
        // it is not there at first, and is there once the insert has ended
        holds(&rt, found > 0 && found < stops);
    }
}

// Each of the first 63 workers stops in the middle of the insert of a key, one some acts after the other.
fn stopped(rt: &impl Abort, world: &mut World, k: Key, acts: u32, apart: u32) {
    for w in 1..64u8 {
        holds(rt, begin(world, w, Call::Insert(k, payload(rt, &[w]))));
        let more = u32::from(w).saturating_mul(apart) % 74;
        steps(world, w, acts.saturating_add(more));
    }
}

// Each open call ends alone, that of the last worker first.
fn all_end(rt: &impl Abort, world: &mut World) {
    for w in 1..65u8 {
        if world.open_call(65 - w).is_some() {
            ends_alone(rt, world, 65 - w);
        }
    }
}

// So they do, and so does a get of the key by worker 64.
fn each_ends(rt: &impl Abort, alloc: Global, acts: u32, apart: u32) {
    in_world_of(rt, alloc, &SIXTY_FOUR, |world| {
        let k = numbered(rt, 0);
        stopped(rt, world, k, acts, apart);
        holds(rt, begin(world, 64, Call::Get(k)));
        all_end(rt, world);
        explained(rt, alloc, world);
        has_pairs(rt, world, 1);
    });
}

#[test]
fn each_of_sixty_four_workers_ends_alone(rt: HostRuntime) {
    for apart in [0, 1, 5, 13] {
        for acts in 0..19 {
            each_ends(&rt, rt.alloc(), 4 * acts, apart);
        }
    }
}
