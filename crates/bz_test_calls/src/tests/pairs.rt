//! Two calls, of which one stops after any number of acts.

use super::bench::{Answer, begin, holds, in_world, numbered, open, payload, same, steps, whole};
use super::decode::decode;
use super::reader::Reader;
use bz_call::Call;
use bz_key::{Key, Payload};
use bz_world::World;
use std::alloc::Global;
use std::process::Abort;

// More acts than any of these calls makes.
const MOST: u32 = 4_000;

// What the two workers answered, and how many acts each made.
#[derive(Clone, Copy)]
struct Outcome {
    first: (u32, Option<Answer>),
    second: (u32, Option<Answer>),
}

// Makes the rest of a worker's call, if it has not ended.
fn rest(world: &mut World, w: u8, made: (u32, Option<Answer>)) -> (u32, Option<Answer>) {
    if made.1.is_some() {
        made
    } else {
        steps(world, w, MOST)
    }
}

// The reader explains the journal, and the durable words are its map.
fn explained(rt: &impl Abort, alloc: Global, world: &World) {
    let mut reader = Reader::open(alloc).expect(rt, "a reader");
    holds(rt, reader.read_on(world).expect(rt, "room for the maps"));
    same(rt, decode(world), Some(reader.map()));
}

// Worker 1 makes so many acts of its call, then worker 2 so many of its own, then worker 1 the rest, and worker 2.
fn race(
    rt: &impl Abort,
    alloc: Global,
    world: &mut World,
    calls: &[Call; 2],
    acts: u32,
    turn: u32,
) -> Outcome {
    holds(rt, begin(world, 1, calls[0]));
    let first = steps(world, 1, acts);
    holds(rt, begin(world, 2, calls[1]));
    let second = steps(world, 2, turn);
    let first = rest(world, 1, first);
    let second = rest(world, 2, second);
    explained(rt, alloc, world);
    Outcome { first, second }
}

// Two inserts into an empty leaf.
fn ends(rt: &impl Abort, alloc: Global, keys: &[Key; 2], acts: u32, turn: u32) -> Outcome {
    let calls = [
        Call::Insert(keys[0], payload(rt, b"1")),
        Call::Insert(keys[1], payload(rt, b"2")),
    ];
    in_world(
        rt,
        alloc,
        16,
        256,
        2,
        |world| race(rt, alloc, world, &calls, acts, turn),
    )
}

// One of the two inserts, and the other finds the key.
fn one_inserts(rt: &impl Abort, outcome: &Outcome) {
    let first = outcome.first.1 == Some(Answer::Inserted);
    let (one, other) = if first {
        (outcome.first.1, outcome.second.1)
    } else {
        (outcome.second.1, outcome.first.1)
    };
    same(rt, one, Some(Answer::Inserted));
    same(rt, other, Some(Answer::Exists));
}

#[test]
fn one_of_two_inserts_of_a_key_finds_it(rt: HostRuntime) {
    let key = numbered(&rt, 0);
    let (whole, _) = ends(&rt, rt.alloc(), &[key, key], MOST, MOST).first;
    // a lookup of 6 loads, two swaps of two words, and the two words of the record with the ask and the fence for
    // their line
    same(&rt, whole, 6 + 32 + 4 + 32);
    for acts in 0..=whole {
        for turn in [acts, MOST] {
            one_inserts(&rt, &ends(&rt, rt.alloc(), &[key, key], acts, turn));
        }
    }
}

// Both were answered so, and worker 2 made no more acts than these.
fn both_end(rt: &impl Abort, outcome: &Outcome, first: Answer, second: Answer, most: u32) {
    same(rt, outcome.first.1, Some(first));
    same(rt, outcome.second.1, Some(second));
    holds(rt, outcome.second.0 <= most);
}

#[test]
fn a_stopped_insert_holds_nobody_up(rt: HostRuntime) {
    let keys = [numbered(&rt, 0), numbered(&rt, 1)];
    for acts in 0..=82 {
        let ends = ends(&rt, rt.alloc(), &keys, acts, MOST);
        both_end(&rt, &ends, Answer::Inserted, Answer::Inserted, 200);
    }
}

// Makes a whole call of worker 1, which is answered so.
fn makes(rt: &impl Abort, world: &mut World, call: Call, answer: Answer) {
    same(rt, whole(world, 1, call), Some(answer));
}

// A leaf with four records, and three words left: as many as an insert of a short record takes, or as an update to a
// short payload asks for.
fn crowd(rt: &impl Abort, world: &mut World, long: Payload) {
    for number in 0..3 {
        let insert = Call::Insert(numbered(rt, number), long);
        makes(rt, world, insert, Answer::Inserted);
    }
    let last = Call::Insert(numbered(rt, 3), payload(rt, b""));
    makes(rt, world, last, Answer::Inserted);
    for _ in 0..43 {
        let update = Call::Update(numbered(rt, 0), long);
        makes(rt, world, update, Answer::Updated(long));
    }
}

// Two calls in a leaf that is so full.
fn crowded(
    rt: &impl Abort,
    alloc: Global,
    calls: &[Call; 2],
    long: Payload,
    acts: u32,
    turn: u32,
) -> Outcome {
    in_world(rt, alloc, 16, 256, 2, |world| {
        crowd(rt, world, long);
        race(rt, alloc, world, calls, acts, turn)
    })
}

#[test]
fn the_call_without_the_last_words_copies_the_leaf(rt: HostRuntime) {
    let long = payload(&rt, &[b'x'; 28]);
    let calls = [
        Call::Insert(numbered(&rt, 4), payload(&rt, b"1")),
        Call::Update(numbered(&rt, 1), payload(&rt, b"2")),
    ];
    for turn in 0..367 {
        let acts = 3 * turn;
        let ends = crowded(&rt, rt.alloc(), &calls, long, acts, acts);
        both_end(&rt, &ends, Answer::Inserted, Answer::Updated(long), MOST);
    }
}

#[test]
fn a_stopped_copy_holds_nobody_up(rt: HostRuntime) {
    let long = payload(&rt, &[b'x'; 28]);
    let calls = [
        Call::Update(numbered(&rt, 1), long),
        Call::Insert(numbered(&rt, 4), payload(&rt, b"1")),
    ];
    for turn in 0..367 {
        let acts = 3 * turn;
        let ends = crowded(&rt, rt.alloc(), &calls, long, acts, MOST);
        both_end(&rt, &ends, Answer::Updated(long), Answer::Inserted, 1_800);
    }
}
