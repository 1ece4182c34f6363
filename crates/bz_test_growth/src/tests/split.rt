//! A root leaf that is split, and a tree of two levels.

use super::bench::{
    Answer, begin, finish, holds, numbered, open, payload, same, same_at, steps, whole,
};
use super::decode::decode_keys;
use super::pages::read_page;
use bz_call::Call;
use bz_key::Key;
use bz_world::World;
use std::alloc::Global;
use std::process::Abort;

// More acts than any of these calls makes.
const MOST: u32 = 4_000;

// A call of worker 1 is answered so.
fn answers(rt: &impl Abort, world: &mut World, call: Call, answer: Answer) {
    same(rt, whole(world, 1, call), Some(answer));
}

// Inserts the keys with these numbers, each of them new.
fn inserts(rt: &impl Abort, world: &mut World, numbers: &[u8]) {
    for number in numbers {
        let call = Call::Insert(numbered(rt, *number), payload(rt, b"v"));
        answers(rt, world, call, Answer::Inserted);
    }
}

// The lengths of the two pages from a key on, the second of which begins where the first ends.
fn walk(rt: &impl Abort, world: &mut World, from: Key) -> [usize; 2] {
    let (first, next) = read_page(rt, world, from);
    let (second, end) = read_page(rt, world, next.expect(rt, "a second page"));
    holds(rt, end.is_none());
    [first, second]
}

// The durable words have exactly the keys with numbers from 1 to the last one.
fn holds_up_to(rt: &impl Abort, world: &World, last: usize) {
    let seen = decode_keys(world).expect(rt, "a tree");
    for (number, found) in seen.iter().enumerate() {
        same_at(rt, *found, number >= 1 && number <= last, number);
    }
}

// The numbers from 1 on, rising.
fn rising() -> [u8; 81] {
    let mut numbers = [0; 81];
    let mut next = 1u8;
    for number in &mut numbers {
        *number = next;
        next = next.wrapping_add(1);
    }
    numbers
}

// The keys from 1 to this number are inserted.
fn rises(rt: &impl Abort, world: &mut World, last: usize) {
    inserts(rt, world, rising().get(..last).unwrap_or(&[]));
}

// Each of the keys has its payload.
fn finds(rt: &impl Abort, world: &mut World, numbers: &[u8]) {
    for number in numbers {
        let call = Call::Get(numbered(rt, *number));
        answers(rt, world, call, Answer::Value(payload(rt, b"v")));
    }
}

// The eighty keys go into four slots, with as many descriptors as they take; each is there, and the two pages are so long.
fn splits(rt: &impl Abort, alloc: Global, numbers: &[u8], lengths: [usize; 2]) {
    let mut world = open(alloc, 4, 162, 1).expect(rt, "a world");
    inserts(rt, &mut world, numbers);
    finds(rt, &mut world, numbers);
    same(rt, walk(rt, &mut world, numbered(rt, 1)), lengths);
    holds_up_to(rt, &world, 80);
}

#[test]
fn eighty_keys_rising(rt: HostRuntime) {
    let numbers = rising();
    splits(&rt, rt.alloc(), numbers.get(..80).unwrap_or(&[]), [40, 40]);
}

#[test]
fn eighty_keys_falling(rt: HostRuntime) {
    let mut numbers = rising();
    numbers.reverse();
    splits(&rt, rt.alloc(), numbers.get(1..).unwrap_or(&[]), [41, 39]);
}

// The eightieth key does not go into so few slots, of which it takes none.
fn lacks_nodes(rt: &impl Abort, alloc: Global, nodes: u32) {
    let mut world = open(alloc, nodes, 256, 1).expect(rt, "a world");
    rises(rt, &mut world, 79);
    is_full(rt, &mut world);
    holds_up_to(rt, &world, 79);
}

// Its leaf is full.
fn is_full(rt: &impl Abort, world: &mut World) {
    let v = payload(rt, b"v");
    let (first, last) = (numbered(rt, 1), numbered(rt, 80));
    answers(rt, world, Call::Insert(last, v), Answer::FullNodes);
    answers(rt, world, Call::Insert(first, v), Answer::Exists);
    answers(rt, world, Call::Get(last), Answer::Missing);
    answers(rt, world, Call::Delete(first), Answer::FullNodes);
}

#[test]
fn a_split_takes_three_slots(rt: HostRuntime) {
    for nodes in 1..4 {
        lacks_nodes(&rt, rt.alloc(), nodes);
    }
}

// A key has its payload put to itself, eighty times.
fn updates(rt: &impl Abort, world: &mut World, key: Key) {
    for _ in 0..80 {
        let v = payload(rt, b"v");
        answers(rt, world, Call::Update(key, v), Answer::Updated(v));
    }
}

// Then it is updated once more, goes, and comes again.
fn changes(rt: &impl Abort, world: &mut World, key: Key) {
    updates(rt, world, key);
    let (v, two) = (payload(rt, b"v"), payload(rt, b"2"));
    answers(rt, world, Call::Update(key, two), Answer::Updated(v));
    answers(rt, world, Call::Delete(key), Answer::Deleted(two));
    answers(rt, world, Call::Get(key), Answer::Missing);
    answers(rt, world, Call::Insert(key, two), Answer::Inserted);
    answers(rt, world, Call::Get(key), Answer::Value(two));
}

#[test]
fn leaves_below_a_parent_change_and_are_copied(rt: HostRuntime) {
    let mut world = open(rt.alloc(), 6, 400, 1).expect(&rt, "a world");
    rises(&rt, &mut world, 80);
    changes(&rt, &mut world, numbered(&rt, 1));
    holds_up_to(&rt, &world, 80);
}

// Twenty-three records of ten words each fill the root leaf but for eight words.
fn fills(rt: &impl Abort, world: &mut World) {
    for number in rising().get(1..24).unwrap_or(&[]) {
        let call = Call::Insert(numbered(rt, *number), payload(rt, &[b'v'; 56]));
        answers(rt, world, call, Answer::Inserted);
    }
}

// A worker begins to insert the key with this number, with a record of ten words.
fn begins(rt: &impl Abort, world: &mut World, w: u8, number: u8) {
    let call = Call::Insert(numbered(rt, number), payload(rt, &[b'v'; 56]));
    holds(rt, begin(world, w, call));
}

// An insert has ended, and its key was new.
fn is_inserted(rt: &impl Abort, ended: Option<Answer>, acts: u32) {
    same_at(rt, ended, Some(Answer::Inserted), acts);
}

// Over such a leaf worker 1 stops after so many acts of an insert that
// splits it; worker 2 makes its own, and then worker 1 the rest.
fn stops(rt: &impl Abort, world: &mut World, acts: u32, first: u8, second: u8) {
    begins(rt, world, 1, first);
    let ended = steps(world, 1, acts).1;
    begins(rt, world, 2, second);
    is_inserted(rt, steps(world, 2, MOST).1, acts);
    is_inserted(rt, finish(world, 1, ended, MOST), acts);
}

// Both keys are there then.
fn beside(rt: &impl Abort, alloc: Global, acts: u32, first: u8, second: u8) {
    let mut world = open(alloc, 16, 256, 2).expect(rt, "a world");
    fills(rt, &mut world);
    stops(rt, &mut world, acts, first, second);
    holds_up_to(rt, &world, 25);
}

#[test]
fn a_stopped_split_holds_nobody_up(rt: HostRuntime) {
    for turn in 0..18 {
        beside(&rt, rt.alloc(), 90 * turn, 25, 1);
        beside(&rt, rt.alloc(), 90 * turn, 1, 25);
    }
}
