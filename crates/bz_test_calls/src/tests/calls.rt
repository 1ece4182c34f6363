//! The six calls, made by one worker.

use super::bench::{Answer, answers, answers_all, in_world, key, payload, same};
use bz_call::Call;
use bz_key::{Key, Payload};
use bz_world::World;
use std::alloc::Global;
use std::process::Abort;

// A payload of so many bytes, which are this one.
fn filled(rt: &impl Abort, byte: u8, length: usize) -> Payload {
    let bytes = [byte; 56];
    payload(rt, bytes.get(..length).unwrap_or(&[]))
}

// A page from a key on has these pairs, and no next page.
fn shows(rt: &impl Abort, world: &mut World, page: u32, from: Key, pairs: &[(Key, Payload)]) {
    answers(rt, world, Call::Page(from), Answer::Page(page, false));
    let journal = world.journal();
    assert!(rt; page < journal.page_count());
    same(rt, journal.page(page), pairs);
}

// Changes the payload of a key from one to another and back, by each call that may.
fn exchange(rt: &impl Abort, world: &mut World, k: Key, old: Payload, new: Payload) {
    let asked = [
        (Call::Update(k, new), Answer::Updated(old)),
        (Call::Get(k), Answer::Value(new)),
        (Call::Insert(k, old), Answer::Exists),
        (Call::Upsert(k, old), Answer::Updated(new)),
        (Call::Get(k), Answer::Value(old)),
    ];
    answers_all(rt, world, &asked);
}

// A key that is absent, by each call.
fn is_missing(rt: &impl Abort, world: &mut World, k: Key) {
    let new = filled(rt, b'n', 1);
    let asked = [
        (Call::Get(k), Answer::Missing),
        (Call::Update(k, new), Answer::Missing),
        (Call::Delete(k), Answer::Missing),
    ];
    answers_all(rt, world, &asked);
}

// The first key into an empty world, with each length of another payload.
fn first_comes(rt: &impl Abort, world: &mut World, b: Key, old: Payload) {
    is_missing(rt, world, b);
    shows(rt, world, 0, key(rt, b"a"), &[]);
    answers(rt, world, Call::Insert(b, old), Answer::Inserted);
    for other in [0, 7, 8, 56] {
        exchange(rt, world, b, old, filled(rt, b'n', other));
    }
}

// Two more.
fn others_come(rt: &impl Abort, world: &mut World, (a, b, c): (Key, Key, Key), old: Payload) {
    let asked = [
        (Call::Upsert(c, old), Answer::Inserted),
        (Call::Insert(a, old), Answer::Inserted),
    ];
    answers_all(rt, world, &asked);
    shows(rt, world, 1, a, &[(a, old), (b, old), (c, old)]);
    shows(rt, world, 2, key(rt, b"aa"), &[(b, old), (c, old)]);
}

// The first key goes, and comes again.
fn first_goes(rt: &impl Abort, world: &mut World, b: Key, c: Key, old: Payload) {
    answers(rt, world, Call::Delete(b), Answer::Deleted(old));
    is_missing(rt, world, b);
    shows(rt, world, 3, b, &[(c, old)]);
    answers(rt, world, Call::Insert(b, old), Answer::Inserted);
    shows(rt, world, 4, c, &[(c, old)]);
}

// Three keys come, of payloads of this length, and one goes.
fn is_a_map(rt: &impl Abort, world: &mut World, length: usize) {
    let (a, b, c) = (key(rt, b"a"), key(rt, b"b"), key(rt, &[b'c'; 56]));
    let old = filled(rt, b'o', length);
    first_comes(rt, world, b, old);
    others_come(rt, world, (a, b, c), old);
    first_goes(rt, world, b, c, old);
}

// A world whose payloads have this length.
fn answers_as_a_map(rt: &impl Abort, alloc: Global, length: usize) {
    in_world(rt, alloc, 16, 128, 1, |world| is_a_map(rt, world, length));
}

#[test]
fn calls_answer_as_a_map_does(rt: HostRuntime) {
    for length in [0, 7, 8, 56] {
        answers_as_a_map(&rt, rt.alloc(), length);
    }
}
