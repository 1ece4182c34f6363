//! Nodes and swaps that run out.

use super::bench::{
    Answer, answers, answers_all, applies, begin, holds, in_world, key, last_answer, numbered,
    payload, same,
};
use bz_call::Call;
use bz_key::{Key, Payload};
use bz_world::{Applied, Event, World};
use std::process::Abort;

// So many descriptors are taken.
fn has_taken(rt: &impl Abort, world: &World, taken: u32) {
    same(rt, world.taken(), taken);
}

// So many slots are left.
fn has_left(rt: &impl Abort, world: &World, left: u32) {
    same(rt, world.left(), left);
}

// Seventy-nine small records.
fn fills(rt: &impl Abort, world: &mut World, v: Payload) {
    for number in 1..80 {
        let insert = Call::Insert(numbered(rt, number), v);
        answers(rt, world, insert, Answer::Inserted);
    }
}

// What a change of a full leaf answers where no slot is left: of a key that is there, and of one that is not.
fn changes_nothing(rt: &impl Abort, world: &mut World, first: Key, past: Key, v: Payload) {
    let asked = [
        (Call::Insert(past, v), Answer::FullNodes),
        (Call::Update(first, v), Answer::FullNodes),
        (Call::Upsert(past, v), Answer::FullNodes),
    ];
    answers_all(rt, world, &asked);
}

// And a call that changes nothing.
fn is_read(rt: &impl Abort, world: &mut World, first: Key, past: Key, v: Payload) {
    let asked = [
        (Call::Get(first), Answer::Value(v)),
        (Call::Insert(first, v), Answer::Exists),
        (Call::Delete(past), Answer::Missing),
        (Call::Page(first), Answer::Page(0, false)),
    ];
    answers_all(rt, world, &asked);
}

// It is filled, and then takes no more.
fn is_filled(rt: &impl Abort, world: &mut World) {
    let v = payload(rt, b"v");
    let (first, past) = (numbered(rt, 1), numbered(rt, 80));
    fills(rt, world, v);
    changes_nothing(rt, world, first, past, v);
    is_read(rt, world, first, past, v);
    same(rt, page_length(world), 79);
}

#[test]
fn a_leaf_has_room_for_seventy_nine_small_records(rt: HostRuntime) {
    in_world(&rt, rt.alloc(), 1, 256, 1, |world| is_filled(&rt, world));
}

// So many updates of a key.
fn updates(rt: &impl Abort, world: &mut World, k: Key, v: Payload, many: u32) {
    for _ in 0..many {
        answers(rt, world, Call::Update(k, v), Answer::Updated(v));
    }
}

// No slot is left, and the key is read.
fn has_no_slot(rt: &impl Abort, world: &mut World, k: Key, v: Payload) {
    let asked = [
        (Call::Update(k, v), Answer::FullNodes),
        (Call::Get(k), Answer::Value(v)),
        (Call::Delete(k), Answer::FullNodes),
        (Call::Page(k), Answer::Page(0, false)),
    ];
    answers_all(rt, world, &asked);
    has_left(rt, world, 0);
}

// Each of four slots takes as many updates.
fn takes_updates(rt: &impl Abort, world: &mut World) {
    let (k, v) = (key(rt, b"a"), payload(rt, b"v"));
    answers(rt, world, Call::Insert(k, v), Answer::Inserted);
    updates(rt, world, k, v, 468);
    has_no_slot(rt, world, k, v);
}

#[test]
fn each_slot_takes_a_hundred_and_seventeen_updates_of_a_small_record(rt: HostRuntime) {
    in_world(
        &rt,
        rt.alloc(),
        4,
        1_024,
        1,
        |world| takes_updates(&rt, world),
    );
}

// Two descriptors were taken by an insert of a key, and no call finds more.
fn has_no_descriptor(rt: &impl Abort, world: &mut World, a: Key, b: Key, one: Payload) {
    let asked = [
        (Call::Insert(b, one), Answer::FullSwaps),
        (Call::Insert(a, one), Answer::Exists),
        (Call::Update(a, one), Answer::FullSwaps),
        (Call::Delete(a), Answer::FullSwaps),
        (Call::Get(a), Answer::Value(one)),
    ];
    answers_all(rt, world, &asked);
}

// The first insert takes both.
fn takes_both(rt: &impl Abort, world: &mut World) {
    let (a, b, one) = (key(rt, b"a"), key(rt, b"b"), payload(rt, b"1"));
    has_taken(rt, world, 0);
    answers(rt, world, Call::Insert(a, one), Answer::Inserted);
    has_no_descriptor(rt, world, a, b, one);
    has_taken(rt, world, 2);
    has_left(rt, world, 15);
}

#[test]
fn two_descriptors_are_one_insert(rt: HostRuntime) {
    in_world(&rt, rt.alloc(), 16, 2, 1, |world| {
        takes_both(&rt, world);
        applies(&rt, world, Event::Cut, Applied::Cut);
        has_taken(&rt, world, 0);
    });
}

// How many pairs the first page has; 0 where there is none.
fn page_length(world: &World) -> usize {
    let journal = world.journal();
    if journal.page_count() == 0 {
        return 0;
    }
    journal.page(0).len()
}

// A step of a worker's insert: how many it has ended, and how many of these have inserted.
fn step(rt: &impl Abort, world: &mut World, w: u8) -> (u32, u32) {
    let Applied::Ended(_) = world.apply(Event::Step(w)) else {
        return (0, 0);
    };
    match last_answer(world) {
        Some(Answer::Inserted) => (1, 1),
        answer => {
            same(rt, answer, Some(Answer::FullSwaps));
            (1, 0)
        }
    }
}

// Each of 64 workers makes a step of its insert in turn until all have ended; how many have inserted.
fn crowd(rt: &impl Abort, world: &mut World) -> u32 {
    let mut inserted = 0u32;
    let mut open = 64u32;
    for _ in 0..20_000 {
        for w in 1..=64 {
            let (ended, put) = step(rt, world, w);
            open = open.saturating_sub(ended);
            inserted = inserted.saturating_add(put);
        }
        if open == 0 {
            break;
        }
    }
    same(rt, open, 0);
    inserted
}

// Each of 64 workers begins an insert of a key of its own.
fn all_begin(rt: &impl Abort, world: &mut World, v: Payload) {
    for w in 1..=64 {
        holds(rt, begin(world, w, Call::Insert(numbered(rt, w), v)));
    }
}

// They do, and each pair that was inserted is there.
fn uses_up(rt: &impl Abort, world: &mut World) {
    all_begin(rt, world, payload(rt, b"v"));
    let inserted = crowd(rt, world);
    let page = Call::Page(numbered(rt, 0));
    answers(rt, world, page, Answer::Page(0, false));
    same(rt, page_length(world), inserted as usize);
    holds(rt, inserted >= 1 && inserted <= 50);
}

#[test]
fn sixty_four_workers_use_up_the_swaps(rt: HostRuntime) {
    in_world(&rt, rt.alloc(), 1, 100, 64, |world| uses_up(&rt, world));
}
