//! Leaves below a parent that are split, and trees of two levels.

use super::bench::{Answer, begin, finish, holds, key, open, payload, same, same_at, steps, whole};
use super::pages::read_page;
use bz_call::Call;
use bz_key::Key;
use bz_world::World;
use std::alloc::Global;
use std::process::Abort;

// More acts than any of these calls makes.
const MOST: u32 = 6_000;

/// The last digit of a number.
pub(super) fn digit(number: u32) -> u8 {
    b'0' + (number % 10) as u8
}

/// The key `k` and three digits.
pub(super) fn numbered(rt: &impl Abort, number: u32) -> Key {
    let digits = [digit(number / 100), digit(number / 10), digit(number)];
    key(rt, &[b'k', digits[0], digits[1], digits[2]])
}

// Inserts the key with this number, which is new.
fn inserts(rt: &impl Abort, world: &mut World, number: u32) {
    let call = Call::Insert(numbered(rt, number), payload(rt, b"v"));
    same_at(rt, whole(world, 1, call), Some(Answer::Inserted), number);
}

// The key with this number is there.
fn has(rt: &impl Abort, world: &mut World, number: u32) {
    let call = Call::Get(numbered(rt, number));
    let value = Answer::Value(payload(rt, b"v"));
    same_at(rt, whole(world, 1, call), Some(value), number);
}

// The lengths of the pages from the first key on, each of which begins where the one before ends.
fn walk(rt: &impl Abort, world: &mut World) -> [usize; 12] {
    let mut lengths = [0; 12];
    let mut from = Some(numbered(rt, 1));
    for length in &mut lengths {
        let Some(first) = from else {
            break;
        };
        let (count, next) = read_page(rt, world, first);
        *length = count;
        from = next;
    }
    holds(rt, from.is_none());
    lengths
}

// How long they are together.
fn sum(lengths: &[usize; 12]) -> usize {
    let mut count = 0usize;
    for length in lengths {
        count = count.saturating_add(*length);
    }
    count
}

// How many pairs the pages have together.
fn count_pairs(rt: &impl Abort, world: &mut World) -> usize {
    sum(&walk(rt, world))
}

// In which order the keys from 1 to 199 come.
#[derive(Clone, Copy)]
enum Order {
    Rising,
    Falling,
    Shuffled,
}

// The key that comes there.
fn number_at(order: Order, place: u32) -> u32 {
    match order {
        Order::Rising => place,
        Order::Falling => 200u32.saturating_sub(place),
        Order::Shuffled => place % 199 * 37 % 199 + 1,
    }
}

// The keys are inserted, and are there.
fn comes(rt: &impl Abort, world: &mut World, order: Order) {
    for place in 1..200 {
        inserts(rt, world, number_at(order, place));
    }
    for number in 1..200 {
        has(rt, world, number);
    }
}

// How long the pages are then, in a world of so many slots and descriptors.
fn pages_of(rt: &impl Abort, alloc: Global, nodes: u32, swaps: u32, order: Order) -> [usize; 12] {
    let mut world = open(alloc, nodes, swaps, 1).expect(rt, "a world");
    comes(rt, &mut world, order);
    walk(rt, &mut world)
}

const RISEN: [usize; 12] = [40, 40, 40, 79, 0, 0, 0, 0, 0, 0, 0, 0];

// Each leaf is split when it has seventy-nine records, and keeps forty of them.
#[test]
fn keys_rising(rt: HostRuntime) {
    let lengths = pages_of(&rt, rt.alloc(), 10, 404, Order::Rising);
    same(&rt, lengths, RISEN);
}

const FALLEN: [usize; 12] = [43, 39, 39, 39, 39, 0, 0, 0, 0, 0, 0, 0];

// The first leaf is split, and its right half keeps thirty-nine.
#[test]
fn keys_falling(rt: HostRuntime) {
    let lengths = pages_of(&rt, rt.alloc(), 13, 406, Order::Falling);
    same(&rt, lengths, FALLEN);
}

#[test]
fn keys_shuffled(rt: HostRuntime) {
    let lengths = pages_of(&rt, rt.alloc(), 16, 456, Order::Shuffled);
    same(&rt, sum(&lengths), 199);
}

// Two leaves, of which the right one is full.
fn right_full(rt: &impl Abort, alloc: Global) -> World {
    let mut world = open(alloc, 16, 320, 2).expect(rt, "a world");
    for number in 1..121 {
        if number != 10 && number != 50 {
            inserts(rt, &mut world, number);
        }
    }
    inserts(rt, &mut world, 121);
    world
}

// A worker begins to insert the key with this number.
fn begins(rt: &impl Abort, world: &mut World, w: u8, number: u32) {
    let call = Call::Insert(numbered(rt, number), payload(rt, b"v"));
    holds(rt, begin(world, w, call));
}

// An insert has ended, and its key was new.
fn is_inserted(rt: &impl Abort, ended: Option<Answer>, acts: u32) {
    same_at(rt, ended, Some(Answer::Inserted), acts);
}

// Worker 1 stops after so many acts of an insert; worker 2 makes its own; and then worker 1 makes the rest.
fn race(rt: &impl Abort, world: &mut World, acts: u32, other: u32) {
    begins(rt, world, 1, 122);
    let (_, first) = steps(world, 1, acts);
    begins(rt, world, 2, other);
    let (_, second) = steps(world, 2, MOST);
    is_inserted(rt, second, acts);
    let first = finish(world, 1, first, MOST);
    is_inserted(rt, first, acts);
}

// The right one of two leaves is full, and worker 1 splits it; worker 2 inserts into the left half, the right half or the other leaf.
fn beside(rt: &impl Abort, alloc: Global, acts: u32, other: u32) {
    let mut world = right_full(rt, alloc);
    race(rt, &mut world, acts, other);
    same_at(rt, count_pairs(rt, &mut world), 121, other);
}

#[test]
fn a_stopped_split_holds_nobody_up(rt: HostRuntime) {
    for turn in 0..9 {
        for other in [50, 123, 10] {
            beside(&rt, rt.alloc(), 190 * turn, other);
        }
    }
}

// Two leaves below one parent become full.
fn fills_both(rt: &impl Abort, world: &mut World) {
    for number in 1..81 {
        inserts(rt, world, 2 * number);
    }
    for number in 1..40 {
        inserts(rt, world, 2 * number + 1);
        inserts(rt, world, 2 * number + 81);
    }
}

// Both are split at once.
fn splits_both(rt: &impl Abort, world: &mut World) {
    begins(rt, world, 1, 1);
    begins(rt, world, 2, 170);
    let mut first = None;
    let mut second = None;
    for _ in 0..MOST {
        first = finish(world, 1, first, 1);
        second = finish(world, 2, second, 1);
    }
    is_inserted(rt, first, MOST);
    is_inserted(rt, second, MOST);
}

// Two full leaves below one parent, which are split at once: one of the swaps comes first, and the other call begins again. It has
// waited and taken no slots for nothing: there are just enough for the first leaf and three splits.
#[test]
fn two_splits_below_one_parent(rt: HostRuntime) {
    let mut world = open(rt.alloc(), 10, 400, 2).expect(&rt, "a world");
    fills_both(&rt, &mut world);
    splits_both(&rt, &mut world);
    same(&rt, count_pairs(&rt, &mut world), 160);
}
