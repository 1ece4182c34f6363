//! What gets cost that run alone: as many acts as their look-ups read words.
use super::bench::{Answer, begin, holds, in_world, key, payload, same, steps};
use bz_call::Call;
use bz_key::Key;
use bz_world::World;
use std::alloc::Global;
use std::process::Abort;

// More acts than any of these calls makes.
const MOST: u32 = 4_000;

// The last digit of a number.
fn digit(number: u32) -> u8 {
    b'0' + (number % 10) as u8
}

// The key `k` and three digits.
fn numbered(rt: &impl Abort, number: u32) -> Key {
    let digits = [digit(number / 100), digit(number / 10), digit(number)];
    key(rt, &[b'k', digits[0], digits[1], digits[2]])
}

// How many acts a call makes that runs alone.
fn acts(rt: &impl Abort, world: &mut World, call: Call) -> u32 {
    holds(rt, begin(world, 1, call));
    let (made, answer) = steps(world, 1, MOST);
    holds(rt, answer.is_some() && answer != Some(Answer::FullNodes));
    made
}

// The keys with even numbers, in steps of so many.
fn grow(rt: &impl Abort, world: &mut World, count: u32, step: u32) {
    let v = payload(rt, b"v");
    assert!(rt; count > 0);
    for i in 0..count {
        let number = (i.saturating_mul(step) % count).saturating_mul(2);
        acts(rt, world, Call::Insert(numbered(rt, number), v));
    }
}

// How many acts gets make of keys with every second number from a first one on.
fn of_keys(rt: &impl Abort, world: &mut World, count: u32, first: u32) -> u32 {
    let mut sum = 0u32;
    for i in 0..count {
        let number = i.saturating_mul(2).saturating_add(first);
        sum = sum.saturating_add(acts(rt, world, Call::Get(numbered(rt, number))));
    }
    sum
}

// How many acts gets make, of the keys with even numbers, which are there, and of those after them.
fn of_gets(rt: &impl Abort, alloc: Global, count: u32, step: u32) -> (u32, u32) {
    in_world(rt, alloc, 64, 640, 1, |world| {
        grow(rt, world, count, step);
        let there = of_keys(rt, world, count, 0);
        (there, of_keys(rt, world, count, 1))
    })
}

#[test]
fn gets_cost_what_their_look_ups_read(rt: HostRuntime) {
    for (count, step, sums) in [
        (10, 1, (180, 260)),
        (10, 7, (180, 260)),
        (100, 1, (3_960, 4_624)),
        (100, 37, (3_770, 4_236)),
    ] {
        same(&rt, of_gets(&rt, rt.alloc(), count, step), sums);
    }
}
