//! What the memory holds after each act of a sequence, worked out by hand from the rule of each act.

use super::bench::{same, same_at};
use bz_pm::Pm;
use std::process::Abort;
use std::test::Fail;

#[derive(Clone, Copy)]
enum Act {
    Store(u32, u64),
    // from an old word to a new one, where this one is found
    Cas(u32, u64, u64, u64),
    // an ask for a line, and a fence
    Fenced(u32),
    Evict(u32),
    Cut,
}

fn make(rt: &impl Abort, pm: &mut Pm, act: Act) {
    let words = pm.words();
    match act {
        Act::Store(a, v) => {
            assert!(rt; a < words);
            pm.store(a, v);
        }
        Act::Cas(a, old, new, found) => {
            assert!(rt; a < words);
            same(rt, pm.cas(a, old, new), found);
        }
        Act::Fenced(line) => {
            assert!(rt; line < words / 8 && pm.may_ask(1));
            pm.ask(1, line);
            assert!(rt; pm.may_ask(1));
            pm.fence(1);
        }
        Act::Evict(a) => {
            assert!(rt; a < words);
            pm.evict(a);
        }
        Act::Cut => pm.cut(),
    }
}

// The word of an address where these were changed; the others are 100 and their address.
fn word_after(changes: &[(u32, u64)], a: u32) -> u64 {
    for &(changed, word) in changes {
        if changed == a {
            return word;
        }
    }
    100 + a as u64
}

// The word at an address, in the caches and in the memory itself.
fn has_word(rt: &impl Abort, pm: &Pm, a: u32, cached: u64, durable: u64) {
    assert!(rt; a < pm.words());
    same_at(rt, pm.load(a), cached, a);
    same_at(rt, pm.durable(a), durable, a);
}

// These words differ from those at the start, in the caches and in the memory itself.
fn has(rt: &impl Abort, pm: &Pm, cached: &[(u32, u64)], durable: &[(u32, u64)]) {
    for a in 0..pm.words() {
        has_word(rt, pm, a, word_after(cached, a), word_after(durable, a));
    }
}

const START: [u64; 16] = [
    100, 101, 102, 103, 104, 105, 106, 107, 108, 109, 110, 111, 112, 113, 114, 115,
];

// An act, the cached words and the durable words that differ from the start after it.
const TABLE: [(Act, &[(u32, u64)], &[(u32, u64)]); 16] = [
    (Act::Store(7, 1), &[(7, 1)], &[]),
    (Act::Store(8, 2), &[(7, 1), (8, 2)], &[]),
    (Act::Cas(0, 100, 3, 100), &[(0, 3), (7, 1), (8, 2)], &[]),
    (Act::Cas(0, 100, 4, 3), &[(0, 3), (7, 1), (8, 2)], &[]),
    (Act::Fenced(0), &[(0, 3), (7, 1), (8, 2)], &[(0, 3), (7, 1)]),
    (
        Act::Evict(8),
        &[(0, 3), (7, 1), (8, 2)],
        &[(0, 3), (7, 1), (8, 2)],
    ),
    (
        Act::Evict(9),
        &[(0, 3), (7, 1), (8, 2)],
        &[(0, 3), (7, 1), (8, 2)],
    ),
    (
        Act::Store(15, 5),
        &[(0, 3), (7, 1), (8, 2), (15, 5)],
        &[(0, 3), (7, 1), (8, 2)],
    ),
    (
        Act::Store(7, 6),
        &[(0, 3), (7, 6), (8, 2), (15, 5)],
        &[(0, 3), (7, 1), (8, 2)],
    ),
    (
        Act::Fenced(1),
        &[(0, 3), (7, 6), (8, 2), (15, 5)],
        &[(0, 3), (7, 1), (8, 2), (15, 5)],
    ),
    (
        Act::Cut,
        &[(0, 3), (7, 1), (8, 2), (15, 5)],
        &[(0, 3), (7, 1), (8, 2), (15, 5)],
    ),
    (
        Act::Store(8, u64::MAX),
        &[(0, 3), (7, 1), (8, u64::MAX), (15, 5)],
        &[(0, 3), (7, 1), (8, 2), (15, 5)],
    ),
    (
        Act::Cas(8, u64::MAX, 0, u64::MAX),
        &[(0, 3), (7, 1), (8, 0), (15, 5)],
        &[(0, 3), (7, 1), (8, 2), (15, 5)],
    ),
    (
        Act::Cut,
        &[(0, 3), (7, 1), (8, 2), (15, 5)],
        &[(0, 3), (7, 1), (8, 2), (15, 5)],
    ),
    (
        Act::Cas(8, 0, 9, 2),
        &[(0, 3), (7, 1), (8, 2), (15, 5)],
        &[(0, 3), (7, 1), (8, 2), (15, 5)],
    ),
    (
        Act::Fenced(1),
        &[(0, 3), (7, 1), (8, 2), (15, 5)],
        &[(0, 3), (7, 1), (8, 2), (15, 5)],
    ),
];

// Each act of the table is made.
fn makes_each(rt: &impl Abort, pm: &mut Pm) {
    for (act, cached, durable) in TABLE {
        make(rt, pm, act);
        has(rt, pm, cached, durable);
    }
}

#[test]
fn each_act_changes_these_words(rt: HostRuntime) {
    let mut pm = Pm::open(rt.alloc(), &START, 1).expect(&rt, "a memory");
    same(&rt, pm.words(), 16);
    makes_each(&rt, &mut pm);
}

#[test]
fn a_memory_may_have_no_word(rt: HostRuntime) -> Result<(), Fail> {
    let mut pm = Pm::open(rt.alloc(), &[], 1)?;
    pm.cut();
    same(&rt, pm.words(), 0);
    Ok(())
}
