//! What asks and fences leave of two words of one line, worked out by hand from the rule of each act.

use crate::Pm;
use std::alloc::Global;
use std::process::Abort;

#[derive(Clone, Copy)]
enum Act {
    Store(u32, u64),
    Ask(u8),
    Fence(u8),
    Evict(u32),
    Cut,
}

fn make(rt: &impl Abort, pm: &mut Pm, act: Act) {
    assert!(rt; pm.words() == 16);
    match act {
        Act::Store(a, v) => {
            assert!(rt; a < 16);
            pm.store(a, v);
        }
        Act::Ask(w) => {
            assert!(rt; pm.may_ask(w));
            pm.ask(w, 0);
        }
        Act::Fence(w) => {
            assert!(rt; pm.may_ask(w));
            pm.fence(w);
        }
        Act::Evict(a) => {
            assert!(rt; a < 16);
            pm.evict(a);
        }
        Act::Cut => pm.cut(),
    }
}

fn has(rt: &impl Abort, pm: &Pm, a: u32, word: (u64, u64)) {
    assert!(rt; a < pm.words());
    assert_eq!(rt; pm.load(a), word.0);
    assert_eq!(rt; pm.durable(a), word.1);
}

// Acts on a memory whose words are 0, then the cached and the durable value of word 0, and those of word 1.
const ROWS: [(&[Act], (u64, u64), (u64, u64)); 15] = [
    // an ask captures
    (
        &[
            Act::Store(0, 5),
            Act::Ask(1),
            Act::Store(0, 6),
            Act::Fence(1),
        ],
        (6, 5),
        (0, 0),
    ),
    // an ask alone makes nothing durable
    (&[Act::Store(0, 5), Act::Ask(1)], (5, 0), (0, 0)),
    // a fence does not go back behind an eviction
    (
        &[
            Act::Store(0, 5),
            Act::Ask(1),
            Act::Store(0, 6),
            Act::Evict(0),
            Act::Fence(1),
        ],
        (6, 6),
        (0, 0),
    ),
    // a fence is its own worker's
    (
        &[Act::Store(0, 5), Act::Ask(1), Act::Fence(2)],
        (5, 0),
        (0, 0),
    ),
    // a cut forgets what was asked for
    (
        &[Act::Store(0, 5), Act::Ask(1), Act::Cut, Act::Fence(1)],
        (0, 0),
        (0, 0),
    ),
    // also where a store follows it
    (
        &[
            Act::Store(0, 5),
            Act::Ask(1),
            Act::Cut,
            Act::Store(0, 6),
            Act::Fence(1),
        ],
        (6, 0),
        (0, 0),
    ),
    // and an ask after it is as good as any
    (
        &[
            Act::Store(0, 5),
            Act::Ask(2),
            Act::Fence(2),
            Act::Cut,
            Act::Store(0, 6),
            Act::Ask(1),
            Act::Fence(1),
        ],
        (6, 6),
        (0, 0),
    ),
    // the last ask of a line counts
    (
        &[
            Act::Store(0, 5),
            Act::Ask(1),
            Act::Store(0, 6),
            Act::Ask(1),
            Act::Store(0, 7),
            Act::Fence(1),
        ],
        (7, 6),
        (0, 0),
    ),
    // of two workers the later one fences first, and its value stays
    (
        &[
            Act::Store(0, 5),
            Act::Ask(1),
            Act::Store(0, 6),
            Act::Ask(2),
            Act::Fence(2),
            Act::Fence(1),
        ],
        (6, 6),
        (0, 0),
    ),
    // the earlier one alone
    (
        &[
            Act::Store(0, 5),
            Act::Ask(1),
            Act::Store(0, 6),
            Act::Ask(2),
            Act::Fence(1),
        ],
        (6, 5),
        (0, 0),
    ),
    // an eviction without a store leaves the fence nothing to do
    (
        &[Act::Store(0, 5), Act::Ask(1), Act::Evict(0), Act::Fence(1)],
        (5, 5),
        (0, 0),
    ),
    // one word of a line that was asked for is evicted, and the other one is not
    (
        &[
            Act::Store(0, 5),
            Act::Store(1, 7),
            Act::Ask(1),
            Act::Store(0, 6),
            Act::Store(1, 8),
            Act::Evict(0),
            Act::Fence(1),
        ],
        (6, 6),
        (8, 7),
    ),
    // a word is evicted before its line is asked for
    (
        &[
            Act::Store(0, 5),
            Act::Evict(0),
            Act::Store(0, 6),
            Act::Ask(1),
            Act::Fence(1),
        ],
        (6, 6),
        (0, 0),
    ),
    // a fence forgets what it made durable
    (
        &[
            Act::Store(0, 5),
            Act::Ask(1),
            Act::Fence(1),
            Act::Store(0, 6),
            Act::Fence(1),
        ],
        (6, 5),
        (0, 0),
    ),
    // worker 0 is one of them
    (
        &[Act::Store(0, 5), Act::Ask(0), Act::Fence(0)],
        (5, 5),
        (0, 0),
    ),
];

fn two_lines(rt: &impl Abort, alloc: Global) -> Pm {
    Pm::open(alloc, &[0; 16], 2).expect(rt, "a memory")
}

#[test]
fn asks_and_fences_leave_these_words(rt: HostRuntime) {
    for (acts, first, second) in ROWS {
        let mut pm = two_lines(&rt, rt.alloc());
        for &act in acts {
            make(&rt, &mut pm, act);
        }
        has(&rt, &pm, 0, first);
        has(&rt, &pm, 1, second);
        for a in 2..16 {
            has(&rt, &pm, a, (0, 0));
        }
    }
}

#[test]
fn a_worker_asks_for_64_lines_between_two_fences(rt: HostRuntime) {
    let mut pm = Pm::open(rt.alloc(), &[1; 520], 1).expect(&rt, "a memory");
    assert!(&rt; !pm.may_ask(2));
    for line in 0..64 {
        assert!(&rt; pm.may_ask(1) && pm.words() == 520);
        pm.store(line * 8, 2);
        pm.ask(1, line);
    }
    assert!(&rt; !pm.may_ask(1) && pm.may_ask(0));
    pm.cut();
    assert!(&rt; pm.may_ask(1) && pm.words() == 520);
    pm.ask(1, 64);
    pm.fence(1);
    for line in 0..65 {
        has(&rt, &pm, line * 8, (1, 1));
    }
}
