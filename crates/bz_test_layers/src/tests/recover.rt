//! Recoveries of a small memory, act by act, with a power cut after every number of acts.

ghost use Rattle.std.specs.Prelude.{◌≡◌, ◌<◌, ◌^◌, ◌*◌, Some, IfSome, length};
ghost use Rattle.bz_recover.specs.Duties.{hears_in};

use super::bench::{holds, same, same_at};
use bz_layout::{Config, MAX_MARKS, Slots};
use bz_pm::Pm;
use bz_recover::{Recover, Walk};
use bz_task::{Outcome, Seen, Todo};
use std::alloc::Global;
use std::process::Abort;
use std::test::Fail;

const CONFIG: Config = Config {
    nodes: 1,
    swaps: 4,
    workers: 2,
    marks: MAX_MARKS,
    calls: 1,
    pages: 0,
};

// The words of this memory: a superblock, four descriptors and a node.
const WORDS: usize = 336;

// The first word of the first descriptor, and of the node.
const SWAPS: u32 = 16;

const NODE: u32 = 80;

const DIRTY: u64 = 1 << 63;

const POINTER: u64 = 1 << 62;

// A tag of worker 1, its first.
const TAG: u64 = (1 << 61) + (1 << 18);

// An undecided swap of two words, one that has succeeded, one whose success may not be durable, and a failed one, each
// with its pointers in place, and a tag of the last one's second entry; dirty words at both ends of the memory.
const UNRESOLVED: [(u32, u64); 38] = [
    (1, DIRTY + 1),
    // undecided
    (SWAPS, 1),
    (SWAPS + 1, 2),
    (SWAPS + 2, 81),
    (SWAPS + 3, 11),
    (SWAPS + 4, 12),
    (SWAPS + 5, 89),
    (SWAPS + 6, 21),
    (SWAPS + 7, 22),
    (NODE + 1, POINTER),
    (NODE + 9, POINTER),
    // succeeded; an entry past the last one has the same target
    (SWAPS + 16, 2),
    (SWAPS + 17, 1),
    (SWAPS + 18, 82),
    (SWAPS + 19, 31),
    (SWAPS + 20, 32),
    (SWAPS + 21, 82),
    (SWAPS + 22, 33),
    (SWAPS + 23, 34),
    (NODE + 2, POINTER + 1),
    // succeeded, and the status is dirty; four entries
    (SWAPS + 32, DIRTY + 2),
    (SWAPS + 33, 4),
    (SWAPS + 34, 83),
    (SWAPS + 37, 84),
    (SWAPS + 40, 85),
    (SWAPS + 43, 100),
    (SWAPS + 44, 41),
    (SWAPS + 45, 42),
    (NODE + 20, POINTER + 2),
    // failed
    (SWAPS + 48, 3),
    (SWAPS + 49, 2),
    (SWAPS + 50, 101),
    (SWAPS + 51, 51),
    (SWAPS + 53, 120),
    (SWAPS + 54, 61),
    (NODE + 21, POINTER + 3),
    (NODE + 40, TAG + (1 << 16) + 3),
    (NODE + 255, DIRTY + 9),
];

// The values of the words that are to be resolved.
const RESOLVED: [(u32, u64); 8] = [
    (1, 1),
    (NODE + 1, 11),
    (NODE + 2, 32),
    (NODE + 9, 21),
    (NODE + 20, 42),
    (NODE + 21, 51),
    (NODE + 40, 61),
    (NODE + 255, 9),
];

// The words of the memory before the recovery.
fn image() -> [u64; WORDS] {
    let mut words = [0; WORDS];
    for (a, word) in UNRESOLVED {
        if (a as usize) < WORDS {
            words[a as usize] = word;
        }
    }
    words
}

// What a word stands for.
fn value(a: u32) -> u64 {
    for (resolved, value) in RESOLVED {
        if resolved == a {
            return value;
        }
    }
    0
}

// Makes what a recovery asks for; None at its end.
fn make(rt: &impl Abort, pm: &mut Pm, todo: &Todo) -> Option<Seen>
    ensures { IfSome result (hears_in (Some todo.now)) }
{
    let words = pm.words();
    match todo {
        Todo::Load(a) => {
            assert!(rt; *a < words);
            Some(Seen::Read(pm.load(*a)))
        }
        Todo::Store(a, v) => {
            assert!(rt; *a < words);
            pm.store(*a, *v);
            Some(Seen::Stored)
        }
        Todo::Flush(line) => {
            assert!(rt; *line < words / 8 && pm.may_ask(0));
            pm.ask(0, *line);
            assert!(rt; pm.may_ask(0));
            pm.fence(0);
            Some(Seen::Flushed)
        }
        _ => None,
    }
}

// How many acts a recovery made, and how many of them were fences; whether it has ended.
#[derive(Clone, Copy, Drop)]
struct Made {
    acts: u32,
    fences: u32,
    ended: bool,
}

// Makes the acts of a recovery, at most so many, with an eviction after each where it is asked for.
fn recover(rt: &impl Abort, pm: &mut Pm, slots: &mut Slots, most: u32, evicts: bool) -> Made
    requires { slots.old.nodes ≡ 1 }
    ensures { slots.new.nodes ≡ 1 }
{
    let mut recover = Recover::new(&CONFIG);
    let mut seen = Seen::Start;
    let mut fences: u32 = 0;
    for made in 0..most {
        let todo = recover.next(seen, slots);
        if let Todo::Flush(_) = todo {
            fences = fences.wrapping_add(1);
        }
        match make(rt, pm, &todo) {
            Some(told) => seen = told,
            None => {
                assert!(rt; matches!(recover.ended(), Some(Outcome::Recovered)));
                return Made {
                    acts: made,
                    fences,
                    ended: true,
                };
            }
        }
        let place = made.wrapping_mul(13) % 336;
        if evicts && place < pm.words() {
            pm.evict(place);
        }
    }
    Made {
        acts: most,
        fences,
        ended: false,
    }
}

// A word is so in the caches and in the memory itself.
fn has_word(rt: &impl Abort, pm: &Pm, a: u32, word: u64) {
    assert!(rt; a < pm.words());
    same_at(rt, pm.load(a), word, a);
    same_at(rt, pm.durable(a), word, a);
}

// Every word outside the descriptors is its value and durable, and every descriptor is free.
fn is_recovered(rt: &impl Abort, pm: &Pm) {
    for a in 0..pm.words() {
        if a < SWAPS || a >= NODE {
            has_word(rt, pm, a, value(a));
        } else if a % 16 == 0 {
            has_word(rt, pm, a, 0);
        }
    }
}

#[test]
fn every_kind_of_word_is_resolved(rt: HostRuntime) -> Result<(), Fail> {
    let mut slots = Slots::open(rt.alloc(), 1)?;
    let mut pm = Pm::open(rt.alloc(), &image(), 1)?;
    let made = recover(&rt, &mut pm, &mut slots, 1000, false);
    assert!(rt; made.ended);
    is_recovered(&rt, &pm);
    same(&rt, slots.left(), 0);
    // words 1, 81 and 82, 89, 100 and 101, 120 and 335 stand in six lines; an ask and a fence for each, and for each descriptor
    same(&rt, made.fences, 10);
    Ok(())
}

#[test]
fn a_recovered_memory_is_only_read(rt: HostRuntime) -> Result<(), Fail> {
    let mut slots = Slots::open(rt.alloc(), 1)?;
    let mut pm = Pm::open(rt.alloc(), &image(), 1)?;
    assert!(rt; recover(&rt, &mut pm, &mut slots, 1000, false).ended);
    let made = recover(&rt, &mut pm, &mut slots, 1000, false);
    assert!(rt; made.ended);
    // a load of each word outside the descriptors, and of each status; then of the root pointer, and of the header and the status
    // of the node to which it leads, an inner one without children
    same(&rt, made.acts, 279);
    same(&rt, made.fences, 0);
    is_recovered(&rt, &pm);
    Ok(())
}

// Three cuts, after so many acts, half of all, and as many as at first; and a whole recovery.
fn is_cut(rt: &impl Abort, pm: &mut Pm, slots: &mut Slots, first: u32, half: u32, evicts: bool)
    requires { slots.old.nodes ≡ 1 }
    ensures { slots.new.nodes ≡ 1 }
{
    recover(rt, pm, slots, first, evicts);
    pm.cut();
    recover(rt, pm, slots, half, evicts);
    pm.cut();
    recover(rt, pm, slots, first, evicts);
    pm.cut();
    holds(rt, recover(rt, pm, slots, 1000, evicts).ended);
    is_recovered(rt, pm);
}

// The memory before the recovery.
fn unresolved(rt: &impl Abort, alloc: Global) -> Pm {
    Pm::open(alloc, &image(), 1).expect(rt, "a memory")
}

// A cut after each number of acts, and again after each number of acts of the next recovery.
fn is_cut_at_will(rt: &impl Abort, alloc: Global, evicts: bool) {
    let mut slots = Slots::open(alloc, 1).expect(rt, "the slots");
    let mut pm = unresolved(rt, alloc);
    let whole = recover(rt, &mut pm, &mut slots, 1000, evicts).acts;
    holds(rt, whole < 1000);
    for first in 0..whole {
        let mut pm = unresolved(rt, alloc);
        is_cut(rt, &mut pm, &mut slots, first, whole / 2, evicts);
    }
}

#[test]
fn a_cut_after_each_act_loses_nothing(rt: HostRuntime) {
    is_cut_at_will(&rt, rt.alloc(), false);
}

#[test]
fn a_cut_after_each_act_with_evictions_loses_nothing(rt: HostRuntime) {
    is_cut_at_will(&rt, rt.alloc(), true);
}
