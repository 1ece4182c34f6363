//! Walks over small trees, load by load.

ghost use Rattle.std.specs.Prelude.{◌≡◌, Some, IfSome};
ghost use Rattle.bz_recover.specs.Duties.{hears_in};

use super::bench::same;
use bz_layout::{Config, MAX_MARKS, Slots};
use bz_recover::Walk;
use bz_task::{Outcome, Seen, Todo};
use std::process::Abort;
use std::test::Fail;

const CONFIG: Config = Config {
    nodes: 8,
    swaps: 1,
    workers: 1,
    marks: MAX_MARKS,
    calls: 1,
    pages: 0,
};

// The words of this memory: a superblock, a descriptor and eight nodes.
const WORDS: usize = 2080;

// What is said of the record of a first child, whose pointer is a node's last word, and of a second one, whose key of one
// byte and pointer stand before it.
const FIRST: u64 = 0x1000_00FF_0000_0007;

const SECOND: u64 = 0x1000_00FD_0001_0008;

// Slot 3 is the root of level 2, with the children 5 and 1; slot 5 has the children 0 and 6, and slot 1 has child 2.
const TREE: [(usize, u64); 14] = [
    (1, 4),
    (800, 2 << 52),
    (801, 2),
    (818, FIRST),
    (819, SECOND),
    (1055, 6),
    (1054, 2),
    (1312, 2 << 52),
    (1330, FIRST),
    (1331, SECOND),
    (1567, 1),
    (1566, 7),
    (288, 1 << 52),
    (306, FIRST),
];

// The pointer of slot 1 to its child.
const LAST: (usize, u64) = (543, 3);

// Makes a load; anything else is no act.
fn make(rt: &impl Abort, words: &[u64; WORDS], todo: &Todo) -> Option<Seen>
    ensures { IfSome result (hears_in (Some todo.now)) }
{
    match todo {
        Todo::Load(a) => {
            assert!(rt; (*a as usize) < WORDS);
            Some(Seen::Read(words[*a as usize]))
        }
        _ => None,
    }
}

// A walk over the memory with these words: how many loads it made.
fn walk(rt: &impl Abort, written: &[(usize, u64)], slots: &mut Slots) -> u32
    requires { slots.old.nodes ≡ 8 }
{
    let mut words = [0u64; WORDS];
    for (a, word) in written {
        if *a < WORDS {
            words[*a] = *word;
        }
    }
    let mut walk = Walk::new(&CONFIG);
    let mut seen = Seen::Start;
    for made in 0..100 {
        let todo = walk.next(seen, slots);
        match make(rt, &words, &todo) {
            Some(told) => seen = told,
            None => {
                assert!(rt; matches!(walk.ended(), Some(Outcome::Recovered)));
                return made;
            }
        }
    }
    100
}

#[test]
fn the_slots_of_a_tree_are_held(rt: HostRuntime) -> Result<(), Fail> {
    let mut slots = Slots::open(rt.alloc(), 8)?;
    let mut words = Vec::new(rt.alloc());
    words.extend_from_slice(&TREE)?;
    words.extend_from_slice(&[LAST])?;
    // the root pointer and the root's header; of each of three inner nodes its status, and two words for each child
    same(&rt, walk(&rt, &words, &mut slots), 15);
    same(&rt, slots.left(), 2);
    let mut out = [9; 3];
    assert!(rt; slots.take(2, &mut out));
    same(&rt, out, [4, 7, 9]);
    Ok(())
}

#[test]
fn of_a_tree_of_one_leaf_one_slot_is_held(rt: HostRuntime) -> Result<(), Fail> {
    let mut slots = Slots::open(rt.alloc(), 8)?;
    slots.hold(5);
    same(&rt, walk(&rt, &[(1, 2)], &mut slots), 2);
    same(&rt, slots.left(), 7);
    let mut out = [9; 3];
    assert!(rt; slots.take(3, &mut out));
    same(&rt, out, [0, 2, 3]);
    Ok(())
}
