//! Leaves with few live words, which are merged with a neighbour.

use super::below::numbered;
use super::bench::{
    Answer, begin, evict_all, finish, has_pairs, holds, open, payload, recover, restart, same,
    same_at, steps, whole,
};
use super::decode::decode_root;
use super::pages::last_page;
use bz_call::Call;
use bz_world::World;
use std::alloc::Global;
use std::process::Abort;

// More acts than any of these calls makes, or a recovery after it.
const MOST: u32 = 10_000;

fn insert(rt: &impl Abort, number: u32) -> Call {
    Call::Insert(numbered(rt, number), payload(rt, b"v"))
}

fn delete(rt: &impl Abort, number: u32) -> Call {
    Call::Delete(numbered(rt, number))
}

// A tree of the keys from 1 to this one, three live words each. Put in as they rise they make leaves of forty.
fn grown(rt: &impl Abort, alloc: Global, nodes: u32, swaps: u32, last: u32) -> World {
    let mut world = open(alloc, nodes, swaps, 2).expect(rt, "a world");
    for number in 0..last {
        let call = insert(rt, number.saturating_add(1));
        same(rt, whole(&mut world, 1, call), Some(Answer::Inserted));
    }
    world
}

// What the delete of a key answers that is there.
fn gone(rt: &impl Abort) -> Option<Answer> {
    Some(Answer::Deleted(payload(rt, b"v")))
}

// Deletes the keys from one to another.
fn deletes(rt: &impl Abort, world: &mut World, first: u32, last: u32) {
    for number in first..last.saturating_add(1) {
        same_at(rt, whole(world, 1, delete(rt, number)), gone(rt), number);
    }
}

// How long the pages are, each of which begins where the one before ends.
fn lengths(rt: &impl Abort, world: &mut World) -> [usize; 4] {
    let mut lengths = [0; 4];
    let mut from = Some(numbered(rt, 0));
    for length in &mut lengths {
        let Some(first) = from else {
            break;
        };
        whole(world, 2, Call::Page(first));
        let (page, next) = last_page(world).expect(rt, "a page");
        let journal = world.journal();
        assert!(rt; page < journal.page_count());
        *length = journal.page(page).len();
        from = next;
    }
    holds(rt, from.is_none());
    lengths
}

// How many pairs the pages have together.
fn count_pairs(rt: &impl Abort, world: &mut World) -> u64 {
    let mut count = 0u64;
    for length in &lengths(rt, world) {
        count = count.saturating_add(*length as u64);
    }
    count
}

// How long the leaves of a world with so many pairs are.
fn leaves(rt: &impl Abort, world: &mut World, pairs: u32) -> [usize; 4] {
    let children = lengths(rt, world);
    let count = children.iter().filter(|length| **length > 0).count() as u32;
    same(rt, decode_root(world), Some((1, count)));
    has_pairs(rt, world, u64::from(pairs));
    children
}

// Of three leaves of forty keys, the last of which has so many more, these keys are deleted. How long the leaves are then.
fn after(rt: &impl Abort, alloc: Global, last: u32, first: u32, end: u32) -> [usize; 4] {
    let mut world = grown(rt, alloc, 32, 400, last);
    deletes(rt, &mut world, first, end);
    let gone = end.saturating_add(1).saturating_sub(first);
    leaves(rt, &mut world, last.saturating_sub(gone))
}

// The right neighbour is tried first, then the left one; where neither has room the leaf stays alone.
#[test]
fn a_leaf_is_merged_with_a_neighbour_that_has_room(rt: HostRuntime) {
    for (last, first, end, lengths) in [
        (120, 1, 31, [9, 40, 40, 0]),
        (120, 1, 32, [48, 40, 0, 0]),
        (120, 41, 72, [40, 48, 0, 0]),
        (121, 41, 72, [48, 41, 0, 0]),
        (121, 41, 73, [47, 41, 0, 0]),
        (120, 89, 120, [40, 48, 0, 0]),
        (122, 83, 122, [40, 42, 0, 0]),
    ] {
        let found = after(&rt, rt.alloc(), last, first, end);
        same(&rt, found, lengths);
    }
}

// What the root is after deletes at both ends, how long the first leaf, and what an insert is answered.
type Left = ((u32, u32), usize, Answer);

// Of eighty keys twenty are deleted at the right end, and nineteen at the left one.
fn shrinks(rt: &impl Abort, world: &mut World, (root, leaf, told): Left) {
    deletes(rt, world, 61, 80);
    deletes(rt, world, 1, 19);
    same(rt, lengths(rt, world)[0], leaf);
    same(rt, decode_root(world), Some(root));
    same(rt, whole(world, 1, insert(rt, 1)), Some(told));
}

// Where there are so many slots.
fn leaves_one(rt: &impl Abort, alloc: Global, nodes: u32, left: Left) {
    let mut world = grown(rt, alloc, nodes, 256, 80);
    shrinks(rt, &mut world, left);
}

// They leave one leaf of forty-one, which takes the place of its parent.
#[test]
fn deletes_at_both_ends_leave_one_leaf(rt: HostRuntime) {
    // with one slot left both leaves stay frozen, and are not copied
    leaves_one(&rt, rt.alloc(), 5, ((1, 2), 21, Answer::FullNodes));
    leaves_one(&rt, rt.alloc(), 6, ((0, 41), 41, Answer::Inserted));
}

// A tree in which the delete of the nineteenth key merges both leaves, where there are descriptors enough.
fn ready_with(rt: &impl Abort, alloc: Global, swaps: u32) -> World {
    let mut world = grown(rt, alloc, 16, swaps, 80);
    deletes(rt, &mut world, 61, 80);
    deletes(rt, &mut world, 1, 18);
    world
}

fn ready(rt: &impl Abort, alloc: Global) -> World {
    ready_with(rt, alloc, 280)
}

// The last delete leaves the leaves so, where there are so many descriptors.
fn merges_with(rt: &impl Abort, alloc: Global, swaps: u32, left: [usize; 4]) {
    let mut world = ready_with(rt, alloc, swaps);
    same_at(rt, whole(&mut world, 1, delete(rt, 19)), gone(rt), swaps);
    same_at(rt, lengths(rt, &mut world), left, swaps);
}

// Eighty inserts took two descriptors each, the split of the root two, and thirty-eight deletes one each. The last delete takes one, and its
// merge three.
#[test]
fn a_merge_without_descriptors_is_dropped(rt: HostRuntime) {
    merges_with(&rt, rt.alloc(), 201, [21, 20, 0, 0]);
    merges_with(&rt, rt.alloc(), 202, [21, 20, 0, 0]);
    merges_with(&rt, rt.alloc(), 203, [21, 20, 0, 0]);
    merges_with(&rt, rt.alloc(), 204, [41, 0, 0, 0]);
}

// What a delete of a key that is there answers, and an insert of another.
fn answer_of(rt: &impl Abort, call: &Call) -> Option<Answer> {
    match call {
        Call::Delete(_) => Some(Answer::Deleted(payload(rt, b"v"))),
        _ => Some(Answer::Inserted),
    }
}

// The delete of a key is stopped after so many acts, and another worker makes a call of its own, which is answered so; then it makes the
// rest.
fn stops(
    rt: &impl Abort,
    world: &mut World,
    number: u32,
    acts: u32,
    (call, answer): (Call, Option<Answer>),
) {
    holds(rt, begin(world, 1, delete(rt, number)));
    let ended = steps(world, 1, acts).1;
    same_at(rt, whole(world, 2, call), answer, acts);
    same_at(rt, finish(world, 1, ended, MOST), gone(rt), acts);
}

// The pages have as many pairs as the world counts: how many.
fn counted(rt: &impl Abort, world: &mut World) -> u64 {
    let count = count_pairs(rt, world);
    has_pairs(rt, world, count);
    count
}

// The last delete is stopped so.
fn beside(rt: &impl Abort, alloc: Global, acts: u32, call: Call) {
    let mut world = ready(rt, alloc);
    let answer = answer_of(rt, &call);
    stops(rt, &mut world, 19, acts, (call, answer));
    counted(rt, &mut world);
}

// Another worker changes either leaf while it is stopped.
fn beside_each(rt: &impl Abort, alloc: Global, acts: u32) {
    beside(rt, alloc, acts, insert(rt, 5));
    beside(rt, alloc, acts, insert(rt, 70));
    beside(rt, alloc, acts, delete(rt, 30));
    beside(rt, alloc, acts, delete(rt, 50));
}

#[test]
fn a_stopped_merge_holds_nobody_up(rt: HostRuntime) {
    for turn in 0..25 {
        beside_each(&rt, rt.alloc(), 61 * turn);
    }
}

// Three leaves of twenty-two keys: the first one has its neighbour to the right, and the last one that to the left, which is the same.
fn three_small(rt: &impl Abort, alloc: Global) -> World {
    let mut world = grown(rt, alloc, 32, 400, 120);
    for (first, last) in [(23, 40), (63, 80), (103, 120)] {
        deletes(rt, &mut world, first, last);
    }
    world
}

// A delete in the first leaf is stopped after so many acts, while another one in the last leaf is made whole: one of the two merges.
fn merge_at_once(rt: &impl Abort, alloc: Global, acts: u32) {
    let mut world = three_small(rt, alloc);
    stops(rt, &mut world, 1, acts, (delete(rt, 81), gone(rt)));
    is_one_merge(rt, &mut world);
}

// The middle leaf is merged with one of the others.
fn is_one_merge(rt: &impl Abort, world: &mut World) {
    let found = lengths(rt, world);
    let right = found == [21, 43, 0, 0];
    holds(rt, right || found == [43, 21, 0, 0]);
    has_pairs(rt, world, 64);
}

#[test]
fn two_merges_that_want_one_leaf(rt: HostRuntime) {
    for turn in 0..25 {
        merge_at_once(&rt, rt.alloc(), 47 * turn);
    }
}

// So many acts of it, and at times each word becomes durable. Whether it has ended.
fn makes(rt: &impl Abort, world: &mut World, acts: u32) -> bool {
    holds(rt, begin(world, 1, delete(rt, 19)));
    let ended = steps(world, 1, acts).1.is_some();
    if acts % 2 == 0 {
        evict_all(world);
    }
    ended
}

// After a power cut the key is gone, or may be there if it had not ended.
fn is_whole(rt: &impl Abort, world: &mut World, ended: bool) {
    restart(rt, world);
    holds(rt, recover(world, MOST));
    let count = counted(rt, world);
    holds(rt, count == 41 || !ended && count == 42);
}

// Its power fails after so many acts. Whether it had ended.
fn cut_after(rt: &impl Abort, alloc: Global, acts: u32) -> bool {
    let mut world = ready(rt, alloc);
    let ended = makes(rt, &mut world, acts);
    is_whole(rt, &mut world, ended);
    merges_at_last(rt, &mut world, acts);
    ended
}

// Both leaves are merged, or may be still; and then the root is lowered, unless the power failed between the two.
fn merges_at_last(rt: &impl Abort, world: &mut World, acts: u32) {
    whole(world, 1, delete(rt, 19));
    let gone = Some(Answer::Deleted(payload(rt, b"v")));
    same_at(rt, whole(world, 1, delete(rt, 30)), gone, acts);
    let root = decode_root(world);
    holds(
        rt,
        root == Some((1, 1)) || root.is_some_and(|root| root.0 == 0),
    );
}

#[test]
fn a_merge_that_is_cut_is_whole_or_nothing(rt: HostRuntime) {
    let mut made = 0u32;
    for turn in 0..200 {
        let acts = 11 * turn;
        if cut_after(&rt, rt.alloc(), acts) {
            made = acts;
            break;
        }
    }
    holds(&rt, made >= 600 && made < 2_000);
}
