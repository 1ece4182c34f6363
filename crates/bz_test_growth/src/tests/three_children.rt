//! A root of three children, of which the middle one gets small, and the right one is large: only where both fit one node are they merged,
//! and the left one is not looked at.

use super::bench::{Answer, applies, holds, payload, recover, same, whole};
use super::decode::decode_root;
use bz_call::Call;
use bz_key::Key;
use bz_layout::{Config, HIGH_FENCE_AT, LOW_FENCE_AT, META_AT, NODE_WORDS};
use bz_world::{Applied, Event, World};
use std::alloc::Global;
use std::process::Abort;

const NODES: u32 = 32;

const SWAPS: u32 = 16;

// The letters with which the middle and the right node begin, and a payload, as words.
const M: u64 = 0x006D << 48;

const T: u64 = 0x0074 << 48;

const V: u64 = 0x0076 << 48;

// Seven bytes `x`.
const FILLER: u64 = 0x78_78_78_78_78_78_78;

// The first leaf below the right node.
const LEAVES: u8 = 6;

// A bound of keys: none, the word of one letter, or that of a key of fifty-six bytes.
type Bound = (u8, u64);

const OPEN: Bound = (0, 0);

// Writes a word of a slot, if it lies in the memory.
fn put(words: &mut Vec<u64>, slot: u8, place: u32, word: u64) {
    let first = (SWAPS + 1) * 16 + u32::from(slot) * NODE_WORDS;
    let at = first.saturating_add(place);
    if let Some(place) = words.get_mut(at as usize) {
        *place = word;
    }
}

// The words of a bound.
fn put_key(words: &mut Vec<u64>, slot: u8, place: u32, key: Bound) {
    put(words, slot, place, key.1);
    if key.0 > 7 {
        for i in 1..8 {
            put(words, slot, place.saturating_add(i), FILLER);
        }
    }
}

// Status, header and fences of a node with so many records, in a block of so many words.
fn put_front(
    words: &mut Vec<u64>,
    slot: u8,
    level: u8,
    (count, block): (u8, u8),
    (low, high): (Bound, Bound),
) {
    put(
        words,
        slot,
        0,
        (u64::from(count) << 52) + (u64::from(block) << 42),
    );
    let lengths = (u64::from(low.0) << 8) + (u64::from(high.0) << 16);
    put(
        words,
        slot,
        1,
        u64::from(level) + lengths + (u64::from(count) << 24),
    );
    put_key(words, slot, LOW_FENCE_AT, low);
    put_key(words, slot, HIGH_FENCE_AT, high);
}

// A visible record, with this key; its payload, or the pointer to its child, is one word.
fn put_record(
    words: &mut Vec<u64>,
    slot: u8,
    number: u8,
    offset: u8,
    key: Bound,
    (bytes, word): (u8, u64),
) {
    let total = u64::from(key.0) + u64::from(bytes);
    let lengths = (u64::from(key.0) << 16) + total;
    let meta = (1 << 60) + (u64::from(offset) << 32) + lengths;
    put(words, slot, META_AT + u32::from(number), meta);
    put_key(words, slot, u32::from(offset), key);
    put(
        words,
        slot,
        u32::from(offset) + u32::from(key.0.div_ceil(7)),
        word,
    );
}

// The first key of the child with this number of the right node.
fn bound(number: u8) -> Bound {
    if number == 0 {
        return (1, T);
    }
    (56, T + 0x0000_6178_7878_7878 + (u64::from(number) << 40))
}

// The right node, with so many children, each an empty leaf.
fn put_right(words: &mut Vec<u64>, children: u8) {
    let block = children.saturating_mul(9).saturating_sub(8);
    put_front(words, 3, 1, (children, block), (bound(0), OPEN));
    put_record(words, 3, 0, 255, OPEN, (7, u64::from(LEAVES) + 1));
    for number in 0..children {
        let slot = LEAVES.saturating_add(number);
        let next = number.saturating_add(1);
        let high = if next < children { bound(next) } else { OPEN };
        put_front(words, slot, 0, (0, 0), (bound(number), high));
        if number > 0 {
            let offset = 255u8.saturating_sub(number.saturating_mul(9));
            put_record(
                words,
                3,
                number,
                offset,
                bound(number),
                (7, u64::from(slot) + 1),
            );
        }
    }
}

// The root, the left node over an empty leaf, and the middle one over a leaf with `m`.
fn put_left(words: &mut Vec<u64>) {
    put_front(words, 0, 2, (3, 5), (OPEN, OPEN));
    put_record(words, 0, 0, 255, OPEN, (7, 2));
    put_record(words, 0, 1, 253, (1, M), (7, 3));
    put_record(words, 0, 2, 251, (1, T), (7, 4));
    put_front(words, 1, 1, (1, 1), (OPEN, (1, M)));
    put_record(words, 1, 0, 255, OPEN, (7, 5));
    put_front(words, 2, 1, (1, 1), ((1, M), (1, T)));
    put_record(words, 2, 0, 255, OPEN, (7, 6));
    put_front(words, 4, 0, (0, 0), (OPEN, (1, M)));
    put_front(words, 5, 0, (1, 2), ((1, M), (1, T)));
    put_record(words, 5, 0, 254, (1, M), (1, V));
}

// A world over the tree, in which the right node has so many children.
fn world_with(rt: &impl Abort, alloc: Global, children: u8) -> World {
    let config = Config {
        nodes: NODES,
        swaps: SWAPS,
        workers: 1,
        marks: 1 << 16,
        calls: 4,
        pages: 1,
    };
    assert!(rt; config.check().is_ok());
    let mut words = bz_layout::fresh(alloc, &config).expect(rt, "the words");
    put_left(&mut words);
    put_right(&mut words, children);
    assert!(rt; words.len() == config.words() as usize);
    let mut world = World::boot(alloc, &config, &words).expect(rt, "a world");
    applies(rt, &mut world, Event::On, Applied::On);
    holds(rt, recover(&mut world, 1 << 16));
    world
}

// How many children the root has after the delete of `m`.
fn left_with(rt: &impl Abort, alloc: Global, children: u8) -> Option<(u32, u32)> {
    let mut world = world_with(rt, alloc, children);
    same(rt, decode_root(&world), Some((2, 3)));
    let key = Key::of(b"m").expect(rt, "a key");
    let answer = whole(&mut world, 1, Call::Delete(key));
    same(rt, answer, Some(Answer::Deleted(payload(rt, b"v"))));
    decode_root(&world)
}

// Of fourteen children and one there are 135 words, of fifteen and one 145.
#[test]
fn the_right_neighbour_alone_is_tried(rt: HostRuntime) {
    same(&rt, left_with(&rt, rt.alloc(), 14), Some((2, 2)));
    same(&rt, left_with(&rt, rt.alloc(), 15), Some((2, 3)));
}
