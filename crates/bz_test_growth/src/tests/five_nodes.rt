//! A tree of five nodes: a root at level 2 over two inner nodes, the second one from `m` on; below the first a leaf with `a` and `b`, and below
//! the second one with `m`.

use bz_layout::NODE_WORDS;

const VISIBLE: u64 = 1 << 60;

// The letters `a`, `b` and `m` as the words of keys, and `v` as that of a payload.
const A: u64 = 0x0061 << 48;

const B: u64 = 0x0062 << 48;

const M: u64 = 0x006D << 48;

const V: u64 = 0x0076 << 48;

// Writes a word, if it lies in the memory.
fn put(words: &mut Vec<u64>, at: u32, word: u64) {
    if let Some(place) = words.get_mut(at as usize) {
        *place = word;
    }
}

// Writes a word of a slot, where the first slot begins there.
fn put_in(words: &mut Vec<u64>, first: u32, slot: u8, place: u8, word: u64) {
    let at = u32::from(slot) * NODE_WORDS + u32::from(place);
    put(words, first.saturating_add(at), word);
}

// The root, with two children, and the two, with one child each.
fn put_inner_nodes(words: &mut Vec<u64>, first: u32) {
    for (slot, place, word) in [
        (0, 0, (2 << 52) + (3 << 42)),
        (0, 1, (2 << 24) + 2),
        (0, 18, VISIBLE + (255 << 32) + 0x0000_0007),
        (0, 19, VISIBLE + (253 << 32) + 0x0001_0008),
        (0, 253, M),
        (0, 254, 3),
        (0, 255, 2),
        (1, 0, (1 << 52) + (1 << 42)),
        (1, 1, (1 << 24) + (1 << 16) + 1),
        (1, 10, M),
        (1, 18, VISIBLE + (255 << 32) + 0x0000_0007),
        (1, 255, 4),
        (2, 0, (1 << 52) + (1 << 42)),
        (2, 1, (1 << 24) + (1 << 8) + 1),
        (2, 2, M),
        (2, 18, VISIBLE + (255 << 32) + 0x0000_0007),
        (2, 255, 5),
    ] {
        put_in(words, first, slot, place, word);
    }
}

// The leaves.
fn put_leaves(words: &mut Vec<u64>, first: u32) {
    for (slot, place, word) in [
        (3, 0, (2 << 52) + (4 << 42)),
        (3, 1, (2 << 24) + (1 << 16)),
        (3, 10, M),
        (3, 18, VISIBLE + (254 << 32) + 0x0001_0002),
        (3, 19, VISIBLE + (252 << 32) + 0x0001_0002),
        (3, 252, B),
        (3, 253, V),
        (3, 254, A),
        (3, 255, V),
        (4, 0, (1 << 52) + (2 << 42)),
        (4, 1, (1 << 24) + (1 << 8)),
        (4, 2, M),
        (4, 18, VISIBLE + (254 << 32) + 0x0001_0002),
        (4, 254, M),
        (4, 255, V),
    ] {
        put_in(words, first, slot, place, word);
    }
}

/// Puts the tree into the slots from 0 to 4 of a memory with an empty root leaf in slot 0, of which the first slot begins there.
pub(crate) fn put_tree(words: &mut Vec<u64>, first: u32) {
    put_inner_nodes(words, first);
    put_leaves(words, first);
}
