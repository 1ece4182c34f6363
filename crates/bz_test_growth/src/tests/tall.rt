//! Tall trees, made word by word, with a full leaf below inner nodes that are all full. Of the tallest one an insert there is answered
//! Full(Height). Of one that is a level lower it splits the leaf and every node above it, and no insert alone costs more.
//!
//! On the path of the least key the inner node of each level has a first child, which the path goes on to, and twenty-three more.
//! Below each of these hangs a chain of inner nodes with one child, down to an empty leaf. A node of the path comes right before
//! its chains, and these before the next node of the path.

ghost use Rattle.std.specs.Prelude.{◌≡◌, length};
ghost use Rattle.bz_layout.specs.Addresses.{words_of};
ghost use Rattle.bz_layout.specs.Config.{IsConfig};

use super::bench::{Answer, applies, begin, has_pairs, holds, key, payload, same, steps};
use bz_call::Call;
use bz_layout::{
    Config, FENCE_WORDS, HIGH_FENCE_AT, LOW_FENCE_AT, MAX_LEVELS, META_AT, NODE_WORDS, SPLIT_SLOTS,
};
use bz_world::{Applied, Event, World};
use std::alloc::Global;
use std::process::Abort;

const CHAINS: u32 = 23;

// The bytes of a key, of which a fence and a record have as many words as there are.
const KEY_LENGTH: u32 = 56;

// The records of the leaf, and the words of each but for its metadata word: those of a key, and one of a payload.
const RECORDS: u32 = 23;

const RECORD: u32 = FENCE_WORDS + 1;

// Seven bytes `x`.
const FILLER: u64 = 0x78_78_78_78_78_78_78;

// A bound of keys: none, or the first key of this chain below the path's node of this level.
type Bound = Option<(u32, u32)>;

// Writes a word, if it lies in the memory.
fn put(words: &mut Vec<u64>, at: u32, word: u64)
    ensures { length words.new.items ≡ length words.old.items }
{
    if let Some(place) = words.get_mut(at as usize) {
        *place = word;
    }
}

// The words of a key behind the first one.
fn put_filler(words: &mut Vec<u64>, at: u32)
    ensures { length words.new.items ≡ length words.old.items }
{
    for i in 1..FENCE_WORDS {
        put(words, at.saturating_add(i), FILLER);
    }
}

// The words of the key of a chain: a letter for the level, one for the chain, and then `x`.
fn put_key(words: &mut Vec<u64>, at: u32, level: u32, chain: u32)
    ensures { length words.new.items ≡ length words.old.items }
{
    let letters = u64::from(level.min(20)) << 48 | u64::from(chain.min(25)) << 40;
    put(words, at, 0x61_61_78_78_78_78_78 + letters);
    put_filler(words, at);
}

// The lengths of a bound.
fn length_of(bound: Bound) -> u64 {
    if bound.is_some() {
        u64::from(KEY_LENGTH)
    } else {
        0
    }
}

// The header and the fences of a node.
fn put_front(words: &mut Vec<u64>, node: u32, level: u32, count: u32, low: Bound, high: Bound)
    ensures { length words.new.items ≡ length words.old.items }
{
    let sorted = u64::from(count.min(99)) << 24;
    let lengths = length_of(low) << 8 | length_of(high) << 16;
    put(
        words,
        node.saturating_add(1),
        u64::from(level.min(20)) | lengths | sorted,
    );
    if let Some((level, chain)) = low {
        put_key(words, node.saturating_add(LOW_FENCE_AT), level, chain);
    }
    if let Some((level, chain)) = high {
        put_key(words, node.saturating_add(HIGH_FENCE_AT), level, chain);
    }
}

// The metadata word of a visible record, the one with this number in its node.
fn put_meta(words: &mut Vec<u64>, node: u32, number: u32, offset: u32, lengths: u64)
    ensures { length words.new.items ≡ length words.old.items }
{
    let at = node.saturating_add(META_AT).saturating_add(number);
    put(
        words,
        at,
        1 << 60 | u64::from(offset.min(NODE_WORDS - 1)) << 32 | lengths,
    );
}

// The status of a node that no swap has changed.
fn put_status(words: &mut Vec<u64>, node: u32, count: u32, block: u32)
    ensures { length words.new.items ≡ length words.old.items }
{
    put(
        words,
        node,
        u64::from(count.min(99)) << 52 | u64::from(block.min(NODE_WORDS)) << 42,
    );
}

// The first child, whose key is empty, in the last word of the node.
fn put_first(words: &mut Vec<u64>, node: u32, child: u32)
    ensures { length words.new.items ≡ length words.old.items }
{
    put_meta(words, node, 0, NODE_WORDS - 1, 7);
    put(
        words,
        node.saturating_add(NODE_WORDS - 1),
        u64::from(child) + 1,
    );
}

// A child with a key, in nine words before those of the children before.
fn put_child(words: &mut Vec<u64>, node: u32, level: u32, chain: u32, child: u32)
    ensures { length words.new.items ≡ length words.old.items }
{
    let offset = (NODE_WORDS - 1).saturating_sub(chain.saturating_mul(RECORD));
    let lengths = u64::from(KEY_LENGTH) << 16 | u64::from(KEY_LENGTH) + 7;
    put_meta(words, node, chain, offset, lengths);
    let at = node.saturating_add(offset);
    put_key(words, at, level, chain);
    put(words, at.saturating_add(FENCE_WORDS), u64::from(child) + 1);
}

// Where a slot begins.
fn node_at(config: &Config, slot: u32) -> u32 {
    let first = config.swaps.saturating_add(1).saturating_mul(16);
    first.saturating_add(slot.saturating_mul(NODE_WORDS))
}

// A chain of nodes with one child each, from the slot on: of so many levels, the last of them an empty leaf.
fn put_chain(words: &mut Vec<u64>, config: &Config, slot: u32, levels: u32, low: Bound, high: Bound)
    ensures { length words.new.items ≡ length words.old.items }
{
    for below in 0..levels {
        let node = node_at(config, slot.saturating_add(below));
        let level = levels.saturating_sub(below).saturating_sub(1);
        let count = level.min(1);
        put_front(words, node, level, count, low, high);
        put_status(words, node, count, count);
        if level > 0 {
            put_first(words, node, slot.saturating_add(below).saturating_add(1));
        }
    }
}

// The bound after a chain: the key of the next one, or the end of the node's range.
fn bound_after(level: u32, chain: u32, top: u32) -> Bound {
    if chain < CHAINS {
        Some((level, chain.saturating_add(1)))
    } else {
        above(level, top)
    }
}

// The end of the range of the path's node at a level: none for the root, which stands at the top one.
fn above(level: u32, top: u32) -> Bound {
    if level < top {
        Some((level.saturating_add(1), 1))
    } else {
        None
    }
}

// The slot of the path's node below one.
fn next_slot(slot: u32, level: u32) -> u32 {
    slot.saturating_add(1)
        .saturating_add(level.saturating_mul(CHAINS))
}

// The path's node at a level, with its chains.
fn put_path(words: &mut Vec<u64>, config: &Config, slot: u32, level: u32, top: u32)
    ensures { length words.new.items ≡ length words.old.items }
{
    let node = node_at(config, slot);
    put_front(words, node, level, CHAINS + 1, None, above(level, top));
    put_status(words, node, CHAINS + 1, RECORD * CHAINS + 1);
    put_first(words, node, next_slot(slot, level));
    for chain in 1..=CHAINS {
        let first = slot
            .saturating_add(1)
            .saturating_add(level.saturating_mul(chain.saturating_sub(1)));
        put_child(words, node, level, chain, first);
        put_chain(
            words,
            config,
            first,
            level,
            Some((level, chain)),
            bound_after(level, chain, top),
        );
    }
}

// A record of the leaf: the key `a`, two digits and `x`, and the payload `v`.
fn put_record(words: &mut Vec<u64>, node: u32, number: u32)
    ensures { length words.new.items ≡ length words.old.items }
{
    let offset = (NODE_WORDS - RECORD).saturating_sub(number.saturating_mul(RECORD));
    let lengths = u64::from(KEY_LENGTH) << 16 | u64::from(KEY_LENGTH) + 1;
    put_meta(words, node, number, offset, lengths);
    let digits = u64::from(number / 10 % 10) << 40 | u64::from(number % 10) << 32;
    let at = node.saturating_add(offset);
    put(words, at, 0x61_30_30_78_78_78_78 + digits);
    put_filler(words, at);
    put(words, at.saturating_add(FENCE_WORDS), 0x76 << 48);
}

// The leaf of the path: twenty-three records of ten words. A separator of it has ten words too.
fn put_leaf(words: &mut Vec<u64>, config: &Config, slot: u32, top: u32)
    ensures { length words.new.items ≡ length words.old.items }
{
    let node = node_at(config, slot);
    put_front(words, node, 0, RECORDS, None, above(0, top));
    put_status(words, node, RECORDS, RECORD * RECORDS);
    for number in 0..RECORDS {
        put_record(words, node, number);
    }
}

// The tree, level by level from the root, which stands at this one, in fresh memory.
fn put_tree(words: &mut Vec<u64>, config: &Config, top: u32)
    ensures { length words.new.items ≡ length words.old.items }
{
    let mut slot = 0u32;
    for down in 0..top {
        let level = top.saturating_sub(down);
        put_path(words, config, slot, level, top);
        slot = next_slot(slot, level);
    }
    put_leaf(words, config, slot, top);
}

// A world over the tree, once it has recovered.
fn tall(rt: &impl Abort, alloc: Global, nodes: u32, top: u32) -> World {
    let numbers = Config {
        nodes,
        swaps: 64,
        workers: 1,
        marks: 1 << 20,
        calls: 16,
        pages: 1,
    };
    let config = World::open(alloc, &numbers).expect(rt, "a world").config();
    let mut world = over_tree(rt, alloc, &config, top);
    while_recovering(rt, &mut world);
    world
}

// A world over the tree, off.
fn over_tree(rt: &impl Abort, alloc: Global, config: &Config, top: u32) -> World
    requires { IsConfig config.now }
{
    let mut words = bz_layout::fresh(alloc, config).expect(rt, "the words");
    put_tree(&mut words, config, top);
    World::boot(alloc, config, &words).expect(rt, "a world")
}

// The power comes on, and the recovery goes to its end.
fn while_recovering(rt: &impl Abort, world: &mut World) {
    applies(rt, world, Event::On, Applied::On);
    for _ in 0..1 << 20 {
        match world.apply(Event::Step(0)) {
            Applied::Stepped => {}
            other => {
                same(rt, other, Applied::Ready);
                return;
            }
        }
    }
}

// An insert into the full leaf is answered so, within so many acts.
fn inserts(rt: &impl Abort, world: &mut World, most: u32, answer: Answer) {
    let mut bytes = [b'x'; KEY_LENGTH as usize];
    bytes[0] = b'a';
    bytes[1] = b'4';
    bytes[2] = b'0';
    let insert = Call::Insert(key(rt, &bytes), payload(rt, b"v"));
    holds(rt, begin(world, 1, insert));
    same(rt, steps(world, 1, most).1, Some(answer));
}

// How many descriptors are taken, and how many slots are left.
fn supply(world: &World) -> (u32, u32) {
    (world.taken(), world.left())
}

#[test]
fn a_tree_of_the_greatest_height_takes_no_more_leaves(rt: HostRuntime) {
    // also where no slot is left
    for nodes in [2_048, 1_530] {
        let mut world = tall(&rt, rt.alloc(), nodes, MAX_LEVELS - 1);
        has_pairs(&rt, &world, u64::from(RECORDS));
        inserts(&rt, &mut world, 40_000, Answer::FullHeight);
    }
}

// The most acts of an insert that is alone.
const WORST: u32 = 35_222;

#[test]
fn the_worst_insert_alone_takes_no_more_than_its_numbers(rt: HostRuntime) {
    let mut world = tall(&rt, rt.alloc(), 2_048, MAX_LEVELS - 2);
    let (taken, left) = supply(&world);
    inserts(&rt, &mut world, WORST, Answer::Inserted);
    // the leaf is frozen, it and each node above it are split, and the record is put there by two swaps
    let (now_taken, now_left) = supply(&world);
    same(&rt, now_taken, taken.saturating_add(MAX_LEVELS - 1 + 3));
    same(
        &rt,
        left,
        now_left.saturating_add(SPLIT_SLOTS * (MAX_LEVELS - 1)),
    );
    has_pairs(&rt, &world, u64::from(RECORDS) + 1);
}
