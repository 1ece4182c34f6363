//! An insert, a delete and an update, word for word.

use super::bench::{
    Answer, begin, cached, durable, holds, in_world, key, payload, same, same_at, steps,
};
use bz_call::Call;
use bz_world::World;
use std::process::Abort;

const DIRTY: u64 = 1 << 63;

// The words of the root leaf of a memory of 16 nodes and 64 swaps.
const STATUS: u32 = 1_040;

const META: u32 = 1_058;

// After the first swap of the insert: the leaf, and the swap's descriptor.
const RESERVED: [(u32, u64); 10] = [
    (STATUS, 0x0010_0802_0000_0001),
    (META, 0x0000_00FE_0001_0002),
    (16, 2),
    (17, 2),
    (18, 1_040),
    (19, 0),
    (20, 0x0010_0802_0000_0001),
    (21, 1_058),
    (22, 0),
    (23, 0x0000_00FE_0001_0002),
];

// After its second swap: the leaf and the record.
const PUBLISHED: [(u32, u64); 4] = [
    (STATUS, 0x0010_0800_0000_0002),
    (META, 0x1000_00FE_0001_0002),
    (1_294, 0x0061_0000_0000_0000),
    (1_295, 0x0031_0000_0000_0000),
];

// After the first swap of an update with 22, whose record stands below that of the insert.
const TAKEN: [(u32, u64); 2] = [
    (STATUS, 0x0010_1002_0000_0003),
    (META, 0x1000_00FE_0001_0002),
];

// After its second swap.
const MOVED: [(u32, u64); 4] = [
    (STATUS, 0x0010_1002_0000_0004),
    (META, 0x1000_00FC_0001_0003),
    (1_292, 0x0061_0000_0000_0000),
    (1_293, 0x0032_3200_0000_0000),
];

// After the first swap of an update with 12345678 in its place, whose record has two words more: the leaf, and the swap's descriptor.
const GROWN: [(u32, u64); 7] = [
    (STATUS, 0x0010_1403_0000_0003),
    (META, 0x1000_00FE_0001_0002),
    (48, 2),
    (49, 1),
    (50, 1_040),
    (51, 0x0010_0800_0000_0002),
    (52, 0x0010_1403_0000_0003),
];

// After its second swap.
const REPLACED: [(u32, u64); 5] = [
    (STATUS, 0x0010_1402_0000_0004),
    (META, 0x1000_00FB_0001_0009),
    (1_291, 0x0061_0000_0000_0000),
    (1_292, 0x0031_3233_3435_3637),
    (1_293, 0x0038_0000_0000_0000),
];

// After a delete in place of the update.
const DELETED: [(u32, u64); 2] = [
    (STATUS, 0x0010_0802_0000_0003),
    (META, 0x0000_0000_0001_0002),
];

// Whether each address has its word in the caches, and in the memory itself the same word, which may be dirty there.
fn has(rt: &impl Abort, world: &World, words: &[(u32, u64)]) {
    for (a, word) in words {
        same_at(rt, cached(world, *a), *word, a);
        same_at(rt, durable(world, *a) % DIRTY, *word, a);
    }
}

// Steps worker 1 until the cached word at an address is this one, which is what it stores after the first swap of its
// call; and finds these words then.
fn after_first(rt: &impl Abort, world: &mut World, (a, word): (u32, u64), words: &[(u32, u64)]) {
    for _ in 0..1_000 {
        if cached(world, a) == word {
            break;
        }
        steps(world, 1, 1);
    }
    same(rt, cached(world, a), word);
    same(rt, durable(world, a), 0);
    has(rt, world, words);
}

// Begins a call on the key a.
fn begins(rt: &impl Abort, world: &mut World, call: Call) {
    holds(rt, begin(world, 1, call));
}

// Makes the rest of the call, which is answered so, and finds these words then.
fn ends(rt: &impl Abort, world: &mut World, answer: Answer, words: &[(u32, u64)]) {
    same(rt, steps(world, 1, 1_000).1, Some(answer));
    has(rt, world, words);
}

// Fresh memory.
const FRESH: [(u32, u64); 7] = [
    (0, 2),
    (1, 1),
    (2, 0),
    (3, 16),
    (4, 64),
    (STATUS, 0),
    (META, 0),
];

// The insert of a with 1 into it.
fn insert(rt: &impl Abort, world: &mut World) {
    has(rt, world, &FRESH);
    begins(rt, world, Call::Insert(key(rt, b"a"), payload(rt, b"1")));
    after_first(rt, world, (1_294, 0x0061_0000_0000_0000), &RESERVED);
    ends(rt, world, Answer::Inserted, &PUBLISHED);
}

// An update of a with 22.
fn update(rt: &impl Abort, world: &mut World) {
    begins(rt, world, Call::Update(key(rt, b"a"), payload(rt, b"22")));
    after_first(rt, world, (1_292, 0x0061_0000_0000_0000), &TAKEN);
    ends(rt, world, Answer::Updated(payload(rt, b"1")), &MOVED);
}

// An update of a with 12345678.
fn grow(rt: &impl Abort, world: &mut World) {
    let update = Call::Update(key(rt, b"a"), payload(rt, b"12345678"));
    begins(rt, world, update);
    after_first(rt, world, (1_291, 0x0061_0000_0000_0000), &GROWN);
    ends(rt, world, Answer::Updated(payload(rt, b"1")), &REPLACED);
}

// A delete of a.
fn delete(rt: &impl Abort, world: &mut World) {
    begins(rt, world, Call::Delete(key(rt, b"a")));
    ends(rt, world, Answer::Deleted(payload(rt, b"1")), &DELETED);
}

#[test]
fn an_insert_leaves_the_words_that_the_format_gives(rt: HostRuntime) {
    in_world(&rt, rt.alloc(), 16, 64, 1, |world| {
        insert(&rt, world);
        // the line of the status word is flushed before its dirty bit is cleared
        same(&rt, durable(world, STATUS), DIRTY + 0x0010_0800_0000_0002);
    });
}

#[test]
fn an_update_leaves_the_words_that_the_format_gives(rt: HostRuntime) {
    in_world(&rt, rt.alloc(), 16, 64, 1, |world| {
        insert(&rt, world);
        update(&rt, world);
    });
}

#[test]
fn an_update_of_three_words_leaves_the_words_that_the_format_gives(rt: HostRuntime) {
    in_world(&rt, rt.alloc(), 16, 64, 1, |world| {
        insert(&rt, world);
        grow(&rt, world);
    });
}

#[test]
fn a_delete_leaves_the_words_that_the_format_gives(rt: HostRuntime) {
    in_world(&rt, rt.alloc(), 16, 64, 1, |world| {
        insert(&rt, world);
        delete(&rt, world);
    });
}
