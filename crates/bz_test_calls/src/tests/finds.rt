//! Every key of small leaves is got, and keys that they lack: what is found, and how many words that takes.

ghost use Rattle.std.specs.Prelude.{◌≡◌, length};
ghost use Rattle.bz_layout.specs.Addresses.{words_of};
ghost use Rattle.bz_layout.specs.Config.{IsConfig};

use super::bench::{Answer, begin, holds, mark, marks, open, payload, same, steps};
use super::boot::come_on;
use super::images::put;
use bz_call::Call;
use bz_key::Key;
use bz_layout::{Config, HEADER_AT, META_AT, NODE_WORDS, STATUS_AT};
use bz_mark::Mark;
use bz_world::World;
use std::alloc::Global;
use std::process::Abort;

// Where the one node of the memory lies, after a superblock and a descriptor.
const NODE: u32 = 32;

// What the metadata word of a visible record has besides its place and its lengths.
const VISIBLE: u64 = 1 << 60;

// The loads of a get besides those of the records: three on the way to the leaf, status and header, eight words of a payload, and
// the status again.
const BESIDES: u32 = 14;

// How long the keys of a leaf are and how many words they take, how many records it has, how many of them are sorted, and the
// binary digits of that.
#[derive(Clone, Copy)]
struct Case {
    length: u8,
    words: u8,
    count: u8,
    sorted: u8,
    digits: u8,
}

const CASES: [Case; 6] = [
    Case {
        length: 1,
        words: 1,
        count: 79,
        sorted: 79,
        digits: 7,
    },
    Case {
        length: 1,
        words: 1,
        count: 79,
        sorted: 39,
        digits: 6,
    },
    Case {
        length: 7,
        words: 1,
        count: 79,
        sorted: 79,
        digits: 7,
    },
    Case {
        length: 8,
        words: 2,
        count: 59,
        sorted: 19,
        digits: 5,
    },
    Case {
        length: 56,
        words: 8,
        count: 23,
        sorted: 23,
        digits: 5,
    },
    Case {
        length: 56,
        words: 8,
        count: 23,
        sorted: 0,
        digits: 0,
    },
];

// A key of this length: the number, and then copies of `a`.
fn key_of(rt: &impl Abort, number: u8, length: u8) -> Key {
    let mut bytes = [b'a'; 56];
    bytes[0] = number;
    assert!(rt; length <= 56);
    Key::of(&bytes[..length as usize]).expect(rt, "a key")
}

// The number of the key of a record.
fn number_of(i: u8) -> u8 {
    i.saturating_mul(2)
}

// Every third record was deleted.
fn is_deleted(i: u8) -> bool {
    i % 3 == 2
}

// Puts the words of a key there.
fn put_key(words: &mut Vec<u64>, at: u32, key: &Key)
    ensures { length words.new.items ≡ length words.old.items }
{
    for i in 0..8usize {
        if i < key.words() {
            put(words, at.saturating_add(i as u32), key.word(i));
        }
    }
}

// Puts a record of a leaf, whose payload is its number.
fn put_record(rt: &impl Abort, words: &mut Vec<u64>, case: &Case, i: u8)
    ensures { length words.new.items ≡ length words.old.items }
{
    let size = u32::from(case.words) + 1;
    let offset = NODE_WORDS.saturating_sub(size * (u32::from(i) + 1));
    let key = u64::from(case.length);
    let lengths = key * (1 << 16) + key + 1;
    let meta = if is_deleted(i) {
        lengths
    } else {
        VISIBLE + u64::from(offset) * (1 << 32) + lengths
    };
    put(words, NODE + META_AT + u32::from(i), meta);
    let at = NODE.saturating_add(offset);
    put_key(words, at, &key_of(rt, number_of(i), case.length));
    // the payload is one byte
    let payload = u64::from(i) * (1 << 48);
    put(words, at.saturating_add(u32::from(case.words)), payload);
}

// Puts the status and the header of a leaf.
fn put_front(words: &mut Vec<u64>, case: &Case)
    ensures { length words.new.items ≡ length words.old.items }
{
    let count = u64::from(case.count);
    let size = u64::from(case.words) + 1;
    let status = count * (1 << 52) + count * size * (1 << 42) + count / 3 * size * (1 << 32);
    put(words, NODE + STATUS_AT, status);
    put(words, NODE + HEADER_AT, u64::from(case.sorted) * (1 << 24));
}

// The words of a memory whose one node is the leaf.
fn image(rt: &impl Abort, alloc: Global, config: &Config, case: &Case) -> Vec<u64>
    requires { IsConfig config.now }
    ensures { length result.items ≡ words_of config.now }
{
    let mut words = bz_layout::fresh(alloc, config).expect(rt, "the words");
    put_front(&mut words, case);
    for i in 0..case.count {
        put_record(rt, &mut words, case, i);
    }
    words
}

// A world over it.
fn booted(rt: &impl Abort, alloc: Global, case: &Case) -> World {
    let config = open(alloc, 1, 1, 1).expect(rt, "a world").config();
    let words = image(rt, alloc, &config, case);
    World::boot(alloc, &config, &words).expect(rt, "a world")
}

// Whether a mark is a load of the metadata word of a sorted record that was deleted.
fn is_dead(mark: &Option<Mark>, sorted: u8) -> bool {
    match mark {
        Some(Mark::Load { a, v, .. }) => {
            let first = NODE + META_AT;
            *a >= first && *a < first + u32::from(sorted) && *v < VISIBLE
        }
        _ => false,
    }
}

// How many such marks there are from one on.
fn dead_from(world: &World, sorted: u8, from: u32) -> u32 {
    let mut dead = 0u32;
    for i in from..marks(world) {
        if is_dead(&mark(world, i), sorted) {
            dead = dead.saturating_add(1);
        }
    }
    dead
}

// A get is answered so, and loads at most as many words as the bound says: nine for each record after the sorted ones and for each
// binary digit of their number, one for each of these that it meets deleted, and those besides.
fn gets(rt: &impl Abort, world: &mut World, case: &Case, key: Key, answer: Answer) {
    let from = marks(world);
    holds(rt, begin(world, 1, Call::Get(key)));
    let (acts, got) = steps(world, 1, 1_000);
    same(rt, got, Some(answer));
    let records = u32::from(case.count.saturating_sub(case.sorted)) + u32::from(case.digits);
    let dead = dead_from(world, case.sorted, from);
    holds(rt, acts <= (9 * records + BESIDES).saturating_add(dead));
}

// What a get of the key of a record is answered.
fn answer_of(rt: &impl Abort, i: u8) -> Answer {
    if is_deleted(i) {
        Answer::Missing
    } else {
        Answer::Value(payload(rt, &[i]))
    }
}

// Gets the key of a record, the key after it, and the one in another length.
fn gets_about(rt: &impl Abort, world: &mut World, case: &Case, i: u8) {
    let number = number_of(i);
    let other = if case.length == 7 { 8 } else { 7 };
    let after = number.saturating_add(1);
    gets(
        rt,
        world,
        case,
        key_of(rt, number, case.length),
        answer_of(rt, i),
    );
    gets(
        rt,
        world,
        case,
        key_of(rt, after, case.length),
        Answer::Missing,
    );
    gets(rt, world, case, key_of(rt, number, other), Answer::Missing);
}

// Each key of a leaf.
fn gets_each(rt: &impl Abort, alloc: Global, case: &Case) {
    let mut world = booted(rt, alloc, case);
    come_on(rt, &mut world);
    for i in 0..case.count {
        gets_about(rt, &mut world, case, i);
    }
}

#[test]
fn each_key_of_a_leaf_is_found_within_the_bound(rt: HostRuntime) {
    for case in CASES {
        gets_each(&rt, rt.alloc(), &case);
    }
}
