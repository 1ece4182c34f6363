//! A small image made word by word: with a swap in each state of its life it boots, recovers and is read; and with some words that
//! break a rule it is refused by that rule.

ghost use Rattle.std.specs.Prelude.{◌≡◌, length};
ghost use Rattle.bz_layout.specs.Addresses.{words_of};
ghost use Rattle.bz_layout.specs.Config.{IsConfig};

use super::bench::{Answer, has_pairs, key, open, payload, same, whole};
use super::boot::{come_on, refusal};
use bz_call::Call;
use bz_layout::Config;
use bz_tree::{ShapeFault, ShapeRule};
use bz_world::{BootError, World};
use std::alloc::Global;
use std::process::Abort;

// An address and a word.
type Written = (u32, u64);

// Three slots and two descriptors: slot 1, the root, with the children 0 and 2, parted by `m`; slot 0, which ends at `m`, with the
// key `a`; and slot 2, which begins at `m`, with the key `z`.
const TREE: [Written; 20] = [
    (1, 2),
    (304, 0x0020_0C00_0000_0000),
    (305, 0x0200_0001),
    (322, 0x1000_00FF_0000_0007),
    (323, 0x1000_00FD_0001_0008),
    (557, 0x006D_0000_0000_0000),
    (558, 3),
    (559, 1),
    (48, 0x0010_0800_0000_0002),
    (49, 0x0001_0000),
    (58, 0x006D_0000_0000_0000),
    (66, 0x1000_00FE_0001_0002),
    (302, 0x0061_0000_0000_0000),
    (303, 0x0031_0000_0000_0000),
    (560, 0x0010_0800_0000_0002),
    (561, 0x0100),
    (562, 0x006D_0000_0000_0000),
    (578, 0x1000_00FE_0001_0002),
    (814, 0x007A_0000_0000_0000),
    (815, 0x0032_0000_0000_0000),
];

// The two words of slot 0 before and after the swap that makes the record of `a` visible.
const OLD: u64 = 0x0010_0802_0000_0001;

const NEW: u64 = 0x0010_0800_0000_0002;

const RESERVED: u64 = 0x0000_00FE_0001_0002;

const VISIBLE: u64 = 0x1000_00FE_0001_0002;

// That swap in the first descriptor, but for its status.
const SWAP: [Written; 7] = [
    (17, 2),
    (18, 48),
    (19, OLD),
    (20, NEW),
    (21, 66),
    (22, RESERVED),
    (23, VISIBLE),
];

const DIRTY: u64 = 1 << 63;

// A pointer to the first descriptor, and tags of it: of worker 1 for its first entry, and of worker 2 for its second one.
const POINTER: u64 = 1 << 62;

const FIRST_TAG: u64 = 0x2000_0000_0004_0000;

const SECOND_TAG: u64 = 0x2000_0000_0009_0000;

// A state of the swap: the descriptor's status, the two words, and whether `a` is there.
type State = (u64, u64, u64, bool);

const STATES: [State; 17] = [
    // undecided, with no pointer, with some, and with all
    (1, OLD, RESERVED, false),
    (1, POINTER, RESERVED, false),
    (1, OLD, POINTER, false),
    (1, POINTER, POINTER, false),
    // and with the tags of two helpers
    (1, POINTER, SECOND_TAG, false),
    (1, FIRST_TAG, SECOND_TAG, false),
    // it has succeeded, which is not known to be flushed, or is
    (DIRTY + 2, POINTER, POINTER, true),
    (2, POINTER, POINTER, true),
    (2, DIRTY + NEW, POINTER, true),
    (2, NEW, DIRTY + VISIBLE, true),
    (2, NEW, VISIBLE, true),
    // it has failed, in both ways too
    (DIRTY + 3, POINTER, RESERVED, false),
    (3, POINTER, DIRTY + RESERVED, false),
    (3, FIRST_TAG, SECOND_TAG, false),
    (3, OLD, RESERVED, false),
    // and the descriptor is free again
    (0, OLD, RESERVED, false),
    (0, NEW, VISIBLE, true),
];

/// Writes a word, if it lies in the memory.
pub(super) fn put(words: &mut Vec<u64>, at: u32, word: u64)
    ensures { length words.new.items ≡ length words.old.items }
{
    if let Some(place) = words.get_mut(at as usize) {
        *place = word;
    }
}

// Writes words of an image.
fn write(words: &mut Vec<u64>, written: &[Written])
    ensures { length words.new.items ≡ length words.old.items }
{
    for (at, word) in written {
        put(words, *at, *word);
    }
}

// The numbers of such a memory.
fn numbers(rt: &impl Abort, alloc: Global) -> Config
    ensures { IsConfig result }
{
    open(alloc, 3, 2, 2).expect(rt, "a world").config()
}

// The words of the tree.
fn tree(rt: &impl Abort, alloc: Global, config: &Config) -> Vec<u64>
    requires { IsConfig config.now }
    ensures { length result.items ≡ words_of config.now }
{
    let mut words = bz_layout::fresh(alloc, config).expect(rt, "the words");
    write(&mut words, &TREE);
    words
}

// A world over the tree with the swap in a state.
fn booted(rt: &impl Abort, alloc: Global, state: State) -> World {
    let config = numbers(rt, alloc);
    let mut words = tree(rt, alloc, &config);
    write(&mut words, &SWAP);
    write(&mut words, &[(16, state.0), (48, state.1), (66, state.2)]);
    World::boot(alloc, &config, &words).expect(rt, "a world")
}

// What a get of `a` answers, and then an insert.
fn answers_of(rt: &impl Abort, is_there: bool) -> (Answer, Answer) {
    if is_there {
        (Answer::Value(payload(rt, b"1")), Answer::Exists)
    } else {
        (Answer::Missing, Answer::Inserted)
    }
}

// A call of a worker is answered so.
fn answers(rt: &impl Abort, world: &mut World, w: u8, call: Call, answer: Answer) {
    same(rt, whole(world, w, call), Some(answer));
}

// `a` is there or not, and an insert of it finds both descriptors free.
fn finds(rt: &impl Abort, world: &mut World, is_there: bool) {
    let (a, one) = (key(rt, b"a"), payload(rt, b"1"));
    let (got, put) = answers_of(rt, is_there);
    answers(rt, world, 1, Call::Get(a), got);
    answers(rt, world, 2, Call::Insert(a, one), put);
}

// `z` is there.
fn finds_other(rt: &impl Abort, world: &mut World) {
    let (z, two) = (key(rt, b"z"), payload(rt, b"2"));
    answers(rt, world, 1, Call::Get(z), Answer::Value(two));
}

// It recovers and is read.
fn is_read(rt: &impl Abort, world: &mut World, is_there: bool) {
    has_pairs(rt, world, if is_there { 2 } else { 1 });
    come_on(rt, world);
    finds(rt, world, is_there);
    finds_other(rt, world);
    has_pairs(rt, world, 2);
}

// It boots in this state.
fn is_resolved(rt: &impl Abort, alloc: Global, state: State) {
    let mut world = booted(rt, alloc, state);
    is_read(rt, &mut world, state.3);
}

#[test]
fn a_swap_in_each_state_of_its_life_is_resolved(rt: HostRuntime) {
    for state in STATES {
        is_resolved(&rt, rt.alloc(), state);
    }
}

// The tree with these words is refused by this rule, at this place.
fn is_refused(rt: &impl Abort, alloc: Global, rule: ShapeRule, place: u32, written: &[Written]) {
    let config = numbers(rt, alloc);
    let mut words = tree(rt, alloc, &config);
    write(&mut words, written);
    let fault = BootError::Shape(ShapeFault { rule, place });
    same(rt, refusal(alloc, &config, &words), Some(fault));
}

// A rule, the place of the fault, and the word that makes it.
const FAULTS: [(ShapeRule, u32, Written); 10] = [
    (ShapeRule::Super, 0, (0, 1)),
    (ShapeRule::Word, 68, (68, 3 << 62)),
    (ShapeRule::Root, 0, (1, 4)),
    (ShapeRule::Twice, 0, (558, 1)),
    (ShapeRule::Level, 0, (49, 0x0001_0001)),
    (ShapeRule::Fence, 0, (49, 0x0002_0000)),
    (ShapeRule::Status, 0, (68, 1)),
    (ShapeRule::Record, 0, (66, 0x1000_00FD_0001_0002)),
    (ShapeRule::Key, 0, (302, 0x007A << 48)),
    (ShapeRule::Child, 1, (558, 4)),
];

// Two records of slot 2 in the wrong order.
const UNSORTED: [Written; 5] = [
    (560, 0x0020_1000_0000_0002),
    (561, 0x0200_0100),
    (579, 0x1000_00FC_0001_0002),
    (812, 0x0079 << 48),
    (813, 0x0033 << 48),
];

#[test]
fn an_image_is_refused_by_each_rule(rt: HostRuntime) {
    for (rule, place, written) in FAULTS {
        is_refused(&rt, rt.alloc(), rule, place, &[written]);
    }
    is_refused(&rt, rt.alloc(), ShapeRule::Order, 2, &UNSORTED);
}
