//! A small tree of two levels: its shape and its content, and what is told of it with a few words written anew.

use super::bench::same;
use bz_content::{CheckError, Shape};
use bz_judge::{check, pairs};
use bz_key::{Key, Payload};
use bz_layout::Config;
use bz_tree::{ShapeFault, ShapeRule};
use std::alloc::Global;
use std::process::Abort;
use std::test::Fail;

const SMALL: Config = Config {
    nodes: 3,
    swaps: 2,
    workers: 1,
    marks: 1024,
    calls: 1,
    pages: 0,
};

/// A word at an address.
pub(crate) type Written = (usize, u64);

/// The superblock; slot 1, the root, with the children 0 and 2, parted by `m`; slot 0, which ends at `m`, with the
/// key `a`; and slot 2, which begins at `m`, with the key `z`.
const TREE: [Written; 23] = [
    (0, 2),
    (1, 2),
    (3, 3),
    (4, 2),
    (304, 0x0020_0C00_0000_0000),
    (305, 0x0200_0001),
    (322, 0x1000_00FF_0000_0007),
    (323, 0x1000_00FD_0001_0008),
    (557, 0x006D_0000_0000_0000),
    (558, 3),
    (559, 1),
    (48, 0x0010_0800_0000_0002),
    (49, 0x0001_0000),
    (58, 0x006D_0000_0000_0000),
    (66, 0x1000_00FE_0001_0002),
    (302, 0x0061_0000_0000_0000),
    (303, 0x0031_0000_0000_0000),
    (560, 0x0010_0800_0000_0002),
    (561, 0x0100),
    (562, 0x006D_0000_0000_0000),
    (578, 0x1000_00FE_0001_0002),
    (814, 0x007A_0000_0000_0000),
    (815, 0x0032_0000_0000_0000),
];

// Writes words of an image.
fn write(words: &mut [u64; 816], written: &[Written]) {
    for (place, word) in written {
        if *place < 816 {
            words[*place] = *word;
        }
    }
}

// What is told of the tree with these words.
fn judged(alloc: Global, written: &[Written]) -> Result<Shape, CheckError> {
    let mut words = [0u64; 816];
    write(&mut words, &TREE);
    write(&mut words, written);
    check(alloc, &words, &SMALL)
}

/// The tree with the words of each of these cases breaks this rule first, at this place.
pub(crate) fn all_break(
    rt: &impl Abort,
    alloc: Global,
    rule: ShapeRule,
    place: u32,
    cases: &[&'static [Written]],
) {
    let told = Err(CheckError::Shape(ShapeFault { rule, place }));
    for written in cases {
        assert_eq!(rt; judged(alloc, written), told, "{written:?}");
    }
}

/// A swap of two words of slot 0 on its way, which makes the record of `a` visible.
const PUBLISHING: [Written; 9] = [
    (17, 2),
    (18, 48),
    (19, 0x0010_0802_0000_0001),
    (20, 0x0010_0800_0000_0002),
    (21, 66),
    (22, 0x0000_00FE_0001_0002),
    (23, 0x1000_00FE_0001_0002),
    (48, 0x4000_0000_0000_0000),
    (66, 0x4000_0000_0000_0000),
];

// What is told of the tree while the swap has this status.
fn judged_in_swap(alloc: Global, status: u64) -> Result<Shape, CheckError> {
    let mut words = [0u64; 816];
    write(&mut words, &TREE);
    write(&mut words, &PUBLISHING);
    write(&mut words, &[(16, status)]);
    check(alloc, &words, &SMALL)
}

// A tree of three nodes with so many pairs is accepted.
fn is_accepted(rt: &impl Abort, judged: Result<Shape, CheckError>, pairs: u32) {
    let shape = Shape {
        pairs,
        levels: 2,
        reached: 3,
    };
    same(rt, judged, Ok(shape));
}

#[test]
fn accepts_trees(rt: HostRuntime) {
    is_accepted(&rt, judged(rt.alloc(), &[]), 2);
    // undecided, succeeded, and failed
    is_accepted(&rt, judged_in_swap(rt.alloc(), 1), 1);
    is_accepted(&rt, judged_in_swap(rt.alloc(), 2), 2);
    is_accepted(&rt, judged_in_swap(rt.alloc(), 3), 1);
}

/// Slot 2 with two records, of the keys `z` and `y`.
const TWO_RECORDS: [Written; 4] = [
    (560, 0x0020_1000_0000_0002),
    (579, 0x1000_00FC_0001_0002),
    (812, 0x0079_0000_0000_0000),
    (813, 0x0033_0000_0000_0000),
];

// The content of the tree with these words, and then these, if it is well formed.
fn content(
    alloc: Global,
    written: &[Written],
    then: &[Written],
) -> Result<Vec<(Key, Payload)>, CheckError> {
    let mut words = [0u64; 816];
    write(&mut words, &TREE);
    write(&mut words, written);
    write(&mut words, then);
    let _shape = check(alloc, &words, &SMALL)?;
    Ok(pairs(alloc, &words)?)
}

// A pair of one byte each.
fn pair(key: u8, payload: u8) -> Result<(Key, Payload), Fail> {
    Ok((Key::of(&[key])?, Payload::of(&[payload])?))
}

// It has these pairs.
fn has(
    rt: &impl Abort,
    alloc: Global,
    written: &[Written],
    then: &[Written],
    want: &[(Key, Payload)],
) -> Result<(), Fail> {
    let held = content(alloc, written, then)?;
    same(rt, held.as_slice(), want);
    Ok(())
}

#[test]
fn gathers_the_pairs_in_the_order_of_keys(rt: HostRuntime) -> Result<(), Fail> {
    let (a, y, z) = (pair(b'a', b'1')?, pair(b'y', b'3')?, pair(b'z', b'2')?);
    has(&rt, rt.alloc(), &[], &[], &[a, z])?;
    has(&rt, rt.alloc(), &TWO_RECORDS, &[], &[a, y, z])?;
    // undecided, and succeeded
    has(&rt, rt.alloc(), &PUBLISHING, &[(16, 1)], &[z])?;
    has(&rt, rt.alloc(), &PUBLISHING, &[(16, 2)], &[a, z])?;
    has(&rt, rt.alloc(), &EMPTY_LEAVES, &[], &[])
}

/// Slots 0 and 2 without records.
const EMPTY_LEAVES: [Written; 8] = [
    (48, 0),
    (66, 0),
    (302, 0),
    (303, 0),
    (560, 0),
    (578, 0),
    (814, 0),
    (815, 0),
];
