//! The small tree with a few words of its nodes written anew: each rule, broken at the place that is told, and the first of two.

use super::judge::{Written, all_break};
use bz_tree::ShapeRule;
use std::test::Fail;

#[test]
fn names_second_visits_and_levels(rt: HostRuntime) -> Result<(), Fail> {
    all_break(&rt, rt.alloc(), ShapeRule::Twice, 0, &[&[(558, 1)]]);
    all_break(&rt, rt.alloc(), ShapeRule::Twice, 1, &[&[(558, 2)]]);
    let at_root: [&[Written]; 2] = [&[(305, 0x0200_000C)], &[(305, 0x0001_0200_0001)]];
    all_break(&rt, rt.alloc(), ShapeRule::Level, 1, &at_root);
    let below: [&[Written]; 2] = [&[(305, 0x0200_0002)], &[(49, 0x0001_0001)]];
    all_break(&rt, rt.alloc(), ShapeRule::Level, 0, &below);
    Ok(())
}

#[test]
fn names_fences(rt: HostRuntime) -> Result<(), Fail> {
    let of_leaf: [&[Written]; 4] = [
        // No high fence, no plain packing, two bytes, and a word of the low fence, which is absent.
        &[(49, 0), (58, 0)],
        &[(58, 0x006D_0000_0000_0001)],
        &[(49, 0x0002_0000)],
        &[(53, 1)],
    ];
    all_break(&rt, rt.alloc(), ShapeRule::Fence, 0, &of_leaf);
    let of_root: &[Written] = &[(305, 0x0200_0101), (306, 0x0061 << 48)];
    all_break(&rt, rt.alloc(), ShapeRule::Fence, 1, &[of_root]);
    all_break(
        &rt,
        rt.alloc(),
        ShapeRule::Fence,
        2,
        &[&[(562, 0x006E << 48)]],
    );
    Ok(())
}

#[test]
fn names_statuses(rt: HostRuntime) -> Result<(), Fail> {
    let of_leaf: [&[Written]; 5] = [
        // Words for 239, two sorted of one, a free word that is set, and a dead word too many.
        &[(48, 0x0013_B8EC_0000_0002)],
        &[(49, 0x0201_0000)],
        &[(68, 1)],
        &[(48, 0x0010_0801_0000_0002)],
        // A visible record of more key than key and payload: it does not unpack, and nothing else has its words.
        &[(66, 0x1000_00FE_0003_0002)],
    ];
    all_break(&rt, rt.alloc(), ShapeRule::Status, 0, &of_leaf);
    let of_root: [&[Written]; 4] = [
        // Frozen, one of two sorted, a dead word, and no child.
        &[(304, 0x1020_0C00_0000_0000)],
        &[(305, 0x0100_0001)],
        &[(304, 0x0020_1001_0000_0000)],
        &[
            (304, 0),
            (305, 1),
            (322, 0),
            (323, 0),
            (557, 0),
            (558, 0),
            (559, 0),
        ],
    ];
    all_break(&rt, rt.alloc(), ShapeRule::Status, 1, &of_root);
    Ok(())
}

#[test]
fn names_records_of_leaves(rt: HostRuntime) -> Result<(), Fail> {
    let of_one: [&[Written]; 12] = [
        // Unused, and one that does not unpack, their words dead.
        &[(48, 0x0010_0802_0000_0002), (66, 0)],
        &[(48, 0x0010_0802_0000_0002), (66, 0x1000_00FE_0003_0002)],
        // Keys of no byte and of 57, and a payload of 57.
        &[(48, 0x0010_0801_0000_0002), (66, 0x1000_00FE_0000_0002)],
        &[(48, 0x0010_2400_0000_0002), (66, 0x1000_00F7_0039_0039)],
        &[(48, 0x0010_2800_0000_0002), (66, 0x1000_00F6_0001_003A)],
        // Not in the block, also one that is reserved.
        &[(66, 0x1000_00FD_0001_0002)],
        &[(66, 0x1000_00FF_0001_0002)],
        &[(48, 0x0010_0802_0000_0002), (66, 0x0000_00FD_0001_0002)],
        // Words of no plain packing, of key and payload, and one that is dirty.
        &[(302, 0x0061_0000_0000_0001)],
        &[(302, 0x0161_0000_0000_0000)],
        &[(303, 0x0031_0000_0000_0001)],
        &[(302, 0x8061_0000_0000_0000)],
    ];
    all_break(&rt, rt.alloc(), ShapeRule::Record, 0, &of_one);
    let of_two: [&[Written]; 2] = [
        // Two records with a word in common, the second one visible and reserved.
        &[(560, 0x0020_1000_0000_0002), (579, 0x1000_00FD_0001_0002)],
        &[(560, 0x0020_1002_0000_0002), (579, 0x0000_00FD_0001_0002)],
    ];
    all_break(&rt, rt.alloc(), ShapeRule::Record, 2, &of_two);
    Ok(())
}

#[test]
fn names_records_of_inner_nodes(rt: HostRuntime) -> Result<(), Fail> {
    let of_root: [&[Written]; 4] = [
        // Not the length of a key and a pointer.
        &[(323, 0x1000_00FD_0001_0007)],
        // The second record has no key.
        &[
            (304, 0x0020_0800_0000_0000),
            (323, 0x1000_00FE_0000_0007),
            (557, 0),
        ],
        // The first record has one.
        &[
            (304, 0x0020_1000_0000_0000),
            (322, 0x1000_00FE_0001_0008),
            (323, 0x1000_00FC_0001_0008),
            (556, 0x006D << 48),
            (557, 3),
            (558, 0x0061 << 48),
        ],
        // The first record is deleted.
        &[
            (304, 0x0020_0800_0000_0000),
            (322, 7),
            (323, 0x1000_00FE_0001_0008),
            (557, 0),
            (558, 0x006D << 48),
            (559, 3),
        ],
    ];
    all_break(&rt, rt.alloc(), ShapeRule::Record, 1, &of_root);
    Ok(())
}

/// Slot 2 with a second record, of the key `y`, and both sorted.
const UNSORTED: [Written; 5] = [
    (560, 0x0020_1000_0000_0002),
    (561, 0x0200_0100),
    (579, 0x1000_00FC_0001_0002),
    (812, 0x0079 << 48),
    (813, 0x0033 << 48),
];

/// Slot 2 with two records of the key `z`.
const EQUAL_KEYS: [Written; 4] = [
    (560, 0x0020_1000_0000_0002),
    (579, 0x1000_00FC_0001_0002),
    (812, 0x007A << 48),
    (813, 0x0033 << 48),
];

#[test]
fn names_order_keys_and_children(rt: HostRuntime) -> Result<(), Fail> {
    all_break(&rt, rt.alloc(), ShapeRule::Order, 2, &[&UNSORTED]);
    let above: [&[Written]; 2] = [&[(302, 0x007A << 48)], &[(302, 0x006D << 48)]];
    all_break(&rt, rt.alloc(), ShapeRule::Key, 0, &above);
    let of_right: [&[Written]; 2] = [&[(814, 0x0061 << 48)], &EQUAL_KEYS];
    all_break(&rt, rt.alloc(), ShapeRule::Key, 2, &of_right);
    let children: [&[Written]; 3] = [&[(558, 4)], &[(558, 0)], &[(559, 0)]];
    all_break(&rt, rt.alloc(), ShapeRule::Child, 1, &children);
    Ok(())
}

#[test]
fn names_the_earlier_of_two_rules(rt: HostRuntime) -> Result<(), Fail> {
    // The superblock before words, words by their addresses and before the root, and the root before the nodes.
    all_break(
        &rt,
        rt.alloc(),
        ShapeRule::Super,
        0,
        &[&[(4, 3), (336, 3 << 62)]],
    );
    all_break(
        &rt,
        rt.alloc(),
        ShapeRule::Word,
        68,
        &[&[(68, 3 << 62), (815, 3 << 62)]],
    );
    all_break(
        &rt,
        rt.alloc(),
        ShapeRule::Word,
        815,
        &[&[(1, 0), (815, 3 << 62)]],
    );
    all_break(
        &rt,
        rt.alloc(),
        ShapeRule::Root,
        0,
        &[&[(1, 4), (305, 0x0200_000C)]],
    );
    // A node's own rules in their order.
    all_break(
        &rt,
        rt.alloc(),
        ShapeRule::Level,
        0,
        &[&[(49, 0x0001_0001), (58, 0)]],
    );
    all_break(&rt, rt.alloc(), ShapeRule::Fence, 0, &[&[(58, 0), (68, 1)]]);
    let status_first: &[Written] = &[(68, 1), (302, 0x0161_0000_0000_0000)];
    all_break(&rt, rt.alloc(), ShapeRule::Status, 0, &[status_first]);
    // A node before its children, and a child with all that is below it before the next one.
    all_break(
        &rt,
        rt.alloc(),
        ShapeRule::Child,
        1,
        &[&[(558, 4), (49, 0x0001_0001)]],
    );
    all_break(
        &rt,
        rt.alloc(),
        ShapeRule::Fence,
        0,
        &[&[(58, 0), (561, 1)]],
    );
    all_break(
        &rt,
        rt.alloc(),
        ShapeRule::Twice,
        1,
        &[&[(558, 2), (561, 1)]],
    );
    Ok(())
}
