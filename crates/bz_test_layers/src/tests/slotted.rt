//! The worked insert's leaf at its four moments, and one broken node for each rule.
ghost use Rattle.std.specs.Prelude.{◌≡◌, length};

use super::bench::same;
use bz_key::Key;
use bz_slotted::{Place, node_fault};
use bz_tree::ShapeRule;
use std::process::Abort;
use std::test::Fail;

/// A word at a place of a node.
type Written = (usize, u64);

/// A node with some words written anew, and what is to be found of it.
#[derive(Clone, Copy)]
struct Case {
    written: [Written; 3],
    found: Option<ShapeRule>,
}

/// Nothing is written here but what stands there.
const SAME: Written = (300, 0);

// The node of these words, the others 0, with some of them written anew.
fn written(node: &mut [u64; 256], words: &[Written]) {
    for (place, word) in words {
        if *place < 256 {
            node[*place] = *word;
        }
    }
}

// What is found of each node that is written from one, at a place, where there are four slots.
fn all_found(rt: &impl Abort, node: &[u64; 256], place: &Place, cases: &[Case]) {
    for case in cases {
        let mut words = *node;
        written(&mut words, &case.written);
        same(rt, node_fault(&words, &words, 4, place), case.found);
    }
}

// A leaf that is to stand anywhere.
fn at_level(level: u32) -> Place {
    Place {
        level,
        low: None,
        high: None,
    }
}

// A leaf of the records a, 1 and b, 2, both sorted.
fn two_records() -> [u64; 256] {
    let mut words = [0u64; 256];
    words[0] = 0x0020_1000_0000_0000;
    words[1] = 0x0000_0000_0200_0000;
    words[18] = 0x1000_00FE_0001_0002;
    words[19] = 0x1000_00FC_0001_0002;
    words[252] = 0x0062_0000_0000_0000;
    words[253] = 0x0032_0000_0000_0000;
    words[254] = 0x0061_0000_0000_0000;
    words[255] = 0x0031_0000_0000_0000;
    words
}

// An inner node at level 2 of the children in slots 3 and 0, parted by b.
fn two_children() -> [u64; 256] {
    let mut words = [0u64; 256];
    words[0] = 0x0020_0C00_0000_0000;
    words[1] = 0x0000_0000_0200_0002;
    words[18] = 0x1000_00FF_0000_0007;
    words[19] = 0x1000_00FD_0001_0008;
    words[253] = 0x0062_0000_0000_0000;
    words[254] = 1;
    words[255] = 4;
    words
}

#[test]
fn accepts_the_worked_insert(rt: HostRuntime) -> Result<(), Fail> {
    let mut node = [0u64; 256];
    let place = at_level(0);
    assert_eq!(rt; node_fault(&node, &node, 16, &place), None, "at first");
    node[0] = 0x0010_0802_0000_0001;
    node[18] = 0x0000_00FE_0001_0002;
    assert_eq!(rt; node_fault(&node, &node, 16, &place), None, "reserved");
    node[254] = 0x0061_0000_0000_0000;
    node[255] = 0x0031_0000_0000_0000;
    node[0] = 0x0010_0800_0000_0002;
    node[18] = 0x1000_00FE_0001_0002;
    assert_eq!(rt; node_fault(&node, &node, 16, &place), None, "published");
    node[0] = 0x0010_0802_0000_0003;
    node[18] = 0x0000_0000_0001_0002;
    assert_eq!(rt; node_fault(&node, &node, 16, &place), None, "deleted");
    Ok(())
}

#[test]
fn names_the_front_of_a_leaf(rt: HostRuntime) -> Result<(), Fail> {
    let cases = [
        Case {
            written: [SAME, SAME, SAME],
            found: None,
        },
        Case {
            written: [(1, 0x0200_0001), SAME, SAME],
            found: Some(ShapeRule::Level),
        },
        Case {
            written: [(1, 0x1_0200_0000), SAME, SAME],
            found: Some(ShapeRule::Level),
        },
        Case {
            written: [(2, 1), SAME, SAME],
            found: Some(ShapeRule::Fence),
        },
        Case {
            written: [(1, 0x0200_0100), (2, 0x0041_0000_0000_0000), SAME],
            found: Some(ShapeRule::Fence),
        },
    ];
    all_found(&rt, &two_records(), &at_level(0), &cases);
    Ok(())
}

#[test]
fn names_the_status_of_a_leaf(rt: HostRuntime) -> Result<(), Fail> {
    let cases = [
        Case {
            written: [(0, 0x2020_1000_0000_0000), SAME, SAME],
            found: Some(ShapeRule::Status),
        },
        Case {
            written: [(0, 0x0020_1001_0000_0000), SAME, SAME],
            found: Some(ShapeRule::Status),
        },
        Case {
            written: [(0, 0x0020_1C00_0000_0000), (20, 1), SAME],
            found: Some(ShapeRule::Status),
        },
        Case {
            written: [(1, 0x0300_0000), SAME, SAME],
            found: Some(ShapeRule::Status),
        },
        Case {
            written: [(50, 1), SAME, SAME],
            found: Some(ShapeRule::Status),
        },
    ];
    all_found(&rt, &two_records(), &at_level(0), &cases);
    Ok(())
}

#[test]
fn names_the_records_of_a_leaf(rt: HostRuntime) -> Result<(), Fail> {
    let cases = [
        Case {
            written: [(0, 0x0020_1002_0000_0000), (19, 0), SAME],
            found: Some(ShapeRule::Record),
        },
        Case {
            written: [(19, 0x1000_00FE_0001_0002), SAME, SAME],
            found: Some(ShapeRule::Record),
        },
        Case {
            written: [(19, 0x1000_00FB_0001_0002), SAME, SAME],
            found: Some(ShapeRule::Record),
        },
        Case {
            written: [(254, 0x0061_0000_0000_0001), SAME, SAME],
            found: Some(ShapeRule::Record),
        },
    ];
    all_found(&rt, &two_records(), &at_level(0), &cases);
    Ok(())
}

#[test]
fn names_the_keys_of_a_leaf(rt: HostRuntime) -> Result<(), Fail> {
    let cases = [
        Case {
            written: [
                (252, 0x0061_0000_0000_0000),
                (254, 0x0062_0000_0000_0000),
                SAME,
            ],
            found: Some(ShapeRule::Order),
        },
        Case {
            written: [(1, 0), (252, 0x0061_0000_0000_0000), SAME],
            found: Some(ShapeRule::Key),
        },
    ];
    all_found(&rt, &two_records(), &at_level(0), &cases);
    let mut place = at_level(0);
    place.high = Some(Key::of(b"b")?);
    let cases = [
        Case {
            written: [(1, 0x0201_0000), (10, 0x0062_0000_0000_0000), SAME],
            found: Some(ShapeRule::Key),
        },
        Case {
            written: [
                (1, 0x0201_0000),
                (10, 0x0062_0000_0000_0000),
                (252, 0x0061_6100_0000_0000),
            ],
            found: Some(ShapeRule::Record),
        },
    ];
    all_found(&rt, &two_records(), &place, &cases);
    Ok(())
}

#[test]
fn finds_a_word_that_is_dirty(rt: HostRuntime) -> Result<(), Fail> {
    let words = two_records();
    let mut raw = words;
    raw[0] = 0x8020_1000_0000_0000;
    raw[18] = 0x9000_00FE_0001_0002;
    same(&rt, node_fault(&raw, &words, 4, &at_level(0)), None);
    raw[255] = 0x8031_0000_0000_0000;
    same(
        &rt,
        node_fault(&raw, &words, 4, &at_level(0)),
        Some(ShapeRule::Record),
    );
    Ok(())
}

#[test]
fn names_the_rules_of_an_inner_node(rt: HostRuntime) -> Result<(), Fail> {
    let cases = [
        Case {
            written: [SAME, SAME, SAME],
            found: None,
        },
        Case {
            written: [(1, 0x0200_0001), SAME, SAME],
            found: Some(ShapeRule::Level),
        },
        Case {
            written: [(0, 0x1020_0C00_0000_0000), SAME, SAME],
            found: Some(ShapeRule::Status),
        },
        Case {
            written: [(18, 0x1000_00FF_0000_0006), SAME, SAME],
            found: Some(ShapeRule::Record),
        },
        Case {
            written: [(254, 0), SAME, SAME],
            found: Some(ShapeRule::Child),
        },
        Case {
            written: [(255, 5), SAME, SAME],
            found: Some(ShapeRule::Child),
        },
    ];
    all_found(&rt, &two_children(), &at_level(2), &cases);
    Ok(())
}

#[test]
fn names_the_keys_of_an_inner_node(rt: HostRuntime) -> Result<(), Fail> {
    let mut place = at_level(2);
    place.low = Some(Key::of(b"b")?);
    let cases = [Case {
        written: [(1, 0x0200_0102), (2, 0x0062_0000_0000_0000), SAME],
        found: Some(ShapeRule::Key),
    }];
    all_found(&rt, &two_children(), &place, &cases);
    let cases = [Case {
        written: [(1, 0x0200_000C), SAME, SAME],
        found: Some(ShapeRule::Level),
    }];
    all_found(&rt, &two_children(), &at_level(12), &cases);
    Ok(())
}
