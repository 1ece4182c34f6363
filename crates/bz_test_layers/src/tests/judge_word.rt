//! The small tree with a few words written anew that break a rule before any node is looked at.

use super::judge::{Written, all_break};
use bz_tree::ShapeRule;
use std::test::Fail;

#[test]
fn names_the_superblock_and_the_root(rt: HostRuntime) -> Result<(), Fail> {
    let supers: [&[Written]; 4] = [&[(0, 1)], &[(3, 4)], &[(4, 3)], &[(15, 1)]];
    all_break(&rt, rt.alloc(), ShapeRule::Super, 0, &supers);
    let roots: [&[Written]; 4] = [&[(1, 0)], &[(1, 4)], &[(2, 1 << 52)], &[(2, 1 << 60)]];
    all_break(&rt, rt.alloc(), ShapeRule::Root, 0, &roots);
    Ok(())
}

#[test]
fn names_words_of_no_kind(rt: HostRuntime) -> Result<(), Fail> {
    let nowhere: [&[Written]; 6] = [
        // Two control bits, and all three.
        &[(68, 3 << 62)],
        &[(68, 5 << 61)],
        &[(68, 7 << 61)],
        // A pointer with a bit above its number.
        &[(68, (1 << 62) + (1 << 16))],
        // Tags of the workers 0 and 65.
        &[(68, 1 << 61)],
        &[(68, (1 << 61) + (65 << 18))],
    ];
    all_break(&rt, rt.alloc(), ShapeRule::Word, 68, &nowhere);
    all_break(&rt, rt.alloc(), ShapeRule::Word, 815, &[&[(815, 3 << 62)]]);
    all_break(&rt, rt.alloc(), ShapeRule::Word, 1, &[&[(1, 3 << 62)]]);
    Ok(())
}

#[test]
fn names_words_of_descriptors(rt: HostRuntime) -> Result<(), Fail> {
    let statuses: [&[Written]; 3] = [&[(16, 4)], &[(16, (1 << 63) + 4)], &[(16, 1 << 62)]];
    all_break(&rt, rt.alloc(), ShapeRule::Word, 16, &statuses);
    let fields: [&[Written]; 2] = [&[(47, 1 << 62)], &[(47, 1 << 63)]];
    all_break(&rt, rt.alloc(), ShapeRule::Word, 47, &fields);
    Ok(())
}

#[test]
fn names_words_that_no_swap_has(rt: HostRuntime) -> Result<(), Fail> {
    let pointers: [&[Written]; 5] = [
        // A descriptor past the last one.
        &[(68, (1 << 62) + 2)],
        // A free descriptor, one of no entry, and one of five.
        &[(68, 1 << 62), (17, 1), (18, 68)],
        &[(68, 1 << 62), (16, 1), (18, 68)],
        &[(68, 1 << 62), (16, 1), (17, 5), (18, 68)],
        // An entry of another address.
        &[(68, 1 << 62), (16, 1), (17, 1), (18, 69)],
    ];
    all_break(&rt, rt.alloc(), ShapeRule::Word, 68, &pointers);
    let tags: [&[Written]; 4] = [
        &[(68, 0x2000_0000_0004_0002)],
        &[(68, 0x2000_0000_0004_0000), (17, 1), (18, 68)],
        // The second entry, where there is one, and the first one, of another address.
        &[(68, 0x2000_0000_0005_0000), (16, 1), (17, 1), (18, 68)],
        &[(68, 0x2000_0000_0004_0000), (16, 1), (17, 1), (18, 69)],
    ];
    all_break(&rt, rt.alloc(), ShapeRule::Word, 68, &tags);
    all_break(&rt, rt.alloc(), ShapeRule::Word, 1, &[&[(1, 1 << 62)]]);
    Ok(())
}
