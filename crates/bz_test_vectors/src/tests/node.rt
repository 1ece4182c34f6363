//! Nodes of exactly and of just too many words, words at their places, fences, and nodes read back.
ghost use Rattle.std.specs.Prelude.{◌≡◌, ◌↔◌, None, IsTrue, IsSome, IfSome, length};
ghost use Rattle.bz_node.specs.Layout.{bound_of};
ghost use Rattle.bz_node.specs.Records.{IsBefore, IsLeafList, IsChildList};
ghost use Rattle.bz_node.specs.Reading.{IsReadableLeaf, IsReadableInner, count_in};

use super::bench::same;
use bz_key::{Key, PageBuf, Payload};
use bz_node::{Child, NodeImage, inner, leaf};
use std::cmp::Ordering;
use std::process::Abort;
use std::test::Fail;

const LONGEST: &[u8; 56] = b"abcdefghijklmnopqrstuvwxyzABCDEFGHIJKLMNOPQRSTUVWXYZ0123";

// Whether a key is before another.
fn is_before(a: &Key, b: &Key) -> bool
    ensures { IsTrue result ↔ IsBefore a.now b.now }
{
    match a.cmp(b) {
        Ordering::Less => true,
        _ => false,
    }
}

// Whether the records make a leaf without fences.
fn make_leaf(records: &[(Key, Payload)]) -> bool
    ensures { IsTrue result → IsLeafList records.now None None }
{
    for i in 1..records.len() {
        if !is_before(&records[i - 1].0, &records[i].0) {
            return false;
        }
    }
    true
}

// A leaf without fences, of records whose keys rise.
fn leaf_of(rt: &impl Abort, records: &[(Key, Payload)]) -> Option<NodeImage>
    ensures { IfSome result (λ image. IsReadableLeaf image.0) }
{
    assert!(rt; make_leaf(records));
    leaf(records, None, None)
}

// Whether one bound is before another, which is there.
fn is_bound_before(a: &Option<Key>, b: &Option<Key>) -> bool
    ensures there { IsTrue result → IsSome b.now }
    ensures before { IsTrue result → IsBefore (bound_of a.now) (bound_of b.now) }
{
    match (a, b) {
        (None, Some(b)) => !b.bytes().is_empty(),
        (Some(a), Some(b)) => is_before(a, b),
        _ => false,
    }
}

// Whether the children make an inner node without fences.
fn make_inner(children: &[Child]) -> bool
    ensures { IsTrue result → IsChildList children.now None None }
{
    if children.is_empty() || children[0].low.is_some() {
        return false;
    }
    for i in 1..children.len() {
        if !is_bound_before(&children[i - 1].low, &children[i].low) {
            return false;
        }
    }
    true
}

// An inner node without fences, of children whose bounds rise.
fn inner_of(rt: &impl Abort, children: &[Child], level: u32) -> Option<NodeImage>
    ensures { IfSome result (λ image. IsReadableInner image.0 × (count_in image.0 ≡ length children.now)) }
{
    assert!(rt; make_inner(children));
    assert!(rt; 1 <= level && level < 12);
    inner(children, None, None, level)
}

#[test]
fn lays_the_worked_record_out(rt: HostRuntime) -> Result<(), Fail> {
    let records = [(Key::of(b"a")?, Payload::of(b"1")?)];
    let Some(image) = leaf_of(&rt, &records) else {
        return Err(Fail::from("it does not fit"));
    };
    let mut words = [0u64; 256];
    words[0] = 0x0010_0800_0000_0000;
    words[1] = 0x0000_0000_0100_0000;
    words[18] = 0x1000_00FE_0001_0002;
    words[254] = 0x0061_0000_0000_0000;
    words[255] = 0x0031_0000_0000_0000;
    same(&rt, image, NodeImage(words));
    Ok(())
}

// Records of 56 bytes and 56 bytes but for the last two, which are of 28 bytes and of so many as given:
// thirteen of 17 words, one of 9 words, and a last one.
fn fifteen_records(last: &[u8]) -> Result<[(Key, Payload); 15], Fail> {
    let mut records = [(Key::of(LONGEST)?, Payload::of(LONGEST)?); 15];
    for i in 0..13 {
        records[i].0 = Key::of(&[i as u8; 56])?;
    }
    records[13] = (Key::of(&[13; 28])?, Payload::of(&[0; 28])?);
    records[14] = (Key::of(&[14; 28])?, Payload::of(last)?);
    Ok(records)
}

#[test]
fn takes_238_words_in_a_leaf(rt: HostRuntime) -> Result<(), Fail> {
    let records = fifteen_records(&[7; 21])?;
    let Some(image) = leaf_of(&rt, &records) else {
        return Err(Fail::from("238 words do not fit"));
    };
    same(&rt, image.live_words(), 238);
    assert_eq!(rt;
        image.0[32] & 0xFFFF_FFFF,
        0x001C_0031,
        "the last metadata word"
    );
    assert_eq!(rt;
        image.0[33],
        0x000E_0E0E_0E0E_0E0E,
        "the block follows at once"
    );
    assert!(rt;
        leaf_of(&rt, &fifteen_records(&[7; 22])?).is_none(),
        "239 words"
    );
    Ok(())
}

#[test]
fn makes_the_empty_leaf(rt: HostRuntime) -> Result<(), Fail> {
    let Some(image) = leaf_of(&rt, &[]) else {
        return Err(Fail::from("it does not fit"));
    };
    same(&rt, image, NodeImage([0; 256]));
    let mut page = PageBuf::open(rt.alloc())?;
    image.records(&mut page);
    assert!(rt; page.pairs().is_empty());
    same(&rt, image.live_words(), 0);
    Ok(())
}

#[test]
fn holds_the_longest_record(rt: HostRuntime) -> Result<(), Fail> {
    let record = (Key::of(LONGEST)?, Payload::of(LONGEST)?);
    let Some(image) = leaf_of(&rt, &[record]) else {
        return Err(Fail::from("it does not fit"));
    };
    same(&rt, image.0[18], 0x1000_00F0_0038_0070);
    same(&rt, image.0[240], 0x0061_6263_6465_6667);
    same(&rt, image.0[247], 0x0058_595A_3031_3233);
    same(&rt, image.0[248], 0x0061_6263_6465_6667);
    let mut page = PageBuf::open(rt.alloc())?;
    image.records(&mut page);
    assert!(rt; page.pairs() == [record].as_slice());
    Ok(())
}

// Twenty-five children: the first of 2 words, twenty-three of 10 words and one with this bound.
fn twenty_five_children(last: &[u8]) -> Result<[Child; 25], Fail> {
    let mut children = [Child {
        low: None,
        slot: 500,
    }; 25];
    for i in 1..24 {
        children[i] = Child {
            low: Some(Key::of(&[i as u8; 56])?),
            slot: i as u16,
        };
    }
    children[24].low = Some(Key::of(last)?);
    Ok(children)
}

#[test]
fn takes_238_words_in_an_inner_node(rt: HostRuntime) -> Result<(), Fail> {
    let children = twenty_five_children(&[24; 28])?;
    let Some(image) = inner_of(&rt, &children, 1) else {
        return Err(Fail::from("238 words do not fit"));
    };
    same(&rt, image.child_count(), 25);
    for i in 0..25u32 {
        assert!(rt; i < image.child_count());
        same(&rt, image.child(i), children[i as usize]);
    }
    let more = twenty_five_children(&[24; 29])?;
    assert!(rt; inner_of(&rt, &more, 1).is_none(), "239 words");
    Ok(())
}

#[test]
fn lays_children_out(rt: HostRuntime) -> Result<(), Fail> {
    let children = [
        Child { low: None, slot: 3 },
        Child {
            low: Some(Key::of(b"b")?),
            slot: 0,
        },
    ];
    let Some(image) = inner_of(&rt, &children, 2) else {
        return Err(Fail::from("it does not fit"));
    };
    let mut words = [0u64; 256];
    words[0] = 0x0020_0C00_0000_0000;
    words[1] = 0x0000_0000_0200_0002;
    words[18] = 0x1000_00FF_0000_0007;
    words[19] = 0x1000_00FD_0001_0008;
    words[253] = 0x0062_0000_0000_0000;
    words[254] = 1;
    words[255] = 4;
    same(&rt, image, NodeImage(words));
    Ok(())
}

#[test]
fn packs_fences(rt: HostRuntime) -> Result<(), Fail> {
    let Some(image) = leaf(&[], Some(Key::of(b"abcdefg")?), Some(Key::of(b"abcdefgh")?)) else {
        return Err(Fail::from("it does not fit"));
    };
    same(&rt, image.0[1], 0x0008_0700);
    same(
        &rt,
        &image.0[2..10],
        [0x0061_6263_6465_6667, 0, 0, 0, 0, 0, 0, 0].as_slice(),
    );
    same(
        &rt,
        &image.0[10..18],
        [
            0x0061_6263_6465_6667,
            0x0068_0000_0000_0000,
            0,
            0,
            0,
            0,
            0,
            0,
        ]
        .as_slice(),
    );
    let Some(image) = leaf(&[], None, Some(Key::of(LONGEST)?)) else {
        return Err(Fail::from("it does not fit"));
    };
    same(&rt, image.0[1], 0x0038_0000);
    same(&rt, &image.0[2..10], [0; 8].as_slice());
    same(&rt, image.0[17], 0x0058_595A_3031_3233);
    Ok(())
}
