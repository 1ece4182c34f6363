//! Pages of an empty leaf, of a sorted one with and without fences, and of one with reserved, deleted and unsorted
//! records.
ghost use Rattle.bz_page.specs.Pages.{IsLeafByItself};

use super::bench::{holds, same};
use bz_key::{Key, PageBuf, Payload};
use bz_node::NodeImage;
use bz_page::collect;
use bz_slotted::{Place, node_fault};
use bz_task::LeafView;
use std::process::Abort;

// A view of words that are to be a leaf between these bounds.
fn view_of(rt: &impl Abort, words: &[u64; 256], low: Option<Key>, high: Option<Key>) -> LeafView
    ensures { IsLeafByItself result.image.0 }
{
    let place = Place {
        level: 0,
        low,
        high,
    };
    match node_fault(words, words, 4, &place) {
        None => LeafView {
            slot: 0,
            status: words[0],
            image: NodeImage(*words),
            at: 0,
        },
        Some(_) => panic!(rt; "no leaf"),
    }
}

// A leaf of b, 1 and d, 2 and f, 3, all sorted.
fn sorted_leaf() -> [u64; 256] {
    let mut words = [0u64; 256];
    words[0] = 0x0030_1800_0000_0000;
    words[1] = 0x0000_0000_0300_0000;
    words[18] = 0x1000_00FE_0001_0002;
    words[19] = 0x1000_00FC_0001_0002;
    words[20] = 0x1000_00FA_0001_0002;
    words[250] = 0x0066_0000_0000_0000;
    words[251] = 0x0033_0000_0000_0000;
    words[252] = 0x0064_0000_0000_0000;
    words[253] = 0x0032_0000_0000_0000;
    words[254] = 0x0062_0000_0000_0000;
    words[255] = 0x0031_0000_0000_0000;
    words
}

// The same between the fences a and g.
fn fenced_leaf() -> [u64; 256] {
    let mut words = sorted_leaf();
    words[1] = 0x0000_0000_0301_0100;
    words[2] = 0x0061_0000_0000_0000;
    words[10] = 0x0067_0000_0000_0000;
    words
}

// A leaf of the same pairs, none sorted: f, 3, then a deleted and a reserved record, then b, 1 and d, 2.
fn mixed_leaf() -> [u64; 256] {
    let mut words = [0u64; 256];
    words[0] = 0x0050_2804_0000_0000;
    words[18] = 0x1000_00FE_0001_0002;
    words[19] = 0x0000_0000_0001_0002;
    words[20] = 0x0000_00FA_0001_0002;
    words[21] = 0x1000_00F8_0001_0002;
    words[22] = 0x1000_00F6_0001_0002;
    words[246] = 0x0064_0000_0000_0000;
    words[247] = 0x0032_0000_0000_0000;
    words[248] = 0x0062_0000_0000_0000;
    words[249] = 0x0031_0000_0000_0000;
    words[250] = 0x0065_0000_0000_0000;
    words[252] = 0x0063_0000_0000_0000;
    words[254] = 0x0066_0000_0000_0000;
    words[255] = 0x0033_0000_0000_0000;
    words
}

/// A key, and how many pairs the page from it on leaves out.
#[derive(Clone, Copy)]
struct Row {
    from: &'static [u8],
    left_out: usize,
}

const ROWS: [Row; 5] = [
    Row {
        from: b"a",
        left_out: 0,
    },
    Row {
        from: b"b",
        left_out: 0,
    },
    Row {
        from: b"ba",
        left_out: 1,
    },
    Row {
        from: b"f",
        left_out: 2,
    },
    Row {
        from: b"fa",
        left_out: 3,
    },
];

// A key of these bytes.
fn key(rt: &impl Abort, bytes: &[u8]) -> Key {
    Key::of(bytes).expect(rt, "a key")
}

// A payload of these bytes.
fn payload(rt: &impl Abort, bytes: &[u8]) -> Payload {
    Payload::of(bytes).expect(rt, "a payload")
}

// The pairs of a leaf of b, 1 and d, 2 and f, 3.
fn all_pairs(rt: &impl Abort) -> [(Key, Payload); 3] {
    [
        (key(rt, b"b"), payload(rt, b"1")),
        (key(rt, b"d"), payload(rt, b"2")),
        (key(rt, b"f"), payload(rt, b"3")),
    ]
}

// The page of such a leaf from a key on, over what the one before left in the buffer.
fn page_is_right(rt: &impl Abort, page: &mut PageBuf, view: &LeafView, row: Row, next: &Option<Key>)
    requires { IsLeafByItself view.now.image.0 }
{
    let end = collect(view, &key(rt, row.from), page);
    holds(rt, end == *next);
    let pairs = all_pairs(rt);
    holds(rt, Some(page.pairs()) == pairs.get(row.left_out..));
}

// Each of its pages.
fn pages_are_right(rt: &impl Abort, page: &mut PageBuf, view: &LeafView, next: &Option<Key>)
    requires { IsLeafByItself view.now.image.0 }
{
    for row in ROWS {
        page_is_right(rt, page, view, row, next);
    }
}

// Each of three leaves with these pairs.
fn leaves_are_right(rt: &impl Abort, page: &mut PageBuf) {
    let sorted = view_of(rt, &sorted_leaf(), None, None);
    pages_are_right(rt, page, &sorted, &None);
    let (low, high) = (key(rt, b"a"), key(rt, b"g"));
    let fenced = view_of(rt, &fenced_leaf(), Some(low), Some(high));
    pages_are_right(rt, page, &fenced, &Some(key(rt, b"g")));
    let mixed = view_of(rt, &mixed_leaf(), None, None);
    pages_are_right(rt, page, &mixed, &None);
}

#[test]
fn shows_the_pairs_from_a_key_on(rt: HostRuntime) {
    let mut page = PageBuf::open(rt.alloc()).expect(&rt, "a page");
    leaves_are_right(&rt, &mut page);
}

// An empty leaf leaves nothing in the buffer.
fn shows_none(rt: &impl Abort, page: &mut PageBuf) {
    let empty = view_of(rt, &[0; 256], None, None);
    same(rt, collect(&empty, &key(rt, b"k"), page), None);
    holds(rt, page.pairs().is_empty());
}

#[test]
fn shows_nothing_of_an_empty_leaf(rt: HostRuntime) {
    let mut page = PageBuf::open(rt.alloc()).expect(&rt, "a page");
    holds(&rt, page.pairs().is_empty());
    page.push(key(&rt, b"k"), payload(&rt, b""));
    shows_none(&rt, &mut page);
}
