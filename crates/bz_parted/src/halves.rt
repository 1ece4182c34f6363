//! The two inner nodes into which one is split.

ghost use Rattle.std.specs.Prelude.{◌≡◌, ◌+◌, ◌-◌, ◌<◌, ◌≤◌, take, Some};
ghost use Rattle.bz_layout.specs.declared.sizes.TheConstants.{SHARED_WORDS};
ghost use Rattle.bz_layout.specs.declared.thresholds.TheConstants.{INNER_LIMIT, MAX_LEVELS};
ghost use Rattle.bz_node.specs.Reading.{IsReadableInner, children_in, count_in};
ghost use Rattle.bz_node.specs.Records.{inner_words, IsChildList};
ghost use Rattle.bz_halves.specs.Parents.{child_at};
ghost use Rattle.bz_parted.specs.Laws.{IsSplitInner};
ghost use Rattle.bz_parted.specs.Made.{AreHalvesOf};
ghost use Rattle.bz_parted.specs.Parting.{child_words, right_half};

use crate::cut::cut_of;
use crate::laws::children_part_in_halves;
use bz_key::Key;
use bz_layout::SHARED_WORDS;
use bz_node::{Child, NodeImage, inner};

/// Two inner nodes, and the key that parts them, which neither has.
#[derive(Drop)]
pub struct InnerHalves {
    pub left: NodeImage,
    pub right: NodeImage,
    pub separator: Key,
}

// A child takes a metadata word at least.
const MOST_CHILDREN: usize = SHARED_WORDS as usize;

const NO_CHILD: Child = Child { slot: 0, low: None };

// The left half: the first children of the old node, so many.
fn left_of(old: &NodeImage, cut: u32, low: Option<Key>, separator: Key, level: u32) -> NodeImage
    requires readable { IsReadableInner old.now.0 }
    requires within { cut ≤ count_in old.now.0 }
    requires list { IsChildList (take cut (children_in old.now.0)) low (Some separator) }
    requires room { child_words (take cut (children_in old.now.0)) ≤ INNER_LIMIT }
    requires inner { 1 ≤ level }
    requires levels { level < MAX_LEVELS }
    ensures { result.0 ≡ inner_words (take cut (children_in old.now.0)) low (Some separator) level }
{
    let mut children = [NO_CHILD; MOST_CHILDREN];
    for j in 0..cut {
        children[j as usize] = old.child(j);
    }
    match inner(&children[..cut as usize], low, Some(separator), level) {
        Some(image) => image,
        None => unreachable!(),
    }
}

// Child j of the right half, of which the first has no lower bound.
fn right_child(old: &NodeImage, cut: u32, j: u32) -> Child
    requires readable { IsReadableInner old.now.0 }
    requires within { cut + j < count_in old.now.0 }
    ensures { result ≡ child_at (right_half (children_in old.now.0) cut) j }
{
    let child = old.child(cut + j);
    if j == 0 {
        Child {
            low: None,
            slot: child.slot,
        }
    } else {
        child
    }
}

// The right half: the other children of the old node, the first of them without its key.
fn right_of(old: &NodeImage, cut: u32, separator: Key, high: Option<Key>, level: u32) -> NodeImage
    requires readable { IsReadableInner old.now.0 }
    requires within { cut < count_in old.now.0 }
    requires list { IsChildList (right_half (children_in old.now.0) cut) (Some separator) high }
    requires room { child_words (right_half (children_in old.now.0) cut) ≤ INNER_LIMIT }
    requires inner { 1 ≤ level }
    requires levels { level < MAX_LEVELS }
    ensures { result.0 ≡ inner_words (right_half (children_in old.now.0) cut) (Some separator) high level }
{
    let mut children = [NO_CHILD; MOST_CHILDREN];
    let count = old.child_count() - cut;
    for j in 0..count {
        children[j as usize] = right_child(old, cut, j);
    }
    match inner(&children[..count as usize], Some(separator), high, level) {
        Some(image) => image,
        None => unreachable!(),
    }
}

/// The halves of an inner node at a level whose children take so many words, told by its fences.
pub fn halves_of(
    old: &NodeImage,
    low: Option<Key>,
    high: Option<Key>,
    level: u32,
    words: u32,
) -> InnerHalves
    requires readable { IsReadableInner old.now.0 }
    requires split { IsSplitInner (children_in old.now.0) low high }
    requires words { words ≡ child_words (children_in old.now.0) }
    requires inner { 1 ≤ level }
    requires levels { level < MAX_LEVELS }
    ensures { AreHalvesOf (children_in old.now.0) low high level result }
{
    children_part_in_halves();
    let cut = cut_of(old, words);
    match old.child(cut).low {
        Some(separator) => InnerHalves {
            left: left_of(old, cut, low, separator, level),
            right: right_of(old, cut, separator, high, level),
            separator,
        },
        None => unreachable!(),
    }
}
