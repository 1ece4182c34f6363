//! The inner node that has the children of two.

ghost use Rattle.std.specs.Prelude.{◌≡◌, ◌+◌, ◌<◌, ◌≤◌, map, length};
ghost use Rattle.bz_layout.specs.declared.sizes.TheConstants.{NODE_WORDS, SHARED_WORDS};
ghost use Rattle.bz_layout.specs.declared.thresholds.TheConstants.{MAX_LEVELS};
ghost use Rattle.bz_node.specs.Layout.{needed};
ghost use Rattle.bz_node.specs.Reading.{IsReadableInner, children_in, count_in};
ghost use Rattle.bz_node.specs.Records.{child_entry, IsChildList};
ghost use Rattle.bz_halves.specs.Parents.{child_at};
ghost use Rattle.bz_united.specs.Uniting.{united, united_words, IsUnitedOf, MayUnite};

use bz_join::{level_of, low_fence};
use bz_key::Key;
use bz_layout::SHARED_WORDS;
use bz_node::{Child, NodeImage, inner};
use bz_renew::is_whole;

// A child takes a metadata word at least.
const MOST_CHILDREN: usize = SHARED_WORDS as usize;

const NO_CHILD: Child = Child { low: None, slot: 0 };

// What the fronts of two neighbours say of the one node.
#[derive(Clone, Copy, Drop)]
struct Front {
    level: u32,
    low: Option<Key>,
    high: Option<Key>,
}

// Child j of both: the first child of the right one gets the separator as its lower bound.
fn child_of_both(left: &NodeImage, right: &NodeImage, separator: Key, j: u32) -> Child
    requires left { IsReadableInner left.now.0 }
    requires right { IsReadableInner right.now.0 }
    requires some { 0 < count_in right.now.0 }
    requires place { j < count_in left.now.0 + count_in right.now.0 }
    ensures { result ≡ child_at (united (children_in left.now.0) (children_in right.now.0) separator) j }
{
    let first = left.child_count();
    if j < first {
        left.child(j)
    } else if j == first {
        Child {
            low: Some(separator),
            slot: right.child(0).slot,
        }
    } else {
        right.child(j - first)
    }
}

// The node with the children of both.
fn node_of_both(left: &NodeImage, right: &NodeImage, separator: Key, front: Front) -> NodeImage
    requires left { IsReadableInner left.now.0 }
    requires right { IsReadableInner right.now.0 }
    requires some { 0 < count_in right.now.0 }
    requires few { count_in left.now.0 + count_in right.now.0 ≤ SHARED_WORDS }
    requires list { IsChildList (united (children_in left.now.0) (children_in right.now.0) separator) front.low front.high }
    requires room { needed (map child_entry (united (children_in left.now.0) (children_in right.now.0) separator)) ≤ SHARED_WORDS }
    requires inner { 1 ≤ front.level }
    requires levels { front.level < MAX_LEVELS }
    ensures { result.0 ≡ united_words (children_in left.now.0) (children_in right.now.0) separator front.low front.high front.level }
{
    let mut children = [NO_CHILD; MOST_CHILDREN];
    let count = left.child_count() + right.child_count();
    for j in 0..count {
        children[j as usize] = child_of_both(left, right, separator, j);
    }
    match inner(
        &children[..count as usize],
        front.low,
        front.high,
        front.level,
    ) {
        Some(image) => image,
        None => unreachable!(),
    }
}

/// The inner node of the children of two neighbours that meet at a key, which have room in one.
pub fn united_node(left: &NodeImage, right: &NodeImage, separator: Key) -> NodeImage
    requires { MayUnite left.now.0 right.now.0 separator }
    ensures words { IsUnitedOf left.now.0 right.now.0 separator result.0 }
    ensures size { length result.0 ≡ NODE_WORDS }
{
    is_whole(left);
    is_whole(right);
    let front = Front {
        level: level_of(left),
        low: low_fence(left),
        high: right.high(),
    };
    let image = node_of_both(left, right, separator, front);
    is_whole(&image);
    image
}
