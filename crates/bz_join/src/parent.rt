//! The parent that has one leaf in the place of two.

ghost use Rattle.std.specs.Prelude.{◌≡◌, ◌+◌, ◌<◌, ◌≤◌, map, length};
ghost use Rattle.bz_layout.specs.declared.sizes.TheConstants.{NODE_WORDS, SHARED_WORDS};
ghost use Rattle.bz_layout.specs.declared.thresholds.TheConstants.{MAX_LEVELS};
ghost use Rattle.bz_node.specs.Layout.{needed};
ghost use Rattle.bz_node.specs.Reading.{IsReadableInner, children_in, count_in};
ghost use Rattle.bz_node.specs.Records.{child_entry, IsChildList};
ghost use Rattle.bz_halves.specs.Parents.{child_at};
ghost use Rattle.bz_join.specs.Parents.{joined, joined_parent, HasTwoChildren, IsJoinedOf};

use crate::front::{level_of, low_fence};
use crate::laws::children_join;
use bz_key::Key;
use bz_layout::SHARED_WORDS;
use bz_node::{Child, NodeImage, inner};
use bz_renew::is_whole;

/// The place of a child, the first at 0, which comes together with the next one into a slot.
#[derive(Clone, Copy, Drop)]
pub struct ParentJoin {
    pub place: u32,
    pub slot: u16,
}

// A child takes a metadata word at least.
const MOST_CHILDREN: usize = SHARED_WORDS as usize;

const NO_CHILD: Child = Child { low: None, slot: 0 };

// Child j of the parent that has the one.
fn joined_child(old: &NodeImage, join: &ParentJoin, j: u32) -> Child
    requires readable { IsReadableInner old.now.0 }
    requires within { join.now.place + 1 < count_in old.now.0 }
    requires place { j + 1 < count_in old.now.0 }
    ensures { result ≡ child_at (joined (children_in old.now.0) join.now.place join.now.slot) j }
{
    if j < join.place {
        old.child(j)
    } else if j == join.place {
        Child {
            low: old.child(j).low,
            slot: join.slot,
        }
    } else {
        old.child(j + 1)
    }
}

// The node with these children, between fences.
fn node_with_one(
    old: &NodeImage,
    join: &ParentJoin,
    low: Option<Key>,
    high: Option<Key>,
    level: u32,
) -> NodeImage
    requires readable { IsReadableInner old.now.0 }
    requires within { join.now.place + 1 < count_in old.now.0 }
    requires list { IsChildList (joined (children_in old.now.0) join.now.place join.now.slot) low high }
    requires room { needed (map child_entry (joined (children_in old.now.0) join.now.place join.now.slot)) ≤ SHARED_WORDS }
    requires inner { 1 ≤ level }
    requires levels { level < MAX_LEVELS }
    ensures { result.0 ≡ joined_parent (children_in old.now.0) join.now.place join.now.slot low high level }
{
    let mut children = [NO_CHILD; MOST_CHILDREN];
    let count = old.child_count() - 1;
    for j in 0..count {
        children[j as usize] = joined_child(old, join, j);
    }
    match inner(&children[..count as usize], low, high, level) {
        Some(image) => image,
        None => unreachable!(),
    }
}

/// The node that has one child in the place of two, which stood in a node that breaks no rule, between the node's fences.
pub fn parent_joined(old: &NodeImage, join: &ParentJoin) -> NodeImage
    requires { HasTwoChildren old.now.0 join.now.place join.now.slot }
    ensures words { IsJoinedOf old.now.0 join.now.place join.now.slot result.0 }
    ensures size { length result.0 ≡ NODE_WORDS }
{
    is_whole(old);
    children_join();
    let image = node_with_one(old, join, low_fence(old), old.high(), level_of(old));
    is_whole(&image);
    image
}
