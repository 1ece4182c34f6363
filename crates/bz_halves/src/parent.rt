//! The parent that has the halves of a leaf in the place of the leaf.

ghost use Rattle.std.specs.Prelude.{◌≡◌, ◌≢◌, ◌↔◌, ◌<◌, ◌≤◌, ℕ, map, length, IsSome, IfSome, IfNone, None};
ghost use Rattle.bz_layout.specs.declared.sizes.TheConstants.{SHARED_WORDS};
ghost use Rattle.bz_layout.specs.declared.thresholds.TheConstants.{MAX_LEVELS};
ghost use Rattle.bz_node.specs.Layout.{needed};
ghost use Rattle.bz_node.specs.Reading.{IsReadableInner, children_in, child_in, count_in};
ghost use Rattle.bz_node.specs.Records.{child_entry};
ghost use Rattle.bz_halves.specs.Parents.{child_at, parted, parted_words, MayPart};

use bz_key::Key;
use bz_layout::SHARED_WORDS;
use bz_node::{Child, NodeImage, inner};

/// The two halves that come in the place of a child, the first at 0, and the key that parts them.
#[derive(Clone, Copy, Drop)]
pub struct ParentChange {
    pub place: u32,
    pub left: u16,
    pub right: u16,
    pub separator: Key,
}

// A child takes a metadata word at least; and there is one child more.
const MOST_CHILDREN: usize = SHARED_WORDS as usize + 1;

const NO_CHILD: Child = Child { low: None, slot: 0 };

/// The place of the child in this slot, if the node has one.
pub fn place_of(old: &NodeImage, slot: u16) -> Option<u32>
    requires { IsReadableInner old.now.0 }
    ensures some { IfSome result (λ place. (place < count_in old.now.0) × ((child_in old.now.0 place).slot ≡ slot)) }
    ensures none { IfNone result ((j : ℕ) → j < count_in old.now.0 → (child_in old.now.0 j).slot ≢ slot) }
{
    for j in 0..old.child_count() {
        if old.child(j).slot == slot {
            return Some(j);
        }
    }
    None
}

// Child j of the parent that has the halves.
fn parted_child(old: &NodeImage, parting: &ParentChange, j: u32) -> Child
    requires readable { IsReadableInner old.now.0 }
    requires within { parting.now.place < count_in old.now.0 }
    requires place { j ≤ count_in old.now.0 }
    ensures { result ≡ child_at (parted (children_in old.now.0) parting.now.place parting.now.left parting.now.right parting.now.separator) j }
{
    if j < parting.place {
        old.child(j)
    } else if j == parting.place {
        Child {
            low: old.child(j).low,
            slot: parting.left,
        }
    } else if j == parting.place + 1 {
        Child {
            low: Some(parting.separator),
            slot: parting.right,
        }
    } else {
        old.child(j - 1)
    }
}

/// The parent that has the two halves in the place of a child of this node, between the node's fences: none where there is no room
/// for the separator.
pub fn parent_over(
    old: &NodeImage,
    parting: &ParentChange,
    low: Option<Key>,
    high: Option<Key>,
    level: u32,
) -> Option<NodeImage>
    requires readable { IsReadableInner old.now.0 }
    requires parted { MayPart (children_in old.now.0) low high parting.now.place parting.now.separator }
    requires inner { 1 ≤ level }
    requires levels { level < MAX_LEVELS }
    ensures fits { IsSome result ↔ (needed (map child_entry (parted (children_in old.now.0) parting.now.place parting.now.left parting.now.right parting.now.separator)) ≤ SHARED_WORDS) }
    ensures words { IfSome result (λ image. image.0 ≡ parted_words (children_in old.now.0) parting.now.place parting.now.left parting.now.right parting.now.separator low high level) }
{
    let mut children = [NO_CHILD; MOST_CHILDREN];
    let count = old.child_count();
    for j in 0..count + 1 {
        children[j as usize] = parted_child(old, parting, j);
    }
    inner(&children[..count as usize + 1], low, high, level)
}
