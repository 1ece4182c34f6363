//! The neighbours of a leaf below its parent.

ghost use Rattle.std.specs.Prelude.{◌≡◌, ◌≤◌, ◌+◌, ℕ, true, false, IfSome, IfNone};
ghost use Rattle.bz_slotted.specs.Readers.{count_of};
ghost use Rattle.bz_slotted.specs.ReadingLaws.{node_of};
ghost use Rattle.bz_merge.specs.Decisions.{IsParentOfLeaf, HasNoRight, HasNoLeft};
ghost use Rattle.bz_merge.specs.Plans.{IsPair};
ghost use Rattle.bz_merge.specs.Siblings.{IsChildAt};

use bz_halves::place_of;
use bz_node::NodeImage;

/// A neighbour of a leaf below its parent.
#[derive(Clone, Copy, Drop)]
pub(crate) struct Sibling {
    /// Whether it is the right one.
    pub right: bool,
    /// The place of the left one of the two among the parent's children.
    pub place: u32,
    /// The neighbour's slot.
    pub slot: u16,
}

// The place of the leaf in this slot among the children of its parent.
fn place_in(parent: &NodeImage, slot: u16) -> u32
    requires { IsParentOfLeaf parent.now.0 slot }
    ensures { IsChildAt parent.now.0 slot result }
{
    match place_of(parent, slot) {
        Some(place) => place,
        None => unreachable!(),
    }
}

/// The right neighbour of the leaf in this slot, if it has one.
pub(crate) fn right_of(parent: &NodeImage, slot: u16) -> Option<Sibling>
    requires { IsParentOfLeaf parent.now.0 slot }
    ensures some { IfSome result (λ s. (s.right ≡ true) × IsPair parent.now.0 slot true s.place s.slot) }
    ensures none { IfNone result (HasNoRight parent.now.0 slot) }
{
    let place = place_in(parent, slot);
    if place + 1 < parent.child_count() {
        return Some(Sibling {
            right: true,
            place,
            slot: parent.child(place + 1).slot,
        });
    }
    None
}

/// The left neighbour of the leaf in this slot, if it has one.
pub(crate) fn left_of(parent: &NodeImage, slot: u16) -> Option<Sibling>
    requires { IsParentOfLeaf parent.now.0 slot }
    ensures some { IfSome result (λ s. (s.right ≡ false) × IsPair parent.now.0 slot false s.place s.slot) }
    ensures none { IfNone result (HasNoLeft parent.now.0 slot) }
{
    let place = place_in(parent, slot);
    if place == 0 {
        return None;
    }
    Some(Sibling {
        right: false,
        place: place - 1,
        slot: parent.child(place - 1).slot,
    })
}
