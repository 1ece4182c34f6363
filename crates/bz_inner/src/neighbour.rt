//! The neighbour with which a child of the root is merged.

ghost use Rattle.std.specs.Prelude.{◌≡◌, IfSome, IfNone};
ghost use Rattle.bz_inner.specs.Neighbours.{IsParentOf, IsNeighbour, IsOnlyChild};

use bz_halves::place_of;
use bz_node::NodeImage;

/// A neighbour of a child.
#[derive(Clone, Copy, Drop)]
pub(crate) struct Neighbour {
    /// Whether it is the right one.
    pub right: bool,
    /// The place of the left one of the two among the root's children.
    pub place: u32,
    /// The neighbour's slot.
    pub slot: u16,
}

/// The right neighbour of the child in this slot, and the left one where it is the last child, if it has one.
pub(crate) fn neighbour_of(above: &NodeImage, slot: u16) -> Option<Neighbour>
    requires { IsParentOf above.now.0 slot }
    ensures some { IfSome result (λ n. IsNeighbour above.now.0 slot n.right n.place n.slot) }
    ensures none { IfNone result (IsOnlyChild above.now.0 slot) }
{
    let Some(place) = place_of(above, slot) else {
        unreachable!();
    };
    if place + 1 < above.child_count() {
        return Some(Neighbour {
            right: true,
            place,
            slot: above.child(place + 1).slot,
        });
    }
    if place == 0 {
        return None;
    }
    Some(Neighbour {
        right: false,
        place: place - 1,
        slot: above.child(place - 1).slot,
    })
}
