//! The new parent, with the halves of a node in the node's place.

ghost use Rattle.std.specs.Prelude.{◌≡◌, ◌↔◌, ℕ, IsSome, IfSome};
ghost use Rattle.bz_branch.specs.FromBelow.Facts.{HasRoom, HasParent, IsNewParent};

use bz_branch::{level_of, low_fence};
use bz_halves::{ParentChange, parent_over, place_of};
use bz_key::Key;
use bz_node::NodeImage;
use bz_renew::is_whole;

/// The parent that has the two halves in the place of the child in a slot, by the words of the old one: none where that has no room
/// for the separator.
pub(crate) fn parent_with(
    above: &NodeImage,
    slot: u16,
    left: u16,
    right: u16,
    separator: Key,
) -> Option<NodeImage>
    requires { (nodes : ℕ) × HasParent nodes slot separator above.now.0 }
    ensures room { IsSome result ↔ HasRoom above.now.0 separator }
    ensures words { IfSome result (λ image. (nodes : ℕ) → IsNewParent nodes slot left right separator above.now.0 image.0) }
{
    is_whole(above);
    bz_halves::laws::children_may_be_parted();
    bz_slotted::laws::high_fences_are_read();
    let Some(place) = place_of(above, slot) else {
        unreachable!();
    };
    let low = low_fence(above);
    let high = above.high();
    let level = level_of(above);
    let change = ParentChange {
        place,
        left,
        right,
        separator,
    };
    parent_over(above, &change, low, high, level)
}
