//! The copy of a leaf: its visible records alone, in the order of their keys.

ghost use Rattle.std.specs.Prelude.{◌≡◌, ◌<◌, ◌^◌, ℕ, List, Option, None, All};
ghost use Rattle.bz_renew.specs.FromPage.Pages.{IsLeafByItself};
ghost use Rattle.bz_slotted.specs.ReadingLaws.{node_of};
ghost use Rattle.bz_slotted.specs.Rules.{node_fault};
ghost use Rattle.bz_task.specs.Laws.{SaysAlike};
ghost use Rattle.bz_consol.specs.Facts.{IsMadeOf};

use bz_key::PageBuf;
use bz_node::{NodeImage, leaf};
use bz_renew::sort_records;
use bz_slotted::laws as slotted;
use bz_task::LeafView;

/// The leaf of the visible records that a view shows, in the order of their keys, which are left in `page`.
pub(crate) fn copy_of(view: &LeafView, page: &mut PageBuf) -> NodeImage
    requires { IsLeafByItself view.now.image.0 }
    ensures alike { (nodes : ℕ) (low high : Option (List ℕ)) → node_fault nodes (node_of view.now.image.0) (node_of view.now.image.0) 0 low high ≡ None → SaysAlike nodes (node_of view.now.image.0) (node_of result.0) low high }
    ensures plain { All (λ v. v < 2 ^ 61) result.0 }
    ensures made { IsMadeOf view.now.image.0 result.0 }
{
    slotted::made_leaves_are_whole();
    let fences = sort_records(&view.image, page);
    match leaf(page.pairs(), fences.low, fences.high) {
        Some(image) => image,
        None => unreachable!(),
    }
}
