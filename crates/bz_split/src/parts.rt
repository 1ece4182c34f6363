//! The two parts of a leaf that is split.

ghost use Rattle.bz_renew.specs.FromPage.Pages.{IsLeafByItself};
ghost use Rattle.bz_layout.specs.declared.thresholds.TheConstants.{SPLIT_ABOVE};
ghost use Rattle.std.specs.Prelude.{◌<◌};
ghost use Rattle.bz_slotted.specs.Readers.{live_of};
ghost use Rattle.bz_slotted.specs.ReadingLaws.{node_of};
ghost use Rattle.bz_split.specs.Parts.{ArePartsOf};

use bz_halves::{Halves, halves_of};
use bz_key::PageBuf;
use bz_renew::{is_whole, sort_records};
use bz_task::LeafView;

/// The halves of a viewed leaf with more live words than it may keep. Its records are left in `page`.
pub fn parts_of(view: &LeafView, page: &mut PageBuf) -> Halves
    requires leaf { IsLeafByItself view.now.image.0 }
    requires many { SPLIT_ABOVE < live_of (node_of view.now.image.0) }
    ensures { ArePartsOf view.now.image.0 result.left.0 result.right.0 result.separator }
{
    bz_slotted::laws::whole_leaves_are_readable();
    bz_halves::laws::leaves_part_in_halves();
    bz_halves::laws::halves_are_leaves();
    is_whole(&view.image);
    let fences = sort_records(&view.image, page);
    let live = view.image.live_words();
    let halves = halves_of(page.pairs(), fences.low, fences.high, live);
    is_whole(&halves.left);
    is_whole(&halves.right);
    halves
}
