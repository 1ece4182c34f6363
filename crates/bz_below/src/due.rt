//! When the split of a leaf below a parent may begin.

ghost use Rattle.std.specs.Prelude.{◌≡◌, ◌↔◌, ◌≤◌, ◌<◌, true, false, IsTrue};
ghost use Rattle.bz_layout.specs.declared.thresholds.TheConstants.{SPLIT_ABOVE, MAX_LEVELS};
ghost use Rattle.bz_renew.specs.FromPage.Pages.{IsLeafByItself};
ghost use Rattle.bz_renew.specs.Due.{LeadsTo, IsDue, IsStatusOf};
ghost use Rattle.bz_slotted.specs.Readers.{live_of};
ghost use Rattle.bz_slotted.specs.ReadingLaws.{node_of};
ghost use Rattle.bz_word.specs.Statuses.{status};
ghost use Rattle.bz_below.specs.Facts.{IsThawedAbove};

use crate::links::upper_link;
use bz_split::is_large;
use bz_task::{LeafView, Link, Path};
use bz_word::Status;

/// Whether the view shows a frozen leaf with more live words than it may keep, and the path leads to it from the node of the link
/// before the last; and the guards of both links were no frozen nodes'.
pub fn is_due(path: &Path, view: &LeafView) -> bool
    requires some { 1 ≤ path.now.depth }
    requires few { path.now.depth ≤ MAX_LEVELS }
    requires leaf { IsLeafByItself view.now.image.0 }
    ensures due { IsTrue result ↔ ((2 ≤ path.now.depth) × (IsThawedAbove path.now × ((SPLIT_ABOVE < live_of (node_of view.now.image.0)) × IsDue path.now view.now))) }
    ensures frozen { result ≡ true → (status view.now.status).frozen ≡ true }
    ensures leads { result ≡ true → LeadsTo path.now view.now.slot }
    ensures thawed { result ≡ true → IsThawedAbove path.now }
{
    if path.depth < 2 {
        return false;
    }
    if !is_thawed_above(path) {
        return false;
    }
    is_large(view) && bz_renew::is_due(path, view)
}

// Whether the guard of the link before the last, as it was read, was no frozen node's.
fn is_thawed_above(path: &Path) -> bool
    requires deep { 2 ≤ path.now.depth }
    requires few { path.now.depth ≤ MAX_LEVELS }
    ensures { IsTrue result ↔ IsThawedAbove path.now }
{
    is_thawed(&upper_link(path))
}

// Whether the guard of a link, as it was read, was no frozen node's.
fn is_thawed(link: &Link) -> bool
    ensures { IsTrue result ↔ IsStatusOf false link.now.status }
{
    bz_word::laws::statuses();
    match Status::unpack(link.status) {
        Some(status) => !status.frozen,
        None => false,
    }
}
