//! When the split of a root leaf may begin.

ghost use Rattle.std.specs.Prelude.{◌≡◌, ◌↔◌, ◌≤◌, ◌<◌, true, IsTrue};
ghost use Rattle.bz_layout.specs.declared.thresholds.TheConstants.{SPLIT_ABOVE, MAX_LEVELS};
ghost use Rattle.bz_renew.specs.FromPage.Pages.{IsLeafByItself};
ghost use Rattle.bz_renew.specs.Due.{LeadsTo, IsDue};
ghost use Rattle.bz_slotted.specs.Readers.{live_of};
ghost use Rattle.bz_slotted.specs.ReadingLaws.{node_of};
ghost use Rattle.bz_word.specs.Statuses.{status};

use bz_layout::SPLIT_ABOVE;
use bz_renew::is_whole;
use bz_slotted::laws as slotted;
use bz_task::{LeafView, Path};

/// Whether the view shows a frozen leaf with more live words than it may keep, and the path leads to it from the root pointer, of
/// which the guard was no frozen node's.
pub fn is_due(path: &Path, view: &LeafView) -> bool
    requires some { 1 ≤ path.now.depth }
    requires few { path.now.depth ≤ MAX_LEVELS }
    requires leaf { IsLeafByItself view.now.image.0 }
    ensures due { IsTrue result ↔ ((path.now.depth ≡ 1) × ((SPLIT_ABOVE < live_of (node_of view.now.image.0)) × IsDue path.now view.now)) }
    ensures frozen { result ≡ true → (status view.now.status).frozen ≡ true }
    ensures leads { result ≡ true → LeadsTo path.now view.now.slot }
{
    if path.depth != 1 {
        return false;
    }
    is_large(view) && bz_renew::is_due(path, view)
}

/// Whether a viewed leaf has more live words than it may keep.
pub fn is_large(view: &LeafView) -> bool
    requires { IsLeafByItself view.now.image.0 }
    ensures { IsTrue result ↔ (SPLIT_ABOVE < live_of (node_of view.now.image.0)) }
{
    slotted::whole_leaves_are_readable();
    is_whole(&view.image);
    SPLIT_ABOVE < view.image.live_words()
}
