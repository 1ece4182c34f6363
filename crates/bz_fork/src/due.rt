//! When the split of an inner node below a parent may begin.

ghost use Rattle.bz_layout.specs.declared.thresholds.TheConstants.{MAX_LEVELS};
ghost use Rattle.std.specs.Prelude.{◌↔◌, ◌≤◌, ◌<◌, IsTrue};
ghost use Rattle.bz_fork.specs.Due.{AreDue, IsDue};

use bz_branch::{is_full, is_thawed, link_at};
use bz_task::{Link, Path};

/// Whether the path has three links from a place on, and the statuses that guard them were no frozen nodes'; and the last of these
/// statuses, that of the node to which the second link leads, counts more words than an inner node may keep.
pub fn is_due(path: &Path, place: u32) -> bool
    requires few { path.now.depth ≤ MAX_LEVELS }
    requires within { place < MAX_LEVELS }
    ensures { IsTrue result ↔ IsDue path.now place }
{
    path.depth >= place + 3
        && are_due(
            &link_at(path, place),
            &link_at(path, place + 1),
            &link_at(path, place + 2),
        )
}

// The same of the three links.
fn are_due(upper: &Link, middle: &Link, lower: &Link) -> bool
    ensures { IsTrue result ↔ AreDue upper.now middle.now lower.now }
{
    is_thawed(upper) && is_thawed(middle) && is_full(lower)
}
