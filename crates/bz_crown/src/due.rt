//! When the split of an inner root may begin.

ghost use Rattle.bz_layout.specs.declared.thresholds.TheConstants.{MAX_LEVELS};
ghost use Rattle.std.specs.Prelude.{◌≡◌, ◌↔◌, ◌≤◌, IsTrue};
ghost use Rattle.bz_crown.specs.Due.{AreDue, IsDue};

use bz_branch::{is_full, is_thawed, link_at};
use bz_task::{Link, Path};

/// Whether the path has a link in the root, and the statuses that guard its first two links were no frozen nodes'; and that of the
/// root counts more words than an inner node may keep.
pub fn is_due(path: &Path) -> bool
    requires { path.now.depth ≤ MAX_LEVELS }
    ensures { IsTrue result ↔ IsDue path.now }
{
    path.depth >= 2 && are_due(&link_at(path, 0), &link_at(path, 1))
}

// The same of the two links.
fn are_due(upper: &Link, lower: &Link) -> bool
    ensures { IsTrue result ↔ AreDue upper.now lower.now }
{
    is_thawed(upper) && is_full(lower)
}
