//! The link that is turned.

ghost use Rattle.bz_layout.specs.declared.thresholds.TheConstants.{MAX_LEVELS};
ghost use Rattle.std.specs.Prelude.{◌≡◌, ◌-◌, ◌≤◌, Some, slice_get};

use bz_task::{Link, Path};

/// The last link of a path.
pub fn last_link(path: &Path) -> Link
    requires some { 1 ≤ path.now.depth }
    requires few { path.now.depth ≤ MAX_LEVELS }
    ensures { slice_get path.now.links (path.now.depth - 1) ≡ Some result }
{
    path.links[path.depth as usize - 1]
}
