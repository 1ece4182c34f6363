//! The links at the end of a path, and a link with a newer guard.

ghost use Rattle.bz_layout.specs.declared.thresholds.TheConstants.{MAX_LEVELS};
ghost use Rattle.std.specs.Prelude.{◌≡◌, ◌≤◌, ◌-◌, Some, slice_get};
ghost use Rattle.bz_below.specs.Guards.{with_guard};

use bz_task::{Link, Path};

/// The link before the last of a path.
pub(crate) fn upper_link(path: &Path) -> Link
    requires deep { 2 ≤ path.now.depth }
    requires few { path.now.depth ≤ MAX_LEVELS }
    ensures { slice_get path.now.links (path.now.depth - 2) ≡ Some result }
{
    path.links[path.depth as usize - 2]
}

/// The link, with another value of its guard.
pub(crate) fn guarded_by(link: &Link, word: u64) -> Link
    ensures { result ≡ with_guard link.now word }
{
    Link {
        status: word,
        ..*link
    }
}
