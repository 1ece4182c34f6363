//! The links of a path, and what their guards say.

ghost use Rattle.bz_layout.specs.declared.thresholds.TheConstants.{MAX_LEVELS};
ghost use Rattle.std.specs.Prelude.{◌≡◌, ◌↔◌, ◌<◌, false, IsTrue, Some, slice_get};
ghost use Rattle.bz_renew.specs.Due.{IsStatusOf};
ghost use Rattle.bz_branch.specs.Due.{IsFullStatus};

use bz_layout::INNER_LIMIT;
use bz_task::{Link, Path};
use bz_word::Status;

/// The link at a place of a path.
pub fn link_at(path: &Path, place: u32) -> Link
    requires { place < MAX_LEVELS }
    ensures { slice_get path.now.links place ≡ Some result }
{
    path.links[place as usize]
}

/// Whether the guard of a link, as it was read, was no frozen node's.
pub fn is_thawed(link: &Link) -> bool
    ensures { IsTrue result ↔ IsStatusOf false link.now.status }
{
    bz_word::laws::statuses();
    match Status::unpack(link.status) {
        Some(status) => !status.frozen,
        None => false,
    }
}

/// Whether it was none, and counts more words than an inner node may keep.
pub fn is_full(link: &Link) -> bool
    ensures { IsTrue result ↔ IsFullStatus link.now.status }
{
    bz_word::laws::statuses();
    match Status::unpack(link.status) {
        Some(status) => !status.frozen && INNER_LIMIT < status.count + status.block,
        None => false,
    }
}
