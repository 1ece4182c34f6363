//! When an inner node under the root may be merged with a neighbour.

ghost use Rattle.std.specs.Prelude.{◌≡◌, ◌↔◌, IsTrue};
ghost use Rattle.bz_inner.specs.Small.{IsSmall, IsSmallStatus};

use bz_branch::link_at;
use bz_layout::MERGE_BELOW;
use bz_task::{Link, Path};
use bz_word::Status;

/// Whether a path leads through an inner node under the root that has too few words to stand alone, as its status tells.
pub fn is_small(path: &Path) -> bool
    ensures { IsTrue result ↔ IsSmall path.now }
{
    path.depth >= 3 && has_few(&link_at(path, 2))
}

// Whether the guard of a link, as it was read, was the status of a node with so few words.
fn has_few(link: &Link) -> bool
    ensures { IsTrue result ↔ IsSmallStatus link.now.status }
{
    bz_word::laws::statuses();
    match Status::unpack(link.status) {
        Some(status) => status.count + status.block < MERGE_BELOW,
        None => false,
    }
}
