//! When a root may give way to its child.

ghost use Rattle.std.specs.Prelude.{◌≡◌, ◌↔◌, ◌≤◌, IsTrue};
ghost use Rattle.bz_inner.specs.Lone.{HasOneChild, IsLone};

use bz_branch::link_at;
use bz_task::{Link, Path};
use bz_word::Status;

/// Whether the root is an inner node with one child, as a path shows it.
pub fn is_lone(path: &Path) -> bool
    ensures { IsTrue result ↔ IsLone path.now }
{
    path.depth >= 2 && has_one(&link_at(path, 1))
}

// Whether the guard of a link, as it was read, was the status of a node with one child.
fn has_one(link: &Link) -> bool
    ensures { IsTrue result ↔ HasOneChild link.now.status }
{
    bz_word::laws::statuses();
    match Status::unpack(link.status) {
        Some(status) => status.count == 1,
        None => false,
    }
}
