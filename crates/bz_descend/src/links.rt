//! The links of a path.

ghost use Rattle.std.specs.Prelude.{◌≡◌, ◌+◌, ◌<◌, ℕ, Some, length, slice_get};
ghost use Rattle.bz_layout.specs.declared.sizes.TheConstants.{ROOT_AT, ROOT_STATUS_AT};
ghost use Rattle.bz_layout.specs.declared.thresholds.TheConstants.{MAX_LEVELS};

use bz_layout::{MAX_LEVELS, ROOT_AT, ROOT_STATUS_AT};
use bz_task::{Link, Path};

/// The path to a root, which its guard's status led to.
pub(crate) fn to_root(slot: u16, status: u64) -> Path
    ensures depth { result.depth ≡ 1 }
    ensures link { slice_get result.links 0 ≡ Some (record { slot = slot; link = ROOT_AT; guard = ROOT_STATUS_AT; status = status }) }
{
    let link = Link {
        slot,
        link: ROOT_AT,
        guard: ROOT_STATUS_AT,
        status,
    };
    Path {
        links: [link; MAX_LEVELS as usize],
        depth: 1,
    }
}

/// The path with a link more.
pub(crate) fn with_link(path: &Path, link: Link) -> Path
    requires { path.now.depth < MAX_LEVELS }
    ensures depth { result.depth ≡ path.now.depth + 1 }
    ensures link { slice_get result.links path.now.depth ≡ Some link }
    ensures others { (i : ℕ) → i < path.now.depth → slice_get result.links i ≡ slice_get path.now.links i }
{
    is_whole(&path.links);
    let mut links = path.links;
    links[path.depth as usize] = link;
    Path {
        links,
        depth: path.depth + 1,
    }
}

// A path has room for a link of each level. Does nothing.
fn is_whole(links: &[Link; MAX_LEVELS as usize])
    ensures { length links.now ≡ MAX_LEVELS }
{}
