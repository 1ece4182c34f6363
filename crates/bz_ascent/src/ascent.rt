//! How far up a path a split has come.

ghost use Rattle.bz_layout.specs.declared.thresholds.TheConstants.{MAX_LEVELS};
ghost use Rattle.std.specs.Prelude.{◌<◌, ◌≤◌};
ghost use Rattle.bz_ascent.specs.Ascents.{IsAtLeaf, IsOneUp};

use bz_branch::link_at;
use bz_key::Key;
use bz_task::{Link, Path};

/// A path to the leaf of a key, and a place on it.
#[derive(Clone, Copy, Drop)]
pub struct Ascent {
    pub key: Key,
    pub path: Path,
    /// The place of the link to the node that is to be split.
    pub place: u32,
    /// That link.
    pub node: Link,
}

impl Ascent {
    /// At the leaf.
    pub fn from_leaf(key: Key, path: Path) -> Ascent
        requires some { 1 ≤ path.depth }
        requires few { path.depth ≤ MAX_LEVELS }
        ensures { IsAtLeaf result key path }
    {
        let place = path.depth - 1;
        Ascent {
            key,
            path,
            place,
            node: link_at(&path, place),
        }
    }

    /// One node up, which is not above the root.
    pub fn one_up(&self) -> Ascent
        requires below { 0 < self.now.place }
        requires few { self.now.place ≤ MAX_LEVELS }
        ensures { IsOneUp self.now result }
    {
        let place = self.place - 1;
        Ascent {
            key: self.key,
            path: self.path,
            place,
            node: link_at(&self.path, place),
        }
    }
}
