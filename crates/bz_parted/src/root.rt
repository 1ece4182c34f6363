//! The new root over the halves of an inner root.

ghost use Rattle.std.specs.Prelude.{◌≡◌, ◌<◌, ◌≤◌};
ghost use Rattle.bz_layout.specs.declared.thresholds.TheConstants.{MAX_LEVELS};
ghost use Rattle.bz_parted.specs.Roots.{tall_root_words};

use bz_key::Key;
use bz_node::{Child, NodeImage, inner};

/// The node above two nodes, which are parted by this key, at a level counted from the leaves.
pub fn tall_root_over(left: u16, right: u16, separator: Key, level: u32) -> NodeImage
    requires inner { 1 ≤ level }
    requires levels { level < MAX_LEVELS }
    ensures { result.0 ≡ tall_root_words left right separator level }
{
    let _key = separator.bytes();
    let children = [
        Child {
            low: None,
            slot: left,
        },
        Child {
            low: Some(separator),
            slot: right,
        },
    ];
    match inner(&children, None, None, level) {
        Some(image) => image,
        None => unreachable!(),
    }
}
