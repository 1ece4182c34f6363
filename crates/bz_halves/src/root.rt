//! The new root over the halves of a root leaf.

ghost use Rattle.std.specs.Prelude.{◌≡◌};
ghost use Rattle.bz_halves.specs.Roots.{root_words};

use bz_key::Key;
use bz_node::{Child, NodeImage, inner};

/// The node above two leaves, which are parted by this key.
pub fn root_over(left: u16, right: u16, separator: Key) -> NodeImage
    ensures { result.0 ≡ root_words left right separator }
{
    let _key = separator.bytes();
    let children = [
        Child {
            low: None,
            slot: left,
        },
        Child {
            low: Some(separator),
            slot: right,
        },
    ];
    match inner(&children, None, None, 1) {
        Some(image) => image,
        None => unreachable!(),
    }
}
