//! Inner nodes made whole.
ghost use Rattle.std.specs.Prelude.{◌≡◌, ◌≤◌, ◌<◌, ◌↔◌, map, IsSome, IfSome};
ghost use Rattle.bz_node.specs.Layout.{needed};
ghost use Rattle.bz_node.specs.Laws.{ReadsAsInner};
ghost use Rattle.bz_node.specs.Records.{child_entry, inner_words, IsChildList};

use crate::build::node_of;
use crate::child::Child;
use crate::image::NodeImage;
use bz_key::Key;
use bz_layout::{MAX_LEVELS, SHARED_WORDS};

/// The inner node of these children, at a level counted from the leaves, which have level 0: none where
/// the metadata words and block words are more than a node has room for.
pub fn inner(
    children: &[Child],
    low: Option<Key>,
    high: Option<Key>,
    level: u32,
) -> Option<NodeImage>
    requires children { IsChildList children.now low high }
    requires inner { 1 ≤ level }
    requires levels { level < MAX_LEVELS }
    ensures fits { IsSome result ↔ (needed (map child_entry children.now) ≤ SHARED_WORDS) }
    ensures words { IfSome result (λ image. image.0 ≡ inner_words children.now low high level) }
    ensures reads { IfSome result (λ image. ReadsAsInner image.0 children.now low high level) }
{
    node_of(children, low, high, level)
}
