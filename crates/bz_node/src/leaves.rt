//! Leaves made whole.
ghost use Rattle.std.specs.Prelude.{◌≡◌, ◌≤◌, ◌↔◌, map, IsSome, IfSome};
ghost use Rattle.bz_node.specs.Layout.{needed};
ghost use Rattle.bz_node.specs.Laws.{ReadsAsLeaf};
ghost use Rattle.bz_node.specs.Records.{pair_entry, leaf_words, IsLeafList};

use crate::build::node_of;
use crate::image::NodeImage;
use bz_key::{Key, Payload};
use bz_layout::SHARED_WORDS;

/// The leaf of these records, of which no records make the empty leaf: none where their metadata words
/// and block words are more than a node has room for.
pub fn leaf(records: &[(Key, Payload)], low: Option<Key>, high: Option<Key>) -> Option<NodeImage>
    requires { IsLeafList records.now low high }
    ensures fits { IsSome result ↔ (needed (map pair_entry records.now) ≤ SHARED_WORDS) }
    ensures words { IfSome result (λ image. image.0 ≡ leaf_words records.now low high) }
    ensures reads { IfSome result (λ image. ReadsAsLeaf image.0 records.now low high) }
{
    node_of(records, low, high, 0)
}
