//! The content of a well-formed image.
ghost use Rattle.std.specs.Prelude.{◌≡◌, slice_index, IfOk};
ghost use Rattle.bz_content.specs.Content.{leaf_end_in};
ghost use Rattle.bz_judge.specs.Held.{IsImage, IsImageOf, pairs_held};
ghost use Rattle.bz_judge.specs.Leaves.{IsLeafState};
ghost use Rattle.bz_layout.specs.Config.{IsConfig};
ghost use Rattle.bz_layout.specs.declared.config.Config.{Config as Numbers};
ghost use Rattle.bz_layout.specs.declared.sizes.TheConstants.{NODES_AT as NODES, SWAPS_AT as SWAPS};

use crate::descent::end_of_leaf;
use crate::gathering::gather;
use crate::leaf::{LeafState, state_of_leaf};
use bz_key::{Key, Payload};
use bz_layout::{Config, MIN_CALLS, MIN_MARKS, MIN_PAGES, MIN_WORKERS, NODES_AT, SWAPS_AT};
use bz_oom::Memory;
use std::alloc::Global;

// A configuration of the memory that an image is of.
fn config_of(image: &[u64]) -> Config
    requires { IsImage image.now }
    ensures config { IsConfig result }
    ensures nodes { result.nodes ≡ slice_index image.now NODES }
    ensures swaps { result.swaps ≡ slice_index image.now SWAPS }
{
    Config {
        nodes: image[NODES_AT as usize] as u32,
        swaps: image[SWAPS_AT as usize] as u32,
        workers: MIN_WORKERS,
        marks: MIN_MARKS,
        calls: MIN_CALLS,
        pages: MIN_PAGES,
    }
}

/// The pairs that a well-formed image holds, in the order of their keys. The image tells how many nodes and descriptors
/// its memory has.
pub fn pairs(alloc: Global, image: &[u64]) -> Result<Vec<(Key, Payload)>, Memory>
    requires { IsImage image.now }
    ensures { (c : Numbers) → IsImageOf c image.now → IfOk result (λ pairs. pairs.items ≡ pairs_held c (slice_index image.now)) }
{
    gather(alloc, image, &config_of(image))
}

/// The end of the leaf of a key in a well-formed image: the least key that is above all that belong there. The image tells how many nodes
/// and descriptors its memory has.
pub fn leaf_end(image: &[u64], key: &Key) -> Option<Key>
    requires { IsImage image.now }
    ensures { (c : Numbers) → IsImageOf c image.now → result ≡ leaf_end_in c (slice_index image.now) key.now }
{
    end_of_leaf(image, &config_of(image), key)
}

/// How the leaf of a key stands in a well-formed image. The image tells how many nodes and descriptors its memory has.
pub fn leaf_state(image: &[u64], key: &Key) -> LeafState
    requires { IsImage image.now }
    ensures { (c : Numbers) → IsImageOf c image.now → IsLeafState c (slice_index image.now) key.now result }
{
    state_of_leaf(image, &config_of(image), key)
}
