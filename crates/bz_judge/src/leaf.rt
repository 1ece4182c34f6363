//! How the leaf of a key stands in a well-formed image.
ghost use Rattle.std.specs.Prelude.{slice_index};
ghost use Rattle.bz_judge.specs.Held.{IsImageOf};
ghost use Rattle.bz_judge.specs.Leaves.{IsLeafState};

use crate::descent::leaf_visit;
use crate::node::{is_frozen, node_of_slot};
use bz_key::Key;
use bz_layout::Config;

/// How a leaf stands: whether it is frozen, and how many words its visible records take.
#[derive(Clone, Copy)]
pub struct LeafState {
    pub frozen: bool,
    pub live: u32,
}

/// How the leaf of a key stands in a well-formed image.
pub(crate) fn state_of_leaf(image: &[u64], config: &Config, key: &Key) -> LeafState
    requires { IsImageOf config.now image.now }
    ensures { IsLeafState config.now (slice_index image.now) key.now result }
{
    let visit = leaf_visit(image, config, key);
    let node = node_of_slot(image, config, visit.slot);
    let frozen = is_frozen(&node);
    let live = node.live_words();
    LeafState { frozen, live }
}
