//! The root's two words in the superblock.
ghost use Rattle.std.specs.Prelude.{◌≡◌, ◌<◌, ◌≤◌, ◌^◌, slice_index, Some, IfSome, IfNone};
ghost use Rattle.bz_content.specs.Content.{view_in};
ghost use Rattle.bz_judge.specs.Inside.Nodes.{IsScanned};
ghost use Rattle.bz_judge.specs.Inside.Stacks.{visit_of};
ghost use Rattle.bz_judge.specs.Inside.Walking.{IsRoot};
ghost use Rattle.bz_tree.specs.Walk.{fault_of};

use crate::node::level_of_node;
use crate::resolving::resolve;
use crate::visit::Visit;
use bz_layout::{Config, ROOT_AT, ROOT_STATUS_AT};
use bz_slotted::Place;
use bz_tree::ShapeRule;

/// What a root status stays below: only its stamp is set.
const STAMPS: u64 = 1 << 32;

/// The visit to the root, where the root's words break no rule.
pub(crate) fn root_visit(image: &[u64], config: &Config) -> Option<Visit>
    requires { IsScanned config.now image.now }
    ensures root { IfSome result (λ root. IsRoot config.now image.now (visit_of root)) }
    ensures small { IfSome result (λ root. root.place.level < 2 ^ 8) }
    ensures none { IfNone result (fault_of (view_in config.now (slice_index image.now)) ≡ Some (record { rule = ShapeRule.Root; place = 0 })) }
{
    let pointer = resolve(image, ROOT_AT);
    if pointer == 0 {
        return None;
    }
    if pointer > u64::from(config.nodes) {
        return None;
    }
    if resolve(image, ROOT_STATUS_AT) >= STAMPS {
        return None;
    }
    let slot = (pointer - 1) as u32;
    Some(Visit {
        slot,
        place: Place {
            level: level_of_node(image, config, slot),
            low: None,
            high: None,
        },
        up: config.nodes,
        index: 0,
    })
}
