//! The way down the tree of a well-formed image to the leaf of a key.
ghost use Rattle.std.specs.Prelude.{◌≡◌, ◌<◌, ◌-◌, slice_index};
ghost use Rattle.bz_content.specs.Content.{leaf_end_in};
ghost use Rattle.bz_judge.specs.Held.{IsImageOf};
ghost use Rattle.bz_judge.specs.Inside.Leaves.{IsLeafVisit};
ghost use Rattle.bz_judge.specs.Inside.Stacks.{visit_of, Shows};
ghost use Rattle.bz_node.specs.Reading.{count_in};
ghost use Rattle.bz_slotted.specs.ReadingLaws.{ReadsAsChildren};
ghost use Rattle.bz_tree.specs.Descent.{choice};
ghost use Rattle.bz_tree.specs.Order.{is_before as before, is_at_least as at_least};
ghost use Rattle.bz_tree.specs.View.{View};
ghost use Rattle.bz_tree.specs.Walk.{kid};

use crate::node::node_of_slot;
use crate::root::root_visit;
use crate::visit::{Visit, visit_to_child};
use bz_key::Key;
use bz_layout::Config;
use bz_node::{Child, NodeImage};
use std::cmp::Ordering;

// Whether one key is before another.
#[tactic(auto, unfolding(bz_tree::specs::Order::is_before))]
fn precedes(a: &Key, b: &Key) -> bool
    ensures { result ≡ before a.now b.now }
{
    match a.cmp(b) {
        Ordering::Less => true,
        Ordering::Equal => false,
        Ordering::Greater => false,
    }
}

// Whether a key is not before the lower bound of a child.
fn reaches(key: &Key, child: &Child) -> bool
    ensures { result ≡ at_least key.now child.now.low }
{
    match &child.low {
        None => true,
        Some(low) => !precedes(key, low),
    }
}

// The visit to the child of an inner node that a key belongs to: the last one whose lower bound is not above the key.
fn chosen_child(node: &NodeImage, visit: &Visit, key: &Key) -> Visit
    requires children { ReadsAsChildren node.now.0 }
    requires some { 0 < count_in node.now.0 }
    requires inner { 0 < visit.now.place.level }
    ensures { (v : View) → Shows v visit.now.slot node.now.0 → visit_of result ≡ kid v (visit_of visit.now) (visit.now.place.level - 1) (choice v visit.now.slot key.now) }
{
    let mut high = visit.place.high;
    let mut i = node.child_count() - 1;
    while i > 0 {
        let child = node.child(i);
        let reached = reaches(key, &child);
        if reached {
            return visit_to_child(visit, &child, i, high);
        }
        high = child.low;
        i -= 1;
    }
    let first = node.child(0);
    visit_to_child(visit, &first, 0, high)
}

/// The visit to the leaf of a key in a well-formed image.
#[tactic(auto, using(bz_content::proofs::Proved::well_formed_images_have_no_fault, bz_slotted::proofs::Proved::leaf_rules_are_facts))]
pub(crate) fn leaf_visit(image: &[u64], config: &Config, key: &Key) -> Visit
    requires { IsImageOf config.now image.now }
    ensures { IsLeafVisit config.now image.now key.now (visit_of result) }
{
    let mut visit = match root_visit(image, config) {
        Some(root) => root,
        None => unreachable!(),
    };
    while visit.place.level > 0 {
        let node = node_of_slot(image, config, visit.slot);
        visit = chosen_child(&node, &visit, key);
    }
    visit
}

/// The end of the leaf of a key in a well-formed image.
pub(crate) fn end_of_leaf(image: &[u64], config: &Config, key: &Key) -> Option<Key>
    requires { IsImageOf config.now image.now }
    ensures { result ≡ leaf_end_in config.now (slice_index image.now) key.now }
{
    let visit = leaf_visit(image, config, key);
    visit.place.high
}
