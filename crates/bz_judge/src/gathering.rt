//! The walk over the tree of a well-formed image that gathers its pairs: leaf by leaf, each in the order of its keys.
ghost use Rattle.std.specs.Prelude.{◌≡◌, ◌+◌, ◌∷◌, ◌++◌, [], slice_index, IfOk, OnOk};
ghost use Rattle.bz_judge.specs.Held.{IsImageOf, pairs_held};
ghost use Rattle.bz_judge.specs.Inside.Gathers.{in_order, to_come, IsGathering};
ghost use Rattle.bz_judge.specs.Inside.Stacks.{visit_of, stack_of};
ghost use Rattle.bz_node.specs.Reading.{IsReadableLeaf, pairs_in};

use crate::node::node_of_slot;
use crate::root::root_visit;
use crate::visit::{Visit, push_children, stack_with};
use bz_key::{Key, PageBuf, Payload};
use bz_layout::Config;
use bz_node::NodeImage;
use bz_oom::Memory;
use std::alloc::Global;

// A walk on its way: the nodes to come, the topmost last; room for the records of one leaf; and the pairs so far.
#[derive(Drop)]
struct Gathering {
    stack: Vec<Visit>,
    leaf: PageBuf,
    pairs: Vec<(Key, Payload)>,
}

impl Gathering {
    // A walk before its root.
    fn open(alloc: Global, root: Visit) -> Result<Gathering, Memory>
        ensures { IfOk result (λ g. (stack_of g.stack.items ≡ visit_of root ∷ []) × (g.pairs.items ≡ [])) }
    {
        let stack = stack_with(alloc, root)?;
        let leaf = PageBuf::open(alloc)?;
        Ok(Gathering {
            stack,
            leaf,
            pairs: Vec::new(alloc),
        })
    }

    // Puts the records of a leaf behind the pairs so far.
    fn take_leaf(&mut self, node: &NodeImage) -> Result<(), Memory>
        requires { IsReadableLeaf node.now.0 }
        ensures pairs { OnOk result (self.new.pairs.items ≡ self.old.pairs.items ++ in_order (pairs_in node.now.0)) }
        ensures stack { self.new.stack ≡ self.old.stack }
    {
        node.records(&mut self.leaf);
        match self.pairs.extend_from_slice(self.leaf.pairs()) {
            Ok(()) => Ok(()),
            Err(_) => Err(Memory),
        }
    }

    // Comes to a node that was taken off the stack: takes its records, or puts its children on the stack.
    #[tactic(auto, using(bz_content::proofs::Proved::well_formed_images_have_no_fault, bz_slotted::proofs::Proved::inner_keys_rise, bz_slotted::proofs::Proved::whole_inners_are_readable, bz_slotted::proofs::Proved::whole_leaves_are_readable))]
    fn visit(&mut self, image: &[u64], config: &Config, visit: &Visit) -> Result<(), Memory>
        requires image { IsImageOf config.now image.now }
        requires way { IsGathering config.now image.now (visit_of visit.now ∷ stack_of self.old.stack.items) self.old.pairs.items }
        ensures way { OnOk result (IsGathering config.now image.now (stack_of self.new.stack.items) self.new.pairs.items) }
        ensures further { OnOk result (to_come config.now image.now (visit_of visit.now ∷ stack_of self.old.stack.items) ≡ to_come config.now image.now (stack_of self.new.stack.items) + 1) }
    {
        let node = node_of_slot(image, config, visit.slot);
        if visit.place.level == 0 {
            return self.take_leaf(&node);
        }
        push_children(&mut self.stack, &node, visit)
    }
}

/// The pairs that the tree of a well-formed image holds, in the order of their keys.
#[tactic(auto, using(bz_content::proofs::Proved::well_formed_images_have_no_fault, bz_slotted::proofs::Proved::leaf_rules_are_facts))]
pub(crate) fn gather(
    alloc: Global,
    image: &[u64],
    config: &Config,
) -> Result<Vec<(Key, Payload)>, Memory>
    requires { IsImageOf config.now image.now }
    ensures { IfOk result (λ pairs. pairs.items ≡ pairs_held config.now (slice_index image.now)) }
{
    let root = match root_visit(image, config) {
        Some(root) => root,
        None => unreachable!(),
    };
    let mut gathering = Gathering::open(alloc, root)?;
    while let Some(visit) = gathering.stack.pop() {
        gathering.visit(image, config, &visit)?;
    }
    Ok(gathering.pairs)
}
