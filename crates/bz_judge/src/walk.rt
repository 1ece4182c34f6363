//! The walk over the tree of an image: each node once, a node before its children.
ghost use Rattle.std.specs.Prelude.{◌≡◌, ◌<◌, ◌+◌, ◌≤◌, ◌^◌, ◌∷◌, [], length, slice_index, IfOk, OnOk, IfErr};
ghost use Rattle.bz_judge.specs.Inside.Nodes.{IsScanned};
ghost use Rattle.bz_judge.specs.Inside.Stacks.{visit_of, stack_of};
ghost use Rattle.bz_judge.specs.Inside.Walking.{IsOnWay, IsTold, IsBefore, IsTreeOf};

use crate::node::{fault_of_node, node_of_slot, visible_count};
use crate::root::root_visit;
use crate::visit::{Visit, push_children, stack_with};
use bz_content::{CheckError, Shape};
use bz_layout::Config;
use bz_oom::Memory;
use bz_tree::{ShapeFault, ShapeRule};
use std::alloc::Global;

// A walk on its way: the nodes to come, the topmost last; which slots were seen, how many, and the pairs in
// their leaves.
#[derive(Drop)]
struct Walk {
    stack: Vec<Visit>,
    seen: Vec<bool>,
    pairs: u32,
    reached: u32,
}

impl Walk {
    // A walk before its root.
    fn open(alloc: Global, config: &Config, root: Visit) -> Result<Walk, Memory>
        ensures { IfOk result (IsBefore config.now (visit_of root)) }
    {
        let seen = vec![in alloc; false; config.nodes as usize]?;
        let stack = stack_with(alloc, root)?;
        Ok(Walk {
            stack,
            seen,
            pairs: 0,
            reached: 0,
        })
    }

    // Comes to a node that was taken off the stack: counts it, or tells the first rule that it breaks.
    fn visit(&mut self, image: &[u64], config: &Config, visit: &Visit) -> Result<(), CheckError>
        requires scanned { IsScanned config.now image.now }
        requires way { IsOnWay config.now image.now (visit_of visit.now ∷ stack_of self.old.stack.items) self.old.seen.items self.old.pairs self.old.reached }
        ensures way { IfOk result (λ _. IsOnWay config.now image.now (stack_of self.new.stack.items) self.new.seen.items self.new.pairs self.new.reached) }
        ensures further { OnOk result (self.new.reached ≡ self.old.reached + 1) }
        ensures told { IfErr result (IsTold config.now image.now) }
    {
        if self.seen[visit.slot as usize] {
            return Err(CheckError::Shape(ShapeFault {
                rule: ShapeRule::Twice,
                place: visit.slot,
            }));
        }
        let node = node_of_slot(image, config, visit.slot);
        if let Some(rule) = fault_of_node(image, config, visit.slot, &node, &visit.place) {
            return Err(CheckError::Shape(ShapeFault {
                rule,
                place: visit.slot,
            }));
        }
        bz_slotted::laws::leaf_rules_are_facts();
        self.seen[visit.slot as usize] = true;
        self.reached += 1;
        if visit.place.level == 0 {
            self.pairs += visible_count(&node);
            return Ok(());
        }
        push_children(&mut self.stack, &node, visit)?;
        Ok(())
    }
}

/// Walks over the tree of an image: its shape, or the first rule that it breaks.
pub(crate) fn walk_tree(alloc: Global, image: &[u64], config: &Config) -> Result<Shape, CheckError>
    requires { IsScanned config.now image.now }
    ensures shape { IfOk result (IsTreeOf config.now image.now) }
    ensures told { IfErr result (IsTold config.now image.now) }
{
    let root = match root_visit(image, config) {
        Some(root) => root,
        None => {
            return Err(CheckError::Shape(ShapeFault {
                rule: ShapeRule::Root,
                place: 0,
            }));
        }
    };
    let levels = root.place.level + 1;
    let mut walk = Walk::open(alloc, config, root)?;
    while let Some(visit) = walk.stack.pop() {
        walk.visit(image, config, &visit)?;
    }
    Ok(Shape {
        pairs: walk.pairs,
        levels,
        reached: walk.reached,
    })
}
