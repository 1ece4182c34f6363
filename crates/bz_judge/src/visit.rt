//! The nodes that a walk is to come to.
ghost use Rattle.std.specs.Prelude.{◌≡◌, ◌<◌, ◌-◌, ◌++◌, ◌==◌, ◌∷◌, [], if◌then◌else◌, IfOk, OnOk};
ghost use Rattle.bz_judge.specs.Inside.Stacks.{visit_of, stack_of, Shows};
ghost use Rattle.bz_tree.specs.View.{View};
ghost use Rattle.bz_tree.specs.Walk.{kids};
ghost use Rattle.bz_slotted.specs.ReadingLaws.{ReadsAsChildren};

use bz_key::Key;
use bz_layout::{MAX_LEVELS, SHARED_WORDS};
use bz_node::{Child, NodeImage};
use bz_oom::Memory;
use bz_slotted::Place;
use std::alloc::Global;

/// A node to come: its slot, where it is to stand, its parent's slot, and which child of it the node is.
#[derive(Clone, Copy)]
pub(crate) struct Visit {
    pub(crate) slot: u32,
    pub(crate) place: Place,
    pub(crate) up: u32,
    pub(crate) index: u32,
}

/// The most nodes that a stack holds: on each level fewer than a node has children.
const STACK_VISITS: usize = (MAX_LEVELS * SHARED_WORDS) as usize;

/// A stack of this one visit, with all the room that a walk takes.
pub(crate) fn stack_with(alloc: Global, visit: Visit) -> Result<Vec<Visit>, Memory>
    ensures { IfOk result (λ stack. stack_of stack.items ≡ visit_of visit ∷ []) }
{
    let mut stack: Vec<Visit> = Vec::with_capacity(alloc, STACK_VISITS)?;
    match stack.extend_from_slice(&[visit]) {
        Ok(()) => Ok(stack),
        Err(_) => Err(Memory),
    }
}

/// The visit to child i of a node, whose keys end at this bound.
pub(crate) fn visit_to_child(visit: &Visit, child: &Child, i: u32, high: Option<Key>) -> Visit
    requires { 0 < visit.now.place.level }
    ensures { visit_of result ≡ record { slot = child.now.slot; level = visit.now.place.level - 1; low = (if i == 0 then visit.now.place.low else child.now.low); high = high; up = visit.now.slot; index = i } }
{
    let low = if i == 0 { visit.place.low } else { child.low };
    Visit {
        slot: u32::from(child.slot),
        place: Place {
            level: visit.place.level - 1,
            low,
            high,
        },
        up: visit.slot,
        index: i,
    }
}

/// Puts the children of an inner node on a stack, the first one topmost.
pub(crate) fn push_children(
    stack: &mut Vec<Visit>,
    node: &NodeImage,
    visit: &Visit,
) -> Result<(), Memory>
    requires children { ReadsAsChildren node.now.0 }
    requires inner { 0 < visit.now.place.level }
    ensures { OnOk result ((v : View) → Shows v visit.now.slot node.now.0 → stack_of stack.new.items ≡ kids v (visit_of visit.now) (visit.now.place.level - 1) 0 (v.count visit.now.slot) ++ stack_of stack.old.items) }
{
    let mut high = visit.place.high;
    let mut i = node.child_count();
    while i > 0 {
        i -= 1;
        let child = node.child(i);
        let next = visit_to_child(visit, &child, i, high);
        stack.push(next)?;
        high = child.low;
    }
    Ok(())
}
