//! The split of a root that is an inner node: one swap turns the root pointer to a new root over the node's halves.
#![tactic(auto)]

mod due;
mod phase;
mod split_inner_root;

pub use due::is_due;
pub use split_inner_root::SplitInnerRoot;
