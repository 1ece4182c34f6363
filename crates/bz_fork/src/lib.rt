//! The split of an inner node below a parent: one swap turns the link to the parent to a new one, with the node's halves in its place.
#![tactic(auto)]

mod due;
pub mod laws;
mod parent;
mod phase;
mod room;
mod split_inner;

pub use due::is_due;
pub use split_inner::SplitInner;
