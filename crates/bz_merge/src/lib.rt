//! The merge of two sibling leaves below a parent: one swap turns the link to the parent to a new one, with one leaf in their place.
#![tactic(auto)]

mod due;
mod freeze;
pub mod laws;
mod links;
mod merge;
mod phase;
mod seen;
mod sibling;
mod slots;

pub use bz_split::SplitRoot;
pub use due::is_due;
pub use merge::Merge;
