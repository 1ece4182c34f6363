//! The halves of a leaf that is split, and the new root over them.
#![tactic(auto)]

mod cut;
mod halves;
pub mod laws;
mod parent;
mod root;

pub use cut::cut_of;
pub use halves::{Halves, halves_of};
pub use parent::{ParentChange, parent_over, place_of};
pub use root::root_over;
