//! The halves of an inner node that is split, and the new root over them.
#![tactic(auto)]

mod cut;
mod halves;
pub mod laws;
mod root;

pub use cut::cut_of;
pub use halves::{InnerHalves, halves_of};
pub use root::tall_root_over;
