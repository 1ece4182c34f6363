//! The split of a frozen leaf: its records are parted into two fresh leaves, and one swap turns the link to them.
#![tactic(auto)]

mod due;
pub mod laws;
mod parts;
mod split_root;

pub use due::{is_due, is_large};
pub use parts::parts_of;
pub use split_root::SplitRoot;
