//! The way up from the leaf of a key, along the path that led there, where a parent lacks the room for a split: each node that was
//! found full on it is noted, level by level.
#![tactic(auto)]

mod ascent;

pub use ascent::Ascent;
pub use bz_branch::{SplitBelow, is_due_below};
