//! What each restructuring of the tree shares: a leaf is read in the order of its keys, fresh nodes are written into slots that
//! were taken, and one swap turns a link to them.
#![tactic(auto)]

mod due;
pub mod laws;
mod links;
mod slot;
mod sorted;
mod swaps;

pub use bz_page::laws::ordered_pairs_are_found;
pub use due::is_due;
pub use links::last_link;
pub use slot::take_three;
pub use sorted::{Fences, is_whole, sort_records};
pub use swaps::{swap_freezing, swap_of};
