//! What splits of inner nodes do: the laws of their swaps, an inner node that is read word by word, its halves, and the swap that
//! freezes two nodes.
#![tactic(auto)]

mod front;
pub mod laws;
mod links;
mod parts;
mod swaps;

pub use bz_below::{SplitBelow, is_due as is_due_below, leaves_room};
pub use bz_renew::laws as renew_laws;
pub use front::{level_of, low_fence};
pub use links::{is_full, is_thawed, link_at};
pub use parts::parts_of;
pub use swaps::swap_freezing_two;
