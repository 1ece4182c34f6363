//! The split of a frozen leaf below a parent: one swap turns the link to the parent to a new one, with the leaf's halves in its place.
#![tactic(auto)]

mod due;
mod front;
pub mod laws;
mod links;
mod phase;
mod room;
mod split_below;

pub use due::is_due;
pub use room::leaves_room;
pub use split_below::SplitBelow;
