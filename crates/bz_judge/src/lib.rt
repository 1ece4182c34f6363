//! Images judged: the shape of an image, or the first rule that it breaks; and the content of one that breaks none.
#![tactic(auto)]

mod content;
mod descent;
mod gathering;
mod judging;
mod lawful;
mod leaf;
mod node;
mod resolving;
mod root;
mod scan;
mod visit;
mod walk;
mod words;

pub use content::{leaf_end, leaf_state, pairs};
pub use judging::check;
pub use leaf::LeafState;
