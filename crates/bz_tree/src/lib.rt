//! What an image means as a tree, slot by slot, whatever its words are.
#![tactic(auto)]

pub mod laws;
mod rule;

pub use rule::{ShapeFault, ShapeRule};
