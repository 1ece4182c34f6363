//! What the words of an image mean: the tree that they are, or their first fault, and the content.
#![tactic(auto)]

pub mod laws;
mod outcomes;

pub use bz_slotted::{NodeImage, laws as slotted_laws};
pub use outcomes::{CheckError, Shape};
