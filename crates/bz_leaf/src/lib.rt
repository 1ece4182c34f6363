//! A leaf read whole, as it was at one moment.
#![tactic(auto)]

mod phase;
mod place;
mod read_leaf;

pub use read_leaf::ReadLeaf;
