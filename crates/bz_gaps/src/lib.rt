//! The free words of a node: they are 0, so whoever reads a node word by word need not read them.
#![tactic(auto)]

mod place;
mod reading;

pub use place::next_place;
pub use reading::first_word;
