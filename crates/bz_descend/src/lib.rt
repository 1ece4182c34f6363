//! The way from the root to the leaf of a key.
#![tactic(auto)]

mod front;
mod links;
mod seek;
mod separator;
mod sight;

pub use seek::Seek;
